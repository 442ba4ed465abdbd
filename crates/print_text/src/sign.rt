//! What a byte of a format is outside of its literals.

ghost use Rattle.std.specs.Prelude.{◌≡◌};
ghost use Rattle.image_acts.specs.Formats.{sign_of};
ghost use Rattle.print_text.specs.Pieces.{sign_seen};

/// A byte between items; letters stand in either case.
#[derive(Clone, Copy)]
pub enum Sign {
    Digit(u64),
    Integer,
    Logical,
    Skip,
    Character,
    Quote,
    Blank,
    Other,
}

/// The sign that a byte is.
pub fn read_sign(byte: u8) -> Sign
    ensures { sign_seen result ≡ sign_of byte }
{
    match byte {
        b'0'..=b'9' => Sign::Digit(u64::from(byte - b'0')),
        b'I' | b'i' => Sign::Integer,
        b'L' | b'l' => Sign::Logical,
        b'X' | b'x' => Sign::Skip,
        b'A' | b'a' => Sign::Character,
        b'"' | b'\'' => Sign::Quote,
        b' ' | b'\t' => Sign::Blank,
        _ => Sign::Other,
    }
}
