//! A format, read piece by piece (ISO/IEC 1539-1:2018, 13.3).

ghost use Rattle.std.specs.Prelude.{◌≡◌, ◌+◌, ◌*◌, ◌<◌, ℕ, [], length, IfSome, IfNone};
ghost use Rattle.image_acts.specs.Formats.{between, in_width, in_literal, descriptors, descriptors_in};
ghost use Rattle.print_text.specs.Pieces.{IsNumeric, is_integer, kept, Reads, ReadsIn};

use crate::sign::{Sign, read_sign};

/// Which items a data edit descriptor takes.
#[derive(Clone, Copy)]
pub enum DataKind {
    /// Iw (13.7.2.2)
    Integer,
    /// Lw (13.7.3)
    Logical,
    /// A (13.7.4)
    Character,
}

/// A data edit descriptor so many times, at least once; places that are skipped; or a literal, which stands between two
/// of this delimiter.
/// Numbers too large for 64 bits are the largest there.
#[derive(Clone, Copy)]
pub enum Piece<'a> {
    Data {
        kind: DataKind,
        times: u64,
        width: u64,
    },
    Skip(u64),
    Literal {
        quote: u8,
        inside: &'a [u8],
    },
}

/// A number with a digit more.
fn with_digit(number: u64, digit: u64) -> u64
    ensures { (n : ℕ) → number ≡ kept n → result ≡ kept (10 * n + digit) }
{
    number.saturating_mul(10).saturating_add(digit)
}

/// The descriptors whose letter stands before the text, and what stands behind their width and the byte that ends it;
/// nothing where the text ends first.
fn fields(kind: DataKind, times: u64, text: &[u8]) -> Option<(Piece<'_>, &[u8])>
    requires { IsNumeric kind }
    ensures some { IfSome result (λ r. (n : ℕ) → 0 < n → times ≡ kept n → ReadsIn (in_width (is_integer kind) n) 0 text.now r.0 r.1.now) }
    ensures none { IfNone result ((n : ℕ) → descriptors_in (in_width (is_integer kind) n) 0 text.now ≡ []) }
    ensures shorter { IfSome result (λ r. length r.1.now < length text.now) }
{
    let mut width = 0;
    let mut left = text;
    while let Some((first, rest)) = left.split_first() {
        left = rest;
        match read_sign(*first) {
            Sign::Digit(digit) => width = with_digit(width, digit),
            Sign::Blank => {}
            _ => return Some((Piece::Data { kind, times, width }, rest)),
        }
    }
    None
}

/// The literal whose opening delimiter stands before the text (7.4.4), and what stands behind it and one byte more;
/// nothing where the text ends first.
fn literal(quote: u8, text: &[u8]) -> Option<(Piece<'_>, &[u8])>
    ensures some { IfSome result (λ r. ReadsIn (in_literal quote []) 0 text.now r.0 r.1.now) }
    ensures none { IfNone result (descriptors_in (in_literal quote []) 0 text.now ≡ []) }
    ensures shorter { IfSome result (λ r. length r.1.now < length text.now) }
{
    let mut len = 0;
    let mut left = text;
    while let Some((first, rest)) = left.split_first() {
        left = rest;
        len += 1;
        if *first == quote {
            let Some((second, behind)) = rest.split_first() else {
                return None;
            };
            if *second != quote {
                let inside = &text[..len - 1];
                return Some((Piece::Literal { quote, inside }, behind));
            }
            left = behind;
            len += 1;
        }
    }
    None
}

/// The first piece of a format's text, and what stands behind it; nothing where there is none.
pub fn next_piece(text: &[u8]) -> Option<(Piece<'_>, &[u8])>
    ensures some { IfSome result (λ r. Reads text.now r.0 r.1.now) }
    ensures none { IfNone result (descriptors text.now ≡ []) }
    ensures shorter { IfSome result (λ r. length r.1.now < length text.now) }
{
    let mut count = 0;
    let mut left = text;
    while let Some((first, rest)) = left.split_first() {
        left = rest;
        match read_sign(*first) {
            Sign::Digit(digit) => count = with_digit(count, digit),
            Sign::Integer => return fields(DataKind::Integer, count.max(1), rest),
            Sign::Logical => return fields(DataKind::Logical, count.max(1), rest),
            Sign::Skip => return Some((Piece::Skip(count), rest)),
            Sign::Character => {
                let piece = Piece::Data {
                    kind: DataKind::Character,
                    times: 1,
                    width: 0,
                };
                return Some((piece, rest));
            }
            Sign::Quote => return literal(*first, rest),
            Sign::Blank | Sign::Other => {}
        }
    }
    None
}
