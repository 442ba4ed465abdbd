//! The sorts of bytes that tokens are made of (ISO/IEC 1539-1:2018, 6.1).

ghost use Rattle.std.specs.Prelude.{◌≡◌};
ghost use Rattle.fortran_tokens.specs.Bytes as spec;

/// What a byte may begin.
#[derive(Clone, Copy)]
pub enum Sort {
    Letter,
    Digit,
    Quote,
    Other,
}

/// Whether it is a blank or a tab.
pub fn is_blank(byte: u8) -> bool
    ensures { result ≡ spec.is_blank byte }
{
    byte == b' ' || byte == b'\t'
}

/// Whether it is a letter, of either case.
pub fn is_letter(byte: u8) -> bool
    ensures { result ≡ spec.is_letter byte }
{
    (b'A' <= byte && byte <= b'Z') || (b'a' <= byte && byte <= b'z')
}

/// Whether it is a digit.
pub fn is_digit(byte: u8) -> bool
    ensures { result ≡ spec.is_digit byte }
{
    b'0' <= byte && byte <= b'9'
}

/// Whether it is one of the two delimiters of a character literal.
pub fn is_quote(byte: u8) -> bool
    ensures { result ≡ spec.is_quote byte }
{
    byte == b'\'' || byte == b'"'
}

/// Whether it may stand in a name behind the first letter.
pub fn is_name_byte(byte: u8) -> bool
    ensures { result ≡ spec.is_name_byte byte }
{
    is_letter(byte) || is_digit(byte) || byte == b'_'
}

/// Whether it may stand in a character literal: a tab or a printing character of ASCII.
pub fn is_printing(byte: u8) -> bool
    ensures { result ≡ spec.is_printing byte }
{
    byte == b'\t' || (32 <= byte && byte < 127)
}

/// What a byte may begin.
pub fn sort_of(byte: u8) -> Sort
    ensures { result ≡ spec.sort_of byte }
{
    if is_letter(byte) {
        Sort::Letter
    } else if is_digit(byte) {
        Sort::Digit
    } else if is_quote(byte) {
        Sort::Quote
    } else {
        Sort::Other
    }
}
