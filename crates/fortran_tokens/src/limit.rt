//! The limits of tokens.

ghost use Rattle.std.specs.Prelude.{ℕ, ◌≡◌, ◌<◌, true, nat_lt, position, not, length, slice_index};
ghost use Rattle.fortran_tokens.specs.Bytes as sorts;
ghost use Rattle.fortran_tokens.specs.Cuts as spec;

use crate::byte::is_printing;
use crate::fault::Excess;
use crate::scan::digits_len;
use crate::token::TokenKind;
use caf_base::limits::NAME_LENGTH;

/// The greatest value of an integer literal.
const GREATEST: u64 = 9_223_372_036_854_775_807;

/// Whether the value of some digits is above the greatest one.
fn is_too_wide(digits: &[u8]) -> bool
    requires { (i : ℕ) → i < length digits.now → sorts.is_digit (slice_index digits.now i) ≡ true }
    ensures { result ≡ nat_lt 9223372036854775807 (spec.value_of digits.now) }
{
    let mut value = 0;
    for digit in digits {
        if value > GREATEST / 10 {
            return true;
        }
        value = value * 10 + u64::from(*digit - b'0');
        if value > GREATEST {
            return true;
        }
    }
    false
}

/// What breaks the limits of a number, and where.
fn number_excess(text: &[u8]) -> Option<Excess>
    ensures { result ≡ spec.excess_of TokenKind.Number text.now }
{
    let digits = digits_len(text);
    if is_too_wide(&text[..digits]) {
        Some(Excess::Number)
    } else if text.len() - digits > NAME_LENGTH + 1 {
        Some(Excess::Character(digits + NAME_LENGTH + 1))
    } else {
        None
    }
}

/// The first byte that is not printing.
fn not_printing(text: &[u8]) -> Option<usize>
    ensures { result ≡ position (λ byte. not (sorts.is_printing byte)) text.now }
{
    text.iter().position(|byte| !is_printing(*byte))
}

/// What breaks the limits of a token of this kind, and where.
pub fn excess_of(kind: TokenKind, text: &[u8]) -> Option<Excess>
    ensures { result ≡ spec.excess_of kind text.now }
{
    match kind {
        TokenKind::Name => {
            if text.len() > NAME_LENGTH {
                Some(Excess::Character(NAME_LENGTH))
            } else {
                None
            }
        }
        TokenKind::Number => number_excess(text),
        TokenKind::Literal => match not_printing(text) {
            None => None,
            Some(i) => Some(Excess::Character(i)),
        },
        TokenKind::Fixed(_) => None,
    }
}
