//! A line cut where a byte stands, and the numbers in it.

ghost use Rattle.std.specs.Prelude.{◌≡◌, ◌<◌, ◌^◌, ◌∷◌, ◌++◌, ℕ, ℤ, List};
ghost use Rattle.std.specs.Fmt.{decimal};
ghost use Rattle.caf_text.specs.Numbers.{decimal_text};
ghost use Rattle.trace_forms.specs.Ranges.{IsSigned};
ghost use Rattle.trace_fields.specs.Cutting.{IsCutAt};

use crate::numbers::{half_of, long_of, signed_of};

/// The front of a text up to the first of a byte, and what stands behind that byte; all of the text and nothing
/// where it hasn't that byte.
pub fn cut_at(text: &[u8], byte: u8) -> (&[u8], &[u8])
    ensures { IsCutAt byte text.now result.0.now result.1.now }
{
    for k in 0..text.len() {
        if text[k] == byte {
            return (&text[..k], &text[k + 1..]);
        }
    }
    (text, &text[text.len()..])
}

/// The field up to the next blank; what is left stands behind that blank.
pub fn next_field<'a>(rest: &mut &'a [u8]) -> &'a [u8]
    ensures { IsCutAt 32 rest.old.now result.now rest.new.now }
{
    let (field, behind) = cut_at(*rest, b' ');
    *rest = behind;
    field
}

/// The number of 64 bits in the next field.
pub fn next_long(rest: &mut &[u8]) -> u64
    ensures { (n : ℕ) (behind : List ℕ) → n < 2 ^ 64 → rest.old.now ≡ decimal n ++ (32 ∷ behind) → (result ≡ n)
        × (rest.new.now ≡ behind) }
{
    long_of(next_field(rest))
}

/// The number of 32 bits in the next field.
pub fn next_half(rest: &mut &[u8]) -> u32
    ensures { (n : ℕ) (behind : List ℕ) → n < 2 ^ 32 → rest.old.now ≡ decimal n ++ (32 ∷ behind) → (result ≡ n)
        × (rest.new.now ≡ behind) }
{
    half_of(next_field(rest))
}

/// The number of 64 bits with a sign in the next field.
pub fn next_signed(rest: &mut &[u8]) -> i64
    ensures { (z : ℤ) (behind : List ℕ) → IsSigned z → rest.old.now ≡ decimal_text z ++ (32 ∷ behind) → (result
        ≡ z) × (rest.new.now ≡ behind) }
{
    signed_of(next_field(rest))
}
