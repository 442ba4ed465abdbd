//! Numbers in decimal. Of a field that writes none the answer may be any.

ghost use Rattle.std.specs.Prelude.{◌≡◌, ◌<◌, ◌^◌, ℕ, ℤ, suc, pos, negsuc, Some};
ghost use Rattle.std.specs.Fmt.{decimal};
ghost use Rattle.caf_text.specs.Numbers.{decimal_text};
ghost use Rattle.trace_forms.specs.Ranges.{IsSigned, IsSignedHalf};

use std::str;

// The number of 64 bits that a field writes.
fn number_of(field: &[u8]) -> Option<u64>
    ensures { (n : ℕ) → n < 2 ^ 64 → field.now ≡ decimal n → result ≡ Some n }
{
    let Ok(text) = str::from_utf8(field) else {
        return None;
    };
    text.parse::<u64>().ok()
}

/// The number of 64 bits that a field writes.
pub fn long_of(field: &[u8]) -> u64
    ensures { (n : ℕ) → n < 2 ^ 64 → field.now ≡ decimal n → result ≡ n }
{
    match number_of(field) {
        Some(n) => n,
        None => 0,
    }
}

/// The number of 32 bits that a field writes.
pub fn half_of(field: &[u8]) -> u32
    ensures { (n : ℕ) → n < 2 ^ 32 → field.now ≡ decimal n → result ≡ n }
{
    match number_of(field) {
        Some(n) if n < 4_294_967_296 => n as u32,
        _ => 0,
    }
}

// A number that isn't negative.
fn positive_of(field: &[u8]) -> i64
    ensures { (n : ℕ) → n < 2 ^ 63 → field.now ≡ decimal n → result ≡ pos n }
{
    match number_of(field) {
        Some(n) if n < 9_223_372_036_854_775_808 => n as i64,
        _ => 0,
    }
}

// A negative number, by its digits.
fn negative_of(digits: &[u8]) -> i64
    ensures { (n : ℕ) → n < 2 ^ 63 → digits.now ≡ decimal (suc n) → result ≡ negsuc n }
{
    match number_of(digits) {
        Some(n) if n > 0 && n <= 9_223_372_036_854_775_808 => -((n - 1) as i64) - 1,
        _ => 0,
    }
}

/// The number of 64 bits with a sign that a field writes.
pub fn signed_of(field: &[u8]) -> i64
    ensures { (z : ℤ) → IsSigned z → field.now ≡ decimal_text z → result ≡ z }
{
    if !field.is_empty() && field[0] == b'-' {
        negative_of(&field[1..])
    } else {
        positive_of(field)
    }
}

/// The number of 32 bits with a sign that a field writes.
pub fn signed_half_of(field: &[u8]) -> i32
    ensures { (z : ℤ) → IsSignedHalf z → field.now ≡ decimal_text z → result ≡ z }
{
    let number = signed_of(field);
    if -2_147_483_648 <= number && number <= 2_147_483_647 {
        number as i32
    } else {
        0
    }
}
