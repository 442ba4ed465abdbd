//! Numbers in decimal.

ghost use Rattle.std.specs.Prelude.{◌≡◌, ◌≢◌, ◌≤◌, ◌<◌, ◌^◌, ℕ, IfSome, IfNone};
ghost use Rattle.std.specs.Fmt.{decimal};

/// The number that a word is in decimal, below 4,294,967,296.
pub fn number_of(word: &str) -> Option<u32>
    ensures number { IfSome result (λ n. word.now ≡ decimal n) }
    ensures none { IfNone result ((n : ℕ) → n < 2 ^ 32 → word.now ≢ decimal n) }
{
    let bytes = word.as_bytes();
    let first = *bytes.first()?;
    if first == b'+' || (first == b'0' && bytes.len() > 1) {
        return None;
    }
    word.parse().ok()
}

/// The number within bounds that a word is in decimal.
pub fn number_between(word: &str, least: u32, most: u32) -> Option<u32>
    ensures number { IfSome result (λ n. (word.now ≡ decimal n) × (least ≤ n) × (n ≤ most)) }
    ensures none { IfNone result ((n : ℕ) → least ≤ n → n ≤ most → word.now ≢ decimal n) }
{
    let number = number_of(word)?;
    if number < least || most < number {
        return None;
    }
    Some(number)
}
