//! Counts and widths: numbers of 1 to 99 without a leading zero.

ghost use Rattle.std.specs.Prelude.{◌≡◌, ◌≤◌, length, map, IfSome};
ghost use Rattle.rule_definitions.specs.Formats as rules;
ghost use Rattle.format_rules.specs.Views.{seen, digit_of, lone_zero};

use crate::piece::{Piece, is_sign};

/// The value of a digit.
fn digit(piece: &Piece) -> Option<u32>
    ensures value { result ≡ digit_of (seen piece.now) }
    ensures small { IfSome result (λ value. value ≤ 9) }
{
    match piece {
        Piece::Sign(byte) if b'0' <= *byte && *byte <= b'9' => Some(u32::from(*byte - b'0')),
        _ => None,
    }
}

/// How many digits stand in front.
pub fn digits_len(pieces: &[Piece]) -> usize
    ensures value { result ≡ length (rules.counted (map seen pieces.now)).digits }
    ensures within { result ≤ length pieces.now }
{
    let mut len = 0;
    let mut left = pieces;
    while let Some((first, rest)) = left.split_first() {
        if digit(first).is_none() {
            return len;
        }
        len += 1;
        left = rest;
    }
    len
}

/// A number of 1 to 99 without a leading zero, and nothing else.
pub fn count(pieces: &[Piece]) -> Option<u32>
    ensures { result ≡ rules.number_alone rules.count_of (rules.counted (map seen pieces.now)) }
{
    let (first, behind) = pieces.split_first()?;
    let tens = digit(first)?;
    if tens == 0 {
        return None;
    }
    let Some((second, rest)) = behind.split_first() else {
        return Some(tens);
    };
    let ones = digit(second)?;
    if !rest.is_empty() {
        return None;
    }
    Some(tens * 10 + ones)
}

/// Whether the pieces are the digit 0 alone.
fn is_zero(pieces: &[Piece]) -> bool
    ensures { result ≡ lone_zero (map seen pieces.now) }
{
    match pieces.split_first() {
        Some((first, behind)) => is_sign(b'0', first) && behind.is_empty(),
        None => false,
    }
}

/// The width of I: 0 or a count.
pub fn width(pieces: &[Piece]) -> Option<u32>
    ensures { result ≡ rules.number_alone rules.width_of (rules.counted (map seen pieces.now)) }
{
    if is_zero(pieces) {
        return Some(0);
    }
    count(pieces)
}

/// A repeat count: 1 where none is written.
pub fn repeat(pieces: &[Piece]) -> Option<u32>
    ensures { result ≡ rules.number_alone rules.repeat_of (rules.counted (map seen pieces.now)) }
{
    if pieces.is_empty() {
        return Some(1);
    }
    count(pieces)
}
