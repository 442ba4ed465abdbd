//! The longest form at the front of a text, sort by sort.

ghost use Rattle.std.specs.Prelude.{◌≡◌, ◌≤◌, true, None, map, length, IfSome, IfNone};
ghost use Rattle.std.specs.List.{prefix_len};
ghost use Rattle.fortran_tokens.specs.Bytes as sorts;
ghost use Rattle.fortran_tokens.specs.Scans as spec;
ghost use Rattle.fortran_tokens.specs.Cuts.{IsLongest, NoForm};

use crate::byte::{Sort, is_digit, is_letter, is_name_byte, sort_of};
use crate::token::{SPELLINGS, Sign, TokenKind};

/// How many digits stand at the front.
pub fn digits_len(text: &[u8]) -> usize
    ensures value { result ≡ prefix_len sorts.is_digit text.now }
    ensures within { result ≤ length text.now }
{
    for (i, byte) in text.iter().enumerate() {
        if !is_digit(*byte) {
            return i;
        }
    }
    text.len()
}

/// How many bytes that a name may have stand at the front.
fn name_rest_len(text: &[u8]) -> usize
    ensures value { result ≡ prefix_len sorts.is_name_byte text.now }
    ensures within { result ≤ length text.now }
{
    for (i, byte) in text.iter().enumerate() {
        if !is_name_byte(*byte) {
            return i;
        }
    }
    text.len()
}

/// The length of an underscore and a kind at the front, or 0.
fn kind_len(text: &[u8]) -> usize
    ensures value { result ≡ spec.kind_len text.now }
    ensures within { result ≤ length text.now }
{
    let [b'_', first, rest @ ..] = text else {
        return 0;
    };
    if is_letter(*first) {
        2 + name_rest_len(rest)
    } else if *first == b'4' || *first == b'8' {
        2
    } else {
        0
    }
}

/// The length of the digits at the front, and of a kind behind them.
fn number_rest_len(text: &[u8]) -> usize
    ensures value { result ≡ spec.number_rest_len text.now }
    ensures within { result ≤ length text.now }
{
    for (i, byte) in text.iter().enumerate() {
        if !is_digit(*byte) {
            return i + kind_len(&text[i..]);
        }
    }
    text.len()
}

/// The last place at which a literal with this delimiter is closed, before a byte that is not its own delimiter
/// follows.
fn literal_rest_len(quote: u8, text: &[u8]) -> Option<usize>
    ensures value { result ≡ spec.closes quote true text.now }
    ensures within { IfSome result (λ len. len ≤ length text.now) }
{
    let mut inside = true;
    let mut last = None;
    for (i, byte) in text.iter().enumerate() {
        if inside {
            if *byte == quote {
                inside = false;
                last = Some(i + 1);
            }
        } else if *byte == quote {
            inside = true;
        } else {
            return last;
        }
    }
    last
}

/// Whether the text begins with a spelling, letters in either case.
fn begins(spelling: &[u8], text: &[u8]) -> bool
    ensures { result ≡ spec.begins spelling.now text.now }
{
    let mut rest = text;
    for letter in spelling {
        let [first, others @ ..] = rest else {
            return false;
        };
        if first.to_ascii_lowercase() != *letter {
            return false;
        }
        rest = others;
    }
    true
}

/// Whether a length is greater than that of the best so far.
fn is_longer(best: Option<(Sign, usize)>, len: usize) -> bool
    ensures { result ≡ spec.is_longer best len }
{
    match best {
        None => true,
        Some((_, most)) => most < len,
    }
}

/// The longest spelling of a table's rows that begins the text, with its length.
fn longest_of(mut table: &[(&[u8], Sign)], text: &[u8]) -> Option<(Sign, usize)>
    ensures { result ≡ spec.best_of None (map (λ row. (row.0.now, row.1)) table.entry.now) text.now }
{
    let mut best = None;
    while let [row, rows @ ..] = table {
        let (spelling, sign) = *row;
        if begins(spelling, text) && is_longer(best, spelling.len()) {
            best = Some((sign, spelling.len()));
        }
        table = rows;
    }
    best
}

/// The longest spelling that begins the text, with its length.
fn longest_sign(text: &[u8]) -> Option<(Sign, usize)>
    ensures { result ≡ spec.sign_found text.now }
{
    longest_of(&SPELLINGS, text)
}

/// The form that is found at the front of a text, and its length.
fn form_found(text: &[u8]) -> Option<(TokenKind, usize)>
    ensures { result ≡ spec.form_found text.now }
{
    let [first, rest @ ..] = text else {
        return None;
    };
    match sort_of(*first) {
        Sort::Letter => Some((TokenKind::Name, 1 + name_rest_len(rest))),
        Sort::Digit => Some((TokenKind::Number, 1 + number_rest_len(rest))),
        Sort::Quote => match literal_rest_len(*first, rest) {
            None => None,
            Some(len) => Some((TokenKind::Literal, 1 + len)),
        },
        Sort::Other => match longest_sign(text) {
            None => None,
            Some((sign, len)) => Some((TokenKind::Fixed(sign), len)),
        },
    }
}

/// The longest form at the front of a text, and its length.
pub fn longest_form(text: &[u8]) -> Option<(TokenKind, usize)>
    ensures none { IfNone result (NoForm text.now) }
    ensures some { IfSome result (λ r. IsLongest text.now r.0 r.1) }
    ensures positive { IfSome result (λ r. 1 ≤ r.1) }
{
    form_found(text)
}
