//! What one token stands for.

ghost use Rattle.std.specs.Prelude.{ℕ, ◌≡◌, ◌≤◌, ◌<◌, true, length, slice_index, IfOk};
ghost use Rattle.std.specs.Str.{str_to_ascii_lowercase};
ghost use Rattle.fortran_tokens.specs.Bytes.{is_digit};
ghost use Rattle.fortran_tokens.specs.Cuts.{value_of};
ghost use Rattle.expr_reader.specs.Plain as plain;
ghost use Rattle.expr_reader.specs.Words.{tok_of};
ghost use Rattle.token_words.specs.Words.{IsNarrow};

use caf_base::listing::Text;
use caf_base::refusal::NoMemory;
use expr_reader::word::WordKind;
use fortran_tokens::scan::digits_len;
use fortran_tokens::token::TokenKind;
use fortran_tree::expr::NumberKind;
use std::alloc::Global;

/// The bytes with their letters in lower case.
fn lower(alloc: Global, bytes: &[u8]) -> Result<Text, NoMemory>
    ensures { IfOk result (λ text. text ≡ str_to_ascii_lowercase bytes.now) }
{
    let mut text = Text::new(alloc);
    for byte in bytes {
        text.push(byte.to_ascii_lowercase())?;
    }
    Ok(text)
}

/// The value of some digits.
fn value(digits: &[u8]) -> u64
    requires digits { (i : ℕ) → i < length digits.now → is_digit (slice_index digits.now i) ≡ true }
    requires narrow { value_of digits.now ≤ 9223372036854775807 }
    ensures { result ≡ value_of digits.now }
{
    let mut value = 0;
    for digit in digits {
        value = value * 10 + u64::from(*digit - b'0');
    }
    value
}

/// The kind that an underscore and the bytes behind it write.
fn number_kind(alloc: Global, text: &[u8]) -> Result<NumberKind, NoMemory>
    ensures { IfOk result (λ kind. kind ≡ plain.kind_behind text.now) }
{
    let [_, kind @ ..] = text else {
        return Ok(NumberKind::Unstated);
    };
    let [first, ..] = kind else {
        return Ok(NumberKind::Unstated);
    };
    match *first {
        b'4' => Ok(NumberKind::Four),
        b'8' => Ok(NumberKind::Eight),
        _ => Ok(NumberKind::Named(lower(alloc, kind)?)),
    }
}

/// An integer literal.
fn number(alloc: Global, text: &[u8]) -> Result<WordKind, NoMemory>
    requires { IsNarrow TokenKind.Number text.now }
    ensures { IfOk result (λ kind. tok_of kind ≡ plain.number text.now) }
{
    let end = digits_len(text);
    let value = value(&text[..end]);
    let kind = number_kind(alloc, &text[end..])?;
    Ok(WordKind::Integer { value, kind })
}

/// The characters before the delimiter that ends them, a doubled one being one.
fn characters(alloc: Global, quote: u8, text: &[u8]) -> Result<Text, NoMemory>
    ensures { IfOk result (λ characters. characters ≡ plain.characters quote text.now) }
{
    let mut characters = Text::new(alloc);
    let mut left = text;
    while let [first, rest @ ..] = left {
        left = rest;
        if *first == quote {
            let [_, more @ ..] = rest else {
                return Ok(characters);
            };
            left = more;
        }
        characters.push(*first)?;
    }
    Ok(characters)
}

/// A character literal.
fn literal(alloc: Global, text: &[u8]) -> Result<WordKind, NoMemory>
    ensures { IfOk result (λ kind. tok_of kind ≡ plain.literal text.now) }
{
    let [quote, rest @ ..] = text else {
        return Ok(WordKind::Literal(Text::new(alloc)));
    };
    Ok(WordKind::Literal(characters(alloc, *quote, rest)?))
}

/// What a token with these bytes stands for.
pub fn kind_of(alloc: Global, kind: TokenKind, text: &[u8]) -> Result<WordKind, NoMemory>
    requires { IsNarrow kind text.now }
    ensures { IfOk result (λ k. tok_of k ≡ plain.tok_of kind text.now) }
{
    match kind {
        TokenKind::Name => Ok(WordKind::Name(lower(alloc, text)?)),
        TokenKind::Number => number(alloc, text),
        TokenKind::Literal => literal(alloc, text),
        TokenKind::Fixed(sign) => Ok(WordKind::Fixed(sign)),
    }
}
