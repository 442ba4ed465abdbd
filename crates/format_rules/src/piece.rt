//! The pieces of a format: signs, and literals.

ghost use Rattle.std.specs.Prelude.{◌≡◌, [], ◌≤◌, length, IfOk, IfSome};
ghost use Rattle.std.specs.Option.{option_map};
ghost use Rattle.rule_definitions.specs.Formats as rules;
ghost use Rattle.format_rules.specs.Views.{seen, pieces_of, with_literal};

use caf_base::listing::Text;
use caf_base::refusal::NoMemory;
use std::alloc::Global;

/// A piece of a format: a character outside of literals, a letter in lower case; or the characters of a literal, a
/// doubled delimiter being one.
#[derive(Drop)]
pub enum Piece {
    Sign(u8),
    Quoted(Text),
}

/// Whether a byte is a blank or a tab.
fn is_blank(byte: u8) -> bool
    ensures { result ≡ rules.is_blank byte }
{
    byte == b' ' || byte == b'\t'
}

/// Whether a byte delimits literals.
fn is_quote(byte: u8) -> bool
    ensures { result ≡ rules.is_quote byte }
{
    byte == b'\'' || byte == b'"'
}

/// A byte, a letter in lower case.
fn lower(byte: u8) -> u8
    ensures { result ≡ rules.lower byte }
{
    byte.to_ascii_lowercase()
}

/// Whether a piece is this sign.
pub fn is_sign(sign: u8, piece: &Piece) -> bool
    ensures { result ≡ rules.is_sign sign (seen piece.now) }
{
    match piece {
        Piece::Sign(byte) => *byte == sign,
        Piece::Quoted(_) => false,
    }
}

/// The characters of a literal whose opening delimiter stands before the text (7.4.4), and the text behind it; nothing
/// where it isn't closed.
fn literal(alloc: Global, quote: u8, text: &[u8]) -> Result<Option<(Text, &[u8])>, NoMemory>
    ensures read { IfOk result (λ o. with_literal (option_map (λ r. (r.0, r.1.now)) o) ≡ rules.pieces (rules.inside quote []) text.now) }
    ensures shorter { IfOk result (λ o. IfSome o (λ r. length r.1.now ≤ length text.now)) }
{
    let mut characters = Text::new(alloc);
    let mut left = text;
    while let [first, rest @ ..] = left {
        left = rest;
        if *first == quote {
            let [second, more @ ..] = rest else {
                return Ok(Some((characters, rest)));
            };
            if *second != quote {
                return Ok(Some((characters, rest)));
            }
            left = more;
        }
        characters.push(*first)?;
    }
    Ok(None)
}

/// The pieces of a text, blanks outside of literals passed over (13.3); nothing where a literal isn't closed.
pub fn pieces(alloc: Global, text: &[u8]) -> Result<Option<Vec<Piece>>, NoMemory>
    ensures { IfOk result (λ o. option_map pieces_of o ≡ rules.pieces rules.outside text.now) }
{
    let mut pieces = Vec::new(alloc);
    let mut left = text;
    while let Some((first, rest)) = left.split_first() {
        left = rest;
        if is_quote(*first) {
            let Some((characters, behind)) = literal(alloc, *first, rest)? else {
                return Ok(None);
            };
            pieces.push(Piece::Quoted(characters))?;
            left = behind;
        } else if !is_blank(*first) {
            pieces.push(Piece::Sign(lower(*first)))?;
        }
    }
    Ok(Some(pieces))
}
