//! One item of a format.

ghost use Rattle.std.specs.Prelude.{◌≡◌, [], ◌∷◌, map, IfOk};
ghost use Rattle.checked_tree.specs.declared.format.Descriptor.TheVariants as kinds;
ghost use Rattle.rule_definitions.specs.Judgements.{both};
ghost use Rattle.rule_definitions.specs.Formats as rules;
ghost use Rattle.format_rules.specs.Views.{seen};

use crate::number::{count, digits_len, repeat, width};
use crate::piece::Piece;
use caf_base::listing::Text;
use caf_base::refusal::NoMemory;
use checked_tree::format::Descriptor;

/// `rIw` (13.7.2.2), where these digits stand before the letter and these pieces behind it.
fn integer(digits: &[Piece], behind: &[Piece]) -> Option<Descriptor>
    requires { (rules.counted (map seen digits.now)).rest ≡ [] }
    ensures { result ≡ both kinds.Integer (rules.repeat_of (rules.counted (map seen digits.now)).digits) (rules.number_alone rules.width_of (rules.counted (map seen behind.now))) }
{
    let repeat = repeat(digits)?;
    let width = width(behind)?;
    Some(Descriptor::Integer { repeat, width })
}

/// `rLw` (13.7.3)
fn logical(digits: &[Piece], behind: &[Piece]) -> Option<Descriptor>
    requires { (rules.counted (map seen digits.now)).rest ≡ [] }
    ensures { result ≡ both kinds.Logical (rules.repeat_of (rules.counted (map seen digits.now)).digits) (rules.number_alone rules.count_of (rules.counted (map seen behind.now))) }
{
    let repeat = repeat(digits)?;
    let width = count(behind)?;
    Some(Descriptor::Logical { repeat, width })
}

/// `nX` (13.8.1.3)
fn skip(digits: &[Piece], behind: &[Piece]) -> Option<Descriptor>
    requires { (rules.counted (map seen digits.now)).rest ≡ [] }
    ensures { result ≡ rules.skip_of (rules.counted (map seen digits.now)).digits (map seen behind.now) }
{
    if !behind.is_empty() {
        return None;
    }
    let count = count(digits)?;
    Some(Descriptor::Skip { count })
}

/// `A` (13.7.4), which has neither a count nor a width.
fn character(digits: &[Piece], behind: &[Piece]) -> Option<Descriptor>
    requires { (rules.counted (map seen digits.now)).rest ≡ [] }
    ensures { result ≡ rules.character_of (rules.counted (map seen digits.now)).digits (map seen behind.now) }
{
    if digits.is_empty() && behind.is_empty() {
        Some(Descriptor::Character)
    } else {
        None
    }
}

/// The descriptor with this letter.
fn lettered(digits: &[Piece], letter: u8, behind: &[Piece]) -> Option<Descriptor>
    requires { (rules.counted (map seen digits.now)).rest ≡ [] }
    ensures { result ≡ rules.edited (rules.counted (map seen digits.now)).digits letter (map seen behind.now) }
{
    match letter {
        b'i' => integer(digits, behind),
        b'l' => logical(digits, behind),
        b'x' => skip(digits, behind),
        b'a' => character(digits, behind),
        _ => None,
    }
}

/// An item with a letter, perhaps behind some digits.
fn edited(item: &[Piece]) -> Option<Descriptor>
    ensures { result ≡ rules.edited_behind (rules.counted (map seen item.now)) }
{
    let (digits, rest) = item.split_at(digits_len(item));
    let (first, behind) = rest.split_first()?;
    match first {
        Piece::Sign(letter) => lettered(digits, *letter, behind),
        Piece::Quoted(_) => None,
    }
}

/// A literal that stands alone.
fn literal(characters: &Text, behind: &[Piece]) -> Result<Option<Descriptor>, NoMemory>
    ensures { IfOk result (λ o. o ≡ rules.descriptor (rules.quoted characters.now ∷ map seen behind.now)) }
{
    if !behind.is_empty() {
        return Ok(None);
    }
    let characters = characters.copy()?;
    Ok(Some(Descriptor::Literal(characters)))
}

/// One item of a format; nothing where the pieces are none.
pub fn descriptor(item: &[Piece]) -> Result<Option<Descriptor>, NoMemory>
    ensures { IfOk result (λ o. o ≡ rules.descriptor (map seen item.now)) }
{
    match item.split_first() {
        Some((Piece::Quoted(characters), behind)) => literal(characters, behind),
        _ => Ok(edited(item)),
    }
}
