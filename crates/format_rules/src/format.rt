//! A format as a whole: a list in brackets, its items between commas (13.3).

ghost use Rattle.std.specs.Prelude.{◌≡◌, ◌≤◌, ◌++◌, ◌∷◌, [], length, map, IfOk};
ghost use Rattle.std.specs.Option.{option_map};
ghost use Rattle.rule_definitions.specs.Formats as rules;
ghost use Rattle.format_rules.specs.Views.{seen, list_of, first_len};

use crate::item::descriptor;
use crate::piece::{Piece, is_sign, pieces};
use caf_base::refusal::NoMemory;
use checked_tree::format::Descriptor;
use std::alloc::Global;

/// What stands between the brackets.
fn in_brackets(pieces: &[Piece]) -> Option<&[Piece]>
    ensures { option_map (λ xs. map seen xs.now) result ≡ rules.in_brackets (map seen pieces.now) }
{
    let (first, behind) = pieces.split_first()?;
    if !is_sign(b'(', first) {
        return None;
    }
    let (last, inside) = behind.split_last()?;
    if !is_sign(b')', last) {
        return None;
    }
    Some(inside)
}

/// How many pieces stand before the first comma.
fn item_len(pieces: &[Piece]) -> usize
    ensures value { result ≡ first_len (map seen pieces.now) }
    ensures within { result ≤ length pieces.now }
{
    let mut len = 0;
    let mut left = pieces;
    while let Some((first, rest)) = left.split_first() {
        if is_sign(b',', first) {
            return len;
        }
        len += 1;
        left = rest;
    }
    len
}

/// The items so far with one more.
fn with_item(
    mut items: Vec<Descriptor>,
    item: &[Piece],
) -> Result<Option<Vec<Descriptor>>, NoMemory>
    ensures { IfOk result (λ o. option_map list_of o ≡ option_map (λ d. items.items ++ d ∷ []) (rules.descriptor (map seen item.now))) }
{
    match descriptor(item)? {
        None => Ok(None),
        Some(item) => {
            items.push(item)?;
            Ok(Some(items))
        }
    }
}

/// The items between commas; nothing where one of them is no descriptor.
fn items(alloc: Global, pieces: &[Piece]) -> Result<Option<Vec<Descriptor>>, NoMemory>
    ensures { IfOk result (λ o. option_map list_of o ≡ rules.all_descriptors (rules.between_commas (map seen pieces.now))) }
{
    let (first, mut left) = pieces.split_at(item_len(pieces));
    let Some(mut items) = with_item(Vec::new(alloc), first)? else {
        return Ok(None);
    };
    while let Some((_comma, behind)) = left.split_first() {
        let (item, rest) = behind.split_at(item_len(behind));
        let Some(more) = with_item(items, item)? else {
            return Ok(None);
        };
        items = more;
        left = rest;
    }
    Ok(Some(items))
}

/// The items of a list, which may be empty.
fn listed(alloc: Global, pieces: &[Piece]) -> Result<Option<Vec<Descriptor>>, NoMemory>
    ensures { IfOk result (λ o. option_map list_of o ≡ rules.list_of (map seen pieces.now)) }
{
    if pieces.is_empty() {
        return Ok(Some(Vec::new(alloc)));
    }
    items(alloc, pieces)
}

/// The items of a format in order; nothing where the text is no format.
pub fn descriptors(alloc: Global, text: &[u8]) -> Result<Option<Vec<Descriptor>>, NoMemory>
    ensures { IfOk result (λ o. option_map list_of o ≡ rules.descriptors text.now) }
{
    let Some(pieces) = pieces(alloc, text)? else {
        return Ok(None);
    };
    let Some(inside) = in_brackets(pieces.as_slice()) else {
        return Ok(None);
    };
    listed(alloc, inside)
}
