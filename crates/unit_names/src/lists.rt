//! What the lists of USE statements give: what is behind ONLY, what has new names, and what keeps its own.

ghost use Rattle.std.specs.Prelude.{◌≡◌, ℕ, List, bytes_eq, cond, map, OnOk};
ghost use Rattle.unit_tree.specs.FileViews as view;
ghost use Rattle.unit_names.specs.Accessible.{is_renamed, under_item, under_items, under_new, under_own, under_renames};
ghost use Rattle.unit_names.specs.Found.{joined as joined_seen, under};
ghost use Rattle.unit_names.specs.Levels.{reached, block_at, under_listed};

use crate::block::Block;
use crate::levels::find_in;
use caf_base::refusal::NoMemory;
use fortran_tree::name::Name;
use scope_table::item::item;
use std::alloc::Global;
use unit_tree::file::{OnlyItem, Rename};

/// Whether a name has a new one.
pub fn has_new_name(renames: &[Rename], name: &[u8]) -> bool
    ensures { result ≡ is_renamed (map view.rename renames.now) name.now }
{
    for rename in renames {
        if rename.entity.text.as_slice() == name {
            return true;
        }
    }
    false
}

// Puts what levels give under one name into a block, under another one.
fn add_new<'a>(
    alloc: Global,
    into: &mut Block<'a>,
    blocks: &[Block<'a>],
    levels: &[usize],
    new: &'a Name,
    old: &Name,
) -> Result<(), NoMemory>
    ensures { OnOk result ((n : List ℕ) → under into.new n ≡ joined_seen (under into.old n) (under_new (reached blocks.now levels.now) new.now.text old.now.text n)) }
{
    let found = find_in(blocks, levels, old.text.as_slice());
    into.add(alloc, new.text.as_slice(), found)
}

// What an item behind ONLY gives.
fn add_item<'a>(
    alloc: Global,
    into: &mut Block<'a>,
    blocks: &[Block<'a>],
    levels: &[usize],
    one: &'a OnlyItem,
) -> Result<(), NoMemory>
    ensures { OnOk result ((n : List ℕ) → under into.new n ≡ joined_seen (under into.old n) (under_item (reached blocks.now levels.now) (view.only_item one.now) n)) }
{
    match one {
        OnlyItem::Named(name) => add_new(alloc, into, blocks, levels, name, name),
        OnlyItem::Renamed(rename) => add_new(
            alloc,
            into,
            blocks,
            levels,
            &rename.local,
            &rename.entity,
        ),
    }
}

///// What is listed behind ONLY.
pub fn add_items<'a>(
    alloc: Global,
    into: &mut Block<'a>,
    blocks: &[Block<'a>],
    levels: &[usize],
    items: &'a [OnlyItem],
) -> Result<(), NoMemory>
    ensures { OnOk result ((n : List ℕ) → under into.new n ≡ joined_seen (under into.old n) (under_items (reached blocks.now levels.now) (map view.only_item items.now) n)) }
{
    for one in items {
        add_item(alloc, into, blocks, levels, one)?;
    }
    Ok(())
}

//// What has new names.
pub fn add_renames<'a>(
    alloc: Global,
    into: &mut Block<'a>,
    blocks: &[Block<'a>],
    levels: &[usize],
    renames: &'a [Rename],
) -> Result<(), NoMemory>
    ensures { OnOk result ((n : List ℕ) → under into.new n ≡ joined_seen (under into.old n) (under_renames (reached blocks.now levels.now) (map view.rename renames.now) n)) }
{
    for rename in renames {
        add_new(alloc, into, blocks, levels, &rename.local, &rename.entity)?;
    }
    Ok(())
}

// What a block gives under a name, unless the name has a new one.
fn add_unless<'a>(
    alloc: Global,
    into: &mut Block<'a>,
    from: &Block<'a>,
    name: &'a [u8],
    renames: &[Rename],
) -> Result<(), NoMemory>
    ensures { OnOk result ((n : List ℕ) → under into.new n ≡ cond (bytes_eq name.now n) (joined_seen (under into.old n) (under_own (under from.now) (map view.rename renames.now) n)) (under into.old n)) }
{
    if has_new_name(renames, name) {
        return Ok(());
    }
    let given = from.find(name);
    into.add(alloc, name, given)
}

// What a block gives under names that have no new ones.
fn add_own<'a>(
    alloc: Global,
    into: &mut Block<'a>,
    from: &Block<'a>,
    names: &[&'a [u8]],
    renames: &[Rename],
) -> Result<(), NoMemory>
    ensures { OnOk result ((n : List ℕ) → under into.new n ≡ joined_seen (under into.old n) (under_own (under_listed names.now from.now) (map view.rename renames.now) n)) }
{
    for name in names {
        add_unless(alloc, into, from, *name, renames)?;
    }
    Ok(())
}

// The same of the block of a level.
fn add_level_own<'a>(
    alloc: Global,
    into: &mut Block<'a>,
    blocks: &[Block<'a>],
    level: usize,
    renames: &[Rename],
) -> Result<(), NoMemory>
    ensures { OnOk result ((n : List ℕ) → under into.new n ≡ joined_seen (under into.old n) (under_own (under (block_at blocks.now level)) (map view.rename renames.now) n)) }
{
    match item(blocks, level) {
        Some(block) => {
            let names = block.names();
            add_own(alloc, into, block, names, renames)
        }
        None => Ok(()),
    }
}

/// What the blocks of levels give under names that have no new ones.
pub fn add_kept<'a>(
    alloc: Global,
    into: &mut Block<'a>,
    blocks: &[Block<'a>],
    levels: &[usize],
    renames: &[Rename],
) -> Result<(), NoMemory>
    ensures { OnOk result ((n : List ℕ) → under into.new n ≡ joined_seen (under into.old n) (under_own (reached blocks.now levels.now) (map view.rename renames.now) n)) }
{
    for level in levels {
        add_level_own(alloc, into, blocks, *level, renames)?;
    }
    Ok(())
}
