//! Blocks that units share, and the levels of a unit: the numbers of its blocks.

ghost use Rattle.std.specs.Prelude.{◌≡◌, ◌≤◌, ◌<◌, ℕ, List, [], length, OnOk};
ghost use Rattle.unit_names.specs.Found.{Row, found, joined as joined_seen, under};
ghost use Rattle.unit_names.specs.Levels.{reached, block_at, is_level, under_listed, AreWithin, Extends};

use crate::block::Block;
use crate::entity::{Found, joined};
use caf_base::refusal::NoMemory;
use scope_table::item::item;
use std::alloc::Global;

// What one block gives under a name.
fn find_at<'a>(blocks: &[Block<'a>], level: usize, name: &[u8]) -> Found<'a>
    ensures { found result ≡ under (block_at blocks.now level) name.now }
{
    match item(blocks, level) {
        Some(block) => block.find(name),
        None => Found::Nothing,
    }
}

/// What the blocks of some levels give under a name.
#[tactic(auto, using(crate::proofs::Joins::joined_laws))]
pub fn find_in<'a>(blocks: &[Block<'a>], levels: &[usize], name: &[u8]) -> Found<'a>
    ensures { found result ≡ reached blocks.now levels.now name.now }
{
    let mut all = Found::Nothing;
    for level in levels {
        all = joined(all, find_at(blocks, *level, name));
    }
    all
}

// Puts what a block gives under some names into another one.
fn add_names<'a>(
    alloc: Global,
    into: &mut Block<'a>,
    from: &Block<'a>,
    names: &[&'a [u8]],
) -> Result<(), NoMemory>
    ensures { OnOk result ((n : List ℕ) → under into.new n ≡ joined_seen (under into.old n) (under_listed names.now from.now n)) }
{
    for name in names {
        let given = from.find(*name);
        into.add(alloc, *name, given)?;
    }
    Ok(())
}

/// Puts what a block gives into another one.
pub fn add_block<'a>(alloc: Global, into: &mut Block<'a>, from: &Block<'a>) -> Result<(), NoMemory>
    ensures { OnOk result ((n : List ℕ) → under into.new n ≡ joined_seen (under into.old n) (under from.now n)) }
{
    let names = from.names();
    add_names(alloc, into, from, names)
}

// Puts what the block of a level gives into another one.
fn add_level<'a>(
    alloc: Global,
    into: &mut Block<'a>,
    blocks: &[Block<'a>],
    level: usize,
) -> Result<(), NoMemory>
    ensures { OnOk result ((n : List ℕ) → under into.new n ≡ joined_seen (under into.old n) (under (block_at blocks.now level) n)) }
{
    match item(blocks, level) {
        Some(block) => add_block(alloc, into, block),
        None => Ok(()),
    }
}

/// Puts what the blocks of some levels give into a block.
pub fn add_levels<'a>(
    alloc: Global,
    into: &mut Block<'a>,
    blocks: &[Block<'a>],
    levels: &[usize],
) -> Result<(), NoMemory>
    ensures { OnOk result ((n : List ℕ) → under into.new n ≡ joined_seen (under into.old n) (reached blocks.now levels.now n)) }
{
    for level in levels {
        add_level(alloc, into, blocks, *level)?;
    }
    Ok(())
}

// How many names the block of a level has.
fn size_at(blocks: &[Block<'_>], levels: &[usize], place: usize) -> usize {
    match item(levels, place) {
        Some(level) => match item(blocks, *level) {
            Some(block) => block.names().len(),
            None => 0,
        },
        None => 0,
    }
}

// How many of the levels stay beside a block of so many names: those behind them are no larger, and are merged with it.
fn staying(blocks: &[Block<'_>], levels: &[usize], size: usize) -> usize
    ensures { result ≤ length levels.now }
{
    let mut size = size;
    let mut count = levels.len();
    for _ in 0..levels.len() {
        if count == 0 {
            return 0;
        }
        let here = size_at(blocks, levels, count - 1);
        if size < here {
            return count;
        }
        size = size.saturating_add(here);
        count -= 1;
    }
    count
}

/// Puts levels behind others, each once.
pub fn join_levels(all: &mut Vec<usize>, more: &[usize]) -> Result<(), NoMemory>
    ensures reached { OnOk result ((bs : List (List Row)) (n : List ℕ) → reached bs all.new.items n ≡ joined_seen (reached bs all.old.items n) (reached bs more.now n)) }
    ensures within { OnOk result ((k : ℕ) → AreWithin k all.old.items → AreWithin k more.now → AreWithin k all.new.items) }
{
    for level in more {
        join_level(all, *level)?;
    }
    Ok(())
}

// Puts a level behind others, unless it is there.
fn join_level(all: &mut Vec<usize>, level: usize) -> Result<(), NoMemory>
    ensures reached { OnOk result ((bs : List (List Row)) (n : List ℕ) → reached bs all.new.items n ≡ joined_seen (reached bs all.old.items n) (under (block_at bs level) n)) }
    ensures within { OnOk result ((k : ℕ) → AreWithin k all.old.items → level < k → AreWithin k all.new.items) }
{
    if !has_level(all.as_slice(), level) {
        all.push(level)?;
    }
    Ok(())
}

fn has_level(levels: &[usize], level: usize) -> bool
    ensures { result ≡ is_level levels.now level }
{
    for here in levels {
        if *here == level {
            return true;
        }
    }
    false
}

/// One block more: the levels with it, of which it takes over those that are no larger.
pub fn settle<'a>(
    alloc: Global,
    blocks: &mut Vec<Block<'a>>,
    levels: &mut Vec<usize>,
    block: Block<'a>,
) -> Result<(), NoMemory>
    requires { AreWithin (length blocks.old.items) levels.old.items }
    ensures blocks { OnOk result (Extends blocks.old.items blocks.new.items) }
    ensures within { OnOk result (AreWithin (length blocks.new.items) levels.new.items) }
    ensures reached { OnOk result ((n : List ℕ) → reached blocks.new.items levels.new.items n ≡ joined_seen (reached blocks.old.items levels.old.items n) (under block.entry n)) }
{
    let mut block = block;
    let count = staying(blocks.as_slice(), levels.as_slice(), block.names().len());
    let here = blocks.as_slice();
    let number = here.len();
    let taken = &levels.as_slice()[count..];
    add_levels(alloc, &mut block, here, taken)?;
    levels.truncate(count);
    levels.push(number)?;
    blocks.push(block)?;
    Ok(())
}
