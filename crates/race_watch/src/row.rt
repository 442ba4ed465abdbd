//! The marks of the cells of one coarray in one memory.

ghost use Rattle.std.specs.Prelude.{◌≡◌, ◌<◌, ◌≤◌, ℕ, Bool, List, [], length, get_or, nat_eq, cond, IfOk};
ghost use Rattle.order_theory.specs.Marks.{any_clash, noted};
ghost use Rattle.segment_clock.specs.Counts.{count_of};
ghost use Rattle.race_watch.specs.Classes.{as_mark, MarksOf};
ghost use Rattle.race_watch.specs.Rows.{RowOf, any_of, is_in};

use crate::kept::{Kept, Mark};
use caf_base::refusal::NoMemory;
use segment_clock::clock::Clock;
use std::alloc::Global;
use std::marker::Model;

/// What is kept of each cell, by its offset; where the list ends, nothing is. In a contract it is the list of these.
#[derive(Drop)]
pub struct Row {
    cells: Vec<Kept>,
}

impl Model for Row {
    ghost use Rattle.std.specs.Prelude.{List};
    ghost use Rattle.order_theory.specs.Marks as order;

    ghost Value = { List (List order.Mark) };

    ghost view = { λ r. r.cells.items };
}

impl Row {
    /// Nothing is kept of any cell.
    pub fn new(alloc: Global) -> Row
        ensures { result ≡ [] }
    {
        Row {
            cells: Vec::new(alloc),
        }
    }

    /// Whether one of the cell's marks is unordered with q, whose image has this clock.
    pub fn clashes(&self, offset: u32, clock: &Clock, q: &Mark) -> bool
        requires { RowOf (length clock.now) self.now }
        ensures { result ≡ any_clash (count_of clock.now) (as_mark q.now) (get_or self.now offset []) }
    {
        match self.cells.get(offset as usize) {
            Some(kept) => kept.clashes(clock, q),
            None => false,
        }
    }

    /// The same of one of these cells.
    pub fn clashes_at(&self, offsets: &[u32], clock: &Clock, q: &Mark) -> bool
        requires { RowOf (length clock.now) self.now }
        ensures { result ≡ any_of (count_of clock.now) (as_mark q.now) self.now offsets.now }
    {
        for offset in offsets {
            if self.clashes(*offset, clock, q) {
                return true;
            }
        }
        false
    }

    /// Notes q at a cell.
    pub fn note(&mut self, alloc: Global, offset: u32, q: &Mark) -> Result<(), NoMemory>
        ensures { IfOk result (λ _. (k : ℕ) → get_or self.new k [] ≡ cond (nat_eq k offset) (noted (as_mark q.now) (get_or self.old k [])) (get_or self.old k [])) }
    {
        reach(&mut self.cells, alloc, offset as usize)?;
        self.cells[offset as usize].note(*q)
    }

    /// Notes q at each of these cells.
    pub fn note_at(&mut self, alloc: Global, offsets: &[u32], q: &Mark) -> Result<(), NoMemory>
        ensures { IfOk result (λ _. (k : ℕ) → get_or self.new k [] ≡ cond (is_in k offsets.now) (noted (as_mark q.now) (get_or self.old k [])) (get_or self.old k [])) }
    {
        for offset in offsets {
            self.note(alloc, *offset, q)?;
        }
        Ok(())
    }
}

// Makes the cells up to this one.
fn reach(cells: &mut Vec<Kept>, alloc: Global, offset: usize) -> Result<(), NoMemory>
    ensures far { IfOk result (λ _. offset < length cells.new.items) }
    ensures same { IfOk result (λ _. (k : ℕ) → get_or cells.new.items k [] ≡ get_or cells.old.items k []) }
{
    while cells.len() <= offset {
        cells.push(Kept::new(alloc))?;
    }
    Ok(())
}
