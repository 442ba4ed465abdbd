//! The marks of all cells of a run.

ghost use Rattle.std.specs.Prelude.{◌≡◌, ◌<◌, ◌≤◌, ◌&&◌, ℕ, [], ◌∷◌, ◌++◌, length, get_or, nat_eq, cond, IfOk, MatchBool};
ghost use Rattle.order_theory.specs.Marks.{noted};
ghost use Rattle.segment_clock.specs.Counts.{count_of};
ghost use Rattle.race_watch.specs.Classes.{as_mark};
ghost use Rattle.race_watch.specs.Rows.{RowOf, any_of, is_in, marks_at};
ghost use Rattle.race_watch.specs.Orders.{Ordered};
ghost use Rattle.race_watch.specs.Marked.{Marked, HasPartner, Touching, TouchesAll, MayNote};

use crate::kept::Mark;
use crate::order::{Order, line_of};
use crate::row::Row;
use crate::touch::Touch;
use caf_base::refusal::NoMemory;
use caf_events::event::Entry;
use segment_clock::clock::Clock;
use std::alloc::Global;
use std::marker::Model;

/// The marks of each cell, a row for each coarray of each memory. In a contract it is the list of rows.
#[derive(Drop)]
pub struct Marks {
    rows: Vec<Row>,
}

impl Model for Marks {
    ghost use Rattle.std.specs.Prelude.{List};
    ghost use Rattle.order_theory.specs.Marks as order;

    ghost Value = { List (List (List order.Mark)) };

    ghost view = { λ m. m.rows.items };
}

// Makes the rows up to this one.
fn reach_rows(rows: &mut Vec<Row>, alloc: Global, line: usize) -> Result<(), NoMemory>
    ensures far { IfOk result (λ _. line < length rows.new.items) }
    ensures same { IfOk result (λ _. (k : ℕ) → get_or rows.new.items k [] ≡ get_or rows.old.items k []) }
{
    while rows.len() <= line {
        rows.push(Row::new(alloc))?;
    }
    Ok(())
}

// Whether one of the marks of these cells is unordered with q, whose image has this clock.
fn clashes(rows: &Vec<Row>, line: usize, offsets: &[u32], clock: &Clock, q: &Mark) -> bool
    requires { (l : ℕ) → RowOf (length clock.now) (get_or rows.now.items l []) }
    ensures { result ≡ any_of (count_of clock.now) (as_mark q.now) (get_or rows.now.items line []) offsets.now }
{
    if line < rows.len() {
        rows[line].clashes_at(offsets, clock, q)
    } else {
        false
    }
}

// Notes q at each of these cells.
fn note(
    rows: &mut Vec<Row>,
    alloc: Global,
    line: usize,
    offsets: &[u32],
    q: &Mark,
) -> Result<(), NoMemory>
    ensures { IfOk result (λ _. (l k : ℕ) → marks_at rows.new.items l k ≡ cond (nat_eq l line && is_in k offsets.now) (noted (as_mark q.now) (marks_at rows.old.items l k)) (marks_at rows.old.items l k)) }
{
    reach_rows(rows, alloc, line)?;
    rows[line].note_at(alloc, offsets, q)
}

impl Marks {
    /// Before the first entry of a run of n images.
    pub fn new(alloc: Global, _n: u32) -> Marks
        ensures { Marked _n [] result }
    {
        Marks {
            rows: Vec::new(alloc),
        }
    }

    // Whether a mark of these cells is unordered with e, which touches them.
    fn meets(&self, order: &Order, n: u32, _before: &[Entry], e: &Entry, touch: &Touch) -> bool
        requires image { (0 < e.now.image.0) × (e.now.image.0 ≤ n) }
        requires order { Ordered n _before.now order.now }
        requires marks { Marked n _before.now self.now }
        requires touch { Touching n _before.now e.now touch.now }
        ensures { MatchBool result (HasPartner n _before.now e.now) (HasPartner n _before.now e.now → ⊥) }
    {
        let place = (e.image.0 - 1) as usize;
        let q = Mark {
            image: e.image,
            segment: order.completed[place],
            class: touch.class,
        };
        let line = line_of(n, touch.owner, touch.coarray);
        clashes(
            &self.rows,
            line,
            touch.cells.as_slice(),
            &order.images[place],
            &q,
        )
    }

    // Notes e at the cells that it touches.
    fn put(
        &mut self,
        alloc: Global,
        order: &Order,
        n: u32,
        _before: &[Entry],
        e: &Entry,
        touch: &Touch,
    ) -> Result<(), NoMemory>
        requires image { (0 < e.now.image.0) × (e.now.image.0 ≤ n) }
        requires order { Ordered n _before.now order.now }
        requires marks { Marked n _before.now self.old }
        requires touch { Touching n _before.now e.now touch.now }
        requires none { MayNote n _before.now e.now }
        ensures { IfOk result (λ _. Marked n (_before.now ++ e.now ∷ []) self.new) }
    {
        let q = Mark {
            image: e.image,
            segment: order.completed[(e.image.0 - 1) as usize],
            class: touch.class,
        };
        let line = line_of(n, touch.owner, touch.coarray);
        note(&mut self.rows, alloc, line, touch.cells.as_slice(), &q)
    }

    /// Whether an entry so far conflicts with e and stands in a segment that doesn't precede that of e.
    pub fn clash(
        &self,
        order: &Order,
        n: u32,
        before: &[Entry],
        e: &Entry,
        touch: &Option<Touch>,
    ) -> bool
        requires image { (0 < e.now.image.0) × (e.now.image.0 ≤ n) }
        requires order { Ordered n before.now order.now }
        requires marks { Marked n before.now self.now }
        requires touch { TouchesAll n before.now e.now touch.now }
        ensures { MatchBool result (HasPartner n before.now e.now) (HasPartner n before.now e.now → ⊥) }
    {
        match touch {
            Some(touch) => self.meets(order, n, before, e, touch),
            None => false,
        }
    }

    /// Notes e at the cells that it touches. Condition: no entry so far is unordered with it, or it is no access.
    pub fn note(
        &mut self,
        alloc: Global,
        order: &Order,
        n: u32,
        before: &[Entry],
        e: &Entry,
        touch: &Option<Touch>,
    ) -> Result<(), NoMemory>
        requires image { (0 < e.now.image.0) × (e.now.image.0 ≤ n) }
        requires order { Ordered n before.now order.now }
        requires marks { Marked n before.now self.old }
        requires touch { TouchesAll n before.now e.now touch.now }
        requires none { MayNote n before.now e.now }
        ensures { IfOk result (λ _. Marked n (before.now ++ e.now ∷ []) self.new) }
    {
        match touch {
            Some(touch) => self.put(alloc, order, n, before, e, touch),
            None => Ok(()),
        }
    }
}
