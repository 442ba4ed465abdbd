//! The marks that are kept of one cell.

ghost use Rattle.std.specs.Prelude.{◌≡◌, ◌<◌, ◌≤◌, ℕ, List, [], length, map, IfOk};
ghost use Rattle.std.specs.List.{All};
ghost use Rattle.order_theory.specs.Marks.{any_clash, clashes, stays, noted};
ghost use Rattle.segment_clock.specs.Counts.{count_of};
ghost use Rattle.race_watch.specs.Classes.{as_mark, MarksOf};

use crate::class::Class;
use caf_base::place::ImageNo;
use caf_base::refusal::NoMemory;
use segment_clock::clock::Clock;
use std::alloc::Global;
use std::marker::Model;

/// An entry that touched a cell: its segment and its class.
#[derive(Clone, Copy, Debug)]
pub struct Mark {
    pub image: ImageNo,
    pub segment: u64,
    pub class: Class,
}

/// The marks that are kept of one cell. In a contract it is the list of these.
#[derive(Drop)]
pub struct Kept {
    marks: Vec<Mark>,
}

impl Model for Kept {
    ghost use Rattle.std.specs.Prelude.{List};
    ghost use Rattle.order_theory.specs.Marks as order;

    ghost Value = { List order.Mark };

    ghost use Rattle.race_watch.specs.KeptMarks.{marks_of};

    ghost view = { marks_of };
}

impl Kept {
    /// No mark.
    pub fn new(alloc: Global) -> Kept
        ensures { result ≡ [] }
    {
        Kept {
            marks: Vec::new(alloc),
        }
    }

    /// Whether one of the marks is unordered with q, whose image has this clock.
    pub fn clashes(&self, clock: &Clock, q: &Mark) -> bool
        requires { MarksOf (length clock.now) self.now }
        ensures { result ≡ any_clash (count_of clock.now) (as_mark q.now) self.now }
    {
        any(clock, q, &self.marks)
    }

    /// Notes q, in place of the marks that it outranks.
    pub fn note(&mut self, q: Mark) -> Result<(), NoMemory>
        ensures { IfOk result (λ _. self.new ≡ noted (as_mark q) self.old) }
    {
        note(&mut self.marks, q)
    }
}

// Whether k meets q, is of another image and is not covered.
fn clash(clock: &Clock, q: &Mark, k: &Mark) -> bool
    requires first { 0 < k.now.image.0 }
    requires last { k.now.image.0 ≤ length clock.now }
    ensures { result ≡ clashes (count_of clock.now) (as_mark q.now) (as_mark k.now) }
{
    k.class.meets(q.class) && k.image.0 != q.image.0 && !clock.covers(k.image, k.segment)
}

fn any(clock: &Clock, q: &Mark, kept: &Vec<Mark>) -> bool
    requires { All (λ k. (0 < k.image.0) × (k.image.0 ≤ length clock.now)) kept.now.items }
    ensures { result ≡ any_clash (count_of clock.now) (as_mark q.now) (map as_mark kept.now.items) }
{
    for k in kept {
        if clash(clock, q, k) {
            return true;
        }
    }
    false
}

// Whether k is kept beside q.
fn is_kept(q: &Mark, k: &Mark) -> bool
    ensures { result ≡ stays (as_mark q.now) (as_mark k.now) }
{
    !(q.class.outranks(k.class) && (k.image.0 == q.image.0 || k.class.meets(q.class)))
}

fn note(kept: &mut Vec<Mark>, q: Mark) -> Result<(), NoMemory>
    ensures { IfOk result (λ _. map as_mark kept.new.items ≡ noted (as_mark q) (map as_mark kept.old.items)) }
{
    kept.retain(|k| is_kept(&q, k));
    kept.push(q)?;
    Ok(())
}
