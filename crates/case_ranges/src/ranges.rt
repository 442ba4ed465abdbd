//! The ranges that were added so far.

ghost use Rattle.std.specs.Prelude.{◌≡◌, ◌∷◌, ◌++◌, [], OnErr, OnOk};
ghost use Rattle.case_ranges.specs.Intervals.{Stored};
ghost use Rattle.rule_definitions.specs.Statements as rules;

use crate::ends::{high_end, low_end};
use crate::intervals::{Interval, absorb, meeting, put};
use caf_base::refusal::NoMemory;
use checked_tree::statement::CaseRange;
use std::alloc::Global;
use std::collections::BTreeMap;
use std::marker::Model;

/// The ranges that were added, as a list in their order.
#[derive(Drop)]
pub struct CaseRanges {
    added: Vec<CaseRange>,
    // The numbers that they have.
    intervals: BTreeMap<i64, i64>,
}

impl Model for CaseRanges {
    ghost use Rattle.std.specs.Prelude.{List};
    ghost use Rattle.checked_tree.specs.declared.statement.CaseRange.{CaseRange};
    ghost use Rattle.case_ranges.specs.Intervals.{Stored};

    ghost Value = { List CaseRange };

    ghost view = { λ s. s.added.items };

    ghost invariant = { λ s. Stored s.intervals s.added.items };
}

impl CaseRanges {
    /// None.
    pub fn new(alloc: Global) -> CaseRanges
        ensures { result ≡ [] }
    {
        CaseRanges {
            added: Vec::new(alloc),
            intervals: BTreeMap::new(alloc),
        }
    }

    /// Whether a range has a value of one of these.
    pub fn overlaps_one(&self, range: CaseRange) -> bool
        ensures { result ≡ rules.overlaps_one self.now range }
    {
        let of = Interval {
            low: low_end(range),
            high: high_end(range),
        };
        of.low <= of.high && meeting(&self.intervals, of).is_some()
    }

    /// Adds a range. After want of memory none is there.
    pub fn add(&mut self, range: CaseRange) -> Result<(), NoMemory>
        ensures added { OnOk result (self.new ≡ self.old ++ range ∷ []) }
        ensures lost { OnErr result (self.new ≡ []) }
    {
        match store(&mut self.added, &mut self.intervals, range) {
            Ok(()) => Ok(()),
            Err(error) => {
                self.added.clear();
                self.intervals.clear();
                Err(error)
            }
        }
    }
}

// Adds a range to the list, and its numbers to the intervals.
fn store(
    added: &mut Vec<CaseRange>,
    intervals: &mut BTreeMap<i64, i64>,
    range: CaseRange,
) -> Result<(), NoMemory>
    ensures added { OnOk result (added.new.items ≡ added.old.items ++ range ∷ []) }
    ensures stored { OnOk result (Stored intervals.old added.old.items → Stored intervals.new added.new.items) }
{
    added.push(range)?;
    let of = Interval {
        low: low_end(range),
        high: high_end(range),
    };
    if of.low > of.high {
        return Ok(());
    }
    let all = absorb(intervals, of);
    put(intervals, all)
}
