//! Closed intervals in a map, each as its lower end at its upper one; no two have a number in common.

ghost use Rattle.std.specs.Prelude.{◌≡◌, ◌≤ℤ◌, IfSome, List, None, OnOk};
ghost use Rattle.checked_tree.specs.declared.statement.CaseRange.{CaseRange};
ghost use Rattle.case_ranges.specs.Intervals.{AreApart, Has, IsFree, Keeps, KeepsWith};

use caf_base::refusal::NoMemory;
use std::collections::BTreeMap;

/// An interval: its ends.
#[derive(Clone, Copy)]
pub struct Interval {
    pub low: i64,
    pub high: i64,
}

/// One that has a number of an interval.
pub fn meeting(intervals: &BTreeMap<i64, i64>, of: Interval) -> Option<Interval>
    ensures has { IfSome result (λ x. Has intervals.now x.high x.low) }
    ensures low { IfSome result (λ x. x.low ≤ℤ of.high) }
    ensures high { IfSome result (λ x. of.low ≤ℤ x.high) }
    ensures free { result ≡ None → AreApart intervals.now → IsFree intervals.now of.low of.high }
{
    let (high, low) = intervals.range(of.low..).next()?;
    if *low <= of.high {
        Some(Interval {
            low: *low,
            high: *high,
        })
    } else {
        None
    }
}

/// Takes out all that have a number of an interval, and joins them to it.
pub fn absorb(intervals: &mut BTreeMap<i64, i64>, of: Interval) -> Interval
    ensures keeps { (xs : List CaseRange) → KeepsWith intervals.old of.low of.high xs → KeepsWith intervals.new result.low result.high xs }
    ensures free { AreApart intervals.old → IsFree intervals.new result.low result.high }
{
    let mut all = of;
    while let Some(met) = meeting(intervals, all) {
        intervals.remove(&met.high);
        all = Interval {
            low: all.low.min(met.low),
            high: all.high.max(met.high),
        };
    }
    all
}

/// Puts one to them.
pub fn put(intervals: &mut BTreeMap<i64, i64>, of: Interval) -> Result<(), NoMemory>
    ensures { OnOk result ((xs : List CaseRange) → KeepsWith intervals.old of.low of.high xs → IsFree intervals.old of.low of.high → Keeps intervals.new xs) }
{
    intervals.insert(of.high, of.low)?;
    Ok(())
}
