//! What keeps a run from speaking for every order of the images.

ghost use Rattle.std.specs.Prelude.{◌≡◌, ℕ, IfOk, MatchOption};
ghost use Rattle.order_axioms.specs.Views.{edges};
ghost use Rattle.order_axioms.specs.Touching.{touches};
ghost use Rattle.order_axioms.specs.FirstRaces.{HasNoRace};
ghost use Rattle.caf_report.specs.declared.report.End.TheVariants as ends;
ghost use Rattle.caf_report.specs.Ends.{IsPlain};
ghost use Rattle.order_lines.specs.Bars.{IsBar, TellsRace};

use caf_base::refusal::NoMemory;
use caf_events::event::Entry;
use caf_report::report::{End, Race, Report};
use decided_watch::watch::{Reason, first_undecided};
use std::alloc::Global;

/// Why an entry keeps its run from speaking for every order: it races with an earlier one, or it keeps the trace from
/// being decided otherwise.
#[derive(Clone, Copy)]
pub enum Cause {
    Race,
    Undecided(Reason),
}

/// An entry by its place in the trace, from 0, and why it keeps the run from it.
#[derive(Clone, Copy)]
pub struct Bar {
    pub at: usize,
    pub cause: Cause,
}

// What keeps the run of a trace without a race from speaking for every order.
fn bar_among(alloc: Global, trace: &[Entry]) -> Result<Option<Bar>, NoMemory>
    ensures { (n : ℕ) → HasNoRace (edges n) touches trace.now → IfOk result (IsBar n trace.now) }
{
    match first_undecided(alloc, trace)? {
        Some(undecided) => Ok(Some(Bar {
            at: undecided.at,
            cause: Cause::Undecided(undecided.reason),
        })),
        None => Ok(None),
    }
}

// The race that is an end.
fn race_of(end: &End) -> Option<Race>
    ensures { MatchOption result (IsPlain end.now) (λ x. end.now ≡ ends.Raced x) }
{
    match end {
        End::Raced { race } => Some(*race),
        End::Finished
        | End::ErrorStop { .. }
        | End::RunFault { .. }
        | End::Clash { .. }
        | End::Limit { .. }
        | End::Stuck { .. } => None,
    }
}

/// What keeps the run of a report from speaking for every order, None where it speaks for all: if the report's end tells
/// the first race of its trace.
pub(crate) fn bar_of(alloc: Global, report: &Report) -> Result<Option<Bar>, NoMemory>
    ensures { TellsRace report.now.images report.now.trace.entries report.now.end → IfOk result (IsBar report.now.images report.now.trace.entries) }
{
    match race_of(&report.end) {
        Some(race) => Ok(Some(Bar {
            at: race.second,
            cause: Cause::Race,
        })),
        None => bar_among(alloc, report.trace.entries.as_slice()),
    }
}
