//! The race of a run.

ghost use Rattle.std.specs.Prelude.{◌≡◌, List, ⊤, IfOk, MatchOption};
ghost use Rattle.object_rules.specs.Cells.{Declared};
ghost use Rattle.core_runs.specs.Lawful.{IsLawfulTrace};
ghost use Rattle.order_axioms.specs.FirstRaces.{HasNoRace};
ghost use Rattle.order_axioms.specs.Touching.{touches};
ghost use Rattle.order_axioms.specs.Views.{edges};
ghost use Rattle.caf_report.specs.Ends.{RaceStands};
ghost use Rattle.order_report.specs.Reports.{IsRace};

use caf_base::refusal::NoMemory;
use caf_events::event::Trace;
use caf_report::report::Race;
use race_search::watch::watch;
use std::alloc::Global;

/// The most entries of a trace that is searched: no machine has room for more.
const MOST_ENTRIES: u64 = 1 << 62;

/// The first race of the trace of a run of n images (ISO/IEC 1539-1:2018, 11.6.2); None exactly where the trace has
/// none. Condition: the trace is lawful for some coarrays.
pub fn first_race(alloc: Global, trace: &Trace, n: u32) -> Result<Option<Race>, NoMemory>
    requires lawful { (coarrays : List Declared) × IsLawfulTrace coarrays n trace.now.entries }
    ensures race { IfOk result (λ o. MatchOption o (HasNoRace (edges n) touches trace.now.entries) (IsRace n trace.now)) }
    ensures stands { IfOk result (λ o. MatchOption o ⊤ (RaceStands trace.now)) }
{
    let entries = trace.entries.as_slice();
    if entries.len() as u64 >= MOST_ENTRIES {
        return Err(NoMemory);
    }
    match watch(alloc, entries, n)? {
        None => Ok(None),
        Some(found) => Ok(Some(Race {
            first: found.first,
            second: found.second,
            owner: found.cell.owner,
            coarray: found.cell.coarray,
            offset: found.cell.offset,
        })),
    }
}
