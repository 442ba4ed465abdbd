//! The text of a race.

ghost use Rattle.std.specs.Prelude.{◌≡◌, IfOk};
ghost use Rattle.caf_report.specs.Ends.{RaceStands};
ghost use Rattle.caf_report.specs.ReportText.{race_line};

use super::ending::push_race;
use super::report::Race;
use caf_base::listing::Text;
use caf_base::refusal::NoMemory;
use caf_events::event::Trace;
use std::alloc::Global;

/// The line of a race of a trace, as a report that tells it has it, with these names of the coarrays. Condition: its
/// two entries stand in the trace, the first before the second.
pub fn race_text(
    alloc: Global,
    names: &[Text],
    trace: &Trace,
    race: &Race,
) -> Result<Vec<u8>, NoMemory>
    requires { RaceStands trace.now race.now }
    ensures { IfOk result (λ bytes. bytes.items ≡ race_line names.now trace.now.entries race.now) }
{
    let mut out = Vec::new(alloc);
    push_race(&mut out, names, trace, race)?;
    Ok(out)
}
