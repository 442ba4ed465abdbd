//! The run that goes on behind the bytes of a trace, by a checked program, and its report.

ghost use Rattle.std.specs.Prelude.{◌≡◌, ◌<◌, ◌≤◌, length, IfOk, IfErr};
ghost use Rattle.caf_report.specs.Ends.{HasEnd};
ghost use Rattle.checked_tree.specs.Statements.{Program};
ghost use Rattle.checked_tree.specs.StatementViews.{program};
ghost use Rattle.final_values.specs.Listings.{listed_of};
ghost use Rattle.fortran_tree.specs.Units as units;
ghost use Rattle.image_code.specs.Code.{IfCause};
ghost use Rattle.lane_parts.specs.FirstLanes.{fails_at};
ghost use Rattle.rule_definitions.specs.Acceptance.{Accepts};
ghost use Rattle.checked_run.specs.Coarrays.{names_of};
ghost use Rattle.checked_traces.specs.Beginnings.{BeginsAs};
ghost use Rattle.checked_traces.specs.Traces.{IsNoRunOf, IsReplayOf, IsReplayOfBytes, IsRunAsTold, IsToldAs};

use crate::beginning::{Begun, begin};
use crate::file::trace_of;
use crate::no_run::NoRun;
use caf_base::listing::{Listing, Text};
use caf_base::refusal::Refusal;
use caf_events::event::Trace;
use caf_report::report::Report;
use checked_run::names::names;
use checked_run::running::Told;
use checked_tree::program::Checked;
use final_values::listing::{Listed, listed_variables};
use std::alloc::Global;
use trace_replay::replay::replay_code;

// The report of the run that goes on behind a trace, where it is that of a run that begins so, with these names of the
// coarrays and the final values of these variables.
fn replay_begun(
    alloc: Global,
    begun: Begun,
    told: Told,
    fails: &[u32],
    trace: &Trace,
    names: Listing<Text>,
    listed: &[Listed],
) -> Result<Report, Refusal<NoRun>>
    requires images { told.images ≤ 65536 }
    requires limit { told.limit ≤ 100000000 }
    requires begins { (p : Program) × BeginsAs p begun }
    ensures run { IfOk result (λ report. (p : Program) → BeginsAs p begun → IsRunAsTold p told (fails_at fails.now) trace.now.entries) }
    ensures report { IfOk result (λ report. (p : Program) → BeginsAs p begun → names ≡ names_of p → listed.now ≡ listed_of p → IsReplayOf p told (fails_at fails.now) trace.now.entries report) }
    ensures has_end { IfOk result HasEnd }
    ensures refused { IfErr result (λ refusal. IfCause refusal (λ cause. (p : Program) → BeginsAs p begun → IsNoRunOf p told (fails_at fails.now) trace.now.entries cause)) }
{
    match replay_code(
        alloc,
        &begun.code,
        told.images,
        told.limit,
        begun.coarrays.as_slice(),
        fails,
        told.words,
        trace,
        names,
        listed,
    ) {
        Ok(report) => Ok(report),
        Err(Refusal::Cause(bad)) => Err(Refusal::Cause(NoRun::NotARun { step: bad.step })),
        Err(Refusal::NoMemory) => Err(Refusal::NoMemory),
    }
}

// The report of the run that goes on behind a trace, where it is that of a run of an accepted program, with these names
// of the coarrays.
fn replay_trace(
    alloc: Global,
    checked: &Checked,
    told: Told,
    fails: &[u32],
    trace: &Trace,
    names: Listing<Text>,
) -> Result<Report, Refusal<NoRun>>
    requires images { told.images ≤ 65536 }
    requires limit { told.limit ≤ 100000000 }
    requires accepted { (x : units.Program) × Accepts x (program checked.now) }
    requires names { names ≡ names_of (program checked.now) }
    ensures run { IfOk result (λ report. IsRunAsTold (program checked.now) told (fails_at fails.now) trace.now.entries) }
    ensures report { IfOk result (IsReplayOf (program checked.now) told (fails_at fails.now) trace.now.entries) }
    ensures has_end { IfOk result HasEnd }
    ensures refused { IfErr result (λ refusal. IfCause refusal (IsNoRunOf (program checked.now) told (fails_at fails.now) trace.now.entries)) }
{
    let listed = listed_variables(alloc, checked)?;
    match begin(alloc, checked) {
        Ok(begun) => replay_begun(alloc, begun, told, fails, trace, names, listed.as_slice()),
        Err(Refusal::Cause(bad)) => Err(Refusal::Cause(NoRun::Unrunnable { line: bad.line })),
        Err(Refusal::NoMemory) => Err(Refusal::NoMemory),
    }
}

/// The bytes of a trace, replayed as one of a run of an accepted program on images, as it is told: the report of the
/// run that goes on behind it, by rotation from 0 where no event of the trace ended it, with the names of the program's
/// coarrays and the final values of its main program's variables; or what keeps the bytes from being the trace of a
/// run. What is given, and the conditions, are as of `judge_checked`.
pub fn replay_checked(
    alloc: Global,
    checked: &Checked,
    told: Told,
    fails: &[u32],
    bytes: &[u8],
) -> Result<Report, Refusal<NoRun>>
    requires images { told.images ≤ 65536 }
    requires limit { told.limit ≤ 100000000 }
    requires accepted { (x : units.Program) × Accepts x (program checked.now) }
    requires few { length bytes.now < 4294967295 }
    ensures report { IfOk result (IsReplayOfBytes (program checked.now) told (fails_at fails.now) bytes.now) }
    ensures has_end { IfOk result HasEnd }
    ensures refused { IfErr result (λ refusal. IfCause refusal (IsToldAs (program checked.now) told (fails_at fails.now) bytes.now)) }
{
    let names = names(alloc, checked)?;
    match trace_of(alloc, bytes, names.as_slice()) {
        Ok(trace) => {
            let report = replay_trace(alloc, checked, told, fails, &trace, names)?;
            Ok(report)
        }
        Err(Refusal::Cause(bad)) => Err(Refusal::Cause(NoRun::BadTrace { line: bad.line })),
        Err(Refusal::NoMemory) => Err(Refusal::NoMemory),
    }
}
