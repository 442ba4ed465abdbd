//! The bytes of a trace, judged by a checked program.

ghost use Rattle.std.specs.Prelude.{◌≡◌, ◌<◌, ◌≤◌, length, IfOk, IfErr};
ghost use Rattle.checked_tree.specs.Statements.{Program};
ghost use Rattle.checked_tree.specs.StatementViews.{program};
ghost use Rattle.fortran_tree.specs.Units as units;
ghost use Rattle.image_code.specs.Code.{IfCause};
ghost use Rattle.lane_parts.specs.FirstLanes.{fails_at};
ghost use Rattle.rule_definitions.specs.Acceptance.{Accepts};
ghost use Rattle.trace_replay.specs.Judging.{IsRaceOf, RaceIn};
ghost use Rattle.checked_run.specs.Coarrays.{names_of};
ghost use Rattle.checked_traces.specs.Beginnings.{BeginsAs};
ghost use Rattle.checked_traces.specs.Traces.{core_run, ComesTo, IsRunAsTold, IsNoRunOf, IsToldAs};

use crate::beginning::{Begun, begin};
use crate::file::trace_of;
use crate::no_run::NoRun;
use caf_base::listing::{Listing, Text};
use caf_base::refusal::Refusal;
use caf_events::event::Trace;
use caf_report::report::Race;
use checked_run::names::names;
use checked_run::running::Told;
use checked_tree::program::Checked;
use std::alloc::Global;
use trace_replay::judging::judge_code;

/// The trace of a run that was judged, the names of its coarrays in declared order, and its first race.
#[derive(Drop)]
pub struct Judged {
    pub trace: Trace,
    pub names: Listing<Text>,
    pub race: Option<Race>,
}

// The first race of a trace, where it is that of a run that begins so.
fn judge_begun(
    alloc: Global,
    begun: Begun,
    told: Told,
    fails: &[u32],
    trace: &Trace,
) -> Result<Option<Race>, Refusal<NoRun>>
    requires images { told.images ≤ 65536 }
    requires limit { told.limit ≤ 100000000 }
    requires begins { (p : Program) × BeginsAs p begun }
    ensures run { IfOk result (λ race. (p : Program) → BeginsAs p begun → IsRunAsTold p told (fails_at fails.now) trace.now.entries) }
    ensures race { IfOk result (IsRaceOf told.images trace.now) }
    ensures stands { IfOk result (RaceIn trace.now) }
    ensures refused { IfErr result (λ refusal. IfCause refusal (λ cause. (p : Program) → BeginsAs p begun → IsNoRunOf p told (fails_at fails.now) trace.now.entries cause)) }
{
    match judge_code(
        alloc,
        &begun.code,
        told.images,
        told.limit,
        begun.coarrays.as_slice(),
        fails,
        told.words,
        trace,
    ) {
        Ok(race) => Ok(race),
        Err(Refusal::Cause(bad)) => Err(Refusal::Cause(NoRun::NotARun { step: bad.step })),
        Err(Refusal::NoMemory) => Err(Refusal::NoMemory),
    }
}

// The first race of a trace, where it is that of a run of an accepted program.
fn judge_trace(
    alloc: Global,
    checked: &Checked,
    told: Told,
    fails: &[u32],
    trace: &Trace,
) -> Result<Option<Race>, Refusal<NoRun>>
    requires images { told.images ≤ 65536 }
    requires limit { told.limit ≤ 100000000 }
    requires accepted { (x : units.Program) × Accepts x (program checked.now) }
    ensures run { IfOk result (λ race. IsRunAsTold (program checked.now) told (fails_at fails.now) trace.now.entries) }
    ensures race { IfOk result (IsRaceOf told.images trace.now) }
    ensures stands { IfOk result (RaceIn trace.now) }
    ensures refused { IfErr result (λ refusal. IfCause refusal (IsNoRunOf (program checked.now) told (fails_at fails.now) trace.now.entries)) }
{
    match begin(alloc, checked) {
        Ok(begun) => judge_begun(alloc, begun, told, fails, trace),
        Err(Refusal::Cause(bad)) => Err(Refusal::Cause(NoRun::Unrunnable { line: bad.line })),
        Err(Refusal::NoMemory) => Err(Refusal::NoMemory),
    }
}

/// The bytes of a trace, judged as one of a run of an accepted program on images, as it is told: the trace of a run for
/// which they are written, with its first race (ISO/IEC 1539-1:2018, 11.6.2); or what keeps them from being that of
/// one. How the images take turns doesn't matter. Image i fails at its event of the number that `fails` has for it,
/// counted from 1 (0 or no number: it doesn't). Conditions: there are at most 65,536 images and 100,000,000 statements,
/// and fewer than 4,294,967,295 bytes.
pub fn judge_checked(
    alloc: Global,
    checked: &Checked,
    told: Told,
    fails: &[u32],
    bytes: &[u8],
) -> Result<Judged, Refusal<NoRun>>
    requires images { told.images ≤ 65536 }
    requires limit { told.limit ≤ 100000000 }
    requires accepted { (x : units.Program) × Accepts x (program checked.now) }
    requires few { length bytes.now < 4294967295 }
    ensures run { IfOk result (λ judged. ComesTo (program checked.now) told (fails_at fails.now) bytes.now (core_run judged.trace)) }
    ensures race { IfOk result (λ judged. IsRaceOf told.images judged.trace judged.race) }
    ensures stands { IfOk result (λ judged. RaceIn judged.trace judged.race) }
    ensures names { IfOk result (λ judged. judged.names ≡ names_of (program checked.now)) }
    ensures refused { IfErr result (λ refusal. IfCause refusal (IsToldAs (program checked.now) told (fails_at fails.now) bytes.now)) }
{
    let names = names(alloc, checked)?;
    match trace_of(alloc, bytes, names.as_slice()) {
        Ok(trace) => {
            let race = judge_trace(alloc, checked, told, fails, &trace)?;
            Ok(Judged { trace, names, race })
        }
        Err(Refusal::Cause(bad)) => Err(Refusal::Cause(NoRun::BadTrace { line: bad.line })),
        Err(Refusal::NoMemory) => Err(Refusal::NoMemory),
    }
}
