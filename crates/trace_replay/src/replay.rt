//! The run that goes on behind a trace that was given, and its report.

ghost use Rattle.std.specs.Prelude.{◌≡◌, ◌≤◌, None, true, map, IfOk, IfErr};
ghost use Rattle.std.specs.Arc.{arc_value};
ghost use Rattle.std.specs.List.{list_all};
ghost use Rattle.object_rules.specs.MemoryRules.{has_first_values};
ghost use Rattle.coarray_memory.specs.Memories.{declared_of};
ghost use Rattle.checked_tree.specs.Statements as checked;
ghost use Rattle.caf_report.specs.Ends.{HasEnd};
ghost use Rattle.image_code.specs.Code.{IfCause};
ghost use Rattle.lane_parts.specs.FirstLanes.{fails_at};
ghost use Rattle.machine_runs.specs.Runs.{HasWalksOn};
ghost use Rattle.program_run.specs.Finals.{AreProgramFinals};
ghost use Rattle.program_run.specs.Machines.{IsRunnable};
ghost use Rattle.program_run.specs.Reports.{IsProgramReport};
ghost use Rattle.program_walks.specs.Runs.{program_rules, program_begins};
ghost use Rattle.trace_replay.specs.Judging.{IsRunOfCode, IsNoRunOfCode};
ghost use Rattle.trace_replay.specs.Replays.{GoesOn};

use crate::judging::{NotARun, parts_behind};
use caf_base::listing::{Listing, Text};
use caf_base::refusal::Refusal;
use caf_events::event::Trace;
use caf_report::report::Report;
use coarray_memory::coarray::Coarray;
use final_values::listing::Listed;
use full_report::running::Ran;
use image_code::code::Code;
use order_report::report::report_rest;
use program_run::running::told;
use std::alloc::Global;
use std::sync::Arc;

/// The run of code on n images behind a trace: its further steps by rotation from 0, where no event of the trace ended
/// the run, and its report with these names of the coarrays and the final values of the listed variables; where it is
/// the trace of no run, the first step at which it is none. What else is given, and the conditions, are as of
/// `parts_behind`.
pub fn replay_code(
    alloc: Global,
    code: &Arc<Code>,
    n: u32,
    limit: u64,
    coarrays: &[Coarray],
    fails: &[u32],
    words: u32,
    trace: &Trace,
    names: Listing<Text>,
    listed: &[Listed],
) -> Result<Report, Refusal<NotARun>>
    requires images { n ≤ 65536 }
    requires limit { limit ≤ 100000000 }
    requires declared { list_all has_first_values (map declared_of coarrays.now) ≡ true }
    requires program { (p : checked.Program) × HasWalksOn p limit n (arc_value code.now) }
    requires runnable { IsRunnable (arc_value code.now) }
    ensures run { IfOk result (λ report. IsRunOfCode (arc_value code.now) limit (map declared_of coarrays.now) n (fails_at fails.now) words trace.now.entries) }
    // It is that of a run of each program whose walks the code has.
    ensures report { IfOk result (λ report. (p : checked.Program) → HasWalksOn p limit n (arc_value code.now)
        → IsProgramReport p limit (map declared_of coarrays.now) n (fails_at fails.now) words None report) }
    // The run goes on behind the trace.
    ensures onward { IfOk result (λ report. (p : checked.Program) → HasWalksOn p limit n (arc_value code.now)
        → GoesOn (program_rules p limit) (program_begins p (map declared_of coarrays.now) n (fails_at fails.now) words) trace.now.entries report.trace.entries) }
    ensures has_end { IfOk result HasEnd }
    ensures names { IfOk result (λ report. report.names ≡ names) }
    ensures finals { IfOk result (λ report. (p : checked.Program) → HasWalksOn p limit n (arc_value code.now)
        → AreProgramFinals p limit (map declared_of coarrays.now) n (fails_at fails.now) words listed.now report.trace.entries report.finals) }
    ensures not_a_run { IfErr result (λ refusal. IfCause refusal (λ bad. IsNoRunOfCode (arc_value code.now) limit (map declared_of coarrays.now) n (fails_at fails.now) words trace.now.entries bad.step)) }
{
    let mut parts = parts_behind(alloc, code, n, limit, coarrays, fails, words, trace)?;
    let report = report_rest(alloc, &mut parts, names)?;
    let told = told(alloc, Ran { report, parts }, listed)?;
    Ok(told)
}
