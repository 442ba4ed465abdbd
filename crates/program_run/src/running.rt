//! The run of a program's code, and its report.

ghost use Rattle.std.specs.Prelude.{◌≡◌, ◌≤◌, true, length, map, IfOk};
ghost use Rattle.std.specs.Arc.{arc_value};
ghost use Rattle.std.specs.List.{list_all};
ghost use Rattle.object_rules.specs.MemoryRules.{has_first_values};
ghost use Rattle.coarray_memory.specs.Memories.{declared_of};
ghost use Rattle.checked_tree.specs.Statements as checked;
ghost use Rattle.caf_report.specs.Ends.{HasEnd};
ghost use Rattle.final_values.specs.Finals.{run_finals};
ghost use Rattle.full_report.specs.Reports.{order_of};
ghost use Rattle.lane_parts.specs.FirstLanes.{fails_at};
ghost use Rattle.machine_runs.specs.Runs.{HasWalksOn};
ghost use Rattle.program_run.specs.Finals.{AreProgramFinals};
ghost use Rattle.program_run.specs.Machines.{IsRunnable};
ghost use Rattle.program_run.specs.Reports.{IsProgramReport};

use crate::machines::first_machines;
use caf_base::hook::Hook;
use caf_base::listing::{Listing, Text};
use caf_base::refusal::NoMemory;
use caf_report::report::Report;
use coarray_memory::coarray::Coarray;
use final_values::listing::Listed;
use final_values::reading::{finals, with_finals};
use full_report::running::{Ran, run_images};
use full_report::way::Way;
use image_code::code::Code;
use image_machine::machine::Machine;
use std::alloc::Global;
use std::sync::{Arc, Wait};
use std::thread::Threads;

/// The report of a run with the final values of these variables. Condition: its parts have a memory for each image.
pub fn told(alloc: Global, ran: Ran<Machine>, listed: &[Listed]) -> Result<Report, NoMemory>
    requires { length ran.parts.images.items ≡ length ran.parts.memories.items }
    ensures { IfOk result (λ r. r ≡ record ran.report { finals = run_finals listed.now ran.parts.images.items ran.parts.memories.items }) }
{
    let finals = finals(
        alloc,
        ran.parts.images.as_slice(),
        ran.parts.memories.as_slice(),
        listed,
    )?;
    let Ran { report, parts } = ran;
    drop(parts);
    Ok(with_finals(report, finals))
}

/// The run of code on n images, in this way, and its report with these names of the coarrays and the final values of
/// the listed variables. Each memory has these coarrays. An image's next statement above `limit` is its limit; image i
/// fails at its event of the number that `fails` has for it, counted from 1 (0 or no number: it doesn't); with `words`
/// recorded words or more an image's next step is the limit. Conditions: there are at most 65,536 images and
/// 100,000,000 statements, each static coarray of values has a first value of its kind for each of its cells, the code
/// has the walks of a checked program, and the machine can run it (`IsRunnable`). On workers the call may wait for
/// them.
pub fn run_code<R: Threads + Wait + Sync, H: Hook + Sync>(
    rt: &R,
    alloc: Global,
    code: Arc<Code>,
    n: u32,
    limit: u64,
    coarrays: &[Coarray],
    fails: &[u32],
    words: u32,
    way: Way,
    names: Listing<Text>,
    listed: &[Listed],
    hook: &H,
) -> Result<Report, NoMemory>
    requires images { n ≤ 65536 }
    requires limit { limit ≤ 100000000 }
    requires declared { list_all has_first_values (map declared_of coarrays.now) ≡ true }
    requires program { (p : checked.Program) × HasWalksOn p limit n (arc_value code) }
    requires runnable { IsRunnable (arc_value code) }
    // It is that of the run of each program whose walks the code has.
    ensures report { IfOk result (λ report. (p : checked.Program) → HasWalksOn p limit n (arc_value code)
        → IsProgramReport p limit (map declared_of coarrays.now) n (fails_at fails.now) words (order_of way) report) }
    ensures has_end { IfOk result HasEnd }
    ensures names { IfOk result (λ report. report.names ≡ names) }
    ensures finals { IfOk result (λ report. (p : checked.Program) → HasWalksOn p limit n (arc_value code)
        → AreProgramFinals p limit (map declared_of coarrays.now) n (fails_at fails.now) words listed.now report.trace.entries report.finals) }
{
    let machines = first_machines(rt, alloc, &code, n, limit, way)?;
    let ran = run_images(
        rt, alloc, machines, coarrays, fails, words, way, names, hook,
    )?;
    told(alloc, ran, listed)
}
