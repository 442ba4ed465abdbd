//! The run of a checked program, and its report.

ghost use Rattle.std.specs.Prelude.{◌≡◌, ◌≤◌, true, false, map, IfErr, IfOk, OnOk};
ghost use Rattle.std.specs.List.{list_all};
ghost use Rattle.caf_report.specs.Ends.{HasEnd, status_of};
ghost use Rattle.checked_tree.specs.StatementViews.{program};
ghost use Rattle.coarray_memory.specs.Memories.{declared_of};
ghost use Rattle.fortran_tree.specs.Units as units;
ghost use Rattle.image_code.specs.Code.{IfCause};
ghost use Rattle.lane_parts.specs.FirstLanes.{fails_at};
ghost use Rattle.object_rules.specs.MemoryRules.{has_first_values};
ghost use Rattle.program_run.specs.Machines.{IsRunnable};
ghost use Rattle.program_tables.specs.Tables.{tables_of};
ghost use Rattle.rule_definitions.specs.Acceptance.{Accepts};
ghost use Rattle.checked_run.specs.Coarrays.{coarrays_of, in_memory};
ghost use Rattle.checked_run.specs.Doing.{CanBegin, DoesAll};
ghost use Rattle.checked_run.specs.Reports.{IsCodeOf, IsRunOf, IsRunStatus};
ghost use Rattle.checked_run.specs.Runnable.{CanRun, IsUnrunnable, lines_of};

use crate::coarrays::{have_first_values, in_memories};
use crate::names::names;
use crate::runnable::{Unrunnable, runs};
use caf_base::hook::Hook;
use caf_base::refusal::{NoMemory, Refusal};
use caf_report::report::Report;
use checked_tree::program::Checked;
use coarray_memory::coarray::Coarray;
use code_maker::maker::make;
use final_values::listing::listed_variables;
use full_report::way::Way;
use image_code::code::Code;
use image_code::tables::Tables;
use program_run::running::run_code;
use std::alloc::Global;
use std::sync::{Arc, Wait};
use std::thread::Threads;

/// What a run is told: on how many images, the most statements that an image counts, the limit of an image's recorded
/// words, and how the images take turns.
#[derive(Clone, Copy)]
pub struct Told {
    pub images: u32,
    pub limit: u64,
    pub words: u32,
    pub way: Way,
}

// The code of an accepted program.
fn made(alloc: Global, checked: &Checked) -> Result<Code, NoMemory>
    requires accepted { (x : units.Program) × Accepts x (program checked.now) }
    ensures { IfOk result (IsCodeOf (program checked.now)) }
{
    match make(alloc, checked) {
        Ok(code) => Ok(code),
        Err(Refusal::NoMemory) => Err(NoMemory),
        Err(Refusal::Cause(_)) => unreachable!(),
    }
}

/// The code of an accepted program, if the machine can run it.
pub fn runnable(alloc: Global, checked: &Checked) -> Result<Code, Refusal<Unrunnable>>
    requires accepted { (x : units.Program) × Accepts x (program checked.now) }
    ensures code { IfOk result (IsCodeOf (program checked.now)) }
    ensures runnable { IfOk result IsRunnable }
    ensures does { OnOk result (DoesAll (lines_of (program checked.now))) }
    ensures begins { OnOk result (CanBegin (tables_of (program checked.now))) }
    ensures refused { IfErr result (λ refusal. IfCause refusal (λ u. IsUnrunnable (program checked.now) u.line)) }
{
    let code = made(alloc, checked)?;
    match runs(&code) {
        Ok(()) => Ok(code),
        Err(refusal) => {
            drop(code);
            Err(refusal)
        }
    }
}

/// The coarrays of tables as each memory has them, if each has the first values that it wants.
pub fn coarrays(alloc: Global, tables: &Tables) -> Result<Vec<Coarray>, Refusal<Unrunnable>>
    ensures coarrays { IfOk result (λ v. map declared_of v.items ≡ map in_memory tables.now.coarrays) }
    ensures declared { IfOk result (λ v. list_all has_first_values (map declared_of v.items) ≡ true) }
    ensures refused { IfErr result (λ refusal. IfCause refusal (λ u. (u.line ≡ 0) × (list_all has_first_values (map in_memory tables.now.coarrays) ≡ false))) }
{
    let coarrays = in_memories(alloc, tables.coarrays.as_slice())?;
    if have_first_values(coarrays.as_slice()) {
        Ok(coarrays)
    } else {
        Err(Refusal::Cause(Unrunnable { line: 0 }))
    }
}

// The run of the code of a program, and its report.
fn report<R: Threads + Wait + Sync, H: Hook + Sync>(
    rt: &R,
    alloc: Global,
    checked: &Checked,
    code: Code,
    coarrays: &[Coarray],
    told: Told,
    fails: &[u32],
    hook: &H,
) -> Result<Report, NoMemory>
    requires images { told.images ≤ 65536 }
    requires limit { told.limit ≤ 100000000 }
    requires code { IsCodeOf (program checked.now) code }
    requires runnable { IsRunnable code }
    requires coarrays { map declared_of coarrays.now ≡ coarrays_of (program checked.now) }
    requires declared { list_all has_first_values (map declared_of coarrays.now) ≡ true }
    ensures report { IfOk result (IsRunOf (program checked.now) told (fails_at fails.now)) }
    ensures has_end { IfOk result HasEnd }
{
    let listed = listed_variables(alloc, checked)?;
    let names = names(alloc, checked)?;
    let shared = Arc::new(alloc, code)?;
    let report = run_code(
        rt,
        alloc,
        shared,
        told.images,
        told.limit,
        coarrays,
        fails,
        told.words,
        told.way,
        names,
        listed.as_slice(),
        hook,
    )?;
    Ok(report)
}

/// The run of an accepted program on images, as it is told, and its report with the names of its coarrays and the final
/// values of its main program's variables; or where the machine can't run it. An image's next statement above
/// `told.limit` is its limit; image i fails at its event of the number that `fails` has for it, counted from 1 (0 or no
/// number: it doesn't); with `told.words` recorded words or more an image's next step is the limit. On workers the call
/// may wait for them. Conditions: there are at most 65,536 images and 100,000,000 statements.
pub fn run_checked<R: Threads + Wait + Sync, H: Hook + Sync>(
    rt: &R,
    alloc: Global,
    checked: &Checked,
    told: Told,
    fails: &[u32],
    hook: &H,
) -> Result<Report, Refusal<Unrunnable>>
    requires images { told.images ≤ 65536 }
    requires limit { told.limit ≤ 100000000 }
    requires accepted { (x : units.Program) × Accepts x (program checked.now) }
    ensures report { IfOk result (IsRunOf (program checked.now) told (fails_at fails.now)) }
    ensures has_end { IfOk result HasEnd }
    ensures status { IfOk result (λ r. IsRunStatus (status_of r.end)) }
    ensures runs { OnOk result (CanRun (program checked.now)) }
    ensures refused { IfErr result (λ refusal. IfCause refusal (λ u. IsUnrunnable (program checked.now) u.line)) }
{
    let code = runnable(alloc, checked)?;
    let coarrays = coarrays(alloc, code.tables())?;
    let report = report(
        rt,
        alloc,
        checked,
        code,
        coarrays.as_slice(),
        told,
        fails,
        hook,
    )?;
    Ok(report)
}
