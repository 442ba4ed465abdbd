//! A trace judged as one of a run of code.

ghost use Rattle.std.specs.Prelude.{◌≡◌, ◌≤◌, [], true, map, IfOk, IfErr};
ghost use Rattle.std.specs.Arc.{arc_value};
ghost use Rattle.std.specs.List.{list_all};
ghost use Rattle.object_rules.specs.MemoryRules.{has_first_values};
ghost use Rattle.coarray_memory.specs.Memories.{declared_of};
ghost use Rattle.checked_tree.specs.Statements as checked;
ghost use Rattle.image_code.specs.Code.{IfCause};
ghost use Rattle.image_core.specs.Parts.{moment, AreSound};
ghost use Rattle.lane_parts.specs.FirstLanes.{fails_at};
ghost use Rattle.machine_runs.specs.Runs.{HasWalksOn};
ghost use Rattle.program_run.specs.Machines.{IsRunnable};
ghost use Rattle.trace_replay.specs.Judging.{IsRaceOf, RaceIn, IsRunOfCode, IsNoRunOfCode, StandsBehind};

use caf_base::refusal::{NoMemory, Refusal};
use caf_events::event::Trace;
use caf_events::object::Object;
use caf_events::walker::Walker;
use caf_report::report::Race;
use coarray_memory::coarray::Coarray;
use coarray_memory::memory::Memory;
use control_board::board::Board;
use full_parts::start::start_full;
use image_code::code::Code;
use image_core::parts::PartsOf;
use image_lanes::lane::Lane;
use image_machine::machine::Machine;
use judged_run::judge::judge_entries;
use order_report::race::first_race;
use program_run::machines::machines;
use std::alloc::Global;
use std::sync::Arc;

/// A trace is that of no run: the first step, from 1, at which the entries so far are none.
#[derive(Clone, Copy)]
pub struct NotARun {
    pub step: usize,
}

// The parts of the run of code before its first step.
fn first_parts(
    alloc: Global,
    code: &Arc<Code>,
    n: u32,
    limit: u64,
    coarrays: &[Coarray],
    fails: &[u32],
    words: u32,
) -> Result<PartsOf<Lane<Machine>, Memory, Board>, NoMemory>
    requires images { n ≤ 65536 }
    requires limit { limit ≤ 100000000 }
    requires declared { list_all has_first_values (map declared_of coarrays.now) ≡ true }
    requires program { (p : checked.Program) × HasWalksOn p limit n (arc_value code.now) }
    requires runnable { IsRunnable (arc_value code.now) }
    ensures sound { IfOk result (AreSound ⟦<Lane<Machine> as Walker>⟧ ⟦<Memory as Object>⟧ ⟦<Board as Object>⟧) }
    ensures begun { IfOk result (λ parts. StandsBehind (arc_value code.now) limit (map declared_of coarrays.now) n (fails_at fails.now) words []
        (moment ⟦<Lane<Machine> as Walker>⟧ ⟦<Memory as Object>⟧ ⟦<Board as Object>⟧ parts)) }
{
    let machines = machines(alloc, code, n, limit)?;
    let parts = start_full(alloc, machines, coarrays, fails, words)?;
    Ok(parts)
}

/// The parts of the run of code on n images behind a trace, at the moment to which its steps lead; where it is the
/// trace of no run, the first step at which it is none. Each memory has these coarrays. An image's next statement above
/// `limit` is its limit; image i fails at its event of the number that `fails` has for it, counted from 1 (0 or no
/// number: it doesn't); with `words` recorded words or more an image's next step is the limit. Conditions: there are at
/// most 65,536 images and 100,000,000 statements, each static coarray of values has a first value of its kind for each
/// of its cells, the code has the walks of a checked program, and the machine can run it (`IsRunnable`).
pub fn parts_behind(
    alloc: Global,
    code: &Arc<Code>,
    n: u32,
    limit: u64,
    coarrays: &[Coarray],
    fails: &[u32],
    words: u32,
    trace: &Trace,
) -> Result<PartsOf<Lane<Machine>, Memory, Board>, Refusal<NotARun>>
    requires images { n ≤ 65536 }
    requires limit { limit ≤ 100000000 }
    requires declared { list_all has_first_values (map declared_of coarrays.now) ≡ true }
    requires program { (p : checked.Program) × HasWalksOn p limit n (arc_value code.now) }
    requires runnable { IsRunnable (arc_value code.now) }
    ensures sound { IfOk result (AreSound ⟦<Lane<Machine> as Walker>⟧ ⟦<Memory as Object>⟧ ⟦<Board as Object>⟧) }
    ensures stands { IfOk result (λ parts. StandsBehind (arc_value code.now) limit (map declared_of coarrays.now) n (fails_at fails.now) words trace.now.entries
        (moment ⟦<Lane<Machine> as Walker>⟧ ⟦<Memory as Object>⟧ ⟦<Board as Object>⟧ parts)) }
    ensures not_a_run { IfErr result (λ refusal. IfCause refusal (λ bad. IsNoRunOfCode (arc_value code.now) limit (map declared_of coarrays.now) n (fails_at fails.now) words trace.now.entries bad.step)) }
{
    let mut parts = first_parts(alloc, code, n, limit, coarrays, fails, words)?;
    match judge_entries(alloc, &mut parts, trace.entries.as_slice()) {
        Ok(None) => Ok(parts),
        Ok(Some(step)) => Err(Refusal::Cause(NotARun { step })),
        Err(NoMemory) => Err(Refusal::NoMemory),
    }
}

/// The first race of a trace of a run of code on n images (ISO/IEC 1539-1:2018, 11.6.2), or None; where it is the trace
/// of no run, the first step at which it is none. What is given, and the conditions, are as of `parts_behind`.
pub fn judge_code(
    alloc: Global,
    code: &Arc<Code>,
    n: u32,
    limit: u64,
    coarrays: &[Coarray],
    fails: &[u32],
    words: u32,
    trace: &Trace,
) -> Result<Option<Race>, Refusal<NotARun>>
    requires images { n ≤ 65536 }
    requires limit { limit ≤ 100000000 }
    requires declared { list_all has_first_values (map declared_of coarrays.now) ≡ true }
    requires program { (p : checked.Program) × HasWalksOn p limit n (arc_value code.now) }
    requires runnable { IsRunnable (arc_value code.now) }
    ensures run { IfOk result (λ race. IsRunOfCode (arc_value code.now) limit (map declared_of coarrays.now) n (fails_at fails.now) words trace.now.entries) }
    ensures race { IfOk result (IsRaceOf n trace.now) }
    ensures stands { IfOk result (RaceIn trace.now) }
    ensures not_a_run { IfErr result (λ refusal. IfCause refusal (λ bad. IsNoRunOfCode (arc_value code.now) limit (map declared_of coarrays.now) n (fails_at fails.now) words trace.now.entries bad.step)) }
{
    let parts = parts_behind(alloc, code, n, limit, coarrays, fails, words, trace)?;
    drop(parts);
    let race = first_race(alloc, trace, n)?;
    Ok(race)
}
