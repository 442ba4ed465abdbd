//! The run of machines as images, its report, and its parts at the end.

ghost use Rattle.std.specs.Prelude.{◌≡◌, ◌≤◌, true, ℕ, None, Some, length, map, IfOk};
ghost use Rattle.std.specs.List.{list_all};
ghost use Rattle.object_rules.specs.MemoryRules.{has_first_values};
ghost use Rattle.coarray_memory.specs.Memories.{declared_of};
ghost use Rattle.caf_report.specs.Ends.{HasEnd};
ghost use Rattle.crew.specs.Left.{HasNoStep};
ghost use Rattle.image_core.specs.Parts.{moment, AreNumbered, AreSound};
ghost use Rattle.image_turns.specs.Turns.{HearsEvery};
ghost use Rattle.image_lanes.specs.LaneRuns.{lane_rules, lanes_begin};
ghost use Rattle.lane_parts.specs.FirstLanes.{fails_at};
ghost use Rattle.order_report.specs.Reports.{IsEndMoment};
ghost use Rattle.full_report.specs.Reports.{RunsFrom, ImagesEnd, IsImagesReport, IsRan, SomeLawful, order_of};

use crate::way::Way;
use caf_base::hook::Hook;
use caf_base::listing::{Listing, Text};
use caf_base::refusal::NoMemory;
use caf_events::object::Object;
use caf_events::walker::Walker;
use caf_report::report::Report;
use coarray_memory::coarray::Coarray;
use coarray_memory::memory::Memory;
use control_board::board::Board;
use crew::running::run_crew;
use full_parts::start::start_full;
use image_core::parts::PartsOf;
use image_lanes::lane::Lane;
use order_report::report::{report_order, report_rest};
use std::alloc::Global;
use std::sync::Wait;
use std::thread::Threads;

/// What a run comes to: its report, and its parts at its end.
#[derive(Drop)]
pub struct Ran<M> {
    pub report: Report,
    pub parts: PartsOf<Lane<M>, Memory, Board>,
}

// The run of lanes in the order of a SEED.
fn in_order<M: Walker + Drop>(
    alloc: Global,
    parts: PartsOf<Lane<M>, Memory, Board>,
    seed: u32,
    names: Listing<Text>,
) -> Result<Ran<M>, NoMemory>
    requires sound { AreSound ⟦<Lane<M> as Walker>⟧ ⟦<Memory as Object>⟧ ⟦<Board as Object>⟧ parts }
    requires lawful { SomeLawful (lane_rules M.step M.hears) (moment ⟦<Lane<M> as Walker>⟧ ⟦<Memory as Object>⟧ ⟦<Board as Object>⟧ parts) }
    ensures ran { IfOk result (λ ran. IsRan (lane_rules M.step M.hears) (moment ⟦<Lane<M> as Walker>⟧ ⟦<Memory as Object>⟧ ⟦<Board as Object>⟧ parts) (Some seed) ran.report
        (moment ⟦<Lane<M> as Walker>⟧ ⟦<Memory as Object>⟧ ⟦<Board as Object>⟧ ran.parts)) }
    ensures has_end { IfOk result (λ ran. HasEnd ran.report) }
    ensures names { IfOk result (λ ran. ran.report.names ≡ names) }
    ensures numbered { IfOk result (λ ran. AreNumbered ran.parts.images.items) }
{
    let mut parts = parts;
    let report = report_order(alloc, &mut parts, seed, names)?;
    Ok(Ran { report, parts })
}

// The run of lanes on so many workers, at least one, and by rotation where they leave it.
fn on_workers<R: Threads + Wait + Sync, M: Walker + Send + Drop, H: Hook + Sync>(
    rt: &R,
    alloc: Global,
    parts: PartsOf<Lane<M>, Memory, Board>,
    workers: u32,
    names: Listing<Text>,
    hook: &H,
) -> Result<Ran<M>, NoMemory>
    requires sound { AreSound ⟦<Lane<M> as Walker>⟧ ⟦<Memory as Object>⟧ ⟦<Board as Object>⟧ parts }
    requires lawful { SomeLawful (lane_rules M.step M.hears) (moment ⟦<Lane<M> as Walker>⟧ ⟦<Memory as Object>⟧ ⟦<Board as Object>⟧ parts) }
    requires first { HasNoStep (moment ⟦<Lane<M> as Walker>⟧ ⟦<Memory as Object>⟧ ⟦<Board as Object>⟧ parts) }
    requires hears { HearsEvery M.step M.hears }
    ensures ran { IfOk result (λ ran. IsRan (lane_rules M.step M.hears) (moment ⟦<Lane<M> as Walker>⟧ ⟦<Memory as Object>⟧ ⟦<Board as Object>⟧ parts) None ran.report
        (moment ⟦<Lane<M> as Walker>⟧ ⟦<Memory as Object>⟧ ⟦<Board as Object>⟧ ran.parts)) }
    ensures has_end { IfOk result (λ ran. HasEnd ran.report) }
    ensures names { IfOk result (λ ran. ran.report.names ≡ names) }
    ensures numbered { IfOk result (λ ran. AreNumbered ran.parts.images.items) }
{
    let mut parts = run_crew(rt, alloc, parts, workers.max(1), hook)?;
    let report = report_rest(alloc, &mut parts, names)?;
    Ok(Ran { report, parts })
}

/// The run of these machines as the images from 1 on, in this way, and its report with these names of the coarrays.
/// Each memory has these coarrays. Image i fails at its event of the number that `fails` has for it, counted from 1 (0
/// or no number: it doesn't); with `words` recorded words or more an image's next step is the limit. On workers the
/// call may wait for them. Conditions: there are at most 65,536 machines, each static coarray of values has a first
/// value of its kind for each of its cells, the machines run programs whose run is fit, and go on whatever the reply to
/// their ask is.
pub fn run_images<R: Threads + Wait + Sync, M: Walker + Send + Drop, H: Hook + Sync>(
    rt: &R,
    alloc: Global,
    machines: Vec<M>,
    coarrays: &[Coarray],
    fails: &[u32],
    words: u32,
    way: Way,
    names: Listing<Text>,
    hook: &H,
) -> Result<Ran<M>, NoMemory>
    requires images { length machines.items ≤ 65536 }
    requires declared { list_all has_first_values (map declared_of coarrays.now) ≡ true }
    requires runs { (first : ℕ → M.Config) × RunsFrom M.step M.hears (map declared_of coarrays.now) (length machines.items) first (fails_at fails.now) words (map M.config machines.items) }
    requires hears { HearsEvery M.step M.hears }
    // It is that of the run of any such programs.
    ensures report { IfOk result (λ ran. (first : ℕ → M.Config)
        → RunsFrom M.step M.hears (map declared_of coarrays.now) (length machines.items) first (fails_at fails.now) words (map M.config machines.items)
        → ImagesEnd M.step M.hears (map declared_of coarrays.now) (length machines.items) first (fails_at fails.now) words
        → IsImagesReport M.step M.hears (map declared_of coarrays.now) (length machines.items) first (fails_at fails.now) words (order_of way) ran.report) }
    ensures has_end { IfOk result (λ ran. HasEnd ran.report) }
    ensures names { IfOk result (λ ran. ran.report.names ≡ names) }
    // The parts are at the end of that run.
    ensures at_end { IfOk result (λ ran. (first : ℕ → M.Config)
        → RunsFrom M.step M.hears (map declared_of coarrays.now) (length machines.items) first (fails_at fails.now) words (map M.config machines.items)
        → IsEndMoment (lane_rules M.step M.hears) (lanes_begin (map declared_of coarrays.now) (length machines.items) first (fails_at fails.now) words) ran.report.trace.entries
        (moment ⟦<Lane<M> as Walker>⟧ ⟦<Memory as Object>⟧ ⟦<Board as Object>⟧ ran.parts)) }
    ensures numbered { IfOk result (λ ran. AreNumbered ran.parts.images.items) }
{
    let parts = start_full(alloc, machines, coarrays, fails, words)?;
    match way {
        Way::Order(seed) => in_order(alloc, parts, seed, names),
        Way::Workers(workers) => on_workers(rt, alloc, parts, workers, names, hook),
    }
}
