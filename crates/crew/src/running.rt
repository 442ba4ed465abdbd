//! A run on workers.

ghost use Rattle.std.specs.Prelude.{◌≡◌, ◌<◌, [], length, map, replicate, IfOk};
ghost use Rattle.core_runs.specs.Beginnings.{Beginning};
ghost use Rattle.core_runs.specs.Kept.{IsKept};
ghost use Rattle.core_runs.specs.Moments.{rules};
ghost use Rattle.image_core.specs.Parts.{moment, AreSound};
ghost use Rattle.image_turns.specs.Turns.{HearsEvery};
ghost use Rattle.crew.specs.Left.{HasNoStep, AreLeft};

use crate::dealing::{apart, deal, gather, members};
use crate::worker::{run_workers, settle};
use caf_base::hook::Hook;
use caf_base::refusal::NoMemory;
use caf_events::object::Object;
use caf_events::walker::Walker;
use image_core::parts::PartsOf;
use image_gate::fabric::Fabric;
use std::alloc::Global;
use std::sync::Wait;
use std::thread::Threads;

/// Runs the images of these parts on so many workers, and gives the parts back where one made a step that ends the run,
/// or each has ended or could step no more. The call may wait for the workers. Conditions: there is a worker, the
/// parts are sound and no step has been made, and the programs go on whatever the
/// reply to their ask is. On refusal the parts are given up.
pub fn run_crew<
    R: Threads + Wait + Sync,
    M: Walker + Send + Drop,
    O: Object + Send + Drop,
    B: Object + Send + Drop,
    H: Hook + Sync,
>(
    rt: &R,
    alloc: Global,
    parts: PartsOf<M, O, B>,
    workers: u32,
    hook: &H,
) -> Result<PartsOf<M, O, B>, NoMemory>
    requires workers { 0 < workers }
    requires sound { AreSound M.Walker O.Object B.Object parts }
    requires first { HasNoStep (moment M.Walker O.Object B.Object parts) }
    requires hears { HearsEvery M.step M.hears }
    ensures sound { IfOk result (AreSound M.Walker O.Object B.Object) }
    // They are at a moment of each run that they were a moment of.
    ensures kept { IfOk result (λ p. (b : Beginning M.Config O.Made B.Made) → IsKept (rules M.Walker O.Object B.Object) b (moment M.Walker O.Object B.Object parts)
        → IsKept (rules M.Walker O.Object B.Object) b (moment M.Walker O.Object B.Object p)) }
    ensures left { IfOk result (λ p. AreLeft (rules M.Walker O.Object B.Object) (moment M.Walker O.Object B.Object p)) }
    ensures count { IfOk result (λ p. length p.images.items ≡ length parts.images.items) }
{
    let PartsOf {
        images,
        memories,
        board,
    } = parts;
    let (fabric, passes) = Fabric::new(alloc, memories, board)?;
    let members = members(alloc, images, passes)?;
    let workers = deal(alloc, members, workers)?;
    let gates = fabric.gates();
    let done = run_workers(rt, gates, workers, hook)?;
    let mut back = gather(alloc, done)?;
    settle(rt, gates, &mut back, hook)?;
    let (images, passes) = apart(alloc, back)?;
    let (memories, board) = fabric.close(alloc, passes)?;
    Ok(PartsOf {
        images,
        memories,
        board,
    })
}
