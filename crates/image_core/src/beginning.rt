//! The parts of a run before its first step, of machines, memories and a board that are given.

ghost use Rattle.std.specs.Prelude.{◌≡◌, ◌<◌, ◌^◌, [], length, map, replicate, IfOk};
ghost use Rattle.core_runs.specs.Beginnings.{Beginning};
ghost use Rattle.core_runs.specs.Kept.{IsKept};
ghost use Rattle.core_runs.specs.Moments.{rules};
ghost use Rattle.image_core.specs.Parts.{moment, first_moment, total, EachAt, AreNumbered, AreSound};

use crate::parts::PartsOf;
use crate::prepared::Prepared;
use crate::run::ImageRun;
use caf_base::place::ImageNo;
use caf_base::refusal::NoMemory;
use caf_events::object::Object;
use caf_events::walker::Walker;
use std::alloc::Global;

// An image without an event.
fn fresh<M>(alloc: Global, image: ImageNo, machine: M) -> ImageRun<M>
    ensures image { result.image ≡ image }
    ensures machine { result.machine ≡ machine }
    ensures events { result.events.items ≡ [] }
{
    ImageRun {
        image,
        machine,
        events: Vec::new(alloc),
        last: 0,
        prepared: Prepared::Nothing,
    }
}

// The images of these machines, numbered from 1.
fn fresh_images<M: Drop>(alloc: Global, machines: Vec<M>) -> Result<Vec<ImageRun<M>>, NoMemory>
    requires { length machines.items < 2 ^ 31 }
    ensures machines { IfOk result (λ v. map (λ r. r.machine) v.items ≡ machines.items) }
    ensures numbered { IfOk result (λ v. AreNumbered v.items) }
    ensures events { IfOk result (λ v. EachAt (λ k r. r.events.items ≡ []) v.items) }
{
    let mut images = Vec::new(alloc);
    for machine in machines {
        let image = ImageNo(images.len() as u32 + 1);
        images.push(fresh(alloc, image, machine))?;
    }
    Ok(images)
}

/// The parts of a run with no step, of the machine and the memory of each image by number from 1, and the board.
/// Conditions: there are below 2^31 images, fewer than 2^60 asks are still to come, and neither a memory nor the board
/// has served one.
pub fn begin<M: Walker + Drop, O: Object + Drop, B: Object + Drop>(
    alloc: Global,
    machines: Vec<M>,
    memories: Vec<O>,
    board: B,
) -> Result<PartsOf<M, O, B>, NoMemory>
    requires images { length machines.items < 2 ^ 31 }
    requires few { total M.asks_left (map M.config machines.items) < 2 ^ 60 }
    requires memories { map O.history memories.items ≡ replicate (length memories.items) [] }
    requires board { B.history board ≡ [] }
    ensures stands { IfOk result (λ p. moment M.Walker O.Object B.Object p ≡ first_moment (map M.config machines.items) (map O.made memories.items) (B.made board)) }
    ensures sound { IfOk result (λ p. (b : Beginning M.Config O.Made B.Made) → IsKept (rules M.Walker O.Object B.Object) b (moment M.Walker O.Object B.Object p) → AreSound M.Walker O.Object B.Object p) }
    ensures count { IfOk result (λ p. length p.images.items ≡ length machines.items) }
{
    let images = fresh_images(alloc, machines)?;
    Ok(PartsOf {
        images,
        memories,
        board,
    })
}
