//! The parts of a run of lanes before its first step.

ghost use Rattle.std.specs.Prelude.{◌≡◌, ◌≤◌, ℕ, [], length, map, replicate, IfOk};
ghost use Rattle.core_runs.specs.Beginnings.{IsFirst, numbers_to};
ghost use Rattle.core_runs.specs.CoreRuns.{IsFit};
ghost use Rattle.core_runs.specs.Kept.{IsKept};
ghost use Rattle.core_runs.specs.Moments.{rules};
ghost use Rattle.image_core.specs.Parts.{moment, AreSound};
ghost use Rattle.lane_parts.specs.FirstLanes.{fails_at, lanes_beginning, HaveCome};

use crate::lanes::lanes;
use caf_base::refusal::NoMemory;
use caf_events::object::Object;
use caf_events::walker::Walker;
use image_core::beginning::begin;
use image_core::parts::PartsOf;
use image_lanes::lane::Lane;
use std::alloc::Global;

/// The parts of a run with no step: a lane over each machine and a memory for it, by image number from 1, and the
/// board. Each machine stands at the first ask of its image or at its end. Image i fails at its event of the number
/// that `fails` has for it, counted from 1 (0 or no number: it doesn't); with `words` recorded words or more an image's
/// next step is the limit. Conditions: there are at most 65,536 machines, and neither a memory nor the board has served
/// an ask.
pub fn start_lanes<M: Walker + Drop, O: Object + Drop, B: Object + Drop>(
    alloc: Global,
    machines: Vec<M>,
    fails: &[u32],
    words: u32,
    memories: Vec<O>,
    board: B,
) -> Result<PartsOf<Lane<M>, O, B>, NoMemory>
    requires images { length machines.items ≤ 65536 }
    requires memories { map O.history memories.items ≡ replicate (length memories.items) [] }
    requires board { B.history board ≡ [] }
    // They are the first moment of the run over any programs from whose beginnings the machines have come.
    ensures first { IfOk result (λ p. (first : ℕ → M.Config) (memory : ℕ → O.Made) → HaveCome M.step first (map M.config machines.items) → map O.made memories.items ≡ map memory (numbers_to (length machines.items))
        → IsFirst (rules ⟦<Lane<M> as Walker>⟧ O.Object B.Object) (lanes_beginning (length machines.items) first (fails_at fails.now) words memory (B.made board))
        (moment ⟦<Lane<M> as Walker>⟧ O.Object B.Object p)) }
    // Where that run is fit they are a moment of it, with which `image_core` goes on.
    ensures sound { IfOk result (λ p. (first : ℕ → M.Config) (memory : ℕ → O.Made) → HaveCome M.step first (map M.config machines.items) → map O.made memories.items ≡ map memory (numbers_to (length machines.items))
        → IsFit (rules ⟦<Lane<M> as Walker>⟧ O.Object B.Object) (lanes_beginning (length machines.items) first (fails_at fails.now) words memory (B.made board))
        → IsKept (rules ⟦<Lane<M> as Walker>⟧ O.Object B.Object) (lanes_beginning (length machines.items) first (fails_at fails.now) words memory (B.made board))
        (moment ⟦<Lane<M> as Walker>⟧ O.Object B.Object p)
        × AreSound ⟦<Lane<M> as Walker>⟧ O.Object B.Object p) }
    ensures count { IfOk result (λ p. length p.images.items ≡ length machines.items) }
{
    let lanes = lanes(alloc, machines, fails, words)?;
    begin(alloc, lanes, memories, board)
}
