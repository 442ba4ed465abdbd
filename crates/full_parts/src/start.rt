//! The parts of a run before its first step.

ghost use Rattle.std.specs.Prelude.{◌≡◌, ◌≤◌, ℕ, length, map, IfOk};
ghost use Rattle.core_runs.specs.Beginnings.{IsFirst};
ghost use Rattle.core_runs.specs.CoreRuns.{IsFit};
ghost use Rattle.core_runs.specs.Kept.{IsKept};
ghost use Rattle.image_core.specs.Parts.{moment, AreSound};
ghost use Rattle.image_lanes.specs.LaneRuns.{lane_rules, lanes_begin};
ghost use Rattle.coarray_memory.specs.Memories.{declared_of, AreDeclared};
ghost use Rattle.lane_parts.specs.FirstLanes.{fails_at, HaveCome};

use crate::memories::memories;
use caf_base::refusal::NoMemory;
use caf_events::object::Object;
use caf_events::walker::Walker;
use coarray_memory::coarray::Coarray;
use coarray_memory::memory::Memory;
use control_board::board::Board;
use image_core::parts::PartsOf;
use image_lanes::lane::Lane;
use lane_parts::start::start_lanes;
use std::alloc::Global;

/// The parts of a run of these machines by image number from 1, each at the first ask of its image or at its end, with
/// no step. Each memory has these coarrays. Image i fails at its event of the number that `fails` has for it, counted
/// from 1 (0 or no number: it doesn't); with `words` recorded words or more an image's next step is the limit.
/// Conditions: there are at most 65,536 machines, and each static coarray of values has a first value for each of its
/// cells.
pub fn start_full<M: Walker + Drop>(
    alloc: Global,
    machines: Vec<M>,
    coarrays: &[Coarray],
    fails: &[u32],
    words: u32,
) -> Result<PartsOf<Lane<M>, Memory, Board>, NoMemory>
    requires images { length machines.items ≤ 65536 }
    requires declared { AreDeclared (map declared_of coarrays.now) }
    // They are the first moment of the run over any programs from whose beginnings the machines have come.
    ensures first { IfOk result (λ p. (first : ℕ → M.Config) → HaveCome M.step first (map M.config machines.items)
        → IsFirst (lane_rules M.step M.hears) (lanes_begin (map declared_of coarrays.now) (length machines.items) first (fails_at fails.now) words)
        (moment ⟦<Lane<M> as Walker>⟧ ⟦<Memory as Object>⟧ ⟦<Board as Object>⟧ p)) }
    // Where that run is fit they are a moment of it, with which `image_core` goes on.
    ensures sound { IfOk result (λ p. (first : ℕ → M.Config) → HaveCome M.step first (map M.config machines.items)
        → IsFit (lane_rules M.step M.hears) (lanes_begin (map declared_of coarrays.now) (length machines.items) first (fails_at fails.now) words)
        → IsKept (lane_rules M.step M.hears) (lanes_begin (map declared_of coarrays.now) (length machines.items) first (fails_at fails.now) words)
        (moment ⟦<Lane<M> as Walker>⟧ ⟦<Memory as Object>⟧ ⟦<Board as Object>⟧ p)
        × AreSound ⟦<Lane<M> as Walker>⟧ ⟦<Memory as Object>⟧ ⟦<Board as Object>⟧ p) }
    ensures count { IfOk result (λ p. length p.images.items ≡ length machines.items) }
{
    let images = machines.len() as u32;
    let memories = memories(alloc, coarrays, images)?;
    let board = Board::new(alloc, images)?;
    start_lanes(alloc, machines, fails, words, memories, board)
}
