//! Plans of an ALLOCATE statement, and which coarrays are allocated here (ISO/IEC 1539-1:2018, 9.7.1, 9.7.3).

ghost use Rattle.std.specs.Prelude.{◌≡◌, ◌<◌, ◌≤◌, ◌+◌, ◌&&◌, ◌∷◌, drop, length, IfSome, IfNone};
ghost use Rattle.caf_base.specs.Arithmetic.{truth, is_true};
ghost use Rattle.coarray_types.specs.Places.{size_of};
ghost use Rattle.image_acts.specs.Acts as acts;
ghost use Rattle.image_acts.specs.Frames.{pairs_in};
ghost use Rattle.image_acts.specs.Operate.Allocating.{allocation_effect, bounds_size, cobounds_size};
ghost use Rattle.coarray_tables.specs.Owns.{sum_of_cells};
ghost use Rattle.image_state.specs.Acting.{Acts};

use caf_events::fault::ROOM;
use coarray_tables::plans::{sum_alone, sum_with};
use image_state::state::{Acting, ImageState};
use number_operators::operators::truth;

/// A plan of an ALLOCATE: whether all is well so far, as a truth value, and the coarray cells and local cells in use.
#[derive(Clone, Copy)]
struct Plan {
    well: i64,
    coarray: i64,
    local: i64,
}

/// How many numbers the bounds of a rank and the cobounds of a corank are.
fn shape_size(rank: u32, corank: u32) -> usize
    ensures { result ≡ bounds_size rank + cobounds_size corank }
{
    2 * rank as usize + (2 * corank as usize).saturating_sub(1)
}

/// The plan on top.
fn plan_on_top(image: &ImageState) -> Option<Plan>
    ensures some { IfSome result (λ p. image.now.core.values ≡ p.local ∷ p.coarray ∷ p.well ∷ drop 3 image.now.core.values) }
    ensures none { IfNone result (length image.now.core.values < 3) }
{
    let local = image.number_at(0)?;
    let coarray = image.number_at(1)?;
    let well = image.number_at(2)?;
    Some(Plan {
        well,
        coarray,
        local,
    })
}

/// Whether all is well so far with a coarray more, and the cells that are then in use.
fn with_coarray(plan: Plan, well: bool, bounds: &[i64]) -> Plan
    ensures well { result.well ≡ truth (is_true plan.well && well) }
    ensures coarray { result.coarray ≡ sum_of_cells plan.coarray (size_of (pairs_in bounds.now)) }
    ensures local { result.local ≡ sum_of_cells plan.local 0 }
{
    Plan {
        well: truth(plan.well != 0 && well),
        coarray: sum_with(&plan.coarray, bounds),
        local: sum_alone(&plan.local),
    }
}

/// Does the step `PlanCoarray`.
#[tactic(auto, using(crate::proofs::OwnPlans::shape_missing, crate::proofs::OwnPlans::plan_missing, crate::proofs::OwnPlans::plan_summed))]
pub fn plan_coarray(
    image: &mut ImageState,
    coarray: u32,
    depth: u32,
    rank: u32,
    corank: u32,
) -> Acting
    requires { length image.old.core.values ≤ image.old.rooms.numbers }
    ensures { Acts image.old (allocation_effect (acts.plan_coarray coarray depth rank corank) image.old.core) image.new result }
{
    let Some(numbers) = image.numbers_at(depth as usize + 3, shape_size(rank, corank)) else {
        return Acting::Stuck;
    };
    let Some(plan) = plan_on_top(image) else {
        return Acting::Stuck;
    };
    let well = image.coarrays().may_be_made(coarray, rank, numbers);
    let planned = with_coarray(plan, well, &numbers[..2 * rank as usize]);
    image.put_numbers(3, &[planned.well, planned.coarray, planned.local]);
    Acting::Done
}

/// Does the step `NoteMade`.
#[tactic(auto, using(crate::proofs::OwnPlans::note_missing, crate::proofs::OwnPlans::note_full, crate::proofs::OwnPlans::note_done))]
pub fn note_made(image: &mut ImageState, coarray: u32, depth: u32, rank: u32, corank: u32) -> Acting
    ensures { Acts image.old (allocation_effect (acts.note_made coarray depth rank corank) image.old.core) image.new result }
{
    let depth = depth as usize;
    let Some(_numbers) = image.numbers_at(depth, shape_size(rank, corank)) else {
        return Acting::Stuck;
    };
    if image.note_coarray(coarray, rank, corank, depth) {
        Acting::Done
    } else {
        Acting::Fault(ROOM)
    }
}

/// Does the step `NoteFreed`.
#[tactic(auto, using(crate::proofs::OwnPlans::freed_missing, crate::proofs::OwnPlans::freed_done))]
pub fn note_freed(image: &mut ImageState, coarray: u32) -> Acting
    ensures { Acts image.old (allocation_effect (acts.note_freed coarray) image.old.core) image.new result }
{
    if image.free_coarray(coarray) {
        Acting::Done
    } else {
        Acting::Stuck
    }
}
