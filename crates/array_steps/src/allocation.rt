//! Plans of allocations, and local arrays that are allocated, deallocated or laid out (ISO/IEC 1539-1:2018, 9.7.1,
//! 9.7.3).

ghost use Rattle.std.specs.Prelude.{◌≡◌, ◌<◌, ◌≤◌, ◌+◌, ◌-◌, ◌*◌, ◌^◌, ◌∷◌, ◌&&◌, [], Bool, length, drop, min, IfSome, IfNone};
ghost use Rattle.caf_base.specs.Arithmetic.{is_true, truth};
ghost use Rattle.coarray_types.specs.Places.{size_of};
ghost use Rattle.image_acts.specs.Acts as acts;
ghost use Rattle.image_acts.specs.Frames.{pairs_in};
ghost use Rattle.image_acts.specs.Operate.Allocating as allocating;
ghost use Rattle.image_acts.specs.Operate.Allocating.{allocation_effect, made};
ghost use Rattle.image_code.specs.Table.{scope_of};
ghost use Rattle.image_state.specs.Acting.{Acts};

use crate::few::FewNumbers;
use crate::locals::{elements, is_there};
use crate::values::MOST_CELLS;
use array_places::bounds::cells_between;
use caf_base::limits::COARRAY_CELLS;
use caf_base::value::Kind;
use caf_events::fault::ROOM;
use image_code::step::Scope;
use image_state::state::{Acting, ImageState};
use number_operators::arithmetic::is_of_kind;
use number_operators::operators::truth;

/// The most cells of a plan that is well, as a number of the stack.
const MOST: i64 = COARRAY_CELLS as i64;

/// A plan: whether all is well so far, and the coarray cells and the local cells that are then in use.
#[derive(Clone, Copy)]
struct Plan {
    well: i64,
    coarray: i64,
    local: i64,
}

/// The plan on top.
#[tactic(auto, using(image_state::proofs::LoopLaws::three_are, image_state::proofs::LoopLaws::fewer_than_three))]
fn plan_on_top(image: &ImageState) -> Option<Plan>
    ensures some { IfSome result (λ p. image.now.core.values ≡ p.local ∷ p.coarray ∷ p.well ∷ drop 3 image.now.core.values) }
    ensures none { IfNone result (length image.now.core.values < 3) }
{
    let local = image.number_at(0)?;
    let coarray = image.number_at(1)?;
    let well = image.number_at(2)?;
    Some(Plan {
        well,
        coarray,
        local,
    })
}

/// So many cells and a number of further ones, as far as they matter.
#[tactic(auto, using(crate::proofs::AllocationLaws::counted))]
fn sum_of_cells(n: i64, further: u128) -> i64
    ensures { result ≡ allocating.sum_of_cells n further }
{
    let used = if n < 0 { 0 } else { n as u64 };
    let cells = further.saturating_add(u128::from(used));
    if cells > 65_537 { 65_537 } else { cells as i64 }
}

/// Whether a number isn't 0.
fn is_true(v: i64) -> bool
    ensures { result ≡ is_true v }
{
    v != 0
}

/// Does the step `BeginPlan`.
#[tactic(auto, using(crate::proofs::AllocationLaws::plan_begun))]
pub fn begin_plan(image: &mut ImageState) -> Acting
    requires { length image.old.core.values + 3 ≤ image.old.rooms.numbers }
    ensures { Acts image.old (allocation_effect acts.begin_plan image.old.core) image.new result }
{
    let plan = [1, image.coarray_cells() as i64, image.local_cells() as i64];
    image.put_numbers(0, &plan);
    Acting::Done
}

/// Whether all are numbers of kind 4.
fn are_of_kind_4(numbers: &[i64]) -> bool
    ensures { result ≡ allocating.are_of_kind_4 numbers.now }
{
    numbers.iter().all(|v| is_of_kind(Kind::I4, *v))
}

/// A plan with a local array more, with these bounds.
fn with_local(plan: Plan, well: bool, bounds: &[i64]) -> [i64; 3]
    ensures { result ≡ truth (is_true plan.well && well) ∷ allocating.sum_of_cells plan.coarray 0 ∷ allocating.sum_of_cells plan.local (size_of (pairs_in bounds.now)) ∷ [] }
{
    let local = sum_of_cells(plan.local, cells_between(bounds));
    [
        truth(is_true(plan.well) && well),
        sum_of_cells(plan.coarray, 0),
        local,
    ]
}

/// Does the step `PlanLocal`.
#[tactic(auto, using(crate::proofs::AllocationLaws::local_unseen, crate::proofs::AllocationLaws::local_without_plan, crate::proofs::AllocationLaws::local_planned))]
pub fn plan_local(image: &mut ImageState, scope: Scope, x: u32, depth: u32, rank: u32) -> Acting
    requires { length image.old.core.values ≤ image.old.rooms.numbers }
    ensures { Acts image.old (allocation_effect (acts.plan_local (scope_of scope) x depth rank) image.old.core) image.new result }
{
    let Some(bounds) = image.numbers_at(depth as usize + 3, 2 * rank as usize) else {
        return Acting::Stuck;
    };
    let Some(plan) = plan_on_top(image) else {
        return Acting::Stuck;
    };
    let well = !is_there(image, scope, x) && are_of_kind_4(bounds);
    let further = with_local(plan, well, bounds);
    image.put_numbers(3, &further);
    Acting::Done
}

/// Whether all of a plan is well and fits its limits.
fn is_well(plan: Plan) -> bool
    ensures { result ≡ allocating.is_well (plan.well ∷ plan.coarray ∷ plan.local ∷ []) }
{
    is_true(plan.well) && plan.coarray <= MOST && plan.local <= MOST
}

/// Does the step `EndPlan`.
#[tactic(auto, using(crate::proofs::AllocationLaws::plan_missing, crate::proofs::AllocationLaws::plan_ended))]
pub fn end_plan(image: &mut ImageState) -> Acting
    requires { length image.old.core.values + 1 ≤ image.old.rooms.numbers + 3 }
    ensures { Acts image.old (allocation_effect acts.end_plan image.old.core) image.new result }
{
    let Some(plan) = plan_on_top(image) else {
        return Acting::Stuck;
    };
    image.put_numbers(3, &[truth(is_well(plan))]);
    Acting::Done
}

/// How many local cells are in use with those of an array with these bounds, where there may be so many.
fn cells_with(image: &ImageState, bounds: &[i64]) -> Option<u64>
    ensures some { IfSome result (λ n. n ≡ image.now.core.local_cells + size_of (pairs_in bounds.now)) }
    ensures few { IfSome result (λ n. n ≤ 65536) }
    ensures none { IfNone result (65536 < image.now.core.local_cells + size_of (pairs_in bounds.now)) }
{
    let cells = cells_between(bounds).saturating_add(u128::from(image.local_cells()));
    if cells > u128::from(MOST_CELLS) {
        None
    } else {
        Some(cells as u64)
    }
}

/// Does the step `Make`.
#[tactic(auto, using(crate::proofs::AllocationLaws::make_unseen, crate::proofs::AllocationLaws::make_high, crate::proofs::AllocationLaws::make_seen))]
pub fn make(image: &mut ImageState, scope: Scope, x: u32, depth: u32, rank: u32) -> Acting
    ensures { Acts image.old (allocation_effect (acts.make (scope_of scope) x depth rank) image.old.core) image.new result }
{
    let Some(numbers) = image.numbers_at(depth as usize, 2 * rank as usize) else {
        return Acting::Stuck;
    };
    if rank > 3 {
        return Acting::Fault(ROOM);
    }
    let bounds = FewNumbers::copy_of(numbers);
    make_with(image, scope, x, rank, &bounds)
}

/// Allocates an array of zeros with these bounds.
#[tactic(auto, using(crate::proofs::AllocationLaws::made_too_many, crate::proofs::AllocationLaws::made_full, crate::proofs::AllocationLaws::made_whole))]
fn make_with(image: &mut ImageState, scope: Scope, x: u32, rank: u32, bounds: &FewNumbers) -> Acting
    requires rank { rank ≤ 3 }
    requires few { length bounds.now ≤ 6 }
    ensures { Acts image.old (made (scope_of scope) x rank (pairs_in bounds.now) image.old.core) image.new result }
{
    let Some(cells) = cells_with(image, bounds.as_slice()) else {
        return Acting::Fault(ROOM);
    };
    match image.lay(scope, x, bounds.as_slice()) {
        Err(_) => Acting::Fault(ROOM),
        Ok(()) => {
            image.set_local_cells(cells);
            Acting::Done
        }
    }
}

/// Does the step `Free`.
#[tactic(auto, using(crate::proofs::AllocationLaws::free_missing, crate::proofs::AllocationLaws::freed))]
pub fn free(image: &mut ImageState, scope: Scope, x: u32) -> Acting
    ensures { Acts image.old (allocation_effect (acts.free (scope_of scope) x) image.old.core) image.new result }
{
    let Some(elements) = elements(image, scope, x) else {
        return Acting::Stuck;
    };
    let left = image.local_cells().saturating_sub(elements.len() as u64);
    image.take_away(scope, x);
    image.set_local_cells(left);
    Acting::Done
}

/// Does the step `LayOut`.
#[tactic(auto, using(crate::proofs::Changed::same_numbers, crate::proofs::AllocationLaws::lay_missing, crate::proofs::AllocationLaws::lay_high, crate::proofs::AllocationLaws::lay_full, crate::proofs::AllocationLaws::lay_done))]
pub fn lay_out(image: &mut ImageState, x: u32, rank: u32) -> Acting
    ensures { Acts image.old (allocation_effect (acts.lay_out x rank) image.old.core) image.new result }
{
    let n = 2 * rank as usize;
    let Some(numbers) = image.numbers_at(0, n) else {
        return Acting::Stuck;
    };
    if rank > 3 {
        return Acting::Fault(ROOM);
    }
    let bounds = FewNumbers::copy_of(numbers);
    match image.lay(Scope::Here, x, bounds.as_slice()) {
        Err(_) => Acting::Fault(ROOM),
        Ok(()) => {
            image.drop_top(n);
            Acting::Done
        }
    }
}
