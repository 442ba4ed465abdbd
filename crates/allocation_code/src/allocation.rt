//! ALLOCATE and DEALLOCATE (ISO/IEC 1539-1:2018, 9.7.1, 9.7.3). What can't be is found before the first step.

ghost use Rattle.std.specs.Prelude.{◌≡◌, ◌≤◌, ◌+◌, [], ◌∷◌, length, map, pos, IfOk, OnOk};
ghost use Rattle.walk_theory.specs.Made.{parts_size};
ghost use Rattle.checked_tree.specs.ExpressionViews as view;
ghost use Rattle.checked_tree.specs.StatementViews as statements;
ghost use Rattle.image_acts.specs.Operate.Allocating.{bounds_size, cobounds_size};
ghost use Rattle.tree_meaning.specs.Allocation as meaning;
ghost use Rattle.tree_meaning.specs.ImageControl as control;
ghost use Rattle.tree_meaning.specs.Sequences.{◌▸◌, doing, pushing};
ghost use Rattle.expr_code.specs.Drafts.{written};
ghost use Rattle.expr_code.specs.Environments.{environment};
ghost use Rattle.allocation_code.specs.Allocating as part;

use crate::object::{objects_of, push_allocate_round, push_named_once};
use caf_base::refusal::NoMemory;
use checked_tree::action::{AllocatedBounds, Allocation};
use checked_tree::data::Object;
use checked_tree::expr::{ResultVariable, TypedExpr};
use control_code::settling::{BAD_ARGUMENT, push_or_number, push_place, push_settling, size_of};
use expr_code::draft::Draft;
use expr_code::env::Env;
use expr_code::expr::push_expr;
use expr_code::piece::{push_drop, scope_of};
use expr_code::shape::{narrow, sum};
use image_code::step::{AskStep, Step};
use std::alloc::Global;

// The bounds of dimensions, or of codimensions: a missing lower one is 1.
fn push_bounds(
    draft: &mut Draft,
    env: &Env<'_>,
    bounds: &[AllocatedBounds],
    line: u32,
) -> Result<(), NoMemory>
    ensures { OnOk result (draft.new ≡ written line (meaning.bounds (environment env.now) (map statements.allocated_bounds bounds.now)) draft.old) }
{
    for pair in bounds {
        push_or_number(draft, env, &pair.lower, 1, line)?;
        push_expr(draft, env, &pair.upper, line)?;
    }
    Ok(())
}

fn push_coarray_bounds(
    draft: &mut Draft,
    env: &Env<'_>,
    bounds: &[AllocatedBounds],
    cobounds: &[AllocatedBounds],
    last_lower: &Option<TypedExpr>,
    line: u32,
) -> Result<(), NoMemory>
    ensures { OnOk result (draft.new ≡ written line (part.coarray_bounds (environment env.now) (map statements.allocated_bounds bounds.now) (map statements.allocated_bounds cobounds.now) (view.maybe_expression last_lower.now)) draft.old) }
{
    push_bounds(draft, env, bounds, line)?;
    push_bounds(draft, env, cobounds, line)?;
    push_or_number(draft, env, last_lower, 1, line)
}

fn push_object_bounds(
    draft: &mut Draft,
    env: &Env<'_>,
    object: &Allocation,
    line: u32,
) -> Result<(), NoMemory>
    ensures { OnOk result (draft.new ≡ written line (meaning.object_bounds (environment env.now) (statements.allocation object.now)) draft.old) }
{
    match object {
        Allocation::Local { bounds, .. } => push_bounds(draft, env, bounds, line),
        Allocation::Coarray {
            bounds,
            cobounds,
            last_lower,
            ..
        } => push_coarray_bounds(draft, env, bounds, cobounds, last_lower, line),
    }
}

fn push_objects_bounds(
    draft: &mut Draft,
    env: &Env<'_>,
    objects: &[Allocation],
    line: u32,
) -> Result<(), NoMemory>
    ensures { OnOk result (draft.new ≡ written line (meaning.objects_bounds (environment env.now) (map statements.allocation objects.now)) draft.old) }
{
    for object in objects {
        push_object_bounds(draft, env, object, line)?;
    }
    Ok(())
}

// How many numbers the bounds of so many dimensions are.
fn bounds_of(dimensions: usize) -> Result<u32, NoMemory>
    ensures { IfOk result (λ n. n ≡ bounds_size dimensions) }
{
    let n = narrow(dimensions)?;
    sum(n, n)
}

// The cobounds of a codimension more than these, whose upper one is missing.
fn cobounds_of(codimensions: usize) -> Result<u32, NoMemory>
    ensures { IfOk result (λ n. n ≡ cobounds_size (codimensions + 1)) }
{
    let n = narrow(codimensions)?;
    sum(sum(n, n)?, 1)
}

// How many numbers the bounds and cobounds of an object are.
fn object_size(object: &Allocation) -> Result<u32, NoMemory>
    ensures { IfOk result (λ n. n ≡ meaning.object_size (statements.allocation object.now)) }
{
    match object {
        Allocation::Local { bounds, .. } => bounds_of(bounds.len()),
        Allocation::Coarray {
            bounds,
            cobounds,
            ..
        } => sum(bounds_of(bounds.len())?, cobounds_of(cobounds.len())?),
    }
}

// The same of objects.
fn object_sizes(objects: &[Allocation]) -> Result<u32, NoMemory>
    ensures { IfOk result (λ n. n ≡ meaning.object_sizes (map statements.allocation objects.now)) }
{
    let mut size = 0;
    for object in objects {
        size = sum(size, object_size(object)?)?;
    }
    Ok(size)
}

// The tests of one object, whose bounds stand beneath so many numbers.
fn push_planning_one(
    draft: &mut Draft,
    object: &Allocation,
    depth: u32,
    line: u32,
) -> Result<(), NoMemory>
    ensures { OnOk result (draft.new ≡ written line (meaning.planning_one (statements.allocation object.now) depth) draft.old) }
{
    match object {
        Allocation::Local {
            variable,
            bounds,
            ..
        } => {
            let rank = narrow(bounds.len())?;
            draft.push(
                Step::PlanLocal(scope_of(variable.home), variable.variable, depth, rank),
                line,
            )
        }
        Allocation::Coarray {
            coarray,
            bounds,
            cobounds,
            ..
        } => {
            let rank = narrow(bounds.len())?;
            let corank = sum(narrow(cobounds.len())?, 1)?;
            draft.push(Step::PlanCoarray(*coarray, depth, rank, corank), line)
        }
    }
}

// Those of objects whose bounds stand beneath so many numbers: `left` numbers are the bounds of those that aren't
// tested yet.
fn push_planning(
    draft: &mut Draft,
    objects: &[Allocation],
    above: u32,
    line: u32,
) -> Result<(), NoMemory>
    ensures { OnOk result (draft.new ≡ written line (meaning.planning (map statements.allocation objects.now) above) draft.old) }
{
    let mut left = object_sizes(objects)?;
    for object in objects {
        left -= object_size(object)?;
        push_planning_one(draft, object, sum(left, above)?, line)?;
    }
    Ok(())
}

// The allocation of one object.
fn push_making_one(
    draft: &mut Draft,
    object: &Allocation,
    depth: u32,
    line: u32,
) -> Result<(), NoMemory>
    ensures { OnOk result (draft.new ≡ written line (meaning.making_one (statements.allocation object.now) depth) draft.old) }
{
    match object {
        Allocation::Local {
            variable,
            bounds,
            ..
        } => {
            let rank = narrow(bounds.len())?;
            draft.push(
                Step::Make(scope_of(variable.home), variable.variable, depth, rank),
                line,
            )
        }
        Allocation::Coarray {
            coarray,
            bounds,
            cobounds,
            ..
        } => {
            let rank = narrow(bounds.len())?;
            let corank = sum(narrow(cobounds.len())?, 1)?;
            let beneath = sum(depth, cobounds_of(cobounds.len())?)?;
            draft.push(Step::Ask(AskStep::Create(*coarray, beneath, rank)), line)?;
            draft.push(Step::NoteMade(*coarray, depth, rank, corank), line)
        }
    }
}

fn push_making(
    draft: &mut Draft,
    objects: &[Allocation],
    above: u32,
    line: u32,
) -> Result<(), NoMemory>
    ensures { OnOk result (draft.new ≡ written line (meaning.making (map statements.allocation objects.now) above) draft.old) }
{
    let mut left = object_sizes(objects)?;
    for object in objects {
        left -= object_size(object)?;
        push_making_one(draft, object, sum(left, above)?, line)?;
    }
    Ok(())
}

// The allocation of all of them, and the round of the coarrays among these objects.
fn push_made(
    draft: &mut Draft,
    allocations: &[Allocation],
    objects: &[Object],
    above: u32,
    line: u32,
) -> Result<(), NoMemory>
    ensures { OnOk result (draft.new ≡ written line (part.made (map statements.allocation allocations.now) objects.now above) draft.old) }
{
    push_making(draft, allocations, above, line)?;
    push_allocate_round(draft, objects, line)
}

// Its size.
#[tactic(auto, using(expr_code::proofs::Lines::written_long))]
fn made_size(
    alloc: Global,
    allocations: &[Allocation],
    objects: &[Object],
    above: u32,
) -> Result<u32, NoMemory>
    ensures { IfOk result (λ n. n ≡ parts_size (part.made (map statements.allocation allocations.now) objects.now above)) }
{
    let mut draft = Draft::counting(alloc)?;
    push_made(&mut draft, allocations, objects, above, 0)?;
    narrow(draft.length() as usize)
}

// Where all is well, the allocation; else the status of a bad argument.
fn push_chosen(
    draft: &mut Draft,
    allocations: &[Allocation],
    objects: &[Object],
    above: u32,
    line: u32,
) -> Result<(), NoMemory>
    ensures { OnOk result (draft.new ≡ written line (part.chosen (map statements.allocation allocations.now) objects.now above) draft.old) }
{
    let size = made_size(draft.allocator(), allocations, objects, above)?;
    draft.push(Step::SkipUnless(sum(size, 1)?), line)?;
    push_made(draft, allocations, objects, above, line)?;
    draft.push(Step::Skip(1), line)?;
    draft.push(Step::Number(BAD_ARGUMENT), line)
}

// What ALLOCATE tests and does behind its bounds and the place of STAT=.
fn push_planned(
    draft: &mut Draft,
    allocations: &[Allocation],
    above: u32,
    line: u32,
) -> Result<(), NoMemory>
    ensures { OnOk result (draft.new ≡ written line (part.planned (map statements.allocation allocations.now) above) draft.old) }
{
    let objects = objects_of(draft.allocator(), allocations)?;
    draft.push(Step::BeginPlan, line)?;
    push_planning(draft, allocations, above, line)?;
    draft.push(Step::EndPlan, line)?;
    push_named_once(draft, &objects, line)?;
    push_chosen(draft, allocations, &objects, above, line)
}

/// ALLOCATE.
pub fn push_allocate(
    draft: &mut Draft,
    env: &Env<'_>,
    objects: &[Allocation],
    stat: &Option<ResultVariable>,
    line: u32,
) -> Result<(), NoMemory>
    ensures { OnOk result (draft.new ≡ written line (meaning.allocate (environment env.now) (map statements.allocation objects.now) (view.maybe_result stat.now)) draft.old) }
{
    let size = size_of(stat);
    let left = sum(object_sizes(objects)?, size)?;
    push_objects_bounds(draft, env, objects, line)?;
    push_place(draft, env, stat, line)?;
    push_planned(draft, objects, size, line)?;
    push_settling(draft, stat, 1, &[], line)?;
    push_drop(draft, left, line)
}
