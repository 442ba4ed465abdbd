//! Locks and events (ISO/IEC 1539-1:2018, 11.6.7, 11.6.8, 11.6.10), and the cells that they and atoms are.

ghost use Rattle.std.specs.Prelude.{◌≡◌, ◌≤◌, [], ◌∷◌, OnOk};
ghost use Rattle.checked_tree.specs.ExpressionViews as view;
ghost use Rattle.image_code.specs.Table as table;
ghost use Rattle.image_acts.specs.Acts as act;
ghost use Rattle.tree_meaning.specs.Expressions as expressions;
ghost use Rattle.tree_meaning.specs.ImageControl as meaning;
ghost use Rattle.tree_meaning.specs.Sequences.{doing, pushing};
ghost use Rattle.tree_meaning.specs.Settling.{settling_selector};
ghost use Rattle.expr_code.specs.Drafts.{written};
ghost use Rattle.expr_code.specs.Environments.{environment};
ghost use Rattle.control_code.specs.Events as part;

use crate::image_control::push_number_and_place;
use crate::settling::{
    UNLOCKED_FAILED_IMAGE, push_place, push_settling, push_settling_selector, size_of,
};
use caf_base::refusal::NoMemory;
use checked_tree::data::Object;
use checked_tree::expr::{Designator, ResultVariable, TypedExpr, WrittenOrder};
use expr_code::draft::Draft;
use expr_code::env::Env;
use expr_code::expr::{push_owner, push_result_place, push_subscripts};
use expr_code::piece::{
    push_bring, push_copy, push_drop, push_needs_own, push_store, result_size, stat_size,
};
use expr_code::shape::{form_of, is_scalar};
use image_code::step::{AskStep, Step};

/// The place and the owner of a cell; the place of its selector's STAT= variable stands beneath them.
#[tactic(auto, using(expr_code::proofs::Forms::laws))]
pub fn push_cell(
    draft: &mut Draft,
    env: &Env<'_>,
    variable: &Designator,
    line: u32,
) -> Result<(), NoMemory>
    ensures { OnOk result (draft.new ≡ written line (meaning.cell (environment env.now) (view.designator variable.now)) draft.old) }
{
    let form = form_of(&variable.subscripts, 0)?;
    match variable.object {
        Object::Coarray(coarray) => {
            push_subscripts(draft, env, &variable.subscripts, line)?;
            draft.push(Step::CoSection(coarray, form), line)?;
            push_owner(draft, env, coarray, 0, &variable.selector, line)
        }
        Object::Local(_) => Ok(()),
        Object::Constant(_) => Ok(()),
    }
}

/// The coarray of a cell.
#[tactic(auto, using(expr_code::proofs::Forms::laws))]
pub fn coarray_of(env: &Env<'_>, variable: &Designator) -> u32
    ensures { result ≡ meaning.cell_coarray (environment env.now) (view.designator variable.now) }
{
    match variable.object {
        Object::Coarray(coarray) => coarray,
        Object::Local(_) => 0,
        Object::Constant(_) => 0,
    }
}

/// How many numbers its place, its owner and the place of STAT= are.
#[tactic(auto, using(expr_code::proofs::Forms::laws, crate::proofs::Results::small_optional))]
pub fn cell_size(env: &Env<'_>, variable: &Designator) -> u32
    ensures is { result ≡ meaning.cell_size (environment env.now) (view.designator variable.now) }
    ensures small { result ≤ 3 }
{
    stat_size(&variable.selector) + 2
}

/// A cell without a selector is this image's, which has to be there.
#[tactic(auto, using(expr_code::proofs::Forms::laws))]
pub fn push_there(
    draft: &mut Draft,
    env: &Env<'_>,
    variable: &Designator,
    line: u32,
) -> Result<(), NoMemory>
    ensures { OnOk result (draft.new ≡ written line (meaning.cell_there (environment env.now) (view.designator variable.now)) draft.old) }
{
    match variable.object {
        Object::Coarray(coarray) => push_needs_own(
            draft,
            coarray,
            is_scalar(&variable.subscripts, 0),
            &variable.selector,
            line,
        ),
        Object::Local(_) => Ok(()),
        Object::Constant(_) => Ok(()),
    }
}

/// The status goes into STAT= of its selector too, whose place stands beneath `depth` numbers.
#[tactic(auto, using(expr_code::proofs::Forms::laws))]
pub fn push_cell_status(
    draft: &mut Draft,
    env: &Env<'_>,
    variable: &Designator,
    depth: u32,
    line: u32,
) -> Result<(), NoMemory>
    ensures { OnOk result (draft.new ≡ written line (settling_selector (meaning.cell_stat (environment env.now) (view.designator variable.now)) depth) draft.old) }
{
    push_settling_selector(draft, &variable.selector, depth, line)
}

// The access to the cell whose place and owner stand beneath so many numbers.
fn push_asking(
    draft: &mut Draft,
    env: &Env<'_>,
    variable: &Designator,
    depth: u32,
    ask: AskStep,
    line: u32,
) -> Result<(), NoMemory>
    ensures { OnOk result (draft.new ≡ written line (part.asking (environment env.now) (view.designator variable.now) depth (table.ask_of ask)) draft.old) }
{
    push_there(draft, env, variable, line)?;
    push_copy(draft, depth, 2, line)?;
    draft.push(Step::Ask(ask), line)?;
    draft.push(Step::Accessed, line)
}

// What a statement on a cell does behind the cell, with one status.
fn push_on_there(
    draft: &mut Draft,
    env: &Env<'_>,
    variable: &Designator,
    stat: &Option<ResultVariable>,
    ask: AskStep,
    accepted: &[i64],
    line: u32,
) -> Result<(), NoMemory>
    ensures { OnOk result (draft.new ≡ written line (part.on_there (environment env.now) (view.designator variable.now) (view.maybe_result stat.now) (table.ask_of ask) accepted.now) draft.old) }
{
    let size = size_of(stat);
    push_place(draft, env, stat, line)?;
    push_asking(draft, env, variable, size, ask, line)?;
    push_cell_status(draft, env, variable, size + 4, line)?;
    push_settling(draft, stat, 1, accepted, line)?;
    push_drop(draft, size + cell_size(env, variable), line)
}

/// UNLOCK (11.6.10).
pub fn push_unlock(
    draft: &mut Draft,
    env: &Env<'_>,
    variable: &Designator,
    stat: &Option<ResultVariable>,
    line: u32,
) -> Result<(), NoMemory>
    ensures { OnOk result (draft.new ≡ written line (meaning.unlock (environment env.now) (view.designator variable.now) (view.maybe_result stat.now)) draft.old) }
{
    let ask = AskStep::Unlock(coarray_of(env, variable));
    push_cell(draft, env, variable, line)?;
    push_on_there(draft, env, variable, stat, ask, &[], line)
}

/// EVENT POST (11.6.7).
pub fn push_event_post(
    draft: &mut Draft,
    env: &Env<'_>,
    variable: &Designator,
    stat: &Option<ResultVariable>,
    line: u32,
) -> Result<(), NoMemory>
    ensures { OnOk result (draft.new ≡ written line (meaning.event_post (environment env.now) (view.designator variable.now) (view.maybe_result stat.now)) draft.old) }
{
    let ask = AskStep::Post(coarray_of(env, variable));
    push_cell(draft, env, variable, line)?;
    push_on_there(draft, env, variable, stat, ask, &[], line)
}

// The places of ACQUIRED_LOCK= and STAT=, as they are written.
fn push_places(
    draft: &mut Draft,
    env: &Env<'_>,
    acquired: &ResultVariable,
    stat: &Option<ResultVariable>,
    order: WrittenOrder,
    line: u32,
) -> Result<(), NoMemory>
    ensures { OnOk result (draft.new ≡ written line (part.places (environment env.now) (view.result_variable acquired.now) (view.maybe_result stat.now) order) draft.old) }
{
    match order {
        WrittenOrder::Same => {
            push_result_place(draft, env, acquired, line)?;
            push_place(draft, env, stat, line)
        }
        WrittenOrder::Reversed => {
            push_place(draft, env, stat, line)?;
            push_result_place(draft, env, acquired, line)?;
            push_bring(draft, result_size(acquired), size_of(stat), line)
        }
    }
}

// LOCK with ACQUIRED_LOCK=, whose place is of this size, behind the cell.
#[tactic(auto, using(crate::proofs::Results::small_result))]
fn push_tried_lock(
    draft: &mut Draft,
    env: &Env<'_>,
    variable: &Designator,
    acquired: &ResultVariable,
    stat: &Option<ResultVariable>,
    order: WrittenOrder,
    line: u32,
) -> Result<(), NoMemory>
    ensures { OnOk result (draft.new ≡ written line (part.tried (environment env.now) (view.designator variable.now) (view.result_variable acquired.now) (view.maybe_result stat.now) order) draft.old) }
{
    let n = result_size(acquired);
    let size = size_of(stat);
    let ask = AskStep::TryLock(coarray_of(env, variable));
    push_places(draft, env, acquired, stat, order, line)?;
    push_asking(draft, env, variable, n + size, ask, line)?;
    push_cell_status(draft, env, variable, n + (size + 5), line)?;
    push_copy(draft, 1, 1, line)?;
    push_store(draft, size + 3, acquired, line)?;
    push_settling(draft, stat, 2, &[UNLOCKED_FAILED_IMAGE], line)?;
    push_drop(draft, 1 + (n + (size + cell_size(env, variable))), line)
}

/// LOCK (11.6.10): a lock whose last holder failed is acquired.
pub fn push_lock(
    draft: &mut Draft,
    env: &Env<'_>,
    variable: &Designator,
    acquired: &Option<ResultVariable>,
    stat: &Option<ResultVariable>,
    order: WrittenOrder,
    line: u32,
) -> Result<(), NoMemory>
    ensures { OnOk result (draft.new ≡ written line (meaning.lock (environment env.now) (view.designator variable.now) (view.maybe_result acquired.now) (view.maybe_result stat.now) order) draft.old) }
{
    push_cell(draft, env, variable, line)?;
    match acquired {
        None => {
            let ask = AskStep::Lock(coarray_of(env, variable));
            push_on_there(
                draft,
                env,
                variable,
                stat,
                ask,
                &[UNLOCKED_FAILED_IMAGE],
                line,
            )
        }
        Some(acquired) => push_tried_lock(draft, env, variable, acquired, stat, order, line),
    }
}

// The wait for this image's event, whose place stands beneath the threshold and the place of STAT=.
fn push_waiting(
    draft: &mut Draft,
    coarray: u32,
    stat: &Option<ResultVariable>,
    line: u32,
) -> Result<(), NoMemory>
    ensures { OnOk result (draft.new ≡ written line (part.waiting coarray (view.maybe_result stat.now)) draft.old) }
{
    let size = size_of(stat);
    push_copy(draft, size, 2, line)?;
    draft.push(Step::Ask(AskStep::Wait(coarray)), line)?;
    push_settling(draft, stat, 1, &[], line)?;
    push_drop(draft, size + 2, line)
}

/// EVENT WAIT (11.6.8): of this image's event, with the threshold 1 where none is given.
pub fn push_event_wait(
    draft: &mut Draft,
    env: &Env<'_>,
    variable: &Designator,
    until_count: &Option<TypedExpr>,
    stat: &Option<ResultVariable>,
    order: WrittenOrder,
    line: u32,
) -> Result<(), NoMemory>
    ensures { OnOk result (draft.new ≡ written line (meaning.event_wait (environment env.now) (view.designator variable.now) (view.maybe_expression until_count.now) (view.maybe_result stat.now) order) draft.old) }
{
    push_cell(draft, env, variable, line)?;
    push_drop(draft, 1, line)?;
    push_number_and_place(draft, env, until_count, 1, stat, order, line)?;
    push_waiting(draft, coarray_of(env, variable), stat, line)
}
