//! Simple statements: those that are no construct and lead nowhere (ISO/IEC 1539-1:2018, 5.1).

ghost use Rattle.std.specs.Prelude.{◌≡◌, [], ◌∷◌, map, pos, OnOk};
ghost use Rattle.checked_tree.specs.ExpressionViews as view;
ghost use Rattle.checked_tree.specs.StatementViews as statements;
ghost use Rattle.image_acts.specs.Acts as act;
ghost use Rattle.tree_meaning.specs.Allocation as allocations;
ghost use Rattle.tree_meaning.specs.Subroutines as subroutines;
ghost use Rattle.tree_meaning.specs.Assignments as assignments;
ghost use Rattle.tree_meaning.specs.Environment.{procedure_in};
ghost use Rattle.tree_meaning.specs.Forms as meaning;
ghost use Rattle.tree_meaning.specs.ImageControl as control;
ghost use Rattle.tree_meaning.specs.Sequences.{◌▸◌, doing, pushing, released};
ghost use Rattle.expr_code.specs.Drafts.{written};
ghost use Rattle.expr_code.specs.Environments.{environment};
ghost use Rattle.statement_code.specs.Simple.{SimplyWritten};
ghost use Rattle.statement_code.specs.Texts.{HasTexts};

use crate::output::push_output;
use allocation_code::allocation::push_allocate;
use allocation_code::object::push_deallocate;
use assignment_code::assignment::{push_assignment, push_images_assignment};
use caf_base::refusal::NoMemory;
use checked_tree::action::{Allocation, IntrinsicCall};
use checked_tree::data::{DataType, Local, Object};
use checked_tree::expr::{Argument, Designator, ResultVariable, TypedExpr, WrittenOrder};
use checked_tree::format::Format;
use checked_tree::statement::{ImageSet, Item, ListedImages, StatementForm};
use control_code::event::{push_event_post, push_event_wait, push_lock, push_unlock};
use control_code::image_control::{
    push_form_team, push_sync_all, push_sync_images, push_sync_memory, push_sync_team,
};
use control_code::settling::push_or_number;
use expr_code::draft::Draft;
use expr_code::env::Env;
use expr_code::expr::push_call;
use image_code::step::{AskStep, Step};
use subroutine_code::subroutine::push_intrinsic_call;

// Assignment.
fn assign(
    draft: &mut Draft,
    env: &Env<'_>,
    variable: &Designator,
    of_type: DataType,
    rank: u32,
    value: &TypedExpr,
    line: u32,
) -> Result<(), NoMemory>
    ensures { OnOk result (draft.new ≡ written line (released (assignments.assignment (environment env.now) (view.designator variable.now) of_type rank (view.expression value.now))) draft.old) }
{
    let before = draft.look();
    push_assignment(draft, env, variable, of_type, rank, value, line)?;
    draft.release(before, line)
}

// Assignment of FAILED_IMAGES or STOPPED_IMAGES.
fn assign_images(
    draft: &mut Draft,
    env: &Env<'_>,
    variable: Local,
    images: ListedImages,
    team: &Option<TypedExpr>,
    line: u32,
) -> Result<(), NoMemory>
    ensures { OnOk result (draft.new ≡ written line (released (assignments.images_assignment (environment env.now) variable images (view.maybe_expression team.now))) draft.old) }
{
    let before = draft.look();
    push_images_assignment(draft, env, variable, images, team, line)?;
    draft.release(before, line)
}

// CALL.
fn call_of(
    draft: &mut Draft,
    env: &Env<'_>,
    procedure: u32,
    arguments: &[Argument],
    line: u32,
) -> Result<(), NoMemory>
    ensures { OnOk result (draft.new ≡ written line (released (meaning.called (environment env.now) procedure (procedure_in (environment env.now) procedure) (view.arguments arguments.now))) draft.old) }
{
    let before = draft.look();
    push_call(draft, env, procedure, arguments, line)?;
    draft.release(before, line)
}

// PRINT.
fn print(
    draft: &mut Draft,
    env: &Env<'_>,
    format: &Format,
    items: &[Item],
    line: u32,
) -> Result<(), NoMemory>
    requires texts { HasTexts (environment env.now) draft.old }
    ensures { OnOk result (draft.new ≡ written line (released (assignments.output (environment env.now) (statements.format format.now) (map statements.item items.now))) draft.old) }
{
    let before = draft.look();
    push_output(draft, env, format, items, line)?;
    draft.release(before, line)
}

// SYNC ALL.
fn sync_all(
    draft: &mut Draft,
    env: &Env<'_>,
    stat: &Option<ResultVariable>,
    line: u32,
) -> Result<(), NoMemory>
    ensures { OnOk result (draft.new ≡ written line (released (control.sync_all (environment env.now) (view.maybe_result stat.now))) draft.old) }
{
    let before = draft.look();
    push_sync_all(draft, env, stat, line)?;
    draft.release(before, line)
}

// SYNC MEMORY.
fn sync_memory(
    draft: &mut Draft,
    env: &Env<'_>,
    stat: &Option<ResultVariable>,
    line: u32,
) -> Result<(), NoMemory>
    ensures { OnOk result (draft.new ≡ written line (released (control.sync_memory (environment env.now) (view.maybe_result stat.now))) draft.old) }
{
    let before = draft.look();
    push_sync_memory(draft, env, stat, line)?;
    draft.release(before, line)
}

// SYNC IMAGES.
fn sync_images(
    draft: &mut Draft,
    env: &Env<'_>,
    images: &ImageSet,
    stat: &Option<ResultVariable>,
    line: u32,
) -> Result<(), NoMemory>
    ensures { OnOk result (draft.new ≡ written line (released (control.sync_images (environment env.now) (statements.image_set images.now) (view.maybe_result stat.now))) draft.old) }
{
    let before = draft.look();
    push_sync_images(draft, env, images, stat, line)?;
    draft.release(before, line)
}

// SYNC TEAM.
fn sync_team(
    draft: &mut Draft,
    env: &Env<'_>,
    team: &TypedExpr,
    stat: &Option<ResultVariable>,
    line: u32,
) -> Result<(), NoMemory>
    ensures { OnOk result (draft.new ≡ written line (released (control.sync_team (environment env.now) (view.expression team.now) (view.maybe_result stat.now))) draft.old) }
{
    let before = draft.look();
    push_sync_team(draft, env, team, stat, line)?;
    draft.release(before, line)
}

// FORM TEAM.
fn form_team(
    draft: &mut Draft,
    env: &Env<'_>,
    number: &TypedExpr,
    team: Local,
    new_index: &Option<TypedExpr>,
    stat: &Option<ResultVariable>,
    order: WrittenOrder,
    line: u32,
) -> Result<(), NoMemory>
    ensures { OnOk result (draft.new ≡ written line (released (control.form_team (environment env.now) (view.expression number.now) team (view.maybe_expression new_index.now) (view.maybe_result stat.now) order)) draft.old) }
{
    let before = draft.look();
    push_form_team(draft, env, number, team, new_index, stat, order, line)?;
    draft.release(before, line)
}

// LOCK.
fn lock(
    draft: &mut Draft,
    env: &Env<'_>,
    variable: &Designator,
    acquired: &Option<ResultVariable>,
    stat: &Option<ResultVariable>,
    order: WrittenOrder,
    line: u32,
) -> Result<(), NoMemory>
    ensures { OnOk result (draft.new ≡ written line (released (control.lock (environment env.now) (view.designator variable.now) (view.maybe_result acquired.now) (view.maybe_result stat.now) order)) draft.old) }
{
    let before = draft.look();
    push_lock(draft, env, variable, acquired, stat, order, line)?;
    draft.release(before, line)
}

// UNLOCK.
fn unlock(
    draft: &mut Draft,
    env: &Env<'_>,
    variable: &Designator,
    stat: &Option<ResultVariable>,
    line: u32,
) -> Result<(), NoMemory>
    ensures { OnOk result (draft.new ≡ written line (released (control.unlock (environment env.now) (view.designator variable.now) (view.maybe_result stat.now))) draft.old) }
{
    let before = draft.look();
    push_unlock(draft, env, variable, stat, line)?;
    draft.release(before, line)
}

// EVENT POST.
fn event_post(
    draft: &mut Draft,
    env: &Env<'_>,
    variable: &Designator,
    stat: &Option<ResultVariable>,
    line: u32,
) -> Result<(), NoMemory>
    ensures { OnOk result (draft.new ≡ written line (released (control.event_post (environment env.now) (view.designator variable.now) (view.maybe_result stat.now))) draft.old) }
{
    let before = draft.look();
    push_event_post(draft, env, variable, stat, line)?;
    draft.release(before, line)
}

// EVENT WAIT.
fn event_wait(
    draft: &mut Draft,
    env: &Env<'_>,
    variable: &Designator,
    until_count: &Option<TypedExpr>,
    stat: &Option<ResultVariable>,
    order: WrittenOrder,
    line: u32,
) -> Result<(), NoMemory>
    ensures { OnOk result (draft.new ≡ written line (released (control.event_wait (environment env.now) (view.designator variable.now) (view.maybe_expression until_count.now) (view.maybe_result stat.now) order)) draft.old) }
{
    let before = draft.look();
    push_event_wait(draft, env, variable, until_count, stat, order, line)?;
    draft.release(before, line)
}

// ALLOCATE.
fn allocate(
    draft: &mut Draft,
    env: &Env<'_>,
    objects: &[Allocation],
    stat: &Option<ResultVariable>,
    line: u32,
) -> Result<(), NoMemory>
    ensures { OnOk result (draft.new ≡ written line (released (allocations.allocate (environment env.now) (map statements.allocation objects.now) (view.maybe_result stat.now))) draft.old) }
{
    let before = draft.look();
    push_allocate(draft, env, objects, stat, line)?;
    draft.release(before, line)
}

// DEALLOCATE.
fn deallocate(
    draft: &mut Draft,
    env: &Env<'_>,
    objects: &[Object],
    stat: &Option<ResultVariable>,
    line: u32,
) -> Result<(), NoMemory>
    ensures { OnOk result (draft.new ≡ written line (released (allocations.deallocate (environment env.now) objects.now (view.maybe_result stat.now))) draft.old) }
{
    let before = draft.look();
    push_deallocate(draft, env, objects, stat, line)?;
    draft.release(before, line)
}

// CALL of an intrinsic subroutine.
fn call_intrinsic(
    draft: &mut Draft,
    env: &Env<'_>,
    call: &IntrinsicCall,
    line: u32,
) -> Result<(), NoMemory>
    ensures { OnOk result (draft.new ≡ written line (released (subroutines.intrinsic_call (environment env.now) (statements.intrinsic_subroutine call.now.form) call.now.order)) draft.old) }
{
    let before = draft.look();
    push_intrinsic_call(draft, env, call, line)?;
    draft.release(before, line)
}

// STOP (11.4).
fn stop(
    draft: &mut Draft,
    env: &Env<'_>,
    code: &Option<TypedExpr>,
    line: u32,
) -> Result<(), NoMemory>
    ensures { OnOk result (draft.new ≡ written line (control.or_number (environment env.now) (view.maybe_expression code.now) (pushing (pos 0)) ▸ doing (act.ask act.stop ∷ [])) draft.old) }
{
    push_or_number(draft, env, code, 0, line)?;
    draft.push(Step::Ask(AskStep::Stop), line)
}

// ERROR STOP.
fn error_stop(
    draft: &mut Draft,
    env: &Env<'_>,
    code: &Option<TypedExpr>,
    line: u32,
) -> Result<(), NoMemory>
    ensures { OnOk result (draft.new ≡ written line (control.or_number (environment env.now) (view.maybe_expression code.now) (pushing (pos 0)) ▸ doing (act.ask act.error_stop ∷ [])) draft.old) }
{
    push_or_number(draft, env, code, 0, line)?;
    draft.push(Step::Ask(AskStep::ErrorStop), line)
}

/// Appends the code of a simple statement. Of EXIT, CYCLE, RETURN and constructs nothing is appended, and nothing said.
/// After want of memory nothing is said of the draft.
#[tactic(auto, using(checked_tree::specs::StatementViews::typed_statement_forms))]
pub fn push_simple(
    draft: &mut Draft,
    env: &Env<'_>,
    form: &StatementForm,
    line: u32,
) -> Result<(), NoMemory>
    requires texts { HasTexts (environment env.now) draft.old }
    ensures { OnOk result (SimplyWritten (meaning.form (environment env.now) line (statements.statement_form form.now)) line draft.old draft.new) }
{
    match form {
        StatementForm::Assign {
            variable,
            of_type,
            rank,
            value,
        } => { assign(draft, env, variable, *of_type, *rank, value, line) }
        StatementForm::AssignImages {
            variable,
            images,
            team,
            ..
        } => { assign_images(draft, env, *variable, *images, team, line) }
        StatementForm::Call {
            procedure,
            arguments,
        } => { call_of(draft, env, *procedure, arguments, line) }
        StatementForm::CallIntrinsic(call) => call_intrinsic(draft, env, call, line),
        StatementForm::Print { format, items } => print(draft, env, format, items, line),
        StatementForm::Exit { .. } => Ok(()),
        StatementForm::Cycle { .. } => Ok(()),
        StatementForm::Return => Ok(()),
        StatementForm::Stop { code } => stop(draft, env, code, line),
        StatementForm::ErrorStop { code } => error_stop(draft, env, code, line),
        StatementForm::FailImage => draft.push(Step::Ask(AskStep::Fail), line),
        StatementForm::Allocate { objects, stat } => allocate(draft, env, objects, stat, line),
        StatementForm::Deallocate { objects, stat } => deallocate(draft, env, objects, stat, line),
        StatementForm::SyncAll { stat } => sync_all(draft, env, stat, line),
        StatementForm::SyncMemory { stat } => sync_memory(draft, env, stat, line),
        StatementForm::SyncImages { images, stat } => sync_images(draft, env, images, stat, line),
        StatementForm::SyncTeam { team, stat } => sync_team(draft, env, team, stat, line),
        StatementForm::FormTeam {
            number,
            team,
            new_index,
            stat,
            order,
        } => { form_team(draft, env, number, *team, new_index, stat, *order, line) }
        StatementForm::Lock {
            variable,
            acquired,
            stat,
            order,
        } => { lock(draft, env, variable, acquired, stat, *order, line) }
        StatementForm::Unlock { variable, stat } => unlock(draft, env, variable, stat, line),
        StatementForm::EventPost { variable, stat } => event_post(draft, env, variable, stat, line),
        StatementForm::EventWait {
            variable,
            until_count,
            stat,
            order,
        } => { event_wait(draft, env, variable, until_count, stat, *order, line) }
        StatementForm::If { .. } => Ok(()),
        StatementForm::DoCounted { .. } => Ok(()),
        StatementForm::DoWhile { .. } => Ok(()),
        StatementForm::DoForever { .. } => Ok(()),
        StatementForm::Select { .. } => Ok(()),
        StatementForm::Critical { .. } => Ok(()),
        StatementForm::ChangeTeam { .. } => Ok(()),
    }
}
