//! Image control statements (ISO/IEC 1539-1:2018, 11.6), and what CRITICAL, CHANGE TEAM and END TEAM do (11.1.5,
//! 11.1.6).

ghost use Rattle.std.specs.Prelude.{◌≡◌, ◌≤◌, [], ◌∷◌, slice_get, OnOk, IfOk};
ghost use Rattle.checked_tree.specs.ExpressionViews as view;
ghost use Rattle.checked_tree.specs.StatementViews as statements;
ghost use Rattle.image_code.specs.Table as table;
ghost use Rattle.image_acts.specs.Acts as act;
ghost use Rattle.tree_meaning.specs.ImageControl as meaning;
ghost use Rattle.tree_meaning.specs.Sequences.{doing, pushing};
ghost use Rattle.expr_code.specs.Drafts.{written};
ghost use Rattle.expr_code.specs.Environments.{environment};
ghost use Rattle.control_code.specs.Control.{allocatable_found, becoming_current, forming, number_and_place, pairing, team_round};

use crate::settling::{
    BAD_ARGUMENT, FAILED_IMAGE, push_or_number, push_place, push_settling, size_of,
};
use caf_base::refusal::NoMemory;
use checked_tree::data::{Local, Variable};
use checked_tree::expr::{ResultVariable, TypedExpr, WrittenOrder};
use checked_tree::statement::ImageSet;
use expr_code::draft::Draft;
use expr_code::env::Env;
use expr_code::expr::push_expr;
use expr_code::piece::{push_bring, push_copy, push_drop, scope_of};
use expr_code::shape::sum;
use image_code::step::{AskStep, Step};

// A round of the current team, with this arrival.
fn push_round(draft: &mut Draft, arrival: AskStep, line: u32) -> Result<(), NoMemory>
    ensures { OnOk result (draft.new ≡ written line (meaning.round (doing (act.ask (table.ask_of arrival) ∷ []))) draft.old) }
{
    draft.push(Step::ThisTeam, line)?;
    draft.push(Step::Ask(arrival), line)?;
    draft.push(Step::ThisTeam, line)?;
    draft.push(Step::Ask(AskStep::Leave), line)
}

/// SYNC ALL (11.6.3).
pub fn push_sync_all(
    draft: &mut Draft,
    env: &Env<'_>,
    stat: &Option<ResultVariable>,
    line: u32,
) -> Result<(), NoMemory>
    ensures { OnOk result (draft.new ≡ written line (meaning.sync_all (environment env.now) (view.maybe_result stat.now)) draft.old) }
{
    push_place(draft, env, stat, line)?;
    push_round(draft, AskStep::ArriveSync, line)?;
    push_settling(draft, stat, 1, &[], line)?;
    push_drop(draft, size_of(stat), line)
}

/// SYNC MEMORY (11.6.5).
pub fn push_sync_memory(
    draft: &mut Draft,
    env: &Env<'_>,
    stat: &Option<ResultVariable>,
    line: u32,
) -> Result<(), NoMemory>
    ensures { OnOk result (draft.new ≡ written line (meaning.sync_memory (environment env.now) (view.maybe_result stat.now)) draft.old) }
{
    push_place(draft, env, stat, line)?;
    draft.push(Step::Ask(AskStep::Memory), line)?;
    draft.push(Step::Number(0), line)?;
    push_settling(draft, stat, 1, &[], line)?;
    push_drop(draft, size_of(stat), line)
}

// The image indices of SYNC IMAGES, as an array.
#[tactic(auto, using(crate::proofs::Control::index_array))]
fn push_index_set(
    draft: &mut Draft,
    env: &Env<'_>,
    indices: &TypedExpr,
    line: u32,
) -> Result<(), NoMemory>
    ensures { OnOk result (draft.new ≡ written line (meaning.index_set (environment env.now) indices.now.rank (view.expression indices.now)) draft.old) }
{
    match indices.rank {
        0 => {
            draft.push(Step::EmptyArray, line)?;
            push_expr(draft, env, indices, line)?;
            draft.push(Step::Append, line)
        }
        _ => push_expr(draft, env, indices, line),
    }
}

fn push_image_set(
    draft: &mut Draft,
    env: &Env<'_>,
    images: &ImageSet,
    line: u32,
) -> Result<(), NoMemory>
    ensures { OnOk result (draft.new ≡ written line (meaning.image_set (environment env.now) (statements.image_set images.now)) draft.old) }
{
    match images {
        ImageSet::All => draft.push(Step::EveryIndex, line),
        ImageSet::Images(indices) => push_index_set(draft, env, indices, line),
    }
}

// Where the indices are those of images of the team, the pairing; else the status of a bad argument.
fn push_pairing(draft: &mut Draft, line: u32) -> Result<(), NoMemory>
    ensures { OnOk result (draft.new ≡ written line pairing draft.old) }
{
    draft.push(Step::SkipUnless(3), line)?;
    draft.push(Step::Ask(AskStep::Pair), line)?;
    draft.push(Step::Ask(AskStep::Unpair), line)?;
    draft.push(Step::Skip(2), line)?;
    draft.push(Step::DropArray, line)?;
    draft.push(Step::Number(BAD_ARGUMENT), line)
}

/// SYNC IMAGES (11.6.4).
pub fn push_sync_images(
    draft: &mut Draft,
    env: &Env<'_>,
    images: &ImageSet,
    stat: &Option<ResultVariable>,
    line: u32,
) -> Result<(), NoMemory>
    ensures { OnOk result (draft.new ≡ written line (meaning.sync_images (environment env.now) (statements.image_set images.now) (view.maybe_result stat.now)) draft.old) }
{
    push_image_set(draft, env, images, line)?;
    push_place(draft, env, stat, line)?;
    draft.push(Step::AreIndices, line)?;
    push_pairing(draft, line)?;
    push_settling(draft, stat, 1, &[], line)?;
    push_drop(draft, size_of(stat), line)
}

// The team beneath so many numbers, which is looked up once more, arrives at SYNC TEAM and leaves.
fn push_sync_round(draft: &mut Draft, depth: u32, line: u32) -> Result<(), NoMemory>
    ensures { OnOk result (draft.new ≡ written line (team_round depth act.near_team act.arrive_sync) draft.old) }
{
    push_copy(draft, depth, 1, line)?;
    draft.push(Step::NearTeam, line)?;
    draft.push(Step::Ask(AskStep::ArriveSync), line)?;
    push_copy(draft, depth, 1, line)?;
    draft.push(Step::Ask(AskStep::Leave), line)
}

// The same of CHANGE TEAM, whose team is a child of the current one.
fn push_change_round(draft: &mut Draft, depth: u32, line: u32) -> Result<(), NoMemory>
    ensures { OnOk result (draft.new ≡ written line (team_round depth act.child_team act.arrive_change) draft.old) }
{
    push_copy(draft, depth, 1, line)?;
    draft.push(Step::ChildTeam, line)?;
    draft.push(Step::Ask(AskStep::ArriveChange), line)?;
    push_copy(draft, depth, 1, line)?;
    draft.push(Step::Ask(AskStep::Leave), line)
}

/// SYNC TEAM (11.6.6).
pub fn push_sync_team(
    draft: &mut Draft,
    env: &Env<'_>,
    team: &TypedExpr,
    stat: &Option<ResultVariable>,
    line: u32,
) -> Result<(), NoMemory>
    ensures { OnOk result (draft.new ≡ written line (meaning.sync_team (environment env.now) (view.expression team.now) (view.maybe_result stat.now)) draft.old) }
{
    let size = size_of(stat);
    push_expr(draft, env, team, line)?;
    draft.push(Step::NearTeam, line)?;
    push_place(draft, env, stat, line)?;
    push_sync_round(draft, size, line)?;
    push_settling(draft, stat, 1, &[], line)?;
    push_drop(draft, size + 1, line)
}

/// A number, or the one that stands for a missing one, and the place of STAT=, evaluated as they are written.
pub fn push_number_and_place(
    draft: &mut Draft,
    env: &Env<'_>,
    number: &Option<TypedExpr>,
    missing: i64,
    stat: &Option<ResultVariable>,
    order: WrittenOrder,
    line: u32,
) -> Result<(), NoMemory>
    ensures { OnOk result (draft.new ≡ written line (number_and_place (environment env.now) (view.maybe_expression number.now) missing (view.maybe_result stat.now) order) draft.old) }
{
    match order {
        WrittenOrder::Same => {
            push_or_number(draft, env, number, missing, line)?;
            push_place(draft, env, stat, line)
        }
        WrittenOrder::Reversed => {
            push_place(draft, env, stat, line)?;
            push_or_number(draft, env, number, missing, line)?;
            push_bring(draft, 1, size_of(stat), line)
        }
    }
}

// The arrival of FORM TEAM with the number and the index beneath a place of this size, and the departure.
fn push_forming(draft: &mut Draft, size: u32, line: u32) -> Result<(), NoMemory>
    requires { size ≤ 1 }
    ensures { OnOk result (draft.new ≡ written line (forming size) draft.old) }
{
    draft.push(Step::ThisTeam, line)?;
    push_copy(draft, size + 1, 2, line)?;
    draft.push(Step::Ask(AskStep::ArriveForm), line)?;
    draft.push(Step::ThisTeam, line)?;
    draft.push(Step::Ask(AskStep::Leave), line)
}

/// FORM TEAM (11.6.9).
pub fn push_form_team(
    draft: &mut Draft,
    env: &Env<'_>,
    number: &TypedExpr,
    team: Local,
    new_index: &Option<TypedExpr>,
    stat: &Option<ResultVariable>,
    order: WrittenOrder,
    line: u32,
) -> Result<(), NoMemory>
    ensures { OnOk result (draft.new ≡ written line (meaning.form_team (environment env.now) (view.expression number.now) team (view.maybe_expression new_index.now) (view.maybe_result stat.now) order) draft.old) }
{
    let size = size_of(stat);
    push_expr(draft, env, number, line)?;
    push_number_and_place(draft, env, new_index, 0, stat, order, line)?;
    push_forming(draft, size, line)?;
    draft.push(Step::NoteTeams(scope_of(team.home), team.variable), line)?;
    push_settling(draft, stat, 1, &[], line)?;
    push_drop(draft, size + 2, line)
}

/// CRITICAL (11.1.6): an image that failed inside keeps nobody out.
pub fn push_critical_parts(
    draft: &mut Draft,
    env: &Env<'_>,
    number: u32,
    stat: &Option<ResultVariable>,
    line: u32,
) -> Result<(), NoMemory>
    ensures { OnOk result (draft.new ≡ written line (meaning.critical (environment env.now) number (view.maybe_result stat.now)) draft.old) }
{
    push_place(draft, env, stat, line)?;
    draft.push(Step::Ask(AskStep::EnterCritical(number)), line)?;
    push_settling(draft, stat, 1, &[FAILED_IMAGE], line)?;
    push_drop(draft, size_of(stat), line)
}

// The team beneath the place of STAT= and the status becomes current.
fn push_becoming_current(
    draft: &mut Draft,
    stat: &Option<ResultVariable>,
    line: u32,
) -> Result<(), NoMemory>
    ensures { OnOk result (draft.new ≡ written line (becoming_current (view.maybe_result stat.now)) draft.old) }
{
    let size = size_of(stat);
    push_copy(draft, size + 1, 1, line)?;
    draft.push(Step::MakeCurrent, line)?;
    push_settling(draft, stat, 1, &[], line)?;
    push_drop(draft, size + 1, line)
}

/// CHANGE TEAM (11.1.5): the team becomes current whatever the status.
pub fn push_change(
    draft: &mut Draft,
    env: &Env<'_>,
    team: &TypedExpr,
    stat: &Option<ResultVariable>,
    line: u32,
) -> Result<(), NoMemory>
    ensures { OnOk result (draft.new ≡ written line (meaning.change_team (environment env.now) (view.expression team.now) (view.maybe_result stat.now)) draft.old) }
{
    let size = size_of(stat);
    push_expr(draft, env, team, line)?;
    draft.push(Step::ChildTeam, line)?;
    push_place(draft, env, stat, line)?;
    push_change_round(draft, size, line)?;
    push_becoming_current(draft, stat, line)
}

// Whether the variable with this number is allocatable.
#[tactic(auto, using(std::proofs::lemmas::Option::gets))]
fn is_allocatable_in(variables: &[Variable], variable: u32) -> bool
    ensures { result ≡ allocatable_found (slice_get variables.now variable) }
{
    match variables.get(variable as usize) {
        Some(variable) => variable.is_allocatable,
        None => false,
    }
}

// The same of the main program's.
fn is_allocatable(env: &Env<'_>, variable: u32) -> bool
    ensures { result ≡ meaning.is_allocatable_in (environment env.now) (environment env.now).program.main.variables variable }
{
    is_allocatable_in(env.checked.main.variables.as_slice(), variable)
}

// A coarray that was allocated in the team and is still there is deallocated.
fn push_deleting_one(
    draft: &mut Draft,
    env: &Env<'_>,
    coarray: u32,
    line: u32,
) -> Result<(), NoMemory>
    ensures { OnOk result (draft.new ≡ written line (meaning.deleting_one (environment env.now) coarray) draft.old) }
{
    draft.push(Step::MadeInTeam(coarray), line)?;
    draft.push(Step::SkipUnless(3), line)?;
    draft.push(Step::Ask(AskStep::Delete(coarray)), line)?;
    draft.push(Step::NoteFreed(coarray), line)?;
    draft.push(Step::Skip(0), line)
}

// The same of all coarrays, in declared order.
fn push_deleting(
    draft: &mut Draft,
    env: &Env<'_>,
    coarrays: &[u32],
    line: u32,
) -> Result<(), NoMemory>
    ensures { OnOk result (draft.new ≡ written line (meaning.deleting (environment env.now) coarrays.now 0) draft.old) }
{
    let mut coarray = 0;
    for variable in coarrays {
        if is_allocatable(env, *variable) {
            push_deleting_one(draft, env, coarray, line)?;
        }
        coarray = sum(coarray, 1)?;
    }
    Ok(())
}

/// END TEAM.
#[tactic(auto, unfolding(expr_code::specs::Environments::environment))]
pub fn push_end(
    draft: &mut Draft,
    env: &Env<'_>,
    stat: &Option<ResultVariable>,
    line: u32,
) -> Result<(), NoMemory>
    ensures { OnOk result (draft.new ≡ written line (meaning.end_team (environment env.now) (view.maybe_result stat.now)) draft.old) }
{
    push_place(draft, env, stat, line)?;
    push_round(draft, AskStep::ArriveEnd, line)?;
    push_deleting(draft, env, env.checked.coarrays.as_slice(), line)?;
    draft.push(Step::LeaveTeam, line)?;
    push_settling(draft, stat, 1, &[], line)?;
    push_drop(draft, size_of(stat), line)
}
