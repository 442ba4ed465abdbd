//! Statements that may not stand in a CRITICAL block (11.1.6): image control statements (11.6.1), RETURN and STOP;
//! rule 43.

ghost use Rattle.std.specs.Prelude.{◌≡◌, IfOk, map};
ghost use Rattle.std.specs.Option.{option_map};
ghost use Rattle.action_rules.specs.Forms as forms;
ghost use Rattle.branch_rules.specs.Sites.{site as seen};
ghost use Rattle.checked_tree.specs.ExpressionViews.{maybe_expression as code_seen};
ghost use Rattle.checked_tree.specs.Statements as ts;
ghost use Rattle.checked_tree.specs.StatementViews.{statement_form};
ghost use Rattle.fortran_tree.specs.ActionViews as tree;
ghost use Rattle.fortran_tree.specs.DeclarationViews.{maybe_expression};
ghost use Rattle.fortran_tree.specs.ExpressionViews.{specifiers as specifiers_written};
ghost use Rattle.part_rules.specs.Views.{judgement};
ghost use Rattle.rule_definitions.specs.Actions as rules;
ghost use Rattle.rule_definitions.specs.Expressions.{judged_specifiers};
ghost use Rattle.rule_definitions.specs.Judgements.{all_made, made, made_of, made_of_both};
ghost use Rattle.rule_definitions.specs.Parts as parts;

use crate::stop::judge_code;
use allocation_rules::allocation::{
    allocates_coarray, judge_allocate, judge_deallocate, names_coarray,
};
use branch_rules::branch::{control, judge_return};
use branch_rules::site::Site;
use caf_base::place::Pos;
use caf_base::refusal::NoMemory;
use checked_tree::expr::TypedExpr;
use checked_tree::statement::StatementForm;
use fortran_tree::action::{ActionForm, Allocation};
use fortran_tree::expr::{Expr, Specifier};
use fortran_tree::name::Name;
use image_control_rules::image::{
    judge_form_team, judge_sync_all, judge_sync_images, judge_sync_memory, judge_sync_team,
};
use image_control_rules::lock::{judge_event_post, judge_event_wait, judge_lock, judge_unlock};
use part_rules::judged::{Judged, unknown};
use scope_table::scope::Scope;
use std::alloc::Global;

fn controlled(
    site: Site<'_>,
    statement: Judged<StatementForm>,
    at: Pos,
) -> Result<Judged<StatementForm>, NoMemory>
    ensures breaks { IfOk result (λ j. j.breaks.items ≡ (rules.controlled (seen site.entry) at (judgement statement_form statement)).breaks) }
    ensures meaning { IfOk result (λ j. option_map statement_form j.meaning ≡ (rules.controlled (seen site.entry) at (judgement statement_form statement)).meaning) }
{
    control(statement, site.around, at)
}

// ALLOCATE or DEALLOCATE, which is an image control statement where it names a coarray.
fn controlled_if(
    names_coarray: bool,
    site: Site<'_>,
    statement: Judged<StatementForm>,
    at: Pos,
) -> Result<Judged<StatementForm>, NoMemory>
    ensures breaks { IfOk result (λ j. j.breaks.items ≡ (rules.controlled_if names_coarray (seen site.entry) at (judgement statement_form statement)).breaks) }
    ensures meaning { IfOk result (λ j. option_map statement_form j.meaning ≡ (rules.controlled_if names_coarray (seen site.entry) at (judgement statement_form statement)).meaning) }
{
    if names_coarray {
        controlled(site, statement, at)
    } else {
        Ok(statement)
    }
}

/// ALLOCATE.
pub(crate) fn allocate(
    alloc: Global,
    site: Site<'_>,
    objects: &[Allocation],
    specifiers: &[Specifier],
    at: Pos,
) -> Result<Judged<StatementForm>, NoMemory>
    ensures breaks { IfOk result (λ j. j.breaks.items ≡ (rules.controlled_if (rules.any_coarray (seen site.entry).scope (map (λ o. o.name) (map tree.allocation objects.now))) (seen site.entry) at (made_of_both ts.allocate (all_made (map (rules.allocation_judged (seen site.entry).scope) (map tree.allocation objects.now))) (rules.with_stat (judged_specifiers (seen site.entry).scope (specifiers_written specifiers.now))))).breaks) }
    ensures meaning { IfOk result (λ j. option_map statement_form j.meaning ≡ (rules.controlled_if (rules.any_coarray (seen site.entry).scope (map (λ o. o.name) (map tree.allocation objects.now))) (seen site.entry) at (made_of_both ts.allocate (all_made (map (rules.allocation_judged (seen site.entry).scope) (map tree.allocation objects.now))) (rules.with_stat (judged_specifiers (seen site.entry).scope (specifiers_written specifiers.now))))).meaning) }
{
    let statement = judge_allocate(alloc, site.scope, objects, specifiers)?;
    controlled_if(allocates_coarray(site.scope, objects), site, statement, at)
}

/// DEALLOCATE.
pub(crate) fn deallocate(
    alloc: Global,
    site: Site<'_>,
    names: &[Name],
    specifiers: &[Specifier],
    at: Pos,
) -> Result<Judged<StatementForm>, NoMemory>
    ensures breaks { IfOk result (λ j. j.breaks.items ≡ (rules.controlled_if (rules.any_coarray (seen site.entry).scope names.now) (seen site.entry) at (made_of_both ts.deallocate (all_made (map (rules.deallocated (seen site.entry).scope) names.now)) (rules.with_stat (judged_specifiers (seen site.entry).scope (specifiers_written specifiers.now))))).breaks) }
    ensures meaning { IfOk result (λ j. option_map statement_form j.meaning ≡ (rules.controlled_if (rules.any_coarray (seen site.entry).scope names.now) (seen site.entry) at (made_of_both ts.deallocate (all_made (map (rules.deallocated (seen site.entry).scope) names.now)) (rules.with_stat (judged_specifiers (seen site.entry).scope (specifiers_written specifiers.now))))).meaning) }
{
    let statement = judge_deallocate(alloc, site.scope, names, specifiers)?;
    controlled_if(names_coarray(site.scope, names), site, statement, at)
}

/// RETURN.
pub(crate) fn return_from(
    alloc: Global,
    site: Site<'_>,
    at: Pos,
) -> Result<Judged<StatementForm>, NoMemory>
    ensures breaks { IfOk result (λ j. j.breaks.items ≡ (rules.controlled (seen site.entry) at (rules.returning (seen site.entry).around at)).breaks) }
    ensures meaning { IfOk result (λ j. option_map statement_form j.meaning ≡ (rules.controlled (seen site.entry) at (rules.returning (seen site.entry).around at)).meaning) }
{
    let statement = judge_return(alloc, site.around, at)?;
    controlled(site, statement, at)
}

#[tactic(auto, using(checked_tree::specs::StatementViews::statement_stop))]
fn stop_form(code: Option<Option<TypedExpr>>) -> Option<StatementForm>
    ensures { option_map statement_form result ≡ made ts.stop (option_map code_seen code) }
{
    match code {
        Some(code) => Some(StatementForm::Stop { code }),
        None => None,
    }
}

/// STOP.
pub(crate) fn stop(
    alloc: Global,
    site: Site<'_>,
    code: &Option<Expr>,
    at: Pos,
) -> Result<Judged<StatementForm>, NoMemory>
    ensures breaks { IfOk result (λ j. j.breaks.items ≡ (rules.controlled (seen site.entry) at (made_of ts.stop (rules.maybe parts.bound_or_code (seen site.entry).scope (maybe_expression code.now)))).breaks) }
    ensures meaning { IfOk result (λ j. option_map statement_form j.meaning ≡ (rules.controlled (seen site.entry) at (made_of ts.stop (rules.maybe parts.bound_or_code (seen site.entry).scope (maybe_expression code.now)))).meaning) }
{
    let Judged { breaks, meaning } = judge_code(alloc, site.scope, code)?;
    let statement = Judged {
        breaks,
        meaning: stop_form(meaning),
    };
    controlled(site, statement, at)
}

// LOCK, UNLOCK, EVENT POST or EVENT WAIT. Another statement stands for nothing here.
#[tactic(auto, using(fortran_tree::specs::ActionViews::action_forms))]
fn judge_lock_or_event(
    alloc: Global,
    scope: &Scope<'_>,
    action: &ActionForm,
) -> Result<Judged<StatementForm>, NoMemory>
    ensures breaks { IfOk result (λ j. j.breaks.items ≡ (forms.lock_or_event scope.now (tree.action_statement action.now)).breaks) }
    ensures meaning { IfOk result (λ j. option_map statement_form j.meaning ≡ (forms.lock_or_event scope.now (tree.action_statement action.now)).meaning) }
{
    match action {
        ActionForm::Lock {
            variable,
            specifiers,
        } => judge_lock(alloc, scope, variable, specifiers),
        ActionForm::Unlock {
            variable,
            specifiers,
        } => judge_unlock(alloc, scope, variable, specifiers),
        ActionForm::EventPost {
            variable,
            specifiers,
        } => judge_event_post(alloc, scope, variable, specifiers),
        ActionForm::EventWait {
            variable,
            specifiers,
        } => judge_event_wait(alloc, scope, variable, specifiers),
        ActionForm::Assignment { .. }
        | ActionForm::Call { .. }
        | ActionForm::Print { .. }
        | ActionForm::Exit { .. }
        | ActionForm::Cycle { .. }
        | ActionForm::Return
        | ActionForm::Stop { .. }
        | ActionForm::ErrorStop { .. }
        | ActionForm::FailImage
        | ActionForm::Allocate { .. }
        | ActionForm::Deallocate { .. }
        | ActionForm::SyncAll { .. }
        | ActionForm::SyncMemory { .. }
        | ActionForm::SyncImages { .. }
        | ActionForm::SyncTeam { .. }
        | ActionForm::FormTeam { .. }
        | ActionForm::If { .. } => Ok(unknown(alloc)),
    }
}

// An image control statement that allocates nothing, but for rule 43. Another statement stands for nothing here.
#[tactic(auto, using(fortran_tree::specs::ActionViews::action_forms))]
fn judge_image_control(
    alloc: Global,
    scope: &Scope<'_>,
    action: &ActionForm,
) -> Result<Judged<StatementForm>, NoMemory>
    ensures breaks { IfOk result (λ j. j.breaks.items ≡ (forms.image_control scope.now (tree.action_statement action.now)).breaks) }
    ensures meaning { IfOk result (λ j. option_map statement_form j.meaning ≡ (forms.image_control scope.now (tree.action_statement action.now)).meaning) }
{
    match action {
        ActionForm::SyncAll { specifiers } => judge_sync_all(alloc, scope, specifiers),
        ActionForm::SyncMemory { specifiers } => judge_sync_memory(alloc, scope, specifiers),
        ActionForm::SyncImages { images, specifiers } => {
            judge_sync_images(alloc, scope, images, specifiers)
        }
        ActionForm::SyncTeam { team, specifiers } => judge_sync_team(
            alloc, scope, team, specifiers,
        ),
        ActionForm::FormTeam {
            number,
            team,
            specifiers,
        } => judge_form_team(alloc, scope, number, team, specifiers),
        ActionForm::Assignment { .. }
        | ActionForm::Call { .. }
        | ActionForm::Print { .. }
        | ActionForm::Exit { .. }
        | ActionForm::Cycle { .. }
        | ActionForm::Return
        | ActionForm::Stop { .. }
        | ActionForm::ErrorStop { .. }
        | ActionForm::FailImage
        | ActionForm::Allocate { .. }
        | ActionForm::Deallocate { .. }
        | ActionForm::Lock { .. }
        | ActionForm::Unlock { .. }
        | ActionForm::EventPost { .. }
        | ActionForm::EventWait { .. }
        | ActionForm::If { .. } => judge_lock_or_event(alloc, scope, action),
    }
}

/// An image control statement that allocates nothing.
pub(crate) fn image_control(
    alloc: Global,
    site: Site<'_>,
    action: &ActionForm,
    at: Pos,
) -> Result<Judged<StatementForm>, NoMemory>
    ensures breaks { IfOk result (λ j. j.breaks.items ≡ (rules.controlled (seen site.entry) at (forms.image_control (seen site.entry).scope (tree.action_statement action.now))).breaks) }
    ensures meaning { IfOk result (λ j. option_map statement_form j.meaning ≡ (rules.controlled (seen site.entry) at (forms.image_control (seen site.entry).scope (tree.action_statement action.now))).meaning) }
{
    let statement = judge_image_control(alloc, site.scope, action)?;
    controlled(site, statement, at)
}
