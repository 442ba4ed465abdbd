//! The recursion over action statements.

ghost use Rattle.std.specs.Prelude.{◌≡◌, IfOk};
ghost use Rattle.std.specs.Option.{option_map};
ghost use Rattle.branch_rules.specs.Sites.{site as seen};
ghost use Rattle.checked_tree.specs.ExpressionViews.{maybe_expression as code_seen};
ghost use Rattle.checked_tree.specs.Statements as ts;
ghost use Rattle.checked_tree.specs.StatementViews.{statement_form};
ghost use Rattle.fortran_tree.specs.ActionViews as tree;
ghost use Rattle.fortran_tree.specs.DeclarationViews.{maybe_expression};
ghost use Rattle.rule_definitions.specs.Actions as rules;
ghost use Rattle.rule_definitions.specs.Judgements.{made, made_of};
ghost use Rattle.rule_definitions.specs.Parts as parts;

use crate::call::judge_call;
use crate::conditional::judge_if;
use crate::control::{allocate, deallocate, image_control, return_from, stop};
use crate::stop::judge_code;
use assignment_rules::assignment::judge_assignment;
use branch_rules::branch::{judge_cycle, judge_exit};
use branch_rules::site::Site;
use caf_base::place::Pos;
use caf_base::refusal::NoMemory;
use checked_tree::expr::TypedExpr;
use checked_tree::statement::StatementForm;
use fortran_tree::action::ActionForm;
use fortran_tree::expr::Expr;
use part_rules::judged::{Judged, fine};
use print_rules::print::judge_print;
use scope_table::scope::Scope;
use std::alloc::Global;

#[tactic(auto, using(checked_tree::specs::StatementViews::statement_error_stop))]
fn error_stop_form(code: Option<Option<TypedExpr>>) -> Option<StatementForm>
    ensures { option_map statement_form result ≡ made ts.error_stop (option_map code_seen code) }
{
    match code {
        Some(code) => Some(StatementForm::ErrorStop { code }),
        None => None,
    }
}

fn error_stop(
    alloc: Global,
    scope: &Scope<'_>,
    code: &Option<Expr>,
) -> Result<Judged<StatementForm>, NoMemory>
    ensures breaks { IfOk result (λ j. j.breaks.items ≡ (made_of ts.error_stop (rules.maybe parts.bound_or_code scope.now (maybe_expression code.now))).breaks) }
    ensures meaning { IfOk result (λ j. option_map statement_form j.meaning ≡ (made_of ts.error_stop (rules.maybe parts.bound_or_code scope.now (maybe_expression code.now))).meaning) }
{
    let Judged { breaks, meaning } = judge_code(alloc, scope, code)?;
    Ok(Judged {
        breaks,
        meaning: error_stop_form(meaning),
    })
}

#[tactic(auto, using(checked_tree::specs::StatementViews::statement_fail_image))]
fn fail_image() -> StatementForm
    ensures { statement_form result ≡ ts.fail_image }
{
    StatementForm::FailImage
}

/// An action statement at this place. A program with more literals or more enclosing loops than 32 bits count is
/// answered as want of memory.
#[tactic(auto, using(fortran_tree::specs::ActionViews::action_forms))]
pub fn judge_action(
    alloc: Global,
    site: Site<'_>,
    action: &ActionForm,
    at: Pos,
) -> Result<Judged<StatementForm>, NoMemory>
    ensures breaks { IfOk result (λ j. j.breaks.items ≡ (rules.judged_action (seen site.entry) (tree.action_statement action.now) at).breaks) }
    ensures meaning { IfOk result (λ j. option_map statement_form j.meaning ≡ (rules.judged_action (seen site.entry) (tree.action_statement action.now) at).meaning) }
{
    match action {
        ActionForm::Assignment { variable, value } => {
            judge_assignment(alloc, site, variable, value, at)
        }
        ActionForm::Call {
            subroutine,
            arguments,
        } => judge_call(alloc, site.scope, subroutine, arguments),
        ActionForm::Print { format, items } => judge_print(alloc, site, format, items),
        ActionForm::Exit { construct } => judge_exit(alloc, construct, site.around, at),
        ActionForm::Cycle { construct } => judge_cycle(alloc, construct, site.around, at),
        ActionForm::Return => return_from(alloc, site, at),
        ActionForm::Stop { code } => stop(alloc, site, code, at),
        ActionForm::ErrorStop { code } => error_stop(alloc, site.scope, code),
        ActionForm::FailImage => Ok(fine(alloc, fail_image())),
        ActionForm::Allocate {
            objects,
            specifiers,
        } => allocate(alloc, site, objects, specifiers, at),
        ActionForm::Deallocate {
            objects,
            specifiers,
        } => deallocate(alloc, site, objects, specifiers, at),
        ActionForm::If { condition, action } => {
            let inner = judge_action(alloc, site, &action.form, action.at)?;
            judge_if(alloc, site.scope, condition, inner, action.at)
        }
        ActionForm::SyncAll { .. }
        | ActionForm::SyncMemory { .. }
        | ActionForm::SyncImages { .. }
        | ActionForm::SyncTeam { .. }
        | ActionForm::FormTeam { .. }
        | ActionForm::Lock { .. }
        | ActionForm::Unlock { .. }
        | ActionForm::EventPost { .. }
        | ActionForm::EventWait { .. } => image_control(alloc, site, action, at),
    }
}
