//! The one-line IF (11.1.8.4).

ghost use Rattle.std.specs.Prelude.{◌≡◌, IfOk};
ghost use Rattle.std.specs.Option.{option_map};
ghost use Rattle.action_rules.specs.Forms as forms;
ghost use Rattle.checked_tree.specs.ExpressionViews.{expression};
ghost use Rattle.checked_tree.specs.StatementViews.{statement_form};
ghost use Rattle.fortran_tree.specs.ExpressionViews.{expression as written};
ghost use Rattle.part_rules.specs.Views.{judgement};
ghost use Rattle.rule_definitions.specs.Actions as rules;
ghost use Rattle.rule_definitions.specs.Expressions.{placed};
ghost use Rattle.rule_definitions.specs.Judgements.{both, made, made_of_both};
ghost use Rattle.rule_definitions.specs.Parts as parts;

use caf_base::place::Pos;
use caf_base::refusal::NoMemory;
use checked_tree::expr::TypedExpr;
use checked_tree::statement::{StatementForm, TypedStatement};
use expr_rules::expr::judge_part;
use fortran_tree::expr::Expr;
use part_rules::judged::{Judged, joined};
use scope_table::scope::Scope;
use specifier_rules::condition::condition;
use std::alloc::Global;

// An action alone as a block, on the line of this place.
fn block_of(
    alloc: Global,
    action: Option<StatementForm>,
    at: Pos,
) -> Result<Option<Vec<TypedStatement>>, NoMemory>
    ensures { IfOk result (λ o. option_map forms.block o ≡ made (λ b. rules.alone b at.line) (option_map statement_form action)) }
{
    let Some(form) = action else {
        return Ok(None);
    };
    let mut block = Vec::new(alloc);
    block.push(TypedStatement {
        form,
        line: at.line,
    })?;
    Ok(Some(block))
}

fn judge_condition(
    alloc: Global,
    scope: &Scope<'_>,
    expr: &Expr,
) -> Result<Judged<TypedExpr>, NoMemory>
    ensures breaks { IfOk result (λ j. j.breaks.items ≡ (parts.condition (placed scope.now (written expr.now))).breaks) }
    ensures meaning { IfOk result (λ j. option_map expression j.meaning ≡ (parts.condition (placed scope.now (written expr.now))).meaning) }
{
    let part = judge_part(alloc, scope, expr)?;
    condition(part)
}

#[tactic(auto, using(checked_tree::specs::StatementViews::statement_if))]
fn if_form(
    alloc: Global,
    condition: Option<TypedExpr>,
    body: Option<Vec<TypedStatement>>,
) -> Option<StatementForm>
    ensures { option_map statement_form result ≡ both forms.if_around (option_map expression condition) (option_map forms.block body) }
{
    let Some(condition) = condition else {
        drop(body);
        return None;
    };
    let Some(body) = body else {
        drop(condition);
        return None;
    };
    Some(StatementForm::If {
        condition,
        body,
        else_ifs: Vec::new(alloc),
        otherwise: Vec::new(alloc),
    })
}

/// A one-line IF with its judged action, which stands at this place.
#[tactic(auto, using(crate::proofs::Forms::both_made))]
pub(crate) fn judge_if(
    alloc: Global,
    scope: &Scope<'_>,
    condition: &Expr,
    action: Judged<StatementForm>,
    at: Pos,
) -> Result<Judged<StatementForm>, NoMemory>
    ensures breaks { IfOk result (λ j. j.breaks.items ≡ (made_of_both (forms.if_on at) (parts.condition (placed scope.now (written condition.now))) (judgement statement_form action)).breaks) }
    ensures meaning { IfOk result (λ j. option_map statement_form j.meaning ≡ (made_of_both (forms.if_on at) (parts.condition (placed scope.now (written condition.now))) (judgement statement_form action)).meaning) }
{
    let Judged {
        breaks: further,
        meaning: action,
    } = action;
    let body = block_of(alloc, action, at)?;
    let Judged {
        breaks,
        meaning: condition,
    } = judge_condition(alloc, scope, condition)?;
    joined(breaks, further, if_form(alloc, condition, body))
}
