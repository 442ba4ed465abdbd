//! Scalar integers that may be left out.

ghost use Rattle.std.specs.Prelude.{◌≡◌, IfOk};
ghost use Rattle.std.specs.Option.{option_map};
ghost use Rattle.checked_tree.specs.Expressions as t;
ghost use Rattle.checked_tree.specs.ExpressionViews.{expression, maybe_expression};
ghost use Rattle.fortran_tree.specs.DeclarationViews.{maybe_expression as maybe_written};
ghost use Rattle.fortran_tree.specs.ExpressionViews.{expression as written};
ghost use Rattle.rule_definitions.specs.Actions as rules;
ghost use Rattle.rule_definitions.specs.Expressions.{placed};
ghost use Rattle.rule_definitions.specs.Judgements.{made};
ghost use Rattle.rule_definitions.specs.Parts as parts;

use caf_base::refusal::NoMemory;
use checked_tree::expr::TypedExpr;
use expr_rules::expr::judge_part;
use fortran_tree::expr::Expr;
use part_rules::judged::{Judged, fine};
use part_rules::operand::{integer, wanted};
use rule_definitions::rule;
use rule_definitions::taken::Taken;
use scope_table::scope::Scope;
use std::alloc::Global;

/// A part that is there.
pub fn given(value: Option<TypedExpr>) -> Option<Option<TypedExpr>>
    ensures { option_map maybe_expression result ≡ made t.given (option_map expression value) }
{
    match value {
        Some(value) => Some(Some(value)),
        None => None,
    }
}

/// A scalar integer: rule 39 for another type, rule 51 for a team, rule 37 for an array.
pub fn scalar_integer(
    alloc: Global,
    scope: &Scope<'_>,
    expr: &Expr,
) -> Result<Judged<TypedExpr>, NoMemory>
    ensures breaks { IfOk result (λ j. j.breaks.items ≡ (parts.integer 39 (placed scope.now (written expr.now))).breaks) }
    ensures meaning { IfOk result (λ j. option_map expression j.meaning ≡ (parts.integer 39 (placed scope.now (written expr.now))).meaning) }
{
    let part = judge_part(alloc, scope, expr)?;
    integer(rule::CONDITION, part)
}

/// A scalar integer, where one is written.
pub fn maybe_integer(
    alloc: Global,
    scope: &Scope<'_>,
    expr: &Option<Expr>,
) -> Result<Judged<Option<TypedExpr>>, NoMemory>
    ensures breaks { IfOk result (λ j. j.breaks.items ≡ (rules.maybe (parts.integer 39) scope.now (maybe_written expr.now)).breaks) }
    ensures meaning { IfOk result (λ j. option_map maybe_expression j.meaning ≡ (rules.maybe (parts.integer 39) scope.now (maybe_written expr.now)).meaning) }
{
    let Some(expr) = expr else {
        return Ok(fine(alloc, None));
    };
    let Judged { breaks, meaning } = scalar_integer(alloc, scope, expr)?;
    Ok(Judged {
        breaks,
        meaning: given(meaning),
    })
}

/// The code of STOP or ERROR STOP (11.4), where one is written: rule 39 for another type than integer, rule 37 for an
/// array.
pub fn maybe_code(
    alloc: Global,
    scope: &Scope<'_>,
    expr: &Option<Expr>,
) -> Result<Judged<Option<TypedExpr>>, NoMemory>
    ensures breaks { IfOk result (λ j. j.breaks.items ≡ (rules.maybe parts.bound_or_code scope.now (maybe_written expr.now)).breaks) }
    ensures meaning { IfOk result (λ j. option_map maybe_expression j.meaning ≡ (rules.maybe parts.bound_or_code scope.now (maybe_written expr.now)).meaning) }
{
    let Some(expr) = expr else {
        return Ok(fine(alloc, None));
    };
    let part = judge_part(alloc, scope, expr)?;
    let Judged { breaks, meaning } = wanted(Taken::Integers, part)?;
    Ok(Judged {
        breaks,
        meaning: given(meaning),
    })
}
