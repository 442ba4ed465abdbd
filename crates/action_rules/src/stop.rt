//! STOP and ERROR STOP (11.4).

ghost use Rattle.std.specs.Prelude.{◌≡◌, IfOk};
ghost use Rattle.std.specs.Option.{option_map};
ghost use Rattle.checked_tree.specs.ExpressionViews.{maybe_expression as code_seen};
ghost use Rattle.fortran_tree.specs.DeclarationViews.{maybe_expression};
ghost use Rattle.rule_definitions.specs.Actions as rules;
ghost use Rattle.rule_definitions.specs.Parts as parts;

use caf_base::refusal::NoMemory;
use checked_tree::expr::TypedExpr;
use fortran_tree::expr::Expr;
use part_rules::judged::Judged;
use scope_table::scope::Scope;
use shared_rules::optional::maybe_code;
use std::alloc::Global;

/// A stop code, which may be missing: a scalar integer.
pub fn judge_code(
    alloc: Global,
    scope: &Scope<'_>,
    code: &Option<Expr>,
) -> Result<Judged<Option<TypedExpr>>, NoMemory>
    ensures breaks { IfOk result (λ j. j.breaks.items ≡ (rules.maybe parts.bound_or_code scope.now (maybe_expression code.now)).breaks) }
    ensures meaning { IfOk result (λ j. option_map code_seen j.meaning ≡ (rules.maybe parts.bound_or_code scope.now (maybe_expression code.now)).meaning) }
{
    maybe_code(alloc, scope, code)
}
