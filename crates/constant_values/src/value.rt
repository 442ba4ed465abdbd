//! The values of constant expressions (10.1.12), and what is known of the shapes of expressions before the run.

ghost use Rattle.std.specs.Prelude.{◌≡◌, IfOk, map};
ghost use Rattle.checked_tree.specs.ExpressionViews.{expression};
ghost use Rattle.rule_definitions.specs.Constants as rules;
ghost use Rattle.rule_definitions.specs.Constants.{known_extent};
ghost use Rattle.rule_definitions.specs.Arguments.{all_agree};
ghost use Rattle.constant_values.specs.Views.{constancy};

use crate::agreement::all_agree;
use crate::constancy::Constancy;
use crate::expression::known;
use caf_base::refusal::NoMemory;
use checked_tree::expr::TypedExpr;
use scope_table::scope::Scope;
use scope_table::symbol::KnownBounds;
use std::alloc::Global;

/// What an expression stands for before the run.
pub fn value_of(alloc: Global, scope: &Scope<'_>, expr: &TypedExpr) -> Result<Constancy, NoMemory>
    ensures { IfOk result (λ c. constancy c ≡ rules.value_of scope.now (expression expr.now)) }
{
    let whole = known(alloc, scope, expr)?;
    Ok(whole.constancy)
}

/// Whether the extents of an expression are those of these bounds, as far as both are known before the run.
pub fn extents_agree(
    alloc: Global,
    scope: &Scope<'_>,
    bounds: &[KnownBounds],
    expr: &TypedExpr,
) -> Result<bool, NoMemory>
    ensures { IfOk result (λ b. b ≡ all_agree (map known_extent bounds.now) (rules.known_extents scope.now (expression expr.now))) }
{
    let whole = known(alloc, scope, expr)?;
    Ok(all_agree(bounds, whole.bounds.as_slice()))
}
