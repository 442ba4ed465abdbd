//! Variables and their parts (9.4 to 9.6).

ghost use Rattle.std.specs.Prelude.{◌≡◌, IfOk, map};
ghost use Rattle.std.specs.Option.{option_map};
ghost use Rattle.checked_tree.specs.ExpressionViews.{expression};
ghost use Rattle.rule_definitions.specs.Expressions as rules;
ghost use Rattle.part_rules.specs.Brackets.{actual_seen};
ghost use Rattle.scope_table.specs.Scopes.{visible};
ghost use Rattle.expr_rules.specs.Selections.{selection as selection_seen};

use crate::subscript::subscripts;
use caf_base::place::Pos;
use caf_base::refusal::NoMemory;
use checked_tree::expr::TypedExpr;
use part_rules::bracket::Actual;
use part_rules::designator::{Selection, object_with, part_rank};
use part_rules::judged::Judged;
use part_rules::shape::Ranks;
use scope_table::object::object_from;
use scope_table::scope::Visible;
use std::alloc::Global;

/// A variable or a part of it: rules 31, 33 and 34.
pub fn variable_part(
    alloc: Global,
    variable: Visible<'_>,
    at: Pos,
    actuals: Vec<Actual>,
    selection: Selection,
) -> Result<Judged<TypedExpr>, NoMemory>
    ensures breaks { IfOk result (λ j. j.breaks.items ≡ (rules.variable_part (visible variable.entry) at (map actual_seen actuals.items) (selection_seen selection)).breaks) }
    ensures meaning { IfOk result (λ j. option_map expression j.meaning ≡ (rules.variable_part (visible variable.entry) at (map actual_seen actuals.items) (selection_seen selection)).meaning) }
{
    let symbol = variable.symbol;
    let count = actuals.len();
    let rank = part_rank(symbol.bounds.len(), actuals.as_slice())?;
    let subscripts = subscripts(alloc, actuals)?;
    let ranks = Ranks {
        rank: symbol.bounds.len(),
        corank: symbol.corank,
    };
    object_with(
        object_from(variable.home, symbol.object),
        symbol.of_type,
        rank,
        subscripts,
        ranks,
        count,
        at,
        selection,
    )
}
