//! Further operators of a chain: all that stands before one is its left operand (10.1.2).

ghost use Rattle.std.specs.Prelude.{◌≡◌, IfOk};
ghost use Rattle.std.specs.Option.{option_map};
ghost use Rattle.checked_tree.specs.ExpressionViews.{expression};
ghost use Rattle.rule_definitions.specs.Parts as parts;
ghost use Rattle.part_rules.specs.Views.{judgement, placed};
ghost use Rattle.expr_rules.specs.Chains.{operator_at};

use caf_base::place::Pos;
use caf_base::refusal::NoMemory;
use checked_tree::expr::TypedExpr;
use fortran_tree::expr::Operator;
use part_rules::judged::Judged;
use part_rules::operator::binary;
use part_rules::part::Part;
use std::alloc::Global;

/// A further operator of a chain that begins at this place, with its right operand.
pub fn linked(
    alloc: Global,
    operator: Operator,
    before: Judged<TypedExpr>,
    at: Pos,
    operand: Part,
) -> Result<Judged<TypedExpr>, NoMemory>
    ensures breaks { IfOk result (λ j. j.breaks.items ≡ (parts.binary operator (operator_at (judgement expression before) at) (placed operand)).breaks) }
    ensures meaning { IfOk result (λ j. option_map expression j.meaning ≡ (parts.binary operator (operator_at (judgement expression before) at) (placed operand)).meaning) }
{
    let left = Part {
        judged: before,
        at,
        is_procedure: false,
    };
    binary(alloc, operator, left, operand)
}
