//! Relations of integers, and operators of logicals (ISO/IEC 1539-1:2018, 10.1.5.5 and 10.1.5.4).

ghost use Rattle.std.specs.Prelude.{◌≡◌};
ghost use Rattle.rule_definitions.specs.Constants as rules;

use checked_tree::expr::{LogicalOperator, RelationalOperator};

/// Whether a relation holds between two integers.
pub(crate) fn compared(operator: RelationalOperator, left: i64, right: i64) -> bool
    ensures { result ≡ rules.compared operator left right }
{
    match operator {
        RelationalOperator::Equal => left == right,
        RelationalOperator::NotEqual => left != right,
        RelationalOperator::Less => left < right,
        RelationalOperator::LessEqual => left <= right,
        RelationalOperator::Greater => left > right,
        RelationalOperator::GreaterEqual => left >= right,
    }
}

/// What an operator makes of two logicals.
pub(crate) fn reasoned(operator: LogicalOperator, left: bool, right: bool) -> bool
    ensures { result ≡ rules.reasoned operator left right }
{
    match operator {
        LogicalOperator::And => left && right,
        LogicalOperator::Or => left || right,
        LogicalOperator::Eqv => left == right,
        LogicalOperator::Neqv => left != right,
    }
}
