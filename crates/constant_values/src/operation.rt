//! Operators and functions of operands of which an integer or a logical may be known.

ghost use Rattle.std.specs.Prelude.{◌≡◌, neg_ℤ, pos, nat_abs, not};
ghost use Rattle.caf_base.specs.declared.value.Value.TheVariants.{Bool as Truth};
ghost use Rattle.rule_definitions.specs.Constants as rules;
ghost use Rattle.rule_definitions.specs.Constants.{as_constant};
ghost use Rattle.constant_values.specs.Views.{as_truth, of_number, of_numbers, of_truths};

use crate::arithmetic::{calculated, in_type, magnitude, modulo, negated, remainder, wide};
use crate::relation::{compared, reasoned};
use checked_tree::data::DataType;
use checked_tree::expr::{ArithmeticOperator, LogicalOperator, RelationalOperator};

/// An arithmetic operator of two operands.
pub(crate) fn calculated_pair(
    operator: ArithmeticOperator,
    of_type: DataType,
    left: Option<i64>,
    right: Option<i64>,
) -> Option<i64>
    ensures { as_constant result ≡ of_numbers (rules.calculated operator of_type) left right }
{
    match (left, right) {
        (Some(left), Some(right)) => calculated(operator, of_type, left, right),
        (_, _) => None,
    }
}

/// A relation of two operands.
pub(crate) fn compared_pair(
    operator: RelationalOperator,
    left: Option<i64>,
    right: Option<i64>,
) -> Option<bool>
    ensures { as_truth result ≡ of_numbers (λ m n. rules.value (Truth (rules.compared operator m n))) left right }
{
    match (left, right) {
        (Some(left), Some(right)) => Some(compared(operator, left, right)),
        (_, _) => None,
    }
}

/// A logical operator of two operands.
pub(crate) fn reasoned_pair(
    operator: LogicalOperator,
    left: Option<bool>,
    right: Option<bool>,
) -> Option<bool>
    ensures { as_truth result ≡ of_truths (rules.reasoned operator) left right }
{
    match (left, right) {
        (Some(left), Some(right)) => Some(reasoned(operator, left, right)),
        (_, _) => None,
    }
}

/// A minus before an operand.
pub(crate) fn negative(of_type: DataType, operand: Option<i64>) -> Option<i64>
    ensures { as_constant result ≡ of_number (λ n. rules.in_type of_type (neg_ℤ n)) operand }
{
    match operand {
        Some(operand) => negated(of_type, operand),
        None => None,
    }
}

/// .NOT. before an operand.
pub(crate) fn denied(operand: Option<bool>) -> Option<bool>
    ensures { as_truth result ≡ rules.denied (as_truth operand) }
{
    match operand {
        Some(operand) => Some(!operand),
        None => None,
    }
}

/// ABS.
pub(crate) fn magnitude_of(of_type: DataType, operand: Option<i64>) -> Option<i64>
    ensures { as_constant result ≡ of_number (λ n. rules.in_type of_type (pos (nat_abs n))) operand }
{
    match operand {
        Some(operand) => magnitude(of_type, operand),
        None => None,
    }
}

/// MOD.
pub(crate) fn remainder_pair(
    of_type: DataType,
    number: Option<i64>,
    divisor: Option<i64>,
) -> Option<i64>
    ensures { as_constant result ≡ of_numbers (rules.remainder_of of_type) number divisor }
{
    match (number, divisor) {
        (Some(number), Some(divisor)) => remainder(of_type, number, divisor),
        (_, _) => None,
    }
}

/// MODULO.
pub(crate) fn modulo_pair(
    of_type: DataType,
    number: Option<i64>,
    divisor: Option<i64>,
) -> Option<i64>
    ensures { as_constant result ≡ of_numbers (rules.modulo_of of_type) number divisor }
{
    match (number, divisor) {
        (Some(number), Some(divisor)) => modulo(of_type, number, divisor),
        (_, _) => None,
    }
}

/// INT.
pub(crate) fn converted(of_type: DataType, operand: Option<i64>) -> Option<i64>
    ensures { as_constant result ≡ of_number (rules.in_type of_type) operand }
{
    match operand {
        Some(operand) => in_type(of_type, wide(operand)),
        None => None,
    }
}
