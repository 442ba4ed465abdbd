//! Operators with their operands, and expressions in brackets.

ghost use Rattle.std.specs.Prelude.{◌≡◌, ◌++◌, IfOk};
ghost use Rattle.std.specs.Option.{option_map};
ghost use Rattle.checked_tree.specs.Expressions as t;
ghost use Rattle.checked_tree.specs.ExpressionViews.{expression, form};
ghost use Rattle.rule_definitions.specs.Judgements.{both};
ghost use Rattle.rule_definitions.specs.Parts as rules;
ghost use Rattle.rule_definitions.specs.Parts.{applied, in_brackets, prefix_taken_by, prefixed, taken_by, truth};
ghost use Rattle.part_rules.specs.Views.{placed};

use crate::judged::{Judged, joined};
use crate::operand::operand;
use crate::part::{Part, plain};
use crate::types::joint_type;
use caf_base::refusal::NoMemory;
use caf_base::value::Kind;
use checked_tree::data::DataType;
use checked_tree::expr::{
    ArithmeticLink, ArithmeticOperator, ExprForm, LogicLink, LogicalOperator, RelationalOperator,
    TypedExpr,
};
use fortran_tree::expr::{Operator, PrefixOperator};
use rule_definitions::taken::Taken;
use std::alloc::Global;

/// What the operands of an operator are to be (Table 10.2).
fn operand_types(operator: Operator) -> Taken
    ensures { result ≡ taken_by operator }
{
    match operator {
        Operator::Power
        | Operator::Multiply
        | Operator::Divide
        | Operator::Add
        | Operator::Subtract
        | Operator::Equal
        | Operator::NotEqual
        | Operator::Less
        | Operator::LessEqual
        | Operator::Greater
        | Operator::GreaterEqual => Taken::Integers,
        Operator::And | Operator::Or | Operator::Eqv | Operator::Neqv => Taken::Logicals,
    }
}

/// An arithmetic operator with its operands.
#[tactic(auto, using(checked_tree::specs::ExpressionViews::typed_forms))]
fn arithmetic_pair(
    alloc: Global,
    operator: ArithmeticOperator,
    left: TypedExpr,
    right: TypedExpr,
) -> Result<ExprForm, NoMemory>
    ensures { IfOk result (λ f. form f ≡ t.arithmetic operator (expression left) (expression right)) }
{
    let left = Box::new(alloc, left)?;
    let right = Box::new(alloc, right)?;
    Ok(ExprForm::Arithmetic {
        operator,
        left,
        right,
        links: Vec::new(alloc),
    })
}

/// An arithmetic operator with its operands: a further one of a chain where the left operand is one.
#[tactic(auto, using(checked_tree::specs::ExpressionViews::typed_forms, checked_tree::specs::ExpressionViews::arithmetic_chain_pushed))]
fn arithmetic_form(
    alloc: Global,
    operator: ArithmeticOperator,
    left: TypedExpr,
    right: TypedExpr,
) -> Result<ExprForm, NoMemory>
    ensures { IfOk result (λ f. form f ≡ t.arithmetic operator (expression left) (expression right)) }
{
    if left.rank != 0 {
        return arithmetic_pair(alloc, operator, left, right);
    }
    let left_type = left.of_type;
    match left.into_form() {
        ExprForm::Arithmetic {
            operator: before,
            left: first,
            right: second,
            mut links,
        } => {
            links.push(ArithmeticLink {
                left_type,
                operator,
                right,
            })?;
            Ok(ExprForm::Arithmetic {
                operator: before,
                left: first,
                right: second,
                links,
            })
        }
        form => {
            let left = TypedExpr {
                form,
                of_type: left_type,
                rank: 0,
            };
            arithmetic_pair(alloc, operator, left, right)
        }
    }
}

/// A logical operator with its operands.
#[tactic(auto, using(checked_tree::specs::ExpressionViews::typed_forms))]
fn logic_pair(
    alloc: Global,
    operator: LogicalOperator,
    left: TypedExpr,
    right: TypedExpr,
) -> Result<ExprForm, NoMemory>
    ensures { IfOk result (λ f. form f ≡ t.logic operator (expression left) (expression right)) }
{
    let left = Box::new(alloc, left)?;
    let right = Box::new(alloc, right)?;
    Ok(ExprForm::Logic {
        operator,
        left,
        right,
        links: Vec::new(alloc),
    })
}

/// A logical operator behind a form of logical type, its left operand: a further one of a chain where that is one.
#[tactic(auto, using(checked_tree::specs::ExpressionViews::typed_forms, checked_tree::specs::ExpressionViews::logic_chain_pushed))]
fn logic_behind(
    alloc: Global,
    operator: LogicalOperator,
    left: ExprForm,
    right: TypedExpr,
) -> Result<ExprForm, NoMemory>
    ensures { IfOk result (λ f. form f ≡ t.logic operator (truth (form left)) (expression right)) }
{
    match left {
        ExprForm::Logic {
            operator: before,
            left: first,
            right: second,
            mut links,
        } => {
            links.push(LogicLink { operator, right })?;
            Ok(ExprForm::Logic {
                operator: before,
                left: first,
                right: second,
                links,
            })
        }
        form => {
            let left = TypedExpr {
                form,
                of_type: DataType::Intrinsic(Kind::L4),
                rank: 0,
            };
            logic_pair(alloc, operator, left, right)
        }
    }
}

/// A logical operator with its operands.
fn logic_form(
    alloc: Global,
    operator: LogicalOperator,
    left: TypedExpr,
    right: TypedExpr,
) -> Result<ExprForm, NoMemory>
    ensures { IfOk result (λ f. form f ≡ t.logic operator (expression left) (expression right)) }
{
    if left.rank != 0 {
        return logic_pair(alloc, operator, left, right);
    }
    match left.of_type {
        DataType::Intrinsic(Kind::L4) => logic_behind(alloc, operator, left.into_form(), right),
        DataType::Intrinsic(Kind::I4 | Kind::I8)
        | DataType::Team
        | DataType::Event
        | DataType::Lock => logic_pair(alloc, operator, left, right),
    }
}

/// A relational operator with its operands.
#[tactic(auto, using(checked_tree::specs::ExpressionViews::typed_forms))]
fn relation_form(
    alloc: Global,
    operator: RelationalOperator,
    left: TypedExpr,
    right: TypedExpr,
) -> Result<ExprForm, NoMemory>
    ensures { IfOk result (λ f. form f ≡ t.relation operator (expression left) (expression right)) }
{
    let left = Box::new(alloc, left)?;
    let right = Box::new(alloc, right)?;
    Ok(ExprForm::Relation {
        operator,
        left,
        right,
    })
}

/// An operator with the operands that it takes.
fn apply(
    alloc: Global,
    operator: Operator,
    left: TypedExpr,
    right: TypedExpr,
) -> Result<TypedExpr, NoMemory>
    ensures { IfOk result (λ e. expression e ≡ applied operator (expression left) (expression right)) }
{
    let number = joint_type(left.of_type, right.of_type);
    let logical = DataType::Intrinsic(Kind::L4);
    let (made, of_type) = match operator {
        Operator::Power => (
            arithmetic_pair(alloc, ArithmeticOperator::Power, left, right),
            number,
        ),
        Operator::Multiply => (
            arithmetic_form(alloc, ArithmeticOperator::Multiply, left, right),
            number,
        ),
        Operator::Divide => (
            arithmetic_form(alloc, ArithmeticOperator::Divide, left, right),
            number,
        ),
        Operator::Add => (
            arithmetic_form(alloc, ArithmeticOperator::Add, left, right),
            number,
        ),
        Operator::Subtract => (
            arithmetic_form(alloc, ArithmeticOperator::Subtract, left, right),
            number,
        ),
        Operator::Equal => (
            relation_form(alloc, RelationalOperator::Equal, left, right),
            logical,
        ),
        Operator::NotEqual => (
            relation_form(alloc, RelationalOperator::NotEqual, left, right),
            logical,
        ),
        Operator::Less => (
            relation_form(alloc, RelationalOperator::Less, left, right),
            logical,
        ),
        Operator::LessEqual => (
            relation_form(alloc, RelationalOperator::LessEqual, left, right),
            logical,
        ),
        Operator::Greater => (
            relation_form(alloc, RelationalOperator::Greater, left, right),
            logical,
        ),
        Operator::GreaterEqual => (
            relation_form(alloc, RelationalOperator::GreaterEqual, left, right),
            logical,
        ),
        Operator::And => (
            logic_form(alloc, LogicalOperator::And, left, right),
            logical,
        ),
        Operator::Or => (logic_form(alloc, LogicalOperator::Or, left, right), logical),
        Operator::Eqv => (
            logic_form(alloc, LogicalOperator::Eqv, left, right),
            logical,
        ),
        Operator::Neqv => (
            logic_form(alloc, LogicalOperator::Neqv, left, right),
            logical,
        ),
    };
    let form = made?;
    Ok(TypedExpr {
        form,
        of_type,
        rank: 0,
    })
}

/// An operator with its operands, where both stand for something.
fn apply_both(
    alloc: Global,
    operator: Operator,
    left: Option<TypedExpr>,
    right: Option<TypedExpr>,
) -> Result<Option<TypedExpr>, NoMemory>
    ensures { IfOk result (λ o. option_map expression o ≡ both (applied operator) (option_map expression left) (option_map expression right)) }
{
    let Some(left) = left else {
        drop(right);
        return Ok(None);
    };
    let Some(right) = right else {
        drop(left);
        return Ok(None);
    };
    Ok(Some(apply(alloc, operator, left, right)?))
}

/// An operator with its operands, after their rules.
fn apply_judged(
    alloc: Global,
    operator: Operator,
    left: Judged<TypedExpr>,
    right: Judged<TypedExpr>,
) -> Result<Judged<TypedExpr>, NoMemory>
    ensures breaks { IfOk result (λ j. j.breaks.items ≡ left.breaks.items ++ right.breaks.items) }
    ensures meaning { IfOk result (λ j. option_map expression j.meaning ≡ both (applied operator) (option_map expression left.meaning) (option_map expression right.meaning)) }
{
    let Judged {
        breaks,
        meaning: first,
    } = left;
    let Judged {
        breaks: further,
        meaning: second,
    } = right;
    let meaning = apply_both(alloc, operator, first, second)?;
    joined(breaks, further, meaning)
}

/// An operator of two operands.
pub fn binary(
    alloc: Global,
    operator: Operator,
    left: Part,
    right: Part,
) -> Result<Judged<TypedExpr>, NoMemory>
    ensures breaks { IfOk result (λ j. j.breaks.items ≡ (rules.binary operator (placed left) (placed right)).breaks) }
    ensures meaning { IfOk result (λ j. option_map expression j.meaning ≡ (rules.binary operator (placed left) (placed right)).meaning) }
{
    let taken = operand_types(operator);
    let left = operand(taken, left)?;
    let right = operand(taken, right)?;
    apply_judged(alloc, operator, left, right)
}

/// What a sign or .NOT. wants.
fn prefix_operand_types(operator: PrefixOperator) -> Taken
    ensures { result ≡ prefix_taken_by operator }
{
    match operator {
        PrefixOperator::Plus | PrefixOperator::Minus => Taken::Integers,
        PrefixOperator::Not => Taken::Logicals,
    }
}

/// A sign or .NOT. with the operand that it takes.
#[tactic(auto, using(checked_tree::specs::ExpressionViews::typed_forms))]
fn apply_prefix(
    alloc: Global,
    operator: PrefixOperator,
    operand: TypedExpr,
) -> Result<TypedExpr, NoMemory>
    ensures { IfOk result (λ e. expression e ≡ prefixed operator (expression operand)) }
{
    let number = operand.of_type;
    let operand = Box::new(alloc, operand)?;
    let (form, of_type) = match operator {
        PrefixOperator::Plus => (ExprForm::Plus(operand), number),
        PrefixOperator::Minus => (ExprForm::Minus(operand), number),
        PrefixOperator::Not => (ExprForm::Not(operand), DataType::Intrinsic(Kind::L4)),
    };
    Ok(TypedExpr {
        form,
        of_type,
        rank: 0,
    })
}

/// An operator of one operand.
pub fn prefix(
    alloc: Global,
    operator: PrefixOperator,
    part: Part,
) -> Result<Judged<TypedExpr>, NoMemory>
    ensures breaks { IfOk result (λ j. j.breaks.items ≡ (rules.prefix operator (placed part)).breaks) }
    ensures meaning { IfOk result (λ j. option_map expression j.meaning ≡ (rules.prefix operator (placed part)).meaning) }
{
    let Judged { breaks, meaning } = operand(prefix_operand_types(operator), part)?;
    let meaning = match meaning {
        Some(operand) => Some(apply_prefix(alloc, operator, operand)?),
        None => None,
    };
    Ok(Judged { breaks, meaning })
}

/// An expression in brackets.
#[tactic(auto, using(checked_tree::specs::ExpressionViews::typed_forms))]
fn bracketed(alloc: Global, inner: TypedExpr) -> Result<TypedExpr, NoMemory>
    ensures { IfOk result (λ e. expression e ≡ in_brackets (expression inner)) }
{
    let of_type = inner.of_type;
    let rank = inner.rank;
    Ok(TypedExpr {
        form: ExprForm::Parenthesized(Box::new(alloc, inner)?),
        of_type,
        rank,
    })
}

/// An expression in brackets, as a primary.
pub fn parenthesized(alloc: Global, part: Part) -> Result<Judged<TypedExpr>, NoMemory>
    ensures breaks { IfOk result (λ j. j.breaks.items ≡ (rules.parenthesized (placed part)).breaks) }
    ensures meaning { IfOk result (λ j. option_map expression j.meaning ≡ (rules.parenthesized (placed part)).meaning) }
{
    let Judged { breaks, meaning } = plain(part)?;
    let meaning = match meaning {
        Some(inner) => Some(bracketed(alloc, inner)?),
        None => None,
    };
    Ok(Judged { breaks, meaning })
}
