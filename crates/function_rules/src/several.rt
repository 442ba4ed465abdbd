//! MIN and MAX: two or more integers, by position alone (16.9).

ghost use Rattle.std.specs.Prelude.{◌≡◌, ◌||◌, IfOk, map, length, nat_le, not};
ghost use Rattle.std.specs.Option.{option_map};
ghost use Rattle.checked_tree.specs.ExpressionViews.{expression, expressions, intrinsic as intrinsic_seen};
ghost use Rattle.rule_definitions.specs.Arguments as arguments;
ghost use Rattle.rule_definitions.specs.IntrinsicFunctions as rules;
ghost use Rattle.rule_definitions.specs.Judgements.{all_made, is_nothing, made, unless};
ghost use Rattle.part_rules.specs.Brackets.{actual_seen, item_seen};
ghost use Rattle.part_rules.specs.Views.{list_of};
ghost use Rattle.function_rules.specs.Forms.{extreme_of as extreme_seen, integer_part};

use crate::form::Extreme;
use caf_base::place::Pos;
use caf_base::refusal::NoMemory;
use caf_base::value::Kind;
use call_rules::actual::{are_sound, is_sound};
use call_rules::binding::is_written;
use checked_tree::data::DataType;
use checked_tree::expr::{ExprForm, Intrinsic, TypedExpr};
use part_rules::bracket::{Actual, Item, is_triplet};
use part_rules::judged::{Judged, fine, keep, refused, ruled};
use part_rules::operand::integer;
use rule_definitions::rule;
use std::alloc::Global;

/// Whether an argument has no keyword, where nothing is broken in it.
fn stands_by_place(actual: &Actual) -> bool
    ensures { rules.named_breaks (actual_seen actual.now) ≡ unless result 59 (actual_seen actual.now).at }
{
    if is_sound(actual) {
        !is_written(&actual.keyword)
    } else {
        true
    }
}

/// An integer between the brackets: rule 59 for a triplet.
fn integer_item(alloc: Global, item: Item, at: Pos) -> Result<Judged<TypedExpr>, NoMemory>
    ensures breaks { IfOk result (λ j. j.breaks.items ≡ (integer_part (item_seen item) at).breaks) }
    ensures meaning { IfOk result (λ j. option_map expression j.meaning ≡ (integer_part (item_seen item) at).meaning) }
{
    match item {
        Item::Value(part) => integer(rule::INTRINSIC_ARGUMENT, part),
        Item::Triplet(judged) => {
            drop(judged);
            refused(alloc, rule::INTRINSIC_ARGUMENT, at)
        }
    }
}

/// An argument: an integer without a keyword.
fn unnamed_integer(alloc: Global, actual: Actual) -> Result<Judged<TypedExpr>, NoMemory>
    ensures breaks { IfOk result (λ j. j.breaks.items ≡ (rules.unnamed_integer (actual_seen actual)).breaks) }
    ensures meaning { IfOk result (λ j. option_map expression j.meaning ≡ (rules.unnamed_integer (actual_seen actual)).meaning) }
{
    let holds = stands_by_place(&actual);
    let Actual { at, item, .. } = actual;
    let judged = integer_item(alloc, item, at)?;
    ruled(judged, holds, rule::INTRINSIC_ARGUMENT, at)
}

/// The arguments, one by one.
fn unnamed_integers(alloc: Global, actuals: Vec<Actual>) -> Result<Judged<Vec<TypedExpr>>, NoMemory>
    ensures breaks { IfOk result (λ j. j.breaks.items ≡ (all_made (map rules.unnamed_integer (map actual_seen actuals.items))).breaks) }
    ensures meaning { IfOk result (λ j. option_map (map expression) (option_map list_of j.meaning) ≡ (all_made (map rules.unnamed_integer (map actual_seen actuals.items))).meaning) }
{
    let mut list = fine(alloc, Vec::new(alloc));
    for actual in actuals {
        let value = unnamed_integer(alloc, actual)?;
        keep(&mut list, value)?;
    }
    Ok(list)
}

/// Whether each argument is an expression without a keyword.
fn are_unnamed(actuals: &[Actual]) -> bool
    ensures { result ≡ rules.are_unnamed (map actual_seen actuals.now) }
{
    for actual in actuals {
        if is_written(&actual.keyword) {
            return false;
        }
        if is_triplet(actual) {
            return false;
        }
    }
    true
}

/// Whether there are two arguments or more, where nothing is broken in them and each stands without a keyword.
fn are_enough(actuals: &[Actual]) -> bool
    ensures { result ≡ (not (is_nothing (arguments.breaks_in_all (map actual_seen actuals.now))) || (nat_le 2 (length (map actual_seen actuals.now)) || not (rules.are_unnamed (map actual_seen actuals.now)))) }
{
    !are_sound(actuals) || (2 <= actuals.len() || !are_unnamed(actuals))
}

/// The greater of the kinds of these.
fn joint_type(values: &[TypedExpr]) -> DataType
    ensures { result ≡ rules.joint_type (expressions values.now) }
{
    for value in values {
        match value.of_type {
            DataType::Intrinsic(Kind::I8) => return value.of_type,
            DataType::Intrinsic(Kind::I4 | Kind::L4)
            | DataType::Team
            | DataType::Event
            | DataType::Lock => {}
        }
    }
    DataType::Intrinsic(Kind::I4)
}

/// MIN or MAX of these.
#[tactic(auto, using(checked_tree::specs::ExpressionViews::typed_forms))]
fn extreme(function: Extreme, values: Vec<TypedExpr>) -> Intrinsic
    ensures { intrinsic_seen result ≡ extreme_seen function (expressions values.items) }
{
    match function {
        Extreme::Least => Intrinsic::Min(values),
        Extreme::Greatest => Intrinsic::Max(values),
    }
}

/// MIN or MAX of these, as an expression.
#[tactic(auto, using(checked_tree::specs::ExpressionViews::typed_forms))]
fn extreme_expr(function: Extreme, values: Vec<TypedExpr>) -> TypedExpr
    ensures { expression result ≡ rules.of_type (rules.joint_type (expressions values.items)) (extreme_seen function (expressions values.items)) }
{
    let of_type = joint_type(values.as_slice());
    TypedExpr {
        form: ExprForm::Intrinsic(extreme(function, values)),
        of_type,
        rank: 0,
    }
}

/// MIN or MAX of these arguments, however many they are.
#[tactic(auto, using(crate::proofs::Extremes::unnamed_breaks, crate::proofs::Extremes::unnamed_meaning, part_rules::proofs::Lists::expressions_seen))]
fn extreme_of(
    alloc: Global,
    function: Extreme,
    actuals: Vec<Actual>,
) -> Result<Judged<TypedExpr>, NoMemory>
    ensures breaks { IfOk result (λ j. j.breaks.items ≡ (rules.unnamed_integers (map actual_seen actuals.items)).breaks) }
    ensures meaning { IfOk result (λ j. option_map expression j.meaning ≡ made (λ es. rules.of_type (rules.joint_type es) (extreme_seen function es)) (rules.unnamed_integers (map actual_seen actuals.items)).meaning) }
{
    let Judged { breaks, meaning } = unnamed_integers(alloc, actuals)?;
    let meaning = match meaning {
        Some(values) => Some(extreme_expr(function, values)),
        None => None,
    };
    Ok(Judged { breaks, meaning })
}

/// A reference to MIN or MAX: rule 59 for fewer than two arguments, for keywords and triplets.
#[tactic(auto, using(crate::proofs::Extremes::several_said, crate::proofs::Extremes::nothing_unless))]
pub fn several(
    alloc: Global,
    function: Extreme,
    actuals: Vec<Actual>,
    at: Pos,
) -> Result<Judged<TypedExpr>, NoMemory>
    ensures breaks { IfOk result (λ j. j.breaks.items ≡ (rules.several_integers (extreme_seen function) (map actual_seen actuals.items) at).breaks) }
    ensures meaning { IfOk result (λ j. option_map expression j.meaning ≡ (rules.several_integers (extreme_seen function) (map actual_seen actuals.items) at).meaning) }
{
    let holds = are_enough(actuals.as_slice());
    let judged = extreme_of(alloc, function, actuals)?;
    ruled(judged, holds, rule::INTRINSIC_ARGUMENT, at)
}
