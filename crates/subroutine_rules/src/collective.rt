//! The argument A of collectives (16.9.46 to 16.9.50): rules 51, 54 and 59.

ghost use Rattle.std.specs.Prelude.{◌≡◌, IfOk};
ghost use Rattle.std.specs.Option.{option_map};
ghost use Rattle.checked_tree.specs.ExpressionViews.{designator as designator_seen, expression};
ghost use Rattle.checked_tree.specs.StatementViews.{collected as collected_seen};
ghost use Rattle.rule_definitions.specs.IntrinsicSubroutines as rules;
ghost use Rattle.rule_definitions.specs.Judgements.{under};
ghost use Rattle.part_rules.specs.Views.{judgement, placed};
ghost use Rattle.subroutine_rules.specs.Variables as spec;

use caf_base::place::Pos;
use caf_base::refusal::NoMemory;
use checked_tree::action::Collected;
use checked_tree::data::{DataType, Object};
use checked_tree::expr::{Designator, TypedExpr};
use part_rules::judged::{Judged, breaking};
use part_rules::part::{Part, plain};
use part_rules::types::{is_integer_type, is_logical_type, is_team_type};
use rule_definitions::rule;
use specifier_rules::variable::{as_designator, designator_in};

/// Whether a designator is a part of a variable without an image selector.
#[tactic(auto, using(checked_tree::specs::ExpressionViews::typed_forms))]
fn is_own_part(designator: &Designator) -> bool
    ensures { result ≡ spec.is_own_part (designator_seen designator.now) }
{
    match designator.object {
        Object::Constant(_) => false,
        Object::Local(_) | Object::Coarray(_) => match &designator.selector {
            Some(_) => false,
            None => true,
        },
    }
}

/// Whether an expression is a variable or a part of one, without an image selector.
#[tactic(auto, using(crate::proofs::Variables::own_by_designator))]
fn is_own_variable(value: &TypedExpr) -> bool
    ensures { result ≡ rules.is_own_variable (expression value.now) }
{
    match as_designator(&value.form) {
        Some(designator) => is_own_part(designator),
        None => false,
    }
}

/// The rules on what a collective takes: rule 54 for what is coindexed, is no variable, or is logical where no logical
/// is taken; rule 51 for a team, rule 59 for an event or a lock.
fn collectable(
    takes_logicals: bool,
    value: Judged<TypedExpr>,
    at: Pos,
) -> Result<Judged<TypedExpr>, NoMemory>
    ensures breaks { IfOk result (λ j. j.breaks.items ≡ (under (judgement expression value) (rules.collected_breaks takes_logicals at)).breaks) }
    ensures meaning { IfOk result (λ j. option_map expression j.meaning ≡ (under (judgement expression value) (rules.collected_breaks takes_logicals at)).meaning) }
{
    let Some(found) = &value.meaning else {
        return Ok(value);
    };
    let of_type = found.of_type;
    if !is_own_variable(found) {
        return breaking(value, rule::COLLECTIVE_ARGUMENT, at);
    }
    if is_integer_type(of_type) {
        return Ok(value);
    }
    if is_logical_type(of_type) {
        if takes_logicals {
            return Ok(value);
        }
        return breaking(value, rule::COLLECTIVE_ARGUMENT, at);
    }
    if is_team_type(of_type) {
        return breaking(value, rule::TEAM, at);
    }
    breaking(value, rule::INTRINSIC_ARGUMENT, at)
}

/// An expression as the argument of a collective, where it is a variable of a type with a kind.
#[tactic(auto, using(crate::proofs::Variables::collected_by_designator))]
fn collected_of(value: TypedExpr) -> Option<Collected>
    ensures { option_map collected_seen result ≡ rules.collected_of (expression value) }
{
    let of_type = value.of_type;
    let rank = value.rank;
    let Some(variable) = designator_in(value.into_form()) else {
        return None;
    };
    let DataType::Intrinsic(kind) = of_type else {
        drop(variable);
        return None;
    };
    Some(Collected {
        variable,
        kind,
        rank,
    })
}

/// The argument A of a collective: rules 51, 54 and 59.
#[tactic(auto, using(crate::proofs::Found::found_collected_breaks, crate::proofs::Found::found_collected_meaning))]
pub fn a_collected(takes_logicals: bool, part: Part) -> Result<Judged<Collected>, NoMemory>
    ensures breaks { IfOk result (λ j. j.breaks.items ≡ (rules.a_collected takes_logicals (placed part)).breaks) }
    ensures meaning { IfOk result (λ j. option_map collected_seen j.meaning ≡ (rules.a_collected takes_logicals (placed part)).meaning) }
{
    let at = part.at;
    let value = plain(part)?;
    let Judged { breaks, meaning } = collectable(takes_logicals, value, at)?;
    let meaning = match meaning {
        Some(value) => collected_of(value),
        None => None,
    };
    Ok(Judged { breaks, meaning })
}
