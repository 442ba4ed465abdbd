//! Arguments of intrinsic functions, each taken away from the bound ones and put under its rule.

ghost use Rattle.std.specs.Prelude.{◌≡◌, ◌++◌, ◌&&◌, cond, nat_eq, not, IfOk, OnOk, map};
ghost use Rattle.std.specs.Option.{option_map};
ghost use Rattle.checked_tree.specs.Expressions as t;
ghost use Rattle.checked_tree.specs.ExpressionViews.{expression, optional_expression};
ghost use Rattle.rule_definitions.specs.Arguments as arguments;
ghost use Rattle.rule_definitions.specs.IntrinsicFunctions as rules;
ghost use Rattle.rule_definitions.specs.Judgements.{made};
ghost use Rattle.rule_definitions.specs.Names.{is_integer, is_team};
ghost use Rattle.rule_definitions.specs.Parts as parts;
ghost use Rattle.part_rules.specs.Views.{judgement, placed};
ghost use Rattle.call_rules.specs.Bindings.{binding_seen, without};
ghost use Rattle.call_rules.specs.Views.{boxed};

use crate::binding::{Binding, take};
use caf_base::place::Pos;
use caf_base::refusal::NoMemory;
use checked_tree::data::DataType;
use checked_tree::expr::TypedExpr;
use part_rules::judged::{Judged, add_all, breaking};
use part_rules::operand::{integer, team_of};
use part_rules::part::{Part, plain};
use part_rules::types::{is_integer_type, is_team_type};
use rule_definitions::broken::Broken;
use rule_definitions::rule;
use std::alloc::Global;

/// Puts what breaks in a part behind the earlier breaks, and gives what the part stands for.
pub fn noted<T: Drop>(breaks: &mut Vec<Broken>, part: Judged<T>) -> Result<Option<T>, NoMemory>
    ensures breaks { OnOk result (breaks.new.items ≡ breaks.old.items ++ part.breaks.items) }
    ensures meaning { IfOk result (λ m. m ≡ part.meaning) }
{
    let Judged {
        breaks: own,
        meaning,
    } = part;
    add_all(breaks, own)?;
    Ok(meaning)
}

/// A value in a box.
pub fn in_box(alloc: Global, value: Option<TypedExpr>) -> Result<Option<Box<TypedExpr>>, NoMemory>
    ensures { IfOk result (λ b. option_map boxed b ≡ option_map expression value) }
{
    match value {
        Some(value) => Ok(Some(Box::new(alloc, value)?)),
        None => Ok(None),
    }
}

/// A value in a box, for an argument that may be missing.
fn given(
    alloc: Global,
    value: Option<TypedExpr>,
) -> Result<Option<Option<Box<TypedExpr>>>, NoMemory>
    ensures { IfOk result (λ b. option_map optional_expression b ≡ made t.given (option_map expression value)) }
{
    match value {
        Some(value) => Ok(Some(Some(Box::new(alloc, value)?))),
        None => Ok(None),
    }
}

/// The rule that another type than is taken breaks: rule 51 for a team, else this one.
pub fn unlike(rule: u8, of_type: DataType) -> u8
    ensures { result ≡ cond (is_team of_type) 51 rule }
{
    if is_team_type(of_type) {
        rule::TEAM
    } else {
        rule
    }
}

/// An integer, scalar or array.
pub fn of_integer_type(part: Part) -> Result<Judged<TypedExpr>, NoMemory>
    ensures breaks { IfOk result (λ j. j.breaks.items ≡ (rules.of_integer_type (placed part)).breaks) }
    ensures meaning { IfOk result (λ j. option_map expression j.meaning ≡ (rules.of_integer_type (placed part)).meaning) }
{
    let at = part.at;
    let value = plain(part)?;
    let Some(found) = &value.meaning else {
        return Ok(value);
    };
    if is_integer_type(found.of_type) {
        return Ok(value);
    }
    let rule = unlike(rule::INTRINSIC_ARGUMENT, found.of_type);
    breaking(value, rule, at)
}

/// An array.
pub fn an_array(value: Judged<TypedExpr>, at: Pos) -> Result<Judged<TypedExpr>, NoMemory>
    ensures breaks { IfOk result (λ j. j.breaks.items ≡ (rules.an_array at (judgement expression value)).breaks) }
    ensures meaning { IfOk result (λ j. option_map expression j.meaning ≡ (rules.an_array at (judgement expression value)).meaning) }
{
    let Some(found) = &value.meaning else {
        return Ok(value);
    };
    if found.rank != 0 {
        return Ok(value);
    }
    let rule = unlike(rule::INTRINSIC_ARGUMENT, found.of_type);
    breaking(value, rule, at)
}

/// Whether a value is an array of integers of rank one.
fn is_integer_list(value: &TypedExpr) -> bool
    ensures { result ≡ (is_integer (parts.type_of (expression value.now)) && nat_eq (parts.rank_of (expression value.now)) 1) }
{
    is_integer_type(value.of_type) && value.rank == 1
}

/// An array of integers, of rank one.
pub fn an_integer_list(part: Part) -> Result<Judged<TypedExpr>, NoMemory>
    ensures breaks { IfOk result (λ j. j.breaks.items ≡ (rules.an_integer_list (placed part)).breaks) }
    ensures meaning { IfOk result (λ j. option_map expression j.meaning ≡ (rules.an_integer_list (placed part)).meaning) }
{
    let at = part.at;
    let value = plain(part)?;
    let Some(found) = &value.meaning else {
        return Ok(value);
    };
    if is_integer_list(found) {
        return Ok(value);
    }
    let rule = unlike(rule::INTRINSIC_ARGUMENT, found.of_type);
    breaking(value, rule, at)
}

/// The integer of the dummy with this number.
pub fn integer_at(
    alloc: Global,
    breaks: &mut Vec<Broken>,
    bindings: &mut Vec<Binding>,
    number: usize,
) -> Result<Option<Box<TypedExpr>>, NoMemory>
    ensures breaks { OnOk result (breaks.new.items ≡ breaks.old.items ++ (arguments.given_to (map binding_seen bindings.old.items) number rules.an_integer).breaks) }
    ensures meaning { IfOk result (λ b. option_map boxed b ≡ (arguments.given_to (map binding_seen bindings.old.items) number rules.an_integer).meaning) }
    ensures others { OnOk result (map binding_seen bindings.new.items ≡ without (map binding_seen bindings.old.items) number) }
{
    let Some(part) = take(bindings, number) else {
        return Ok(None);
    };
    let judged = integer(rule::INTRINSIC_ARGUMENT, part)?;
    let value = noted(breaks, judged)?;
    in_box(alloc, value)
}

/// The integer of the dummy with this number, where there is one.
pub fn maybe_integer_at(
    alloc: Global,
    breaks: &mut Vec<Broken>,
    bindings: &mut Vec<Binding>,
    number: usize,
) -> Result<Option<Option<Box<TypedExpr>>>, NoMemory>
    ensures breaks { OnOk result (breaks.new.items ≡ breaks.old.items ++ (arguments.maybe_given_to (map binding_seen bindings.old.items) number rules.an_integer).breaks) }
    ensures meaning { IfOk result (λ b. option_map optional_expression b ≡ (arguments.maybe_given_to (map binding_seen bindings.old.items) number rules.an_integer).meaning) }
{
    let Some(part) = take(bindings, number) else {
        return Ok(Some(None));
    };
    let judged = integer(rule::INTRINSIC_ARGUMENT, part)?;
    let value = noted(breaks, judged)?;
    given(alloc, value)
}

/// The team of the dummy with this number, where there is one: what is no team breaks this rule.
pub fn maybe_team_at(
    alloc: Global,
    breaks: &mut Vec<Broken>,
    bindings: &mut Vec<Binding>,
    number: usize,
    rule: u8,
) -> Result<Option<Option<Box<TypedExpr>>>, NoMemory>
    ensures breaks { OnOk result (breaks.new.items ≡ breaks.old.items ++ (arguments.maybe_given_to (map binding_seen bindings.old.items) number (parts.team_of rule)).breaks) }
    ensures meaning { IfOk result (λ b. option_map optional_expression b ≡ (arguments.maybe_given_to (map binding_seen bindings.old.items) number (parts.team_of rule)).meaning) }
{
    let Some(part) = take(bindings, number) else {
        return Ok(Some(None));
    };
    let judged = team_of(rule, part)?;
    let value = noted(breaks, judged)?;
    given(alloc, value)
}

/// The array of the first dummy.
pub fn array_at(
    alloc: Global,
    breaks: &mut Vec<Broken>,
    bindings: &mut Vec<Binding>,
) -> Result<Option<Box<TypedExpr>>, NoMemory>
    ensures breaks { OnOk result (breaks.new.items ≡ breaks.old.items ++ (arguments.given_to (map binding_seen bindings.old.items) 0 (λ e. rules.an_array e.at (parts.plain e))).breaks) }
    ensures meaning { IfOk result (λ b. option_map boxed b ≡ (arguments.given_to (map binding_seen bindings.old.items) 0 (λ e. rules.an_array e.at (parts.plain e))).meaning) }
    ensures others { OnOk result (map binding_seen bindings.new.items ≡ without (map binding_seen bindings.old.items) 0) }
{
    let Some(part) = take(bindings, 0) else {
        return Ok(None);
    };
    let at = part.at;
    let judged = an_array(plain(part)?, at)?;
    let value = noted(breaks, judged)?;
    in_box(alloc, value)
}

/// The array of the first dummy, which may be a list of images.
pub fn listed_array_at(
    alloc: Global,
    breaks: &mut Vec<Broken>,
    bindings: &mut Vec<Binding>,
) -> Result<Option<Box<TypedExpr>>, NoMemory>
    ensures breaks { OnOk result (breaks.new.items ≡ breaks.old.items ++ (arguments.given_to (map binding_seen bindings.old.items) 0 (λ e. rules.an_array e.at e.judged)).breaks) }
    ensures meaning { IfOk result (λ b. option_map boxed b ≡ (arguments.given_to (map binding_seen bindings.old.items) 0 (λ e. rules.an_array e.at e.judged)).meaning) }
    ensures others { OnOk result (map binding_seen bindings.new.items ≡ without (map binding_seen bindings.old.items) 0) }
{
    let Some(part) = take(bindings, 0) else {
        return Ok(None);
    };
    let at = part.at;
    let judged = an_array(part.judged, at)?;
    let value = noted(breaks, judged)?;
    in_box(alloc, value)
}

/// The array of integers of the dummy with this number.
pub fn integer_list_at(
    alloc: Global,
    breaks: &mut Vec<Broken>,
    bindings: &mut Vec<Binding>,
    number: usize,
) -> Result<Option<Box<TypedExpr>>, NoMemory>
    ensures breaks { OnOk result (breaks.new.items ≡ breaks.old.items ++ (arguments.given_to (map binding_seen bindings.old.items) number rules.an_integer_list).breaks) }
    ensures meaning { IfOk result (λ b. option_map boxed b ≡ (arguments.given_to (map binding_seen bindings.old.items) number rules.an_integer_list).meaning) }
    ensures others { OnOk result (map binding_seen bindings.new.items ≡ without (map binding_seen bindings.old.items) number) }
{
    let Some(part) = take(bindings, number) else {
        return Ok(None);
    };
    let judged = an_integer_list(part)?;
    let value = noted(breaks, judged)?;
    in_box(alloc, value)
}
