//! The arguments of a call, each under the rule of its dummy. What breaks in one is put behind what breaks in those
//! before it.

ghost use Rattle.std.specs.Prelude.{◌≡◌, ◌++◌, IfOk, OnOk};
ghost use Rattle.std.specs.Option.{option_map};
ghost use Rattle.checked_tree.specs.ExpressionViews.{designator as designator_seen, expression, maybe_expression, maybe_result, result_variable as result_seen};
ghost use Rattle.checked_tree.specs.StatementViews.{collected as collected_seen};
ghost use Rattle.rule_definitions.specs.IntrinsicFunctions.{an_integer};
ghost use Rattle.rule_definitions.specs.IntrinsicSubroutines as rules;
ghost use Rattle.rule_definitions.specs.Parts as parts;
ghost use Rattle.part_rules.specs.Views.{placed};
ghost use Rattle.subroutine_rules.specs.Atoms.{atom_seen};
ghost use Rattle.subroutine_rules.specs.Parts.{given, given_number as number_given, given_stat as stat_given};

use crate::atom::{Atom, an_atom, an_atom_value};
use crate::collective::a_collected;
use crate::event::an_own_event;
use crate::several::noted;
use caf_base::refusal::NoMemory;
use checked_tree::action::Collected;
use checked_tree::expr::{Designator, ResultVariable, TypedExpr};
use part_rules::operand::integer;
use part_rules::part::Part;
use rule_definitions::broken::Broken;
use rule_definitions::rule;
use rule_definitions::taken::Taken;
use specifier_rules::result::result_variable;
use std::alloc::Global;

/// An ATOM of a type that the call takes.
pub fn given_atom(
    breaks: &mut Vec<Broken>,
    taken: Taken,
    part: Option<Part>,
) -> Result<Option<Atom>, NoMemory>
    ensures breaks { OnOk result (breaks.new.items ≡ breaks.old.items ++ (given (rules.an_atom taken) (option_map placed part)).breaks) }
    ensures meaning { IfOk result (λ m. option_map atom_seen m ≡ (given (rules.an_atom taken) (option_map placed part)).meaning) }
{
    match part {
        Some(part) => noted(breaks, an_atom(taken, part)?),
        None => Ok(None),
    }
}

/// A value beside an ATOM.
pub fn given_value(
    breaks: &mut Vec<Broken>,
    taken: Taken,
    part: Option<Part>,
) -> Result<Option<TypedExpr>, NoMemory>
    ensures breaks { OnOk result (breaks.new.items ≡ breaks.old.items ++ (given (rules.an_atom_value taken) (option_map placed part)).breaks) }
    ensures meaning { IfOk result (λ m. option_map expression m ≡ (given (rules.an_atom_value taken) (option_map placed part)).meaning) }
{
    match part {
        Some(part) => noted(breaks, an_atom_value(taken, part)?),
        None => Ok(None),
    }
}

/// A variable that the call sets.
pub fn given_result(
    alloc: Global,
    breaks: &mut Vec<Broken>,
    taken: Taken,
    part: Option<Part>,
) -> Result<Option<ResultVariable>, NoMemory>
    ensures breaks { OnOk result (breaks.new.items ≡ breaks.old.items ++ (given (parts.result_variable taken) (option_map placed part)).breaks) }
    ensures meaning { IfOk result (λ m. option_map result_seen m ≡ (given (parts.result_variable taken) (option_map placed part)).meaning) }
{
    match part {
        Some(part) => noted(breaks, result_variable(alloc, taken, part)?),
        None => Ok(None),
    }
}

/// An event of this image.
pub fn given_event(
    breaks: &mut Vec<Broken>,
    part: Option<Part>,
) -> Result<Option<Designator>, NoMemory>
    ensures breaks { OnOk result (breaks.new.items ≡ breaks.old.items ++ (given rules.an_own_event (option_map placed part)).breaks) }
    ensures meaning { IfOk result (λ m. option_map designator_seen m ≡ (given rules.an_own_event (option_map placed part)).meaning) }
{
    match part {
        Some(part) => noted(breaks, an_own_event(part)?),
        None => Ok(None),
    }
}

/// The argument A of a collective.
pub fn given_collected(
    breaks: &mut Vec<Broken>,
    takes_logicals: bool,
    part: Option<Part>,
) -> Result<Option<Collected>, NoMemory>
    ensures breaks { OnOk result (breaks.new.items ≡ breaks.old.items ++ (given (rules.a_collected takes_logicals) (option_map placed part)).breaks) }
    ensures meaning { IfOk result (λ m. option_map collected_seen m ≡ (given (rules.a_collected takes_logicals) (option_map placed part)).meaning) }
{
    match part {
        Some(part) => noted(breaks, a_collected(takes_logicals, part)?),
        None => Ok(None),
    }
}

/// An image: rule 59 for what is no integer.
pub fn given_image(
    breaks: &mut Vec<Broken>,
    part: Option<Part>,
) -> Result<Option<TypedExpr>, NoMemory>
    ensures breaks { OnOk result (breaks.new.items ≡ breaks.old.items ++ (given an_integer (option_map placed part)).breaks) }
    ensures meaning { IfOk result (λ m. option_map expression m ≡ (given an_integer (option_map placed part)).meaning) }
{
    match part {
        Some(part) => noted(breaks, integer(rule::INTRINSIC_ARGUMENT, part)?),
        None => Ok(None),
    }
}

/// An image that may be missing.
pub fn given_number(
    breaks: &mut Vec<Broken>,
    part: Option<Part>,
) -> Result<Option<Option<TypedExpr>>, NoMemory>
    ensures breaks { OnOk result (breaks.new.items ≡ breaks.old.items ++ (number_given (option_map placed part)).breaks) }
    ensures meaning { IfOk result (λ m. option_map maybe_expression m ≡ (number_given (option_map placed part)).meaning) }
{
    let Some(part) = part else {
        return Ok(Some(None));
    };
    match noted(breaks, integer(rule::INTRINSIC_ARGUMENT, part)?)? {
        Some(number) => Ok(Some(Some(number))),
        None => Ok(None),
    }
}

/// The variable STAT, which may be missing.
pub fn given_stat(
    alloc: Global,
    breaks: &mut Vec<Broken>,
    part: Option<Part>,
) -> Result<Option<Option<ResultVariable>>, NoMemory>
    ensures breaks { OnOk result (breaks.new.items ≡ breaks.old.items ++ (stat_given (option_map placed part)).breaks) }
    ensures meaning { IfOk result (λ m. option_map maybe_result m ≡ (stat_given (option_map placed part)).meaning) }
{
    let Some(part) = part else {
        return Ok(Some(None));
    };
    match noted(breaks, result_variable(alloc, Taken::Integers, part)?)? {
        Some(variable) => Ok(Some(Some(variable))),
        None => Ok(None),
    }
}
