//! What a designator is, by what its name stands for (9.4 to 9.6, 15.5.1): rules 20, 33, 34 and 47.

ghost use Rattle.std.specs.Prelude.{◌≡◌, ◌&&◌, ◌||◌, IfOk, None, map, not};
ghost use Rattle.std.specs.Option.{option_map};
ghost use Rattle.checked_tree.specs.ExpressionViews.{expression, maybe_selector};
ghost use Rattle.rule_definitions.specs.Expressions as rules;
ghost use Rattle.rule_definitions.specs.Judgements.{both, breaks, is_nothing, is_there};
ghost use Rattle.part_rules.specs.Brackets.{actual_seen};
ghost use Rattle.part_rules.specs.Views.{judgement};
ghost use Rattle.scope_table.specs.Scopes.{denoted as meaning_of};
ghost use Rattle.expr_rules.specs.Objects.{module_number};
ghost use Rattle.expr_rules.specs.Selections.{selection as selection_seen, unselected_by};

use crate::bracket::are_plain;
use crate::constant::{constant_part, module_constant};
use crate::procedure::{function_named, subroutine_breaks};
use crate::variable::variable_part;
use caf_base::place::Pos;
use caf_base::refusal::NoMemory;
use checked_tree::expr::{Selector, TypedExpr};
use part_rules::bracket::Actual;
use part_rules::designator::Selection;
use part_rules::judged::{Judged, are_none, joined, refused, ruled};
use rule_definitions::rule;
use scope_table::scope::{Denoted, Scope};
use std::alloc::Global;

/// Whether nothing is to be said of a selector behind what is no variable: none is there, or something breaks before or
/// in it.
fn is_unsaid(is_plain: bool, selection: &Selection) -> bool
    ensures { result ≡ (not (is_plain && is_nothing selection.now.judged.breaks.items) || not (is_there selection.now.count)) }
{
    if !is_plain {
        return true;
    }
    if !are_none(selection.judged.breaks.as_slice()) {
        return true;
    }
    match selection.count {
        None => true,
        Some(_) => false,
    }
}

/// A part that stands for something only where the selector behind it does.
fn behind_selector(
    meaning: Option<TypedExpr>,
    selector: Option<Option<Selector>>,
) -> Option<TypedExpr>
    ensures { option_map expression result ≡ both (λ x k. x) (option_map expression meaning) (option_map maybe_selector selector) }
{
    match selector {
        Some(selector) => {
            drop(selector);
            meaning
        }
        None => {
            drop(meaning);
            None
        }
    }
}

/// What is no variable, with its selector: rule 34 where one stands behind it and nothing is broken before, that is in
/// the brackets, and in it.
#[tactic(auto, using(crate::proofs::Names::unsaid_laws))]
fn unselected(
    part: Judged<TypedExpr>,
    is_plain: bool,
    selection: Selection,
    at: Pos,
) -> Result<Judged<TypedExpr>, NoMemory>
    ensures breaks { IfOk result (λ j. j.breaks.items ≡ (unselected_by is_plain (judgement expression part) (selection_seen selection) at).breaks) }
    ensures meaning { IfOk result (λ j. option_map expression j.meaning ≡ (unselected_by is_plain (judgement expression part) (selection_seen selection) at).meaning) }
{
    let holds = is_unsaid(is_plain, &selection);
    let Selection { judged, .. } = selection;
    let Judged { breaks, meaning } = ruled(part, holds, rule::NO_COARRAY, at)?;
    let Judged {
        breaks: further,
        meaning: selector,
    } = judged;
    joined(breaks, further, behind_selector(meaning, selector))
}

/// A constant of ISO_FORTRAN_ENV, with what stands behind it.
#[tactic(auto, using(crate::proofs::Names::unselected_is))]
fn module_constant_part(
    alloc: Global,
    number: i64,
    at: Pos,
    actuals: Vec<Actual>,
    selection: Selection,
) -> Result<Judged<TypedExpr>, NoMemory>
    ensures breaks { IfOk result (λ j. j.breaks.items ≡ (rules.unselected (rules.unsubscripted (module_number number) (map actual_seen actuals.items) at) (map actual_seen actuals.items) (selection_seen selection) at).breaks) }
    ensures meaning { IfOk result (λ j. option_map expression j.meaning ≡ (rules.unselected (rules.unsubscripted (module_number number) (map actual_seen actuals.items) at) (map actual_seen actuals.items) (selection_seen selection) at).meaning) }
{
    let is_plain = are_plain(actuals.as_slice());
    let part = module_constant(alloc, number, actuals, at)?;
    unselected(part, is_plain, selection, at)
}

/// A function's name, with what stands behind it.
#[tactic(auto, using(crate::proofs::Names::unselected_is))]
fn function_part(
    alloc: Global,
    scope: &Scope<'_>,
    denoted: Denoted<'_>,
    at: Pos,
    actuals: Vec<Actual>,
    selection: Selection,
) -> Result<Judged<TypedExpr>, NoMemory>
    ensures breaks { IfOk result (λ j. j.breaks.items ≡ (rules.unselected (rules.function_named scope.now (meaning_of denoted.entry) at (map actual_seen actuals.items) (selection_seen selection)) (map actual_seen actuals.items) (selection_seen selection) at).breaks) }
    ensures meaning { IfOk result (λ j. option_map expression j.meaning ≡ (rules.unselected (rules.function_named scope.now (meaning_of denoted.entry) at (map actual_seen actuals.items) (selection_seen selection)) (map actual_seen actuals.items) (selection_seen selection) at).meaning) }
{
    let is_plain = are_plain(actuals.as_slice());
    let part = function_named(alloc, scope, denoted, at, actuals, &selection)?;
    unselected(part, is_plain, selection, at)
}

/// A subroutine's name as a value, with what stands behind it.
#[tactic(auto, using(crate::proofs::Names::subroutine_is))]
fn subroutine_named(
    alloc: Global,
    at: Pos,
    actuals: Vec<Actual>,
    selection: Selection,
) -> Result<Judged<TypedExpr>, NoMemory>
    ensures breaks { IfOk result (λ j. j.breaks.items ≡ (rules.subroutine_named at (map actual_seen actuals.items) (selection_seen selection)).breaks) }
    ensures meaning { IfOk result (λ j. option_map expression j.meaning ≡ (rules.subroutine_named at (map actual_seen actuals.items) (selection_seen selection)).meaning) }
{
    let is_plain = are_plain(actuals.as_slice());
    let breaks = subroutine_breaks(alloc, at, actuals, &selection)?;
    let part = Judged {
        breaks,
        meaning: None,
    };
    unselected(part, is_plain, selection, at)
}

/// What stands for nothing here: rule 20.
fn undeclared(
    alloc: Global,
    at: Pos,
    actuals: Vec<Actual>,
    selection: Selection,
) -> Result<Judged<TypedExpr>, NoMemory>
    ensures breaks { IfOk result (λ j. j.breaks.items ≡ breaks 20 at) }
    ensures meaning { IfOk result (λ j. j.meaning ≡ None) }
{
    drop(actuals);
    drop(selection);
    refused(alloc, rule::UNKNOWN_NAME, at)
}

/// What a designator is, by what its name stands for: rule 20 for nothing and for a type.
pub fn designated(
    alloc: Global,
    scope: &Scope<'_>,
    denoted: Option<Denoted<'_>>,
    at: Pos,
    actuals: Vec<Actual>,
    selection: Selection,
) -> Result<Judged<TypedExpr>, NoMemory>
    ensures breaks { IfOk result (λ j. j.breaks.items ≡ (rules.designated scope.now (option_map meaning_of denoted.entry) at (map actual_seen actuals.items) (selection_seen selection)).breaks) }
    ensures meaning { IfOk result (λ j. option_map expression j.meaning ≡ (rules.designated scope.now (option_map meaning_of denoted.entry) at (map actual_seen actuals.items) (selection_seen selection)).meaning) }
{
    let Some(denoted) = denoted else {
        return undeclared(alloc, at, actuals, selection);
    };
    match denoted {
        Denoted::Variable(variable) => variable_part(alloc, variable, at, actuals, selection),
        Denoted::Constant(constant) => constant_part(alloc, constant, at, actuals, selection),
        Denoted::ModuleConstant(number) => {
            module_constant_part(alloc, number, at, actuals, selection)
        }
        Denoted::ModuleType(_) => undeclared(alloc, at, actuals, selection),
        Denoted::Subroutine(_) | Denoted::IntrinsicSubroutine(_) => {
            subroutine_named(alloc, at, actuals, selection)
        }
        Denoted::Function(_) | Denoted::IntrinsicFunction(_) => {
            function_part(alloc, scope, denoted, at, actuals, selection)
        }
    }
}
