//! Calls of intrinsic subroutines.

ghost use Rattle.std.specs.Prelude.{◌≡◌, ◌++◌, IfOk, OnOk, map};
ghost use Rattle.std.specs.Option.{option_map};
ghost use Rattle.checked_tree.specs.StatementViews.{intrinsic_subroutine, statement_form};
ghost use Rattle.rule_definitions.specs.IntrinsicSubroutines as rules;
ghost use Rattle.scope_table.specs.Symbols.{subroutine_name};
ghost use Rattle.part_rules.specs.Brackets.{actual_seen};
ghost use Rattle.subroutine_rules.specs.Parts as spec;
ghost use Rattle.subroutine_rules.specs.Parts.{called_as};
ghost use Rattle.subroutine_rules.specs.Views.{parts_seen};

use crate::arguments::{Found, Parts, find_arguments};
use crate::atom::taken_with;
use crate::dummies::dummies_of;
use crate::form;
use crate::given::{
    given_atom, given_collected, given_event, given_image, given_number, given_result, given_stat,
    given_value,
};
use caf_base::place::Pos;
use caf_base::refusal::NoMemory;
use checked_tree::action::{AtomicChange, Combination, IntrinsicSubroutine};
use checked_tree::statement::StatementForm;
use part_rules::bracket::Actual;
use part_rules::judged::{Judged, add_all};
use rule_definitions::broken::Broken;
use rule_definitions::taken::Taken;
use scope_table::symbol::SubroutineName;
use std::alloc::Global;

/// ATOMIC_DEFINE (16.9.23): the value is of the atom's type.
fn define(
    alloc: Global,
    breaks: &mut Vec<Broken>,
    parts: &mut Parts,
) -> Result<Option<IntrinsicSubroutine>, NoMemory>
    ensures breaks { OnOk result (breaks.new.items ≡ breaks.old.items ++ (spec.define_of (parts_seen parts.old)).breaks) }
    ensures meaning { IfOk result (λ f. option_map intrinsic_subroutine f ≡ (spec.define_of (parts_seen parts.old)).meaning) }
{
    let atom = given_atom(breaks, Taken::IntegersOrLogicals, parts.first.take())?;
    let value = given_value(breaks, taken_with(&atom), parts.second.take())?;
    let stat = given_stat(alloc, breaks, parts.third.take())?;
    Ok(form::define(atom, value, stat))
}

/// ATOMIC_REF (16.9.29): the value is of the atom's type.
fn reference(
    alloc: Global,
    breaks: &mut Vec<Broken>,
    parts: &mut Parts,
) -> Result<Option<IntrinsicSubroutine>, NoMemory>
    ensures breaks { OnOk result (breaks.new.items ≡ breaks.old.items ++ (spec.ref_of (parts_seen parts.old)).breaks) }
    ensures meaning { IfOk result (λ f. option_map intrinsic_subroutine f ≡ (spec.ref_of (parts_seen parts.old)).meaning) }
{
    let mut behind = Vec::new(alloc);
    let atom = given_atom(&mut behind, Taken::IntegersOrLogicals, parts.second.take())?;
    let value = given_result(alloc, breaks, taken_with(&atom), parts.first.take())?;
    add_all(breaks, behind)?;
    let stat = given_stat(alloc, breaks, parts.third.take())?;
    Ok(form::reference(value, atom, stat))
}

/// ATOMIC_ADD, ATOMIC_AND, ATOMIC_OR and ATOMIC_XOR (16.9.20, 16.9.21, 16.9.28, 16.9.30).
fn change(
    alloc: Global,
    breaks: &mut Vec<Broken>,
    change: AtomicChange,
    parts: &mut Parts,
) -> Result<Option<IntrinsicSubroutine>, NoMemory>
    ensures breaks { OnOk result (breaks.new.items ≡ breaks.old.items ++ (spec.change_of change (parts_seen parts.old)).breaks) }
    ensures meaning { IfOk result (λ f. option_map intrinsic_subroutine f ≡ (spec.change_of change (parts_seen parts.old)).meaning) }
{
    let atom = given_atom(breaks, Taken::Integers, parts.first.take())?;
    let value = given_value(breaks, Taken::Integers, parts.second.take())?;
    let stat = given_stat(alloc, breaks, parts.third.take())?;
    Ok(form::change(change, atom, value, stat))
}

/// ATOMIC_FETCH_ADD, ATOMIC_FETCH_AND, ATOMIC_FETCH_OR and ATOMIC_FETCH_XOR (16.9.24 to 16.9.27).
fn fetch(
    alloc: Global,
    breaks: &mut Vec<Broken>,
    change: AtomicChange,
    parts: &mut Parts,
) -> Result<Option<IntrinsicSubroutine>, NoMemory>
    ensures breaks { OnOk result (breaks.new.items ≡ breaks.old.items ++ (spec.fetch_of change (parts_seen parts.old)).breaks) }
    ensures meaning { IfOk result (λ f. option_map intrinsic_subroutine f ≡ (spec.fetch_of change (parts_seen parts.old)).meaning) }
{
    let atom = given_atom(breaks, Taken::Integers, parts.first.take())?;
    let value = given_value(breaks, Taken::Integers, parts.second.take())?;
    let old = given_result(alloc, breaks, Taken::Integers, parts.third.take())?;
    let stat = given_stat(alloc, breaks, parts.fourth.take())?;
    Ok(form::fetch(change, atom, value, old, stat))
}

/// ATOMIC_CAS (16.9.22): OLD, COMPARE and NEW are of the atom's type.
fn compare_and_swap(
    alloc: Global,
    breaks: &mut Vec<Broken>,
    parts: &mut Parts,
) -> Result<Option<IntrinsicSubroutine>, NoMemory>
    ensures breaks { OnOk result (breaks.new.items ≡ breaks.old.items ++ (spec.cas_of (parts_seen parts.old)).breaks) }
    ensures meaning { IfOk result (λ f. option_map intrinsic_subroutine f ≡ (spec.cas_of (parts_seen parts.old)).meaning) }
{
    let atom = given_atom(breaks, Taken::IntegersOrLogicals, parts.first.take())?;
    let taken = taken_with(&atom);
    let old = given_result(alloc, breaks, taken, parts.second.take())?;
    let compare = given_value(breaks, taken, parts.third.take())?;
    let new = given_value(breaks, taken, parts.fourth.take())?;
    let stat = given_stat(alloc, breaks, parts.fifth.take())?;
    Ok(form::compare_and_swap(atom, old, compare, new, stat))
}

/// EVENT_QUERY (16.9.72).
fn query(
    alloc: Global,
    breaks: &mut Vec<Broken>,
    parts: &mut Parts,
) -> Result<Option<IntrinsicSubroutine>, NoMemory>
    ensures breaks { OnOk result (breaks.new.items ≡ breaks.old.items ++ (spec.query_of (parts_seen parts.old)).breaks) }
    ensures meaning { IfOk result (λ f. option_map intrinsic_subroutine f ≡ (spec.query_of (parts_seen parts.old)).meaning) }
{
    let event = given_event(breaks, parts.first.take())?;
    let count = given_result(alloc, breaks, Taken::Integers, parts.second.take())?;
    let stat = given_stat(alloc, breaks, parts.third.take())?;
    Ok(form::query(event, count, stat))
}

/// CO_SUM, CO_MIN and CO_MAX (16.9.50, 16.9.48, 16.9.47).
fn combine(
    alloc: Global,
    breaks: &mut Vec<Broken>,
    combination: Combination,
    parts: &mut Parts,
) -> Result<Option<IntrinsicSubroutine>, NoMemory>
    ensures breaks { OnOk result (breaks.new.items ≡ breaks.old.items ++ (spec.combine_of combination (parts_seen parts.old)).breaks) }
    ensures meaning { IfOk result (λ f. option_map intrinsic_subroutine f ≡ (spec.combine_of combination (parts_seen parts.old)).meaning) }
{
    let a = given_collected(breaks, false, parts.first.take())?;
    let image = given_number(breaks, parts.second.take())?;
    let stat = given_stat(alloc, breaks, parts.third.take())?;
    Ok(form::combine(combination, a, image, stat))
}

/// CO_BROADCAST (16.9.46).
fn broadcast(
    alloc: Global,
    breaks: &mut Vec<Broken>,
    parts: &mut Parts,
) -> Result<Option<IntrinsicSubroutine>, NoMemory>
    ensures breaks { OnOk result (breaks.new.items ≡ breaks.old.items ++ (spec.broadcast_of (parts_seen parts.old)).breaks) }
    ensures meaning { IfOk result (λ f. option_map intrinsic_subroutine f ≡ (spec.broadcast_of (parts_seen parts.old)).meaning) }
{
    let a = given_collected(breaks, true, parts.first.take())?;
    let image = given_image(breaks, parts.second.take())?;
    let stat = given_stat(alloc, breaks, parts.third.take())?;
    Ok(form::broadcast(a, image, stat))
}

/// The call of a subroutine whose arguments have their dummies. What breaks in them is put behind other breaks.
fn form_of(
    alloc: Global,
    breaks: &mut Vec<Broken>,
    subroutine: SubroutineName,
    parts: &mut Parts,
) -> Result<Option<IntrinsicSubroutine>, NoMemory>
    ensures breaks { OnOk result (breaks.new.items ≡ breaks.old.items ++ (spec.rule_of (subroutine_name subroutine) (parts_seen parts.old)).breaks) }
    ensures meaning { IfOk result (λ f. option_map intrinsic_subroutine f ≡ (spec.rule_of (subroutine_name subroutine) (parts_seen parts.old)).meaning) }
{
    match subroutine {
        SubroutineName::AtomicDefine => define(alloc, breaks, parts),
        SubroutineName::AtomicRef => reference(alloc, breaks, parts),
        SubroutineName::AtomicChange(operation) => change(alloc, breaks, operation, parts),
        SubroutineName::AtomicFetch(operation) => fetch(alloc, breaks, operation, parts),
        SubroutineName::AtomicCas => compare_and_swap(alloc, breaks, parts),
        SubroutineName::EventQuery => query(alloc, breaks, parts),
        SubroutineName::Combine(combination) => combine(alloc, breaks, combination, parts),
        SubroutineName::Broadcast => broadcast(alloc, breaks, parts),
    }
}

/// A call of a subroutine whose arguments have their dummies.
fn bound_call(
    alloc: Global,
    subroutine: SubroutineName,
    parts: Parts,
) -> Result<Judged<StatementForm>, NoMemory>
    ensures breaks { IfOk result (λ j. j.breaks.items ≡ (called_as (spec.rule_of (subroutine_name subroutine)) (parts_seen parts)).breaks) }
    ensures meaning { IfOk result (λ j. option_map statement_form j.meaning ≡ (called_as (spec.rule_of (subroutine_name subroutine)) (parts_seen parts)).meaning) }
{
    let mut parts = parts;
    let order = parts.order;
    let mut breaks = Vec::new(alloc);
    let form = form_of(alloc, &mut breaks, subroutine, &mut parts)?;
    Ok(Judged {
        breaks,
        meaning: form::call_of(form, order),
    })
}

/// A call of this subroutine, whose name stands at this place: rule 59 for the binding of its arguments, and the rules
/// of each of them.
#[tactic(auto, using(crate::proofs::Calls::call_found))]
pub fn intrinsic_call(
    alloc: Global,
    subroutine: SubroutineName,
    actuals: Vec<Actual>,
    at: Pos,
) -> Result<Judged<StatementForm>, NoMemory>
    ensures breaks { IfOk result (λ j. j.breaks.items ≡ (rules.intrinsic_call (subroutine_name subroutine) (map actual_seen actuals.items) at).breaks) }
    ensures meaning { IfOk result (λ j. option_map statement_form j.meaning ≡ (rules.intrinsic_call (subroutine_name subroutine) (map actual_seen actuals.items) at).meaning) }
{
    let dummies = dummies_of(alloc, subroutine)?;
    match find_arguments(alloc, dummies.as_slice(), actuals, at)? {
        Found::Refused(breaks) => Ok(Judged {
            breaks,
            meaning: None,
        }),
        Found::Bound(parts) => bound_call(alloc, subroutine, parts),
    }
}
