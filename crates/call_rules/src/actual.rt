//! Actual arguments of the program's procedures (15.5.2): rules 45 and 46.

ghost use Rattle.std.specs.Prelude.{◌≡◌, ◌++◌, ◌&&◌, ◌||◌, IfOk, false, length, map, nat_le, not};
ghost use Rattle.std.specs.Option.{option_map};
ghost use Rattle.checked_tree.specs.ExpressionViews.{argument, arguments as arguments_seen, expression};
ghost use Rattle.rule_definitions.specs.Arguments as rules;
ghost use Rattle.rule_definitions.specs.Judgements.{all_made, is_nothing, under, unless};
ghost use Rattle.rule_definitions.specs.Names.{intent_is_in, is_declared_role};
ghost use Rattle.scope_table.specs.Symbols.{role as role_seen, symbol};
ghost use Rattle.part_rules.specs.Brackets.{actual_seen};
ghost use Rattle.part_rules.specs.Views.{judgement, list_of, placed};
ghost use Rattle.call_rules.specs.Pairs.{are_over, argument_as, argument_behind, argument_list, dummies_behind, surplus_argument};

use crate::binding::{breaks_in, is_written};
use caf_base::place::Pos;
use caf_base::refusal::NoMemory;
use checked_tree::data::Object;
use checked_tree::expr::{Argument, ExprForm, TypedExpr};
use constant_values::value::extents_agree;
use fortran_tree::declaration::Intent;
use part_rules::bracket::{Actual, Item};
use part_rules::judged::{Judged, are_none, fine, keep, refused, ruled};
use part_rules::part::{Part, is_plain, plain};
use part_rules::types::is_same_type;
use rule_definitions::rule;
use scope_table::scope::Scope;
use scope_table::symbol::{Role, Symbol};
use std::alloc::Global;

/// Whether nothing is broken in the expression of an argument; the parts of a triplet aren't judged.
pub fn is_sound(actual: &Actual) -> bool
    ensures { result ≡ is_nothing (rules.breaks_in (actual_seen actual.now)) }
{
    match &actual.item {
        Item::Value(part) => is_plain(part),
        Item::Triplet(_) => true,
    }
}

/// Whether nothing is broken in the expressions of these arguments.
#[tactic(auto, using(part_rules::proofs::Nothing::nothing_in_both))]
pub fn are_sound(actuals: &[Actual]) -> bool
    ensures { result ≡ is_nothing (rules.breaks_in_all (map actual_seen actuals.now)) }
{
    for actual in actuals {
        if !is_sound(actual) {
            return false;
        }
    }
    true
}

/// Whether a value has the type and kind of a dummy; nothing is said where the dummy's type was refused.
fn matches_type(dummy: &Symbol, value: &TypedExpr) -> bool
    ensures { result ≡ rules.matches_type (symbol dummy.now).of_type (expression value.now) }
{
    match dummy.of_type {
        Some(of_type) => is_same_type(of_type, value.of_type),
        None => true,
    }
}

/// Whether the rank of a variable in this role is known.
fn is_declared(role: Role) -> bool
    ensures { result ≡ is_declared_role (role_seen role) }
{
    match role {
        Role::UndeclaredDummy => false,
        Role::Plain | Role::Dummy(_) | Role::FunctionResult => true,
    }
}

/// Whether a value has the rank of a dummy and its extents, as far as these are known.
fn matches_shape(
    alloc: Global,
    scope: &Scope<'_>,
    dummy: &Symbol,
    value: &TypedExpr,
) -> Result<bool, NoMemory>
    ensures { IfOk result (λ h. h ≡ rules.matches_shape scope.now (symbol dummy.now) (expression value.now)) }
{
    if !is_declared(dummy.role) {
        return Ok(true);
    }
    if dummy.bounds.len() != value.rank as usize {
        return Ok(false);
    }
    extents_agree(alloc, scope, dummy.bounds.as_slice(), value)
}

/// Whether a value has the type, kind, rank and extents of a dummy.
fn matches_dummy(
    alloc: Global,
    scope: &Scope<'_>,
    dummy: &Symbol,
    value: &TypedExpr,
) -> Result<bool, NoMemory>
    ensures { IfOk result (λ h. h ≡ (rules.matches_type (symbol dummy.now).of_type (expression value.now) && rules.matches_shape scope.now (symbol dummy.now) (expression value.now))) }
{
    if !matches_type(dummy, value) {
        return Ok(false);
    }
    matches_shape(alloc, scope, dummy, value)
}

/// Whether a variable in this role has the intent IN.
fn has_intent_in(role: Role) -> bool
    ensures { result ≡ intent_is_in (role_seen role) }
{
    match role {
        Role::Dummy(Some(Intent::In)) => true,
        Role::Dummy(Some(Intent::Out | Intent::InOut) | None)
        | Role::Plain
        | Role::UndeclaredDummy
        | Role::FunctionResult => false,
    }
}

/// Whether a dummy is given a value: it has the intent IN, and its type is known.
pub fn takes_value(dummy: &Symbol) -> bool
    ensures { result ≡ rules.takes_value (symbol dummy.now) }
{
    match dummy.of_type {
        Some(_) => has_intent_in(dummy.role),
        None => false,
    }
}

/// Whether a value is a local variable or a part of one.
#[tactic(auto, using(crate::proofs::Values::variable_laws))]
fn is_local_variable(value: &TypedExpr) -> bool
    ensures { result ≡ rules.is_local_variable (expression value.now) }
{
    match &value.form {
        ExprForm::Designator(designator) => match designator.object {
            Object::Local(_) => true,
            Object::Coarray(_) | Object::Constant(_) => false,
        },
        ExprForm::Number(_)
        | ExprForm::Logical(_)
        | ExprForm::Call { .. }
        | ExprForm::Intrinsic(_)
        | ExprForm::Parenthesized(_)
        | ExprForm::ArrayConstructor(_)
        | ExprForm::Plus(_)
        | ExprForm::Minus(_)
        | ExprForm::Not(_)
        | ExprForm::Arithmetic { .. }
        | ExprForm::Relation { .. }
        | ExprForm::Logic { .. } => false,
    }
}

/// Whether an argument may stand for a dummy: a variable where the dummy may define it.
fn may_stand(dummy: &Symbol, value: &TypedExpr) -> bool
    ensures { result ≡ (rules.takes_value (symbol dummy.now) || rules.is_local_variable (expression value.now)) }
{
    takes_value(dummy) || is_local_variable(value)
}

/// A value for a dummy at this place: rule 45 where it doesn't match, rule 46 where the dummy may define it and it is
/// no variable.
fn matched(
    alloc: Global,
    scope: &Scope<'_>,
    dummy: &Symbol,
    value: Judged<TypedExpr>,
    at: Pos,
) -> Result<Judged<TypedExpr>, NoMemory>
    ensures breaks { IfOk result (λ j. j.breaks.items ≡ (under (judgement expression value) (λ x. rules.matching_breaks scope.now (symbol dummy.now) at x ++ rules.defined_breaks (symbol dummy.now) at x)).breaks) }
    ensures meaning { IfOk result (λ j. option_map expression j.meaning ≡ (under (judgement expression value) (λ x. rules.matching_breaks scope.now (symbol dummy.now) at x ++ rules.defined_breaks (symbol dummy.now) at x)).meaning) }
{
    let Some(found) = &value.meaning else {
        return Ok(value);
    };
    let matches = matches_dummy(alloc, scope, dummy, found)?;
    let may_stand = may_stand(dummy, found);
    let value = ruled(value, matches, rule::ARGUMENT, at)?;
    ruled(value, may_stand, rule::OUT_ARGUMENT, at)
}

/// The argument that a value is for a dummy: a variable where the dummy may define it.
#[tactic(auto, using(checked_tree::specs::ExpressionViews::typed_forms))]
fn argument_for(takes_value: bool, value: TypedExpr) -> Argument
    ensures { argument result ≡ argument_as takes_value (expression value) }
{
    if takes_value {
        return Argument::Value(value);
    }
    let of_type = value.of_type;
    let rank = value.rank;
    match value.into_form() {
        ExprForm::Designator(designator) => Argument::Variable(designator),
        form => Argument::Value(TypedExpr {
            form,
            of_type,
            rank,
        }),
    }
}

/// A value for a dummy.
#[tactic(auto, using(crate::proofs::Pairs::argument_is))]
fn value_paired(
    alloc: Global,
    scope: &Scope<'_>,
    dummy: &Symbol,
    part: Part,
) -> Result<Judged<Argument>, NoMemory>
    ensures breaks { IfOk result (λ j. j.breaks.items ≡ (rules.value_paired scope.now (symbol dummy.now) (placed part)).breaks) }
    ensures meaning { IfOk result (λ j. option_map argument j.meaning ≡ (rules.value_paired scope.now (symbol dummy.now) (placed part)).meaning) }
{
    let at = part.at;
    let value = plain(part)?;
    let Judged { breaks, meaning } = matched(alloc, scope, dummy, value, at)?;
    let meaning = match meaning {
        Some(value) => Some(argument_for(takes_value(dummy), value)),
        None => None,
    };
    Ok(Judged { breaks, meaning })
}

/// An expression for a dummy: rule 46 for the bare name of a procedure where the dummy may define it.
fn paired_value(
    alloc: Global,
    scope: &Scope<'_>,
    dummy: &Symbol,
    part: Part,
) -> Result<Judged<Argument>, NoMemory>
    ensures breaks { IfOk result (λ j. j.breaks.items ≡ (rules.paired_value scope.now (symbol dummy.now) (placed part)).breaks) }
    ensures meaning { IfOk result (λ j. option_map argument j.meaning ≡ (rules.paired_value scope.now (symbol dummy.now) (placed part)).meaning) }
{
    if part.is_procedure && !takes_value(dummy) {
        let at = part.at;
        drop(part);
        return refused(alloc, rule::OUT_ARGUMENT, at);
    }
    value_paired(alloc, scope, dummy, part)
}

/// What stands for a dummy: rule 45 for a triplet.
fn paired_part(
    alloc: Global,
    scope: &Scope<'_>,
    dummy: &Symbol,
    actual: Actual,
) -> Result<Judged<Argument>, NoMemory>
    ensures breaks { IfOk result (λ j. j.breaks.items ≡ (rules.paired_part scope.now (symbol dummy.now) (actual_seen actual)).breaks) }
    ensures meaning { IfOk result (λ j. option_map argument j.meaning ≡ (rules.paired_part scope.now (symbol dummy.now) (actual_seen actual)).meaning) }
{
    let Actual { at, item, .. } = actual;
    match item {
        Item::Value(part) => paired_value(alloc, scope, dummy, part),
        Item::Triplet(judged) => {
            drop(judged);
            refused(alloc, rule::ARGUMENT, at)
        }
    }
}

/// Whether an argument has no keyword, where nothing is broken in it.
fn stands_by_place(actual: &Actual) -> bool
    ensures { rules.keyword_breaks (actual_seen actual.now) ≡ unless result 45 (actual_seen actual.now).at }
{
    if is_sound(actual) {
        !is_written(&actual.keyword)
    } else {
        true
    }
}

/// An argument for a dummy: rule 45 for a keyword.
fn paired(
    alloc: Global,
    scope: &Scope<'_>,
    dummy: &Symbol,
    actual: Actual,
) -> Result<Judged<Argument>, NoMemory>
    ensures breaks { IfOk result (λ j. j.breaks.items ≡ (rules.paired scope.now (symbol dummy.now) (actual_seen actual)).breaks) }
    ensures meaning { IfOk result (λ j. option_map argument j.meaning ≡ (rules.paired scope.now (symbol dummy.now) (actual_seen actual)).meaning) }
{
    let holds = stands_by_place(&actual);
    let at = actual.at;
    let judged = paired_part(alloc, scope, dummy, actual)?;
    ruled(judged, holds, rule::ARGUMENT, at)
}

/// An argument without a dummy: rule 45 for the first of them.
fn surplus(alloc: Global, over: bool, actual: Actual) -> Result<Judged<Argument>, NoMemory>
    ensures breaks { IfOk result (λ j. j.breaks.items ≡ (surplus_argument over (actual_seen actual)).breaks) }
    ensures meaning { IfOk result (λ j. option_map argument j.meaning ≡ (surplus_argument over (actual_seen actual)).meaning) }
{
    let at = actual.at;
    let breaks = breaks_in(alloc, actual)?;
    if over {
        return Ok(Judged {
            breaks,
            meaning: None,
        });
    }
    if are_none(breaks.as_slice()) {
        return refused(alloc, rule::ARGUMENT, at);
    }
    Ok(Judged {
        breaks,
        meaning: None,
    })
}

/// An argument, where these dummies are left: `over` says whether one without a dummy stands before it.
fn next_argument(
    alloc: Global,
    scope: &Scope<'_>,
    dummies: &[Symbol],
    over: bool,
    actual: Actual,
) -> Result<Judged<Argument>, NoMemory>
    ensures breaks { IfOk result (λ j. j.breaks.items ≡ (argument_behind scope.now (map symbol dummies.now) over (actual_seen actual)).breaks) }
    ensures meaning { IfOk result (λ j. option_map argument j.meaning ≡ (argument_behind scope.now (map symbol dummies.now) over (actual_seen actual)).meaning) }
{
    match dummies {
        [dummy, ..] => paired(alloc, scope, dummy, actual),
        [] => surplus(alloc, over, actual),
    }
}

/// The dummies behind the first one.
fn behind_first(dummies: &[Symbol]) -> &[Symbol]
    ensures { map symbol result.now ≡ dummies_behind (map symbol dummies.now) }
{
    match dummies {
        [_, rest @ ..] => rest,
        [] => dummies,
    }
}

/// Whether no dummy is left.
fn is_over(dummies: &[Symbol]) -> bool
    ensures { result ≡ are_over (map symbol dummies.now) }
{
    match dummies {
        [_, ..] => false,
        [] => true,
    }
}

/// The arguments for these dummies, one by one.
fn paired_all(
    alloc: Global,
    scope: &Scope<'_>,
    dummies: &[Symbol],
    actuals: Vec<Actual>,
) -> Result<Judged<Vec<Argument>>, NoMemory>
    ensures breaks { IfOk result (λ j. j.breaks.items ≡ (all_made (argument_list scope.now (map symbol dummies.now) false (map actual_seen actuals.items))).breaks) }
    ensures meaning { IfOk result (λ j. option_map (map argument) (option_map list_of j.meaning) ≡ (all_made (argument_list scope.now (map symbol dummies.now) false (map actual_seen actuals.items))).meaning) }
{
    let mut left = dummies;
    let mut over = false;
    let mut list = fine(alloc, Vec::new(alloc));
    for actual in actuals {
        let value = next_argument(alloc, scope, left, over, actual)?;
        keep(&mut list, value)?;
        over = is_over(left);
        left = behind_first(left);
    }
    Ok(list)
}

/// Whether there are as many arguments as dummies, where nothing is broken in them.
fn are_enough(dummies: &[Symbol], actuals: &[Actual]) -> bool
    ensures { result ≡ (not (is_nothing (rules.breaks_in_all (map actual_seen actuals.now))) || nat_le (length (map symbol dummies.now)) (length (map actual_seen actuals.now))) }
{
    !are_sound(actuals) || dummies.len() <= actuals.len()
}

/// The arguments of a procedure with these dummies, whose name stands at this place.
#[tactic(auto, using(crate::proofs::Pairs::paired_breaks, crate::proofs::Pairs::paired_meaning, crate::proofs::Pairs::listed_arguments, crate::proofs::Pairs::number_said))]
pub fn arguments(
    alloc: Global,
    scope: &Scope<'_>,
    dummies: &[Symbol],
    actuals: Vec<Actual>,
    at: Pos,
) -> Result<Judged<Vec<Argument>>, NoMemory>
    ensures breaks { IfOk result (λ j. j.breaks.items ≡ (rules.arguments scope.now (map symbol dummies.now) (map actual_seen actuals.items) at).breaks) }
    ensures meaning { IfOk result (λ j. option_map (λ v. arguments_seen v.items) j.meaning ≡ (rules.arguments scope.now (map symbol dummies.now) (map actual_seen actuals.items) at).meaning) }
{
    let holds = are_enough(dummies, actuals.as_slice());
    let list = paired_all(alloc, scope, dummies, actuals)?;
    ruled(list, holds, rule::ARGUMENT, at)
}
