//! Arguments that are objects: allocatable variables and coarrays.

ghost use Rattle.std.specs.Prelude.{◌≡◌, ◌++◌, [], cond, IfOk, OnOk, map};
ghost use Rattle.std.specs.Option.{option_map};
ghost use Rattle.checked_tree.specs.Expressions as t;
ghost use Rattle.checked_tree.specs.ExpressionViews.{designator as designator_seen, expression, maybe_selector, subscripts as subscripts_seen};
ghost use Rattle.rule_definitions.specs.Arguments as arguments;
ghost use Rattle.rule_definitions.specs.IntrinsicFunctions as rules;
ghost use Rattle.rule_definitions.specs.Names.{symbol_of};
ghost use Rattle.rule_definitions.specs.Parts.{unlike_breaks};
ghost use Rattle.part_rules.specs.Views.{placed};
ghost use Rattle.call_rules.specs.Bindings.{binding_seen, without};
ghost use Rattle.call_rules.specs.Views.{own_coarray, whole_object as whole_seen, whole_part};

use crate::argument::unlike;
use crate::binding::{Binding, take};
use caf_base::place::Pos;
use caf_base::refusal::NoMemory;
use checked_tree::data::{DataType, Object};
use checked_tree::expr::{Designator, ExprForm, Selector, Subscript, TypedExpr};
use part_rules::judged::{Judged, add_all};
use part_rules::part::{Part, plain};
use rule_definitions::broken::Broken;
use rule_definitions::rule;
use scope_table::scope::Scope;

/// The object of a designator with these subscripts and this selector, where it has neither.
#[tactic(auto, using(checked_tree::specs::ExpressionViews::typed_forms))]
fn bare(object: Object, subscripts: &[Subscript], selector: &Option<Selector>) -> Option<Object>
    ensures { result ≡ whole_part (t.part object (subscripts_seen subscripts.now) (maybe_selector selector.now)) }
{
    match subscripts {
        [] => match selector {
            Some(_) => None,
            None => Some(object),
        },
        [_, ..] => None,
    }
}

/// The object that a designator is as a whole.
#[tactic(auto, using(checked_tree::specs::ExpressionViews::typed_forms))]
fn whole_of(designator: &Designator) -> Option<Object>
    ensures { result ≡ whole_part (designator_seen designator.now) }
{
    bare(
        designator.object,
        designator.subscripts.as_slice(),
        &designator.selector,
    )
}

/// The object that a value is as a whole: without subscripts and selector.
#[tactic(auto, using(crate::proofs::Objects::object_laws))]
fn whole_object(value: &TypedExpr) -> Option<Object>
    ensures { result ≡ whole_seen (expression value.now) }
{
    match &value.form {
        ExprForm::Designator(designator) => whole_of(designator),
        ExprForm::Number(_)
        | ExprForm::Logical(_)
        | ExprForm::Call { .. }
        | ExprForm::Intrinsic(_)
        | ExprForm::Parenthesized(_)
        | ExprForm::ArrayConstructor(_)
        | ExprForm::Plus(_)
        | ExprForm::Minus(_)
        | ExprForm::Not(_)
        | ExprForm::Arithmetic { .. }
        | ExprForm::Relation { .. }
        | ExprForm::Logic { .. } => None,
    }
}

/// The coarray that a designator without a selector is or is a part of.
#[tactic(auto, using(checked_tree::specs::ExpressionViews::typed_forms))]
fn coarray_in(designator: &Designator) -> Option<u32>
    ensures { result ≡ own_coarray (designator_seen designator.now) }
{
    match designator.object {
        Object::Coarray(number) => match &designator.selector {
            Some(_) => None,
            None => Some(number),
        },
        Object::Local(_) | Object::Constant(_) => None,
    }
}

/// The coarray that a value without a selector is or is a part of.
#[tactic(auto, using(crate::proofs::Objects::coarray_laws))]
fn coarray_of(value: &TypedExpr) -> Option<u32>
    ensures { result ≡ rules.coarray_of (expression value.now) }
{
    match &value.form {
        ExprForm::Designator(designator) => coarray_in(designator),
        ExprForm::Number(_)
        | ExprForm::Logical(_)
        | ExprForm::Call { .. }
        | ExprForm::Intrinsic(_)
        | ExprForm::Parenthesized(_)
        | ExprForm::ArrayConstructor(_)
        | ExprForm::Plus(_)
        | ExprForm::Minus(_)
        | ExprForm::Not(_)
        | ExprForm::Arithmetic { .. }
        | ExprForm::Relation { .. }
        | ExprForm::Logic { .. } => None,
    }
}

/// Whether an object is allocatable.
#[tactic(auto, using(crate::proofs::Objects::allocatable_seen))]
fn is_allocatable(scope: &Scope<'_>, object: Object) -> bool
    ensures { result ≡ rules.is_allocatable_symbol (symbol_of scope.now object) }
{
    match scope.symbol_of(object) {
        Some(found) => found.symbol.is_allocatable,
        None => false,
    }
}

/// The allocatable variable that a value is as a whole.
#[tactic(auto, using(crate::proofs::Objects::allocatable_is))]
fn allocatable_of(scope: &Scope<'_>, value: &TypedExpr) -> Option<Object>
    ensures { result ≡ rules.allocatable_of scope.now (expression value.now) }
{
    let Some(object) = whole_object(value) else {
        return None;
    };
    if is_allocatable(scope, object) {
        Some(object)
    } else {
        None
    }
}

/// Notes that a value of this type isn't what is wanted, unless it is.
fn note_found(
    breaks: &mut Vec<Broken>,
    is_found: bool,
    of_type: DataType,
    at: Pos,
) -> Result<(), NoMemory>
    ensures { OnOk result (breaks.new.items ≡ breaks.old.items ++ cond is_found [] (unlike_breaks 59 of_type at)) }
{
    if !is_found {
        let rule = unlike(rule::INTRINSIC_ARGUMENT, of_type);
        breaks.push(Broken { rule, at })?;
    }
    Ok(())
}

/// An allocatable variable as a whole (16.9).
fn an_allocatable(scope: &Scope<'_>, part: Part) -> Result<Judged<Object>, NoMemory>
    ensures breaks { IfOk result (λ j. j.breaks.items ≡ (rules.an_allocatable scope.now (placed part)).breaks) }
    ensures meaning { IfOk result (λ j. j.meaning ≡ (rules.an_allocatable scope.now (placed part)).meaning) }
{
    let at = part.at;
    let Judged {
        mut breaks,
        meaning,
    } = plain(part)?;
    let Some(value) = meaning else {
        return Ok(Judged {
            breaks,
            meaning: None,
        });
    };
    let found = allocatable_of(scope, &value);
    let of_type = value.of_type;
    drop(value);
    note_found(&mut breaks, found.is_some(), of_type, at)?;
    Ok(Judged {
        breaks,
        meaning: found,
    })
}

/// A coarray or a part of one, without an image selector.
fn a_coarray(part: Part) -> Result<Judged<u32>, NoMemory>
    ensures breaks { IfOk result (λ j. j.breaks.items ≡ (rules.a_coarray (placed part)).breaks) }
    ensures meaning { IfOk result (λ j. j.meaning ≡ (rules.a_coarray (placed part)).meaning) }
{
    let at = part.at;
    let Judged {
        mut breaks,
        meaning,
    } = plain(part)?;
    let Some(value) = meaning else {
        return Ok(Judged {
            breaks,
            meaning: None,
        });
    };
    let found = coarray_of(&value);
    let of_type = value.of_type;
    drop(value);
    note_found(&mut breaks, found.is_some(), of_type, at)?;
    Ok(Judged {
        breaks,
        meaning: found,
    })
}

/// The allocatable variable of the first dummy.
pub fn allocatable_at(
    scope: &Scope<'_>,
    breaks: &mut Vec<Broken>,
    bindings: &mut Vec<Binding>,
) -> Result<Option<Object>, NoMemory>
    ensures breaks { OnOk result (breaks.new.items ≡ breaks.old.items ++ (arguments.given_to (map binding_seen bindings.old.items) 0 (rules.an_allocatable scope.now)).breaks) }
    ensures meaning { IfOk result (λ o. o ≡ (arguments.given_to (map binding_seen bindings.old.items) 0 (rules.an_allocatable scope.now)).meaning) }
{
    let Some(part) = take(bindings, 0) else {
        return Ok(None);
    };
    let Judged {
        breaks: own,
        meaning,
    } = an_allocatable(scope, part)?;
    add_all(breaks, own)?;
    Ok(meaning)
}

/// The coarray of the first dummy.
pub fn coarray_at(
    breaks: &mut Vec<Broken>,
    bindings: &mut Vec<Binding>,
) -> Result<Option<u32>, NoMemory>
    ensures breaks { OnOk result (breaks.new.items ≡ breaks.old.items ++ (arguments.given_to (map binding_seen bindings.old.items) 0 rules.a_coarray).breaks) }
    ensures meaning { IfOk result (λ o. o ≡ (arguments.given_to (map binding_seen bindings.old.items) 0 rules.a_coarray).meaning) }
    ensures others { OnOk result (map binding_seen bindings.new.items ≡ without (map binding_seen bindings.old.items) 0) }
{
    let Some(part) = take(bindings, 0) else {
        return Ok(None);
    };
    let Judged {
        breaks: own,
        meaning,
    } = a_coarray(part)?;
    add_all(breaks, own)?;
    Ok(meaning)
}
