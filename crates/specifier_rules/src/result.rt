//! Result variables (9.7.4, 11.6.11, 16.9): rule 36.

ghost use Rattle.std.specs.Prelude.{◌≡◌, ◌++◌, IfOk, OnOk, map};
ghost use Rattle.std.specs.List.{flat_map};
ghost use Rattle.std.specs.Option.{option_map};
ghost use Rattle.checked_tree.specs.Expressions as t;
ghost use Rattle.checked_tree.specs.ExpressionViews.{designator as designator_seen, expression, result_variable as result_seen, subscript as subscript_seen};
ghost use Rattle.checked_tree.specs.declared.data.DataType.TheVariants.{Intrinsic};
ghost use Rattle.rule_definitions.specs.Judgements.{then};
ghost use Rattle.rule_definitions.specs.Parts as rules;
ghost use Rattle.part_rules.specs.Views.{judgement, placed};
ghost use Rattle.specifier_rules.specs.Variables.{single, single_seen};

use crate::variable::{designator_in, missing};
use caf_base::place::Pos;
use caf_base::refusal::NoMemory;
use caf_base::value::Kind;
use checked_tree::data::{DataType, Object};
use checked_tree::expr::{Designator, ResultVariable, Subscript, TypedExpr};
use part_rules::judged::{Judged, refused};
use part_rules::part::{Part, plain};
use part_rules::types::takes;
use rule_definitions::rule;
use rule_definitions::taken::Taken;
use std::alloc::Global;

/// Puts the expression of a subscript that is a single element behind the others.
#[tactic(auto, using(checked_tree::specs::ExpressionViews::typed_forms, crate::proofs::Elements::one_more, crate::proofs::Elements::none_more))]
fn add_element(elements: &mut Vec<TypedExpr>, subscript: Subscript) -> Result<(), NoMemory>
    ensures { OnOk result (map expression elements.new.items ≡ map expression elements.old.items ++ single (subscript_seen subscript)) }
{
    match subscript {
        Subscript::Element(value) => {
            elements.push(value)?;
            Ok(())
        }
        Subscript::Triplet {
            lower,
            upper,
            stride,
        } => {
            drop(lower);
            drop(upper);
            drop(stride);
            Ok(())
        }
    }
}

/// The expressions of subscripts that are single elements.
fn elements(alloc: Global, subscripts: Vec<Subscript>) -> Result<Vec<TypedExpr>, NoMemory>
    ensures { IfOk result (λ v. map expression v.items ≡ flat_map single_seen subscripts.items) }
{
    let mut elements = Vec::new(alloc);
    for subscript in subscripts {
        add_element(&mut elements, subscript)?;
    }
    Ok(elements)
}

/// A local variable or a part of it without an image selector.
#[tactic(auto, using(checked_tree::specs::ExpressionViews::typed_forms, checked_tree::specs::ExpressionViews::typed_made, crate::proofs::Elements::elements_laws))]
fn local_part(
    alloc: Global,
    designator: Designator,
    kind: Kind,
) -> Result<Option<ResultVariable>, NoMemory>
    ensures { IfOk result (λ o. option_map result_seen o ≡ rules.result_form (t.designator (designator_seen designator)) (Intrinsic kind)) }
{
    let Designator {
        object,
        subscripts,
        selector,
    } = designator;
    let has_selector = selector.is_some();
    drop(selector);
    if has_selector {
        drop(subscripts);
        return Ok(None);
    }
    let Object::Local(variable) = object else {
        drop(subscripts);
        return Ok(None);
    };
    let subscripts = elements(alloc, subscripts)?;
    Ok(Some(ResultVariable {
        variable,
        subscripts,
        kind,
    }))
}

/// A scalar local variable of a type that is wanted (9.7.4, 11.6.11, 16.9), where an expression is one.
#[tactic(auto, using(crate::proofs::Forms::result_by_designator))]
fn result_of(
    alloc: Global,
    wanted: Taken,
    value: TypedExpr,
) -> Result<Option<ResultVariable>, NoMemory>
    ensures { IfOk result (λ o. option_map result_seen o ≡ rules.result_of wanted (expression value)) }
{
    if value.rank != 0 || !takes(wanted, value.of_type) {
        drop(value);
        return Ok(None);
    }
    let of_type = value.of_type;
    let designator = designator_in(value.into_form());
    let DataType::Intrinsic(kind) = of_type else {
        drop(designator);
        return Ok(None);
    };
    match designator {
        Some(designator) => local_part(alloc, designator, kind),
        None => Ok(None),
    }
}

/// A part that is to be a result variable: rule 36 where it is none.
fn result_found(
    alloc: Global,
    wanted: Taken,
    part: Judged<TypedExpr>,
    at: Pos,
) -> Result<Judged<ResultVariable>, NoMemory>
    ensures breaks { IfOk result (λ j. j.breaks.items ≡ (then (judgement expression part) (λ x. rules.result_judged (rules.result_of wanted x) at)).breaks) }
    ensures meaning { IfOk result (λ j. option_map result_seen j.meaning ≡ (then (judgement expression part) (λ x. rules.result_judged (rules.result_of wanted x) at)).meaning) }
{
    let Judged { breaks, meaning } = part;
    let Some(value) = meaning else {
        return Ok(Judged {
            breaks,
            meaning: None,
        });
    };
    match result_of(alloc, wanted, value)? {
        Some(variable) => Ok(Judged {
            breaks,
            meaning: Some(variable),
        }),
        None => missing(breaks, rule::RESULT_VARIABLE, at),
    }
}

/// A scalar local variable of a type that is wanted, to be set: rule 36 for anything else.
pub fn result_variable(
    alloc: Global,
    wanted: Taken,
    part: Part,
) -> Result<Judged<ResultVariable>, NoMemory>
    ensures breaks { IfOk result (λ j. j.breaks.items ≡ (rules.result_variable wanted (placed part)).breaks) }
    ensures meaning { IfOk result (λ j. option_map result_seen j.meaning ≡ (rules.result_variable wanted (placed part)).meaning) }
{
    let at = part.at;
    if part.is_procedure {
        drop(part);
        return refused(alloc, rule::RESULT_VARIABLE, at);
    }
    let value = plain(part)?;
    result_found(alloc, wanted, value, at)
}
