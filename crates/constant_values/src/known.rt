//! What is known of an expression before the run: what it stands for, and the bounds of each dimension.

ghost use Rattle.std.specs.Prelude.{◌≡◌, [], IfOk, map};
ghost use Rattle.rule_definitions.specs.Constants as rules;
ghost use Rattle.rule_definitions.specs.Constants.{as_constant};
ghost use Rattle.constant_values.specs.Views.{constancy, known, as_scalar, as_truth, integer_of, truth_of};

use crate::bounds::{Bounds, from_one};
use crate::constancy::Constancy;
use caf_base::listing::Listing;
use caf_base::refusal::NoMemory;
use caf_base::value::Value;
use std::alloc::Global;

/// What is known of an expression: what it stands for, and its bounds, none of a scalar.
#[derive(Drop)]
pub(crate) struct Known {
    pub constancy: Constancy,
    pub bounds: Listing<Bounds>,
}

/// A scalar.
pub(crate) fn scalar(alloc: Global, value: Option<Value>) -> Known
    ensures { known result ≡ rules.scalar (as_scalar value) }
{
    let constancy = match value {
        Some(value) => Constancy::Value(value),
        None => Constancy::NoConstant,
    };
    Known {
        constancy,
        bounds: Listing::new(alloc),
    }
}

/// An integer scalar.
pub(crate) fn number(alloc: Global, number: Option<i64>) -> Known
    ensures { known result ≡ rules.scalar (as_constant number) }
{
    match number {
        Some(number) => scalar(alloc, Some(Value::Int(number))),
        None => scalar(alloc, None),
    }
}

/// A logical scalar.
pub(crate) fn truth(alloc: Global, truth: Option<bool>) -> Known
    ensures { known result ≡ rules.scalar (as_truth truth) }
{
    match truth {
        Some(truth) => scalar(alloc, Some(Value::Bool(truth))),
        None => scalar(alloc, None),
    }
}

/// An expression of which no bounds are known.
pub(crate) fn alone(alloc: Global, whole: Known) -> Known
    ensures { known result ≡ rules.scalar (constancy whole.constancy) }
{
    Known {
        constancy: whole.constancy,
        bounds: Listing::new(alloc),
    }
}

/// An expression in brackets: its lower bounds are 1.
pub(crate) fn as_value(alloc: Global, whole: Known) -> Result<Known, NoMemory>
    ensures { IfOk result (λ k. known k ≡ rules.as_value (known whole)) }
{
    let bounds = all_from_one(alloc, whole.bounds.as_slice())?;
    Ok(Known {
        constancy: whole.constancy,
        bounds,
    })
}

// Bounds with the same extents, from 1.
fn all_from_one(alloc: Global, bounds: &[Bounds]) -> Result<Listing<Bounds>, NoMemory>
    ensures { IfOk result (λ l. l ≡ map rules.from_one bounds.now) }
{
    let mut all = Listing::new(alloc);
    for dimension in bounds {
        all.push(from_one(*dimension)?)?;
    }
    Ok(all)
}

/// The integer that is known of an expression.
pub(crate) fn integer(whole: &Known) -> Option<i64>
    ensures { result ≡ integer_of (constancy whole.now.constancy) }
{
    match &whole.constancy {
        Constancy::Value(Value::Int(number)) => Some(*number),
        Constancy::Value(Value::Bool(_)) | Constancy::Values { .. } | Constancy::NoConstant => None,
    }
}

/// The logical that is known of an expression.
pub(crate) fn logical(whole: &Known) -> Option<bool>
    ensures { result ≡ truth_of (constancy whole.now.constancy) }
{
    match &whole.constancy {
        Constancy::Value(Value::Bool(truth)) => Some(*truth),
        Constancy::Value(Value::Int(_)) | Constancy::Values { .. } | Constancy::NoConstant => None,
    }
}
