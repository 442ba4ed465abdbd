//! The inquiries SIZE, LBOUND and UBOUND (ISO/IEC 1539-1:2018, 16.9.179, 16.9.109 and 16.9.196), as far as bounds are
//! known before the run.

ghost use Rattle.std.specs.Prelude.{◌≡◌};
ghost use Rattle.checked_tree.specs.ExpressionViews.{expression, form};
ghost use Rattle.rule_definitions.specs.Judgements.{made};
ghost use Rattle.rule_definitions.specs.Constants as rules;
ghost use Rattle.rule_definitions.specs.Constants.{as_constant};
ghost use Rattle.constant_values.specs.Sizes.{capped};
ghost use Rattle.constant_values.specs.Views.{known, of_number, part};
ghost use Rattle.constant_values.specs.Inquiries.{is_variable, is_variable_object};

use crate::arithmetic::in_type;
use crate::bounds::{Bounds, dimension_at, extent, shown_bounds, size};
use crate::constancy::is_constant;
use crate::known::Known;
use crate::part::Part;
use caf_base::listing::Listing;
use caf_base::value::Kind;
use checked_tree::data::{DataType, Object};
use checked_tree::expr::{ExprForm, TypedExpr};
use std::alloc::Global;

/// The bounds that an inquiry may use: those of a variable or of a constant expression (10.1.12).
#[tactic(auto, using(crate::proofs::Inquiries::inquired_is))]
pub(crate) fn inquired_bounds(alloc: Global, expr: &TypedExpr, whole: Known) -> Listing<Bounds>
    ensures { result ≡ rules.inquired_bounds (expression expr.now) (known whole) }
{
    if is_variable(&expr.form) {
        return whole.bounds;
    }
    if is_constant(&whole.constancy) {
        whole.bounds
    } else {
        Listing::new(alloc)
    }
}

// Whether an object isn't a named constant.
fn is_variable_object(object: Object) -> bool
    ensures { result ≡ is_variable_object object }
{
    match object {
        Object::Constant(_) => false,
        Object::Local(_) | Object::Coarray(_) => true,
    }
}

// Whether an expression is a variable.
#[tactic(auto, using(checked_tree::specs::ExpressionViews::typed_forms, checked_tree::specs::ExpressionViews::designator_is, crate::proofs::Inquiries::no_variable))]
fn is_variable(found: &ExprForm) -> bool
    ensures { result ≡ is_variable (form found.now) }
{
    match found {
        ExprForm::Designator(designator) => is_variable_object(designator.object),
        ExprForm::Number(_)
        | ExprForm::Logical(_)
        | ExprForm::Call { .. }
        | ExprForm::Intrinsic(_)
        | ExprForm::Parenthesized(_)
        | ExprForm::ArrayConstructor(_)
        | ExprForm::Plus(_)
        | ExprForm::Minus(_)
        | ExprForm::Not(_)
        | ExprForm::Arithmetic { .. }
        | ExprForm::Relation { .. }
        | ExprForm::Logic { .. } => false,
    }
}

/// SIZE, of the whole or of a dimension.
#[tactic(auto, using(crate::proofs::Sizes::size_capped))]
pub(crate) fn known_sizes(bounds: &[Bounds], dim: Part) -> Option<i64>
    ensures { as_constant result ≡ rules.known_sizes bounds.now (part dim) }
{
    if bounds.is_empty() {
        return None;
    }
    match dim {
        Part::Unwritten => size_constant(size(bounds)),
        Part::Written(Some(number)) => size_constant(known_extent(dimension_at(bounds, number))),
        Part::Written(None) => None,
    }
}

// An extent where the bounds are known; the greatest number of 128 bits stands for any above it.
pub(crate) fn known_extent(bounds: Bounds) -> Option<u128>
    ensures { result ≡ made capped (rules.known_extent bounds) }
{
    match bounds {
        Some(bounds) => Some(extent(bounds)),
        None => None,
    }
}

// A size, where it is a number of kind 4.
fn size_constant(size: Option<u128>) -> Option<i64>
    ensures { as_constant result ≡ rules.size_constant size }
{
    match size {
        Some(size) => {
            if size <= 2_147_483_647 {
                Some(size as i64)
            } else {
                None
            }
        }
        None => None,
    }
}

/// LBOUND of a dimension, where it is a number of kind 4.
pub(crate) fn lower_bound(bounds: &[Bounds], dim: Option<i64>) -> Option<i64>
    ensures { as_constant result ≡ of_number (λ n. rules.bound_constant (rules.lower_of (rules.shown_bounds (rules.dimension_at bounds.now n)))) dim }
{
    match shown_bounds(dimension_at(bounds, dim?)) {
        Some((lower, _)) => in_type(DataType::Intrinsic(Kind::I4), lower),
        None => None,
    }
}

/// UBOUND of a dimension, where it is a number of kind 4.
pub(crate) fn upper_bound(bounds: &[Bounds], dim: Option<i64>) -> Option<i64>
    ensures { as_constant result ≡ of_number (λ n. rules.bound_constant (rules.upper_of (rules.shown_bounds (rules.dimension_at bounds.now n)))) dim }
{
    match shown_bounds(dimension_at(bounds, dim?)) {
        Some((_, upper)) => in_type(DataType::Intrinsic(Kind::I4), upper),
        None => None,
    }
}
