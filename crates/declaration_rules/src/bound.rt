//! Bounds and cobounds.

ghost use Rattle.std.specs.Prelude.{◌≡◌};
ghost use Rattle.std.specs.Option.{option_map};
ghost use Rattle.rule_definitions.specs.Judgements.{first_of, is_nothing};
ghost use Rattle.declaration_rules.specs.Asked.{asked, worth};
ghost use Rattle.declaration_rules.specs.Bounds.{bound_of_worth, bound_asked, lower_asked, bounds_asked, cobounds_asked, asked_bounds, maybe_asked};

use crate::asked::{Asked, Valued, constant_value};
use crate::kind::is_logical_type;
use caf_base::place::Pos;
use caf_base::value::{Kind, Value};
use constant_values::constancy::{Constancy, holds};
use rule_definitions::broken::Broken;
use rule_definitions::rule;
use scope_table::broken::note;

/// The bounds of a dimension: 1 where no lower one is written.
#[derive(Drop)]
pub struct AskedBounds {
    pub lower: Option<Asked>,
    pub upper: Asked,
}

// The bound that a value gives.
#[tactic(auto, using(scope_table::proofs::First::first_of_both))]
fn bound_of_value(first: &mut Option<Broken>, at: Pos, value: &Valued) -> Option<i64>
    ensures first { first.new ≡ first_of first.old (bound_of_worth at (worth value.now)).breaks }
    ensures bound { result ≡ (bound_of_worth at (worth value.now)).meaning }
{
    match &value.constancy {
        Constancy::Value(Value::Int(number)) => {
            if !holds(Kind::I4, *number) {
                note(first, rule::BOUND, at);
                return None;
            }
            Some(*number)
        }
        Constancy::Value(Value::Bool(_)) | Constancy::NoConstant => {
            note(first, rule::BOUND, at);
            None
        }
        Constancy::Values { .. } => {
            note(first, rule::ARRAY_FOR_SCALAR, at);
            if is_logical_type(value.of_type) {
                note(first, rule::BOUND, at);
            }
            None
        }
    }
}

/// A bound (ISO/IEC 1539-1:2018, 8.5.8.2).
#[tactic(auto, using(scope_table::proofs::First::first_of_both))]
pub fn bound(first: &mut Option<Broken>, expr: &Asked) -> Option<i64>
    ensures first { first.new ≡ first_of first.old (bound_asked (asked expr.now)).breaks }
    ensures bound { result ≡ (bound_asked (asked expr.now)).meaning }
{
    let value = constant_value(first, rule::BOUND, expr)?;
    bound_of_value(first, expr.at, value)
}

/// A lower bound: 1 where none is written.
pub fn lower_bound(first: &mut Option<Broken>, expr: &Option<Asked>) -> Option<i64>
    ensures first { first.new ≡ first_of first.old (lower_asked (maybe_asked expr.now)).breaks }
    ensures bound { result ≡ (lower_asked (maybe_asked expr.now)).meaning }
{
    match expr {
        Some(expr) => bound(first, expr),
        None => Some(1),
    }
}

/// The bounds of a dimension.
#[tactic(auto, using(scope_table::proofs::First::first_of_both))]
pub fn bounds(first: &mut Option<Broken>, written: &AskedBounds) -> Option<(i64, i64)>
    ensures first { first.new ≡ first_of first.old (bounds_asked (asked_bounds written.now)).breaks }
    ensures bounds { result ≡ (bounds_asked (asked_bounds written.now)).meaning }
{
    let lower = lower_bound(first, &written.lower);
    let upper = bound(first, &written.upper);
    Some((lower?, upper?))
}

/// The cobounds of a codimension but the last (8.5.6.3).
#[tactic(auto, using(scope_table::proofs::First::first_of_both))]
pub fn cobounds(first: &mut Option<Broken>, written: &AskedBounds) -> Option<(i64, i64)>
    ensures first { first.new ≡ first_of first.old (cobounds_asked (asked_bounds written.now)).breaks }
    ensures bounds { result ≡ (cobounds_asked (asked_bounds written.now)).meaning }
{
    let (lower, upper) = bounds(first, written)?;
    if upper < lower {
        note(first, rule::BOUND, written.upper.at);
        return None;
    }
    Some((lower, upper))
}
