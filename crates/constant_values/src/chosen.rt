//! The subscripts that a subscript or triplet of a constant array stands for (ISO/IEC 1539-1:2018, 9.5.3.3), where they
//! are known.

ghost use Rattle.std.specs.Prelude.{◌≡◌, IfOk, pos, false, cond, Some, None, ◌+ℤ◌};
ghost use Rattle.std.specs.Ordering.{int_eq};
ghost use Rattle.caf_base.specs.declared.value.Value.TheVariants.{Int};
ghost use Rattle.rule_definitions.specs.Constants as rules;
ghost use Rattle.constant_values.specs.Views.{subscript};
ghost use Rattle.constant_values.specs.Selections.{chosen};

use crate::arithmetic::{is_zero, sum, wide};
use crate::bounds::{short_extent, triplet_size};
use crate::part::{Section, part_or};
use caf_base::refusal::NoMemory;
use std::alloc::Global;

/// The subscripts of a dimension.
#[derive(Drop)]
pub(crate) enum Chosen {
    One(i64),
    Several(Vec<i64>),
    /// They aren't known, or one is out of bounds.
    Never,
}

/// The subscripts of a dimension with these bounds.
pub(crate) fn choose(
    alloc: Global,
    bounds: &(i64, i64),
    section: Section,
) -> Result<Chosen, NoMemory>
    ensures { IfOk result (λ c. chosen c ≡ rules.chosen bounds.now (subscript section)) }
{
    let (lower, upper) = *bounds;
    match section {
        Section::Element(Some(number)) => Ok(one(bounds, number)),
        Section::Element(None) => Ok(Chosen::Never),
        Section::Triplet {
            lower: first,
            upper: last,
            stride,
        } => match (
            part_or(first, lower),
            part_or(last, upper),
            part_or(stride, 1),
        ) {
            (Some(first), Some(last), Some(stride)) => several(alloc, bounds, first, last, stride),
            (_, _, _) => Ok(Chosen::Never),
        },
    }
}

// Whether a subscript lies within its bounds.
fn is_inside(bounds: &(i64, i64), number: i64) -> bool
    ensures { result ≡ rules.is_inside bounds.now number }
{
    let (lower, upper) = *bounds;
    lower <= number && number <= upper
}

// A subscript.
fn one(bounds: &(i64, i64), number: i64) -> Chosen
    ensures { chosen result ≡ rules.one_chosen bounds.now (rules.value (Int number)) }
{
    if is_inside(bounds, number) {
        Chosen::One(number)
    } else {
        Chosen::Never
    }
}

// The subscripts of a triplet; one with more of them than its dimension has is out of bounds.
fn several(
    alloc: Global,
    bounds: &(i64, i64),
    lower: i64,
    upper: i64,
    stride: i64,
) -> Result<Chosen, NoMemory>
    ensures { IfOk result (λ c. chosen c ≡ rules.several_chosen bounds.now lower upper stride) }
{
    if is_zero(stride) {
        return Ok(Chosen::Never);
    }
    let count = triplet_size(lower, upper, stride);
    if short_extent(bounds) < count {
        return Ok(Chosen::Never);
    }
    row(alloc, bounds, lower, count, stride)
}

// So many subscripts from a first one on, if all are within the bounds.
fn row(
    alloc: Global,
    bounds: &(i64, i64),
    first: i64,
    count: u128,
    stride: i64,
) -> Result<Chosen, NoMemory>
    ensures { IfOk result (λ c. chosen c ≡ rules.row_chosen bounds.now (rules.row count stride first)) }
{
    let mut subscripts = Vec::new(alloc);
    let mut at = wide(first);
    for i in 0..count {
        let Some(subscript) = inside(bounds, at) else {
            drop(subscripts);
            return Ok(Chosen::Never);
        };
        subscripts.push(subscript)?;
        at = after(subscript, stride);
    }
    Ok(Chosen::Several(subscripts))
}

// The number behind a subscript.
fn after(subscript: i64, stride: i64) -> i128
    ensures { result ≡ subscript +ℤ stride }
{
    sum(wide(subscript), wide(stride))
}

// A number as a subscript, if it is within the bounds.
fn inside(bounds: &(i64, i64), number: i128) -> Option<i64>
    ensures { result ≡ cond (rules.is_inside bounds.now number) (Some number) None }
{
    let (lower, upper) = *bounds;
    if wide(lower) <= number && number <= wide(upper) {
        Some(number as i64)
    } else {
        None
    }
}
