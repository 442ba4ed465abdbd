//! Bounds of dimensions, as far as they are known before the run, and extents and sizes of them (ISO/IEC 1539-1:2018,
//! 5.4.6).

ghost use Rattle.std.specs.Prelude.{◌≡◌, ◌<◌, ◌^◌, ◌≤◌, IfOk, IfSome, pos, false, unsigned_abs, ◌-ℤ◌};
ghost use Rattle.std.specs.Ordering.{int_eq};
ghost use Rattle.coarray_types.specs.Places.{extent_of, size_of};
ghost use Rattle.rule_definitions.specs.Judgements.{made};
ghost use Rattle.rule_definitions.specs.Constants as rules;
ghost use Rattle.rule_definitions.specs.Constants.{as_constant, counted_from_one};
ghost use Rattle.constant_values.specs.Sizes.{capped, with_extent};

use crate::arithmetic::{divided, in_type, is_zero, sum, wide};
use caf_base::refusal::NoMemory;
use caf_base::value::Kind;
use checked_tree::data::DataType;
use scope_table::item::item;

/// The lower and the upper bound of a dimension, as far as they are known. The upper bound of a section or of an array
/// constructor may need more than 64 bits.
pub(crate) type Bounds = Option<(i128, i128)>;

/// An extent; the greatest number of 128 bits stands for any above it.
pub(crate) fn extent(bounds: (i128, i128)) -> u128
    ensures { result ≡ capped (extent_of bounds) }
{
    let (lower, upper) = bounds;
    if upper < lower {
        0
    } else {
        upper.abs_diff(lower).saturating_add(1)
    }
}

/// An extent between bounds of 64 bits.
pub(crate) fn short_extent(bounds: &(i64, i64)) -> u128
    ensures value { result ≡ extent_of bounds.now }
    ensures small { result ≤ 2 ^ 64 }
{
    let (lower, upper) = *bounds;
    if upper < lower {
        0
    } else {
        u128::from(upper.abs_diff(lower)) + 1
    }
}

/// The size of an array where all bounds are known; the greatest number of 128 bits stands for any above it.
#[tactic(auto, using(crate::proofs::Sizes::size_more))]
pub(crate) fn size(bounds: &[Bounds]) -> Option<u128>
    ensures { result ≡ made capped (rules.known_size bounds.now) }
{
    match bounds {
        [] => Some(1),
        [first, rest @ ..] => with_extent(*first, size(rest)),
    }
}

// The size with one dimension more.
fn with_extent(first: Bounds, others: Option<u128>) -> Option<u128>
    ensures { result ≡ with_extent first others }
{
    match (first, others) {
        (Some(first), Some(others)) => Some(extent(first).saturating_mul(others)),
        (_, _) => None,
    }
}

/// The size of an array; the greatest number of 128 bits stands for any above it.
#[tactic(auto, using(crate::proofs::Sizes::capped_product))]
pub(crate) fn array_size(dims: &[(i64, i64)]) -> u128
    ensures { result ≡ capped (size_of dims.now) }
{
    match dims {
        [] => 1,
        [first, rest @ ..] => short_extent(first).saturating_mul(array_size(rest)),
    }
}

/// The bounds of so many elements, from 1, where 128 bits can hold them.
pub(crate) fn counted(count: u128) -> Result<Bounds, NoMemory>
    ensures value { IfOk result (λ b. b ≡ counted_from_one count) }
    ensures small { IfOk result (λ b. count < 2 ^ 127) }
{
    match i128::try_from(count) {
        Ok(upper) => Ok(Some((1, upper))),
        Err(_) => Err(NoMemory),
    }
}

/// Bounds with the same extent, from 1.
#[tactic(auto, using(crate::proofs::Sizes::not_capped))]
pub(crate) fn from_one(bounds: Bounds) -> Result<Bounds, NoMemory>
    ensures { IfOk result (λ b. b ≡ rules.from_one bounds) }
{
    match bounds {
        Some(bounds) => counted(extent(bounds)),
        None => Ok(None),
    }
}

/// LBOUND is 1, and UBOUND 0, of a dimension without elements (16.9.109).
pub(crate) fn shown_bounds(bounds: Bounds) -> Bounds
    ensures { result ≡ rules.shown_bounds bounds }
{
    match bounds {
        Some((lower, upper)) => { if upper < lower { Some((1, 0)) } else { bounds } }
        None => None,
    }
}

/// The bounds of the dimension with this number, from 1.
#[tactic(auto, using(crate::proofs::Sizes::item_is))]
pub(crate) fn dimension_at(bounds: &[Bounds], number: i64) -> Bounds
    ensures { result ≡ rules.dimension_at bounds.now number }
{
    if number < 1 {
        return None;
    }
    match item(bounds, (number - 1) as usize) {
        Some(found) => *found,
        None => None,
    }
}

/// How many subscripts a triplet has.
pub(crate) fn triplet_size(lower: i64, upper: i64, stride: i64) -> u128
    requires { int_eq stride (pos 0) ≡ false }
    ensures value { result ≡ rules.triplet_size lower upper stride }
    ensures small { result ≤ 2 ^ 65 }
{
    let count = divided(sum(difference(upper, lower), wide(stride)), wide(stride));
    if count < 0 { 0 } else { count.unsigned_abs() }
}

// A difference.
fn difference(left: i64, right: i64) -> i128
    ensures value { result ≡ left -ℤ right }
    ensures small { unsigned_abs result ≤ 2 ^ 64 }
{
    i128::from(left) - i128::from(right)
}

/// The bounds of a section, where its triplet is known (9.5.3.3): 1 and its extent.
pub(crate) fn triplet_bounds(
    lower: Option<i64>,
    upper: Option<i64>,
    stride: Option<i64>,
) -> Result<Bounds, NoMemory>
    ensures { IfOk result (λ b. b ≡ rules.triplet_bounds lower upper stride) }
{
    match (lower, upper, stride) {
        (Some(lower), Some(upper), Some(stride)) => {
            if is_zero(stride) {
                Ok(None)
            } else {
                counted(triplet_size(lower, upper, stride))
            }
        }
        (_, _, _) => Ok(None),
    }
}
