//! Sizes, extents and bounds of arrays (ISO/IEC 1539-1:2018, 5.4.6; LBOUND, SIZE and UBOUND in 16.9). Bounds stand as a
//! lower and an upper one for each dimension.

ghost use Rattle.std.specs.Prelude.{◌≡◌, ◌-◌, ◌^◌, min, slice_get};
ghost use Rattle.caf_base.specs.Arithmetic.{natural};
ghost use Rattle.coarray_types.specs.Places.{extent_of, size_of};
ghost use Rattle.image_acts.specs.Frames.{pairs_in};
ghost use Rattle.array_places.specs.Bounds.{as_found, in_kind_4, size_found, along, numbered, length_of, lower_of, upper_of};

use crate::place::{first_pair, natural};
use caf_events::fault::{BOUNDS, OVERFLOW};

/// How many values a subscript has between its bounds (5.4.6).
pub(crate) fn extent(lower: &i64, upper: &i64) -> u128
    ensures { result ≡ extent_of (lower.now, upper.now) }
{
    if upper < lower {
        0
    } else {
        u128::from(upper.abs_diff(*lower)) + 1
    }
}

/// A number where it is one of kind 4; else the run fault Overflow.
pub fn in_kind(number: &i128) -> Result<i64, u32>
    ensures { as_found result ≡ in_kind_4 number.now }
{
    if -2_147_483_648 <= *number && *number <= 2_147_483_647 {
        Ok(*number as i64)
    } else {
        Err(OVERFLOW)
    }
}

/// How many cells an array with these bounds has, or the largest number of 128 bits where there are more.
pub fn cells_between(bounds: &[i64]) -> u128
    ensures { result ≡ min (size_of (pairs_in bounds.now)) (2 ^ 128 - 1) }
{
    let mut cells = 1u128;
    let mut left = bounds;
    while let Some((lower, upper, rest)) = first_pair(left) {
        cells = cells.saturating_mul(extent(lower, upper));
        left = rest;
    }
    cells
}

/// The size of an array with these bounds (SIZE, 16.9.177), or the run fault Overflow.
pub fn size_in(bounds: &[i64]) -> Result<i64, u32>
    ensures { as_found result ≡ size_found bounds.now }
{
    let cells = cells_between(bounds);
    if cells <= 2_147_483_647 {
        Ok(cells as i64)
    } else {
        Err(OVERFLOW)
    }
}

/// The bounds of the dimension with this number from 0.
fn pair_at(bounds: &[i64], number: u64) -> Option<(i64, i64)>
    ensures { result ≡ slice_get (pairs_in bounds.now) number }
{
    let mut left = bounds;
    let mut number = number;
    while let Some((lower, upper, rest)) = first_pair(left) {
        if number == 0 {
            return Some((*lower, *upper));
        }
        number -= 1;
        left = rest;
    }
    None
}

/// The bounds of the dimension with this number from 1.
fn bounds_of(bounds: &[i64], dim: &i64) -> Option<(i64, i64)>
    ensures { result ≡ numbered (pairs_in bounds.now) (natural dim.now) }
{
    let number = natural(dim);
    if number == 0 {
        return None;
    }
    pair_at(bounds, number - 1)
}

/// The extent along the dimension with this number from 1 (SIZE, 16.9.177), or the run fault Bounds or Overflow.
pub fn extent_along(bounds: &[i64], dim: &i64) -> Result<i64, u32>
    ensures { as_found result ≡ along length_of bounds.now dim.now }
{
    match bounds_of(bounds, dim) {
        None => Err(BOUNDS),
        Some((lower, upper)) => in_kind(&(extent(&lower, &upper) as i128)),
    }
}

/// The lower bound along it (LBOUND, 16.9.109).
pub fn lower_along(bounds: &[i64], dim: &i64) -> Result<i64, u32>
    ensures { as_found result ≡ along lower_of bounds.now dim.now }
{
    match bounds_of(bounds, dim) {
        None => Err(BOUNDS),
        Some((lower, upper)) if upper < lower => Ok(1),
        Some((lower, _)) => in_kind(&i128::from(lower)),
    }
}

/// The upper bound along it (UBOUND, 16.9.196).
pub fn upper_along(bounds: &[i64], dim: &i64) -> Result<i64, u32>
    ensures { as_found result ≡ along upper_of bounds.now dim.now }
{
    match bounds_of(bounds, dim) {
        None => Err(BOUNDS),
        Some((lower, upper)) if upper < lower => Ok(0),
        Some((_, upper)) => in_kind(&i128::from(upper)),
    }
}
