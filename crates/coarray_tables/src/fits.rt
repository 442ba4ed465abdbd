//! Which tables of coarrays a store can be made of.

ghost use Rattle.std.specs.Prelude.{◌≡◌, ◌<◌, ◌≤◌, ◌+◌, ◌-◌, ◌^◌, ◌+ℤ◌, ◌-ℤ◌, pos, cond, nat_le, length, map, sum_by, IsTrue, Some, None};
ghost use Rattle.std.specs.Option.{option_map};
ghost use Rattle.caf_base.specs.declared.value.Kind.TheVariants as kinds;
ghost use Rattle.caf_base.specs.Arithmetic.{fits_kind};
ghost use Rattle.image_acts.specs.Statuses.{most_cells};
ghost use Rattle.coarray_tables.specs.Owns.{own_of};
ghost use Rattle.coarray_tables.specs.Start.{AreFew, first_own, own_size};
ghost use Rattle.coarray_tables.specs.Fits.{are_first_cobounds, are_fit, is_fit};

use crate::cobounds::is_of_kind_4;
use crate::shape::{Shape, cells_with};
use crate::start::first_shape;
use image_code::tables::Coarray;

/// Whether a number is one of kind 4.
fn is_wide_of_kind_4(number: &i128) -> bool
    ensures { result ≡ fits_kind kinds.I4 number.now }
{
    -2_147_483_648 <= *number && *number <= 2_147_483_647
}

/// The upper cobound of a codimension.
fn upper_of(lower: &i64, extent: &i64) -> i128
    ensures { result ≡ (lower.now +ℤ extent.now) -ℤ pos 1 }
{
    i128::from(*lower) + i128::from(*extent) - 1
}

/// Whether it is a number of kind 4.
fn has_upper(lower: &i64, extent: &i64) -> bool
    ensures { result ≡ fits_kind kinds.I4 ((lower.now +ℤ extent.now) -ℤ pos 1) }
{
    is_wide_of_kind_4(&upper_of(lower, extent))
}

/// Whether there are as many coextents as lower cobounds but the last, none is empty, and all cobounds are numbers of
/// kind 4.
fn are_first_cobounds(lowers: &[i64], extents: &[i64]) -> bool
    ensures { result ≡ are_first_cobounds lowers.now extents.now }
{
    let mut lows = lowers;
    let mut more = extents;
    while let Some((lower, behind)) = lows.split_first() {
        if !is_of_kind_4(lower) {
            return false;
        }
        let Some((extent, rest)) = more.split_first() else {
            return behind.is_empty();
        };
        if *extent < 1 || !has_upper(lower, extent) {
            return false;
        }
        lows = behind;
        more = rest;
    }
    false
}

/// Whether a coarray is an allocatable one, or has three dimensions and three codimensions at most, whose cobounds are
/// numbers of kind 4.
fn is_fit(coarray: &Coarray) -> bool
    ensures { result ≡ is_fit coarray.now }
{
    coarray.is_allocatable
        || coarray.bounds.len() <= 3
            && coarray.lower_cobounds.len() <= 3
            && are_first_cobounds(
                coarray.lower_cobounds.as_slice(),
                coarray.coextents.as_slice(),
            )
}

/// The cells in use with those of a coarray more, where they are no more than an image may have.
fn cells_more(cells: u64, shape: &Option<Shape>) -> Option<u64>
    requires { cells ≤ most_cells }
    ensures { result ≡ cond (nat_le (cells + own_size (option_map own_of shape.now)) most_cells) (Some (cells + own_size (option_map own_of shape.now))) None }
{
    match shape {
        Some(shape) => cells_with(cells, shape.bounds.as_slice()),
        None => Some(cells),
    }
}

/// Whether each coarray of these tables is fit, and all have no more cells than an image may have.
fn fit_together(tables: &[Coarray]) -> bool
    ensures { result ≡ are_fit 0 tables.now }
{
    let mut cells = 0;
    let mut left = tables;
    while let Some((coarray, rest)) = left.split_first() {
        if !is_fit(coarray) {
            return false;
        }
        let shape = first_shape(coarray);
        let Some(sum) = cells_more(cells, &shape) else {
            return false;
        };
        cells = sum;
        left = rest;
    }
    true
}

/// Whether a store can be made of these tables: each coarray that is there from the start has three dimensions and
/// three codimensions at most, whose cobounds are numbers of kind 4, and all have no more cells than an image may have.
pub fn are_fit(tables: &[Coarray]) -> bool
    ensures value { result ≡ are_fit 0 tables.now }
    ensures few { IsTrue result → AreFew tables.now }
    ensures cells { IsTrue result → sum_by own_size (map first_own tables.now) ≤ 65536 }
{
    fit_together(tables)
}
