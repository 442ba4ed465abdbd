//! Cobounds as numbers: a lower and an upper one for each codimension, and a lower one for the last (ISO/IEC
//! 1539-1:2018, 5.4.7).

ghost use Rattle.std.specs.Prelude.{◌≡◌, ◌<◌, ◌+◌, ◌*◌, ◌-◌, ◌/◌, ◌%◌, ◌^◌, ◌∷◌, ◌+ℤ◌, ◌-ℤ◌, ◌&&◌, pos, min, [], length, slice_get, cond, int_le, nat_lt, unsigned_abs, Some, None};
ghost use Rattle.std.specs.List.{list_all};
ghost use Rattle.caf_base.specs.declared.value.Kind.TheVariants as kinds;
ghost use Rattle.caf_base.specs.Arithmetic.{fits_kind};
ghost use Rattle.coarray_types.specs.Distances.{distance};
ghost use Rattle.image_acts.specs.Owning.{extents_in, lowers_in};
ghost use Rattle.image_acts.specs.Teams.{cosubscripts_behind};
ghost use Rattle.array_places.specs.Images.{order_found};
ghost use Rattle.coarray_tables.specs.Owns.{are_cobounds, last_from};

use array_places::place::first_pair;

/// Whether no upper cobound is below its lower one.
pub(crate) fn are_cobounds(cobounds: &[i64]) -> bool
    ensures { result ≡ are_cobounds cobounds.now }
{
    let mut left = cobounds;
    while let Some((lower, upper, rest)) = first_pair(left) {
        if lower > upper {
            return false;
        }
        left = rest;
    }
    true
}

/// Whether a number is one of kind 4.
pub(crate) fn is_of_kind_4(number: &i64) -> bool
    ensures { result ≡ fits_kind kinds.I4 number.now }
{
    -2_147_483_648 <= *number && *number <= 2_147_483_647
}

/// Whether all are numbers of kind 4.
pub(crate) fn are_of_kind_4(numbers: &[i64]) -> bool
    ensures { result ≡ list_all (fits_kind kinds.I4) numbers.now }
{
    let mut left = numbers;
    while let Some((number, rest)) = left.split_first() {
        if !is_of_kind_4(number) {
            return false;
        }
        left = rest;
    }
    true
}

/// The lower cobound of the last codimension, 1 where there is none.
pub(crate) fn last_lower(cobounds: &[i64]) -> i64
    ensures { result ≡ last_from (pos 1) (lowers_in cobounds.now) }
{
    let mut last = 1;
    let mut left = cobounds;
    while let Some((lower, _upper, rest)) = first_pair(left) {
        last = *lower;
        left = rest;
    }
    match left.first() {
        Some(lower) => *lower,
        None => last,
    }
}

/// A coextent without its sign.
fn width_between(lower: &i64, upper: &i64) -> u128
    ensures { result ≡ unsigned_abs ((upper.now -ℤ lower.now) +ℤ pos 1) }
{
    (i128::from(*upper) - i128::from(*lower) + 1).unsigned_abs()
}

/// A width, or the largest number of 64 bits where it is larger.
fn word_of(width: u128) -> u64
    ensures { result ≡ min width (2 ^ 64 - 1) }
{
    if width > 18_446_744_073_709_551_615 {
        18_446_744_073_709_551_615
    } else {
        width as u64
    }
}

/// How far a cosubscript is above its lower cobound, where it is less than this.
fn digit_of(lower: &i64, subscript: &i64, width: u128) -> Option<u64>
    ensures { result ≡ cond (int_le lower.now subscript.now && nat_lt (distance lower.now subscript.now) width) (Some (distance lower.now subscript.now)) None }
{
    if subscript < lower {
        return None;
    }
    let digit = subscript.abs_diff(*lower);
    if u128::from(digit) < width {
        Some(digit)
    } else {
        None
    }
}

/// A place among images with a digit more, or the largest number of 64 bits where it is larger.
fn order_behind(order: u64, weight: u64, digit: u64) -> u64
    ensures { result ≡ min (order + min (weight * digit) (2 ^ 64 - 1)) (2 ^ 64 - 1) }
{
    order.saturating_add(weight.saturating_mul(digit))
}

/// The place from 0 of the image that cosubscripts name, or the largest number of 64 bits where it is larger; nothing
/// where they aren't within their cobounds.
pub(crate) fn order_of(cobounds: &[i64], subscripts: &[i64]) -> Option<u64>
    ensures { result ≡ order_found 0 1 (lowers_in cobounds.now) (extents_in cobounds.now) subscripts.now }
{
    let mut order = 0;
    let mut weight = 1u64;
    let mut more = cobounds;
    let mut left = subscripts;
    while let Some((lower, upper, further)) = first_pair(more) {
        let (subscript, rest) = left.split_first()?;
        let width = width_between(lower, upper);
        let digit = digit_of(lower, subscript, width)?;
        order = order_behind(order, weight, digit);
        weight = weight.saturating_mul(word_of(width));
        more = further;
        left = rest;
    }
    last_order(order, weight, more, left)
}

/// The same, where one lower cobound is left, or none.
fn last_order(order: u64, weight: u64, cobounds: &[i64], subscripts: &[i64]) -> Option<u64>
    requires { length cobounds.now < 2 }
    ensures { result ≡ order_found order weight (lowers_in cobounds.now) (extents_in cobounds.now) subscripts.now }
{
    let lower = cobounds.first()?;
    let (subscript, rest) = subscripts.split_first()?;
    if subscript < lower || !rest.is_empty() {
        return None;
    }
    Some(order_behind(order, weight, subscript.abs_diff(*lower)))
}

/// A number's remainder and quotient; by 0 they are the number and 0.
fn divided(number: u64, by: u128) -> (u64, u64)
    ensures remainder { result.0 ≡ number % by }
    ensures quotient { result.1 ≡ number / by }
{
    if by == 0 {
        return (number, 0);
    }
    let number = u128::from(number);
    ((number % by) as u64, (number / by) as u64)
}

/// The cosubscript with this number from 0 of the image that is so many images behind the first.
pub(crate) fn cosubscript_at(cobounds: &[i64], images: u64, number: u64) -> Option<i128>
    ensures { result ≡ slice_get (cosubscripts_behind (lowers_in cobounds.now) (extents_in cobounds.now) images) number }
{
    let mut place = images;
    let mut further = number;
    let mut more = cobounds;
    while let Some((lower, upper, rest)) = first_pair(more) {
        let (digit, quotient) = divided(place, width_between(lower, upper));
        if further == 0 {
            return Some(i128::from(*lower) + i128::from(digit));
        }
        further -= 1;
        place = quotient;
        more = rest;
    }
    last_cosubscript(more, place, further)
}

/// The same, where one lower cobound is left, or none.
fn last_cosubscript(cobounds: &[i64], images: u64, number: u64) -> Option<i128>
    requires { length cobounds.now < 2 }
    ensures { result ≡ slice_get (cosubscripts_behind (lowers_in cobounds.now) (extents_in cobounds.now) images) number }
{
    let lower = cobounds.first()?;
    if number > 0 {
        return None;
    }
    Some(i128::from(*lower) + i128::from(images))
}
