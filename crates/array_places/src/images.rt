//! The images that cosubscripts name (ISO/IEC 1539-1:2018, 9.6; IMAGE_INDEX and THIS_IMAGE in 16.9).

ghost use Rattle.std.specs.Prelude.{◌≡◌, ◌+◌, ◌-◌, ◌*◌, ◌/◌, ◌%◌, ◌^◌, ◌∷◌, ◌+ℤ◌, ◌&&◌, pos, min, [], slice_get, cond, int_le, nat_lt, unsigned_abs, Some, None};
ghost use Rattle.coarray_types.specs.Distances.{distance};
ghost use Rattle.image_acts.specs.Core.{Own};
ghost use Rattle.image_acts.specs.Teams.{cosubscripts_behind, index_in, index_of, member_at};
ghost use Rattle.array_places.specs.Bounds.{as_found};
ghost use Rattle.array_places.specs.Images.{cosubscript_found, order_found};

use crate::bounds::in_kind;
use crate::place::natural;
use caf_events::fault::BOUNDS;

/// A place among images with a digit more, or the largest number of 64 bits where it is larger.
fn order_behind(order: u64, weight: u64, digit: u64) -> u64
    ensures { result ≡ min (order + min (weight * digit) (2 ^ 64 - 1)) (2 ^ 64 - 1) }
{
    order.saturating_add(weight.saturating_mul(digit))
}

/// A coextent without its sign.
fn width_of(extent: &i64) -> u64
    ensures { result ≡ unsigned_abs extent.now }
{
    extent.unsigned_abs()
}

/// How far a cosubscript is above its lower cobound, where it is less than this.
fn digit_of(lower: &i64, subscript: &i64, width: u64) -> Option<u64>
    ensures { result ≡ cond (int_le lower.now subscript.now && nat_lt (distance lower.now subscript.now) width) (Some (distance lower.now subscript.now)) None }
{
    if subscript < lower {
        return None;
    }
    let digit = subscript.abs_diff(*lower);
    if digit < width { Some(digit) } else { None }
}

/// The place from 0 of the image that cosubscripts name, or the largest number of 64 bits where it is larger; nothing
/// where they aren't within their cobounds.
fn order_of(lowers: &[i64], extents: &[i64], subscripts: &[i64]) -> Option<u64>
    ensures { result ≡ order_found 0 1 lowers.now extents.now subscripts.now }
{
    let mut order = 0;
    let mut weight = 1u64;
    let mut lows = lowers;
    let mut more = extents;
    let mut left = subscripts;
    while let Some((extent, further)) = more.split_first() {
        let (lower, behind) = lows.split_first()?;
        let (subscript, rest) = left.split_first()?;
        let digit = digit_of(lower, subscript, width_of(extent))?;
        order = order_behind(order, weight, digit);
        weight = weight.saturating_mul(width_of(extent));
        lows = behind;
        more = further;
        left = rest;
    }
    last_order(order, weight, lows, left)
}

/// The same, where one lower cobound is left, and one cosubscript.
fn last_order(order: u64, weight: u64, lowers: &[i64], subscripts: &[i64]) -> Option<u64>
    ensures { result ≡ order_found order weight lowers.now [] subscripts.now }
{
    let (lower, behind) = lowers.split_first()?;
    let (subscript, rest) = subscripts.split_first()?;
    if subscript < lower || !behind.is_empty() || !rest.is_empty() {
        return None;
    }
    Some(order_behind(order, weight, subscript.abs_diff(*lower)))
}

/// The index of the image that cosubscripts name among so many, or 0 where they name none (IMAGE_INDEX, 16.9.97).
pub fn image_index(lowers: &[i64], extents: &[i64], subscripts: &[i64], images: u32) -> u32
    ensures { (o : Own) → o.lowers ≡ lowers.now → o.extents ≡ extents.now → result ≡ index_of o subscripts.now images }
{
    match order_of(lowers, extents, subscripts) {
        Some(order) if order < u64::from(images) => order as u32 + 1,
        _ => 0,
    }
}

/// A number's remainder and quotient; by 0 they are the number and 0.
fn divided(number: u64, by: u64) -> (u64, u64)
    ensures remainder { result.0 ≡ number % by }
    ensures quotient { result.1 ≡ number / by }
{
    if by == 0 {
        return (number, 0);
    }
    (number % by, number / by)
}

/// The cosubscript with this number from 0 of the image that is so many images behind the first.
fn cosubscript_at(lowers: &[i64], extents: &[i64], images: u64, number: u64) -> Option<i128>
    ensures { result ≡ slice_get (cosubscripts_behind lowers.now extents.now images) number }
{
    let mut place = images;
    let mut further = number;
    let mut lows = lowers;
    let mut more = extents;
    while let Some((lower, behind)) = lows.split_first() {
        let Some((extent, rest)) = more.split_first() else {
            return last_cosubscript(lower, place, further);
        };
        let (digit, quotient) = divided(place, extent.unsigned_abs());
        if further == 0 {
            return Some(i128::from(*lower) + i128::from(digit));
        }
        further -= 1;
        place = quotient;
        lows = behind;
        more = rest;
    }
    None
}

/// The same, where one lower cobound is left.
fn last_cosubscript(lower: &i64, images: u64, number: u64) -> Option<i128>
    ensures { result ≡ slice_get ((lower.now +ℤ pos images) ∷ []) number }
{
    if number > 0 {
        return None;
    }
    Some(i128::from(*lower) + i128::from(images))
}

/// The cosubscript with this number from 1 of the image that is so many images behind the first, or the run fault
/// Bounds or Overflow (THIS_IMAGE, 16.9.190).
pub fn cosubscript(lowers: &[i64], extents: &[i64], images: u64, dim: &i64) -> Result<i64, u32>
    ensures { as_found result ≡ cosubscript_found (cosubscripts_behind lowers.now extents.now images) dim.now }
{
    let number = natural(dim);
    if number == 0 {
        return Err(BOUNDS);
    }
    match cosubscript_at(lowers, extents, images, number - 1) {
        None => Err(BOUNDS),
        Some(subscript) => in_kind(&subscript),
    }
}

/// The member of a team with an index, 0 where there is none.
pub fn member(members: &[u32], index: u32) -> u32
    ensures { result ≡ member_at members.now index }
{
    if index == 0 {
        return 0;
    }
    match members.get(index as usize - 1) {
        Some(member) => *member,
        None => 0,
    }
}

/// The index of an image among the members of a team, 0 where it is none of them.
pub fn index_in(members: &[u32], image: u32) -> usize
    ensures { result ≡ index_in image members.now }
{
    let mut before = 0;
    let mut left = members;
    while let Some((member, rest)) = left.split_first() {
        if *member == image {
            return before + 1;
        }
        before += 1;
        left = rest;
    }
    0
}
