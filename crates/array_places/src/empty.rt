//! The place of a section of an array without elements (ISO/IEC 1539-1:2018, 9.5.3.3), however large its other extents
//! are.

ghost use Rattle.std.specs.Prelude.{◌≡◌, ◌<◌, ◌≤◌, ◌+◌, ◌^◌, ◌∷◌, ◌++◌, [], pos, ℕ, List, cond, length, true, IfOk, IfErr};
ghost use Rattle.coarray_types.specs.Places.{extent_of};
ghost use Rattle.walk_theory.specs.Terms.{found, at_fault};
ghost use Rattle.image_acts.specs.Frames.{pairs_in};
ghost use Rattle.image_acts.specs.Places.{digits, with_digit, subscripts_in, are_small, empty_place, place_within, spread_of};
ghost use Rattle.array_places.specs.Sections.{Lies, numbers_of, rested_from};

use crate::bounds::{cells_between, extent};
use crate::list::PlaceNumbers;
use crate::place::first_pair;
use crate::triplet::{Subscripts, behind, dimension};
use caf_events::fault::{BOUNDS, ROOM};

/// Whether each extent between these bounds is of 63 bits.
pub fn are_small(bounds: &[i64]) -> bool
    ensures { result ≡ are_small (pairs_in bounds.now) }
{
    let mut left = bounds;
    while let Some((lower, upper, rest)) = first_pair(left) {
        if extent(lower, upper) >= 9_223_372_036_854_775_808 {
            return false;
        }
        left = rest;
    }
    true
}

/// Puts down the count of a dimension of the section, and a step of 0.
fn keep(place: &mut PlaceNumbers, lower: &i64, upper: &i64, subscripts: &Subscripts)
    requires extent { extent_of (lower.now, upper.now) < 2 ^ 63 }
    requires lies { Lies lower.now upper.now subscripts.now }
    requires room { length place.old ≤ 5 }
    ensures { place.new ≡ cond subscripts.now.is_kept (place.old ++ pos subscripts.now.count ∷ pos 0 ∷ []) place.old }
{
    if !subscripts.is_kept {
        return;
    }
    place.push(&(subscripts.count as i64));
    place.push(&0);
}

/// Goes through the dimension of a digit of a form, where there is one.
fn step<'a>(
    place: &mut PlaceNumbers,
    digit: u32,
    bounds: &'a [i64],
    numbers: &'a [i64],
) -> Result<(&'a [i64], &'a [i64]), u32>
    requires small { are_small (pairs_in bounds.now) ≡ true }
    requires room { length place.old ≤ 5 }
    ensures goes { IfOk result (λ r. (ds : List ℕ) → rested_from place.old (pairs_in bounds.now) (subscripts_in (with_digit digit ds) numbers.now) ≡ rested_from place.new (pairs_in r.0.now) (subscripts_in ds r.1.now)) }
    ensures small { IfOk result (λ r. are_small (pairs_in r.0.now) ≡ true) }
    ensures room { IfOk result (λ r. length place.new ≤ length place.old + 2) }
    ensures faults { IfErr result (λ k. (ds : List ℕ) → rested_from place.old (pairs_in bounds.now) (subscripts_in (with_digit digit ds) numbers.now) ≡ at_fault k) }
{
    if digit == 0 {
        return Ok((bounds, numbers));
    }
    let Some((lower, upper, rest)) = first_pair(bounds) else {
        return Err(BOUNDS);
    };
    let subscripts = dimension(lower, upper, digit, numbers)?;
    keep(place, lower, upper, &subscripts);
    Ok((rest, behind(digit, numbers)))
}

/// The numbers of the place, where no dimension is left.
fn end(place: PlaceNumbers, bounds: &[i64]) -> Result<PlaceNumbers, u32>
    ensures found { IfOk result (λ p. rested_from place (pairs_in bounds.now) [] ≡ found p) }
    ensures faults { IfErr result (λ k. rested_from place (pairs_in bounds.now) [] ≡ at_fault k) }
{
    if first_pair(bounds).is_some() {
        return Err(BOUNDS);
    }
    Ok(place)
}

/// The numbers of a place without cells, by a form and the numbers of its subscripts in the order in which they were
/// put down; or the run fault ZeroStep or Bounds that is found first.
fn empty_place(bounds: &[i64], form: u32, numbers: &[i64]) -> Result<PlaceNumbers, u32>
    requires { are_small (pairs_in bounds.now) ≡ true }
    ensures found { IfOk result (λ p. numbers_of (empty_place (pairs_in bounds.now) (subscripts_in (digits form) numbers.now)) ≡ found p) }
    ensures faults { IfErr result (λ k. numbers_of (empty_place (pairs_in bounds.now) (subscripts_in (digits form) numbers.now)) ≡ at_fault k) }
{
    let mut place = PlaceNumbers::new();
    let (bounds, numbers) = step(&mut place, form % 10, bounds, numbers)?;
    let (bounds, numbers) = step(&mut place, form / 10 % 10, bounds, numbers)?;
    let (bounds, _) = step(&mut place, form / 100 % 10, bounds, numbers)?;
    end(place, bounds)
}

/// The numbers of the place of a section of an array whose cells, an empty dimension counting as one, are 2 ** 63 and
/// more: so of one without elements, where a program has it; or the run fault Room, where it has elements or an extent
/// of more than 63 bits, ZeroStep or Bounds.
pub fn wide_place(bounds: &[i64], form: u32, numbers: &[i64]) -> Result<PlaceNumbers, u32>
    requires { 2 ^ 63 ≤ spread_of (pairs_in bounds.now) }
    ensures found { IfOk result (λ p. numbers_of (place_within (pairs_in bounds.now) (subscripts_in (digits form) numbers.now)) ≡ found p) }
    ensures faults { IfErr result (λ k. numbers_of (place_within (pairs_in bounds.now) (subscripts_in (digits form) numbers.now)) ≡ at_fault k) }
{
    if cells_between(bounds) != 0 || !are_small(bounds) {
        return Err(ROOM);
    }
    empty_place(bounds, form, numbers)
}
