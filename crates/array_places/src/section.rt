//! The place of an element or a section of an array (ISO/IEC 1539-1:2018, 9.5.3).

ghost use Rattle.std.specs.Prelude.{◌≡◌, ◌<◌, ◌≤◌, ◌+◌, ◌*◌, ◌^◌, ◌∷◌, ◌++◌, [], ◌==◌, ◌+ℤ◌, ◌-ℤ◌, ◌*ℤ◌, ◌≤ℤ◌, ◌-◌, ◌↔◌, max, min, pos, ℕ, List, cond, length, unsigned_abs, IfOk, IfErr, IsTrue};
ghost use Rattle.coarray_types.specs.Distances.{distance};
ghost use Rattle.coarray_types.specs.Places.{extent_of};
ghost use Rattle.walk_theory.specs.Terms.{found, at_fault};
ghost use Rattle.image_acts.specs.Frames.{pairs_in};
ghost use Rattle.image_acts.specs.Places.{digits, with_digit, subscripts_in, place_of as place_found, spread_of};
ghost use Rattle.array_places.specs.Sections.{Fine, Lies, numbers_from, numbers_of};

use crate::bounds::extent;
use crate::list::PlaceNumbers;
use crate::place::first_pair;
use crate::triplet::{Subscripts, behind, dimension};
use caf_events::fault::BOUNDS;

/// What is found of a place: how far apart, in cells, neighbours of the next dimension are; the offset of the first
/// cell in the dimensions so far; and their counts and steps, behind a first number that waits for the offset.
#[derive(Drop)]
struct Way {
    apart: u64,
    start: u64,
    place: PlaceNumbers,
}

/// The offset of the first cell with a dimension more.
fn start_behind(start: u64, apart: u64, lower: &i64, subscripts: &Subscripts) -> u64
    requires inside { 0 < subscripts.now.count → lower.now ≤ℤ subscripts.now.first }
    requires fits { 0 < subscripts.now.count → start + apart * distance lower.now subscripts.now.first < 2 ^ 63 }
    ensures value { pos result ≡ pos start +ℤ cond (subscripts.now.count == 0) (pos 0) (pos apart *ℤ (subscripts.now.first -ℤ lower.now)) }
    ensures near { result ≡ cond (subscripts.now.count == 0) start (start + apart * distance lower.now subscripts.now.first) }
{
    if subscripts.count == 0 {
        return start;
    }
    start + apart * subscripts.first.abs_diff(*lower)
}

/// A stride in cells.
fn step_of(apart: u64, stride: &i64) -> i64
    requires apart { apart < 2 ^ 63 }
    requires fits { apart * unsigned_abs stride.now < 2 ^ 63 }
    ensures { result ≡ pos apart *ℤ stride.now }
{
    apart as i64 * *stride
}

impl Way {
    /// Puts down the count and the step of a dimension of the section.
    fn keep(&mut self, lower: &i64, upper: &i64, subscripts: &Subscripts)
        requires wide { self.old.apart * max 1 (extent_of (lower.now, upper.now)) < 2 ^ 63 }
        requires extent { extent_of (lower.now, upper.now) < 2 ^ 63 }
        requires lies { Lies lower.now upper.now subscripts.now }
        requires room { length self.old.place ≤ 5 }
        ensures apart { self.new.apart ≡ self.old.apart }
        ensures start { self.new.start ≡ self.old.start }
        ensures place { self.new.place ≡ cond subscripts.now.is_kept (self.old.place ++ pos subscripts.now.count ∷ (pos self.old.apart *ℤ subscripts.now.stride) ∷ []) self.old.place }
    {
        if !subscripts.is_kept {
            return;
        }
        self.place.push(&(subscripts.count as i64));
        self.place.push(&step_of(self.apart, &subscripts.stride));
    }

    /// Goes through a dimension.
    fn take(&mut self, lower: &i64, upper: &i64, subscripts: &Subscripts)
        requires less { 0 < self.old.apart → self.old.start < self.old.apart }
        requires small { self.old.start < 2 ^ 63 }
        requires wide { self.old.apart * max 1 (extent_of (lower.now, upper.now)) < 2 ^ 63 }
        requires extent { extent_of (lower.now, upper.now) < 2 ^ 63 }
        requires lies { Lies lower.now upper.now subscripts.now }
        requires room { length self.old.place ≤ 5 }
        ensures apart { self.new.apart ≡ self.old.apart * extent_of (lower.now, upper.now) }
        ensures start { pos self.new.start ≡ pos self.old.start +ℤ cond (subscripts.now.count == 0) (pos 0) (pos self.old.apart *ℤ (subscripts.now.first -ℤ lower.now)) }
        ensures place { self.new.place ≡ cond subscripts.now.is_kept (self.old.place ++ pos subscripts.now.count ∷ (pos self.old.apart *ℤ subscripts.now.stride) ∷ []) self.old.place }
        ensures less { 0 < self.new.apart → self.new.start < self.new.apart }
        ensures small { self.new.start < 2 ^ 63 }
    {
        self.keep(lower, upper, subscripts);
        self.start = start_behind(self.start, self.apart, lower, subscripts);
        self.apart *= extent(lower, upper) as u64;
    }

    /// Goes through the dimension of a digit of a form, where there is one.
    fn step<'a>(
        &mut self,
        digit: u32,
        bounds: &'a [i64],
        numbers: &'a [i64],
    ) -> Result<(&'a [i64], &'a [i64]), u32>
        requires fine { Fine self.old.apart self.old.start self.old.place (pairs_in bounds.now) }
        requires room { length self.old.place ≤ 5 }
        ensures goes { IfOk result (λ r. (ds : List ℕ) → numbers_from self.old.apart self.old.start self.old.place (pairs_in bounds.now) (subscripts_in (with_digit digit ds) numbers.now) ≡ numbers_from self.new.apart self.new.start self.new.place (pairs_in r.0.now) (subscripts_in ds r.1.now)) }
        ensures fine { IfOk result (λ r. Fine self.new.apart self.new.start self.new.place (pairs_in r.0.now)) }
        ensures room { IfOk result (λ r. length self.new.place ≤ length self.old.place + 2) }
        ensures faults { IfErr result (λ k. (ds : List ℕ) → numbers_from self.old.apart self.old.start self.old.place (pairs_in bounds.now) (subscripts_in (with_digit digit ds) numbers.now) ≡ at_fault k) }
    {
        if digit == 0 {
            return Ok((bounds, numbers));
        }
        let Some((lower, upper, rest)) = first_pair(bounds) else {
            return Err(BOUNDS);
        };
        let subscripts = dimension(lower, upper, digit, numbers)?;
        self.take(lower, upper, &subscripts);
        Ok((rest, behind(digit, numbers)))
    }

    /// The numbers of the place, where no dimension is left.
    fn end(self, bounds: &[i64]) -> Result<PlaceNumbers, u32>
        requires small { self.start < 2 ^ 63 }
        requires some { 0 < length self.place }
        ensures found { IfOk result (λ p. numbers_from self.apart self.start self.place (pairs_in bounds.now) [] ≡ found p) }
        ensures faults { IfErr result (λ k. numbers_from self.apart self.start self.place (pairs_in bounds.now) [] ≡ at_fault k) }
    {
        if first_pair(bounds).is_some() {
            return Err(BOUNDS);
        }
        let mut place = self.place;
        place.put_first(&(self.start as i64));
        Ok(place)
    }
}

/// The place of what has no dimension: its one cell.
fn place_of_scalar(bounds: &[i64]) -> Result<PlaceNumbers, u32>
    ensures found { IfOk result (λ p. numbers_of (place_found (pairs_in bounds.now) []) ≡ found p) }
    ensures faults { IfErr result (λ k. numbers_of (place_found (pairs_in bounds.now) []) ≡ at_fault k) }
{
    if first_pair(bounds).is_some() {
        Err(BOUNDS)
    } else {
        Ok(PlaceNumbers::new())
    }
}

/// The numbers of the place of an element or a section of an array with these bounds, by a form and the numbers of its
/// subscripts in the order in which they were put down; or the run fault ZeroStep or Bounds that is found first. An
/// array whose cells, an empty dimension counting as one, are 2 ** 63 and more has places that 64 bits can't hold.
pub fn place_of(bounds: &[i64], form: u32, numbers: &[i64]) -> Result<PlaceNumbers, u32>
    requires { spread_of (pairs_in bounds.now) < 2 ^ 63 }
    ensures found { IfOk result (λ p. numbers_of (place_found (pairs_in bounds.now) (subscripts_in (digits form) numbers.now)) ≡ found p) }
    ensures faults { IfErr result (λ k. numbers_of (place_found (pairs_in bounds.now) (subscripts_in (digits form) numbers.now)) ≡ at_fault k) }
{
    if form == 0 {
        return place_of_scalar(bounds);
    }
    let mut way = Way {
        apart: 1,
        start: 0,
        place: PlaceNumbers::new(),
    };
    let (bounds, numbers) = way.step(form % 10, bounds, numbers)?;
    let (bounds, numbers) = way.step(form / 10 % 10, bounds, numbers)?;
    let (bounds, _) = way.step(form / 100 % 10, bounds, numbers)?;
    way.end(bounds)
}

/// How many cells there are between these bounds, an empty dimension counting as one, or the largest number of 128 bits
/// where there are more.
fn spread_between(bounds: &[i64]) -> u128
    ensures { result ≡ min (spread_of (pairs_in bounds.now)) (2 ^ 128 - 1) }
{
    let mut cells = 1u128;
    let mut left = bounds;
    while let Some((lower, upper, rest)) = first_pair(left) {
        cells = cells.saturating_mul(extent(lower, upper).max(1));
        left = rest;
    }
    cells
}

/// Whether `place_of` may be asked for the places of an array with these bounds.
pub fn has_places(bounds: &[i64]) -> bool
    ensures { IsTrue result ↔ (spread_of (pairs_in bounds.now) < 2 ^ 63) }
{
    spread_between(bounds) < 9_223_372_036_854_775_808
}
