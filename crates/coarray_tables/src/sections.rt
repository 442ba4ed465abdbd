//! Elements and sections of coarrays (ISO/IEC 1539-1:2018, 9.5.3).

ghost use Rattle.std.specs.Prelude.{◌≡◌, ◌≤◌, ◌+◌, ◌++◌, ◌∷◌, [], pos, length, option_copied, IfOk, IfErr};
ghost use Rattle.std.specs.Option.{option_map};
ghost use Rattle.walk_theory.specs.Terms.{found, at_fault};
ghost use Rattle.image_acts.specs.Frames.{pairs_in};
ghost use Rattle.image_acts.specs.Places as places;
ghost use Rattle.image_acts.specs.Places.{digits, with_digit, place_numbers, subscripts_in, triplets};
ghost use Rattle.array_places.specs.Sections.{numbers_of};
ghost use Rattle.coarray_tables.specs.Owns.{own_at};
ghost use Rattle.coarray_tables.specs.Sections.{own_place};

use crate::coarrays::Coarrays;
use array_places::empty::wide_place;
use array_places::list::PlaceNumbers;
use array_places::section::{has_places, place_of};

/// Whether a digit of a form is a triplet, as a number.
fn triplet(digit: u32) -> u32
    ensures value { result ≡ triplets (with_digit digit []) }
    ensures few { result ≤ 1 }
{
    if digit < 2 { 0 } else { 1 }
}

/// How many dimensions of a form are triplets.
fn triplets_of(form: u32) -> u32
    ensures value { result ≡ triplets (digits form) }
    ensures few { result ≤ 3 }
{
    triplet(form % 10) + triplet(form / 10 % 10) + triplet(form / 100 % 10)
}

/// One cell in each dimension of a section of this form: what stands in the place of one where the coarray isn't
/// allocated here.
fn no_place(form: u32) -> PlaceNumbers
    ensures { result ≡ place_numbers (places.no_place (triplets (digits form))) }
{
    let mut place = PlaceNumbers::new();
    for k in 0..triplets_of(form) {
        let _ = k;
        place.push(&1);
        place.push(&0);
    }
    place
}

/// The place of an element or section of an array with these bounds, or the run fault that is found first.
fn place_within(bounds: &[i64], form: u32, numbers: &[i64]) -> Result<PlaceNumbers, u32>
    ensures found { IfOk result (λ p. numbers_of (places.place_within (pairs_in bounds.now) (subscripts_in (digits form) numbers.now)) ≡ found p) }
    ensures faults { IfErr result (λ k. numbers_of (places.place_within (pairs_in bounds.now) (subscripts_in (digits form) numbers.now)) ≡ at_fault k) }
{
    if has_places(bounds) {
        place_of(bounds, form, numbers)
    } else {
        wide_place(bounds, form, numbers)
    }
}

impl Coarrays {
    /// Its bounds as they stood on the stack.
    fn bound_numbers(&self, coarray: u32) -> Option<&[i64]>
        ensures { option_map (λ b. pairs_in b.now) result ≡ option_map (λ o. o.bounds) (own_at self.now.coarrays coarray) }
    {
        match self.shape(coarray) {
            Some(shape) => Some(shape.bounds.as_slice()),
            None => None,
        }
    }

    /// The numbers of the place of an element or a section of a coarray, by a form and the numbers of its subscripts in
    /// the order in which they were put down; or the run fault Room, ZeroStep or Bounds that is found first. Bounds of
    /// a coarray that isn't allocated here are known to nobody: its section is one cell.
    pub fn section(&self, coarray: u32, form: u32, numbers: &[i64]) -> Result<PlaceNumbers, u32>
        ensures found { IfOk result (λ p. numbers_of (own_place (own_at self.now.coarrays coarray) (digits form) numbers.now) ≡ found p) }
        ensures faults { IfErr result (λ k. numbers_of (own_place (own_at self.now.coarrays coarray) (digits form) numbers.now) ≡ at_fault k) }
    {
        match self.bound_numbers(coarray) {
            None => Ok(no_place(form)),
            Some(bounds) => place_within(bounds, form, numbers),
        }
    }
}
