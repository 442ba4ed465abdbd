//! The bounds of an array, kept in room of their own.

ghost use Rattle.std.specs.Prelude.{◌≡◌, ◌≤◌, ◌^◌, ◌<◌, take, length, nat_lt, IfOk, IfErr, IsTrue};
ghost use Rattle.image_acts.specs.Frames.{pairs_in};
ghost use Rattle.image_acts.specs.Places.{spread_of};
ghost use Rattle.local_arrays.specs.Rows.{pairs_of, AreBounds};
ghost use Rattle.walk_theory.specs.Terms.{found, at_fault};
ghost use Rattle.image_acts.specs.Places.{place_within, subscripts_in, digits};
ghost use Rattle.array_places.specs.Sections.{numbers_of};

use array_places::empty::wide_place;
use array_places::list::PlaceNumbers;
use array_places::section::{has_places, place_of};
use caf_events::fault::ROOM;

/// Lower and upper bounds of at most three dimensions, and whether they have fewer than 2 ** 63 cells, an empty
/// dimension counting as one.
#[derive(Clone, Copy)]
pub struct Bounds {
    pub(crate) numbers: [i64; 6],
    pub(crate) len: usize,
    pub(crate) has_places: bool,
}

/// Bounds of these numbers, a lower and an upper one for each dimension.
pub fn bounds_of(numbers: &[i64]) -> Bounds
    requires { length numbers.now ≤ 6 }
    ensures pairs { pairs_of result ≡ pairs_in numbers.now }
    ensures bounds { AreBounds result }
{
    let len = numbers.len();
    let mut kept = [0; 6];
    kept[..len].copy_from_slice(numbers);
    Bounds {
        numbers: kept,
        len,
        has_places: has_places(numbers),
    }
}

impl Bounds {
    /// The numbers, a lower and an upper one for each dimension.
    #[inline(always)]
    pub fn as_slice(&self) -> &[i64]
        requires { AreBounds self.now }
        ensures pairs { pairs_in result.now ≡ pairs_of self.now }
        ensures few { length result.now ≤ 6 }
    {
        &self.numbers[..self.len]
    }

    /// The numbers of the place of an element or a section in these bounds, or the run fault that is found first.
    pub fn place(&self, form: u32, numbers: &[i64]) -> Result<PlaceNumbers, u32>
        requires { AreBounds self.now }
        ensures found { IfOk result (λ p. numbers_of (place_within (pairs_of self.now) (subscripts_in (digits form) numbers.now)) ≡ found p) }
        ensures faults { IfErr result (λ k. numbers_of (place_within (pairs_of self.now) (subscripts_in (digits form) numbers.now)) ≡ at_fault k) }
    {
        if self.has_places {
            place_of(self.as_slice(), form, numbers)
        } else {
            wide_place(self.as_slice(), form, numbers)
        }
    }
}
