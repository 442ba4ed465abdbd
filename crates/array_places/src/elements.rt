//! The elements of an array at a place.

ghost use Rattle.std.specs.Prelude.{◌≡◌, ◌<◌, ◌^◌, ℤ, List, length, replicate, is_some, Some, slice_get, slice_set};
ghost use Rattle.caf_base.specs.Arithmetic.{natural};
ghost use Rattle.image_acts.specs.Places.{place_in, cells_of, offsets, elements_at, with_elements_at};

use crate::place::{cells_in, offset_at};

/// The element at an offset, where there is one. An offset below 0 is taken as 0.
pub fn element(elements: &[i64], offset: &i128) -> Option<i64>
    ensures { result ≡ slice_get elements.now (natural offset.now) }
{
    if *offset < 0 {
        return elements.first().copied();
    }
    match usize::try_from(*offset) {
        Ok(at) => elements.get(at).copied(),
        Err(_) => None,
    }
}

/// Puts an element at an offset, where there is one.
fn put_element(elements: &mut [i64], offset: &i128, value: &i64)
    ensures { elements.new ≡ slice_set elements.old (natural offset.now) value.now }
{
    let at = if *offset < 0 { 0 } else { *offset };
    if let Ok(at) = usize::try_from(at) {
        if at < elements.len() {
            elements[at] = *value;
        }
    }
}

/// Whether each cell of a place is there.
pub fn are_there(elements: &[i64], place: &[i64]) -> bool
    requires { cells_of (place_in place.now) < 2 ^ 32 }
    ensures { result ≡ is_some (elements_at (offsets (place_in place.now)) elements.now) }
{
    let cells = cells_in(place) as u32;
    for k in 0..cells {
        let Some(_value) = element(elements, &offset_at(place, k)) else {
            return false;
        };
    }
    true
}

/// The element at the cell with this number from 0; 0 where there is none.
pub fn element_at(elements: &[i64], place: &[i64], k: u32) -> i64
    requires { k < cells_of (place_in place.now) }
    ensures { (vs : List ℤ) → elements_at (offsets (place_in place.now)) elements.now ≡ Some vs → slice_get vs k ≡ Some result }
{
    element(elements, &offset_at(place, k)).unwrap_or(0)
}

/// Gives the cells of a place these elements, in array element order, as far as there are both. A cell that isn't there
/// is passed over.
pub fn put(elements: &mut [i64], place: &[i64], values: &[i64])
    requires { cells_of (place_in place.now) < 2 ^ 32 }
    ensures { elements.new ≡ with_elements_at (offsets (place_in place.now)) values.now elements.old }
{
    let cells = cells_in(place) as u32;
    let mut k = 0;
    let mut left = values;
    while let Some((value, rest)) = left.split_first() {
        if k == cells {
            return;
        }
        put_element(elements, &offset_at(place, k), value);
        k += 1;
        left = rest;
    }
}

/// Gives each cell of a place one value.
pub fn fill(elements: &mut [i64], place: &[i64], value: &i64)
    requires { cells_of (place_in place.now) < 2 ^ 32 }
    ensures { elements.new ≡ with_elements_at (offsets (place_in place.now)) (replicate (length (offsets (place_in place.now))) value.now) elements.old }
{
    let cells = cells_in(place) as u32;
    for k in 0..cells {
        put_element(elements, &offset_at(place, k), value);
    }
}
