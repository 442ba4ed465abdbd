//! What is kept of a coarray that is allocated here.

ghost use Rattle.std.specs.Prelude.{◌≡◌, ◌+◌, ◌-◌, Option, Some, None, cond, nat_le, nat_lt, option_copied, slice_get, slice_set};
ghost use Rattle.coarray_types.specs.Places.{size_of};
ghost use Rattle.image_acts.specs.Frames.{joined, pairs_in, pairs_numbers};
ghost use Rattle.image_acts.specs.Statuses.{most_cells};

use crate::few::Few;
use array_places::bounds::cells_between;
use caf_base::limits::COARRAY_CELLS;

/// The most coarray cells of an image.
const MOST_CELLS: u128 = COARRAY_CELLS as u128;

/// The bounds and cobounds of a coarray as they stood on the stack, and the team in which it was allocated.
#[derive(Drop)]
pub struct Shape {
    pub bounds: Few,
    pub cobounds: Few,
    pub team: u64,
}

/// A coarray, where it is allocated here.
pub(crate) fn shape_at(shapes: &[Option<Shape>], coarray: u32) -> Option<&Shape>
    ensures { option_copied result ≡ joined (slice_get shapes.now coarray) }
{
    match shapes.get(coarray as usize) {
        Some(Some(shape)) => Some(shape),
        _ => None,
    }
}

/// Puts a coarray in the place of this number, where there is one.
pub(crate) fn put(shapes: &mut Vec<Option<Shape>>, coarray: u32, shape: Option<Shape>)
    ensures { shapes.new.items ≡ slice_set shapes.old.items coarray shape }
{
    let at = coarray as usize;
    if at < shapes.len() {
        shapes[at] = shape;
    }
}

/// The bounds of whole pairs.
pub(crate) fn whole(bounds: &[i64]) -> &[i64]
    ensures { result.now ≡ pairs_numbers (pairs_in bounds.now) }
{
    &bounds[..bounds.len() / 2 * 2]
}

/// The cells in use with an array of these bounds more, where they are no more than an image may have.
pub(crate) fn cells_with(cells: u64, bounds: &[i64]) -> Option<u64>
    ensures { result ≡ cond (nat_le (cells + size_of (pairs_in bounds.now)) most_cells) (Some (cells + size_of (pairs_in bounds.now))) None }
{
    let sum = cells_between(bounds).saturating_add(u128::from(cells));
    if sum <= MOST_CELLS {
        Some(sum as u64)
    } else {
        None
    }
}

/// Whether an array of these bounds has a cell at this offset.
pub(crate) fn is_within(bounds: &[i64], offset: u32) -> bool
    ensures { result ≡ nat_lt offset (size_of (pairs_in bounds.now)) }
{
    u128::from(offset) < cells_between(bounds)
}

/// The cells in use without an array of these bounds.
pub(crate) fn cells_without(cells: u64, bounds: &[i64]) -> u64
    ensures { result ≡ cells - size_of (pairs_in bounds.now) }
{
    u128::from(cells).saturating_sub(cells_between(bounds)) as u64
}
