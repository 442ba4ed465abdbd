//! The images that cosubscripts of a coarray name (ISO/IEC 1539-1:2018, 9.6; IMAGE_INDEX and THIS_IMAGE in 16.9).

ghost use Rattle.std.specs.Prelude.{◌≡◌, ◌<◌, ◌-◌, ◌^◌, ◌==◌, not, nat_le, length, option_copied};
ghost use Rattle.std.specs.Option.{option_map};
ghost use Rattle.image_acts.specs.Core.{Own};
ghost use Rattle.image_acts.specs.Owning.{extents_in, lowers_in};
ghost use Rattle.image_acts.specs.Places.{place_in, cells_of};
ghost use Rattle.image_acts.specs.Statuses.{most_access_cells};
ghost use Rattle.image_acts.specs.Teams.{cosubscripts_behind, index_of, member_at};
ghost use Rattle.array_places.specs.Bounds.{as_found};
ghost use Rattle.array_places.specs.Images.{cosubscript_found};
ghost use Rattle.coarray_tables.specs.Owns.{own_at};
ghost use Rattle.coarray_tables.specs.Images.{index_found, own_cosubscript, owner_found, selected};

use crate::coarrays::Coarrays;
use crate::cobounds::{cosubscript_at, order_of};
use array_places::bounds::in_kind;
use array_places::place::{cells_in, natural};
use caf_base::limits::ACCESS_CELLS;
use caf_events::fault::{BOUNDS, CELLS, COBOUNDS, NOT_ALLOCATED, NOT_ESTABLISHED, SHAPE};

/// The most cells of one access.
const MOST_ACCESS_CELLS: u64 = ACCESS_CELLS as u64;

/// The index of the image that cosubscripts name among so many, or 0 where they name none.
fn index_among(cobounds: &[i64], subscripts: &[i64], images: u64) -> u64
    ensures { (o : Own) → o.lowers ≡ lowers_in cobounds.now → o.extents ≡ extents_in cobounds.now → result ≡ index_of o subscripts.now images }
{
    match order_of(cobounds, subscripts) {
        Some(order) if order < images => order + 1,
        _ => 0,
    }
}

/// The member of a team with an index, 0 where there is none.
fn member(members: &[u32], index: u64) -> u32
    ensures { result ≡ member_at members.now index }
{
    if index == 0 {
        return 0;
    }
    match members.get(index as usize - 1) {
        Some(member) => *member,
        None => 0,
    }
}

/// Whether a place has no more cells than one access may have.
pub fn has_few_cells(place: &[i64]) -> bool
    ensures { result ≡ nat_le (cells_of (place_in place.now)) most_access_cells }
{
    cells_in(place) <= MOST_ACCESS_CELLS
}

/// Whether a place has no cells.
pub fn has_no_cells(place: &[i64]) -> bool
    ensures { result ≡ (cells_of (place_in place.now) == 0) }
{
    cells_in(place) == 0
}

/// The image with an index among these members, for an access to the section at a place; or the run fault CoBounds (an
/// index of 0, where the section has cells), NotEstablished or Cells.
fn select(index: u64, is_established: bool, members: &[u32], place: &[i64]) -> Result<u32, u32>
    ensures { as_found result ≡ selected is_established members.now (place_in place.now) index }
{
    if index == 0 && !has_no_cells(place) {
        return Err(COBOUNDS);
    }
    if !is_established {
        return Err(NOT_ESTABLISHED);
    }
    if !has_few_cells(place) {
        return Err(CELLS);
    }
    Ok(member(members, index))
}

impl Coarrays {
    /// Its cobounds: a lower and an upper one for each codimension, and a lower one for the last.
    fn cobounds(&self, coarray: u32) -> Option<&[i64]>
        ensures lowers { option_map (λ b. lowers_in b.now) result ≡ option_map (λ o. o.lowers) (own_at self.now.coarrays coarray) }
        ensures extents { option_map (λ b. extents_in b.now) result ≡ option_map (λ o. o.extents) (own_at self.now.coarrays coarray) }
    {
        match self.shape(coarray) {
            Some(shape) => Some(shape.cobounds.as_slice()),
            None => None,
        }
    }

    /// The image that cosubscripts of a coarray name among the members of a team, for an access to the section at a
    /// place: its number in the run, 0 where the section has no cells and they name none. Or the run fault that is
    /// found first: NotEstablished (the coarray isn't allocated here), CoBounds, NotEstablished (by its `made_team` it
    /// isn't established in the team), Cells (more than 4,096).
    pub fn owner(
        &self,
        coarray: u32,
        subscripts: &[i64],
        members: &[u32],
        is_established: bool,
        place: &[i64],
    ) -> Result<u32, u32>
        ensures { as_found result ≡ owner_found (own_at self.now.coarrays coarray) is_established members.now subscripts.now (place_in place.now) }
    {
        match self.cobounds(coarray) {
            None => Err(NOT_ESTABLISHED),
            Some(cobounds) => {
                let index = index_among(cobounds, subscripts, members.len() as u64);
                select(index, is_established, members, place)
            }
        }
    }

    /// The index of the image that cosubscripts of a coarray name in a team of so many images, 0 where they name none
    /// (IMAGE_INDEX, 16.9.97); or the run fault Shape (their number isn't the corank of the step) or NotAllocated.
    pub fn image_index(
        &self,
        coarray: u32,
        corank: u32,
        subscripts: &[i64],
        images: u64,
    ) -> Result<u64, u32>
        ensures { as_found result ≡ index_found (own_at self.now.coarrays coarray) corank subscripts.now images }
    {
        if subscripts.len() != corank as usize {
            return Err(SHAPE);
        }
        match self.cobounds(coarray) {
            None => Err(NOT_ALLOCATED),
            Some(cobounds) => Ok(index_among(cobounds, subscripts, images)),
        }
    }

    /// The cosubscript with this number from 1 of the image with an index (THIS_IMAGE, 16.9.190); an index of 0 is
    /// taken as 1. Or the run fault NotAllocated, Bounds or Overflow.
    pub fn cosubscript(&self, coarray: u32, index: u64, dim: &i64) -> Result<i64, u32>
        ensures { as_found result ≡ own_cosubscript (own_at self.now.coarrays coarray) (index - 1) dim.now }
    {
        match self.cobounds(coarray) {
            None => Err(NOT_ALLOCATED),
            Some(cobounds) => numbered(cobounds, index.saturating_sub(1), dim),
        }
    }
}

/// The cosubscript with this number from 1 of the image that is so many images behind the first, or the run fault
/// Bounds or Overflow.
fn numbered(cobounds: &[i64], images: u64, dim: &i64) -> Result<i64, u32>
    ensures { as_found result ≡ cosubscript_found (cosubscripts_behind (lowers_in cobounds.now) (extents_in cobounds.now) images) dim.now }
{
    let number = natural(dim);
    if number == 0 {
        return Err(BOUNDS);
    }
    match cosubscript_at(cobounds, images, number - 1) {
        None => Err(BOUNDS),
        Some(subscript) => in_kind(&subscript),
    }
}
