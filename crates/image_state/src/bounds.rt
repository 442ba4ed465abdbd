//! Places on the stack, and the bounds, extents and sizes of array values and sections (ISO/IEC 1539-1:2018, 5.4.6;
//! LBOUND, SIZE and UBOUND in 16.9).

ghost use Rattle.std.specs.Prelude.{◌≡◌, ◌==◌, ◌<◌, ◌≤◌, ◌+◌, ◌*◌, ◌∷◌, pos, drop, length, not, IfSome, IfNone};
ghost use Rattle.image_acts.specs.Acts as acts;
ghost use Rattle.image_acts.specs.Core.{elements_in, with_values, with_array};
ghost use Rattle.image_acts.specs.Frames.{pairs_numbers};
ghost use Rattle.image_acts.specs.Places.{place_in, place_size, extents_of, cells_of};
ghost use Rattle.image_acts.specs.Taking.{found_in, giving};
ghost use Rattle.image_acts.specs.Operate.Bounds.{bounds_effect, from_one};
ghost use Rattle.image_acts.specs.Operate.Stack.{stack_effect};
ghost use Rattle.array_places.specs.Bounds.{as_found, along, length_of, lower_of, upper_of};
ghost use Rattle.array_values.specs.Extents.{listed};
ghost use Rattle.array_values.specs.Values.{row_of, without_elements, extents_on_top, elements_on_top};
ghost use Rattle.image_state.specs.Acting.{with_core, Acts};
ghost use Rattle.image_state.specs.Arrays.{with_arrays};
ghost use Rattle.image_state.specs.Places.{place_at, without_tops};

use crate::state::{Acting, ImageState, MOST_ELEMENTS};
use array_places::bounds::{extent_along, lower_along, size_in, upper_along};
use array_places::place::cells_in;
use array_values::extents::{Extents, extents_of};
use caf_events::fault::{ROOM, SHAPE};
use number_operators::operators::truth;

impl ImageState {
    /// The numbers of the place of this rank beneath so many others.
    fn place(&self, depth: u32, rank: u32) -> Option<&[i64]>
        ensures there { IfSome result (λ p. depth + place_size rank ≤ length self.now.core.values) }
        ensures is { IfSome result (λ p. p.now ≡ place_at depth rank self.now.core.values) }
        ensures none { IfNone result (length self.now.core.values < depth + place_size rank) }
    {
        let n = 1 + 2 * rank as usize;
        if !self.values.has(depth as usize, n) {
            return None;
        }
        Some(self.values.beneath(depth as usize, n))
    }

    /// Its extents.
    #[tactic(auto, using(crate::proofs::BoundsLaws::place_short))]
    fn place_extents(&self, depth: u32, rank: u32) -> Option<Extents>
        requires { rank ≤ 3 }
        ensures there { IfSome result (λ e. depth + place_size rank ≤ length self.now.core.values) }
        ensures is { IfSome result (λ e. listed e ≡ extents_of (place_in (place_at depth rank self.now.core.values))) }
        ensures none { IfNone result (length self.now.core.values < depth + place_size rank) }
    {
        let place = self.place(depth, rank)?;
        Some(extents_of(place))
    }

    /// The extents of the top array.
    pub fn top_extents(&self) -> Option<Extents>
        ensures there { IfSome result (λ e. 0 < length self.now.core.arrays) }
        ensures is { IfSome result (λ e. listed e ≡ extents_on_top self.now.core.arrays) }
        ensures none { IfNone result (length self.now.core.arrays ≡ 0) }
    {
        self.arrays.extents()
    }

    /// Does the step `SameShape`.
    #[tactic(auto, using(crate::proofs::BoundsLaws::shape_without_place, crate::proofs::BoundsLaws::shape_without_array, crate::proofs::BoundsLaws::shape_agrees, crate::proofs::BoundsLaws::shape_differs))]
    pub fn same_shape(&self, depth: u32, rank: u32) -> Acting
        requires { rank ≤ 3 }
        ensures { Acts self.now (bounds_effect (acts.same_shape depth rank) self.now.core) self.now result }
    {
        let Some(wanted) = self.place_extents(depth, rank) else {
            return Acting::Stuck;
        };
        let Some(extents) = self.top_extents() else {
            return Acting::Stuck;
        };
        if extents.agree(wanted) {
            return Acting::Done;
        }
        Acting::Fault(SHAPE)
    }

    /// Does the step `SomeCells`.
    #[tactic(auto, using(crate::proofs::BoundsLaws::cells_unseen, crate::proofs::BoundsLaws::cells_told))]
    pub fn some_cells(&mut self, depth: u32, rank: u32) -> Acting
        requires { length self.old.core.values < self.old.rooms.numbers }
        ensures { Acts self.old (bounds_effect (acts.some_cells depth rank) self.old.core) self.new result }
    {
        let Some(place) = self.place(depth, rank) else {
            return Acting::Stuck;
        };
        let there = has_cells(place);
        self.number(truth(there))
    }

    /// Begins an array value without elements.
    fn begin_array(&mut self, extents: Extents)
        requires { length self.old.core.arrays < self.old.rooms.arrays }
        ensures { self.new ≡ with_core self.old (with_array (without_elements extents) self.old.core) }
    {
        self.arrays.begin(extents);
    }

    /// Does the step `NothingRead`.
    #[tactic(auto, using(crate::proofs::BoundsLaws::nothing_missing, crate::proofs::BoundsLaws::nothing_put))]
    pub fn nothing_read(&mut self, rank: u32) -> Acting
        requires rank { rank ≤ 3 }
        requires place { length self.old.core.arrays < self.old.rooms.arrays }
        requires room { length self.old.core.values + 1 ≤ self.old.rooms.numbers + (place_size rank + 1) }
        ensures { Acts self.old (stack_effect (acts.nothing_read rank) self.old.core) self.new result }
    {
        let Some(extents) = self.place_extents(1, rank) else {
            return Acting::Stuck;
        };
        self.drop_top(2 + 2 * rank as usize);
        self.begin_array(extents);
        self.number(0)
    }

    /// Begins an array value with the bounds of these extents.
    fn begin_bounds(&mut self, extents: Extents)
        requires place { length self.old.core.arrays < self.old.rooms.arrays }
        requires room { elements_in self.old.core.arrays + 2 * length (listed extents) ≤ 524288 }
        ensures { self.new ≡ with_core self.old (with_array (row_of (pairs_numbers (from_one (listed extents)))) self.old.core) }
    {
        self.arrays.begin_bounds(extents);
    }

    /// Does the step `SectionBounds`.
    #[tactic(auto, using(crate::proofs::BoundsLaws::section_missing, crate::proofs::BoundsLaws::section_full, crate::proofs::BoundsLaws::section_bounded))]
    pub fn section_bounds(&mut self, rank: u32) -> Acting
        requires rank { rank ≤ 3 }
        requires place { length self.old.core.arrays < self.old.rooms.arrays }
        ensures { Acts self.old (bounds_effect (acts.section_bounds rank) self.old.core) self.new result }
    {
        let Some(extents) = self.place_extents(0, rank) else {
            return Acting::Stuck;
        };
        if self.spare() < 2 * extents.rank() as usize {
            return Acting::Fault(ROOM);
        }
        self.drop_top(1 + 2 * rank as usize);
        self.begin_bounds(extents);
        Acting::Done
    }

    /// For how many elements there is room without the top array.
    #[tactic(auto, using(crate::proofs::BoundsLaws::top_and_others))]
    fn spare_beneath(&self) -> usize
        requires { 0 < length self.now.core.arrays }
        ensures { result + elements_in (drop 1 self.now.core.arrays) ≡ 524288 }
    {
        self.spare() + self.elements().len()
    }

    /// Does the step `ValueBounds`.
    #[tactic(auto, using(crate::proofs::BoundsLaws::value_missing, crate::proofs::BoundsLaws::value_full, crate::proofs::BoundsLaws::value_bounded))]
    pub fn value_bounds(&mut self) -> Acting
        requires { length self.old.core.arrays ≤ self.old.rooms.arrays }
        ensures { Acts self.old (bounds_effect acts.value_bounds self.old.core) self.new result }
    {
        let Some(extents) = self.top_extents() else {
            return Acting::Stuck;
        };
        if self.spare_beneath() < 2 * extents.rank() as usize {
            return Acting::Fault(ROOM);
        }
        self.drop_top_array();
        self.begin_bounds(extents);
        Acting::Done
    }

    /// Does the step `Size`.
    #[tactic(auto, using(crate::proofs::BoundsLaws::size_missing, crate::proofs::BoundsLaws::size_faults, crate::proofs::BoundsLaws::size_told))]
    pub fn size(&mut self) -> Acting
        requires { length self.old.core.values < self.old.rooms.numbers }
        ensures { Acts self.old (bounds_effect acts.size self.old.core) self.new result }
    {
        if !self.has_arrays(1) {
            return Acting::Stuck;
        }
        match size_in(self.elements()) {
            Err(k) => Acting::Fault(k),
            Ok(n) => {
                self.drop_top_array();
                self.number(n)
            }
        }
    }

    /// Puts what was found of a dimension in the place of its number and of the top array.
    fn put_found(&mut self, found: Result<i64, u32>) -> Acting
        requires number { 0 < length self.old.core.values }
        requires array { 0 < length self.old.core.arrays }
        ensures { Acts self.old (found_in (as_found found) (λ z. giving z (without_tops self.old.core))) self.new result }
    {
        match found {
            Err(k) => Acting::Fault(k),
            Ok(z) => {
                self.drop_top_array();
                self.values.put(z);
                Acting::Done
            }
        }
    }

    /// The extent along a dimension by the bounds in the top array, or a run fault.
    fn extent_in_top(&self, dim: i64) -> Result<i64, u32>
        ensures { as_found result ≡ along length_of (elements_on_top self.now.core.arrays) dim }
    {
        extent_along(self.elements(), &dim)
    }

    /// Does the step `Extent`.
    #[tactic(auto, using(crate::proofs::BoundsLaws::extent_missing, crate::proofs::BoundsLaws::extent_without_array, crate::proofs::BoundsLaws::extent_found))]
    pub fn extent(&mut self) -> Acting
        ensures { Acts self.old (bounds_effect acts.extent self.old.core) self.new result }
    {
        let Some(dim) = self.top() else {
            return Acting::Stuck;
        };
        if !self.has_arrays(1) {
            return Acting::Stuck;
        }
        let found = self.extent_in_top(dim);
        self.put_found(found)
    }

    /// The lower bound along a dimension by the bounds in the top array, or a run fault.
    fn lower_in_top(&self, dim: i64) -> Result<i64, u32>
        ensures { as_found result ≡ along lower_of (elements_on_top self.now.core.arrays) dim }
    {
        lower_along(self.elements(), &dim)
    }

    /// Does the step `LowerBound`.
    #[tactic(auto, using(crate::proofs::BoundsLaws::lower_missing, crate::proofs::BoundsLaws::lower_without_array, crate::proofs::BoundsLaws::lower_found))]
    pub fn lower_bound(&mut self) -> Acting
        ensures { Acts self.old (bounds_effect acts.lower_bound self.old.core) self.new result }
    {
        let Some(dim) = self.top() else {
            return Acting::Stuck;
        };
        if !self.has_arrays(1) {
            return Acting::Stuck;
        }
        let found = self.lower_in_top(dim);
        self.put_found(found)
    }

    /// The upper bound along a dimension by the bounds in the top array, or a run fault.
    fn upper_in_top(&self, dim: i64) -> Result<i64, u32>
        ensures { as_found result ≡ along upper_of (elements_on_top self.now.core.arrays) dim }
    {
        upper_along(self.elements(), &dim)
    }

    /// Does the step `UpperBound`.
    #[tactic(auto, using(crate::proofs::BoundsLaws::upper_missing, crate::proofs::BoundsLaws::upper_without_array, crate::proofs::BoundsLaws::upper_found))]
    pub fn upper_bound(&mut self) -> Acting
        ensures { Acts self.old (bounds_effect acts.upper_bound self.old.core) self.new result }
    {
        let Some(dim) = self.top() else {
            return Acting::Stuck;
        };
        if !self.has_arrays(1) {
            return Acting::Stuck;
        }
        let found = self.upper_in_top(dim);
        self.put_found(found)
    }
}

/// Whether a place has cells.
#[tactic(auto, using(crate::proofs::BoundsLaws::none_or_some))]
fn has_cells(place: &[i64]) -> bool
    ensures { result ≡ not (cells_of (place_in place.now) == 0) }
{
    cells_in(place) != 0
}
