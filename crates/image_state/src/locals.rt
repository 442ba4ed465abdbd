//! The local arrays of all frames.

ghost use Rattle.std.specs.Prelude.{◌≡◌, ◌<◌, ◌≤◌, ◌+◌, ◌^◌, ◌∷◌, ℤ, List, [], is_some, length, pos, replicate, take, true, Option, Some, None, OnOk, OnErr, IfErr, IsTrue, IsFalse};
ghost use Rattle.walk_theory.specs.Terms.{found, at_fault};
ghost use Rattle.image_acts.specs.Core.{Local, elements_in, with_array};
ghost use Rattle.image_acts.specs.Frames.{array_in, arrays_of_frames, cells_in_frames, local_size, pairs_in, with_array_in, zeros_in};
ghost use Rattle.image_acts.specs.Places.{cells_of, elements_at, extents_of, offsets, place_in, single};
ghost use Rattle.image_code.specs.Table.{scope_of};
ghost use Rattle.array_values.specs.Extents.{listed};
ghost use Rattle.array_values.specs.Values.{elements_on_top};
ghost use Rattle.local_arrays.specs.Arrays.{HasCells, HasNewElement, from_one, loaded, overwritten, refilled};
ghost use Rattle.local_arrays.specs.Frames as framed;
ghost use Rattle.image_state.specs.Acting.{with_core};
ghost use Rattle.image_state.specs.Kept.{framed_of};

use crate::state::ImageState;
use array_places::elements::element_at;
use array_places::place::cells_in;
use array_values::extents::{Extents, extents_of};
use array_values::values::ArrayValues;
use image_code::step::Scope;
use local_arrays::arrays::Arrays;

impl ImageState {
    /// The local arrays of all frames.
    #[inline(always)]
    pub fn locals(&self) -> &Arrays
        ensures { result.now ≡ framed_of self.now }
    {
        &self.locals
    }

    /// How many local cells are in use.
    pub fn local_cells(&self) -> u64
        ensures is { result ≡ self.now.core.local_cells }
        ensures small { result < 2 ^ 63 }
    {
        self.local
    }

    /// Notes that so many local cells are in use.
    pub fn set_local_cells(&mut self, n: u64)
        requires { n < 2 ^ 63 }
        ensures { self.new ≡ with_core self.old (record self.old.core { local_cells = n }) }
    {
        self.local = n;
    }

    /// Gives an element of a local array a value; else the run fault NotAllocated or Shape, and nothing is changed.
    #[inline(always)]
    pub fn store_element(
        &mut self,
        scope: Scope,
        x: u32,
        offset: &i64,
        value: &i64,
    ) -> Result<(), u32>
        ensures there { OnOk result (HasCells (array_in (scope_of scope) x self.old.core) (place_in (offset.now ∷ []))) }
        ensures ok { OnOk result (self.new ≡ with_core self.old (with_array_in (scope_of scope) x (overwritten (place_in (offset.now ∷ [])) (value.now ∷ []) (array_in (scope_of scope) x self.old.core)) self.old.core)) }
        ensures err { IfErr result (λ n. loaded (array_in (scope_of scope) x self.old.core) (place_in (offset.now ∷ [])) ≡ at_fault n) }
        ensures kept { OnErr result (self.new ≡ self.old) }
    {
        self.locals.store(scope, x, offset, value)
    }

    /// Gives the element of a local array of rank one by its subscript a value (ISO/IEC 1539-1:2018, 9.5.3.2); false
    /// says that it isn't found at once, nothing is changed, and the ordinary way tells what it is: an array of another
    /// rank or one that isn't allocated, or a subscript outside its bounds.
    #[inline(always)]
    pub fn put_by_one(&mut self, scope: Scope, x: u32, subscript: i64, value: i64) -> bool
        ensures put { IsTrue result → (b : Option Local) × HasNewElement (array_in (scope_of scope) x self.old.core) (single subscript ∷ []) value b × (self.new ≡ with_core self.old (with_array_in (scope_of scope) x b self.old.core)) }
        ensures kept { IsFalse result → self.new ≡ self.old }
    {
        self.locals.put_by_one(scope, x, subscript, value)
    }

    /// Gives the element of a local array of rank two by its row and its column a value (ISO/IEC 1539-1:2018, 9.5.3.2);
    /// false says that it isn't found at once, nothing is changed, and the ordinary way tells what it is: an array of
    /// another rank or one that isn't allocated, or a subscript outside its bounds.
    #[inline(always)]
    pub fn put_by_two(&mut self, scope: Scope, x: u32, row: i64, column: i64, value: i64) -> bool
        ensures put { IsTrue result → (b : Option Local) × HasNewElement (array_in (scope_of scope) x self.old.core) (single row ∷ single column ∷ []) value b × (self.new ≡ with_core self.old (with_array_in (scope_of scope) x b self.old.core)) }
        ensures kept { IsFalse result → self.new ≡ self.old }
    {
        self.locals.put_by_two(scope, x, row, column, value)
    }

    /// Gives each cell of a place of a local array one value.
    pub fn fill(&mut self, scope: Scope, x: u32, place: &[i64], value: &i64)
        requires { HasCells (array_in (scope_of scope) x self.old.core) (place_in place.now) }
        ensures { self.new ≡ with_core self.old (with_array_in (scope_of scope) x (overwritten (place_in place.now) (replicate (length (offsets (place_in place.now))) value.now) (array_in (scope_of scope) x self.old.core)) self.old.core) }
    {
        self.locals.fill(scope, x, place, value);
    }

    /// Gives the cells of a place of a local array the elements of the top array value, in array element order, as far
    /// as there are both.
    pub fn put_top(&mut self, scope: Scope, x: u32, place: &[i64])
        requires { HasCells (array_in (scope_of scope) x self.old.core) (place_in place.now) }
        ensures { self.new ≡ with_core self.old (with_array_in (scope_of scope) x (overwritten (place_in place.now) (elements_on_top self.old.core.arrays) (array_in (scope_of scope) x self.old.core)) self.old.core) }
    {
        self.locals.put(scope, x, place, self.arrays.elements());
    }

    /// Gives a local array the elements of the top array value, which are as many.
    pub fn refill_top(&mut self, scope: Scope, x: u32)
        requires { local_size (array_in (scope_of scope) x self.old.core) ≡ length (elements_on_top self.old.core.arrays) }
        ensures { self.new ≡ with_core self.old (with_array_in (scope_of scope) x (refilled (elements_on_top self.old.core.arrays) (array_in (scope_of scope) x self.old.core)) self.old.core) }
    {
        self.locals.refill(scope, x, self.arrays.elements());
    }

    /// Gives a local array the elements of the top array value, as one of rank one with the lower bound 1, where all
    /// arrays have room together; else the run fault Room, and nothing is changed.
    pub fn renew_top(&mut self, scope: Scope, x: u32) -> Result<(), u32>
        ensures ok { OnOk result (self.new ≡ with_core self.old (with_array_in (scope_of scope) x (Some (from_one (elements_on_top self.old.core.arrays))) self.old.core)) }
        ensures room { OnOk result (cells_in_frames (framed.with_array (scope_of scope) x (Some (from_one (elements_on_top self.old.core.arrays))) (arrays_of_frames self.old.core)) ≤ self.old.core.array_room) }
        ensures err { IfErr result (λ n. n ≡ 11) }
        ensures full { OnErr result (self.old.core.array_room < cells_in_frames (framed.with_array (scope_of scope) x (Some (from_one (elements_on_top self.old.core.arrays))) (arrays_of_frames self.old.core))) }
        ensures kept { OnErr result (self.new ≡ self.old) }
    {
        self.locals.renew(scope, x, self.arrays.elements())
    }

    /// Gives a local array these bounds and zeros (ALLOCATE, 9.7.1), where all arrays have room together; else the run
    /// fault Room, and nothing is changed.
    pub fn lay(&mut self, scope: Scope, x: u32, numbers: &[i64]) -> Result<(), u32>
        requires { length numbers.now ≤ 6 }
        ensures ok { OnOk result (self.new ≡ with_core self.old (with_array_in (scope_of scope) x (Some (zeros_in (pairs_in numbers.now))) self.old.core)) }
        ensures room { OnOk result (cells_in_frames (framed.with_array (scope_of scope) x (Some (zeros_in (pairs_in numbers.now))) (arrays_of_frames self.old.core)) ≤ self.old.core.array_room) }
        ensures err { IfErr result (λ n. n ≡ 11) }
        ensures full { OnErr result (self.old.core.array_room < cells_in_frames (framed.with_array (scope_of scope) x (Some (zeros_in (pairs_in numbers.now))) (arrays_of_frames self.old.core))) }
        ensures kept { OnErr result (self.new ≡ self.old) }
    {
        self.locals.lay(scope, x, numbers)
    }

    /// Takes a local array away (DEALLOCATE, 9.7.3).
    pub fn take_away(&mut self, scope: Scope, x: u32)
        ensures { self.new ≡ with_core self.old (with_array_in (scope_of scope) x None self.old.core) }
    {
        self.locals.take_away(scope, x);
    }

    /// Begins an array value with the elements of a local array at a place of at most three dimensions.
    pub fn load_section(&mut self, scope: Scope, x: u32, place: &[i64])
        requires there { HasCells (array_in (scope_of scope) x self.old.core) (place_in place.now) }
        requires few { length place.now ≤ 7 }
        requires place { length self.old.core.arrays < self.old.rooms.arrays }
        requires room { elements_in self.old.core.arrays + cells_of (place_in place.now) ≤ 524288 }
        ensures { (vs : List ℤ) → loaded (array_in (scope_of scope) x self.old.core) (place_in place.now) ≡ found vs
            → self.new ≡ with_core self.old (with_array (record { extents = extents_of (place_in place.now); elements = vs }) self.old.core) }
    {
        if let Some(elements) = self.locals.elements(scope, x) {
            put_section(&mut self.arrays, elements, place);
        }
    }

    /// Begins an array value with these extents and the elements of a local array.
    pub fn copy_out(&mut self, scope: Scope, x: u32, extents: Extents)
        requires there { is_some (array_in (scope_of scope) x self.old.core) ≡ true }
        requires place { length self.old.core.arrays < self.old.rooms.arrays }
        requires room { elements_in self.old.core.arrays + local_size (array_in (scope_of scope) x self.old.core) ≤ 524288 }
        ensures { (l : Local) → array_in (scope_of scope) x self.old.core ≡ Some l
            → self.new ≡ with_core self.old (with_array (record { extents = listed extents; elements = l.elements }) self.old.core) }
    {
        if let Some(elements) = self.locals.elements(scope, x) {
            self.arrays.begin_with(extents, elements);
        }
    }
}

/// Begins an array value with these elements at a place.
fn put_section(arrays: &mut ArrayValues, elements: &[i64], place: &[i64])
    requires few { length place.now ≤ 7 }
    requires small { cells_of (place_in place.now) < 2 ^ 32 }
    requires place { length arrays.old.arrays < arrays.old.most }
    requires room { elements_in arrays.old.arrays + cells_of (place_in place.now) ≤ arrays.old.size }
    ensures size { arrays.new.size ≡ arrays.old.size }
    ensures same { (vs : List ℤ) → elements_at (offsets (place_in place.now)) elements.now ≡ Some vs
        → arrays.new ≡ record { arrays = record { extents = extents_of (place_in place.now); elements = vs } ∷ arrays.old.arrays; most = arrays.old.most; size = arrays.old.size } }
{
    arrays.begin(extents_of(place));
    let cells = cells_in(place) as u32;
    for k in 0..cells {
        arrays.lengthen(element_at(elements, place, k));
    }
}
