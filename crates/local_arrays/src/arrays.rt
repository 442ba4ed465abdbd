//! The arrays of all frames.

ghost use Rattle.std.specs.Prelude.{◌≡◌, ◌<◌, ◌≤◌, ◌+◌, ◌^◌, ◌∷◌, [], map, reverse, drop, length, replicate, is_some, Some, None, IfOk, IfErr, OnOk, OnErr, IfSome, IfNone, IsTrue, IsFalse, Option};
ghost use Rattle.walk_theory.specs.Terms.{found, at_fault};
ghost use Rattle.image_acts.specs.Core.{Local};
ghost use Rattle.image_acts.specs.Frames.{cells_in_frames, local_size, pairs_in, zeros_in, room_for_arrays};
ghost use Rattle.image_acts.specs.Places.{place_in, offsets, single, subscripts_in, digits};
ghost use Rattle.array_places.specs.Sections.{numbers_of};
ghost use Rattle.image_code.specs.Table.{scope_of};
ghost use Rattle.local_arrays.specs.Arrays.{bounds_in, from_one, place_found, elements_of, loaded, overwritten, refilled, HasCells, HasNewElement, IsElement};
ghost use Rattle.local_arrays.specs.Frames.{Framed, first_array, array_of, with_array, count_of, base_of};
ghost use Rattle.image_acts.specs.Operate.Variables.{elements_there};

use crate::first::room_for;
use crate::row::Row;
use crate::slot::slot;
use array_places::elements::are_there;
use array_places::list::PlaceNumbers;
use array_places::place::cells_in;
use caf_base::refusal::NoMemory;
use caf_events::fault::{NOT_ALLOCATED, SHAPE};
use image_code::step::Scope;
use image_code::tables::FirstArray;
use std::alloc::Global;
use std::marker::Model;

/// The arrays of all frames, in room that is made once. No call takes memory but the first.
#[derive(Drop)]
pub struct Arrays {
    row: Row,
    bases: Vec<usize>,
    base: usize,
    main: usize,
}

impl Model for Arrays {
    ghost use Rattle.std.specs.Prelude.{◌≡◌, length, reverse, vec_capacity};
    ghost use Rattle.local_arrays.specs.Frames.{Framed, frames_of, base_of, Nested};

    ghost Value = { Framed };

    ghost view = { λ a. record { frames = frames_of (reverse a.bases.items) a.row.arrays; most = a.row.most; size = a.row.size; deepest = vec_capacity a.bases } };

    ghost invariant = { λ a. Nested (reverse a.bases.items) (length a.row.arrays) a.main × (a.base ≡ base_of (reverse a.bases.items)) };
}

impl Arrays {
    /// The main program's arrays at the start, with room for so many frames beside, which have so many arrays together,
    /// and for 65,536 cells more.
    pub fn new(
        alloc: Global,
        first: &[Option<FirstArray>],
        frames: usize,
        arrays: usize,
    ) -> Result<Arrays, NoMemory>
        ensures { IfOk result (λ a. a ≡ record { frames = map first_array first.now ∷ []; most = length first.now + arrays; size = room_for_arrays (map first_array first.now); deepest = frames }) }
    {
        let row = first_row(alloc, first, arrays)?;
        let bases = Vec::with_capacity(alloc, frames)?;
        Ok(Arrays {
            row,
            bases,
            base: 0,
            main: first.len(),
        })
    }

    /// An element of an array, or the run fault NotAllocated or Shape.
    #[inline(always)]
    pub fn element(&self, scope: Scope, x: u32, offset: &i64) -> Result<i64, u32>
        ensures ok { IfOk result (λ v. loaded (array_of (scope_of scope) x self.now.frames) (place_in (offset.now ∷ [])) ≡ found (v ∷ [])) }
        ensures err { IfErr result (λ n. loaded (array_of (scope_of scope) x self.now.frames) (place_in (offset.now ∷ [])) ≡ at_fault n) }
    {
        match slot(scope, x, self.base, self.main, self.row.len()) {
            None => Err(NOT_ALLOCATED),
            Some(k) => self.row.element(k, offset),
        }
    }

    /// Gives an element of an array a value; else the run fault NotAllocated or Shape, and nothing is changed.
    #[inline(always)]
    pub fn store(&mut self, scope: Scope, x: u32, offset: &i64, value: &i64) -> Result<(), u32>
        ensures there { OnOk result (HasCells (array_of (scope_of scope) x self.old.frames) (place_in (offset.now ∷ []))) }
        ensures ok { OnOk result (self.new ≡ record self.old { frames = with_array (scope_of scope) x (overwritten (place_in (offset.now ∷ [])) (value.now ∷ []) (array_of (scope_of scope) x self.old.frames)) self.old.frames }) }
        ensures err { IfErr result (λ n. loaded (array_of (scope_of scope) x self.old.frames) (place_in (offset.now ∷ [])) ≡ at_fault n) }
        ensures kept { OnErr result (self.new ≡ self.old) }
    {
        match slot(scope, x, self.base, self.main, self.row.len()) {
            None => Err(NOT_ALLOCATED),
            Some(k) => self.row.store(k, offset, value),
        }
    }

    /// The element of an array of rank one by its subscript (ISO/IEC 1539-1:2018, 9.5.3.2); None says that it isn't
    /// found at once, and the ordinary way tells what it is: an array of another rank or one that isn't allocated, or a
    /// subscript outside its bounds.
    #[inline(always)]
    pub fn element_by_one(&self, scope: Scope, x: u32, subscript: i64) -> Option<i64>
        ensures { IfSome result (IsElement (array_of (scope_of scope) x self.now.frames) (single subscript ∷ [])) }
    {
        match slot(scope, x, self.base, self.main, self.row.len()) {
            None => None,
            Some(k) => self.row.element_by_one(k, subscript),
        }
    }

    /// The element of an array of rank two by its row and its column (ISO/IEC 1539-1:2018, 9.5.3.2); None says that it
    /// isn't found at once, and the ordinary way tells what it is: an array of another rank or one that isn't
    /// allocated, or a subscript outside its bounds.
    #[inline(always)]
    pub fn element_by_two(&self, scope: Scope, x: u32, row: i64, column: i64) -> Option<i64>
        ensures { IfSome result (IsElement (array_of (scope_of scope) x self.now.frames) (single row ∷ single column ∷ [])) }
    {
        match slot(scope, x, self.base, self.main, self.row.len()) {
            None => None,
            Some(k) => self.row.element_by_two(k, row, column),
        }
    }

    /// Gives the element of an array of rank one by its subscript a value (ISO/IEC 1539-1:2018, 9.5.3.2); false says
    /// that it isn't found at once, nothing is changed, and the ordinary way tells what it is: an array of another rank
    /// or one that isn't allocated, or a subscript outside its bounds.
    #[inline(always)]
    pub fn put_by_one(&mut self, scope: Scope, x: u32, subscript: i64, value: i64) -> bool
        ensures put { IsTrue result → (b : Option Local) × HasNewElement (array_of (scope_of scope) x self.old.frames) (single subscript ∷ []) value b × (self.new ≡ record self.old { frames = with_array (scope_of scope) x b self.old.frames }) }
        ensures kept { IsFalse result → self.new ≡ self.old }
    {
        match slot(scope, x, self.base, self.main, self.row.len()) {
            None => false,
            Some(k) => self.row.put_by_one(k, subscript, value),
        }
    }

    /// Gives the element of an array of rank two by its row and its column a value (ISO/IEC 1539-1:2018, 9.5.3.2);
    /// false says that it isn't found at once, nothing is changed, and the ordinary way tells what it is: an array of
    /// another rank or one that isn't allocated, or a subscript outside its bounds.
    #[inline(always)]
    pub fn put_by_two(&mut self, scope: Scope, x: u32, row: i64, column: i64, value: i64) -> bool
        ensures put { IsTrue result → (b : Option Local) × HasNewElement (array_of (scope_of scope) x self.old.frames) (single row ∷ single column ∷ []) value b × (self.new ≡ record self.old { frames = with_array (scope_of scope) x b self.old.frames }) }
        ensures kept { IsFalse result → self.new ≡ self.old }
    {
        match slot(scope, x, self.base, self.main, self.row.len()) {
            None => false,
            Some(k) => self.row.put_by_two(k, row, column, value),
        }
    }

    /// The elements of an array, where it is there.
    pub fn elements(&self, scope: Scope, x: u32) -> Option<&[i64]>
        ensures some { IfSome result (λ xs. elements_of (array_of (scope_of scope) x self.now.frames) ≡ Some xs.now) }
        ensures few { IfSome result (λ xs. length xs.now < 2 ^ 32) }
        ensures none { IfNone result (array_of (scope_of scope) x self.now.frames ≡ None) }
    {
        match slot(scope, x, self.base, self.main, self.row.len()) {
            None => None,
            Some(k) => self.row.elements(k),
        }
    }

    /// Whether an array is there.
    pub fn is_there(&self, scope: Scope, x: u32) -> bool
        ensures { result ≡ is_some (array_of (scope_of scope) x self.now.frames) }
    {
        self.elements(scope, x).is_some()
    }

    /// Tests whether an array is there with each cell of a place; else the run fault NotAllocated or Shape.
    pub fn check(&self, scope: Scope, x: u32, place: &[i64]) -> Result<(), u32>
        ensures ok { OnOk result (HasCells (array_of (scope_of scope) x self.now.frames) (place_in place.now)) }
        ensures err { IfErr result (λ n. loaded (array_of (scope_of scope) x self.now.frames) (place_in place.now) ≡ at_fault n) }
    {
        match self.elements(scope, x) {
            None => Err(NOT_ALLOCATED),
            Some(elements) => {
                if has_cells(elements, place) {
                    Ok(())
                } else {
                    Err(SHAPE)
                }
            }
        }
    }

    /// Begins a frame of so many arrays, which aren't there.
    pub fn begin(&mut self, n: u32)
        requires deep { length self.old.frames ≤ self.old.deepest }
        requires room { count_of self.old.frames + n ≤ self.old.most }
        ensures { self.new ≡ record self.old { frames = replicate n None ∷ self.old.frames } }
    {
        let base = self.row.len();
        self.bases.push_reserved(base);
        self.base = base;
        self.row.push_all(n);
    }

    /// Ends the frame in front: its arrays go.
    pub fn end(&mut self)
        requires { 1 < length self.old.frames }
        ensures { self.new ≡ record self.old { frames = drop 1 self.old.frames } }
    {
        let base = self.bases.take_last();
        self.row.keep(base);
        self.base = last_of(&self.bases);
    }

    /// The bounds of an array, where it is there: a lower and an upper one for each dimension.
    pub fn bounds(&self, scope: Scope, x: u32) -> Option<&[i64]>
        ensures some { IfSome result (λ ns. bounds_in (array_of (scope_of scope) x self.now.frames) ≡ Some (pairs_in ns.now)) }
        ensures few { IfSome result (λ ns. length ns.now ≤ 6) }
        ensures none { IfNone result (array_of (scope_of scope) x self.now.frames ≡ None) }
    {
        match slot(scope, x, self.base, self.main, self.row.len()) {
            None => None,
            Some(k) => self.row.bounds(k),
        }
    }

    /// The numbers of the place of an element or a section of an array, by a form and the numbers of its subscripts; or
    /// the run fault that is found first.
    pub fn section(
        &self,
        scope: Scope,
        x: u32,
        form: u32,
        numbers: &[i64],
    ) -> Result<PlaceNumbers, u32>
        ensures found { IfOk result (λ p. numbers_of (place_found (array_of (scope_of scope) x self.now.frames) (subscripts_in (digits form) numbers.now)) ≡ found p) }
        ensures faults { IfErr result (λ n. numbers_of (place_found (array_of (scope_of scope) x self.now.frames) (subscripts_in (digits form) numbers.now)) ≡ at_fault n) }
    {
        match slot(scope, x, self.base, self.main, self.row.len()) {
            None => Err(NOT_ALLOCATED),
            Some(k) => self.row.section(k, form, numbers),
        }
    }

    /// Gives each cell of a place of an array one value.
    pub fn fill(&mut self, scope: Scope, x: u32, place: &[i64], value: &i64)
        requires { HasCells (array_of (scope_of scope) x self.old.frames) (place_in place.now) }
        ensures { self.new ≡ record self.old { frames = with_array (scope_of scope) x (overwritten (place_in place.now) (replicate (length (offsets (place_in place.now))) value.now) (array_of (scope_of scope) x self.old.frames)) self.old.frames } }
    {
        if let Some(k) = slot(scope, x, self.base, self.main, self.row.len()) {
            self.row.fill(k, place, value);
        }
    }

    /// Gives the cells of a place of an array these values, in array element order, as far as there are both.
    pub fn put(&mut self, scope: Scope, x: u32, place: &[i64], values: &[i64])
        requires { HasCells (array_of (scope_of scope) x self.old.frames) (place_in place.now) }
        ensures { self.new ≡ record self.old { frames = with_array (scope_of scope) x (overwritten (place_in place.now) values.now (array_of (scope_of scope) x self.old.frames)) self.old.frames } }
    {
        if let Some(k) = slot(scope, x, self.base, self.main, self.row.len()) {
            self.row.put(k, place, values);
        }
    }

    /// Gives an array these bounds and zeros (ALLOCATE, 9.7.1), where all arrays have room together; else the run fault
    /// Room, and nothing is changed.
    pub fn lay(&mut self, scope: Scope, x: u32, numbers: &[i64]) -> Result<(), u32>
        requires { length numbers.now ≤ 6 }
        ensures ok { OnOk result (self.new ≡ record self.old { frames = with_array (scope_of scope) x (Some (zeros_in (pairs_in numbers.now))) self.old.frames }) }
        ensures room { OnOk result (cells_in_frames (with_array (scope_of scope) x (Some (zeros_in (pairs_in numbers.now))) self.old.frames) ≤ self.old.size) }
        ensures err { IfErr result (λ n. n ≡ 11) }
        ensures full { OnErr result (self.old.size < cells_in_frames (with_array (scope_of scope) x (Some (zeros_in (pairs_in numbers.now))) self.old.frames)) }
        ensures kept { OnErr result (self.new ≡ self.old) }
    {
        match slot(scope, x, self.base, self.main, self.row.len()) {
            None => self.row.has_room(),
            Some(k) => self.row.lay(k, numbers),
        }
    }

    /// Gives an array these elements, as one of rank one with the lower bound 1, where all arrays have room together;
    /// else the run fault Room, and nothing is changed.
    pub fn renew(&mut self, scope: Scope, x: u32, values: &[i64]) -> Result<(), u32>
        ensures ok { OnOk result (self.new ≡ record self.old { frames = with_array (scope_of scope) x (Some (from_one values.now)) self.old.frames }) }
        ensures room { OnOk result (cells_in_frames (with_array (scope_of scope) x (Some (from_one values.now)) self.old.frames) ≤ self.old.size) }
        ensures err { IfErr result (λ n. n ≡ 11) }
        ensures full { OnErr result (self.old.size < cells_in_frames (with_array (scope_of scope) x (Some (from_one values.now)) self.old.frames)) }
        ensures kept { OnErr result (self.new ≡ self.old) }
    {
        match slot(scope, x, self.base, self.main, self.row.len()) {
            None => self.row.has_room(),
            Some(k) => self.row.renew(k, values),
        }
    }

    /// Takes an array away (DEALLOCATE, 9.7.3).
    pub fn take_away(&mut self, scope: Scope, x: u32)
        ensures { self.new ≡ record self.old { frames = with_array (scope_of scope) x None self.old.frames } }
    {
        if let Some(k) = slot(scope, x, self.base, self.main, self.row.len()) {
            self.row.remove(k);
        }
    }

    /// Gives an array as many other elements.
    pub fn refill(&mut self, scope: Scope, x: u32, values: &[i64])
        requires { local_size (array_of (scope_of scope) x self.old.frames) ≡ length values.now }
        ensures { self.new ≡ record self.old { frames = with_array (scope_of scope) x (refilled values.now (array_of (scope_of scope) x self.old.frames)) self.old.frames } }
    {
        if let Some(k) = slot(scope, x, self.base, self.main, self.row.len()) {
            self.row.refill(k, values);
        }
    }
}

/// Whether elements have each cell of a place.
fn has_cells(elements: &[i64], place: &[i64]) -> bool
    requires { length elements.now < 2 ^ 32 }
    ensures { result ≡ is_some (elements_there (place_in place.now) (record { bounds = []; elements = elements.now })) }
{
    if cells_in(place) > elements.len() as u64 {
        return false;
    }
    are_there(elements, place)
}

/// The last of some places, or 0 where there are none.
#[tactic(auto, using(crate::proofs::FrameLaws::last_is))]
fn last_of(bases: &[usize]) -> usize
    ensures { result ≡ base_of (reverse bases.now) }
{
    let n = bases.len();
    if n == 0 {
        return 0;
    }
    bases[n - 1]
}

/// The main program's arrays at the start, with room for so many others and for 65,536 cells more.
fn first_row(alloc: Global, first: &[Option<FirstArray>], arrays: usize) -> Result<Row, NoMemory>
    ensures { IfOk result (λ r. r ≡ record { arrays = map first_array first.now; most = length first.now + arrays; size = room_for_arrays (map first_array first.now) }) }
{
    let size = room_for(first)?;
    let Some(most) = first.len().checked_add(arrays) else {
        return Err(NoMemory);
    };
    let mut row = Row::new(alloc, most, size)?;
    row.add_all(first)?;
    Ok(row)
}
