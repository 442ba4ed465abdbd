//! Arrays in one row of cells, kept dense.

ghost use Rattle.std.specs.Prelude.{◌≡◌, ◌<◌, ◌≤◌, ◌+◌, ◌^◌, ◌∷◌, ◌++◌, [], ⊤, pos, take, drop, length, vec_capacity, slice_get, slice_index_or, slice_set, replicate, is_some, Some, None, Option, ◌-◌, min, IsTrue, IsFalse, IfOk, IfErr, OnOk, OnErr, IfSome, IfNone};
ghost use Rattle.caf_base.specs.Arithmetic.{natural};
ghost use Rattle.walk_theory.specs.Terms.{found, at_fault};
ghost use Rattle.image_acts.specs.Core.{Local};
ghost use Rattle.image_acts.specs.Frames.{cells_in_arrays, local_size, pairs_in, zeros_in};
ghost use Rattle.image_acts.specs.Places.{place_in, offsets, cells_of, with_elements_at, single, subscripts_in, digits};
ghost use Rattle.array_places.specs.Sections.{numbers_of};
ghost use Rattle.local_arrays.specs.Arrays.{array_at, from_one, bounds_in, place_found, elements_of, loaded, overwritten, refilled, HasCells, HasNewElement, IsElement};
ghost use Rattle.local_arrays.specs.Rows.{Rowed, Fit, IsCell, IsSpot, exchanged, locals_of, pairs_of, local_with, placed, total_size, IsWell};

use crate::bounds::{Bounds, bounds_of};
use crate::offsets::{offset_of_one, offset_of_two};
use crate::reach::{Reach, reach_of};
use array_places::bounds::cells_between;
use array_places::elements::{fill, put};
use array_places::list::PlaceNumbers;
use caf_events::fault::{NOT_ALLOCATED, ROOM, SHAPE};
use std::alloc::{AllocError, Global};
use std::marker::Model;

/// An array: how its elements are found at once; its bounds, where it is there; where its cells begin, and how many it
/// has.
#[derive(Clone, Copy)]
pub struct Info {
    pub(crate) reach: Reach,
    pub(crate) bounds: Option<Bounds>,
    pub(crate) start: usize,
    pub(crate) size: usize,
}

/// Arrays in room that is made once.
#[derive(Drop)]
pub struct Row {
    cells: Vec<i64>,
    infos: Vec<Info>,
}

impl Model for Row {
    ghost use Rattle.std.specs.Prelude.{◌<◌, vec_capacity};
    ghost use Rattle.local_arrays.specs.Rows.{Rowed, locals_of, Fit};

    ghost Value = { Rowed };

    ghost view = { λ r. record { arrays = locals_of r.cells.items r.infos.items; most = vec_capacity r.infos; size = vec_capacity r.cells } };

    ghost invariant = { λ r. Fit r.cells.items r.infos.items × (vec_capacity r.cells < 4294967296) };
}

impl Row {
    /// No arrays, with room for so many and for so many cells in all.
    pub fn new(alloc: Global, most: usize, size: u32) -> Result<Row, AllocError>
        ensures { IfOk result (λ r. r ≡ record { arrays = []; most = most; size = size }) }
    {
        let cells = Vec::with_capacity(alloc, size as usize)?;
        let infos = Vec::with_capacity(alloc, most)?;
        Ok(Row { cells, infos })
    }

    /// How many arrays there are.
    #[inline(always)]
    #[tactic(auto, using(crate::proofs::RowLaws::locals_long))]
    pub fn len(&self) -> usize
        ensures { result ≡ length self.now.arrays }
    {
        self.infos.len()
    }

    /// How many cells they have.
    #[tactic(auto, using(crate::proofs::RowLaws::cells_all))]
    pub fn total(&self) -> usize
        ensures { result ≡ cells_in_arrays self.now.arrays }
    {
        self.cells.len()
    }

    /// The elements of an array, where it is there.
    #[tactic(auto, using(crate::proofs::RowLaws::locals_long))]
    pub fn elements(&self, k: usize) -> Option<&[i64]>
        requires { k < length self.now.arrays }
        ensures some { IfSome result (λ xs. elements_of (array_at k self.now.arrays) ≡ Some xs.now) }
        ensures few { IfSome result (λ xs. length xs.now < 2 ^ 32) }
        ensures none { IfNone result (array_at k self.now.arrays ≡ None) }
    {
        elements_in(&self.cells, &self.infos, k)
    }

    /// One array more, which isn't there.
    pub fn push(&mut self)
        requires { length self.old.arrays < self.old.most }
        ensures { self.new ≡ record { arrays = self.old.arrays ++ None ∷ []; most = self.old.most; size = self.old.size } }
    {
        let start = self.cells.len();
        self.infos.push_reserved(Info {
            reach: Reach::Other,
            bounds: None,
            start,
            size: 0,
        });
    }

    /// So many arrays more, which aren't there.
    pub fn push_all(&mut self, n: u32)
        requires { length self.old.arrays + n ≤ self.old.most }
        ensures { self.new ≡ record { arrays = self.old.arrays ++ replicate n None; most = self.old.most; size = self.old.size } }
    {
        for i in 0..n {
            let _ = i;
            self.push();
        }
    }

    /// Keeps the first so many arrays, or all where there are fewer.
    pub fn keep(&mut self, n: usize)
        ensures { self.new ≡ record { arrays = take n self.old.arrays; most = self.old.most; size = self.old.size } }
    {
        if n < self.len() {
            self.truncate(n);
        }
    }

    /// Takes an array away.
    #[tactic(auto, using(crate::proofs::RowLaws::locals_long))]
    pub fn remove(&mut self, k: usize)
        requires { k < length self.old.arrays }
        ensures { self.new ≡ record { arrays = slice_set self.old.arrays k None; most = self.old.most; size = self.old.size } }
    {
        let info = info_at(&self.infos, k);
        let start = info.start;
        close_gap(&mut self.cells, start, info.size);
        set_info(
            &mut self.infos,
            k,
            Info {
                reach: Reach::Other,
                bounds: None,
                start,
                size: 0,
            },
        );
        place_behind(&mut self.infos, k + 1, start);
    }

    /// How many cells there is room for.
    fn room(&self) -> usize
        ensures is { result ≡ self.now.size }
        ensures small { result < 2 ^ 32 }
    {
        self.cells.capacity()
    }

    /// Whether all have room as they are; else the run fault Room.
    pub fn has_room(&self) -> Result<(), u32>
        ensures ok { OnOk result (cells_in_arrays self.now.arrays ≤ self.now.size) }
        ensures err { IfErr result (λ n. n ≡ 11) }
        ensures full { OnErr result (self.now.size < cells_in_arrays self.now.arrays) }
    {
        if self.total() <= self.room() {
            Ok(())
        } else {
            Err(ROOM)
        }
    }

    /// How many cells an array has.
    #[tactic(auto, using(crate::proofs::RowLaws::locals_long, crate::proofs::RowLaws::same_size))]
    fn count(&self, k: usize) -> usize
        requires { k < length self.now.arrays }
        ensures { result ≡ local_size (array_at k self.now.arrays) }
    {
        info_at(&self.infos, k).size
    }

    /// Whether there is room for an array of so many cells in the place of one; of more than 128 bits hold there may be
    /// any number.
    pub fn fits(&self, k: usize, n: u128) -> bool
        requires { k < length self.now.arrays }
        ensures few { IsTrue result → n < 2 ^ 32 }
        ensures fits { IsTrue result → (v : Option Local) → min (local_size v) (2 ^ 128 - 1) ≡ n → cells_in_arrays (slice_set self.now.arrays k v) ≤ self.now.size }
        ensures not { IsFalse result → (v : Option Local) → min (local_size v) (2 ^ 128 - 1) ≡ n → self.now.size < cells_in_arrays (slice_set self.now.arrays k v) }
    {
        let others = self.total().saturating_sub(self.count(k));
        let room = self.room();
        if others > room {
            return false;
        }
        n <= (room - others) as u128
    }

    /// Keeps the first so many arrays.
    #[tactic(auto, using(crate::proofs::RowLaws::locals_long))]
    pub fn truncate(&mut self, n: usize)
        requires { n < length self.old.arrays }
        ensures { self.new ≡ record { arrays = take n self.old.arrays; most = self.old.most; size = self.old.size } }
    {
        let start = info_at(&self.infos, n).start;
        self.cells.truncate(start);
        self.infos.truncate(n);
    }

    /// Whether an array is there.
    pub fn is_there(&self, k: usize) -> bool
        requires { k < length self.now.arrays }
        ensures { result ≡ is_some (array_at k self.now.arrays) }
    {
        self.elements(k).is_some()
    }

    /// The bounds of an array, where it is there: a lower and an upper one for each dimension.
    #[tactic(auto, using(crate::proofs::RowLaws::locals_long))]
    pub fn bounds(&self, k: usize) -> Option<&[i64]>
        requires { k < length self.now.arrays }
        ensures some { IfSome result (λ ns. bounds_in (array_at k self.now.arrays) ≡ Some (pairs_in ns.now)) }
        ensures few { IfSome result (λ ns. length ns.now ≤ 6) }
        ensures none { IfNone result (array_at k self.now.arrays ≡ None) }
    {
        match &info_of(&self.infos, k).bounds {
            None => None,
            Some(bounds) => Some(bounds.as_slice()),
        }
    }

    /// The numbers of the place of an element or a section of an array, by a form and the numbers of its subscripts; or
    /// the run fault that is found first.
    #[tactic(auto, using(crate::proofs::RowLaws::locals_long))]
    pub fn section(&self, k: usize, form: u32, numbers: &[i64]) -> Result<PlaceNumbers, u32>
        requires { k < length self.now.arrays }
        ensures found { IfOk result (λ p. numbers_of (place_found (array_at k self.now.arrays) (subscripts_in (digits form) numbers.now)) ≡ found p) }
        ensures faults { IfErr result (λ n. numbers_of (place_found (array_at k self.now.arrays) (subscripts_in (digits form) numbers.now)) ≡ at_fault n) }
    {
        match &info_of(&self.infos, k).bounds {
            None => Err(NOT_ALLOCATED),
            Some(bounds) => bounds.place(form, numbers),
        }
    }

    /// An element of an array, or the run fault NotAllocated or Shape.
    #[inline(always)]
    #[tactic(auto, using(crate::proofs::RowLaws::locals_long))]
    pub fn element(&self, k: usize, offset: &i64) -> Result<i64, u32>
        requires { k < length self.now.arrays }
        ensures ok { IfOk result (λ v. loaded (array_at k self.now.arrays) (place_in (offset.now ∷ [])) ≡ found (v ∷ [])) }
        ensures err { IfErr result (λ n. loaded (array_at k self.now.arrays) (place_in (offset.now ∷ [])) ≡ at_fault n) }
    {
        element_in(&self.cells, &self.infos, k, offset)
    }

    /// Gives an element of an array a value; else the run fault NotAllocated or Shape, and nothing is changed.
    #[inline(always)]
    #[tactic(auto, using(crate::proofs::RowLaws::locals_long))]
    pub fn store(&mut self, k: usize, offset: &i64, value: &i64) -> Result<(), u32>
        requires { k < length self.old.arrays }
        ensures there { OnOk result (HasCells (array_at k self.old.arrays) (place_in (offset.now ∷ []))) }
        ensures ok { OnOk result (self.new ≡ record { arrays = slice_set self.old.arrays k (overwritten (place_in (offset.now ∷ [])) (value.now ∷ []) (array_at k self.old.arrays)); most = self.old.most; size = self.old.size }) }
        ensures err { IfErr result (λ n. loaded (array_at k self.old.arrays) (place_in (offset.now ∷ [])) ≡ at_fault n) }
        ensures kept { OnErr result (self.new ≡ self.old) }
    {
        let at = spot(&self.cells, &self.infos, k, offset)?;
        write(&mut self.cells, at, value);
        Ok(())
    }

    /// The element of an array of rank one by its subscript (ISO/IEC 1539-1:2018, 9.5.3.2); None says that it isn't
    /// found at once, and the ordinary way tells what it is: an array of another rank or one that isn't allocated, or a
    /// subscript outside its bounds.
    #[inline(always)]
    #[tactic(auto, using(crate::proofs::RowLaws::locals_long))]
    pub fn element_by_one(&self, k: usize, subscript: i64) -> Option<i64>
        requires { k < length self.now.arrays }
        ensures { IfSome result (IsElement (array_at k self.now.arrays) (single subscript ∷ [])) }
    {
        let at = cell_by_one(&self.cells, &self.infos, k, subscript)?;
        Some(read(&self.cells, at))
    }

    /// The element of an array of rank two by its row and its column (ISO/IEC 1539-1:2018, 9.5.3.2); None says that it
    /// isn't found at once, and the ordinary way tells what it is: an array of another rank or one that isn't
    /// allocated, or a subscript outside its bounds.
    #[inline(always)]
    #[tactic(auto, using(crate::proofs::RowLaws::locals_long))]
    pub fn element_by_two(&self, k: usize, row: i64, column: i64) -> Option<i64>
        requires { k < length self.now.arrays }
        ensures { IfSome result (IsElement (array_at k self.now.arrays) (single row ∷ single column ∷ [])) }
    {
        let at = cell_by_two(&self.cells, &self.infos, k, row, column)?;
        Some(read(&self.cells, at))
    }

    /// Gives the element of an array of rank one by its subscript a value (ISO/IEC 1539-1:2018, 9.5.3.2); false says
    /// that it isn't found at once, nothing is changed, and the ordinary way tells what it is: an array of another rank
    /// or one that isn't allocated, or a subscript outside its bounds.
    #[inline(always)]
    #[tactic(auto, using(crate::proofs::RowLaws::locals_long))]
    pub fn put_by_one(&mut self, k: usize, subscript: i64, value: i64) -> bool
        requires { k < length self.old.arrays }
        ensures put { IsTrue result → (b : Option Local) × HasNewElement (array_at k self.old.arrays) (single subscript ∷ []) value b × (self.new ≡ record { arrays = slice_set self.old.arrays k b; most = self.old.most; size = self.old.size }) }
        ensures kept { IsFalse result → self.new ≡ self.old }
    {
        match cell_by_one(&self.cells, &self.infos, k, subscript) {
            None => false,
            Some(at) => {
                write(&mut self.cells, at, &value);
                true
            }
        }
    }

    /// Gives the element of an array of rank two by its row and its column a value (ISO/IEC 1539-1:2018, 9.5.3.2);
    /// false says that it isn't found at once, nothing is changed, and the ordinary way tells what it is: an array of
    /// another rank or one that isn't allocated, or a subscript outside its bounds.
    #[inline(always)]
    #[tactic(auto, using(crate::proofs::RowLaws::locals_long))]
    pub fn put_by_two(&mut self, k: usize, row: i64, column: i64, value: i64) -> bool
        requires { k < length self.old.arrays }
        ensures put { IsTrue result → (b : Option Local) × HasNewElement (array_at k self.old.arrays) (single row ∷ single column ∷ []) value b × (self.new ≡ record { arrays = slice_set self.old.arrays k b; most = self.old.most; size = self.old.size }) }
        ensures kept { IsFalse result → self.new ≡ self.old }
    {
        match cell_by_two(&self.cells, &self.infos, k, row, column) {
            None => false,
            Some(at) => {
                write(&mut self.cells, at, &value);
                true
            }
        }
    }

    /// Gives each cell of a place of an array one value.
    #[tactic(auto, using(crate::proofs::RowLaws::locals_long))]
    pub fn fill(&mut self, k: usize, place: &[i64], value: &i64)
        requires number { k < length self.old.arrays }
        requires there { HasCells (array_at k self.old.arrays) (place_in place.now) }
        ensures { self.new ≡ record { arrays = slice_set self.old.arrays k (overwritten (place_in place.now) (replicate (length (offsets (place_in place.now))) value.now) (array_at k self.old.arrays)); most = self.old.most; size = self.old.size } }
    {
        let info = info_at(&self.infos, k);
        fill_part(&mut self.cells, info.start, info.size, place, value);
    }

    /// Gives the cells of a place of an array these values, in array element order, as far as there are both.
    #[tactic(auto, using(crate::proofs::RowLaws::locals_long))]
    pub fn put(&mut self, k: usize, place: &[i64], values: &[i64])
        requires number { k < length self.old.arrays }
        requires there { HasCells (array_at k self.old.arrays) (place_in place.now) }
        ensures { self.new ≡ record { arrays = slice_set self.old.arrays k (overwritten (place_in place.now) values.now (array_at k self.old.arrays)); most = self.old.most; size = self.old.size } }
    {
        let info = info_at(&self.infos, k);
        put_part(&mut self.cells, info.start, info.size, place, values);
    }

    /// Puts an array of so many zeros with these bounds, or none, in the place of one. It takes no memory, as nothing
    /// here does.
    #[tactic(auto, using(crate::proofs::RowLaws::locals_long))]
    pub fn reset(&mut self, k: usize, bounds: Option<Bounds>, n: usize)
        requires number { k < length self.old.arrays }
        requires well { IsWell bounds n }
        requires room { cells_in_arrays (slice_set self.old.arrays k (local_with bounds (replicate n (pos 0)))) ≤ self.old.size }
        ensures { self.new ≡ record { arrays = slice_set self.old.arrays k (local_with bounds (replicate n (pos 0))); most = self.old.most; size = self.old.size } }
    {
        let info = info_at(&self.infos, k);
        let start = info.start;
        let reach = reach_of(&bounds, n);
        gap(&mut self.cells, start, info.size, n);
        set_info(
            &mut self.infos,
            k,
            Info {
                reach,
                bounds,
                start,
                size: n,
            },
        );
        place_behind(&mut self.infos, k + 1, start + n);
    }

    /// Puts an array of zeros with these bounds in the place of one, where all have room; else the run fault Room, and
    /// nothing is changed.
    pub fn lay(&mut self, k: usize, numbers: &[i64]) -> Result<(), u32>
        requires number { k < length self.old.arrays }
        requires few { length numbers.now ≤ 6 }
        ensures ok { OnOk result (self.new ≡ record { arrays = slice_set self.old.arrays k (Some (zeros_in (pairs_in numbers.now))); most = self.old.most; size = self.old.size }) }
        ensures room { OnOk result (cells_in_arrays (slice_set self.old.arrays k (Some (zeros_in (pairs_in numbers.now)))) ≤ self.old.size) }
        ensures err { IfErr result (λ n. n ≡ 11) }
        ensures full { OnErr result (self.old.size < cells_in_arrays (slice_set self.old.arrays k (Some (zeros_in (pairs_in numbers.now))))) }
        ensures kept { OnErr result (self.new ≡ self.old) }
    {
        let n = cells_between(numbers);
        if !self.fits(k, n) {
            return Err(ROOM);
        }
        self.reset(k, Some(bounds_of(numbers)), n as usize);
        Ok(())
    }

    /// Puts an array of rank one with these elements and the lower bound 1 in the place of one, where all have room;
    /// else the run fault Room, and nothing is changed.
    pub fn renew(&mut self, k: usize, values: &[i64]) -> Result<(), u32>
        requires { k < length self.old.arrays }
        ensures ok { OnOk result (self.new ≡ record { arrays = slice_set self.old.arrays k (Some (from_one values.now)); most = self.old.most; size = self.old.size }) }
        ensures room { OnOk result (cells_in_arrays (slice_set self.old.arrays k (Some (from_one values.now))) ≤ self.old.size) }
        ensures err { IfErr result (λ n. n ≡ 11) }
        ensures full { OnErr result (self.old.size < cells_in_arrays (slice_set self.old.arrays k (Some (from_one values.now)))) }
        ensures kept { OnErr result (self.new ≡ self.old) }
    {
        let n = values.len();
        if !self.fits(k, n as u128) {
            return Err(ROOM);
        }
        self.reset(k, Some(bounds_of(&[1, n as i64])), n);
        self.refill(k, values);
        Ok(())
    }

    /// Gives an array as many other elements.
    #[tactic(auto, using(crate::proofs::RowLaws::locals_long))]
    pub fn refill(&mut self, k: usize, values: &[i64])
        requires number { k < length self.old.arrays }
        requires as_many { local_size (array_at k self.old.arrays) ≡ length values.now }
        ensures { self.new ≡ record { arrays = slice_set self.old.arrays k (refilled values.now (array_at k self.old.arrays)); most = self.old.most; size = self.old.size } }
    {
        let info = info_at(&self.infos, k);
        copy_part(&mut self.cells, info.start, values);
    }
}

/// The array with this number.
#[inline(always)]
fn info_at(infos: &[Info], k: usize) -> Info
    requires { k < length infos.now }
    ensures { slice_get infos.now k ≡ Some result }
{
    infos[k]
}

/// The same behind a reference.
#[inline(always)]
fn info_of(infos: &[Info], k: usize) -> &Info
    requires { k < length infos.now }
    ensures { slice_get infos.now k ≡ Some result.now }
{
    &infos[k]
}

/// So many cells from a start on.
#[inline(always)]
fn part(cells: &[i64], start: usize, size: usize) -> &[i64]
    requires { start + size ≤ length cells.now }
    ensures { result.now ≡ take size (drop start cells.now) }
{
    &cells[start..start + size]
}

/// The cell of an element of an array, or the run fault NotAllocated or Shape.
#[inline(always)]
#[tactic(auto, using(crate::proofs::RowLaws::within, crate::proofs::RowLaws::element_missing, crate::proofs::RowLaws::element_past))]
fn spot(cells: &[i64], infos: &[Info], k: usize, offset: &i64) -> Result<usize, u32>
    requires fit { Fit cells.now infos.now }
    requires number { k < length infos.now }
    ensures ok { IfOk result (λ at. IsSpot infos.now k offset.now at) }
    ensures err { IfErr result (λ n. loaded (array_at k (locals_of cells.now infos.now)) (place_in (offset.now ∷ [])) ≡ at_fault n) }
{
    let _cells = cells;
    let info = info_at(infos, k);
    let Some(_) = info.bounds else {
        return Err(NOT_ALLOCATED);
    };
    let at = natural(offset);
    if at >= info.size {
        return Err(SHAPE);
    }
    Ok(info.start + at)
}

/// The cell of an element of an array by one subscript, where it is found at once.
#[inline(always)]
fn cell_by_one(cells: &[i64], infos: &[Info], k: usize, subscript: i64) -> Option<usize>
    requires fit { Fit cells.now infos.now }
    requires number { k < length infos.now }
    ensures { IfSome result (IsCell cells.now infos.now k (single subscript ∷ [])) }
{
    let _cells = cells;
    let info = info_of(infos, k);
    match info.reach {
        Reach::One { lower, upper } => {
            let offset = offset_of_one(lower, upper, subscript)?;
            Some(info.start + offset)
        }
        _ => None,
    }
}

/// The cell of an element of an array by its row and its column, where it is found at once.
#[inline(always)]
fn cell_by_two(cells: &[i64], infos: &[Info], k: usize, row: i64, column: i64) -> Option<usize>
    requires fit { Fit cells.now infos.now }
    requires number { k < length infos.now }
    ensures { IfSome result (IsCell cells.now infos.now k (single row ∷ single column ∷ [])) }
{
    let _cells = cells;
    let info = info_of(infos, k);
    match info.reach {
        Reach::Two {
            low,
            high,
            left,
            right,
        } => {
            let offset = offset_of_two(low, high, left, right, row, column)?;
            Some(info.start + offset)
        }
        _ => None,
    }
}

/// A number, or 0 for one below 0.
#[inline(always)]
fn natural(v: &i64) -> usize
    ensures { result ≡ natural v.now }
{
    if *v < 0 { 0 } else { *v as usize }
}

/// An element of an array, or the run fault NotAllocated or Shape.
#[inline(always)]
#[tactic(auto, using(crate::proofs::RowLaws::spot_within, crate::proofs::RowLaws::element_there))]
fn element_in(cells: &[i64], infos: &[Info], k: usize, offset: &i64) -> Result<i64, u32>
    requires fit { Fit cells.now infos.now }
    requires number { k < length infos.now }
    ensures ok { IfOk result (λ v. loaded (array_at k (locals_of cells.now infos.now)) (place_in (offset.now ∷ [])) ≡ found (v ∷ [])) }
    ensures err { IfErr result (λ n. loaded (array_at k (locals_of cells.now infos.now)) (place_in (offset.now ∷ [])) ≡ at_fault n) }
{
    let at = spot(cells, infos, k, offset)?;
    Ok(cells[at])
}

/// The elements of an array, where it is there.
#[tactic(auto, using(crate::proofs::RowLaws::within, crate::proofs::RowLaws::found_at))]
fn elements_in<'a>(cells: &'a [i64], infos: &[Info], k: usize) -> Option<&'a [i64]>
    requires fit { Fit cells.now infos.now }
    requires there { k < length infos.now }
    ensures some { IfSome result (λ xs. elements_of (array_at k (locals_of cells.now infos.now)) ≡ Some xs.now) }
    ensures few { IfSome result (λ xs. length xs.now < 2 ^ 32) }
    ensures none { IfNone result (array_at k (locals_of cells.now infos.now) ≡ None) }
{
    let info = info_at(infos, k);
    match info.bounds {
        None => None,
        Some(_) => Some(part(cells, info.start, info.size)),
    }
}

/// Gives each cell of a place among so many cells from a start on one value.
fn fill_part(cells: &mut Vec<i64>, start: usize, size: usize, place: &[i64], value: &i64)
    requires within { start + size ≤ length cells.old.items }
    requires few { cells_of (place_in place.now) < 2 ^ 32 }
    ensures items { cells.new.items ≡ exchanged start size (with_elements_at (offsets (place_in place.now)) (replicate (length (offsets (place_in place.now))) value.now) (take size (drop start cells.old.items))) cells.old.items }
    ensures capacity { vec_capacity cells.new ≡ vec_capacity cells.old }
{
    fill(&mut cells[start..start + size], place, value);
}

/// Gives the cells of a place among so many cells from a start on these values.
fn put_part(cells: &mut Vec<i64>, start: usize, size: usize, place: &[i64], values: &[i64])
    requires within { start + size ≤ length cells.old.items }
    requires few { cells_of (place_in place.now) < 2 ^ 32 }
    ensures items { cells.new.items ≡ exchanged start size (with_elements_at (offsets (place_in place.now)) values.now (take size (drop start cells.old.items))) cells.old.items }
    ensures capacity { vec_capacity cells.new ≡ vec_capacity cells.old }
{
    put(&mut cells[start..start + size], place, values);
}

/// Puts these values into as many cells from a start on.
fn copy_part(cells: &mut Vec<i64>, start: usize, values: &[i64])
    requires within { start + length values.now ≤ length cells.old.items }
    ensures items { cells.new.items ≡ exchanged start (length values.now) values.now cells.old.items }
    ensures capacity { vec_capacity cells.new ≡ vec_capacity cells.old }
{
    cells[start..start + values.len()].copy_from_slice(values);
}

/// Reads one cell.
#[inline(always)]
fn read(cells: &[i64], at: usize) -> i64
    requires { at < length cells.now }
    ensures { result ≡ slice_index_or cells.now at (pos 0) }
{
    cells[at]
}

/// Writes one cell.
#[inline(always)]
fn write(cells: &mut Vec<i64>, at: usize, v: &i64)
    requires { at < length cells.old.items }
    ensures items { cells.new.items ≡ slice_set cells.old.items at v.now }
    ensures capacity { vec_capacity cells.new ≡ vec_capacity cells.old }
{
    cells[at] = *v;
}

/// Takes so many cells away from this place on.
fn close_gap(cells: &mut Vec<i64>, start: usize, size: usize)
    requires { start + size ≤ length cells.old.items }
    ensures items { cells.new.items ≡ take start cells.old.items ++ drop (start + size) cells.old.items }
    ensures capacity { vec_capacity cells.new ≡ vec_capacity cells.old }
{
    let end = cells.len();
    cells.copy_within(start + size..end, start);
    cells.truncate(end - size);
}

/// Puts so many zeros behind, in room that is there.
fn add_zeros(cells: &mut Vec<i64>, n: usize)
    requires { length cells.old.items + n ≤ vec_capacity cells.old }
    ensures items { cells.new.items ≡ cells.old.items ++ replicate n (pos 0) }
    ensures capacity { vec_capacity cells.new ≡ vec_capacity cells.old }
{
    for i in 0..n {
        let _ = i;
        cells.push_reserved(0);
    }
}

/// Puts so many zeros in from this place on.
fn open_gap(cells: &mut Vec<i64>, start: usize, n: usize)
    requires within { start ≤ length cells.old.items }
    requires room { length cells.old.items + n ≤ vec_capacity cells.old }
    ensures items { cells.new.items ≡ take start cells.old.items ++ (replicate n (pos 0) ++ drop start cells.old.items) }
    ensures capacity { vec_capacity cells.new ≡ vec_capacity cells.old }
{
    add_zeros(cells, n);
    cells[start..].rotate_right(n);
}

/// Puts so many zeros in the place of so many cells from a start on.
#[tactic(auto, using(crate::proofs::RowLaws::gap_is))]
fn gap(cells: &mut Vec<i64>, start: usize, size: usize, n: usize)
    requires within { start + size ≤ length cells.old.items }
    requires room { length cells.old.items + n ≤ vec_capacity cells.old + size }
    ensures items { cells.new.items ≡ exchanged start size (replicate n (pos 0)) cells.old.items }
    ensures capacity { vec_capacity cells.new ≡ vec_capacity cells.old }
{
    close_gap(cells, start, size);
    open_gap(cells, start, n);
}

/// Puts another array into a row.
fn set_info(infos: &mut Vec<Info>, k: usize, info: Info)
    requires { k < length infos.old.items }
    ensures items { infos.new.items ≡ slice_set infos.old.items k info }
    ensures capacity { vec_capacity infos.new ≡ vec_capacity infos.old }
{
    infos[k] = info;
}

/// Lets the arrays from this one on stand one behind the other, the first one at a start.
fn place_behind(infos: &mut Vec<Info>, from: usize, start: usize)
    requires within { from ≤ length infos.old.items }
    requires small { start + total_size (drop from infos.old.items) < 2 ^ 64 }
    ensures items { infos.new.items ≡ take from infos.old.items ++ placed start (drop from infos.old.items) }
    ensures capacity { vec_capacity infos.new ≡ vec_capacity infos.old }
{
    let mut at = start;
    let n = infos.len();
    for k in from..n {
        let info = info_at(infos, k);
        set_info(
            infos,
            k,
            Info {
                reach: info.reach,
                bounds: info.bounds,
                start: at,
                size: info.size,
            },
        );
        at += info.size;
    }
}
