//! The arrays that the main program has from the start.

ghost use Rattle.std.specs.Prelude.{◌≡◌, ◌<◌, ◌≤◌, ◌+◌, ◌∷◌, ◌++◌, [], map, length, slice_set, sum_by, Some, IfOk, OnOk, IfSome, IfNone};
ghost use Rattle.image_acts.specs.Frames.{room_for_arrays, local_size};
ghost use Rattle.local_arrays.specs.Frames.{first_array, first_size, local_of};
ghost use Rattle.local_arrays.specs.Rows.{pairs_of, AreBounds};

use crate::bounds::{Bounds, bounds_of};
use crate::row::Row;
use caf_base::limits::LOCAL_CELLS;
use caf_base::refusal::NoMemory;
use image_code::tables::FirstArray;

/// The most cells of arrays beside those that are there from the start.
const MOST_CELLS: u64 = LOCAL_CELLS as u64;

/// Bounds of these pairs.
fn bounds_of_pairs(pairs: &[(i64, i64)]) -> Result<Bounds, NoMemory>
    ensures pairs { IfOk result (λ b. pairs_of b ≡ pairs.now) }
    ensures bounds { IfOk result (λ b. AreBounds b) }
{
    let Some((a, more)) = first_of(pairs) else {
        return Ok(bounds_of(&[]));
    };
    let Some((b, rest)) = first_of(more) else {
        return Ok(bounds_of(&[a.0, a.1]));
    };
    let Some((c, past)) = first_of(rest) else {
        return Ok(bounds_of(&[a.0, a.1, b.0, b.1]));
    };
    match first_of(past) {
        None => Ok(bounds_of(&[a.0, a.1, b.0, b.1, c.0, c.1])),
        Some(_) => Err(NoMemory),
    }
}

/// The first pair, and those behind it.
fn first_of(pairs: &[(i64, i64)]) -> Option<(&(i64, i64), &[(i64, i64)])>
    ensures some { IfSome result (λ r. pairs.now ≡ r.0.now ∷ r.1.now) }
    ensures none { IfNone result (pairs.now ≡ []) }
{
    pairs.split_first()
}

/// How many elements such an array has.
fn size_of_first(array: &Option<FirstArray>) -> usize
    ensures { result ≡ first_size array.now }
{
    match array {
        None => 0,
        Some(array) => array.elements.len(),
    }
}

/// How many cells there is room for.
#[tactic(auto, using(crate::proofs::FirstLaws::room_is))]
pub(crate) fn room_for(first: &[Option<FirstArray>]) -> Result<u32, NoMemory>
    ensures { IfOk result (λ n. n ≡ room_for_arrays (map first_array first.now)) }
{
    let cells = cells_of_first(first)?;
    if cells > 4_294_901_759 {
        return Err(NoMemory);
    }
    Ok((cells + MOST_CELLS) as u32)
}

/// How many elements such arrays have.
fn cells_of_first(first: &[Option<FirstArray>]) -> Result<u64, NoMemory>
    ensures { IfOk result (λ n. n ≡ sum_by first_size first.now) }
{
    let mut cells = 0u64;
    for array in first {
        cells = sum(cells, size_of_first(array) as u64)?;
    }
    Ok(cells)
}

/// A sum of 64 bits.
fn sum(a: u64, b: u64) -> Result<u64, NoMemory>
    ensures { IfOk result (λ n. n ≡ a + b) }
{
    match a.checked_add(b) {
        None => Err(NoMemory),
        Some(n) => Ok(n),
    }
}

impl Row {
    /// Puts such an array in the place of one.
    fn set_first(&mut self, k: usize, array: &FirstArray) -> Result<(), NoMemory>
        requires { k < length self.old.arrays }
        ensures { OnOk result (self.new ≡ record { arrays = slice_set self.old.arrays k (Some (local_of array.now)); most = self.old.most; size = self.old.size }) }
    {
        let bounds = bounds_of_pairs(array.bounds.as_slice())?;
        let n = array.elements.len();
        if !self.fits(k, n as u128) {
            return Err(NoMemory);
        }
        self.reset(k, Some(bounds), n);
        self.refill(k, array.elements.as_slice());
        Ok(())
    }

    /// Adds such an array.
    fn add_first(&mut self, array: &Option<FirstArray>) -> Result<(), NoMemory>
        requires { length self.old.arrays < self.old.most }
        ensures { OnOk result (self.new ≡ record { arrays = self.old.arrays ++ first_array array.now ∷ []; most = self.old.most; size = self.old.size }) }
    {
        let k = self.len();
        self.push();
        match array {
            None => Ok(()),
            Some(array) => self.set_first(k, array),
        }
    }

    /// Adds such arrays.
    pub(crate) fn add_all(&mut self, first: &[Option<FirstArray>]) -> Result<(), NoMemory>
        requires { length self.old.arrays + length first.now ≤ self.old.most }
        ensures { OnOk result (self.new ≡ record { arrays = self.old.arrays ++ map first_array first.now; most = self.old.most; size = self.old.size }) }
    {
        for array in first {
            self.add_first(array)?;
        }
        Ok(())
    }
}
