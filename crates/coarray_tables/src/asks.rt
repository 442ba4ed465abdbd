//! What asks of coarrays hold: the cells of an access, and the coarrays of an ALLOCATE statement (ISO/IEC 1539-1:2018,
//! 9.6, 9.7.1).

ghost use Rattle.std.specs.Prelude.{◌≡◌, ◌<◌, ◌≤◌, ◌+◌, ◌*◌, ◌++◌, ◌∷◌, [], min, length, option_copied, IfOk, OnOk};
ghost use Rattle.std.specs.Option.{option_map};
ghost use Rattle.coarray_types.specs.Places.{size_of};
ghost use Rattle.image_acts.specs.Frames.{pairs_in};
ghost use Rattle.image_acts.specs.Places.{place_in};
ghost use Rattle.image_acts.specs.Words as words;
ghost use Rattle.image_acts.specs.Operate.Asking.{span_of};
ghost use Rattle.coarray_tables.specs.Owns.{own_at, own_of};
ghost use Rattle.coarray_tables.specs.Asks.{allotment, allotted, allotted_as, span_dims};

use crate::coarrays::Coarrays;
use crate::cobounds::last_lower;
use crate::shape::Shape;
use array_places::bounds::cells_between;
use array_places::place::{first_pair, natural};
use caf_base::listing::Listing;
use caf_base::refusal::NoMemory;
use caf_base::short::Short;
use caf_base::span::{Dims, Span};
use caf_events::round::Allotted;
use std::alloc::Global;
use std::marker::Model;

/// A number as one of 32 bits without a sign.
pub fn word(v: &i64) -> u32
    ensures { result ≡ words.word v.now }
{
    if *v < 0 {
        0
    } else if *v > 4_294_967_295 {
        4_294_967_295
    } else {
        *v as u32
    }
}

/// A number as one of 32 bits with a sign.
fn short(v: &i64) -> i32
    ensures { result ≡ words.short v.now }
{
    if *v < -2_147_483_648 {
        -2_147_483_648
    } else if *v > 2_147_483_647 {
        2_147_483_647
    } else {
        *v as i32
    }
}

/// Dimensions of a span, kept in place.
#[derive(Drop)]
struct FewDims {
    dims: [(u32, i32); 3],
    len: usize,
}

impl Model for FewDims {
    ghost use Rattle.std.specs.Prelude.{◌≤◌, ℕ, ℤ, List, take};

    ghost Value = { List (ℕ × ℤ) };

    ghost view = { λ f. take f.len f.dims };

    ghost invariant = { λ f. f.len ≤ 3 };
}

impl FewDims {
    fn new() -> FewDims
        ensures { result ≡ [] }
    {
        FewDims {
            dims: [(0, 0); 3],
            len: 0,
        }
    }

    fn as_slice(&self) -> &[(u32, i32)]
        ensures { result.now ≡ self.now }
    {
        &self.dims[..self.len]
    }

    /// Puts a dimension behind.
    fn push(&mut self, count: u32, step: i32)
        requires { length self.old < 3 }
        ensures { self.new ≡ self.old ++ (count, step) ∷ [] }
    {
        self.dims[self.len] = (count, step);
        self.len += 1;
    }
}

/// The dimensions of a span: those of a place that have more than one cell.
fn dims_of(dims: &[i64]) -> FewDims
    requires { length dims.now ≤ 6 }
    ensures { result ≡ span_dims dims.now }
{
    let mut few = FewDims::new();
    let mut left = dims;
    while let Some((count, step, rest)) = first_pair(left) {
        if 1 < *count {
            few.push(word(count), short(step));
        }
        left = rest;
    }
    few
}

/// The cells of an access to a coarray at a place of at most three dimensions: those of one cell are left out.
pub fn span(alloc: Global, coarray: u32, place: &[i64]) -> Result<Span, NoMemory>
    requires { length place.now ≤ 7 }
    ensures { IfOk result (λ s. s ≡ span_of coarray (place_in place.now)) }
{
    let Some((start, dims)) = place.split_first() else {
        return Ok(cell_span(alloc, coarray, &0));
    };
    if dims.is_empty() {
        return Ok(cell_span(alloc, coarray, start));
    }
    let few = dims_of(dims);
    let dims = Dims::from_slice(alloc, few.as_slice())?;
    Ok(Span {
        coarray,
        start: word(start),
        dims,
    })
}

/// One cell of a coarray. It takes no memory.
pub fn cell_span(alloc: Global, coarray: u32, start: &i64) -> Span
    ensures { result ≡ record { coarray = coarray; start = words.word start.now; dims = [] } }
{
    Span {
        coarray,
        start: word(start),
        dims: Dims::new(alloc),
    }
}

/// The cells that a coarray with these bounds gets, as a number of 32 bits.
pub fn cells_of_bounds(bounds: &[i64]) -> u32
    ensures { result ≡ min (size_of (pairs_in bounds.now)) 4294967295 }
{
    cells_between(bounds).min(4_294_967_295) as u32
}

/// Pairs of numbers, as far as they go.
fn pairs(alloc: Global, numbers: &[i64]) -> Result<Vec<(i64, i64)>, NoMemory>
    ensures { IfOk result (λ v. v.items ≡ pairs_in numbers.now) }
{
    let mut pairs = Vec::new(alloc);
    let mut left = numbers;
    while let Some((lower, upper, rest)) = first_pair(left) {
        pairs.push((*lower, *upper))?;
        left = rest;
    }
    Ok(pairs)
}

/// The same, as a short list.
fn short_pairs<const N: usize>(
    alloc: Global,
    numbers: &[i64],
) -> Result<Short<(i64, i64), N>, NoMemory>
    ensures { IfOk result (λ l. l ≡ pairs_in numbers.now) }
{
    let pairs = pairs(alloc, numbers)?;
    Short::from_slice(alloc, &pairs)
}

/// A coarray of an ALLOCATE statement.
fn allotted(alloc: Global, coarray: u32, shape: &Shape) -> Result<Allotted, NoMemory>
    ensures { IfOk result (λ a. a ≡ allotted_as coarray (own_of shape.now)) }
{
    let dims = short_pairs(alloc, shape.bounds.as_slice())?;
    let codims = short_pairs(alloc, shape.cobounds.as_slice())?;
    let last = last_lower(shape.cobounds.as_slice());
    Ok(Allotted {
        coarray,
        dims,
        codims,
        last,
    })
}

impl Coarrays {
    /// The coarrays of an ALLOCATE statement with these numbers, as they were allocated here.
    pub fn allotment(&self, alloc: Global, numbers: &[i64]) -> Result<Listing<Allotted>, NoMemory>
        ensures { IfOk result (λ l. l ≡ allotment self.now.coarrays numbers.now) }
    {
        let mut list = Vec::new(alloc);
        let mut left = numbers;
        while let Some((number, rest)) = left.split_first() {
            self.add_allotted(alloc, &mut list, word(number))?;
            left = rest;
        }
        Ok(Listing::from_vec(list))
    }

    /// Puts a coarray behind others, where it is allocated here.
    fn add_allotted(
        &self,
        alloc: Global,
        list: &mut Vec<Allotted>,
        coarray: u32,
    ) -> Result<(), NoMemory>
        ensures { OnOk result (list.new.items ≡ list.old.items ++ allotted coarray (own_at self.now.coarrays coarray)) }
    {
        if let Some(shape) = self.shape(coarray) {
            list.push(allotted(alloc, coarray, shape)?)?;
        }
        Ok(())
    }
}
