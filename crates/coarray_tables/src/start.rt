//! The coarrays of one image at the start of a program, by the tables of its code (ISO/IEC 1539-1:2018, 5.3.5).

ghost use Rattle.std.specs.Prelude.{◌≡◌, ◌<◌, ◌≤◌, ◌-◌, ◌^◌, ◌-ℤ◌, ◌+ℤ◌, pos, min, length, map, sum_by, IfOk, FitsSigned};
ghost use Rattle.std.specs.Int.{w32};
ghost use Rattle.std.specs.Option.{option_map};
ghost use Rattle.coarray_types.specs.Coplaces.{HasCobounds};
ghost use Rattle.image_acts.specs.Frames.{pairs_numbers};
ghost use Rattle.coarray_tables.specs.Owns.{own_of, owns_of};
ghost use Rattle.coarray_tables.specs.Start.{IsFew, AreFew, cobound_numbers, first_own, first_owned, own_size};

use crate::coarrays::Coarrays;
use crate::few::Few;
use crate::shape::Shape;
use array_places::bounds::cells_between;
use caf_base::place::INITIAL_TEAM;
use caf_base::refusal::NoMemory;
use image_code::tables::Coarray;
use std::alloc::Global;

/// Bounds as numbers.
fn bound_numbers(bounds: &[(i64, i64)]) -> Few
    requires { length bounds.now ≤ 3 }
    ensures { result ≡ pairs_numbers bounds.now }
{
    let mut few = Few::new();
    let mut left = bounds;
    while let Some((pair, rest)) = left.split_first() {
        few.push(&pair.0);
        few.push(&pair.1);
        left = rest;
    }
    few
}

/// An upper cobound.
fn upper_of(lower: &i64, extent: &i64) -> i64
    requires { FitsSigned w32 ((lower.now +ℤ extent.now) -ℤ pos 1) }
    ensures { result ≡ (lower.now +ℤ extent.now) -ℤ pos 1 }
{
    (i128::from(*lower) + i128::from(*extent) - 1) as i64
}

/// Cobounds as numbers.
fn cobound_numbers(lowers: &[i64], extents: &[i64]) -> Few
    requires few { length lowers.now ≤ 3 }
    requires are { HasCobounds lowers.now extents.now }
    ensures { result ≡ cobound_numbers lowers.now extents.now }
{
    let mut few = Few::new();
    let mut lows = lowers;
    let mut more = extents;
    while let Some((lower, behind)) = lows.split_first() {
        few.push(lower);
        let Some((extent, rest)) = more.split_first() else {
            return few;
        };
        few.push(&upper_of(lower, extent));
        lows = behind;
        more = rest;
    }
    few
}

/// What is kept of a coarray that is there from the start.
pub(crate) fn first_shape(coarray: &Coarray) -> Option<Shape>
    requires { IsFew coarray.now }
    ensures { option_map own_of result ≡ first_own coarray.now }
{
    if coarray.is_allocatable {
        return None;
    }
    Some(Shape {
        bounds: bound_numbers(coarray.bounds.as_slice()),
        cobounds: cobound_numbers(
            coarray.lower_cobounds.as_slice(),
            coarray.coextents.as_slice(),
        ),
        team: u64::from(INITIAL_TEAM.0),
    })
}

/// What is kept of those.
fn first_shapes(alloc: Global, tables: &[Coarray]) -> Result<Vec<Option<Shape>>, NoMemory>
    requires { AreFew tables.now }
    ensures { IfOk result (λ v. owns_of v.items ≡ map first_own tables.now) }
{
    let mut shapes = Vec::new(alloc);
    let mut left = tables;
    while let Some((coarray, rest)) = left.split_first() {
        shapes.push(first_shape(coarray))?;
        left = rest;
    }
    Ok(shapes)
}

/// How many cells a coarray has that is allocated here.
fn size_of_shape(shape: &Option<Shape>) -> u128
    ensures { result ≡ min (own_size (option_map own_of shape.now)) (2 ^ 128 - 1) }
{
    match shape {
        Some(shape) => cells_between(shape.bounds.as_slice()),
        None => 0,
    }
}

/// How many cells all of them have.
fn first_cells(shapes: &[Option<Shape>]) -> u64
    requires { sum_by own_size (owns_of shapes.now) < 2 ^ 64 }
    ensures { result ≡ sum_by own_size (owns_of shapes.now) }
{
    let mut cells = 0;
    let mut left = shapes;
    while let Some((shape, rest)) = left.split_first() {
        cells += size_of_shape(shape) as u64;
        left = rest;
    }
    cells
}

impl Coarrays {
    /// The coarrays of a program as it begins: each that is no allocatable one is allocated in the initial team. The
    /// room for them is made here; nothing that is done with them takes more.
    pub fn new(alloc: Global, tables: &[Coarray]) -> Result<Coarrays, NoMemory>
        requires few { AreFew tables.now }
        requires cells { sum_by own_size (map first_own tables.now) < 2 ^ 64 }
        ensures { IfOk result (λ s. s ≡ first_owned tables.now) }
    {
        let shapes = first_shapes(alloc, tables)?;
        let cells = first_cells(&shapes);
        Ok(Coarrays::of(shapes, cells))
    }
}
