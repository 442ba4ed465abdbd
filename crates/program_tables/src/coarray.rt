//! Declared coarrays (ISO/IEC 1539-1:2018, 8.5.6), with the values with which their cells begin (8.4).

ghost use Rattle.std.specs.Prelude.{◌≡◌, ◌+◌, ◌*◌, map, true, false, IfOk, [], None};
ghost use Rattle.caf_base.specs.Arithmetic.{number_of};
ghost use Rattle.coarray_types.specs.Places.{extent_of, size_of};
ghost use Rattle.tree_meaning.specs.Start.{first_values};
ghost use Rattle.program_tables.specs.Tables as tables;

use caf_base::listing::Listing;
use caf_base::refusal::NoMemory;
use caf_base::value::{Kind, Value};
use checked_tree::data::{Codimensions, DataType, Dimensions, Initial, Variable};
use coarray_types::coshape::CoShape;
use coarray_types::shape::Shape;
use image_code::tables::{CellType, Coarray};
use std::alloc::Global;

/// The coarray that is the variable with this number.
pub fn coarray_at(alloc: Global, variables: &[Variable], number: u32) -> Result<Coarray, NoMemory>
    ensures { IfOk result (λ c. c ≡ tables.coarray_at variables.now number) }
{
    match variables.get(number as usize) {
        Some(variable) => coarray_of(alloc, variable),
        None => Ok(to_allocate(alloc, CellType::Value(Kind::I4))),
    }
}

fn coarray_of(alloc: Global, variable: &Variable) -> Result<Coarray, NoMemory>
    ensures { IfOk result (λ c. c ≡ tables.coarray_of variable.now) }
{
    let of_type = cell_type(variable.of_type);
    match (&variable.dimensions, &variable.codimensions) {
        (Dimensions::Explicit(shape), Codimensions::Explicit(coshape)) => static_coarray(
            alloc,
            of_type,
            shape,
            coshape,
            &variable.initial,
        ),
        _ => Ok(to_allocate(alloc, of_type)),
    }
}

// What a cell holds.
fn cell_type(of_type: DataType) -> CellType
    ensures { result ≡ tables.cell_type of_type }
{
    match of_type {
        DataType::Intrinsic(kind) => CellType::Value(kind),
        DataType::Team => CellType::Value(Kind::I4),
        DataType::Event => CellType::Event,
        DataType::Lock => CellType::Lock,
    }
}

// A coarray that is to be allocated.
fn to_allocate(alloc: Global, of_type: CellType) -> Coarray
    ensures { result ≡ record { of_type = of_type; is_allocatable = true; cells = 0; bounds = []; lower_cobounds = []; coextents = []; first = [] } }
{
    Coarray {
        of_type,
        is_allocatable: true,
        cells: 0,
        bounds: Listing::new(alloc),
        lower_cobounds: Listing::new(alloc),
        coextents: Listing::new(alloc),
        first: Listing::new(alloc),
    }
}

// A coarray that is there from the start.
fn static_coarray(
    alloc: Global,
    of_type: CellType,
    shape: &Shape,
    coshape: &CoShape,
    initial: &Initial,
) -> Result<Coarray, NoMemory>
    ensures { IfOk result (λ c. c ≡ record { of_type = of_type; is_allocatable = false; cells = size_of shape.now.dims; bounds = shape.now.dims; lower_cobounds = coshape.now.lower; coextents = coshape.now.extent; first = first_values initial.now (size_of shape.now.dims) }) }
{
    let cells = narrow(size(shape.dims.as_slice())?)?;
    let bounds = Listing::from_slice(alloc, shape.dims.as_slice())?;
    let lower_cobounds = Listing::from_slice(alloc, coshape.lower.as_slice())?;
    let coextents = Listing::from_slice(alloc, coshape.extent.as_slice())?;
    let first = values(alloc, initial, cells as usize)?;
    Ok(Coarray {
        of_type,
        is_allocatable: false,
        cells,
        bounds,
        lower_cobounds,
        coextents,
        first,
    })
}

// The first values of so many cells.
fn values(alloc: Global, initial: &Initial, count: usize) -> Result<Listing<i64>, NoMemory>
    ensures { IfOk result (λ vs. vs ≡ first_values initial.now count) }
{
    match initial {
        Initial::Unstated => Ok(Listing::from_vec(vec![in alloc; 0i64; count]?)),
        Initial::All(value) => Ok(Listing::from_vec(vec![in alloc; number(value); count]?)),
        Initial::Each(values) => numbers(alloc, values.as_slice()),
    }
}

// Values as numbers.
fn numbers(alloc: Global, values: &[Value]) -> Result<Listing<i64>, NoMemory>
    ensures { IfOk result (λ vs. vs ≡ map number_of values.now) }
{
    let mut all = Vec::new(alloc);
    for value in values {
        all.push(number(value))?;
    }
    Ok(Listing::from_vec(all))
}

// A value as a number.
fn number(value: &Value) -> i64
    ensures { result ≡ number_of value.now }
{
    match value {
        Value::Int(v) => *v,
        Value::Bool(true) => 1,
        Value::Bool(false) => 0,
    }
}

// The size of an array with these bounds. Behind an empty dimension nothing is counted: there the others may come to
// any number.
fn size(dims: &[(i64, i64)]) -> Result<u64, NoMemory>
    ensures { IfOk result (λ n. n ≡ size_of dims.now) }
{
    let [(lower, upper), dims @ ..] = dims else {
        return Ok(1);
    };
    let cells = extent(lower, upper)?;
    if cells == 0 {
        return Ok(0);
    }
    product(cells, size(dims)?)
}

// How many values a subscript has between its bounds.
fn extent(lower: &i64, upper: &i64) -> Result<u64, NoMemory>
    ensures { IfOk result (λ n. n ≡ extent_of (lower.now, upper.now)) }
{
    if upper < lower {
        return Ok(0);
    }
    match upper.abs_diff(*lower).checked_add(1) {
        Some(n) => Ok(n),
        None => Err(NoMemory),
    }
}

fn product(m: u64, n: u64) -> Result<u64, NoMemory>
    ensures { IfOk result (λ k. k ≡ m * n) }
{
    match m.checked_mul(n) {
        Some(k) => Ok(k),
        None => Err(NoMemory),
    }
}

/// A number of cells, if it is one of 32 bits.
pub fn narrow(n: u64) -> Result<u32, NoMemory>
    ensures { IfOk result (λ k. k ≡ n) }
{
    if n > 4294967295 {
        return Err(NoMemory);
    }
    Ok(n as u32)
}
