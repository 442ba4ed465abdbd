//! Where an image begins: its variables and its coarrays, before the first statement of the main program.

ghost use Rattle.std.specs.Prelude.{◌≡◌, ◌+◌, ◌*◌, ◌++◌, pos, map, replicate, sum_by, Option, IfOk};
ghost use Rattle.caf_base.specs.Arithmetic.{number_of};
ghost use Rattle.coarray_types.specs.Places.{extent_of, size_of};
ghost use Rattle.checked_tree.specs.StatementViews.{program};
ghost use Rattle.tree_meaning.specs.Environment.{total_cells, local_cells_of};
ghost use Rattle.tree_meaning.specs.Start.{first_values, first_or_zero, cell_of, array_of, constant_array, own_in, own_size, start_of};
ghost use Rattle.tree_meaning.specs.declared.start.OwnCoarray.{OwnCoarray};
ghost use Rattle.tree_meaning.specs.Configured.{local_of, own_of, config_of};

use caf_base::listing::Listing;
use caf_base::place::ImageNo;
use caf_base::refusal::NoMemory;
use caf_base::short::Short;
use caf_base::value::Value;
use checked_tree::data::{Codimensions, Constant, Dimensions, Initial, Variable};
use checked_tree::program::Checked;
use coarray_types::shape::Shape;
use std::alloc::Global;

/// An array of the running image that is there: its lower and upper bounds, and its elements in array element order,
/// truth values as 1 and 0.
#[derive(Drop)]
pub struct LocalArray {
    pub bounds: Short<(i64, i64), 3>,
    pub elements: Listing<i64>,
}

/// A coarray that is there from the start: its bounds, its lower cobounds, and its coextents but the last.
#[derive(Drop)]
pub struct OwnCoarray {
    pub bounds: Short<(i64, i64), 3>,
    pub lowers: Short<i64, 3>,
    pub extents: Short<i64, 2>,
}

/// The start of a program on one image of a run (ISO/IEC 1539-1:2018, 5.3.5): the main program's scalars with its
/// hidden cells, its arrays with those of the constants, the coarrays in declared order, and how many local cells and
/// coarray cells are in use.
#[derive(Drop)]
pub struct TreeConfig {
    pub me: ImageNo,
    pub images: u32,
    pub end_line: u32,
    pub cells: Listing<i64>,
    pub arrays: Vec<Option<LocalArray>>,
    pub coarrays: Vec<Option<OwnCoarray>>,
    pub local_cells: u64,
    pub coarray_cells: u64,
}

/// The start of a checked program on image `me` of `n`. Where a number of cells leaves 64 bits there is no memory for
/// it.
pub fn first(alloc: Global, checked: &Checked, me: ImageNo, n: u32) -> Result<TreeConfig, NoMemory>
    ensures { IfOk result (λ t. config_of t ≡ start_of (program checked.now) me.0 n) }
{
    let variables = checked.main.variables.as_slice();
    let local_cells = sum_of_locals(variables)?;
    let cells = first_cells(alloc, variables, checked.main.hidden)?;
    let coarrays = first_coarrays(alloc, variables, checked.coarrays.as_slice())?;
    let coarray_cells = sum_of_coarrays(coarrays.as_slice())?;
    let arrays = variable_arrays(alloc, variables)?;
    let arrays = with_constants(alloc, arrays, checked.constants.as_slice())?;
    Ok(TreeConfig {
        me,
        images: n,
        end_line: checked.end_line,
        cells,
        arrays,
        coarrays,
        local_cells,
        coarray_cells,
    })
}

// The main program's scalars, and zeros in its hidden cells.
fn first_cells(alloc: Global, variables: &[Variable], hidden: u32) -> Result<Listing<i64>, NoMemory>
    ensures { IfOk result (λ cells. cells ≡ map cell_of variables.now ++ replicate (2 * hidden) (pos 0)) }
{
    let mut cells = Vec::new(alloc);
    for variable in variables {
        cells.push(first_cell(&variable.initial))?;
    }
    let zeros = vec![in alloc; 0i64; 2 * hidden as usize]?;
    cells.extend_from_slice(zeros.as_slice())?;
    Ok(Listing::from_vec(cells))
}

// The first value of a scalar.
fn first_cell(initial: &Initial) -> i64
    ensures { result ≡ first_or_zero (first_values initial.now 1) }
{
    match initial {
        Initial::Unstated => 0,
        Initial::All(value) => number(value),
        Initial::Each(values) => match values.as_slice() {
            [value, ..] => number(value),
            [] => 0,
        },
    }
}

// A value as a number.
fn number(value: &Value) -> i64
    ensures { result ≡ number_of value.now }
{
    match value {
        Value::Int(v) => *v,
        Value::Bool(true) => 1,
        Value::Bool(false) => 0,
    }
}

// The arrays of variables, each where it is one that is there from the start.
fn variable_arrays(
    alloc: Global,
    variables: &[Variable],
) -> Result<Vec<Option<LocalArray>>, NoMemory>
    ensures { IfOk result (λ arrays. map local_of arrays.items ≡ map array_of variables.now) }
{
    let mut arrays = Vec::new(alloc);
    for variable in variables {
        arrays.push(first_array(alloc, variable)?)?;
    }
    Ok(arrays)
}

// The arrays of constants behind these.
fn with_constants(
    alloc: Global,
    mut arrays: Vec<Option<LocalArray>>,
    constants: &[Constant],
) -> Result<Vec<Option<LocalArray>>, NoMemory>
    ensures { IfOk result (λ all. map local_of all.items ≡ map local_of arrays.items ++ map constant_array constants.now) }
{
    for constant in constants {
        arrays.push(Some(array_with(alloc, &constant.shape, &constant.values)?))?;
    }
    Ok(arrays)
}

// The array of a variable.
fn first_array(alloc: Global, variable: &Variable) -> Result<Option<LocalArray>, NoMemory>
    ensures { IfOk result (λ x. local_of x ≡ array_of variable.now) }
{
    let (Dimensions::Explicit(shape), Codimensions::Absent) = (
        &variable.dimensions,
        &variable.codimensions,
    ) else {
        return Ok(None);
    };
    if shape.dims.is_empty() {
        return Ok(None);
    }
    Ok(Some(array_with(alloc, shape, &variable.initial)?))
}

// An array of this shape with its first values.
fn array_with(alloc: Global, shape: &Shape, initial: &Initial) -> Result<LocalArray, NoMemory>
    ensures bounds { IfOk result (λ x. x.bounds ≡ shape.now.dims) }
    ensures elements { IfOk result (λ x. x.elements ≡ first_values initial.now (size_of shape.now.dims)) }
{
    let bounds = shape.dims.copy()?;
    let count = size(shape.dims.as_slice())?;
    let elements = values(alloc, initial, count as usize)?;
    Ok(LocalArray { bounds, elements })
}

// The first values of so many cells.
fn values(alloc: Global, initial: &Initial, count: usize) -> Result<Listing<i64>, NoMemory>
    ensures { IfOk result (λ vs. vs ≡ first_values initial.now count) }
{
    match initial {
        Initial::Unstated => Ok(Listing::from_vec(vec![in alloc; 0i64; count]?)),
        Initial::All(value) => Ok(Listing::from_vec(vec![in alloc; number(value); count]?)),
        Initial::Each(values) => numbers(alloc, values.as_slice()),
    }
}

// Values as numbers.
fn numbers(alloc: Global, values: &[Value]) -> Result<Listing<i64>, NoMemory>
    ensures { IfOk result (λ vs. vs ≡ map number_of values.now) }
{
    let mut all = Vec::new(alloc);
    for value in values {
        all.push(number(value))?;
    }
    Ok(Listing::from_vec(all))
}

// The coarrays that are there from the start.
fn first_coarrays(
    alloc: Global,
    variables: &[Variable],
    coarrays: &[u32],
) -> Result<Vec<Option<OwnCoarray>>, NoMemory>
    ensures { IfOk result (λ all. map own_of all.items ≡ map (own_in variables.now) coarrays.now) }
{
    let mut all = Vec::new(alloc);
    for coarray in coarrays {
        all.push(first_coarray(variables, *coarray)?)?;
    }
    Ok(all)
}

// The coarray that is the variable with this number.
fn first_coarray(variables: &[Variable], variable: u32) -> Result<Option<OwnCoarray>, NoMemory>
    ensures { IfOk result (λ x. own_of x ≡ own_in variables.now variable) }
{
    let Some(variable) = variables.get(variable as usize) else {
        return Ok(None);
    };
    let (Dimensions::Explicit(shape), Codimensions::Explicit(coshape)) = (
        &variable.dimensions,
        &variable.codimensions,
    ) else {
        return Ok(None);
    };
    let bounds = shape.dims.copy()?;
    let lowers = coshape.lower.copy()?;
    let extents = coshape.extent.copy()?;
    Ok(Some(OwnCoarray {
        bounds,
        lowers,
        extents,
    }))
}

/// The local cells of variables.
pub fn sum_of_locals(variables: &[Variable]) -> Result<u64, NoMemory>
    ensures { IfOk result (λ n. n ≡ total_cells variables.now) }
{
    let mut total = 0;
    for variable in variables {
        total = sum(total, local_cells(variable)?)?;
    }
    Ok(total)
}

fn local_cells(variable: &Variable) -> Result<u64, NoMemory>
    ensures { IfOk result (λ n. n ≡ local_cells_of variable.now) }
{
    match (&variable.codimensions, &variable.dimensions) {
        (Codimensions::Absent, Dimensions::Explicit(shape)) => size(shape.dims.as_slice()),
        _ => Ok(0),
    }
}

// The cells of coarrays.
fn sum_of_coarrays(coarrays: &[Option<OwnCoarray>]) -> Result<u64, NoMemory>
    ensures { IfOk result (λ n. n ≡ sum_by (λ (x : Option OwnCoarray). own_size (own_of x)) coarrays.now) }
{
    let mut total = 0;
    for coarray in coarrays {
        total = sum(total, coarray_size(coarray)?)?;
    }
    Ok(total)
}

fn coarray_size(coarray: &Option<OwnCoarray>) -> Result<u64, NoMemory>
    ensures { IfOk result (λ n. n ≡ own_size (own_of coarray.now)) }
{
    match coarray {
        Some(own) => size(own.bounds.as_slice()),
        None => Ok(0),
    }
}

// The size of an array with these bounds. Behind an empty dimension nothing is counted: there the others may come to
// any number.
fn size(dims: &[(i64, i64)]) -> Result<u64, NoMemory>
    ensures { IfOk result (λ n. n ≡ size_of dims.now) }
{
    let [(lower, upper), dims @ ..] = dims else {
        return Ok(1);
    };
    let cells = extent(lower, upper)?;
    if cells == 0 {
        return Ok(0);
    }
    product(cells, size(dims)?)
}

// How many values a subscript has between its bounds.
fn extent(lower: &i64, upper: &i64) -> Result<u64, NoMemory>
    ensures { IfOk result (λ n. n ≡ extent_of (lower.now, upper.now)) }
{
    if upper < lower {
        return Ok(0);
    }
    sum(upper.abs_diff(*lower), 1)
}

// Numbers of cells that leave 64 bits are more than any memory has.
fn sum(m: u64, n: u64) -> Result<u64, NoMemory>
    ensures { IfOk result (λ k. k ≡ m + n) }
{
    match m.checked_add(n) {
        Some(k) => Ok(k),
        None => Err(NoMemory),
    }
}

fn product(m: u64, n: u64) -> Result<u64, NoMemory>
    ensures { IfOk result (λ k. k ≡ m * n) }
{
    match m.checked_mul(n) {
        Some(k) => Ok(k),
        None => Err(NoMemory),
    }
}
