//! The cells of a span, where the coarray has them.

ghost use Rattle.std.specs.Prelude.{◌≡◌, ◌<◌, ◌≤◌, ◌+ℤ◌, ℕ, ℤ, pos, true, [], length, get_or, nat_eq, nat_le, Some, IfOk};
ghost use Rattle.std.specs.List.{list_all};
ghost use Rattle.caf_base.specs.Spans.{offsets_of, offsets_from, row_of, rows_of};
ghost use Rattle.coarray_memory.specs.Stores.{signed};
ghost use Rattle.object_rules.specs.SpanTests.{is_cell_offset, is_span};
ghost use Rattle.coarray_memory.specs.Sections.{cell_in, cells_in, put_front, found_if, row_from, is_between, IsCount};

use caf_base::few::Few;
use caf_base::limits::{ACCESS_CELLS, COARRAY_CELLS};
use caf_base::refusal::NoMemory;
use caf_base::span::Span;
use std::alloc::Global;

// The most cells that a coarray can have.
const CELLS: u64 = COARRAY_CELLS as u64;

/// The offsets of the span's cells in array element order (ISO/IEC 1539-1:2018, 9.5.3.2 and 9.5.3.3), where each is one
/// of so many cells.
pub fn section_within(
    alloc: Global,
    span: &Span,
    size: usize,
) -> Result<Option<Few<usize>>, NoMemory>
    ensures { IfOk result (λ r. r ≡ cells_in size (offsets_of span.now)) }
{
    cells_from(alloc, span.start as usize, span.dims.as_slice(), size)
}

// The cells of the dimensions from a first cell on: a row of the first one from each cell of the others.
fn cells_from(
    alloc: Global,
    start: usize,
    dims: &[(u32, i32)],
    size: usize,
) -> Result<Option<Few<usize>>, NoMemory>
    ensures { IfOk result (λ r. r ≡ cells_in size (offsets_from (pos start) dims.now)) }
{
    let [(count, step), dims @ ..] = dims else {
        return Ok(one_cell(start, size));
    };
    if *count == 0 {
        return Ok(Some(Few::new(alloc)));
    }
    let Some(firsts) = cells_from(alloc, start, dims, size)? else {
        return Ok(None);
    };
    rows(alloc, *count, *step, firsts.as_slice(), size)
}

// The one cell. It takes no memory.
fn one_cell(start: usize, size: usize) -> Option<Few<usize>>
    ensures { result ≡ cells_in size (offsets_from (pos start) []) }
{
    if start < size {
        Some(Few::of_one(start))
    } else {
        None
    }
}

// A row from each of the first cells.
fn rows(
    alloc: Global,
    count: u32,
    step: i32,
    firsts: &[usize],
    size: usize,
) -> Result<Option<Few<usize>>, NoMemory>
    requires { (k : ℕ) → k < length firsts.now → get_or firsts.now k 0 < size }
    ensures { IfOk result (λ r. r ≡ cells_in size (rows_of count step (signed firsts.now))) }
{
    let mut cells = Vec::new(alloc);
    for first in firsts {
        if !push_row(&mut cells, count, step, *first, size)? {
            return Ok(None);
        }
    }
    Ok(Some(Few::from_vec(cells)))
}

// Appends a row of cells, and says whether all of them are there.
fn push_row(
    cells: &mut Vec<usize>,
    count: u32,
    step: i32,
    first: usize,
    size: usize,
) -> Result<bool, NoMemory>
    requires { first < size }
    ensures { IfOk result (λ all. found_if all cells.new.items ≡ put_front (Some cells.old.items) (cells_in size (row_of count step (pos first)))) }
{
    let mut at = Some(first);
    for i in 0..count {
        let Some(place) = at else {
            return Ok(false);
        };
        cells.push(place)?;
        at = cell_behind(place, step, size);
    }
    Ok(true)
}

// The cell that is so far behind another.
fn cell_behind(place: usize, step: i32, size: usize) -> Option<usize>
    ensures { result ≡ cell_in size (pos place +ℤ step) }
{
    let next = place.checked_add_signed(step as isize)?;
    if next < size { Some(next) } else { None }
}

/// Whether the span has so many cells.
pub fn has_cells(span: &Span, count: usize) -> bool
    ensures { result ≡ nat_eq count (length (offsets_of span.now)) }
{
    match count_of(span.dims.as_slice()) {
        Some(n) => count as u64 == n,
        None => false,
    }
}

// How many cells the dimensions have.
fn count_of(dims: &[(u32, i32)]) -> Option<u64>
    ensures { (start : ℤ) → IsCount result (length (offsets_from start dims.now)) }
{
    let [(count, _), dims @ ..] = dims else {
        return Some(1);
    };
    if *count == 0 {
        return Some(0);
    }
    match count_of(dims) {
        Some(n) => n.checked_mul(u64::from(*count)),
        None => None,
    }
}

/// Whether the cells are a section that an access can have.
pub fn is_section(span: &Span) -> bool
    ensures { result ≡ is_span span.now }
{
    match span.dims.as_slice() {
        // One cell, as most accesses have.
        [] => span.start < COARRAY_CELLS,
        dims => are_wide(dims) && are_few(dims) && lie_within(span.start, dims),
    }
}

// Whether each dimension has two cells or more.
fn are_wide(dims: &[(u32, i32)]) -> bool
    ensures { result ≡ list_all (λ d. nat_le 2 d.0) dims.now }
{
    dims.iter().all(|dim| dim.0 >= 2)
}

// Whether there are no more cells than an access can have.
fn are_few(dims: &[(u32, i32)]) -> bool
    ensures { (start : ℤ) → result ≡ nat_le (length (offsets_from start dims.now)) 4096 }
{
    match count_of(dims) {
        Some(count) => count <= u64::from(ACCESS_CELLS),
        None => false,
    }
}

// Whether each cell is one that a coarray can have.
fn lie_within(start: u32, dims: &[(u32, i32)]) -> bool
    requires { list_all (λ d. nat_le 2 d.0) dims.now ≡ true }
    ensures { result ≡ list_all is_cell_offset (offsets_from (pos start) dims.now) }
{
    lie_between(start, dims, 0, CELLS)
}

// Whether each cell lies from one offset on and before another: of a row it is enough that its ends do.
fn lie_between(start: u32, dims: &[(u32, i32)], low: u64, high: u64) -> bool
    requires wide { list_all (λ d. nat_le 2 d.0) dims.now ≡ true }
    requires low { low ≤ 65536 }
    requires high { high ≤ 65536 }
    ensures { result ≡ list_all (is_between low high) (offsets_from (pos start) dims.now) }
{
    let [(count, step), dims @ ..] = dims else {
        return low <= u64::from(start) && u64::from(start) < high;
    };
    let reach = u64::from(*count - 1) * u64::from(step.unsigned_abs());
    if *step < 0 {
        lie_between(start, dims, (low + reach).min(CELLS), high)
    } else {
        lie_between(start, dims, low, high.saturating_sub(reach))
    }
}
