//! The cells of a section.

ghost use Rattle.std.specs.Prelude.{◌≡◌, ◌≤◌, ◌++◌, length, map, pos, All, ℤ, IfOk, OnOk, OnErr};
ghost use Rattle.caf_base.specs.Spans.{IsSpan, offsets_of, offsets_from, row_of, rows_of};
ghost use Rattle.coarray_types.specs.Cells.{AreCells};

use caf_base::refusal::NoMemory;
use caf_base::span::Span;
use std::alloc::Global;

/// The offsets of a section's cells, in array element order (ISO/IEC 1539-1:2018, 9.5.3.2 and 9.5.3.3).
pub fn section_cells(alloc: Global, span: &Span) -> Result<Vec<u32>, NoMemory>
    requires { IsSpan span.now }
    ensures { IfOk result (λ cells. map pos cells.items ≡ offsets_of span.now) }
{
    cells_from(alloc, span.start, span.dims.as_slice())
}

// The cells of the dimensions from a first cell on: a row of the first one from each cell of the others.
fn cells_from(alloc: Global, start: u32, dims: &[(u32, i32)]) -> Result<Vec<u32>, NoMemory>
    requires wide { All (λ d. 2 ≤ d.0) dims.now }
    requires cells { AreCells (offsets_from (pos start) dims.now) }
    ensures { IfOk result (λ cells. map pos cells.items ≡ offsets_from (pos start) dims.now) }
{
    let [(count, step), dims @ ..] = dims else {
        let mut one = Vec::new(alloc);
        one.push(start)?;
        return Ok(one);
    };
    let firsts = cells_from(alloc, start, dims)?;
    rows(alloc, *count, *step, firsts.as_slice())
}

// A row from each of the first cells.
fn rows(alloc: Global, count: u32, step: i32, firsts: &[u32]) -> Result<Vec<u32>, NoMemory>
    requires { AreCells (rows_of count step (map pos firsts.now)) }
    ensures { IfOk result (λ cells. map pos cells.items ≡ rows_of count step (map pos firsts.now)) }
{
    let mut cells = Vec::new(alloc);
    for first in firsts {
        push_row(&mut cells, count, step, *first)?;
    }
    Ok(cells)
}

// Appends a row of cells. 64 bits suffice: each cell is below 65,536, and a step from it fits 33 bits.
fn push_row(cells: &mut Vec<u32>, count: u32, step: i32, first: u32) -> Result<(), NoMemory>
    requires { AreCells (row_of count step (pos first)) }
    ensures { OnOk result (map pos cells.new.items ≡ map pos cells.old.items ++ row_of count step (pos first)) }
{
    let mut at = i64::from(first);
    for i in 0..count {
        cells.push(at as u32)?;
        at += i64::from(step);
    }
    Ok(())
}
