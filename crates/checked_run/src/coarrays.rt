//! The coarrays of a run, as each memory has them at its start.

ghost use Rattle.std.specs.Prelude.{◌≡◌, map, IfOk};
ghost use Rattle.std.specs.List.{list_all};
ghost use Rattle.caf_base.specs.Arithmetic as arithmetic;
ghost use Rattle.coarray_memory.specs.Memories.{content_of as held, declared_of};
ghost use Rattle.object_rules.specs.Folds.{is_of_kind};
ghost use Rattle.object_rules.specs.MemoryRules.{has_first_values};
ghost use Rattle.checked_run.specs.Coarrays as spec;

use caf_base::listing::Listing;
use caf_base::refusal::NoMemory;
use caf_base::value::{Kind, Value};
use coarray_memory::coarray::{Coarray, Holding};
use image_code::tables::{CellType, Coarray as TableCoarray};
use std::alloc::Global;

// What cells of a type hold.
fn holding(of_type: CellType) -> Holding
    ensures { held result ≡ spec.content_of of_type }
{
    match of_type {
        CellType::Value(kind) => Holding::Values(kind),
        CellType::Event => Holding::Events,
        CellType::Lock => Holding::Locks,
    }
}

// The value of a kind that a number stands for.
fn value(kind: Kind, number: i64) -> Value
    ensures { result ≡ arithmetic.value_of kind number }
{
    match kind {
        Kind::I4 | Kind::I8 => Value::Int(number),
        Kind::L4 => Value::Bool(number != 0),
    }
}

// The values of a kind that numbers stand for.
fn values_of_kind(alloc: Global, kind: Kind, numbers: &[i64]) -> Result<Listing<Value>, NoMemory>
    ensures { IfOk result (λ vs. vs ≡ map (arithmetic.value_of kind) numbers.now) }
{
    let mut values = Vec::new(alloc);
    for number in numbers {
        values.push(value(kind, *number))?;
    }
    Ok(Listing::from_vec(values))
}

// The values with which cells of a type begin.
fn values(alloc: Global, of_type: CellType, numbers: &[i64]) -> Result<Listing<Value>, NoMemory>
    ensures { IfOk result (λ vs. vs ≡ spec.values_of of_type numbers.now) }
{
    match of_type {
        CellType::Value(kind) => values_of_kind(alloc, kind, numbers),
        CellType::Event | CellType::Lock => Ok(Listing::new(alloc)),
    }
}

// A coarray of the tables of code as a memory has it.
fn in_memory(alloc: Global, coarray: &TableCoarray) -> Result<Coarray, NoMemory>
    ensures { IfOk result (λ c. declared_of c ≡ spec.in_memory coarray.now) }
{
    let first = values(alloc, coarray.of_type, coarray.first.as_slice())?;
    Ok(Coarray {
        holding: holding(coarray.of_type),
        allocatable: coarray.is_allocatable,
        cells: coarray.cells,
        first,
    })
}

/// The coarrays of the tables of code as each memory has them.
pub fn in_memories(alloc: Global, coarrays: &[TableCoarray]) -> Result<Vec<Coarray>, NoMemory>
    ensures { IfOk result (λ v. map declared_of v.items ≡ map spec.in_memory coarrays.now) }
{
    let mut all = Vec::new(alloc);
    for coarray in coarrays {
        all.push(in_memory(alloc, coarray)?)?;
    }
    Ok(all)
}

// Whether a value is one of the kind.
fn is_of(kind: Kind, value: Value) -> bool
    ensures { result ≡ is_of_kind kind value }
{
    match kind {
        Kind::I4 => match value {
            Value::Int(n) => -2_147_483_648 <= n && n <= 2_147_483_647,
            Value::Bool(_) => false,
        },
        Kind::I8 => match value {
            Value::Int(_) => true,
            Value::Bool(_) => false,
        },
        Kind::L4 => match value {
            Value::Int(_) => false,
            Value::Bool(_) => true,
        },
    }
}

// Whether each of the values is one of the kind.
fn are_of(kind: Kind, values: &[Value]) -> bool
    ensures { result ≡ list_all (is_of_kind kind) values.now }
{
    values.iter().all(|value| is_of(kind, *value))
}

// Whether a coarray has the first values that it wants.
fn has_first_values(coarray: &Coarray) -> bool
    ensures { result ≡ has_first_values (declared_of coarray.now) }
{
    match coarray.holding {
        Holding::Values(kind) => {
            coarray.allocatable
                || coarray.first.len() == coarray.cells as usize
                    && are_of(kind, coarray.first.as_slice())
        }
        Holding::Locks | Holding::Events => true,
    }
}

/// Whether each coarray has the first values that it wants.
pub fn have_first_values(coarrays: &[Coarray]) -> bool
    ensures { result ≡ list_all has_first_values (map declared_of coarrays.now) }
{
    for coarray in coarrays {
        if !has_first_values(coarray) {
            return false;
        }
    }
    true
}
