//! What a variable holds.

ghost use Rattle.std.specs.Prelude.{◌≡◌, map, IfOk, option_map};
ghost use Rattle.caf_base.specs.Arithmetic as arithmetic;
ghost use Rattle.image_acts.specs.Acts.{host};
ghost use Rattle.image_acts.specs.Frames.{array_in, cell_in};
ghost use Rattle.final_values.specs.Finals as spec;

use crate::listing::{Form, Listed};
use caf_base::listing::Listing;
use caf_base::refusal::NoMemory;
use caf_base::value::{Kind, Value};
use coarray_memory::memory::Memory;
use image_machine::machine::Machine;
use std::alloc::Global;

// The value of a kind that a number stands for.
fn value(kind: Kind, number: i64) -> Value
    ensures { result ≡ arithmetic.value_of kind number }
{
    match kind {
        Kind::I4 | Kind::I8 => Value::Int(number),
        Kind::L4 => Value::Bool(number != 0),
    }
}

// The values of a kind that numbers stand for.
fn values(alloc: Global, kind: Kind, numbers: &[i64]) -> Result<Listing<Value>, NoMemory>
    ensures { IfOk result (λ vs. vs ≡ map (arithmetic.value_of kind) numbers.now) }
{
    let mut values = Vec::new(alloc);
    for number in numbers {
        values.push(value(kind, *number))?;
    }
    Ok(Listing::from_vec(values))
}

// The value of a scalar.
fn of_scalar(
    alloc: Global,
    machine: &Machine,
    variable: u32,
    kind: Kind,
) -> Result<Option<Listing<Value>>, NoMemory>
    ensures { IfOk result (λ o. o ≡ spec.of_scalar kind (cell_in host variable machine.now.state.core)) }
{
    match machine.scalar(variable) {
        None => Ok(None),
        Some(number) => Ok(Some(Listing::of_one(alloc, value(kind, number))?)),
    }
}

// The values of an array, where it is allocated.
fn of_array(
    alloc: Global,
    machine: &Machine,
    variable: u32,
    kind: Kind,
) -> Result<Option<Listing<Value>>, NoMemory>
    ensures { IfOk result (λ o. o ≡ spec.of_array kind (array_in host variable machine.now.state.core)) }
{
    match machine.elements(variable) {
        None => Ok(None),
        Some(numbers) => Ok(Some(values(alloc, kind, numbers)?)),
    }
}

// So many cells of a coarray.
fn cells(
    alloc: Global,
    memory: &Memory,
    coarray: u32,
    size: usize,
) -> Result<Listing<Value>, NoMemory>
    ensures { IfOk result (λ vs. vs ≡ spec.cells_from memory.now.made memory.now.history coarray 0 size) }
{
    let mut values = Listing::new(alloc);
    for place in 0..size {
        let Ok(offset) = u32::try_from(place) else {
            return Err(NoMemory);
        };
        match memory.value(coarray, offset) {
            None => return Ok(values),
            Some(value) => values.push(value)?,
        }
    }
    Ok(values)
}

// The values of a coarray, where it is allocated.
fn of_coarray(
    alloc: Global,
    memory: &Memory,
    coarray: u32,
) -> Result<Option<Listing<Value>>, NoMemory>
    ensures { IfOk result (λ o. o ≡ spec.of_coarray memory.now.made memory.now.history coarray) }
{
    match memory.size(coarray) {
        None => Ok(None),
        Some(size) => Ok(Some(cells(alloc, memory, coarray, size)?)),
    }
}

/// What a variable holds, None where it isn't allocated.
pub(crate) fn held(
    alloc: Global,
    machine: &Machine,
    memory: &Memory,
    listed: &Listed,
) -> Result<Option<Listing<Value>>, NoMemory>
    ensures { IfOk result (λ o. o ≡ spec.held machine.now.state.core memory.now.made memory.now.history listed.now.variable listed.now.kind listed.now.form) }
{
    match listed.form {
        Form::Scalar => of_scalar(alloc, machine, listed.variable, listed.kind),
        Form::Array => of_array(alloc, machine, listed.variable, listed.kind),
        Form::Coarray(number) => of_coarray(alloc, memory, number),
    }
}
