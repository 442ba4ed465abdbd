//! Numbers as the values of cells.

ghost use Rattle.std.specs.Prelude.{◌≡◌, ◌^◌, ◌-◌, ◌<◌, map, min, replicate, IfOk};
ghost use Rattle.caf_base.specs.Arithmetic as arithmetic;

use caf_base::few::Few;
use caf_base::refusal::NoMemory;
use caf_base::value::{Kind, Value};
use std::alloc::Global;

/// A number as the value of a cell of this kind.
pub(crate) fn value_of(kind: Kind, v: &i64) -> Value
    ensures { result ≡ arithmetic.value_of kind v.now }
{
    match kind {
        Kind::I4 | Kind::I8 => Value::Int(*v),
        Kind::L4 => Value::Bool(*v != 0),
    }
}

/// The value of a cell as a number.
pub(crate) fn number_of(value: Value) -> i64
    ensures { result ≡ arithmetic.number_of value }
{
    match value {
        Value::Int(v) => v,
        Value::Bool(b) => i64::from(b),
    }
}

/// Numbers as values of this kind. One takes no memory.
pub(crate) fn values_of(alloc: Global, kind: Kind, numbers: &[i64]) -> Result<Few<Value>, NoMemory>
    ensures { IfOk result (λ l. l ≡ map (arithmetic.value_of kind) numbers.now) }
{
    match numbers {
        [v] => Ok(Few::of_one(value_of(kind, v))),
        _ => listed(alloc, kind, numbers),
    }
}

/// The same, in a list.
fn listed(alloc: Global, kind: Kind, numbers: &[i64]) -> Result<Few<Value>, NoMemory>
    ensures { IfOk result (λ l. l ≡ map (arithmetic.value_of kind) numbers.now) }
{
    let mut values = Vec::with_capacity(alloc, numbers.len())?;
    for i in 0..numbers.len() {
        values.push_reserved(value_of(kind, &numbers[i]));
    }
    Ok(Few::from_vec(values))
}

/// A value for each of so many cells, at most 2 ** 64 - 2 of them. One takes no memory.
pub(crate) fn repeated(alloc: Global, value: Value, cells: u64) -> Result<Few<Value>, NoMemory>
    ensures { IfOk result (λ l. l ≡ replicate cells value) }
{
    if cells == 1 {
        return Ok(Few::of_one(value));
    }
    Ok(Few::from_vec(vec![in alloc; value; cells as usize]?))
}
