//! The names of a program's coarrays.

ghost use Rattle.std.specs.Prelude.{◌≡◌, map, IfOk};
ghost use Rattle.checked_tree.specs.StatementViews as view;
ghost use Rattle.checked_run.specs.Coarrays as spec;

use caf_base::listing::{Listing, Text};
use caf_base::refusal::NoMemory;
use checked_tree::data::Variable;
use checked_tree::program::Checked;
use std::alloc::Global;

// The name of the variable with this number.
fn name_at(alloc: Global, variables: &[Variable], number: u32) -> Result<Text, NoMemory>
    ensures { IfOk result (λ name. name ≡ spec.name_at variables.now number) }
{
    match variables.get(number as usize) {
        Some(variable) => variable.name.copy(),
        None => Ok(Listing::new(alloc)),
    }
}

// The names of the variables with these numbers.
fn names_at(
    alloc: Global,
    variables: &[Variable],
    numbers: &[u32],
) -> Result<Listing<Text>, NoMemory>
    ensures { IfOk result (λ names. names ≡ map (spec.name_at variables.now) numbers.now) }
{
    let mut names = Vec::new(alloc);
    for number in numbers {
        names.push(name_at(alloc, variables, *number)?)?;
    }
    Ok(Listing::from_vec(names))
}

/// The names of the coarrays, in declared order.
pub fn names(alloc: Global, checked: &Checked) -> Result<Listing<Text>, NoMemory>
    ensures { IfOk result (λ names. names ≡ spec.names_of (view.program checked.now)) }
{
    names_at(
        alloc,
        checked.main.variables.as_slice(),
        checked.coarrays.as_slice(),
    )
}
