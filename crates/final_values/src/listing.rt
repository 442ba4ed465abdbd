//! The variables whose final values are told.

ghost use Rattle.std.specs.Prelude.{◌≡◌, ◌++◌, IfOk, OnOk, option_map};
ghost use Rattle.checked_tree.specs.StatementViews.{program};
ghost use Rattle.final_values.specs.Listings as spec;

use caf_base::listing::Text;
use caf_base::refusal::NoMemory;
use caf_base::value::Kind;
use checked_tree::data::{DataType, Dimensions, Variable};
use checked_tree::program::Checked;
use std::alloc::Global;

/// Where a variable of the main program is found: among the scalars, or among the arrays of its frame, by its own
/// number, or by this number among the coarrays.
#[derive(Clone, Copy)]
pub enum Form {
    Scalar,
    Array,
    Coarray(u32),
}

/// An integer or logical variable of the main program: its name, its number, its kind and where it is found.
#[derive(Drop)]
pub struct Listed {
    pub name: Text,
    pub variable: u32,
    pub kind: Kind,
    pub form: Form,
}

// The number of a variable among the coarrays, where it is one.
fn place(coarrays: &[u32], variable: u32) -> Result<Option<u32>, NoMemory>
    ensures { IfOk result (λ o. o ≡ spec.place_in coarrays.now variable) }
{
    for (place, coarray) in coarrays.iter().enumerate() {
        if *coarray == variable {
            let Ok(number) = u32::try_from(place) else {
                return Err(NoMemory);
            };
            return Ok(Some(number));
        }
    }
    Ok(None)
}

// Whether a variable of this shape is a scalar.
fn is_scalar(dimensions: &Dimensions) -> bool
    ensures { result ≡ spec.is_scalar dimensions.now }
{
    match dimensions {
        Dimensions::Explicit(shape) => shape.dims.len() == 0,
        Dimensions::Deferred { .. } => false,
    }
}

// Where a variable is found.
fn form_of(coarrays: &[u32], number: u32, variable: &Variable) -> Result<Form, NoMemory>
    ensures { IfOk result (λ f. f ≡ spec.form_of coarrays.now number variable.now) }
{
    match place(coarrays, number)? {
        Some(place) => Ok(Form::Coarray(place)),
        None if is_scalar(&variable.dimensions) => Ok(Form::Scalar),
        None => Ok(Form::Array),
    }
}

// Lists a variable of a kind.
fn list_one(
    listed: &mut Vec<Listed>,
    coarrays: &[u32],
    number: u32,
    variable: &Variable,
    kind: Kind,
) -> Result<(), NoMemory>
    ensures { OnOk result (listed.new.items ≡ listed.old.items ++ spec.listed_one coarrays.now number variable.now kind) }
{
    let form = form_of(coarrays, number, variable)?;
    let name = variable.name.copy()?;
    listed.push(Listed {
        name,
        variable: number,
        kind,
        form,
    })?;
    Ok(())
}

// Lists a variable that is an integer or logical.
fn list(
    listed: &mut Vec<Listed>,
    coarrays: &[u32],
    number: u32,
    variable: &Variable,
) -> Result<(), NoMemory>
    ensures { OnOk result (listed.new.items ≡ listed.old.items ++ spec.listed_by coarrays.now number variable.now variable.now.of_type) }
{
    match variable.of_type {
        DataType::Intrinsic(kind) => list_one(listed, coarrays, number, variable, kind),
        DataType::Team | DataType::Event | DataType::Lock => Ok(()),
    }
}

/// The integer and logical variables of a program's main program, in declared order.
pub fn listed_variables(alloc: Global, checked: &Checked) -> Result<Vec<Listed>, NoMemory>
    ensures { IfOk result (λ v. v.items ≡ spec.listed_of (program checked.now)) }
{
    let mut listed = Vec::new(alloc);
    for (place, variable) in checked.main.variables.iter().enumerate() {
        let Ok(number) = u32::try_from(place) else {
            return Err(NoMemory);
        };
        list(&mut listed, checked.coarrays.as_slice(), number, variable)?;
    }
    Ok(listed)
}
