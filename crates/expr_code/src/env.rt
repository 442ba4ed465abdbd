//! What the code of a statement needs of the program around it.

ghost use Rattle.std.specs.Prelude.{◌≡◌, IfOk};
ghost use Rattle.tree_meaning.specs.Environment as meaning;
ghost use Rattle.expr_code.specs.Environments.{environment};
ghost use Rattle.image_code.specs.Table as table;
ghost use Rattle.std.specs.Option.{option_map};
ghost use Rattle.expr_code.specs.Procedures.{procedure_found};

use crate::shape::{narrow, sum};
use caf_base::refusal::NoMemory;
use checked_tree::data::{Codimensions, Variable};
use checked_tree::program::{Checked, Procedure};
use image_code::step::Scope;

/// The program; from where a statement sees the main program's variables; and the first hidden cell of its frame.
#[derive(Clone, Copy)]
pub struct Env<'a> {
    pub checked: &'a Checked,
    pub main: Scope,
    pub hidden: u32,
}

impl<'a> Env<'a> {
    /// From where the main program's variables are seen.
    #[tactic(auto, unfolding(crate::specs::Environments::environment))]
    pub fn main(&self) -> Scope
        ensures { table.scope_of result ≡ (environment self.now).main }
    {
        self.main
    }

    /// Where a constant array stands: behind the main program's variables.
    #[tactic(auto, unfolding(crate::specs::Environments::environment))]
    pub fn constant_place(&self, constant: u32) -> Result<u32, NoMemory>
        ensures { IfOk result (λ n. n ≡ meaning.constant_place (environment self.now) constant) }
    {
        sum(narrow(self.checked.main.variables.len())?, constant)
    }

    /// The procedure with this number.
    #[tactic(auto, using(std::proofs::lemmas::Option::gets, crate::proofs::Calls::procedure_at), unfolding(crate::specs::Environments::environment))]
    pub fn procedure(&self, number: u32) -> Option<&Procedure>
        ensures { procedure_found (option_map (λ p. p.now) result) ≡ meaning.procedure_in (environment self.now) number }
    {
        self.checked.procedures.get(number as usize)
    }

    /// The corank of a coarray.
    #[tactic(auto, unfolding(crate::specs::Environments::environment))]
    pub fn corank(&self, coarray: u32) -> Result<u32, NoMemory>
        ensures { IfOk result (λ n. n ≡ meaning.corank (environment self.now) coarray) }
    {
        let coarrays = self.checked.coarrays.as_slice();
        let n = coarray as usize;
        let variable = if n < coarrays.len() { coarrays[n] } else { 0 };
        corank_in(self.checked.main.variables.as_slice(), variable)
    }
}

// The corank of the variable with this number.
#[tactic(auto, using(std::proofs::lemmas::Option::gets, crate::proofs::Pieces::corank_at))]
fn corank_in(variables: &[Variable], variable: u32) -> Result<u32, NoMemory>
    ensures { IfOk result (λ n. n ≡ meaning.corank_in variables.now variable) }
{
    match variables.get(variable as usize) {
        Some(variable) => corank_of(&variable.codimensions),
        None => Ok(0),
    }
}

fn corank_of(codimensions: &Codimensions) -> Result<u32, NoMemory>
    ensures { IfOk result (λ n. n ≡ meaning.corank_of codimensions.now) }
{
    match codimensions {
        Codimensions::Absent => Ok(0),
        Codimensions::Explicit(shape) => narrow(shape.lower.len()),
        Codimensions::Deferred { corank } => Ok(*corank),
    }
}
