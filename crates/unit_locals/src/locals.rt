//! The names that a procedure declares.

ghost use Rattle.std.specs.Prelude.{◌≡◌, ◌∷◌, [], IfOk, bytes_eq, map};
ghost use Rattle.fortran_tree.specs.DeclarationViews.{declaration};
ghost use Rattle.fortran_tree.specs.UnitViews.{heading as heading_seen};
ghost use Rattle.module_units.specs.Visible.{locals_of};
ghost use Rattle.rule_definitions.specs.Names.{is_among};
ghost use Rattle.rule_definitions.specs.Units.{headed};
ghost use Rattle.scope_table.specs.Pending.{maybe_name};
ghost use Rattle.unit_locals.specs.Written.{is_own_name, result_names, written_names};

use caf_base::refusal::NoMemory;
use fortran_tree::declaration::Declaration;
use fortran_tree::name::Name;
use fortran_tree::unit::{Heading, Procedure};
use scope_table::pending::Pending;
use std::alloc::Global;
use std::marker::Model;

/// What a procedure declares: its dummy arguments, its declarations, and the result that RESULT names. The result of a
/// function without RESULT has the name of the function, which its unit declares.
#[derive(Drop)]
pub struct Locals<'a> {
    heading: &'a Heading,
    declarations: &'a [Declaration],
    names: Pending<'a>,
}

impl<'a> Model for Locals<'a> {
    ghost use Rattle.std.specs.Prelude.{◌≡◌, List, ℕ, map};
    ghost use Rattle.fortran_tree.specs.DeclarationViews.{declaration};
    ghost use Rattle.fortran_tree.specs.UnitViews.{heading as heading_seen};
    ghost use Rattle.module_units.specs.Visible.{locals_of};
    ghost use Rattle.rule_definitions.specs.Units.{headed};
    ghost use Rattle.unit_locals.specs.Written.{written_names};

    ghost Value = { List (List ℕ) };

    ghost view = { λ l. locals_of (headed (heading_seen l.heading.now)) (map declaration l.declarations.now) };

    ghost invariant = { λ l. l.names ≡ written_names (heading_seen l.heading.now) l.declarations.now };
}

impl<'a> Locals<'a> {
    /// Of a procedure.
    pub fn of(alloc: Global, procedure: &'a Procedure) -> Result<Locals<'a>, NoMemory>
        ensures { IfOk result (λ l. l ≡ locals_of (headed (heading_seen procedure.now.heading)) (map declaration procedure.now.body.declarations.items)) }
    {
        let heading = &procedure.heading;
        let declarations = procedure.body.declarations.as_slice();
        let names = Pending::of(alloc, declarations, dummies_in(heading), result_in(heading))?;
        Ok(Locals {
            heading,
            declarations,
            names,
        })
    }

    /// Whether a procedure declares a name.
    #[tactic(auto, using(crate::proofs::LocalNames::local_laws))]
    pub fn contains(&self, name: &[u8]) -> bool
        ensures { result ≡ is_among self.now name.now }
    {
        if is_result_name(self.heading, name) {
            return false;
        }
        self.names.contains(name)
    }
}

// The dummy arguments.
fn dummies_in(heading: &Heading) -> &[Name]
    ensures { result.now ≡ (headed (heading_seen heading.now)).dummies }
{
    match heading {
        Heading::Subroutine {
            dummies: Some(dummies),
            ..
        } => dummies.as_slice(),
        Heading::Subroutine { dummies: None, .. } => &[],
        Heading::Function { dummies, .. } => dummies.as_slice(),
    }
}

// The result that RESULT names.
fn result_in(heading: &Heading) -> Option<&Name>
    ensures { maybe_name result ≡ result_names (heading_seen heading.now) }
{
    match heading {
        Heading::Subroutine { .. } => None,
        Heading::Function {
            result: Some(result),
            ..
        } => Some(result),
        Heading::Function { result: None, .. } => None,
    }
}

// Whether this is the name of a function and of its result.
fn is_result_name(heading: &Heading, name: &[u8]) -> bool
    ensures { result ≡ is_own_name (heading_seen heading.now) name.now }
{
    match heading {
        Heading::Function {
            name: own,
            result: None,
            ..
        } => own.text.as_slice() == name,
        Heading::Function {
            result: Some(_),
            ..
        }
        | Heading::Subroutine { .. } => false,
    }
}
