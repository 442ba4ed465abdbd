//! The names in the body of a unit and in what stands before FUNCTION.

ghost use Rattle.std.specs.Prelude.{◌≡◌, ◌++◌, OnOk, map};
ghost use Rattle.fortran_tree.specs.UnitViews as view;
ghost use Rattle.unit_references.specs.References as names;

use crate::declaration::{add_declarations, add_type};
use crate::references::References;
use crate::statement::add_statements;
use caf_base::refusal::NoMemory;
use fortran_tree::unit::{Body, Prefix};

/// The names in the body of a procedure.
pub fn add_body<'a>(refs: &mut References<'a>, body: &'a Body) -> Result<(), NoMemory>
    ensures { OnOk result (refs.new ≡ refs.old ++ names.body (view.body body.now)) }
{
    add_declarations(refs, &body.declarations)?;
    add_statements(refs, &body.statements)
}

fn add_prefix<'a>(refs: &mut References<'a>, prefix: &'a Prefix) -> Result<(), NoMemory>
    ensures { OnOk result (refs.new ≡ refs.old ++ names.prefix_spec (view.prefix_spec prefix.now)) }
{
    match prefix {
        Prefix::Recursive => Ok(()),
        Prefix::Result(written) => add_type(refs, written),
    }
}

/// The names before FUNCTION.
pub fn add_prefixes<'a>(refs: &mut References<'a>, prefixes: &'a [Prefix]) -> Result<(), NoMemory>
    ensures { OnOk result (refs.new ≡ refs.old ++ names.each names.prefix_spec (map view.prefix_spec prefixes.now)) }
{
    for prefix in prefixes {
        add_prefix(refs, prefix)?;
    }
    Ok(())
}
