//! The names in declarations, without those that they declare.

ghost use Rattle.std.specs.Prelude.{◌≡◌, ◌++◌, OnOk, map};
ghost use Rattle.fortran_tree.specs.DeclarationViews as view;
ghost use Rattle.unit_references.specs.References as names;

use crate::expr::add_expr;
use crate::references::References;
use caf_base::refusal::NoMemory;
use fortran_tree::declaration::{
    Attribute, Bounds, Coshape, Declaration, Dimension, Entity, TypeSpec,
};
use fortran_tree::expr::Expr;

/// The names in an expression that may be missing.
pub fn add_maybe<'a>(refs: &mut References<'a>, expr: &'a Option<Expr>) -> Result<(), NoMemory>
    ensures { OnOk result (refs.new ≡ refs.old ++ names.maybe names.expression (view.maybe_expression expr.now)) }
{
    match expr {
        Some(expr) => add_expr(refs, expr),
        None => Ok(()),
    }
}

/// The names in a type.
pub fn add_type<'a>(refs: &mut References<'a>, written: &'a TypeSpec) -> Result<(), NoMemory>
    ensures { OnOk result (refs.new ≡ refs.old ++ names.declaration_type_spec (view.declaration_type_spec written.now)) }
{
    match written {
        TypeSpec::Integer { kind } => add_maybe(refs, kind),
        TypeSpec::Logical { kind } => add_maybe(refs, kind),
        TypeSpec::Derived { name } => refs.add_name(name),
    }
}

/// The names in bounds.
fn add_bounds<'a>(refs: &mut References<'a>, bounds: &'a Bounds) -> Result<(), NoMemory>
    ensures { OnOk result (refs.new ≡ refs.old ++ names.bounds (view.bounds bounds.now)) }
{
    add_maybe(refs, &bounds.lower)?;
    add_expr(refs, &bounds.upper)
}

fn add_dimension<'a>(refs: &mut References<'a>, dimension: &'a Dimension) -> Result<(), NoMemory>
    ensures { OnOk result (refs.new ≡ refs.old ++ names.dimension (view.dimension dimension.now)) }
{
    match dimension {
        Dimension::Explicit(bounds) => add_bounds(refs, bounds),
        Dimension::Deferred { .. } => Ok(()),
    }
}

/// The names in dimensions.
pub fn add_dimensions<'a>(
    refs: &mut References<'a>,
    dimensions: &'a [Dimension],
) -> Result<(), NoMemory>
    ensures { OnOk result (refs.new ≡ refs.old ++ names.each names.dimension (map view.dimension dimensions.now)) }
{
    for dimension in dimensions {
        add_dimension(refs, dimension)?;
    }
    Ok(())
}

fn add_cobounds<'a>(refs: &mut References<'a>, cobounds: &'a [Bounds]) -> Result<(), NoMemory>
    ensures { OnOk result (refs.new ≡ refs.old ++ names.each names.bounds (map view.bounds cobounds.now)) }
{
    for bounds in cobounds {
        add_bounds(refs, bounds)?;
    }
    Ok(())
}

fn add_coshape<'a>(refs: &mut References<'a>, coshape: &'a Coshape) -> Result<(), NoMemory>
    ensures { OnOk result (refs.new ≡ refs.old ++ names.coarray_spec (view.coarray_spec coshape.now)) }
{
    match coshape {
        Coshape::Explicit {
            cobounds,
            last_lower,
        } => {
            add_cobounds(refs, cobounds)?;
            add_maybe(refs, last_lower)
        }
        Coshape::Deferred { .. } => Ok(()),
    }
}

/// The names in a coarray specification that may be missing.
pub fn add_maybe_coshape<'a>(
    refs: &mut References<'a>,
    coshape: &'a Option<Coshape>,
) -> Result<(), NoMemory>
    ensures { OnOk result (refs.new ≡ refs.old ++ names.maybe names.coarray_spec (view.maybe_coarray_spec coshape.now)) }
{
    match coshape {
        Some(coshape) => add_coshape(refs, coshape),
        None => Ok(()),
    }
}

fn add_attribute<'a>(refs: &mut References<'a>, attribute: &'a Attribute) -> Result<(), NoMemory>
    ensures { OnOk result (refs.new ≡ refs.old ++ names.attribute (view.attribute attribute.now)) }
{
    match attribute {
        Attribute::Dimension(dimensions) => add_dimensions(refs, dimensions),
        Attribute::Codimension(coshape) => add_coshape(refs, coshape),
        Attribute::Parameter | Attribute::Allocatable | Attribute::Save | Attribute::Intent(_) =>
            Ok(()),
    }
}

fn add_attributes<'a>(
    refs: &mut References<'a>,
    attributes: &'a [Attribute],
) -> Result<(), NoMemory>
    ensures { OnOk result (refs.new ≡ refs.old ++ names.each names.attribute (map view.attribute attributes.now)) }
{
    for attribute in attributes {
        add_attribute(refs, attribute)?;
    }
    Ok(())
}

fn add_entity<'a>(refs: &mut References<'a>, entity: &'a Entity) -> Result<(), NoMemory>
    ensures { OnOk result (refs.new ≡ refs.old ++ names.entity (view.entity entity.now)) }
{
    add_dimensions(refs, &entity.dimensions)?;
    add_maybe_coshape(refs, &entity.coshape)?;
    add_maybe(refs, &entity.initial)
}

fn add_entities<'a>(refs: &mut References<'a>, entities: &'a [Entity]) -> Result<(), NoMemory>
    ensures { OnOk result (refs.new ≡ refs.old ++ names.each names.entity (map view.entity entities.now)) }
{
    for entity in entities {
        add_entity(refs, entity)?;
    }
    Ok(())
}

fn add_declaration<'a>(
    refs: &mut References<'a>,
    declaration: &'a Declaration,
) -> Result<(), NoMemory>
    ensures { OnOk result (refs.new ≡ refs.old ++ names.declaration (view.declaration declaration.now)) }
{
    add_type(refs, &declaration.type_spec)?;
    add_attributes(refs, &declaration.attributes)?;
    add_entities(refs, &declaration.entities)
}

/// The names in declarations.
pub fn add_declarations<'a>(
    refs: &mut References<'a>,
    declarations: &'a [Declaration],
) -> Result<(), NoMemory>
    ensures { OnOk result (refs.new ≡ refs.old ++ names.each names.declaration (map view.declaration declarations.now)) }
{
    for declaration in declarations {
        add_declaration(refs, declaration)?;
    }
    Ok(())
}
