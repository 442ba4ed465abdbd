//! What is known of a new entity, and its entry among the names of a scope.

ghost use Rattle.std.specs.Prelude.{◌≡◌, ◌++◌, ◌∷◌, [], None, map, IfOk, OnOk};
ghost use Rattle.fortran_tree.specs.DeclarationViews.{entity as entity_seen};
ghost use Rattle.rule_definitions.specs.Constants.{all_bounds};
ghost use Rattle.rule_definitions.specs.Names.{Scope, denoted_in};
ghost use Rattle.rule_definitions.specs.Declarations.{array_constant_of, corank_of, effective_coshape, initial_of, role_of};
ghost use Rattle.rule_definitions.specs.Judgements.{first_of};
ghost use Rattle.scope_table.specs.Symbols.{constant_value as value_seen, entry, role as role_seen};
ghost use Rattle.declaration_rules.specs.Bounds.{maybe_asked};
ghost use Rattle.declaration_rules.specs.Entities.{attributes, unit};
ghost use Rattle.declaration_rules.specs.Shapes.{asked_dimension, dimensions_asked, known_dimension};
ghost use Rattle.unit_scopes.specs.EntitiesAsked.{asked_entity, initial_of_asked, known_shape, new_entity_breaks, object_behind, scope_of_parts, variable_made, whole_unless_raw};
ghost use Rattle.unit_scopes.specs.Coshapes.{coshape_asked_known};
ghost use Rattle.unit_scopes.specs.Founds.{array_more, array_value, constant_made, found, more_behind, scalar_of, value_behind};

use crate::coshape::{all_known, judge_coshape};
use crate::entity::{AskedEntity, coshape_of, dimensions_of, note_raw_entity};
use caf_base::listing::Listing;
use caf_base::refusal::NoMemory;
use caf_base::short::Short;
use checked_tree::data::{Codimensions, Constant, DataType, Home, Initial, Local, Object};
use coarray_types::shape::Shape;
use constant_values::constancy::Constancy;
use declaration_rules::asked::Asked;
use declaration_rules::attribute::{Attributes, DeclaringUnit, is_constant_entity, names_answer};
use declaration_rules::dimension::{AskedDimension, dimensions};
use declaration_rules::initial::judge_initial;
use declaration_rules::whole::{corank, judge_whole};
use fortran_tree::declaration::Entity;
use fortran_tree::name::Name;
use rule_definitions::broken::Broken;
use scope_table::symbol::{ConstantSymbol, ConstantValue, Entry, KnownBounds, Role, Symbol};
use scope_table::table::Table;
use std::alloc::Global;

/// What is known of an entity: its bounds, its coshape, and what was found of its initial value: nothing where it was
/// refused, and no value where none is written.
#[derive(Drop)]
pub struct Facts<'a> {
    pub bounds: Listing<KnownBounds>,
    pub coshape: Codimensions,
    pub initial: Option<Option<&'a Constancy>>,
}

// The rules on an entity as a whole, unless something breaks in its expressions.
fn judge_whole_unless_raw(
    first: &mut Option<Broken>,
    of: &DeclaringUnit<'_>,
    all: Attributes<'_>,
    of_type: Option<DataType>,
    entity: &Entity,
    asked: &AskedEntity,
)
    ensures { first.new ≡ first_of first.old (whole_unless_raw (unit of.now) (attributes all.entry) of_type (entity_seen entity.now) (asked_entity asked.now)) }
{
    let mut untold = None;
    if !note_raw_entity(&mut untold, asked) {
        return;
    }
    judge_whole(
        first,
        of,
        all,
        of_type,
        entity,
        dimensions_of(all, entity),
        coshape_of(all, entity),
    );
}

// The initial value of an entity, where one is written.
fn judge_maybe_initial<'a>(
    first: &mut Option<Broken>,
    of: &DeclaringUnit<'_>,
    all: Attributes<'_>,
    of_type: Option<DataType>,
    name: &Name,
    bounds: &[KnownBounds],
    expr: &'a Option<Asked>,
) -> Option<Option<&'a Constancy>>
    ensures first { first.new ≡ first_of first.old (initial_of_asked (unit of.now) (attributes all.entry) name.now.text of_type bounds.now (maybe_asked expr.now)).breaks }
    ensures value { found result ≡ (initial_of_asked (unit of.now) (attributes all.entry) name.now.text of_type bounds.now (maybe_asked expr.now)).meaning }
{
    let Some(expr) = expr else {
        return Some(None);
    };
    let is_constant = is_constant_entity(of, all, name.text.as_slice());
    let value = judge_initial(
        first,
        of,
        is_constant,
        all.is_allocatable,
        of_type,
        bounds,
        expr,
    )?;
    Some(Some(value))
}

// The bounds of an entity, as far as they are known.
fn known_bounds(
    alloc: Global,
    first: &mut Option<Broken>,
    allocates: bool,
    asked: &[AskedDimension],
) -> Result<Listing<KnownBounds>, NoMemory>
    ensures first { OnOk result (first.new ≡ first_of first.old (dimensions_asked allocates (map asked_dimension asked.now))) }
    ensures bounds { IfOk result (λ ds. ds ≡ map (known_dimension allocates) (map asked_dimension asked.now)) }
{
    let bounds = dimensions(alloc, first, allocates, asked)?;
    Ok(bounds)
}

/// All rules on a new entity (ISO/IEC 1539-1:2018, 8), and what is known of it.
#[tactic(auto, using(scope_table::proofs::First::first_of_both))]
pub fn judge_new<'a>(
    alloc: Global,
    first: &mut Option<Broken>,
    of: &DeclaringUnit<'_>,
    all: Attributes<'_>,
    of_type: Option<DataType>,
    entity: &Entity,
    asked: &'a AskedEntity,
) -> Result<Facts<'a>, NoMemory>
    ensures first { OnOk result (first.new ≡ first_of first.old (new_entity_breaks (unit of.now) (attributes all.entry) of_type (entity_seen entity.now) (asked_entity asked.now))) }
    ensures bounds { IfOk result (λ k. k.bounds ≡ known_shape (attributes all.entry) (asked_entity asked.now)) }
    ensures coshape { IfOk result (λ k. k.coshape ≡ coshape_asked_known (asked_entity asked.now).coshape) }
    ensures initial { IfOk result (λ k. found k.initial ≡ (initial_of_asked (unit of.now) (attributes all.entry) entity.now.name.text of_type (known_shape (attributes all.entry) (asked_entity asked.now)) (asked_entity asked.now).initial).meaning) }
{
    judge_whole_unless_raw(first, of, all, of_type, entity, asked);
    let bounds = known_bounds(
        alloc,
        first,
        all.is_allocatable,
        asked.dimensions.as_slice(),
    )?;
    let coshape = judge_coshape(alloc, first, all.is_allocatable, &asked.coshape)?;
    let initial = judge_maybe_initial(
        first,
        of,
        all,
        of_type,
        &entity.name,
        bounds.as_slice(),
        &asked.initial,
    );
    Ok(Facts {
        bounds,
        coshape,
        initial,
    })
}

// The values that were found.
fn initial_values(initial: Option<Option<&Constancy>>) -> Result<Initial, NoMemory>
    ensures { IfOk result (λ i. i ≡ initial_of (found initial.entry)) }
{
    match initial {
        Some(Some(Constancy::Value(value))) => Ok(Initial::All(*value)),
        Some(Some(Constancy::Values { values, .. })) => Ok(Initial::Each(values.copy()?)),
        Some(Some(Constancy::NoConstant)) | Some(None) | None => Ok(Initial::Unstated),
    }
}

// The array that a named constant is, where its type, bounds and values are known.
fn array_constant(
    alloc: Global,
    of_type: Option<DataType>,
    bounds: &[KnownBounds],
    initial: Option<Option<&Constancy>>,
) -> Result<Option<Constant>, NoMemory>
    ensures { IfOk result (λ c. c ≡ array_constant_of of_type (all_bounds bounds.now) (found initial.entry)) }
{
    let Some(DataType::Intrinsic(kind)) = of_type else {
        return Ok(None);
    };
    let Some(Some(_)) = initial else {
        return Ok(None);
    };
    let values = initial_values(initial)?;
    let Some(dims) = all_known(alloc, bounds)? else {
        drop(values);
        return Ok(None);
    };
    let dims = Short::from_slice(alloc, dims.as_slice())?;
    Ok(Some(Constant {
        kind,
        shape: Shape { dims },
        values,
    }))
}

// What a named constant that is a scalar stands for.
fn scalar_value(initial: Option<Option<&Constancy>>) -> ConstantValue
    ensures { value_seen result ≡ scalar_of (found initial.entry) }
{
    match initial {
        Some(Some(Constancy::Value(value))) => ConstantValue::Scalar(*value),
        Some(Some(Constancy::Values { .. } | Constancy::NoConstant)) | Some(None) | None => {
            ConstantValue::Unknown
        }
    }
}

// Puts an array behind the constants of the program, where it is one.
fn add_array(
    constants: &mut Vec<Constant>,
    array: Option<Constant>,
) -> Result<ConstantValue, NoMemory>
    ensures value { IfOk result (λ v. value_seen v ≡ array_value constants.old.items array) }
    ensures constants { OnOk result (constants.new.items ≡ constants.old.items ++ array_more array) }
{
    let Some(array) = array else {
        return Ok(ConstantValue::Unknown);
    };
    let Ok(number) = u32::try_from(constants.len()) else {
        drop(array);
        return Err(NoMemory);
    };
    constants.push(array)?;
    Ok(ConstantValue::Array(number))
}

// What a named constant stands for; an array goes behind the constants of the program.
fn add_value(
    alloc: Global,
    constants: &mut Vec<Constant>,
    of_type: Option<DataType>,
    bounds: &[KnownBounds],
    initial: Option<Option<&Constancy>>,
) -> Result<ConstantValue, NoMemory>
    ensures value { IfOk result (λ v. value_seen v ≡ value_behind constants.old.items bounds.now (found initial.entry) (array_constant_of of_type (all_bounds bounds.now) (found initial.entry))) }
    ensures constants { OnOk result (constants.new.items ≡ constants.old.items ++ more_behind bounds.now (array_constant_of of_type (all_bounds bounds.now) (found initial.entry))) }
{
    match bounds {
        [] => Ok(scalar_value(initial)),
        [_, ..] => {
            let array = array_constant(alloc, of_type, bounds, initial)?;
            let value = add_array(constants, array)?;
            Ok(value)
        }
    }
}

fn role_in(of: &DeclaringUnit<'_>, all: Attributes<'_>, name: &[u8]) -> Role
    ensures { role_seen result ≡ role_of (unit of.now) (attributes all.entry) name.now }
{
    if of.dummies.contains(name) {
        return Role::Dummy(all.intent);
    }
    if names_answer(of, name) {
        return Role::FunctionResult;
    }
    Role::Plain
}

// The object that the next variable is.
fn next_object(own: &Table, corank: usize) -> Object
    ensures { result ≡ object_behind own.now corank }
{
    if corank == 0 {
        return Object::Local(Local {
            home: Home::Own,
            variable: own.variables(),
        });
    }
    Object::Coarray(own.coarrays())
}

fn entity_corank(all: Attributes<'_>, entity: &Entity) -> usize
    ensures { result ≡ corank_of (effective_coshape (attributes all.entry) (entity_seen entity.now)) }
{
    corank(coshape_of(all, entity))
}

#[tactic(auto, using(crate::proofs::Facts::variable_told))]
fn variable_entry(
    of: &DeclaringUnit<'_>,
    all: Attributes<'_>,
    of_type: Option<DataType>,
    entity: &Entity,
    own: &Table,
    facts: Facts<'_>,
) -> Result<Entry, NoMemory>
    ensures { IfOk result (λ x. entry x ≡ variable_made own.now (unit of.now) (attributes all.entry) of_type (entity_seen entity.now) facts.entry.bounds facts.entry.coshape (found facts.entry.initial)) }
{
    let Facts {
        bounds,
        coshape,
        initial,
    } = facts;
    let name = entity.name.text.copy()?;
    let initial = initial_values(initial)?;
    let corank = entity_corank(all, entity);
    let object = next_object(own, corank);
    let role = role_in(of, all, entity.name.text.as_slice());
    Ok(Entry::Variable(Symbol {
        name,
        at: entity.name.at,
        object,
        of_type,
        bounds,
        coshape,
        corank,
        is_allocatable: all.is_allocatable,
        role,
        initial,
    }))
}

fn add_constant(
    alloc: Global,
    own: &mut Table,
    constants: &mut Vec<Constant>,
    of_type: Option<DataType>,
    name: &Name,
    facts: Facts<'_>,
) -> Result<(), NoMemory>
    requires { denoted_in own.old name.now.text ≡ None }
    ensures own { OnOk result (own.new ≡ own.old ++ constant_made constants.old.items name.now.text of_type facts.entry.bounds (found facts.entry.initial) ∷ []) }
    ensures constants { OnOk result (constants.new.items ≡ constants.old.items ++ more_behind facts.entry.bounds (array_constant_of of_type (all_bounds facts.entry.bounds) (found facts.entry.initial))) }
{
    let Facts {
        bounds,
        coshape,
        initial,
    } = facts;
    drop(coshape);
    let value = add_value(alloc, constants, of_type, bounds.as_slice(), initial)?;
    let name = name.text.copy()?;
    own.add(Entry::Constant(ConstantSymbol {
        name,
        of_type,
        bounds,
        value,
    }))?;
    Ok(())
}

/// Puts a new entity behind the names of a scope; an array that is a named constant goes behind the constants of the
/// program.
#[tactic(auto, using(crate::proofs::Facts::constant_told, crate::proofs::Facts::variable_scope))]
pub fn add_entity(
    alloc: Global,
    of: &DeclaringUnit<'_>,
    all: Attributes<'_>,
    of_type: Option<DataType>,
    entity: &Entity,
    own: &mut Table,
    constants: &mut Vec<Constant>,
    facts: Facts<'_>,
) -> Result<(), NoMemory>
    requires { denoted_in own.old entity.now.name.text ≡ None }
    ensures { OnOk result ((s : Scope) → record s { own = own.new; constants = constants.new.items } ≡ scope_of_parts (record s { own = own.old; constants = constants.old.items }) (unit of.now) (attributes all.entry) of_type (entity_seen entity.now) facts.entry.bounds facts.entry.coshape (found facts.entry.initial)) }
{
    if is_constant_entity(of, all, entity.name.text.as_slice()) {
        add_constant(alloc, own, constants, of_type, &entity.name, facts)?;
        return Ok(());
    }
    let next = variable_entry(of, all, of_type, entity, own, facts)?;
    own.add(next)?;
    Ok(())
}
