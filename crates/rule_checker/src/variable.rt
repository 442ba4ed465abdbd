//! Typed variables, and the numbers of coarrays.

ghost use Rattle.std.specs.Prelude.{◌≡◌, ◌+◌, ◌++◌, Some, None, cond, length, map, IfOk, OnOk};
ghost use Rattle.std.specs.Option.{option_map};
ghost use Rattle.part_rules.specs.Views.{list_of};
ghost use Rattle.rule_definitions.specs.Names.{variables_of};
ghost use Rattle.rule_definitions.specs.Units as rules;
ghost use Rattle.scope_table.specs.Counts.{variable_count};
ghost use Rattle.scope_table.specs.Symbols.{entry as entry_seen, symbol as symbol_seen};
ghost use Rattle.rule_checker.specs.Typing.{behind_variables, coarray_number, typed_entry, typed_variables};

use caf_base::refusal::NoMemory;
use caf_base::short::Short;
use checked_tree::data::{Coarrays, Dimensions, Variable};
use coarray_types::shape::Shape;
use scope_table::symbol::{Entry, KnownBounds, Symbol};
use scope_table::table::Table;
use std::alloc::Global;
use unit_scopes::coshape::all_known;
use unit_scopes::interface::{copy_codimensions, copy_initial};

// How many dimensions there are.
fn rank_of(bounds: &[KnownBounds]) -> Result<u32, NoMemory>
    ensures { IfOk result (λ n. n ≡ length bounds.now) }
{
    match u32::try_from(bounds.len()) {
        Ok(rank) => Ok(rank),
        Err(_) => Err(NoMemory),
    }
}

// The shape of a variable; none where a bound is unknown.
fn dimensions_of(alloc: Global, symbol: &Symbol) -> Result<Option<Dimensions>, NoMemory>
    ensures { IfOk result (λ o. o ≡ (rules.dimensions_of (symbol_seen symbol.now)).meaning) }
{
    let bounds = symbol.bounds.as_slice();
    if symbol.is_allocatable && bounds.len() != 0 {
        return Ok(Some(Dimensions::Deferred {
            rank: rank_of(bounds)?,
        }));
    }
    let Some(known) = all_known(alloc, bounds)? else {
        return Ok(None);
    };
    let dims = Short::from_slice(alloc, known.as_slice())?;
    Ok(Some(Dimensions::Explicit(Shape { dims })))
}

// A typed variable; none where its type or a bound is unknown.
fn type_variable(alloc: Global, symbol: &Symbol) -> Result<Option<Variable>, NoMemory>
    ensures { IfOk result (λ o. o ≡ (rules.variable_of (symbol_seen symbol.now)).meaning) }
{
    let Some(of_type) = symbol.of_type else {
        return Ok(None);
    };
    let Some(dimensions) = dimensions_of(alloc, symbol)? else {
        return Ok(None);
    };
    let codimensions = copy_codimensions(&symbol.coshape)?;
    let initial = copy_initial(&symbol.initial)?;
    Ok(Some(Variable {
        name: symbol.name.copy()?,
        of_type,
        dimensions,
        codimensions,
        is_allocatable: symbol.is_allocatable,
        initial,
    }))
}

// Puts what a name declares behind the typed variables; false where that is unknown.
#[tactic(auto, using(crate::proofs::Typing::nothing_behind))]
fn add_variable(alloc: Global, all: &mut Vec<Variable>, entry: &Entry) -> Result<bool, NoMemory>
    ensures { IfOk result (λ known. behind_variables all.old.items (typed_entry entry.now) ≡ cond known (Some all.new.items) None) }
{
    let Entry::Variable(symbol) = entry else {
        return Ok(true);
    };
    let Some(variable) = type_variable(alloc, symbol)? else {
        return Ok(false);
    };
    all.push(variable)?;
    Ok(true)
}

// The typed variables among entries.
fn type_entries(alloc: Global, entries: &[Entry]) -> Result<Option<Vec<Variable>>, NoMemory>
    ensures { IfOk result (λ o. option_map list_of o ≡ typed_variables (variables_of (map entry_seen entries.now))) }
{
    let mut all = Vec::new(alloc);
    for next in entries {
        if !add_variable(alloc, &mut all, next)? {
            return Ok(None);
        }
    }
    Ok(Some(all))
}

/// The typed variables of a scope in declared order; none where a type or a bound is unknown.
pub fn type_variables(alloc: Global, own: &Table) -> Result<Option<Vec<Variable>>, NoMemory>
    ensures { IfOk result (λ o. option_map list_of o ≡ typed_variables (variables_of own.now)) }
{
    type_entries(alloc, own.entries())
}

// Puts the number of a variable behind the others, where it is a coarray; the number of the next variable.
fn add_number(all: &mut Coarrays, number: u32, entry: &Entry) -> Result<u32, NoMemory>
    ensures numbers { OnOk result (all.new ≡ all.old ++ coarray_number number entry.now) }
    ensures next { IfOk result (λ n. n ≡ number + variable_count entry.now) }
{
    let Entry::Variable(symbol) = entry else {
        return Ok(number);
    };
    if symbol.corank != 0 {
        all.push(number)?;
    }
    match number.checked_add(1) {
        Some(next) => Ok(next),
        None => Err(NoMemory),
    }
}

fn number_entries(alloc: Global, entries: &[Entry]) -> Result<Coarrays, NoMemory>
    ensures { IfOk result (λ l. l ≡ rules.coarray_numbers 0 (variables_of (map entry_seen entries.now))) }
{
    let mut all = Coarrays::new(alloc);
    let mut number: u32 = 0;
    for next in entries {
        let further = add_number(&mut all, number, next)?;
        number = further;
    }
    Ok(all)
}

/// The number of each coarray among the variables of a scope.
pub fn number_coarrays(alloc: Global, own: &Table) -> Result<Coarrays, NoMemory>
    ensures { IfOk result (λ l. l ≡ rules.coarray_numbers 0 (variables_of own.now)) }
{
    number_entries(alloc, own.entries())
}
