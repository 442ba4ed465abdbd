//! The procedures of a program with their statements.

ghost use Rattle.std.specs.Prelude.{◌≡◌, [], length, map, IfOk, OnOk};
ghost use Rattle.std.specs.Option.{option_map};
ghost use Rattle.checked_tree.specs.StatementViews as typed;
ghost use Rattle.fortran_tree.specs.UnitViews.{procedure as procedure_seen};
ghost use Rattle.part_rules.specs.Views.{list_of, one_more};
ghost use Rattle.rule_definitions.specs.Judgements.{both, first_of};
ghost use Rattle.rule_definitions.specs.Names.{intent_is_in};
ghost use Rattle.rule_definitions.specs.Units as rules;
ghost use Rattle.rule_definitions.specs.Units.{completed};
ghost use Rattle.scope_table.specs.Symbols.{interface as interface_seen, role as role_seen, symbol as symbol_seen};
ghost use Rattle.statement_rules.specs.Positions.{position as position_seen};
ghost use Rattle.unit_scopes.specs.Openings.{closing};
ghost use Rattle.unit_scopes.specs.Scopes.{main_scope, owning};
ghost use Rattle.rule_checker.specs.Units.{all_further, one_further, procedure_here, units};

use crate::note::judge_end;
use crate::unit::{Counts, count, judge_unit, position_in};
use caf_base::refusal::NoMemory;
use checked_tree::data::{Constant, Object};
use checked_tree::program::{Dummy, Procedure, Unit};
use fortran_tree::declaration::Intent;
use fortran_tree::unit::Procedure as ProcedureTree;
use rule_definitions::broken::Broken;
use scope_table::outside::{Outside, heading_name};
use scope_table::scope::Scope;
use scope_table::symbol::{Interface, Role, Symbol};
use scope_table::table::Table;
use statement_rules::statement::Position;
use std::alloc::Global;

/// What the scopes of all units have in common when statements are judged.
#[derive(Clone, Copy)]
pub struct Common<'a> {
    pub outside: &'a Outside<'a>,
    pub interfaces: &'a [Interface],
    pub constants: &'a [Constant],
}

/// What units have given so far: the first of the rules that their statements break, what stands in these, and the
/// procedures, none where one has no meaning.
#[derive(Drop)]
pub struct Gone {
    pub first: Option<Broken>,
    pub counts: Counts,
    pub procedures: Option<Vec<Procedure>>,
}

/// The scope of a procedure's statements: its own names, those of the main program, and what all scopes have in common.
pub fn scope_inside<'a>(common: Common<'a>, host: &'a Table, own: &'a Table) -> Scope<'a>
    ensures { result ≡ completed (map interface_seen common.entry.interfaces.now) common.entry.constants.now (owning (closing (main_scope common.entry.outside.now [] []) host.now) own.now) }
{
    Scope {
        own,
        pending: None,
        answer: None,
        host: Some(host),
        outside: common.outside,
        interfaces: common.interfaces,
        constants: common.constants,
    }
}

fn is_in(role: Role) -> bool
    ensures { result ≡ intent_is_in (role_seen role) }
{
    matches!(role, Role::Dummy(Some(Intent::In)))
}

// The number of a variable among those of its scope, or of a coarray.
fn number_of(symbol: &Symbol) -> u32
    ensures { result ≡ rules.number_of (symbol_seen symbol.now) }
{
    match symbol.object {
        Object::Local(local) => local.variable,
        Object::Coarray(number) | Object::Constant(number) => number,
    }
}

fn type_dummy(symbol: &Symbol) -> Dummy
    ensures { result ≡ rules.dummy_typed (symbol_seen symbol.now) }
{
    Dummy {
        variable: number_of(symbol),
        is_copied_out: !is_in(symbol.role),
    }
}

fn type_dummies(alloc: Global, dummies: &[Symbol]) -> Result<Vec<Dummy>, NoMemory>
    ensures { IfOk result (λ v. v.items ≡ map rules.dummy_typed (map symbol_seen dummies.now)) }
{
    let mut all = Vec::new(alloc);
    for next in dummies {
        all.push(type_dummy(next))?;
    }
    Ok(all)
}

fn result_of(interface: &Interface) -> Option<u32>
    ensures { result ≡ option_map rules.number_of (interface_seen interface.now).result }
{
    match &interface.result {
        Some(symbol) => Some(number_of(symbol)),
        None => None,
    }
}

// A procedure with this interface.
fn form(
    alloc: Global,
    interface: &Interface,
    unit: Option<Unit>,
) -> Result<Option<Procedure>, NoMemory>
    ensures { IfOk result (λ o. option_map typed.procedure o ≡ option_map (rules.procedure_form (interface_seen interface.now)) (option_map typed.unit unit)) }
{
    let Some(unit) = unit else {
        return Ok(None);
    };
    let dummies = type_dummies(alloc, interface.dummies.as_slice())?;
    Ok(Some(Procedure {
        name: interface.name.copy()?,
        dummies,
        result: result_of(interface),
        unit,
    }))
}

// A procedure whose statements stand here.
fn judge_procedure(
    alloc: Global,
    first: &mut Option<Broken>,
    own: &Table,
    position: Position<'_>,
    interface: &Interface,
    procedure: &ProcedureTree,
) -> Result<Option<Procedure>, NoMemory>
    ensures first { OnOk result (first.new ≡ first_of first.old (procedure_here own.now (position_seen position.entry) (interface_seen interface.now) (procedure_seen procedure.now)).breaks) }
    ensures procedure { IfOk result (λ o. option_map typed.procedure o ≡ (procedure_here own.now (position_seen position.entry) (interface_seen interface.now) (procedure_seen procedure.now)).meaning) }
{
    let unit = judge_unit(
        alloc,
        first,
        own,
        position,
        procedure.body.statements.as_slice(),
    )?;
    let name = heading_name(&procedure.heading);
    if judge_end(first, Some(name), &procedure.end.name) {
        let typed = form(alloc, interface, unit)?;
        Ok(typed)
    } else {
        drop(unit);
        Ok(None)
    }
}

// Puts a procedure behind the others; there are none where it has no meaning.
fn keep(all: &mut Option<Vec<Procedure>>, next: Option<Procedure>) -> Result<(), NoMemory>
    ensures { OnOk result (option_map list_of all.new ≡ both one_more (option_map list_of all.old) next) }
{
    match next {
        Some(next) => {
            if let Some(all) = all {
                all.push(next)?;
            }
        }
        None => {
            *all = None;
        }
    }
    Ok(())
}

// The next procedure, with these names of its own and this interface.
fn judge_next(
    alloc: Global,
    common: Common<'_>,
    host: &Table,
    all: &mut Gone,
    procedure: &ProcedureTree,
    own: &Table,
    interface: &Interface,
) -> Result<(), NoMemory>
    ensures { OnOk result (units all.new ≡ one_further (map interface_seen common.entry.interfaces.now) common.entry.constants.now (procedure_seen procedure.now) (owning (closing (main_scope common.entry.outside.now [] []) host.now) own.now) (interface_seen interface.now) (units all.old)) }
{
    let scope = scope_inside(common, host, own);
    let position = position_in(&scope, &all.counts)?;
    let next = judge_procedure(alloc, &mut all.first, own, position, interface, procedure)?;
    keep(&mut all.procedures, next)?;
    count(&mut all.counts, procedure.body.statements.as_slice())?;
    Ok(())
}

/// Judges the procedures of a program, each with its names, behind the main program.
pub fn judge_each(
    alloc: Global,
    common: Common<'_>,
    host: &Table,
    all: &mut Gone,
    procedures: &[ProcedureTree],
    tables: &[Table],
) -> Result<(), NoMemory>
    requires tables { length tables.now ≡ length procedures.now }
    requires interfaces { length common.interfaces.now ≡ length procedures.now }
    ensures { OnOk result (units all.new ≡ all_further (map interface_seen common.entry.interfaces.now) common.entry.constants.now (map procedure_seen procedures.now) (map (owning (closing (main_scope common.entry.outside.now [] []) host.now)) tables.now) (map interface_seen common.entry.interfaces.now) (units all.old)) }
{
    for index in 0..procedures.len() {
        judge_next(
            alloc,
            common,
            host,
            all,
            &procedures[index],
            &tables[index],
            &common.interfaces[index],
        )?;
    }
    Ok(())
}
