//! The scopes of a whole program. Interfaces are found first, without interfaces; then the declarations are read again
//! with them.

ghost use Rattle.std.specs.Prelude.{◌≡◌, [], None, map, IfOk};
ghost use Rattle.fortran_tree.specs.UnitViews.{program as program_seen, use_statement};
ghost use Rattle.rule_definitions.specs.Judgements.{first_of};
ghost use Rattle.rule_definitions.specs.Units.{interfaces_of, main_declared, procedures_of};
ghost use Rattle.scope_table.specs.Outside.{outer};
ghost use Rattle.scope_table.specs.Symbols.{interface as interface_seen};
ghost use Rattle.unit_scopes.specs.Openings.{closing};
ghost use Rattle.unit_scopes.specs.Scopes.{bare_scope, main_behind, main_scope, owning, passed, passed_through};

use crate::grown::Grown;
use crate::program::{Procedures, declare_main, main_setting, open_all, procedures_in};
use caf_base::refusal::NoMemory;
use fortran_tree::unit::Program;
use rule_definitions::broken::Broken;
use scope_table::outside::Outside;
use scope_table::symbol::Interface;
use scope_table::table::Table;
use std::alloc::Global;

/// The scopes of a program: the first of the rules that the main program's declarations break, the main program's
/// names, and the procedures, whose last array constants are those of the whole program.
#[derive(Drop)]
pub struct Scopes {
    pub first: Option<Broken>,
    pub own: Table,
    pub procedures: Procedures,
}

/// Reads all declarations of a program, with these interfaces of its procedures.
pub fn read_scopes(
    alloc: Global,
    outside: &Outside<'_>,
    interfaces: &[Interface],
    program: &Program,
) -> Result<Scopes, NoMemory>
    requires { outside.now ≡ outer (program_seen program.now).uses (procedures_of (program_seen program.now)) }
    ensures first { IfOk result (λ s. s.first ≡ first_of None (main_declared (program_seen program.now) (map interface_seen interfaces.now)).breaks) }
    ensures own { IfOk result (λ s. s.own ≡ (main_declared (program_seen program.now) (map interface_seen interfaces.now)).scope.own) }
    ensures scope { IfOk result (λ s. owning (main_scope outside.now (map interface_seen interfaces.now) []) s.own ≡ bare_scope (main_behind (program_seen program.now) (map interface_seen interfaces.now))) }
    ensures procedures { IfOk result (λ s. passed (closing (main_scope outside.now (map interface_seen interfaces.now) []) s.own) s.procedures ≡ passed_through (main_behind (program_seen program.now) (map interface_seen interfaces.now)) (procedures_of (program_seen program.now)) None) }
{
    let main = declare_main(
        alloc,
        outside,
        interfaces,
        program.body.declarations.as_slice(),
    )?;
    let Grown {
        first,
        own,
        constants,
    } = main;
    let setting = main_setting(outside, interfaces);
    let procedures = open_all(
        alloc,
        &setting,
        &own,
        None,
        constants,
        procedures_in(program),
    )?;
    Ok(Scopes {
        first,
        own,
        procedures,
    })
}

/// The interfaces of the procedures (15.4). References to functions give declarations no values, so that these are
/// found without them.
pub fn find_interfaces(
    alloc: Global,
    outside: &Outside<'_>,
    program: &Program,
) -> Result<Vec<Interface>, NoMemory>
    requires { outside.now ≡ outer (program_seen program.now).uses (procedures_of (program_seen program.now)) }
    ensures { IfOk result (λ v. map interface_seen v.items ≡ interfaces_of (program_seen program.now)) }
{
    let scopes = read_scopes(alloc, outside, &[], program)?;
    let Scopes {
        own,
        procedures,
        ..
    } = scopes;
    drop(own);
    let Procedures {
        grown,
        tables,
        interfaces,
    } = procedures;
    drop(grown);
    drop(tables);
    Ok(interfaces)
}
