//! The scopes of a program: the main program's, and those of its procedures in order, whose array constants follow
//! those of the units before them.

ghost use Rattle.std.specs.Prelude.{◌≡◌, [], None, map, IfOk, OnOk};
ghost use Rattle.fortran_tree.specs.DeclarationViews.{declaration as declaration_seen};
ghost use Rattle.fortran_tree.specs.UnitViews.{procedure as procedure_seen, program as program_seen};
ghost use Rattle.rule_definitions.specs.Declarations.{names_declared};
ghost use Rattle.rule_definitions.specs.Units.{main_unit, procedures_of};
ghost use Rattle.scope_table.specs.Symbols.{interface as interface_seen};
ghost use Rattle.declaration_rules.specs.Entities.{unit};
ghost use Rattle.unit_scopes.specs.Openings.{closing, host_scope};
ghost use Rattle.unit_scopes.specs.Scopes.{main_scope, passed, passed_through};
ghost use Rattle.unit_scopes.specs.Stepping.{step};
ghost use Rattle.unit_scopes.specs.Telling.{behind, of_all, told, told_parts};

use crate::declare::declare_all;
use crate::grown::{Grown, Setting};
use crate::interface::interface_of;
use crate::procedure::open_procedure;
use caf_base::refusal::NoMemory;
use checked_tree::data::Constant;
use declaration_rules::attribute::DeclaringUnit;
use fortran_tree::declaration::Declaration;
use fortran_tree::unit::{Procedure, Program};
use rule_definitions::broken::Broken;
use scope_table::dummy::Dummies;
use scope_table::outside::Outside;
use scope_table::pending::Pending;
use scope_table::symbol::Interface;
use scope_table::table::Table;
use std::alloc::Global;
use std::mem;

/// The procedures of a program: the names of each, its interface; the first of the rules that they break, and the array
/// constants so far. Between two of them no names have grown.
#[derive(Drop)]
pub struct Procedures {
    pub grown: Grown,
    pub tables: Vec<Table>,
    pub interfaces: Vec<Interface>,
}

// The next procedure.
#[tactic(auto, using(crate::proofs::Steps::step_told))]
fn open_next(
    alloc: Global,
    setting: &Setting<'_>,
    host: &Table,
    all: &mut Procedures,
    procedure: &Procedure,
) -> Result<(), NoMemory>
    requires { all.old.grown.own ≡ [] }
    ensures passed { OnOk result (passed (closing setting.now host.now) all.new ≡ step (host_scope setting.now host.now []) (procedure_seen procedure.now) (passed (closing setting.now host.now) all.old)) }
    ensures own { OnOk result (all.new.grown.own ≡ []) }
{
    open_procedure(alloc, setting, host, &mut all.grown, procedure)?;
    let interface = interface_of(alloc, &all.grown.own, &procedure.heading)?;
    all.interfaces.push(interface)?;
    let own = mem::replace(&mut all.grown.own, Table::new(alloc));
    all.tables.push(own)?;
    Ok(())
}

/// Reads the procedures of a program whose main program has these names.
pub fn open_all(
    alloc: Global,
    setting: &Setting<'_>,
    host: &Table,
    first: Option<Broken>,
    constants: Vec<Constant>,
    procedures: &[Procedure],
) -> Result<Procedures, NoMemory>
    ensures { IfOk result (λ q. passed (closing setting.now host.now) q ≡ passed_through (host_scope setting.now host.now constants.items) (map procedure_seen procedures.now) first) }
{
    let mut all = Procedures {
        grown: Grown {
            first,
            own: Table::new(alloc),
            constants,
        },
        tables: Vec::new(alloc),
        interfaces: Vec::new(alloc),
    };
    for next in procedures {
        open_next(alloc, setting, host, &mut all, next)?;
    }
    Ok(all)
}

/// The procedures of a program.
pub fn procedures_in(program: &Program) -> &[Procedure]
    ensures { map procedure_seen result.now ≡ procedures_of (program_seen program.now) }
{
    match &program.procedures {
        Some(procedures) => procedures.as_slice(),
        None => &[],
    }
}

// The names that the declarations of a main program declare.
#[tactic(auto, using(crate::proofs::Chains::append_none))]
fn main_pending(alloc: Global, declarations: &[Declaration]) -> Result<Pending<'_>, NoMemory>
    ensures { IfOk result (λ p. p ≡ names_declared (map declaration_seen declarations.now)) }
{
    let pending = Pending::of(alloc, declarations, &[], None)?;
    Ok(pending)
}

// A main program: it has no dummy arguments and no result.
fn main_declaring<'a>(alloc: Global) -> Result<DeclaringUnit<'a>, NoMemory>
    ensures { IfOk result (λ v. unit v ≡ main_unit) }
{
    Ok(DeclaringUnit {
        is_procedure: false,
        dummies: Dummies::of(alloc, &[])?,
        answer: None,
        is_answer_typed: false,
    })
}

// The setting in which the declarations of a main program are read.
fn setting_with<'a>(
    outside: &'a Outside<'a>,
    interfaces: &'a [Interface],
    pending: &'a Pending<'a>,
) -> Setting<'a>
    ensures { result ≡ main_scope outside.now (map interface_seen interfaces.now) pending.now }
{
    Setting {
        pending: Some(pending),
        answer: None,
        host: None,
        outside,
        interfaces,
    }
}

/// Reads the declarations of a main program.
#[tactic(auto, using(crate::proofs::Chains::main_told))]
pub fn declare_main(
    alloc: Global,
    outside: &Outside<'_>,
    interfaces: &[Interface],
    declarations: &[Declaration],
) -> Result<Grown, NoMemory>
    ensures { IfOk result (λ g. told (main_scope outside.now (map interface_seen interfaces.now) (names_declared (map declaration_seen declarations.now))) g ≡ behind (of_all main_unit (map declaration_seen declarations.now)) (told_parts None (main_scope outside.now (map interface_seen interfaces.now) (names_declared (map declaration_seen declarations.now))))) }
{
    let mut grown = Grown {
        first: None,
        own: Table::new(alloc),
        constants: Vec::new(alloc),
    };
    let of = main_declaring(alloc)?;
    let pending = main_pending(alloc, declarations)?;
    let setting = setting_with(outside, interfaces, &pending);
    declare_all(alloc, &setting, &of, &mut grown, declarations)?;
    Ok(grown)
}

/// The setting of a main program behind its declarations.
pub fn main_setting<'a>(outside: &'a Outside<'a>, interfaces: &'a [Interface]) -> Setting<'a>
    ensures { result ≡ main_scope outside.now (map interface_seen interfaces.now) [] }
{
    Setting {
        pending: None,
        answer: None,
        host: None,
        outside,
        interfaces,
    }
}
