//! Dummy arguments and results that no declaration declares.

ghost use Rattle.std.specs.Prelude.{◌≡◌, ◌++◌, ◌∷◌, ◌||◌, ◌&&◌, [], None, length, IfOk, OnOk};
ghost use Rattle.rule_definitions.specs.Judgements.{first_of, is_there};
ghost use Rattle.rule_definitions.specs.Names.{Scope, denoted_in, variables_of};
ghost use Rattle.rule_definitions.specs.Declarations.{is_answer};
ghost use Rattle.rule_definitions.specs.Units.{bare, with_dummies, with_dummy, with_untyped};
ghost use Rattle.scope_table.specs.Symbols.{entry, role as role_seen};
ghost use Rattle.declaration_rules.specs.Entities.{unit};

use crate::attribute::{DeclaringUnit, names_answer};
use caf_base::listing::Listing;
use caf_base::refusal::NoMemory;
use checked_tree::data::{Codimensions, DataType, Home, Initial, Local, Object};
use fortran_tree::name::Name;
use rule_definitions::broken::Broken;
use rule_definitions::rule;
use scope_table::broken::note;
use scope_table::symbol::{Entry, Role, Symbol};
use scope_table::table::Table;
use std::alloc::Global;

/// A scalar without more: a result that its heading types, or a dummy argument or result that nothing types.
fn bare_entry(
    alloc: Global,
    name: &Name,
    of_type: Option<DataType>,
    role: Role,
    number: u32,
) -> Result<Entry, NoMemory>
    ensures { IfOk result (λ e. entry e ≡ bare name.now of_type (role_seen role) number) }
{
    Ok(Entry::Variable(Symbol {
        name: name.text.copy()?,
        at: name.at,
        object: Object::Local(Local {
            home: Home::Own,
            variable: number,
        }),
        of_type,
        bounds: Listing::new(alloc),
        coshape: Codimensions::Absent,
        corank: 0,
        is_allocatable: false,
        role,
        initial: Initial::Unstated,
    }))
}

/// Puts a scalar without more behind the names of a table, where it isn't among them.
fn add_bare(
    alloc: Global,
    own: &mut Table,
    name: &Name,
    of_type: Option<DataType>,
    role: Role,
) -> Result<(), NoMemory>
    requires { denoted_in own.old name.now.text ≡ None }
    ensures { OnOk result (own.new ≡ own.old ++ bare name.now of_type (role_seen role) (length (variables_of own.old)) ∷ []) }
{
    let number = own.variables();
    own.add(bare_entry(alloc, name, of_type, role, number)?)
}

// Whether a name is declared in a table, or is that of a result that its heading types.
fn is_declared_name(of: &DeclaringUnit<'_>, own: &Table, name: &[u8]) -> bool
    ensures { result ≡ (is_there (denoted_in own.now name.now) || (of.now.is_answer_typed && is_answer (unit of.now) name.now)) }
{
    if own.find(name).is_some() {
        return true;
    }
    of.is_answer_typed && names_answer(of, name)
}

/// Rule 29 (ISO/IEC 1539-1:2018, 8.5.10): a dummy argument without a type; it is a variable of unknown type all the
/// same.
fn add_dummy(
    alloc: Global,
    first: &mut Option<Broken>,
    of: &DeclaringUnit<'_>,
    own: &mut Table,
    dummy: &Name,
) -> Result<(), NoMemory>
    ensures first { OnOk result ((s : Scope) → first.new ≡ first_of first.old (with_dummy (unit of.now) (record s { own = own.old }) dummy.now).breaks) }
    ensures own { OnOk result ((s : Scope) → (with_dummy (unit of.now) (record s { own = own.old }) dummy.now).scope ≡ record s { own = own.new }) }
{
    if is_declared_name(of, own, dummy.text.as_slice()) {
        return Ok(());
    }
    note(first, rule::INTENT, dummy.at);
    add_bare(alloc, own, dummy, None, Role::UndeclaredDummy)?;
    Ok(())
}

/// The dummy arguments of a procedure, behind what its declarations declare.
pub fn add_dummies(
    alloc: Global,
    first: &mut Option<Broken>,
    of: &DeclaringUnit<'_>,
    own: &mut Table,
    dummies: &[Name],
) -> Result<(), NoMemory>
    ensures first { OnOk result ((s : Scope) → first.new ≡ first_of first.old (with_dummies (unit of.now) dummies.now (record s { own = own.old })).breaks) }
    ensures own { OnOk result ((s : Scope) → (with_dummies (unit of.now) dummies.now (record s { own = own.old })).scope ≡ record s { own = own.new }) }
{
    for dummy in dummies {
        add_dummy(alloc, first, of, own, dummy)?;
    }
    Ok(())
}

/// Rule 20 (15.6.2.2): a result without a type; it is a variable of unknown type all the same.
pub fn add_untyped_result(
    alloc: Global,
    first: &mut Option<Broken>,
    own: &mut Table,
    name: &Name,
) -> Result<(), NoMemory>
    ensures first { OnOk result ((s : Scope) → first.new ≡ first_of first.old (with_untyped (record s { own = own.old }) name.now).breaks) }
    ensures own { OnOk result ((s : Scope) → (with_untyped (record s { own = own.old }) name.now).scope ≡ record s { own = own.new }) }
{
    if own.find(name.text.as_slice()).is_some() {
        return Ok(());
    }
    note(first, rule::UNKNOWN_NAME, name.at);
    add_bare(alloc, own, name, None, Role::FunctionResult)?;
    Ok(())
}
