//! The scope of a procedure (ISO/IEC 1539-1:2018, 15.6.2, 19.5.1.4): its declarations, its dummy arguments and its
//! result.

ghost use Rattle.std.specs.Prelude.{◌≡◌, ◌+◌, ◌++◌, ◌∷◌, [], List, length, IfOk, OnOk};
ghost use Rattle.checked_tree.specs.declared.data.Constant.{Constant as ConstantKept};
ghost use Rattle.fortran_tree.specs.UnitViews.{heading as heading_seen, procedure as procedure_seen};
ghost use Rattle.rule_definitions.specs.Judgements.{first_of};
ghost use Rattle.rule_definitions.specs.Names as n;
ghost use Rattle.rule_definitions.specs.Names.{Scope as Names, named, variables_of};
ghost use Rattle.rule_definitions.specs.Units.{bare, first_type, headed, heading_breaks, typed_answer, unit_of, untyped_names};
ghost use Rattle.scope_table.specs.Pending.{declared_names, maybe_name, name_texts};
ghost use Rattle.scope_table.specs.Scopes.{answer_names};
ghost use Rattle.scope_table.specs.Symbols.{symbol as symbol_seen};
ghost use Rattle.declaration_rules.specs.Entities.{unit};
ghost use Rattle.unit_scopes.specs.Headings.{lent_name};
ghost use Rattle.unit_scopes.specs.Openings.{answer_list, closing, host_scope, maybe_untyped, of_answer, of_dummies, opened_told, opening};
ghost use Rattle.unit_scopes.specs.Telling.{behind, of_all, told};

use crate::declare::declare_all;
use crate::grown::{Grown, Setting};
use crate::heading::{
    answer_in, dummies_in, is_typed_heading, judge_first_type, judge_heading, prefixes_in,
};
use caf_base::listing::Listing;
use caf_base::refusal::NoMemory;
use checked_tree::data::{Codimensions, DataType, Home, Initial, Local, Object};
use declaration_rules::attribute::DeclaringUnit;
use declaration_rules::result::{add_dummies, add_untyped_result};
use fortran_tree::declaration::Declaration;
use fortran_tree::name::Name;
use fortran_tree::unit::{Heading, Procedure};
use rule_definitions::broken::Broken;
use scope_table::dummy::Dummies;
use scope_table::pending::Pending;
use scope_table::symbol::{Entry, Role, Symbol};
use scope_table::table::Table;
use std::alloc::Global;

// A result that its heading types, as a scalar without more.
fn bare_result(
    alloc: Global,
    name: &Name,
    of_type: Option<DataType>,
    number: u32,
) -> Result<Symbol, NoMemory>
    ensures { IfOk result (λ x. named x.name (n.variable (symbol_seen x)) ≡ bare name.now of_type n.function_result number) }
{
    Ok(Symbol {
        name: name.text.copy()?,
        at: name.at,
        object: Object::Local(Local {
            home: Home::Own,
            variable: number,
        }),
        of_type,
        bounds: Listing::new(alloc),
        coshape: Codimensions::Absent,
        corank: 0,
        is_allocatable: false,
        role: Role::FunctionResult,
        initial: Initial::Unstated,
    })
}

// The result that a heading types: this is its type.
fn typed_result(
    alloc: Global,
    of_type: Option<DataType>,
    heading: &Heading,
    number: u32,
) -> Result<Option<Symbol>, NoMemory>
    ensures { IfOk result (λ o. (s : Names) → of_type ≡ (first_type s (headed (heading_seen heading.now)).types).meaning → answer_list o ≡ typed_answer s (headed (heading_seen heading.now)) number) }
{
    if !is_typed_heading(heading) {
        return Ok(None);
    }
    match answer_in(heading) {
        Some(answer) => Ok(Some(bare_result(alloc, answer, of_type, number)?)),
        None => Ok(None),
    }
}

fn lent(answer: &Option<Symbol>) -> Option<&Symbol>
    ensures { answer_names result ≡ answer_list answer.now }
{
    match answer {
        Some(answer) => Some(answer),
        None => None,
    }
}

// The result that no heading types.
fn untyped_answer(heading: &Heading) -> Option<&Name>
    ensures { maybe_name result ≡ untyped_names (headed (heading_seen heading.now)) }
{
    let answer = answer_in(heading)?;
    if is_typed_heading(heading) {
        return None;
    }
    Some(answer)
}

fn declaring_unit<'a>(dummies: Dummies<'a>, heading: &'a Heading) -> DeclaringUnit<'a>
    requires { dummies ≡ name_texts (headed (heading_seen heading.now)).dummies }
    ensures unit { unit result ≡ unit_of (headed (heading_seen heading.now)) }
    ensures dummies { result.dummies ≡ name_texts (headed (heading_seen heading.now)).dummies }
{
    DeclaringUnit {
        is_procedure: true,
        dummies,
        answer: answer_in(heading),
        is_answer_typed: is_typed_heading(heading),
    }
}

// How many names declarations declare.
fn count_names(declarations: &[Declaration]) -> Result<u32, NoMemory>
    ensures { IfOk result (λ k. k ≡ length (declared_names declarations.now)) }
{
    let mut count: u32 = 0;
    for next in declarations {
        let more = with_more(count, next.entities.len())?;
        count = more;
    }
    Ok(count)
}

fn with_more(count: u32, more: usize) -> Result<u32, NoMemory>
    ensures { IfOk result (λ k. k ≡ count + more) }
{
    let Ok(more) = u32::try_from(more) else {
        return Err(NoMemory);
    };
    match count.checked_add(more) {
        Some(sum) => Ok(sum),
        None => Err(NoMemory),
    }
}

// Puts a result behind the names of its scope. Where its heading types it no declaration declares it, so that it isn't
// there.
fn add_result(own: &mut Table, answer: Symbol) -> Result<(), NoMemory>
    ensures { OnOk result (own.new ≡ own.old ++ named answer.name (n.variable (symbol_seen answer)) ∷ []) }
{
    if own.find(answer.name.as_slice()).is_some() {
        drop(answer);
        return Err(NoMemory);
    }
    own.add(Entry::Variable(answer))
}

fn add_typed(
    alloc: Global,
    own: &mut Table,
    of_type: Option<DataType>,
    heading: &Heading,
) -> Result<(), NoMemory>
    ensures { OnOk result ((s : Names) → of_type ≡ (first_type s (headed (heading_seen heading.now)).types).meaning → own.new ≡ own.old ++ typed_answer s (headed (heading_seen heading.now)) (length (variables_of own.old))) }
{
    let number = own.variables();
    match typed_result(alloc, of_type, heading, number)? {
        Some(answer) => add_result(own, answer),
        None => Ok(()),
    }
}

fn add_untyped(
    alloc: Global,
    first: &mut Option<Broken>,
    own: &mut Table,
    answer: Option<&Name>,
) -> Result<(), NoMemory>
    ensures first { OnOk result ((s : Names) → first.new ≡ first_of first.old (maybe_untyped (lent_name answer.entry) (record s { own = own.old })).breaks) }
    ensures own { OnOk result ((s : Names) → (maybe_untyped (lent_name answer.entry) (record s { own = own.old })).scope ≡ record s { own = own.new }) }
{
    match answer {
        Some(answer) => add_untyped_result(alloc, first, own, answer),
        None => Ok(()),
    }
}

// The result of a function (15.6.2.2): one that the heading types stands last.
fn add_answer(
    alloc: Global,
    grown: &mut Grown,
    of_type: Option<DataType>,
    heading: &Heading,
) -> Result<(), NoMemory>
    ensures { OnOk result ((p : Names) (s : Names) → of_type ≡ (first_type s (headed (heading_seen heading.now)).types).meaning → told p grown.new ≡ behind (of_answer s (headed (heading_seen heading.now))) (told p grown.old)) }
{
    if is_typed_heading(heading) {
        add_typed(alloc, &mut grown.own, of_type, heading)?;
        return Ok(());
    }
    add_untyped(alloc, &mut grown.first, &mut grown.own, answer_in(heading))?;
    Ok(())
}

// The dummy arguments of a procedure.
#[tactic(auto, using(crate::proofs::Chains::dummies_told))]
fn add_all_dummies(
    alloc: Global,
    grown: &mut Grown,
    of: &DeclaringUnit<'_>,
    dummies: &[Name],
) -> Result<(), NoMemory>
    ensures { OnOk result ((p : Names) → told p grown.new ≡ behind (of_dummies (unit of.now) dummies.now) (told p grown.old)) }
{
    add_dummies(alloc, &mut grown.first, of, &mut grown.own, dummies)?;
    Ok(())
}

// The rules of a heading, and the type of the result where the heading types it.
fn judge_heading_in(
    alloc: Global,
    setting: &Setting<'_>,
    host: &Table,
    grown: &mut Grown,
    dummies: &Dummies<'_>,
    heading: &Heading,
) -> Result<Option<DataType>, NoMemory>
    requires { dummies.now ≡ name_texts (headed (heading_seen heading.now)).dummies }
    ensures grown { OnOk result (grown.new ≡ record grown.old { first = first_of grown.old.first (heading_breaks (host_scope setting.now host.now grown.old.constants.items) (headed (heading_seen heading.now))) }) }
    ensures of_type { IfOk result (λ y. y ≡ (first_type (host_scope setting.now host.now grown.old.constants.items) (headed (heading_seen heading.now)).types).meaning) }
{
    let scope = setting.scope(host, grown.constants.as_slice());
    judge_heading(alloc, &scope, &mut grown.first, dummies, heading)?;
    judge_first_type(alloc, &scope, prefixes_in(heading))
}

// The declarations of a procedure, where names that are declared further down stand for nothing yet, and the host's
// names are seen.
fn declare_inside(
    alloc: Global,
    setting: &Setting<'_>,
    host: &Table,
    grown: &mut Grown,
    of: &DeclaringUnit<'_>,
    of_type: Option<DataType>,
    procedure: &Procedure,
) -> Result<(), NoMemory>
    ensures { OnOk result ((cs : List ConstantKept) → of_type ≡ (first_type (host_scope setting.now host.now cs) (headed (procedure_seen procedure.now).heading).types).meaning → told (opening (host_scope setting.now host.now cs) (procedure_seen procedure.now)) grown.new ≡ behind (of_all (unit of.now) (procedure_seen procedure.now).body.declarations) (told (opening (host_scope setting.now host.now cs) (procedure_seen procedure.now)) grown.old)) }
{
    let heading = &procedure.heading;
    let declarations = procedure.body.declarations.as_slice();
    let number = count_names(declarations)?;
    let answer = typed_result(alloc, of_type, heading, number)?;
    let pending = Pending::of(
        alloc,
        declarations,
        dummies_in(heading),
        untyped_answer(heading),
    )?;
    let inside = setting.inside(&pending, lent(&answer), host);
    declare_all(alloc, &inside, of, grown, declarations)?;
    Ok(())
}

/// Reads a procedure of a program whose main program has these names: the rules that its heading and its declarations
/// break, and its names and array constants.
pub fn open_procedure(
    alloc: Global,
    setting: &Setting<'_>,
    host: &Table,
    grown: &mut Grown,
    procedure: &Procedure,
) -> Result<(), NoMemory>
    requires { grown.old.own ≡ [] }
    ensures { OnOk result (told (closing setting.now host.now) grown.new ≡ opened_told (host_scope setting.now host.now grown.old.constants.items) (procedure_seen procedure.now) grown.old.first) }
{
    let heading = &procedure.heading;
    let dummies = Dummies::of(alloc, dummies_in(heading))?;
    let of = declaring_unit(dummies, heading);
    let of_type = judge_heading_in(alloc, setting, host, grown, &of.dummies, heading)?;
    declare_inside(alloc, setting, host, grown, &of, of_type, procedure)?;
    add_all_dummies(alloc, grown, &of, dummies_in(heading))?;
    add_answer(alloc, grown, of_type, heading)?;
    Ok(())
}
