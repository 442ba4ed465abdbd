//! The names in statements.

ghost use Rattle.std.specs.Prelude.{◌≡◌, ◌++◌, OnOk, map};
ghost use Rattle.fortran_tree.specs.StatementViews as view;
ghost use Rattle.fortran_tree.specs.StatementViews.{statement_list};
ghost use Rattle.unit_references.specs.References as names;

use crate::action::add_action;
use crate::declaration::add_maybe;
use crate::expr::{add_expr, add_specifiers};
use crate::references::References;
use caf_base::refusal::NoMemory;
use fortran_tree::statement::{
    BracketedSpecifier, CaseBlock, CaseRange, CaseSelector, ElseIf, LoopControl, Otherwise,
    Statement,
};

fn add_control<'a>(refs: &mut References<'a>, control: &'a LoopControl) -> Result<(), NoMemory>
    ensures { OnOk result (refs.new ≡ refs.old ++ names.loop_control (view.loop_control control.now)) }
{
    match control {
        LoopControl::Unlimited => Ok(()),
        LoopControl::Counted {
            variable,
            first,
            last,
            step,
        } => {
            refs.add_name(variable)?;
            add_expr(refs, first)?;
            add_expr(refs, last)?;
            add_maybe(refs, step)
        }
        LoopControl::While { condition } => add_expr(refs, condition),
    }
}

fn add_range<'a>(refs: &mut References<'a>, range: &'a CaseRange) -> Result<(), NoMemory>
    ensures { OnOk result (refs.new ≡ refs.old ++ names.case_range (view.case_range range.now)) }
{
    match range {
        CaseRange::Value(expr) => add_expr(refs, expr),
        CaseRange::AtLeast(expr) => add_expr(refs, expr),
        CaseRange::AtMost { upper, .. } => add_expr(refs, upper),
        CaseRange::Between(first, last) => {
            add_expr(refs, first)?;
            add_expr(refs, last)
        }
    }
}

fn add_ranges<'a>(refs: &mut References<'a>, ranges: &'a [CaseRange]) -> Result<(), NoMemory>
    ensures { OnOk result (refs.new ≡ refs.old ++ names.each names.case_range (map view.case_range ranges.now)) }
{
    for range in ranges {
        add_range(refs, range)?;
    }
    Ok(())
}

fn add_case<'a>(refs: &mut References<'a>, selector: &'a CaseSelector) -> Result<(), NoMemory>
    ensures { OnOk result (refs.new ≡ refs.old ++ names.case_selector (view.case_selector selector.now)) }
{
    match selector {
        CaseSelector::Default => Ok(()),
        CaseSelector::Ranges(ranges) => add_ranges(refs, ranges),
    }
}

fn add_bracketed<'a>(
    refs: &mut References<'a>,
    specifier: &'a BracketedSpecifier,
) -> Result<(), NoMemory>
    ensures { OnOk result (refs.new ≡ refs.old ++ names.bracketed_specifier (view.bracketed_specifier specifier.now)) }
{
    match specifier {
        BracketedSpecifier::Absent | BracketedSpecifier::Empty => Ok(()),
        BracketedSpecifier::Present(specifier) => add_expr(refs, &specifier.value),
    }
}

/// The names in a statement or construct.
#[cycle(statements)]
#[tactic(auto, using(fortran_tree::specs::StatementViews::statement_forms))]
fn add_statement<'a>(refs: &mut References<'a>, statement: &'a Statement) -> Result<(), NoMemory>
    ensures { OnOk result (refs.new ≡ refs.old ++ names.statement (view.statement statement.now)) }
{
    match statement {
        Statement::Action(action) => add_action(refs, &action.form),
        Statement::If {
            condition,
            body,
            else_ifs,
            otherwise,
            ..
        } => {
            add_expr(refs, condition)?;
            add_statements(refs, body)?;
            add_else_ifs(refs, else_ifs)?;
            add_else(refs, otherwise)
        }
        Statement::Do { control, body, .. } => {
            add_control(refs, control)?;
            add_statements(refs, body)
        }
        Statement::SelectCase {
            expression,
            cases,
            ..
        } => {
            add_expr(refs, expression)?;
            add_cases(refs, cases)
        }
        Statement::Critical {
            specifier,
            body,
            ..
        } => {
            add_bracketed(refs, specifier)?;
            add_statements(refs, body)
        }
        Statement::ChangeTeam {
            team,
            specifiers,
            body,
            end_specifier,
            ..
        } => {
            add_expr(refs, team)?;
            add_specifiers(refs, specifiers)?;
            add_statements(refs, body)?;
            add_bracketed(refs, end_specifier)
        }
    }
}

/// The names in statements.
#[cycle(statements)]
pub fn add_statements<'a>(
    refs: &mut References<'a>,
    statements: &'a [Statement],
) -> Result<(), NoMemory>
    ensures { OnOk result (refs.new ≡ refs.old ++ names.statements (statement_list statements.now)) }
{
    for statement in statements {
        add_statement(refs, statement)?;
    }
    Ok(())
}

#[cycle(statements)]
fn add_else_ifs<'a>(refs: &mut References<'a>, else_ifs: &'a [ElseIf]) -> Result<(), NoMemory>
    ensures { OnOk result (refs.new ≡ refs.old ++ names.else_ifs (view.else_ifs else_ifs.now)) }
{
    for else_if in else_ifs {
        add_expr(refs, &else_if.condition)?;
        add_statements(refs, &else_if.body)?;
    }
    Ok(())
}

#[cycle(statements)]
fn add_else<'a>(refs: &mut References<'a>, otherwise: &'a Option<Otherwise>) -> Result<(), NoMemory>
    ensures { OnOk result (refs.new ≡ refs.old ++ names.else_block (view.else_block otherwise.now)) }
{
    match otherwise {
        Some(otherwise) => add_statements(refs, &otherwise.body),
        None => Ok(()),
    }
}

#[cycle(statements)]
fn add_cases<'a>(refs: &mut References<'a>, cases: &'a [CaseBlock]) -> Result<(), NoMemory>
    ensures { OnOk result (refs.new ≡ refs.old ++ names.case_blocks (view.case_blocks cases.now)) }
{
    for case in cases {
        add_case(refs, &case.selector)?;
        add_statements(refs, &case.body)?;
    }
    Ok(())
}
