//! Statements and constructs: the recursion over them.

ghost use Rattle.std.specs.Prelude.{◌≡◌, IfOk, OnOk};
ghost use Rattle.std.specs.Option.{option_map};
ghost use Rattle.branch_rules.specs.Sites.{around as construct_seen};
ghost use Rattle.checked_tree.specs.ExpressionViews.{expression};
ghost use Rattle.checked_tree.specs.StatementViews.{statement as statement_seen, statements as statements_seen};
ghost use Rattle.fortran_tree.specs.ExpressionViews.{expression as written, specifiers as specifiers_written};
ghost use Rattle.fortran_tree.specs.Statements as fs;
ghost use Rattle.fortran_tree.specs.StatementViews as view;
ghost use Rattle.fortran_tree.specs.StatementViews.{bracketed_specifier, case_selector as selector_written, loop_control, statement_list};
ghost use Rattle.part_rules.specs.Views.{judgement};
ghost use Rattle.rule_definitions.specs.Judgements.{Judgement};
ghost use Rattle.rule_definitions.specs.Statements as rules;
ghost use Rattle.case_rules.specs.Blocks.{block, else_if_list, else_if_parts, known, selection as selection_seen, whole};
ghost use Rattle.statement_rules.specs.Parts.{critical_counted, else_if_counted, else_if_judged, no_cases_known, select_judged, statement_counted, statement_judged};
ghost use Rattle.statement_rules.specs.Positions.{numbers_past, position as seen};

use crate::construct::{
    action_statement, critical_statement, do_statement, else_if_block, if_statement,
    select_statement, team_statement,
};
use crate::control::loop_around;
use crate::position::{
    Numbers, Passed, inside, keep_passed, moved, no_parts, numbers_before, within,
};
use branch_rules::site::Around;
use caf_base::place::Pos;
use caf_base::refusal::NoMemory;
use case_rules::case::judge_selector;
use case_rules::selection::{CaseList, Selection};
use checked_tree::expr::TypedExpr;
use checked_tree::statement::{ElseIf as TypedElseIf, TypedStatement};
use fortran_tree::expr::{Expr, Specifier};
use fortran_tree::name::Name;
use fortran_tree::statement::{
    BracketedSpecifier, CaseBlock, ElseIf, End, LoopControl, Otherwise, Statement,
};
use numbering_rules::numbering::one_more;
use part_rules::judged::Judged;
use scope_table::scope::Scope;
use std::alloc::Global;

/// Where a list of statements stands: its scope, the constructs around it, outermost first, and how many critical
/// constructs and literals stand before it.
#[derive(Clone, Copy)]
pub struct Position<'a> {
    pub scope: &'a Scope<'a>,
    pub around: &'a [Around<'a>],
    pub criticals: u32,
    pub literals: u32,
}

/// A list of statements.
pub fn judge_statements(
    alloc: Global,
    position: Position<'_>,
    statements: &[Statement],
) -> Result<Judged<Vec<TypedStatement>>, NoMemory>
    ensures breaks { IfOk result (λ j. j.breaks.items ≡ (rules.judged_statements (seen position.entry) (statement_list statements.now)).breaks) }
    ensures meaning { IfOk result (λ j. option_map (λ v. statements_seen v.items) j.meaning ≡ (rules.judged_statements (seen position.entry) (statement_list statements.now)).meaning) }
{
    let Passed { judged, .. } = judge_block(statements, alloc, position)?;
    Ok(judged)
}

// A statement or a construct.
#[cycle(judge)]
#[tactic(auto, using(fortran_tree::specs::StatementViews::statement_forms))]
fn judge_statement(
    statement: &Statement,
    alloc: Global,
    position: Position<'_>,
) -> Result<Passed<TypedStatement>, NoMemory>
    ensures judged { IfOk result (λ p. judgement statement_seen p.judged ≡ statement_judged (seen position.entry) statement.now) }
    ensures behind { IfOk result (λ p. p.behind ≡ numbers_past (seen position.entry) (statement_counted statement.now)) }
{
    match statement {
        Statement::Action(action) => action_statement(alloc, position, action),
        Statement::If {
            condition,
            body,
            else_ifs,
            otherwise,
            at,
            ..
        } => {
            let body = judge_block(body, alloc, position)?;
            let else_ifs = judge_else_ifs(else_ifs, alloc, moved(position, body.behind))?;
            let otherwise = judge_else(otherwise, alloc, moved(position, else_ifs.behind))?;
            if_statement(
                alloc,
                position.scope,
                condition,
                body,
                else_ifs,
                otherwise,
                *at,
            )
        }
        Statement::Do {
            construct,
            control,
            body,
            at,
            end,
        } => judge_do(body, alloc, position, construct, control, *at, end),
        Statement::SelectCase {
            expression,
            cases,
            at,
            ..
        } => judge_select(cases, alloc, position, expression, *at),
        Statement::Critical {
            specifier,
            body,
            at,
            end,
        } => judge_critical(body, alloc, position, specifier, *at, *end),
        Statement::ChangeTeam {
            team,
            specifiers,
            body,
            end_specifier,
            at,
            end,
        } => judge_team_change(
            body,
            alloc,
            position,
            team,
            specifiers,
            end_specifier,
            *at,
            *end,
        ),
    }
}

// The statements of a block, one behind the other.
#[cycle(judge)]
fn judge_block(
    statements: &[Statement],
    alloc: Global,
    position: Position<'_>,
) -> Result<Passed<Vec<TypedStatement>>, NoMemory>
    ensures judged { IfOk result (λ p. judgement block p.judged ≡ rules.judged_statements (seen position.entry) (statement_list statements.now)) }
    ensures behind { IfOk result (λ p. p.behind ≡ numbers_past (seen position.entry) (rules.counted_statements (statement_list statements.now))) }
{
    let mut list = no_parts(alloc, position);
    for statement in statements {
        let next = judge_statement(statement, alloc, moved(position, list.behind))?;
        keep_passed(&mut list, next)?;
    }
    Ok(list)
}

// A block within a construct.
#[cycle(judge)]
fn judge_inside(
    statements: &[Statement],
    alloc: Global,
    position: Position<'_>,
    construct: Around<'_>,
) -> Result<Passed<Vec<TypedStatement>>, NoMemory>
    ensures judged { IfOk result (λ p. judgement block p.judged ≡ rules.judged_statements (rules.within (seen position.entry) (construct_seen construct.entry)) (statement_list statements.now)) }
    ensures behind { IfOk result (λ p. p.behind ≡ numbers_past (seen position.entry) (rules.counted_statements (statement_list statements.now))) }
{
    let around = within(alloc, position.around, construct)?;
    judge_block(statements, alloc, inside(position, around.as_slice()))
}

// An ELSE IF (11.1.8) with its block.
#[cycle(judge)]
fn judge_else_if(
    else_if: &ElseIf,
    alloc: Global,
    position: Position<'_>,
) -> Result<Passed<TypedElseIf>, NoMemory>
    ensures judged { IfOk result (λ p. judgement else_if_parts p.judged ≡ else_if_judged (seen position.entry) else_if.now) }
    ensures behind { IfOk result (λ p. p.behind ≡ numbers_past (seen position.entry) (else_if_counted else_if.now)) }
{
    let body = judge_block(&else_if.body, alloc, position)?;
    else_if_block(alloc, position.scope, &else_if.condition, body, else_if.at)
}

// The ELSE IFs of an IF with their blocks.
#[cycle(judge)]
fn judge_else_ifs(
    else_ifs: &[ElseIf],
    alloc: Global,
    position: Position<'_>,
) -> Result<Passed<Vec<TypedElseIf>>, NoMemory>
    ensures judged { IfOk result (λ p. judgement else_if_list p.judged ≡ rules.judged_else_ifs (seen position.entry) (view.else_ifs else_ifs.now)) }
    ensures behind { IfOk result (λ p. p.behind ≡ numbers_past (seen position.entry) (rules.counted_else_ifs (view.else_ifs else_ifs.now))) }
{
    let mut list = no_parts(alloc, position);
    for else_if in else_ifs {
        let next = judge_else_if(else_if, alloc, moved(position, list.behind))?;
        keep_passed(&mut list, next)?;
    }
    Ok(list)
}

// The block of ELSE, where there is one.
#[cycle(judge)]
fn judge_else(
    otherwise: &Option<Otherwise>,
    alloc: Global,
    position: Position<'_>,
) -> Result<Passed<Vec<TypedStatement>>, NoMemory>
    ensures judged { IfOk result (λ p. judgement block p.judged ≡ rules.judged_else (seen position.entry) (view.else_block otherwise.now)) }
    ensures behind { IfOk result (λ p. p.behind ≡ numbers_past (seen position.entry) (rules.counted_else (view.else_block otherwise.now))) }
{
    match otherwise {
        Some(otherwise) => judge_block(&otherwise.body, alloc, position),
        None => Ok(no_parts(alloc, position)),
    }
}

// A loop (11.1.7).
#[cycle(judge)]
fn judge_do(
    body: &[Statement],
    alloc: Global,
    position: Position<'_>,
    construct: &Option<Name>,
    control: &LoopControl,
    at: Pos,
    end: &End,
) -> Result<Passed<TypedStatement>, NoMemory>
    ensures judged { IfOk result (λ p. judgement statement_seen p.judged ≡ rules.judged_statement (seen position.entry) (fs.do_construct construct.now (loop_control control.now) (statement_list body.now) at end.now)) }
    ensures behind { IfOk result (λ p. p.behind ≡ numbers_past (seen position.entry) (rules.counted_statements (statement_list body.now))) }
{
    let inner = loop_around(position, construct, control);
    let body = judge_inside(body, alloc, position, inner)?;
    do_statement(alloc, position, construct, control, body, at, &end.name)
}

// CRITICAL (11.1.6).
#[cycle(judge)]
fn judge_critical(
    body: &[Statement],
    alloc: Global,
    position: Position<'_>,
    brackets: &BracketedSpecifier,
    at: Pos,
    end: Pos,
) -> Result<Passed<TypedStatement>, NoMemory>
    ensures judged { IfOk result (λ p. judgement statement_seen p.judged ≡ rules.judged_statement (seen position.entry) (fs.critical_construct (bracketed_specifier brackets.now) (statement_list body.now) at end)) }
    ensures behind { IfOk result (λ p. p.behind ≡ numbers_past (seen position.entry) (critical_counted (statement_list body.now))) }
{
    let number = one_more(position.criticals)?;
    let numbers = Numbers {
        criticals: number,
        literals: position.literals,
    };
    let body = judge_inside(body, alloc, moved(position, numbers), Around::Critical)?;
    critical_statement(alloc, position, number, brackets, body, at, end)
}

// CHANGE TEAM (11.1.5).
#[cycle(judge)]
fn judge_team_change(
    body: &[Statement],
    alloc: Global,
    position: Position<'_>,
    team: &Expr,
    specifiers: &[Specifier],
    brackets: &BracketedSpecifier,
    at: Pos,
    end: Pos,
) -> Result<Passed<TypedStatement>, NoMemory>
    ensures judged { IfOk result (λ p. judgement statement_seen p.judged ≡ rules.judged_statement (seen position.entry) (fs.change_team_construct (written team.now) (specifiers_written specifiers.now) (statement_list body.now) (bracketed_specifier brackets.now) at end)) }
    ensures behind { IfOk result (λ p. p.behind ≡ numbers_past (seen position.entry) (rules.counted_statements (statement_list body.now))) }
{
    let body = judge_inside(body, alloc, position, Around::TeamChange)?;
    team_statement(alloc, position, team, specifiers, body, brackets, at, end)
}

// SELECT CASE (11.1.9).
#[cycle(judge)]
fn judge_select(
    cases: &[CaseBlock],
    alloc: Global,
    position: Position<'_>,
    expr: &Expr,
    at: Pos,
) -> Result<Passed<TypedStatement>, NoMemory>
    ensures judged { IfOk result (λ p. judgement statement_seen p.judged ≡ select_judged (seen position.entry) (written expr.now) (view.case_blocks cases.now) at) }
    ensures behind { IfOk result (λ p. p.behind ≡ numbers_past (seen position.entry) (rules.counted_cases (view.case_blocks cases.now))) }
{
    let selector = judge_selector(alloc, position.scope, expr)?;
    let around = within(alloc, position.around, Around::Selection)?;
    let inner = inside(position, around.as_slice());
    let selected = judge_cases(cases, alloc, inner, &selector.meaning)?;
    select_statement(position, selector, selected, at)
}

// A CASE statement (11.1.9.1) with its block, behind the earlier ones: how many critical constructs and literals stand
// before what follows it.
#[cycle(judge)]
fn judge_case(
    case: &CaseBlock,
    alloc: Global,
    position: Position<'_>,
    selector: &Option<TypedExpr>,
    list: &mut CaseList,
) -> Result<Numbers, NoMemory>
    ensures whole { OnOk result ((r : Judgement rules.Selected) → whole list.new r ≡ whole list.old (rules.case_joined position.entry.scope.now (known (option_map expression selector.now) list.old) (selector_written case.now.selector) case.now.at (rules.judged_statements (seen position.entry) (statement_list case.now.body.items)) r)) }
    ensures known { OnOk result (known (option_map expression selector.now) list.new ≡ rules.behind_case position.entry.scope.now (known (option_map expression selector.now) list.old) (selector_written case.now.selector)) }
    ensures behind { IfOk result (λ n. n ≡ numbers_past (seen position.entry) (rules.counted_statements (statement_list case.now.body.items))) }
{
    let Passed { judged, behind } = judge_block(&case.body, alloc, position)?;
    list.add(
        alloc,
        position.scope,
        selector,
        &case.selector,
        judged,
        case.at,
    )?;
    Ok(behind)
}

// The CASE statements of a SELECT with their blocks.
#[cycle(judge)]
fn judge_cases(
    cases: &[CaseBlock],
    alloc: Global,
    position: Position<'_>,
    selector: &Option<TypedExpr>,
) -> Result<Passed<Selection>, NoMemory>
    ensures judged { IfOk result (λ p. judgement selection_seen p.judged ≡ rules.judged_cases (seen position.entry) (no_cases_known (option_map expression selector.now)) (view.case_blocks cases.now)) }
    ensures behind { IfOk result (λ p. p.behind ≡ numbers_past (seen position.entry) (rules.counted_cases (view.case_blocks cases.now))) }
{
    let mut list = CaseList::new(alloc);
    let mut behind = numbers_before(position);
    for case in cases {
        behind = judge_case(case, alloc, moved(position, behind), selector, &mut list)?;
    }
    let judged = list.finish(alloc)?;
    Ok(Passed { judged, behind })
}
