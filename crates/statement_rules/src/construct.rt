//! Constructs whose blocks were judged (11.1).

ghost use Rattle.std.specs.Prelude.{◌≡◌, ◌+◌, IfOk, length, map};
ghost use Rattle.std.specs.Option.{option_map};
ghost use Rattle.branch_rules.specs.Sites.{around as construct_seen};
ghost use Rattle.checked_tree.specs.ExpressionViews.{expression, maybe_result};
ghost use Rattle.checked_tree.specs.Statements as ts;
ghost use Rattle.checked_tree.specs.StatementViews.{statement as statement_seen, statement_form};
ghost use Rattle.fortran_tree.specs.ActionViews as actions;
ghost use Rattle.fortran_tree.specs.ExpressionViews.{expression as written, specifiers as specifiers_written};
ghost use Rattle.fortran_tree.specs.StatementViews.{bracketed_specifier, loop_control};
ghost use Rattle.part_rules.specs.Views.{judgement};
ghost use Rattle.rule_definitions.specs.Actions.{controlled as controlled_by, is_in_critical as is_in_critical_of, judged_action, with_stat};
ghost use Rattle.rule_definitions.specs.Expressions.{judged_specifiers, placed};
ghost use Rattle.rule_definitions.specs.IntrinsicSubroutines.{four};
ghost use Rattle.rule_definitions.specs.Judgements.{made, made_of_both, ruled as ruled_by};
ghost use Rattle.rule_definitions.specs.Parts as parts;
ghost use Rattle.rule_definitions.specs.Statements as rules;
ghost use Rattle.specifier_rules.specs.Views.{written as specified_seen};
ghost use Rattle.case_rules.specs.Blocks.{block, else_if_list, else_if_parts, selection as selection_seen};
ghost use Rattle.statement_rules.specs.Controls.{control as control_seen};
ghost use Rattle.statement_rules.specs.Positions.{position as seen};

use crate::control::{count_hidden, ended, judge_control, loop_form};
use crate::pair::paired;
use crate::position::{Numbers, Passed};
use crate::statement::Position;
use action_rules::action::judge_action;
use branch_rules::site::{Around, Site};
use caf_base::place::Pos;
use caf_base::refusal::NoMemory;
use case_rules::selection::Selection;
use checked_tree::expr::{ResultVariable, TypedExpr};
use checked_tree::statement::{ElseIf, StatementForm, TypedStatement};
use expr_rules::expr::{judge_part, judge_specifiers};
use fortran_tree::action::Action;
use fortran_tree::expr::{Expr, Specifier};
use fortran_tree::name::Name;
use fortran_tree::statement::{BracketedSpecifier, LoopControl};
use numbering_rules::numbering::count_literals;
use part_rules::judged::{Judged, ruled};
use rule_definitions::rule;
use scope_table::scope::Scope;
use specifier_rules::condition::{condition, team};
use specifier_rules::specifier::Specified;
use specifier_rules::statement::stat_alone;
use std::alloc::Global;

// A statement on the line of its first token.
fn on_line(form: Judged<StatementForm>, at: Pos) -> Judged<TypedStatement>
    ensures breaks { result.breaks ≡ form.breaks }
    ensures meaning { option_map statement_seen result.meaning ≡ made (λ x. ts.on_line x at.line) (option_map statement_form form.meaning) }
{
    let Judged { breaks, meaning } = form;
    let meaning = match meaning {
        Some(form) => Some(TypedStatement {
            form,
            line: at.line,
        }),
        None => None,
    };
    Judged { breaks, meaning }
}

fn sum(one: u32, other: u32) -> Result<u32, NoMemory>
    ensures { IfOk result (λ n. n ≡ one + other) }
{
    match one.checked_add(other) {
        Some(sum) => Ok(sum),
        None => Err(NoMemory),
    }
}

/// An action statement.
pub fn action_statement(
    alloc: Global,
    position: Position<'_>,
    action: &Action,
) -> Result<Passed<TypedStatement>, NoMemory>
    ensures breaks { IfOk result (λ p. p.judged.breaks.items ≡ (rules.on_line action.now.at (judged_action (rules.site_of (seen position.entry)) (actions.action_statement action.now.form) action.now.at)).breaks) }
    ensures meaning { IfOk result (λ p. option_map statement_seen p.judged.meaning ≡ (rules.on_line action.now.at (judged_action (rules.site_of (seen position.entry)) (actions.action_statement action.now.form) action.now.at)).meaning) }
    ensures criticals { IfOk result (λ p. p.behind.criticals ≡ position.entry.criticals) }
    ensures literals { IfOk result (λ p. p.behind.literals ≡ position.entry.literals + length (rules.action_literals (actions.action_statement action.now.form))) }
{
    let inside = count_literals(&action.form)?;
    let behind = Numbers {
        criticals: position.criticals,
        literals: sum(position.literals, inside)?,
    };
    let site = Site {
        scope: position.scope,
        around: position.around,
        literals: position.literals,
    };
    let form = judge_action(alloc, site, &action.form, action.at)?;
    Ok(Passed {
        judged: on_line(form, action.at),
        behind,
    })
}

fn judge_condition(
    alloc: Global,
    scope: &Scope<'_>,
    expr: &Expr,
) -> Result<Judged<TypedExpr>, NoMemory>
    ensures breaks { IfOk result (λ j. j.breaks.items ≡ (parts.condition (placed scope.now (written expr.now))).breaks) }
    ensures meaning { IfOk result (λ j. option_map expression j.meaning ≡ (parts.condition (placed scope.now (written expr.now))).meaning) }
{
    let part = judge_part(alloc, scope, expr)?;
    condition(part)
}

// The condition of an IF, the block of its first branch with those of its ELSE IFs, and that of ELSE.
type IfParts = (
    (TypedExpr, (Vec<TypedStatement>, Vec<ElseIf>)),
    Vec<TypedStatement>,
);

#[tactic(auto, using(checked_tree::specs::StatementViews::typed_statement_forms))]
fn if_form(parts: Option<IfParts>) -> Option<StatementForm>
    ensures { option_map statement_form result ≡ option_map (λ p. rules.if_form (expression p.0.0) (block p.0.1.0) (else_if_list p.0.1.1) (block p.1)) parts }
{
    match parts {
        Some(((condition, (body, else_ifs)), otherwise)) => Some(StatementForm::If {
            condition,
            body,
            else_ifs,
            otherwise,
        }),
        None => None,
    }
}

/// IF (11.1.8) with its blocks.
#[tactic(auto, using(crate::proofs::Parts::part_laws))]
pub fn if_statement(
    alloc: Global,
    scope: &Scope<'_>,
    condition: &Expr,
    body: Passed<Vec<TypedStatement>>,
    else_ifs: Passed<Vec<ElseIf>>,
    otherwise: Passed<Vec<TypedStatement>>,
    at: Pos,
) -> Result<Passed<TypedStatement>, NoMemory>
    ensures breaks { IfOk result (λ p. p.judged.breaks.items ≡ (rules.on_line at (four rules.if_form (parts.condition (placed scope.now (written condition.now))) (judgement block body.judged) (judgement else_if_list else_ifs.judged) (judgement block otherwise.judged))).breaks) }
    ensures meaning { IfOk result (λ p. option_map statement_seen p.judged.meaning ≡ (rules.on_line at (four rules.if_form (parts.condition (placed scope.now (written condition.now))) (judgement block body.judged) (judgement else_if_list else_ifs.judged) (judgement block otherwise.judged))).meaning) }
    ensures behind { IfOk result (λ p. p.behind ≡ otherwise.behind) }
{
    let Passed {
        judged: otherwise,
        behind,
    } = otherwise;
    let branches = paired(body.judged, else_ifs.judged)?;
    let condition = judge_condition(alloc, scope, condition)?;
    let start = paired(condition, branches)?;
    let Judged { breaks, meaning } = paired(start, otherwise)?;
    let form = Judged {
        breaks,
        meaning: if_form(meaning),
    };
    Ok(Passed {
        judged: on_line(form, at),
        behind,
    })
}

#[tactic(auto, using(case_rules::proofs::Blocks::block_laws))]
fn else_if_form(parts: Option<(TypedExpr, Vec<TypedStatement>)>, at: Pos) -> Option<ElseIf>
    ensures { option_map else_if_parts result ≡ option_map (λ p. rules.more_else_ifs at.line (expression p.0) (block p.1)) parts }
{
    match parts {
        Some((condition, body)) => Some(ElseIf {
            condition,
            body,
            line: at.line,
        }),
        None => None,
    }
}

/// ELSE IF (11.1.8) with its block.
#[tactic(auto, using(crate::proofs::Parts::part_laws))]
pub fn else_if_block(
    alloc: Global,
    scope: &Scope<'_>,
    condition: &Expr,
    body: Passed<Vec<TypedStatement>>,
    at: Pos,
) -> Result<Passed<ElseIf>, NoMemory>
    ensures breaks { IfOk result (λ p. p.judged.breaks.items ≡ (made_of_both (rules.more_else_ifs at.line) (parts.condition (placed scope.now (written condition.now))) (judgement block body.judged)).breaks) }
    ensures meaning { IfOk result (λ p. option_map else_if_parts p.judged.meaning ≡ (made_of_both (rules.more_else_ifs at.line) (parts.condition (placed scope.now (written condition.now))) (judgement block body.judged)).meaning) }
    ensures behind { IfOk result (λ p. p.behind ≡ body.behind) }
{
    let Passed {
        judged: body,
        behind,
    } = body;
    let condition = judge_condition(alloc, scope, condition)?;
    let Judged { breaks, meaning } = paired(condition, body)?;
    let judged = Judged {
        breaks,
        meaning: else_if_form(meaning, at),
    };
    Ok(Passed { judged, behind })
}

/// DO (11.1.7) with its block.
#[tactic(auto, using(crate::proofs::Parts::part_laws))]
pub fn do_statement(
    alloc: Global,
    position: Position<'_>,
    construct: &Option<Name>,
    control: &LoopControl,
    body: Passed<Vec<TypedStatement>>,
    at: Pos,
    end: &Option<Name>,
) -> Result<Passed<TypedStatement>, NoMemory>
    ensures breaks { IfOk result (λ p. p.judged.breaks.items ≡ (rules.on_line at (ruled_by (made_of_both (rules.loop_form (rules.hidden_of (map construct_seen position.entry.around.now))) (rules.judged_control (seen position.entry) (loop_control control.now)) (judgement block body.judged)) (rules.end_breaks construct.now end.now))).breaks) }
    ensures meaning { IfOk result (λ p. option_map statement_seen p.judged.meaning ≡ (rules.on_line at (ruled_by (made_of_both (rules.loop_form (rules.hidden_of (map construct_seen position.entry.around.now))) (rules.judged_control (seen position.entry) (loop_control control.now)) (judgement block body.judged)) (rules.end_breaks construct.now end.now))).meaning) }
    ensures behind { IfOk result (λ p. p.behind ≡ body.behind) }
{
    let Passed {
        judged: body,
        behind,
    } = body;
    let hidden = count_hidden(position.around)?;
    let control = judge_control(alloc, position, control)?;
    let Judged { breaks, meaning } = paired(control, body)?;
    let form = Judged {
        breaks,
        meaning: loop_form(meaning, hidden),
    };
    let form = ended(form, construct, end)?;
    Ok(Passed {
        judged: on_line(form, at),
        behind,
    })
}

#[tactic(auto, using(checked_tree::specs::StatementViews::typed_statement_forms))]
fn select_form(parts: Option<(TypedExpr, Selection)>, hidden: u32) -> Option<StatementForm>
    ensures { option_map statement_form result ≡ option_map (λ p. rules.select_form hidden (expression p.0) (selection_seen p.1)) parts }
{
    match parts {
        Some((value, selection)) => Some(StatementForm::Select {
            value,
            hidden,
            cases: selection.cases,
            otherwise: selection.otherwise,
        }),
        None => None,
    }
}

/// SELECT CASE (11.1.9) with its blocks.
#[tactic(auto, using(crate::proofs::Parts::part_laws))]
pub fn select_statement(
    position: Position<'_>,
    selector: Judged<TypedExpr>,
    blocks: Passed<Selection>,
    at: Pos,
) -> Result<Passed<TypedStatement>, NoMemory>
    ensures breaks { IfOk result (λ p. p.judged.breaks.items ≡ (rules.on_line at (made_of_both (rules.select_form (rules.hidden_of (map construct_seen position.entry.around.now))) (judgement expression selector) (judgement selection_seen blocks.judged))).breaks) }
    ensures meaning { IfOk result (λ p. option_map statement_seen p.judged.meaning ≡ (rules.on_line at (made_of_both (rules.select_form (rules.hidden_of (map construct_seen position.entry.around.now))) (judgement expression selector) (judgement selection_seen blocks.judged))).meaning) }
    ensures behind { IfOk result (λ p. p.behind ≡ blocks.behind) }
{
    let Passed {
        judged: blocks,
        behind,
    } = blocks;
    let hidden = count_hidden(position.around)?;
    let Judged { breaks, meaning } = paired(selector, blocks)?;
    let form = Judged {
        breaks,
        meaning: select_form(meaning, hidden),
    };
    Ok(Passed {
        judged: on_line(form, at),
        behind,
    })
}

fn is_in_critical(around: &[Around<'_>]) -> bool
    ensures { result ≡ is_in_critical_of (map construct_seen around.now) }
{
    for construct in around {
        match construct {
            Around::Critical => return true,
            Around::Loop { .. } | Around::Selection | Around::TeamChange => {}
        }
    }
    false
}

// An image control statement (11.6.1): rule 43 in a CRITICAL block.
fn controlled(
    position: Position<'_>,
    form: Judged<StatementForm>,
    at: Pos,
) -> Result<Judged<StatementForm>, NoMemory>
    ensures breaks { IfOk result (λ j. j.breaks.items ≡ (controlled_by (rules.site_of (seen position.entry)) at (judgement statement_form form)).breaks) }
    ensures meaning { IfOk result (λ j. option_map statement_form j.meaning ≡ (controlled_by (rules.site_of (seen position.entry)) at (judgement statement_form form)).meaning) }
{
    let holds = !is_in_critical(position.around);
    ruled(form, holds, rule::IN_CRITICAL, at)
}

fn specified(alloc: Global, scope: &Scope<'_>, specifier: &Specifier) -> Result<Specified, NoMemory>
    ensures { IfOk result (λ x. specified_seen x ≡ record { name = specifier.now.name; value = placed scope.now (written specifier.now.value) }) }
{
    let name = Name {
        text: specifier.name.text.copy()?,
        at: specifier.name.at,
    };
    let value = judge_part(alloc, scope, &specifier.value)?;
    Ok(Specified { name, value })
}

// Brackets that may hold one specifier.
fn bracketed(
    alloc: Global,
    scope: &Scope<'_>,
    brackets: &BracketedSpecifier,
) -> Result<Vec<Specified>, NoMemory>
    ensures { IfOk result (λ v. map specified_seen v.items ≡ rules.bracketed scope.now (bracketed_specifier brackets.now)) }
{
    let mut list = Vec::new(alloc);
    match brackets {
        BracketedSpecifier::Present(specifier) => {
            list.push(specified(alloc, scope, specifier)?)?;
        }
        BracketedSpecifier::Absent | BracketedSpecifier::Empty => {}
    }
    Ok(list)
}

fn judge_bracketed(
    alloc: Global,
    scope: &Scope<'_>,
    brackets: &BracketedSpecifier,
) -> Result<Judged<Option<ResultVariable>>, NoMemory>
    ensures breaks { IfOk result (λ j. j.breaks.items ≡ (with_stat (rules.bracketed scope.now (bracketed_specifier brackets.now))).breaks) }
    ensures meaning { IfOk result (λ j. option_map maybe_result j.meaning ≡ (with_stat (rules.bracketed scope.now (bracketed_specifier brackets.now))).meaning) }
{
    let specified = bracketed(alloc, scope, brackets)?;
    stat_alone(alloc, specified)
}

#[tactic(auto, using(checked_tree::specs::StatementViews::typed_statement_forms))]
fn critical_form(
    parts: Option<(Option<ResultVariable>, Vec<TypedStatement>)>,
    number: u32,
    end: Pos,
) -> Option<StatementForm>
    ensures { option_map statement_form result ≡ option_map (λ p. rules.critical_form number end.line (maybe_result p.0) (block p.1)) parts }
{
    match parts {
        Some((stat, body)) => Some(StatementForm::Critical {
            number,
            stat,
            body,
            end_line: end.line,
        }),
        None => None,
    }
}

/// CRITICAL (11.1.6) with its block.
#[tactic(auto, using(crate::proofs::Parts::part_laws))]
pub fn critical_statement(
    alloc: Global,
    position: Position<'_>,
    number: u32,
    brackets: &BracketedSpecifier,
    body: Passed<Vec<TypedStatement>>,
    at: Pos,
    end: Pos,
) -> Result<Passed<TypedStatement>, NoMemory>
    ensures breaks { IfOk result (λ p. p.judged.breaks.items ≡ (rules.on_line at (controlled_by (rules.site_of (seen position.entry)) at (made_of_both (rules.critical_form number end.line) (with_stat (rules.bracketed position.entry.scope.now (bracketed_specifier brackets.now))) (judgement block body.judged)))).breaks) }
    ensures meaning { IfOk result (λ p. option_map statement_seen p.judged.meaning ≡ (rules.on_line at (controlled_by (rules.site_of (seen position.entry)) at (made_of_both (rules.critical_form number end.line) (with_stat (rules.bracketed position.entry.scope.now (bracketed_specifier brackets.now))) (judgement block body.judged)))).meaning) }
    ensures behind { IfOk result (λ p. p.behind ≡ body.behind) }
{
    let Passed {
        judged: body,
        behind,
    } = body;
    let stat = judge_bracketed(alloc, position.scope, brackets)?;
    let Judged { breaks, meaning } = paired(stat, body)?;
    let form = Judged {
        breaks,
        meaning: critical_form(meaning, number, end),
    };
    let form = controlled(position, form, at)?;
    Ok(Passed {
        judged: on_line(form, at),
        behind,
    })
}

fn judge_team(alloc: Global, scope: &Scope<'_>, expr: &Expr) -> Result<Judged<TypedExpr>, NoMemory>
    ensures breaks { IfOk result (λ j. j.breaks.items ≡ (parts.team (placed scope.now (written expr.now))).breaks) }
    ensures meaning { IfOk result (λ j. option_map expression j.meaning ≡ (parts.team (placed scope.now (written expr.now))).meaning) }
{
    let part = judge_part(alloc, scope, expr)?;
    team(part)
}

fn judge_stat(
    alloc: Global,
    scope: &Scope<'_>,
    specifiers: &[Specifier],
) -> Result<Judged<Option<ResultVariable>>, NoMemory>
    ensures breaks { IfOk result (λ j. j.breaks.items ≡ (with_stat (judged_specifiers scope.now (specifiers_written specifiers.now))).breaks) }
    ensures meaning { IfOk result (λ j. option_map maybe_result j.meaning ≡ (with_stat (judged_specifiers scope.now (specifiers_written specifiers.now))).meaning) }
{
    let specified = judge_specifiers(alloc, scope, specifiers)?;
    stat_alone(alloc, specified)
}

type TeamParts = (
    (TypedExpr, (Option<ResultVariable>, Vec<TypedStatement>)),
    Option<ResultVariable>,
);

#[tactic(auto, using(checked_tree::specs::StatementViews::typed_statement_forms))]
fn team_form(parts: Option<TeamParts>, end: Pos) -> Option<StatementForm>
    ensures { option_map statement_form result ≡ option_map (λ p. rules.team_form end.line (expression p.0.0) (maybe_result p.0.1.0) (block p.0.1.1) (maybe_result p.1)) parts }
{
    match parts {
        Some(((team, (stat, body)), end_stat)) => Some(StatementForm::ChangeTeam {
            team,
            stat,
            body,
            end_stat,
            end_line: end.line,
        }),
        None => None,
    }
}

/// CHANGE TEAM (11.1.5) with its block.
#[tactic(auto, using(crate::proofs::Parts::part_laws))]
pub fn team_statement(
    alloc: Global,
    position: Position<'_>,
    team: &Expr,
    specifiers: &[Specifier],
    body: Passed<Vec<TypedStatement>>,
    brackets: &BracketedSpecifier,
    at: Pos,
    end: Pos,
) -> Result<Passed<TypedStatement>, NoMemory>
    ensures breaks { IfOk result (λ p. p.judged.breaks.items ≡ (rules.on_line at (controlled_by (rules.site_of (seen position.entry)) at (four (rules.team_form end.line) (parts.team (placed position.entry.scope.now (written team.now))) (with_stat (judged_specifiers position.entry.scope.now (specifiers_written specifiers.now))) (judgement block body.judged) (with_stat (rules.bracketed position.entry.scope.now (bracketed_specifier brackets.now)))))).breaks) }
    ensures meaning { IfOk result (λ p. option_map statement_seen p.judged.meaning ≡ (rules.on_line at (controlled_by (rules.site_of (seen position.entry)) at (four (rules.team_form end.line) (parts.team (placed position.entry.scope.now (written team.now))) (with_stat (judged_specifiers position.entry.scope.now (specifiers_written specifiers.now))) (judgement block body.judged) (with_stat (rules.bracketed position.entry.scope.now (bracketed_specifier brackets.now)))))).meaning) }
    ensures behind { IfOk result (λ p. p.behind ≡ body.behind) }
{
    let Passed {
        judged: body,
        behind,
    } = body;
    let stat = judge_stat(alloc, position.scope, specifiers)?;
    let inner = paired(stat, body)?;
    let team = judge_team(alloc, position.scope, team)?;
    let start = paired(team, inner)?;
    let end_stat = judge_bracketed(alloc, position.scope, brackets)?;
    let Judged { breaks, meaning } = paired(start, end_stat)?;
    let form = Judged {
        breaks,
        meaning: team_form(meaning, end),
    };
    let form = controlled(position, form, at)?;
    Ok(Passed {
        judged: on_line(form, at),
        behind,
    })
}
