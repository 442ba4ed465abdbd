//! The numbering of critical constructs and of literals, in source order; hidden cells.

ghost use Rattle.std.specs.Prelude.{◌≡◌, ◌∷◌, [], OnOk, IfOk, map, ◌++◌, ◌+◌, length};
ghost use Rattle.fortran_tree.specs.ActionViews as actions;
ghost use Rattle.fortran_tree.specs.StatementViews as view;
ghost use Rattle.fortran_tree.specs.StatementViews.{statement_list};
ghost use Rattle.rule_definitions.specs.Statements as rules;

use caf_base::listing::Text;
use caf_base::refusal::NoMemory;
use fortran_tree::action::{ActionForm, Format, Item};
use fortran_tree::name::Literal;
use fortran_tree::statement::{CaseBlock, ElseIf, LoopControl, Otherwise, Statement};

/// A number and one more.
pub fn one_more(number: u32) -> Result<u32, NoMemory>
    ensures { IfOk result (λ n. n ≡ number + 1) }
{
    match number.checked_add(1) {
        Some(next) => Ok(next),
        None => Err(NoMemory),
    }
}

/// How many critical constructs stand in statements.
pub fn count_criticals(statements: &[Statement]) -> Result<u32, NoMemory>
    ensures { IfOk result (λ n. n ≡ (rules.counted_statements (statement_list statements.now)).criticals) }
{
    let mut count = 0;
    add_criticals(&mut count, statements)?;
    Ok(count)
}

#[cycle(criticals)]
#[tactic(auto, using(fortran_tree::specs::StatementViews::statement_forms))]
fn add_criticals_of(count: &mut u32, statement: &Statement) -> Result<(), NoMemory>
    ensures { OnOk result (count.new ≡ count.old + (rules.counted_statement (view.statement statement.now)).criticals) }
{
    match statement {
        Statement::Action(_) => Ok(()),
        Statement::If {
            body,
            else_ifs,
            otherwise,
            ..
        } => {
            add_criticals(count, body)?;
            add_else_if_criticals(count, else_ifs)?;
            add_else_criticals(count, otherwise)
        }
        Statement::Do { body, .. } => add_criticals(count, body),
        Statement::SelectCase { cases, .. } => add_case_criticals(count, cases),
        Statement::Critical { body, .. } => {
            *count = one_more(*count)?;
            add_criticals(count, body)
        }
        Statement::ChangeTeam { body, .. } => add_criticals(count, body),
    }
}

#[cycle(criticals)]
fn add_criticals(count: &mut u32, statements: &[Statement]) -> Result<(), NoMemory>
    ensures { OnOk result (count.new ≡ count.old + (rules.counted_statements (statement_list statements.now)).criticals) }
{
    for statement in statements {
        add_criticals_of(count, statement)?;
    }
    Ok(())
}

#[cycle(criticals)]
fn add_else_if_criticals(count: &mut u32, else_ifs: &[ElseIf]) -> Result<(), NoMemory>
    ensures { OnOk result (count.new ≡ count.old + (rules.counted_else_ifs (view.else_ifs else_ifs.now)).criticals) }
{
    for else_if in else_ifs {
        add_criticals(count, &else_if.body)?;
    }
    Ok(())
}

#[cycle(criticals)]
fn add_else_criticals(count: &mut u32, otherwise: &Option<Otherwise>) -> Result<(), NoMemory>
    ensures { OnOk result (count.new ≡ count.old + (rules.counted_else (view.else_block otherwise.now)).criticals) }
{
    match otherwise {
        Some(otherwise) => add_criticals(count, &otherwise.body),
        None => Ok(()),
    }
}

#[cycle(criticals)]
fn add_case_criticals(count: &mut u32, cases: &[CaseBlock]) -> Result<(), NoMemory>
    ensures { OnOk result (count.new ≡ count.old + (rules.counted_cases (view.case_blocks cases.now)).criticals) }
{
    for case in cases {
        add_criticals(count, &case.body)?;
    }
    Ok(())
}

fn add_literal(literals: &mut Vec<Text>, literal: &Literal) -> Result<(), NoMemory>
    ensures { OnOk result (literals.new.items ≡ literals.old.items ++ literal.now.text ∷ []) }
{
    let text = literal.text.copy()?;
    literals.push(text)?;
    Ok(())
}

fn add_format(literals: &mut Vec<Text>, format: &Format) -> Result<(), NoMemory>
    ensures { OnOk result (literals.new.items ≡ literals.old.items ++ rules.format_literals (actions.format format.now)) }
{
    match format {
        Format::Free => Ok(()),
        Format::Written(literal) => add_literal(literals, literal),
    }
}

fn add_item(literals: &mut Vec<Text>, item: &Item) -> Result<(), NoMemory>
    ensures { OnOk result (literals.new.items ≡ literals.old.items ++ rules.item_literals (actions.item item.now ∷ [])) }
{
    match item {
        Item::Literal(literal) => add_literal(literals, literal),
        Item::Value(_) => Ok(()),
    }
}

fn add_items(literals: &mut Vec<Text>, items: &[Item]) -> Result<(), NoMemory>
    ensures { OnOk result (literals.new.items ≡ literals.old.items ++ rules.item_literals (map actions.item items.now)) }
{
    for item in items {
        add_item(literals, item)?;
    }
    Ok(())
}

#[tactic(auto, using(crate::proofs::Numbers::literal_laws))]
fn add_action_literals(literals: &mut Vec<Text>, action: &ActionForm) -> Result<(), NoMemory>
    ensures { OnOk result (literals.new.items ≡ literals.old.items ++ rules.action_literals (actions.action_statement action.now)) }
{
    match action {
        ActionForm::Print { format, items } => {
            add_format(literals, format)?;
            add_items(literals, items)
        }
        ActionForm::If { action, .. } => add_action_literals(literals, &action.form),
        ActionForm::Assignment { .. }
        | ActionForm::Call { .. }
        | ActionForm::Exit { .. }
        | ActionForm::Cycle { .. }
        | ActionForm::Return
        | ActionForm::Stop { .. }
        | ActionForm::ErrorStop { .. }
        | ActionForm::FailImage
        | ActionForm::Allocate { .. }
        | ActionForm::Deallocate { .. }
        | ActionForm::SyncAll { .. }
        | ActionForm::SyncMemory { .. }
        | ActionForm::SyncImages { .. }
        | ActionForm::SyncTeam { .. }
        | ActionForm::FormTeam { .. }
        | ActionForm::Lock { .. }
        | ActionForm::Unlock { .. }
        | ActionForm::EventPost { .. }
        | ActionForm::EventWait { .. } => Ok(()),
    }
}

#[cycle(literals)]
#[tactic(auto, using(fortran_tree::specs::StatementViews::statement_forms))]
fn add_literals_of(literals: &mut Vec<Text>, statement: &Statement) -> Result<(), NoMemory>
    ensures { OnOk result (literals.new.items ≡ literals.old.items ++ (rules.counted_statement (view.statement statement.now)).literals) }
{
    match statement {
        Statement::Action(action) => add_action_literals(literals, &action.form),
        Statement::If {
            body,
            else_ifs,
            otherwise,
            ..
        } => {
            add_literals(literals, body)?;
            add_else_if_literals(literals, else_ifs)?;
            add_else_literals(literals, otherwise)
        }
        Statement::Do { body, .. } => add_literals(literals, body),
        Statement::SelectCase { cases, .. } => add_case_literals(literals, cases),
        Statement::Critical { body, .. } => add_literals(literals, body),
        Statement::ChangeTeam { body, .. } => add_literals(literals, body),
    }
}

/// Puts the literals that stand in statements behind the earlier ones.
#[cycle(literals)]
pub fn add_literals(literals: &mut Vec<Text>, statements: &[Statement]) -> Result<(), NoMemory>
    ensures { OnOk result (literals.new.items ≡ literals.old.items ++ (rules.counted_statements (statement_list statements.now)).literals) }
{
    for statement in statements {
        add_literals_of(literals, statement)?;
    }
    Ok(())
}

#[cycle(literals)]
fn add_else_if_literals(literals: &mut Vec<Text>, else_ifs: &[ElseIf]) -> Result<(), NoMemory>
    ensures { OnOk result (literals.new.items ≡ literals.old.items ++ (rules.counted_else_ifs (view.else_ifs else_ifs.now)).literals) }
{
    for else_if in else_ifs {
        add_literals(literals, &else_if.body)?;
    }
    Ok(())
}

#[cycle(literals)]
fn add_else_literals(
    literals: &mut Vec<Text>,
    otherwise: &Option<Otherwise>,
) -> Result<(), NoMemory>
    ensures { OnOk result (literals.new.items ≡ literals.old.items ++ (rules.counted_else (view.else_block otherwise.now)).literals) }
{
    match otherwise {
        Some(otherwise) => add_literals(literals, &otherwise.body),
        None => Ok(()),
    }
}

#[cycle(literals)]
fn add_case_literals(literals: &mut Vec<Text>, cases: &[CaseBlock]) -> Result<(), NoMemory>
    ensures { OnOk result (literals.new.items ≡ literals.old.items ++ (rules.counted_cases (view.case_blocks cases.now)).literals) }
{
    for case in cases {
        add_literals(literals, &case.body)?;
    }
    Ok(())
}

fn greater(one: u32, other: u32) -> u32
    ensures { result ≡ rules.greater one other }
{
    if one <= other { other } else { one }
}

fn hidden_with(control: &LoopControl, number: u32) -> Result<u32, NoMemory>
    ensures { IfOk result (λ n. n ≡ rules.hidden_more (view.loop_control control.now) number) }
{
    match control {
        LoopControl::Counted { .. } => one_more(number),
        LoopControl::Unlimited | LoopControl::While { .. } => Ok(number),
    }
}

#[cycle(hidden)]
#[tactic(auto, using(fortran_tree::specs::StatementViews::statement_forms))]
fn hidden_in(statement: &Statement) -> Result<u32, NoMemory>
    ensures { IfOk result (λ n. n ≡ rules.most_hidden (view.statement statement.now)) }
{
    match statement {
        Statement::Action(_) => Ok(0),
        Statement::If {
            body,
            else_ifs,
            otherwise,
            ..
        } => {
            let in_body = most_hidden(body)?;
            let in_else_ifs = hidden_in_else_ifs(else_ifs)?;
            let in_otherwise = hidden_in_otherwise(otherwise)?;
            Ok(greater(in_body, greater(in_else_ifs, in_otherwise)))
        }
        Statement::Do { control, body, .. } => {
            let in_body = most_hidden(body)?;
            hidden_with(control, in_body)
        }
        Statement::SelectCase { cases, .. } => {
            let in_cases = hidden_in_cases(cases)?;
            one_more(in_cases)
        }
        Statement::Critical { body, .. } => most_hidden(body),
        Statement::ChangeTeam { body, .. } => most_hidden(body),
    }
}

/// The most hidden cells that are open at one time in statements.
#[cycle(hidden)]
#[tactic(auto, using(crate::proofs::Numbers::greater_laws))]
pub fn most_hidden(statements: &[Statement]) -> Result<u32, NoMemory>
    ensures { IfOk result (λ n. n ≡ rules.most_hidden_of (statement_list statements.now)) }
{
    let mut most = 0;
    for statement in statements {
        let inside = hidden_in(statement)?;
        most = greater(most, inside);
    }
    Ok(most)
}

#[cycle(hidden)]
#[tactic(auto, using(crate::proofs::Numbers::greater_laws))]
fn hidden_in_else_ifs(else_ifs: &[ElseIf]) -> Result<u32, NoMemory>
    ensures { IfOk result (λ n. n ≡ rules.most_hidden_else_ifs (view.else_ifs else_ifs.now)) }
{
    let mut most = 0;
    for else_if in else_ifs {
        let inside = most_hidden(&else_if.body)?;
        most = greater(most, inside);
    }
    Ok(most)
}

#[cycle(hidden)]
fn hidden_in_otherwise(otherwise: &Option<Otherwise>) -> Result<u32, NoMemory>
    ensures { IfOk result (λ n. n ≡ rules.most_hidden_else (view.else_block otherwise.now)) }
{
    match otherwise {
        Some(otherwise) => most_hidden(&otherwise.body),
        None => Ok(0),
    }
}

#[cycle(hidden)]
#[tactic(auto, using(crate::proofs::Numbers::greater_laws))]
fn hidden_in_cases(cases: &[CaseBlock]) -> Result<u32, NoMemory>
    ensures { IfOk result (λ n. n ≡ rules.most_hidden_cases (view.case_blocks cases.now)) }
{
    let mut most = 0;
    for case in cases {
        let inside = most_hidden(&case.body)?;
        most = greater(most, inside);
    }
    Ok(most)
}

fn count_format(format: &Format) -> u32
    ensures { result ≡ length (rules.format_literals (actions.format format.now)) }
{
    match format {
        Format::Free => 0,
        Format::Written(_) => 1,
    }
}

fn count_items(before: u32, items: &[Item]) -> Result<u32, NoMemory>
    ensures { IfOk result (λ n. n ≡ before + length (rules.item_literals (map actions.item items.now))) }
{
    let mut count = before;
    for item in items {
        match item {
            Item::Literal(_) => {
                count = one_more(count)?;
            }
            Item::Value(_) => {}
        }
    }
    Ok(count)
}

/// How many literals stand in an action.
#[tactic(auto, using(fortran_tree::specs::ActionViews::action_forms))]
pub fn count_literals(action: &ActionForm) -> Result<u32, NoMemory>
    ensures { IfOk result (λ n. n ≡ length (rules.action_literals (actions.action_statement action.now))) }
{
    match action {
        ActionForm::Print { format, items } => count_items(count_format(format), items),
        ActionForm::If { action, .. } => count_literals(&action.form),
        ActionForm::Assignment { .. }
        | ActionForm::Call { .. }
        | ActionForm::Exit { .. }
        | ActionForm::Cycle { .. }
        | ActionForm::Return
        | ActionForm::Stop { .. }
        | ActionForm::ErrorStop { .. }
        | ActionForm::FailImage
        | ActionForm::Allocate { .. }
        | ActionForm::Deallocate { .. }
        | ActionForm::SyncAll { .. }
        | ActionForm::SyncMemory { .. }
        | ActionForm::SyncImages { .. }
        | ActionForm::SyncTeam { .. }
        | ActionForm::FormTeam { .. }
        | ActionForm::Lock { .. }
        | ActionForm::Unlock { .. }
        | ActionForm::EventPost { .. }
        | ActionForm::EventWait { .. } => Ok(0),
    }
}
