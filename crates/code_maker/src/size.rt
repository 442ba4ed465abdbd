//! How many steps blocks and constructs make (ISO/IEC 1539-1:2018, 11.1). A jump that goes on stands before what it
//! passes, so that has to be known first.

ghost use Rattle.std.specs.Prelude.{◌≡◌, ◌+◌, ℕ, IfOk};
ghost use Rattle.walk_theory.specs.Made as made;
ghost use Rattle.walk_theory.specs.Syntax.{Steps};
ghost use Rattle.checked_tree.specs.StatementViews as view;
ghost use Rattle.image_acts.specs.Acts.{Act};
ghost use Rattle.tree_meaning.specs.Environment.{hidden_cell};
ghost use Rattle.tree_meaning.specs.Forms as meaning;
ghost use Rattle.expr_code.specs.Environments.{environment};

use crate::head_size::{
    change_team_size, condition_size, critical_size, do_start_size, end_team_size, ranges_size,
    select_value_size, simple_size,
};
use crate::loops::sum;
use caf_base::refusal::NoMemory;
use checked_tree::statement::{Case, ElseIf, StatementForm, TypedStatement};
use expr_code::env::Env;
use std::alloc::Global;

/// How many steps a block makes.
#[cycle(size)]
pub fn block_size(
    alloc: Global,
    env: &Env<'_>,
    statements: &[TypedStatement],
) -> Result<u64, NoMemory>
    ensures { IfOk result (λ n. n ≡ made.steps_size (meaning.steps (environment env.now) (view.statements statements.now))) }
{
    let mut total = 0;
    for statement in statements {
        let size = form_size(alloc, env, &statement.form, statement.line)?;
        total = sum(total, sum(1, size)?)?;
    }
    Ok(total)
}

/// How many steps a statement or construct makes, without its count.
#[cycle(size)]
#[tactic(auto, using(checked_tree::specs::StatementViews::typed_statement_forms))]
pub fn form_size(
    alloc: Global,
    env: &Env<'_>,
    form: &StatementForm,
    line: u32,
) -> Result<u64, NoMemory>
    ensures { IfOk result (λ n. n ≡ made.form_size (meaning.form (environment env.now) line (view.statement_form form.now))) }
{
    match form {
        StatementForm::Exit { .. } | StatementForm::Cycle { .. } | StatementForm::Return => Ok(1),
        StatementForm::If {
            condition,
            body,
            else_ifs,
            otherwise,
        } => {
            let test = condition_size(alloc, env, condition)?;
            let block = block_size(alloc, env, body)?;
            let others = else_ifs_size(alloc, env, else_ifs)?;
            let last = block_size(alloc, env, otherwise)?;
            sum(branch_size(test, block)?, sum(others, last)?)
        }
        StatementForm::DoCounted {
            variable,
            kind,
            first,
            last,
            step,
            hidden,
            body,
        } => {
            let start = do_start_size(alloc, env, *variable, *kind, first, last, step, *hidden)?;
            loop_size(start, block_size(alloc, env, body)?, 1, 1)
        }
        StatementForm::DoWhile { condition, body } => {
            let test = condition_size(alloc, env, condition)?;
            loop_size(0, block_size(alloc, env, body)?, 0, test)
        }
        StatementForm::DoForever { body } => loop_size(0, block_size(alloc, env, body)?, 0, 1),
        StatementForm::Select {
            value,
            hidden,
            cases,
            otherwise,
        } => {
            let value = select_value_size(alloc, env, value, *hidden)?;
            let branches = cases_size(alloc, env, *hidden, cases)?;
            let last = block_size(alloc, env, otherwise)?;
            sum(value, sum(branches, last)?)
        }
        StatementForm::Critical {
            number,
            stat,
            body,
            ..
        } => {
            let before = critical_size(alloc, env, *number, stat)?;
            around_size(before, block_size(alloc, env, body)?, 1)
        }
        StatementForm::ChangeTeam {
            team,
            stat,
            body,
            end_stat,
            ..
        } => {
            let before = change_team_size(alloc, env, team, stat)?;
            let behind = end_team_size(alloc, env, end_stat)?;
            around_size(before, block_size(alloc, env, body)?, behind)
        }
        StatementForm::Assign { .. }
        | StatementForm::AssignImages { .. }
        | StatementForm::Call { .. }
        | StatementForm::CallIntrinsic(_)
        | StatementForm::Print { .. }
        | StatementForm::Stop { .. }
        | StatementForm::ErrorStop { .. }
        | StatementForm::FailImage
        | StatementForm::Allocate { .. }
        | StatementForm::Deallocate { .. }
        | StatementForm::SyncAll { .. }
        | StatementForm::SyncMemory { .. }
        | StatementForm::SyncImages { .. }
        | StatementForm::SyncTeam { .. }
        | StatementForm::FormTeam { .. }
        | StatementForm::Lock { .. }
        | StatementForm::Unlock { .. }
        | StatementForm::EventPost { .. }
        | StatementForm::EventWait { .. } => simple_size(alloc, env, form, line),
    }
}

// The blocks of ELSE IF, with their tests and with the jumps behind them.
#[cycle(size)]
fn else_ifs_size(alloc: Global, env: &Env<'_>, else_ifs: &[ElseIf]) -> Result<u64, NoMemory>
    ensures { IfOk result (λ n. (none : Steps Act) → made.branches_size (meaning.else_ifs (environment env.now) (view.else_ifs else_ifs.now) none) ≡ n + made.steps_size none) }
{
    let mut total = 0;
    for branch in else_ifs {
        let test = condition_size(alloc, env, &branch.condition)?;
        let block = block_size(alloc, env, &branch.body)?;
        total = sum(total, branch_size(test, block)?)?;
    }
    Ok(total)
}

// The same of CASE.
#[cycle(size)]
fn cases_size(alloc: Global, env: &Env<'_>, hidden: u32, cases: &[Case]) -> Result<u64, NoMemory>
    ensures { IfOk result (λ n. (none : Steps Act) → made.branches_size (meaning.cases (environment env.now) (hidden_cell (environment env.now) hidden) (view.cases cases.now) none) ≡ n + made.steps_size none) }
{
    let mut total = 0;
    for case in cases {
        let test = ranges_size(alloc, env, hidden, &case.ranges)?;
        let block = block_size(alloc, env, &case.body)?;
        total = sum(total, branch_size(test, block)?)?;
    }
    Ok(total)
}

// A test, the way past its block, the block, and the jump behind it.
fn branch_size(test: u64, block: u64) -> Result<u64, NoMemory>
    ensures { IfOk result (λ n. n ≡ test + 1 + block + 1) }
{
    sum(sum(test, 1)?, sum(block, 1)?)
}

// The start of a loop, the jump to its test, and an iteration.
fn loop_size(start: u64, body: u64, next: u64, test: u64) -> Result<u64, NoMemory>
    ensures { IfOk result (λ n. n ≡ start + 1 + (1 + body + next + test + 1)) }
{
    let iteration = sum(sum(body, next)?, sum(test, 2)?)?;
    sum(sum(start, 1)?, iteration)
}

// A block between two parts, of which the second has a count.
fn around_size(before: u64, body: u64, behind: u64) -> Result<u64, NoMemory>
    ensures { IfOk result (λ n. n ≡ before + body + 1 + behind) }
{
    sum(sum(before, body)?, sum(behind, 1)?)
}
