//! The code of blocks and constructs (ISO/IEC 1539-1:2018, 11.1), one behind another.

ghost use Rattle.std.specs.Prelude.{◌≡◌, IfOk, OnOk};
ghost use Rattle.walk_theory.specs.Syntax.{Steps};
ghost use Rattle.checked_tree.specs.StatementViews as view;
ghost use Rattle.image_acts.specs.Acts.{Act};
ghost use Rattle.tree_meaning.specs.Environment.{hidden_cell};
ghost use Rattle.tree_meaning.specs.Forms as meaning;
ghost use Rattle.expr_code.specs.Environments.{environment};
ghost use Rattle.statement_code.specs.Texts.{HasTexts};
ghost use Rattle.code_maker.specs.Blocks as blocks;
ghost use Rattle.code_maker.specs.Loops.{open_loops};

use crate::head_size::condition_size;
use crate::heads::{
    begin_branch, begin_case, begin_change_team, begin_critical, begin_do, begin_select,
};
use crate::loops::{
    LoopPlaces, begin_iterations, place_behind, push_cycle, push_exit, push_passing, with_loop,
};
use crate::size::{block_size, form_size};
use caf_base::refusal::NoMemory;
use checked_tree::statement::{Case, ElseIf, StatementForm, TypedStatement};
use expr_code::draft::Draft;
use expr_code::env::Env;
use image_code::step::Step;
use statement_code::head::{
    push_always, push_condition, push_end_critical, push_end_team, push_more_iterations,
    push_next_iteration,
};
use statement_code::simple::push_simple;

/// Appends the code of a block, inside these loops, the innermost one first.
#[cycle(block)]
#[tactic(auto, using(crate::proofs::Texts::laws))]
pub fn push_block(
    draft: &mut Draft,
    env: &Env<'_>,
    loops: &[LoopPlaces],
    statements: &[TypedStatement],
) -> Result<(), NoMemory>
    requires texts { HasTexts (environment env.now) draft.old }
    ensures written { OnOk result (draft.new ≡ blocks.steps_written (open_loops loops.now) (meaning.steps (environment env.now) (view.statements statements.now)) draft.old) }
    ensures texts { OnOk result (HasTexts (environment env.now) draft.new) }
{
    for statement in statements {
        draft.push(Step::Count, statement.line)?;
        push_form(draft, env, loops, &statement.form, statement.line)?;
    }
    Ok(())
}

/// Appends the code of a statement or construct, without its count.
#[cycle(block)]
#[tactic(auto, using(checked_tree::specs::StatementViews::typed_statement_forms, crate::proofs::Texts::laws))]
fn push_form(
    draft: &mut Draft,
    env: &Env<'_>,
    loops: &[LoopPlaces],
    form: &StatementForm,
    line: u32,
) -> Result<(), NoMemory>
    requires texts { HasTexts (environment env.now) draft.old }
    ensures { OnOk result (draft.new ≡ blocks.form_written (open_loops loops.now) line (meaning.form (environment env.now) line (view.statement_form form.now)) draft.old) }
{
    match form {
        StatementForm::Exit { loops: n } => push_exit(draft, loops, *n, line),
        StatementForm::Cycle { loops: n } => push_cycle(draft, loops, *n, line),
        StatementForm::Return => draft.push(Step::Back, line),
        StatementForm::If {
            condition,
            body,
            else_ifs,
            otherwise,
        } => {
            let size = form_size(draft.allocator(), env, form, line)?;
            let behind = place_behind(draft, size)?;
            begin_branch(draft, env, condition, line)?;
            push_branch(draft, env, loops, body, behind, line)?;
            push_else_ifs(draft, env, loops, else_ifs, behind)?;
            push_block(draft, env, loops, otherwise)
        }
        StatementForm::DoCounted {
            variable,
            kind,
            first,
            last,
            step,
            hidden,
            body,
        } => {
            begin_do(
                draft, env, *variable, *kind, first, last, step, *hidden, line,
            )?;
            let first = push_body(draft, env, loops, body, 1, 1, line)?;
            push_next_iteration(draft, env, *variable, *kind, *hidden, line)?;
            push_more_iterations(draft, env, *hidden, line)?;
            draft.push(Step::JumpIf(first), line)
        }
        StatementForm::DoWhile { condition, body } => {
            let test = condition_size(draft.allocator(), env, condition)?;
            let first = push_body(draft, env, loops, body, 0, test, line)?;
            push_condition(draft, env, condition, line)?;
            draft.push(Step::JumpIf(first), line)
        }
        StatementForm::DoForever { body } => {
            let first = push_body(draft, env, loops, body, 0, 1, line)?;
            push_always(draft, line)?;
            draft.push(Step::JumpIf(first), line)
        }
        StatementForm::Select {
            value,
            hidden,
            cases,
            otherwise,
        } => {
            let size = form_size(draft.allocator(), env, form, line)?;
            let behind = place_behind(draft, size)?;
            begin_select(draft, env, value, *hidden, line)?;
            push_cases(draft, env, loops, *hidden, cases, behind)?;
            push_block(draft, env, loops, otherwise)
        }
        StatementForm::Critical {
            number,
            stat,
            body,
            end_line,
        } => {
            begin_critical(draft, env, *number, stat, line)?;
            push_block(draft, env, loops, body)?;
            draft.push(Step::Count, *end_line)?;
            push_end_critical(draft, env, *number, *end_line)
        }
        StatementForm::ChangeTeam {
            team,
            stat,
            body,
            end_stat,
            end_line,
        } => {
            begin_change_team(draft, env, team, stat, line)?;
            push_block(draft, env, loops, body)?;
            draft.push(Step::Count, *end_line)?;
            push_end_team(draft, env, end_stat, *end_line)
        }
        StatementForm::Assign { .. }
        | StatementForm::AssignImages { .. }
        | StatementForm::Call { .. }
        | StatementForm::CallIntrinsic(_)
        | StatementForm::Print { .. }
        | StatementForm::Stop { .. }
        | StatementForm::ErrorStop { .. }
        | StatementForm::FailImage
        | StatementForm::Allocate { .. }
        | StatementForm::Deallocate { .. }
        | StatementForm::SyncAll { .. }
        | StatementForm::SyncMemory { .. }
        | StatementForm::SyncImages { .. }
        | StatementForm::SyncTeam { .. }
        | StatementForm::FormTeam { .. }
        | StatementForm::Lock { .. }
        | StatementForm::Unlock { .. }
        | StatementForm::EventPost { .. }
        | StatementForm::EventWait { .. } => push_simple(draft, env, form, line),
    }
}

// The body of a loop whose start was written: from the jump to the test on. The next iteration and the test make so
// many steps. It answers where the iterations begin.
#[cycle(block)]
#[tactic(auto, using(crate::proofs::Texts::laws))]
fn push_body(
    draft: &mut Draft,
    env: &Env<'_>,
    loops: &[LoopPlaces],
    body: &[TypedStatement],
    next: u64,
    test: u64,
    line: u32,
) -> Result<u32, NoMemory>
    requires texts { HasTexts (environment env.now) draft.old }
    ensures body { OnOk result (draft.new ≡ blocks.body_written (open_loops loops.now) line next test (meaning.steps (environment env.now) (view.statements body.now)) draft.old) }
    ensures first { IfOk result (λ p. p ≡ blocks.first_iteration draft.old) }
{
    let alloc = draft.allocator();
    let size = block_size(alloc, env, body)?;
    let first = place_behind(draft, 1)?;
    begin_iterations(draft, size, next, line)?;
    let inner = with_loop(alloc, loops, first, size, next, test)?;
    push_block(draft, env, inner.as_slice(), body)?;
    Ok(first)
}

// A block behind its test, and the jump to behind all branches.
#[cycle(block)]
#[tactic(auto, using(crate::proofs::Texts::laws))]
fn push_branch(
    draft: &mut Draft,
    env: &Env<'_>,
    loops: &[LoopPlaces],
    block: &[TypedStatement],
    behind: u32,
    line: u32,
) -> Result<(), NoMemory>
    requires texts { HasTexts (environment env.now) draft.old }
    ensures written { OnOk result (draft.new ≡ blocks.branch_written (open_loops loops.now) behind line (meaning.steps (environment env.now) (view.statements block.now)) draft.old) }
    ensures texts { OnOk result (HasTexts (environment env.now) draft.new) }
{
    let size = block_size(draft.allocator(), env, block)?;
    push_passing(draft, size, line)?;
    push_block(draft, env, loops, block)?;
    draft.push(Step::Jump(behind), line)
}

// The blocks of ELSE IF with their tests; what is left is the last block of the choice.
#[cycle(block)]
#[tactic(auto, using(crate::proofs::Texts::laws))]
fn push_else_ifs(
    draft: &mut Draft,
    env: &Env<'_>,
    loops: &[LoopPlaces],
    else_ifs: &[ElseIf],
    behind: u32,
) -> Result<(), NoMemory>
    requires texts { HasTexts (environment env.now) draft.old }
    ensures written { OnOk result ((none : Steps Act) → blocks.branches_written (open_loops loops.now) behind (meaning.else_ifs (environment env.now) (view.else_ifs else_ifs.now) none) draft.old ≡ blocks.steps_written (open_loops loops.now) none draft.new) }
    ensures texts { OnOk result (HasTexts (environment env.now) draft.new) }
{
    for branch in else_ifs {
        begin_branch(draft, env, &branch.condition, branch.line)?;
        push_branch(draft, env, loops, &branch.body, behind, branch.line)?;
    }
    Ok(())
}

// The same of CASE.
#[cycle(block)]
#[tactic(auto, using(crate::proofs::Texts::laws))]
fn push_cases(
    draft: &mut Draft,
    env: &Env<'_>,
    loops: &[LoopPlaces],
    hidden: u32,
    cases: &[Case],
    behind: u32,
) -> Result<(), NoMemory>
    requires texts { HasTexts (environment env.now) draft.old }
    ensures written { OnOk result ((none : Steps Act) → blocks.branches_written (open_loops loops.now) behind (meaning.cases (environment env.now) (hidden_cell (environment env.now) hidden) (view.cases cases.now) none) draft.old ≡ blocks.steps_written (open_loops loops.now) none draft.new) }
    ensures texts { OnOk result (HasTexts (environment env.now) draft.new) }
{
    for case in cases {
        begin_case(draft, env, hidden, &case.ranges, case.line)?;
        push_branch(draft, env, loops, &case.body, behind, case.line)?;
    }
    Ok(())
}
