//! The heads and ends of constructs (ISO/IEC 1539-1:2018, 11.1).

ghost use Rattle.std.specs.Prelude.{◌≡◌, [], ◌∷◌, pos, IfOk, OnOk};
ghost use Rattle.checked_tree.specs.ExpressionViews as view;
ghost use Rattle.image_acts.specs.Acts as act;
ghost use Rattle.tree_meaning.specs.Environment as surroundings;
ghost use Rattle.tree_meaning.specs.Expressions.{expression};
ghost use Rattle.tree_meaning.specs.Forms as meaning;
ghost use Rattle.tree_meaning.specs.ImageControl as control;
ghost use Rattle.tree_meaning.specs.Sequences.{◌▸◌, doing, pushing, released};
ghost use Rattle.expr_code.specs.Drafts.{written};
ghost use Rattle.expr_code.specs.Environments.{environment};

use caf_base::refusal::NoMemory;
use caf_base::value::Kind;
use checked_tree::data::Local;
use checked_tree::expr::{ResultVariable, TypedExpr};
use checked_tree::statement::CaseRange;
use control_code::image_control::{push_change, push_critical_parts, push_end};
use control_code::settling::push_or_number;
use expr_code::draft::Draft;
use expr_code::env::Env;
use expr_code::expr::push_expr;
use expr_code::piece::scope_of;
use expr_code::shape::next_digit;
use image_code::step::{AskStep, Scope, Step};

// Where the hidden cells of a construct stand in the frame.
#[tactic(auto, unfolding(expr_code::specs::Environments::environment))]
fn hidden_cell(env: &Env<'_>, number: u32) -> Result<u32, NoMemory>
    ensures { IfOk result (λ n. n ≡ surroundings.hidden_cell (environment env.now) number) }
{
    next_digit(env.hidden, number, 2)
}

/// The condition of IF, ELSE IF or DO WHILE.
pub fn push_condition(
    draft: &mut Draft,
    env: &Env<'_>,
    condition: &TypedExpr,
    line: u32,
) -> Result<(), NoMemory>
    ensures { OnOk result (draft.new ≡ written line (released (expression (environment env.now) (view.expression condition.now))) draft.old) }
{
    let before = draft.look();
    push_expr(draft, env, condition, line)?;
    draft.release(before, line)
}

// A parameter of DO is one of the variable's kind.
fn push_parameter(
    draft: &mut Draft,
    env: &Env<'_>,
    kind: Kind,
    parameter: &TypedExpr,
    line: u32,
) -> Result<(), NoMemory>
    ensures { OnOk result (draft.new ≡ written line (meaning.parameter (environment env.now) kind (expression (environment env.now) (view.expression parameter.now))) draft.old) }
{
    push_expr(draft, env, parameter, line)?;
    draft.push(Step::Fits(kind, 0), line)
}

// The parameters of DO, and its iteration count.
fn push_parameters(
    draft: &mut Draft,
    env: &Env<'_>,
    variable: Local,
    kind: Kind,
    first: &TypedExpr,
    last: &TypedExpr,
    step: &Option<TypedExpr>,
    hidden: u32,
    line: u32,
) -> Result<(), NoMemory>
    ensures { OnOk result (draft.new ≡ written line (meaning.do_start (environment env.now) variable kind (view.expression first.now) (view.expression last.now) (view.maybe_expression step.now) (surroundings.hidden_cell (environment env.now) hidden)) draft.old) }
{
    let cell = hidden_cell(env, hidden)?;
    push_parameter(draft, env, kind, first, line)?;
    push_parameter(draft, env, kind, last, line)?;
    push_or_number(draft, env, step, 1, line)?;
    draft.push(Step::Fits(kind, 0), line)?;
    draft.push(
        Step::BeginIterations(scope_of(variable.home), variable.variable, cell),
        line,
    )
}

/// The start of a DO with a variable (11.1.7.4.1): `hidden` is the number of its hidden cells.
pub fn push_do_start(
    draft: &mut Draft,
    env: &Env<'_>,
    variable: Local,
    kind: Kind,
    first: &TypedExpr,
    last: &TypedExpr,
    step: &Option<TypedExpr>,
    hidden: u32,
    line: u32,
) -> Result<(), NoMemory>
    ensures { OnOk result (draft.new ≡ written line (released (meaning.do_start (environment env.now) variable kind (view.expression first.now) (view.expression last.now) (view.maybe_expression step.now) (surroundings.hidden_cell (environment env.now) hidden))) draft.old) }
{
    let before = draft.look();
    push_parameters(draft, env, variable, kind, first, last, step, hidden, line)?;
    draft.release(before, line)
}

/// What comes behind each iteration.
pub fn push_next_iteration(
    draft: &mut Draft,
    env: &Env<'_>,
    variable: Local,
    kind: Kind,
    hidden: u32,
    line: u32,
) -> Result<(), NoMemory>
    ensures { OnOk result (draft.new ≡ written line (doing (act.variable (act.next_iteration (surroundings.scope_of variable.home) variable.variable (surroundings.hidden_cell (environment env.now) hidden) kind) ∷ [])) draft.old) }
{
    let cell = hidden_cell(env, hidden)?;
    draft.push(
        Step::NextIteration(scope_of(variable.home), variable.variable, cell, kind),
        line,
    )
}

/// Whether iterations are left.
pub fn push_more_iterations(
    draft: &mut Draft,
    env: &Env<'_>,
    hidden: u32,
    line: u32,
) -> Result<(), NoMemory>
    ensures { OnOk result (draft.new ≡ written line (doing (act.variable (act.more_iterations (surroundings.hidden_cell (environment env.now) hidden)) ∷ [])) draft.old) }
{
    let cell = hidden_cell(env, hidden)?;
    draft.push(Step::MoreIterations(cell), line)
}

/// The condition of a DO without one.
pub fn push_always(draft: &mut Draft, line: u32) -> Result<(), NoMemory>
    ensures { OnOk result (draft.new ≡ written line (pushing (pos 1)) draft.old) }
{
    draft.push(Step::Number(1), line)
}

/// The case expression of SELECT CASE goes into its hidden cell.
pub fn push_select_value(
    draft: &mut Draft,
    env: &Env<'_>,
    value: &TypedExpr,
    hidden: u32,
    line: u32,
) -> Result<(), NoMemory>
    ensures { OnOk result (draft.new ≡ written line (released (expression (environment env.now) (view.expression value.now)) ▸ doing (act.variable (act.store act.here (surroundings.hidden_cell (environment env.now) hidden)) ∷ [])) draft.old) }
{
    let cell = hidden_cell(env, hidden)?;
    push_condition(draft, env, value, line)?;
    draft.push(Step::Store(Scope::Here, cell), line)
}

// Compares the value in a hidden cell with a bound of a range.
fn push_at_least(draft: &mut Draft, cell: u32, bound: i64, line: u32) -> Result<(), NoMemory>
    ensures { OnOk result (draft.new ≡ written line (doing (meaning.compared cell bound act.at_least)) draft.old) }
{
    draft.push(Step::Cell(Scope::Here, cell), line)?;
    draft.push(Step::Number(bound), line)?;
    draft.push(Step::AtLeast, line)
}

fn push_at_most(draft: &mut Draft, cell: u32, bound: i64, line: u32) -> Result<(), NoMemory>
    ensures { OnOk result (draft.new ≡ written line (doing (meaning.compared cell bound act.at_most)) draft.old) }
{
    draft.push(Step::Cell(Scope::Here, cell), line)?;
    draft.push(Step::Number(bound), line)?;
    draft.push(Step::AtMost, line)
}

// Whether it is in a range (11.1.9.2).
#[tactic(auto, using(expr_code::proofs::Calls::written_acts))]
fn push_in_range(draft: &mut Draft, cell: u32, range: CaseRange, line: u32) -> Result<(), NoMemory>
    ensures { OnOk result (draft.new ≡ written line (doing (meaning.in_range cell range)) draft.old) }
{
    match range {
        CaseRange::Value(value) => {
            draft.push(Step::Cell(Scope::Here, cell), line)?;
            draft.push(Step::Number(value), line)?;
            draft.push(Step::Equal, line)
        }
        CaseRange::AtLeast(bound) => push_at_least(draft, cell, bound, line),
        CaseRange::AtMost(bound) => push_at_most(draft, cell, bound, line),
        CaseRange::Between(least, most) => {
            push_at_least(draft, cell, least, line)?;
            push_at_most(draft, cell, most, line)?;
            draft.push(Step::Both, line)
        }
    }
}

// Whether it is in one of the ranges, beside the truth value on top.
#[tactic(auto, using(expr_code::proofs::Calls::written_acts))]
fn push_in_more_ranges(
    draft: &mut Draft,
    cell: u32,
    ranges: &[CaseRange],
    line: u32,
) -> Result<(), NoMemory>
    ensures { OnOk result (draft.new ≡ written line (doing (meaning.in_more_ranges cell ranges.now)) draft.old) }
{
    for range in ranges {
        push_in_range(draft, cell, *range, line)?;
        draft.push(Step::AnyOf, line)?;
    }
    Ok(())
}

/// Whether the case expression is in one of the ranges of a CASE.
#[tactic(auto, using(expr_code::proofs::Calls::written_acts))]
pub fn push_in_ranges(
    draft: &mut Draft,
    env: &Env<'_>,
    hidden: u32,
    ranges: &[CaseRange],
    line: u32,
) -> Result<(), NoMemory>
    ensures { OnOk result (draft.new ≡ written line (doing (meaning.in_ranges (surroundings.hidden_cell (environment env.now) hidden) ranges.now)) draft.old) }
{
    let cell = hidden_cell(env, hidden)?;
    match ranges {
        [] => draft.push(Step::Number(0), line),
        [first, rest @ ..] => {
            push_in_range(draft, cell, *first, line)?;
            push_in_more_ranges(draft, cell, rest, line)
        }
    }
}

/// CRITICAL (11.1.6): `number` is that of the construct.
pub fn push_critical(
    draft: &mut Draft,
    env: &Env<'_>,
    number: u32,
    stat: &Option<ResultVariable>,
    line: u32,
) -> Result<(), NoMemory>
    ensures { OnOk result (draft.new ≡ written line (released (control.critical (environment env.now) number (view.maybe_result stat.now))) draft.old) }
{
    let before = draft.look();
    push_critical_parts(draft, env, number, stat, line)?;
    draft.release(before, line)
}

/// END CRITICAL.
pub fn push_end_critical(
    draft: &mut Draft,
    env: &Env<'_>,
    number: u32,
    line: u32,
) -> Result<(), NoMemory>
    ensures { OnOk result (draft.new ≡ written line (control.end_critical (environment env.now) number) draft.old) }
{
    draft.push(Step::Ask(AskStep::ExitCritical(number)), line)
}

/// CHANGE TEAM (11.1.5).
pub fn push_change_team(
    draft: &mut Draft,
    env: &Env<'_>,
    team: &TypedExpr,
    stat: &Option<ResultVariable>,
    line: u32,
) -> Result<(), NoMemory>
    ensures { OnOk result (draft.new ≡ written line (released (control.change_team (environment env.now) (view.expression team.now) (view.maybe_result stat.now))) draft.old) }
{
    let before = draft.look();
    push_change(draft, env, team, stat, line)?;
    draft.release(before, line)
}

/// END TEAM.
pub fn push_end_team(
    draft: &mut Draft,
    env: &Env<'_>,
    stat: &Option<ResultVariable>,
    line: u32,
) -> Result<(), NoMemory>
    ensures { OnOk result (draft.new ≡ written line (released (control.end_team (environment env.now) (view.maybe_result stat.now))) draft.old) }
{
    let before = draft.look();
    push_end(draft, env, stat, line)?;
    draft.release(before, line)
}
