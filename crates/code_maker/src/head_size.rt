//! How many steps a simple statement makes, and the heads and ends of constructs: as many as a draft that counts has of
//! them.

ghost use Rattle.std.specs.Prelude.{◌≡◌, [], ◌∷◌, IfOk};
ghost use Rattle.walk_theory.specs.Made.{parts_size};
ghost use Rattle.checked_tree.specs.ExpressionViews as view;
ghost use Rattle.checked_tree.specs.StatementViews.{statement_form};
ghost use Rattle.image_acts.specs.Acts.{here, variable as on_variable, store};
ghost use Rattle.tree_meaning.specs.Environment.{hidden_cell};
ghost use Rattle.tree_meaning.specs.Expressions.{expression};
ghost use Rattle.tree_meaning.specs.Forms as meaning;
ghost use Rattle.tree_meaning.specs.ImageControl as control;
ghost use Rattle.tree_meaning.specs.Sequences.{◌▸◌, doing, released};
ghost use Rattle.expr_code.specs.Environments.{environment};
ghost use Rattle.code_maker.specs.Sizes.{SimpleSize};

use caf_base::refusal::NoMemory;
use caf_base::value::Kind;
use checked_tree::data::Local;
use checked_tree::expr::{ResultVariable, TypedExpr};
use checked_tree::statement::{CaseRange, StatementForm};
use expr_code::draft::Draft;
use expr_code::env::Env;
use statement_code::head::{
    push_change_team, push_condition, push_critical, push_do_start, push_end_team, push_in_ranges,
    push_select_value,
};
use statement_code::simple::push_simple;
use std::alloc::Global;

/// A simple statement. Of another form nothing is said.
#[tactic(auto, using(crate::proofs::Sizes::simple_long))]
pub fn simple_size(
    alloc: Global,
    env: &Env<'_>,
    form: &StatementForm,
    line: u32,
) -> Result<u64, NoMemory>
    ensures { IfOk result (λ n. SimpleSize (meaning.form (environment env.now) line (statement_form form.now)) n) }
{
    let mut draft = Draft::counting(alloc)?;
    push_simple(&mut draft, env, form, line)?;
    Ok(draft.length())
}

/// A condition.
#[tactic(auto, using(expr_code::proofs::Lines::written_long))]
pub fn condition_size(alloc: Global, env: &Env<'_>, condition: &TypedExpr) -> Result<u64, NoMemory>
    ensures { IfOk result (λ n. n ≡ parts_size (released (expression (environment env.now) (view.expression condition.now)))) }
{
    let mut draft = Draft::counting(alloc)?;
    push_condition(&mut draft, env, condition, 0)?;
    Ok(draft.length())
}

/// The start of a DO with a variable.
#[tactic(auto, using(expr_code::proofs::Lines::written_long))]
pub fn do_start_size(
    alloc: Global,
    env: &Env<'_>,
    variable: Local,
    kind: Kind,
    first: &TypedExpr,
    last: &TypedExpr,
    step: &Option<TypedExpr>,
    hidden: u32,
) -> Result<u64, NoMemory>
    ensures { IfOk result (λ n. n ≡ parts_size (released (meaning.do_start (environment env.now) variable kind (view.expression first.now) (view.expression last.now) (view.maybe_expression step.now) (hidden_cell (environment env.now) hidden)))) }
{
    let mut draft = Draft::counting(alloc)?;
    push_do_start(
        &mut draft, env, variable, kind, first, last, step, hidden, 0,
    )?;
    Ok(draft.length())
}

/// The value of a SELECT CASE.
#[tactic(auto, using(crate::proofs::Sizes::long))]
pub fn select_value_size(
    alloc: Global,
    env: &Env<'_>,
    value: &TypedExpr,
    hidden: u32,
) -> Result<u64, NoMemory>
    ensures { IfOk result (λ n. n ≡ parts_size (released (expression (environment env.now) (view.expression value.now)) ▸ doing (on_variable (store here (hidden_cell (environment env.now) hidden)) ∷ []))) }
{
    let mut draft = Draft::counting(alloc)?;
    push_select_value(&mut draft, env, value, hidden, 0)?;
    Ok(draft.length())
}

/// The test of a CASE.
#[tactic(auto, using(expr_code::proofs::Lines::written_long))]
pub fn ranges_size(
    alloc: Global,
    env: &Env<'_>,
    hidden: u32,
    ranges: &[CaseRange],
) -> Result<u64, NoMemory>
    ensures { IfOk result (λ n. n ≡ parts_size (doing (meaning.in_ranges (hidden_cell (environment env.now) hidden) ranges.now))) }
{
    let mut draft = Draft::counting(alloc)?;
    push_in_ranges(&mut draft, env, hidden, ranges, 0)?;
    Ok(draft.length())
}

/// CRITICAL.
#[tactic(auto, using(expr_code::proofs::Lines::written_long))]
pub fn critical_size(
    alloc: Global,
    env: &Env<'_>,
    number: u32,
    stat: &Option<ResultVariable>,
) -> Result<u64, NoMemory>
    ensures { IfOk result (λ n. n ≡ parts_size (released (control.critical (environment env.now) number (view.maybe_result stat.now)))) }
{
    let mut draft = Draft::counting(alloc)?;
    push_critical(&mut draft, env, number, stat, 0)?;
    Ok(draft.length())
}

/// CHANGE TEAM.
#[tactic(auto, using(expr_code::proofs::Lines::written_long))]
pub fn change_team_size(
    alloc: Global,
    env: &Env<'_>,
    team: &TypedExpr,
    stat: &Option<ResultVariable>,
) -> Result<u64, NoMemory>
    ensures { IfOk result (λ n. n ≡ parts_size (released (control.change_team (environment env.now) (view.expression team.now) (view.maybe_result stat.now)))) }
{
    let mut draft = Draft::counting(alloc)?;
    push_change_team(&mut draft, env, team, stat, 0)?;
    Ok(draft.length())
}

/// END TEAM.
#[tactic(auto, using(expr_code::proofs::Lines::written_long))]
pub fn end_team_size(
    alloc: Global,
    env: &Env<'_>,
    stat: &Option<ResultVariable>,
) -> Result<u64, NoMemory>
    ensures { IfOk result (λ n. n ≡ parts_size (released (control.end_team (environment env.now) (view.maybe_result stat.now)))) }
{
    let mut draft = Draft::counting(alloc)?;
    push_end_team(&mut draft, env, stat, 0)?;
    Ok(draft.length())
}
