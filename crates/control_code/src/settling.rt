//! Parts that may be missing in a statement, and what becomes of its status (ISO/IEC 1539-1:2018, 11.6.11).

ghost use Rattle.std.specs.Prelude.{◌≡◌, ◌≤◌, pos, OnOk};
ghost use Rattle.checked_tree.specs.ExpressionViews as view;
ghost use Rattle.image_code.specs.Table as table;
ghost use Rattle.image_acts.specs.Acts as act;
ghost use Rattle.tree_meaning.specs.Expressions as meaning;
ghost use Rattle.tree_meaning.specs.ImageControl as control;
ghost use Rattle.tree_meaning.specs.Sequences.{is_one_of, pushing, requiring};
ghost use Rattle.tree_meaning.specs.Settling as statuses;
ghost use Rattle.expr_code.specs.Drafts.{written};
ghost use Rattle.expr_code.specs.Environments.{environment};

use caf_base::refusal::NoMemory;
use checked_tree::expr::{ResultVariable, Selector, TypedExpr};
use expr_code::draft::Draft;
use expr_code::env::Env;
use expr_code::expr::{push_expr, push_result_place};
use expr_code::piece::{push_copy, push_store, result_size};
use image_code::step::{AskStep, Step};

/// FAIL_IMAGE's mark and the other statuses of image control (16.10.2).
pub const FAILED_IMAGE: i64 = 6001;

pub const UNLOCKED_FAILED_IMAGE: i64 = 6002;

pub const BAD_ARGUMENT: i64 = 6006;

/// The value of an expression, or this number where there is none.
pub fn push_or_number(
    draft: &mut Draft,
    env: &Env<'_>,
    expr: &Option<TypedExpr>,
    number: i64,
    line: u32,
) -> Result<(), NoMemory>
    ensures { OnOk result (draft.new ≡ written line (control.or_number (environment env.now) (view.maybe_expression expr.now) (pushing number)) draft.old) }
{
    match expr {
        None => draft.push(Step::Number(number), line),
        Some(expr) => push_expr(draft, env, expr, line),
    }
}

/// The place of a result variable, which is nothing where there is none or where it is a scalar variable.
pub fn push_place(
    draft: &mut Draft,
    env: &Env<'_>,
    variable: &Option<ResultVariable>,
    line: u32,
) -> Result<(), NoMemory>
    ensures { OnOk result (draft.new ≡ written line (meaning.optional_place (environment env.now) (view.maybe_result variable.now)) draft.old) }
{
    match variable {
        None => Ok(()),
        Some(variable) => push_result_place(draft, env, variable, line),
    }
}

/// How many numbers that place is.
#[tactic(auto, using(crate::proofs::Results::small_result))]
pub fn size_of(variable: &Option<ResultVariable>) -> u32
    ensures is { result ≡ meaning.optional_size (view.maybe_result variable.now) }
    ensures small { result ≤ 1 }
{
    match variable {
        None => 0,
        Some(variable) => result_size(variable),
    }
}

// Whether the number on top, which stays, is one of these, beside the truth value beneath it.
fn push_one_of(draft: &mut Draft, statuses: &[i64], line: u32) -> Result<(), NoMemory>
    ensures { OnOk result (draft.new ≡ written line (is_one_of statuses.now) draft.old) }
{
    for status in statuses {
        push_copy(draft, 1, 1, line)?;
        draft.push(Step::Number(*status), line)?;
        draft.push(Step::Equal, line)?;
        draft.push(Step::AnyOf, line)?;
    }
    Ok(())
}

// Any status on top but 0 and these ones starts error termination.
fn push_requiring(draft: &mut Draft, accepted: &[i64], line: u32) -> Result<(), NoMemory>
    ensures { OnOk result (draft.new ≡ written line (requiring accepted.now) draft.old) }
{
    push_copy(draft, 0, 1, line)?;
    draft.push(Step::Number(0), line)?;
    draft.push(Step::Equal, line)?;
    push_one_of(draft, accepted, line)?;
    draft.push(Step::SkipUnless(2), line)?;
    draft.push(Step::Drop(1), line)?;
    draft.push(Step::Skip(1), line)?;
    draft.push(Step::Ask(AskStep::ErrorStop), line)
}

/// The status on top goes into STAT=, whose place stands beneath `depth` numbers; without STAT= any but 0 and the
/// accepted ones starts error termination.
pub fn push_settling(
    draft: &mut Draft,
    stat: &Option<ResultVariable>,
    depth: u32,
    accepted: &[i64],
    line: u32,
) -> Result<(), NoMemory>
    ensures { OnOk result (draft.new ≡ written line (statuses.settling (view.maybe_result stat.now) depth accepted.now) draft.old) }
{
    match stat {
        None => push_requiring(draft, accepted, line),
        Some(variable) => push_store(draft, depth, variable, line),
    }
}

// The status of an image selector, 6001 or 0, goes into its STAT= variable; the status of the statement stays.
#[tactic(auto, using(expr_code::proofs::Forms::laws))]
fn push_settling_of(
    draft: &mut Draft,
    stat: &Option<Box<ResultVariable>>,
    depth: u32,
    line: u32,
) -> Result<(), NoMemory>
    ensures { OnOk result (draft.new ≡ written line (statuses.settling_selector (view.optional_result stat.now) depth) draft.old) }
{
    match stat {
        None => Ok(()),
        Some(variable) => {
            push_copy(draft, 0, 1, line)?;
            draft.push(Step::Number(FAILED_IMAGE), line)?;
            draft.push(Step::Equal, line)?;
            draft.push(Step::SkipUnless(2), line)?;
            draft.push(Step::Number(FAILED_IMAGE), line)?;
            draft.push(Step::Skip(1), line)?;
            draft.push(Step::Number(0), line)?;
            push_store(draft, depth, variable, line)
        }
    }
}

/// The same of a selector that may be missing.
#[tactic(auto, using(expr_code::proofs::Forms::laws))]
pub fn push_settling_selector(
    draft: &mut Draft,
    selector: &Option<Selector>,
    depth: u32,
    line: u32,
) -> Result<(), NoMemory>
    ensures { OnOk result (draft.new ≡ written line (statuses.settling_selector (meaning.stat_of (view.maybe_selector selector.now)) depth) draft.old) }
{
    match selector {
        None => Ok(()),
        Some(selector) => push_settling_of(draft, &selector.stat, depth, line),
    }
}
