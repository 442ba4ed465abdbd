//! Atomic subroutines and EVENT_QUERY (ISO/IEC 1539-1:2018, 16.5, 16.9.72).

ghost use Rattle.std.specs.Prelude.{◌≡◌, ◌+◌, [], ◌∷◌, pos, IfOk, OnOk};
ghost use Rattle.std.specs.Option.{option_map};
ghost use Rattle.checked_tree.specs.ExpressionViews as view;
ghost use Rattle.tree_meaning.specs.Subroutines as meaning;
ghost use Rattle.expr_code.specs.Drafts.{written};
ghost use Rattle.expr_code.specs.Environments.{environment};
ghost use Rattle.subroutine_code.specs.Arguments.{pieces};
ghost use Rattle.subroutine_code.specs.Atomics as part;

use crate::argument::{ArgumentOf, depth_beneath, push_evaluating, push_fetching, sizes};
use crate::collective::push_succeeded;
use caf_base::refusal::NoMemory;
use caf_base::value::{AtomicOp, Kind};
use checked_tree::expr::{Designator, ResultVariable};
use control_code::event::{coarray_of, push_cell_status, push_there};
use control_code::settling::push_settling;
use expr_code::draft::Draft;
use expr_code::env::Env;
use expr_code::piece::{push_copy, push_drop, push_store, result_size};
use expr_code::shape::sum;
use image_code::step::{AskStep, Step};

/// A call of an atomic subroutine: the action, on the atom; the dummies of its operands; the variable that gets the old
/// value; and STAT=.
#[derive(Clone, Copy)]
pub struct AtomicCall<'a> {
    pub atom: &'a Designator,
    pub atom_dummy: u8,
    pub op: AtomicOp,
    pub kind: Kind,
    pub first: Option<u8>,
    pub second: Option<u8>,
    pub old: Option<&'a ResultVariable>,
    pub old_dummy: u8,
    pub stat: &'a Option<ResultVariable>,
    pub stat_dummy: u8,
}

fn push_operand(
    draft: &mut Draft,
    env: &Env<'_>,
    arguments: &[ArgumentOf<'_>],
    dummies: &[u8],
    operand: Option<u8>,
    above: u32,
    line: u32,
) -> Result<(), NoMemory>
    ensures { OnOk result (draft.new ≡ written line (part.operand (environment env.now) (pieces (environment env.now) arguments.now) dummies.now operand above) draft.old) }
{
    match operand {
        None => draft.push(Step::Number(0), line),
        Some(dummy) => push_fetching(draft, env, arguments, dummies, dummy, above, 1, line),
    }
}

// The operands and the action.
fn push_operated(
    draft: &mut Draft,
    env: &Env<'_>,
    arguments: &[ArgumentOf<'_>],
    dummies: &[u8],
    call: &AtomicCall<'_>,
    line: u32,
) -> Result<(), NoMemory>
    ensures { OnOk result (draft.new ≡ written line (part.operated (environment env.now) (pieces (environment env.now) arguments.now) dummies.now call.now) draft.old) }
{
    let ask = AskStep::Atomic(call.op, coarray_of(env, call.atom), call.kind);
    push_operand(draft, env, arguments, dummies, call.first, 2, line)?;
    push_operand(draft, env, arguments, dummies, call.second, 3, line)?;
    draft.push(Step::Ask(ask), line)?;
    draft.push(Step::Accessed, line)
}

// The arguments and the action.
fn push_acting(
    draft: &mut Draft,
    env: &Env<'_>,
    arguments: &[ArgumentOf<'_>],
    dummies: &[u8],
    call: &AtomicCall<'_>,
    line: u32,
) -> Result<(), NoMemory>
    ensures { OnOk result (draft.new ≡ written line (part.acting (environment env.now) (pieces (environment env.now) arguments.now) dummies.now call.now) draft.old) }
{
    push_evaluating(draft, env, arguments, dummies, line)?;
    push_there(draft, env, call.atom, line)?;
    push_fetching(draft, env, arguments, dummies, call.atom_dummy, 0, 2, line)?;
    push_operated(draft, env, arguments, dummies, call, line)
}

// The old value goes into the result variable, where the action succeeded.
#[tactic(auto, using(crate::proofs::Storing::store_size))]
fn push_old(draft: &mut Draft, old: &ResultVariable, depth: u32, line: u32) -> Result<(), NoMemory>
    ensures { OnOk result (draft.new ≡ written line (part.fetching_old (view.result_variable old.now) depth) draft.old) }
{
    push_succeeded(draft, line)?;
    draft.push(Step::SkipUnless(sum(result_size(old), 3)?), line)?;
    push_copy(draft, 1, 1, line)?;
    push_store(draft, depth, old, line)?;
    draft.push(Step::Skip(0), line)
}

// What becomes of the status and of the old value.
fn push_acted(
    draft: &mut Draft,
    env: &Env<'_>,
    arguments: &[ArgumentOf<'_>],
    dummies: &[u8],
    call: &AtomicCall<'_>,
    line: u32,
) -> Result<(), NoMemory>
    ensures { OnOk result (draft.new ≡ written line (part.acted (environment env.now) (pieces (environment env.now) arguments.now) dummies.now call.now) draft.old) }
{
    let atom = depth_beneath(env, arguments, dummies, call.atom_dummy, 5)?;
    let old = depth_beneath(env, arguments, dummies, call.old_dummy, 3)?;
    let stat = depth_beneath(env, arguments, dummies, call.stat_dummy, 2)?;
    let all = sum(sizes(env, arguments, dummies)?, 1)?;
    push_cell_status(draft, env, call.atom, atom, line)?;
    push_fetched(draft, env, call.old, old, line)?;
    push_settling(draft, call.stat, stat, &[], line)?;
    push_drop(draft, all, line)
}

fn push_fetched(
    draft: &mut Draft,
    env: &Env<'_>,
    old: Option<&ResultVariable>,
    depth: u32,
    line: u32,
) -> Result<(), NoMemory>
    ensures { OnOk result (draft.new ≡ written line (meaning.fetched (environment env.now) (view.maybe_result (option_map (λ r. r.now) old.entry)) depth) draft.old) }
{
    match old {
        None => Ok(()),
        Some(old) => push_old(draft, old, depth, line),
    }
}

/// A call of an atomic subroutine with these arguments, for these dummies.
pub fn push_atomic(
    draft: &mut Draft,
    env: &Env<'_>,
    arguments: &[ArgumentOf<'_>],
    dummies: &[u8],
    call: &AtomicCall<'_>,
    line: u32,
) -> Result<(), NoMemory>
    ensures { OnOk result (draft.new ≡ written line (part.atomic_call (environment env.now) (pieces (environment env.now) arguments.now) dummies.now call.now) draft.old) }
{
    push_acting(draft, env, arguments, dummies, call, line)?;
    push_acted(draft, env, arguments, dummies, call, line)
}

// EVENT_QUERY behind its ask.
fn push_queried(
    draft: &mut Draft,
    env: &Env<'_>,
    arguments: &[ArgumentOf<'_>],
    dummies: &[u8],
    count: &ResultVariable,
    stat: &Option<ResultVariable>,
    line: u32,
) -> Result<(), NoMemory>
    ensures { OnOk result (draft.new ≡ written line (part.queried (environment env.now) (pieces (environment env.now) arguments.now) dummies.now (view.result_variable count.now) (view.maybe_result stat.now)) draft.old) }
{
    let count_depth = depth_beneath(env, arguments, dummies, 1, 1)?;
    let stat_depth = depth_beneath(env, arguments, dummies, 2, 1)?;
    let all = sizes(env, arguments, dummies)?;
    push_store(draft, count_depth, count, line)?;
    draft.push(Step::Number(0), line)?;
    push_settling(draft, stat, stat_depth, &[], line)?;
    push_drop(draft, all, line)
}

/// EVENT_QUERY of this image's event.
pub fn push_query(
    draft: &mut Draft,
    env: &Env<'_>,
    arguments: &[ArgumentOf<'_>],
    dummies: &[u8],
    event: &Designator,
    count: &ResultVariable,
    stat: &Option<ResultVariable>,
    line: u32,
) -> Result<(), NoMemory>
    ensures { OnOk result (draft.new ≡ written line (meaning.query (environment env.now) (pieces (environment env.now) arguments.now) dummies.now (view.designator event.now) (view.result_variable count.now) (view.maybe_result stat.now)) draft.old) }
{
    let coarray = coarray_of(env, event);
    push_evaluating(draft, env, arguments, dummies, line)?;
    push_fetching(draft, env, arguments, dummies, 0, 0, 2, line)?;
    push_drop(draft, 1, line)?;
    draft.push(Step::Ask(AskStep::Query(coarray)), line)?;
    push_queried(draft, env, arguments, dummies, count, stat, line)
}
