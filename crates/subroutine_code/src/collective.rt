//! CO_SUM, CO_MIN, CO_MAX and CO_BROADCAST (ISO/IEC 1539-1:2018, 16.9.46 to 16.9.50).

ghost use Rattle.std.specs.Prelude.{◌≡◌, ◌+◌, [], ◌∷◌, pos, IfOk, OnOk};
ghost use Rattle.walk_theory.specs.Made.{parts_size};
ghost use Rattle.checked_tree.specs.ExpressionViews as view;
ghost use Rattle.checked_tree.specs.StatementViews as statements;
ghost use Rattle.tree_meaning.specs.Sequences.{copying};
ghost use Rattle.tree_meaning.specs.Subroutines as meaning;
ghost use Rattle.expr_code.specs.Drafts.{written};
ghost use Rattle.expr_code.specs.Environments.{environment};
ghost use Rattle.subroutine_code.specs.Arguments.{pieces};
ghost use Rattle.subroutine_code.specs.Collecting as part;

use crate::argument::{ArgumentOf, depth_beneath, push_evaluating, push_fetching, sizes};
use crate::collected::{
    collected_size, push_collected_put, push_collected_value, push_dropping_collected,
};
use caf_base::refusal::NoMemory;
use caf_events::round::GatherOp;
use checked_tree::action::Collected;
use checked_tree::expr::{ResultVariable, TypedExpr};
use control_code::settling::{BAD_ARGUMENT, push_settling};
use expr_code::draft::Draft;
use expr_code::env::Env;
use expr_code::piece::{push_copy, push_drop};
use expr_code::shape::{narrow, sum};
use image_code::step::{AskStep, Step};
use std::alloc::Global;

/// The root of a collective: nobody, where each image gets the result; the only image that gets it; or the source of a
/// broadcast, which each image gets.
/// Its index stands beneath so many numbers, and behind the status beneath so many.
#[derive(Clone, Copy)]
pub enum Root {
    Nobody,
    Only(u32, u32),
    Source(u32),
}

/// The place of the argument of a collective, of so many numbers: beneath how many numbers it stands before the round,
/// and behind the status.
#[derive(Clone, Copy)]
pub struct Beneath {
    pub value: u32,
    pub put: u32,
    pub size: u32,
}

fn push_root(draft: &mut Draft, root: Root, line: u32) -> Result<(), NoMemory>
    ensures { OnOk result (draft.new ≡ written line (part.root_of root) draft.old) }
{
    match root {
        Root::Nobody => draft.push(Step::Number(0), line),
        Root::Only(depth, _) => push_copy(draft, depth, 1, line),
        Root::Source(depth) => push_copy(draft, depth, 1, line),
    }
}

// Whether the result comes to this image.
fn push_comes_here(draft: &mut Draft, root: Root, line: u32) -> Result<(), NoMemory>
    ensures { OnOk result (draft.new ≡ written line (part.comes_here root) draft.old) }
{
    match root {
        Root::Nobody => draft.push(Step::Number(1), line),
        Root::Only(_, depth) => {
            push_copy(draft, depth, 1, line)?;
            draft.push(Step::IsRoot, line)
        }
        Root::Source(_) => draft.push(Step::Number(1), line),
    }
}

#[tactic(auto, using(expr_code::proofs::Lines::written_long))]
fn put_size(
    alloc: Global,
    env: &Env<'_>,
    collected: &Collected,
    place: Beneath,
) -> Result<u32, NoMemory>
    ensures { IfOk result (λ n. n ≡ parts_size (meaning.collected_put (environment env.now) (view.designator collected.now.variable) collected.now.kind collected.now.rank (copying place.put place.size))) }
{
    let mut draft = Draft::counting(alloc)?;
    push_collected_put(&mut draft, env, collected, place.put, place.size, 0)?;
    narrow(draft.length() as usize)
}

// Where it comes to this image the result goes into the argument, by its place.
fn push_put_or_not(
    draft: &mut Draft,
    env: &Env<'_>,
    collected: &Collected,
    place: Beneath,
    line: u32,
) -> Result<(), NoMemory>
    ensures { OnOk result (draft.new ≡ written line (part.put_or_not (environment env.now) (statements.collected collected.now) place) draft.old) }
{
    let steps = put_size(draft.allocator(), env, collected, place)?;
    draft.push(Step::SkipUnless(sum(steps, 1)?), line)?;
    push_collected_put(draft, env, collected, place.put, place.size, line)?;
    draft.push(Step::Skip(1), line)?;
    draft.push(Step::DropArray, line)
}

fn push_received(
    draft: &mut Draft,
    env: &Env<'_>,
    collected: &Collected,
    root: Root,
    place: Beneath,
    line: u32,
) -> Result<(), NoMemory>
    ensures { OnOk result (draft.new ≡ written line (part.received (environment env.now) (statements.collected collected.now) root place) draft.old) }
{
    push_comes_here(draft, root, line)?;
    push_put_or_not(draft, env, collected, place, line)
}

fn received_size(
    alloc: Global,
    env: &Env<'_>,
    collected: &Collected,
    root: Root,
    place: Beneath,
) -> Result<u32, NoMemory>
    ensures { IfOk result (λ n. n ≡ parts_size (part.received (environment env.now) (statements.collected collected.now) root place)) }
{
    let mut draft = Draft::counting(alloc)?;
    push_received(&mut draft, env, collected, root, place, 0)?;
    narrow(draft.length() as usize)
}

/// Whether the status on top, which stays, is 0.
pub fn push_succeeded(draft: &mut Draft, line: u32) -> Result<(), NoMemory>
    ensures { OnOk result (draft.new ≡ written line (meaning.succeeded 0) draft.old) }
{
    push_copy(draft, 0, 1, line)?;
    draft.push(Step::Number(0), line)?;
    draft.push(Step::Equal, line)
}

// Where the truth value on top says that the round succeeded, the result is received, else it is dropped.
fn push_received_or_not(
    draft: &mut Draft,
    env: &Env<'_>,
    collected: &Collected,
    root: Root,
    place: Beneath,
    line: u32,
) -> Result<(), NoMemory>
    ensures { OnOk result (draft.new ≡ written line (part.received_or_not (environment env.now) (statements.collected collected.now) root place) draft.old) }
{
    let steps = received_size(draft.allocator(), env, collected, root, place)?;
    draft.push(Step::SkipUnless(sum(steps, 1)?), line)?;
    push_received(draft, env, collected, root, place, line)?;
    draft.push(Step::Skip(1), line)?;
    draft.push(Step::DropArray, line)
}

// The round of a collective.
fn push_gathered(
    draft: &mut Draft,
    env: &Env<'_>,
    collected: &Collected,
    op: GatherOp,
    root: Root,
    place: Beneath,
    line: u32,
) -> Result<(), NoMemory>
    ensures { OnOk result (draft.new ≡ written line (part.gathered (environment env.now) (statements.collected collected.now) op root place) draft.old) }
{
    push_collected_value(draft, env, collected, place.value, place.size, line)?;
    push_root(draft, root, line)?;
    draft.push(Step::Ask(AskStep::Gather(op, collected.kind)), line)?;
    draft.push(Step::Ask(AskStep::Take), line)?;
    push_succeeded(draft, line)?;
    push_received_or_not(draft, env, collected, root, place, line)
}

fn gathered_size(
    alloc: Global,
    env: &Env<'_>,
    collected: &Collected,
    op: GatherOp,
    root: Root,
    place: Beneath,
) -> Result<u32, NoMemory>
    ensures { IfOk result (λ n. n ≡ parts_size (part.gathered (environment env.now) (statements.collected collected.now) op root place)) }
{
    let mut draft = Draft::counting(alloc)?;
    push_gathered(&mut draft, env, collected, op, root, place, 0)?;
    narrow(draft.length() as usize)
}

// Where no step is made the status is that of a bad argument.
fn push_not_gathered(
    draft: &mut Draft,
    env: &Env<'_>,
    collected: &Collected,
    line: u32,
) -> Result<(), NoMemory>
    ensures { OnOk result (draft.new ≡ written line (part.not_gathered (environment env.now) (statements.collected collected.now)) draft.old) }
{
    push_dropping_collected(draft, env, collected, line)?;
    draft.push(Step::Number(BAD_ARGUMENT), line)
}

#[tactic(auto, using(expr_code::proofs::Lines::written_long))]
fn not_gathered_size(alloc: Global, env: &Env<'_>, collected: &Collected) -> Result<u32, NoMemory>
    ensures { IfOk result (λ n. n ≡ parts_size (part.not_gathered (environment env.now) (statements.collected collected.now))) }
{
    let mut draft = Draft::counting(alloc)?;
    push_not_gathered(&mut draft, env, collected, 0)?;
    narrow(draft.length() as usize)
}

// Where the truth value on top says that the root is an image of the team, the round.
fn push_gathered_or_not(
    draft: &mut Draft,
    env: &Env<'_>,
    collected: &Collected,
    op: GatherOp,
    root: Root,
    place: Beneath,
    line: u32,
) -> Result<(), NoMemory>
    ensures { OnOk result (draft.new ≡ written line (part.gathered_or_not (environment env.now) (statements.collected collected.now) op root place) draft.old) }
{
    let alloc = draft.allocator();
    let steps = gathered_size(alloc, env, collected, op, root, place)?;
    let others = not_gathered_size(alloc, env, collected)?;
    draft.push(Step::SkipUnless(sum(steps, 1)?), line)?;
    push_gathered(draft, env, collected, op, root, place, line)?;
    draft.push(Step::Skip(others), line)?;
    push_not_gathered(draft, env, collected, line)
}

// The status goes into STAT=, and the arguments are dropped.
fn push_settled(
    draft: &mut Draft,
    env: &Env<'_>,
    arguments: &[ArgumentOf<'_>],
    dummies: &[u8],
    stat: &Option<ResultVariable>,
    line: u32,
) -> Result<(), NoMemory>
    ensures { OnOk result (draft.new ≡ written line (meaning.settled (environment env.now) (pieces (environment env.now) arguments.now) dummies.now (view.maybe_result stat.now)) draft.old) }
{
    let beneath = depth_beneath(env, arguments, dummies, 2, 1)?;
    let all = sizes(env, arguments, dummies)?;
    push_settling(draft, stat, beneath, &[], line)?;
    push_drop(draft, all, line)
}

// Where the place of the argument stands.
fn place_beneath(
    env: &Env<'_>,
    arguments: &[ArgumentOf<'_>],
    dummies: &[u8],
    collected: &Collected,
) -> Result<Beneath, NoMemory>
    ensures { IfOk result (λ p. p ≡ part.beneath (environment env.now) (pieces (environment env.now) arguments.now) dummies.now (statements.collected collected.now)) }
{
    Ok(Beneath {
        value: depth_beneath(env, arguments, dummies, 0, 0)?,
        put: depth_beneath(env, arguments, dummies, 0, 1)?,
        size: collected_size(env, collected)?,
    })
}

// The round, where there is a root: one that is no index of the team is a bad argument.
fn push_rooted(
    draft: &mut Draft,
    env: &Env<'_>,
    arguments: &[ArgumentOf<'_>],
    dummies: &[u8],
    collected: &Collected,
    op: GatherOp,
    root: Root,
    line: u32,
) -> Result<(), NoMemory>
    ensures { OnOk result (draft.new ≡ written line (part.rooted_at (environment env.now) (pieces (environment env.now) arguments.now) dummies.now (statements.collected collected.now) op root) draft.old) }
{
    let place = place_beneath(env, arguments, dummies, collected)?;
    push_fetching(draft, env, arguments, dummies, 1, 0, 1, line)?;
    draft.push(Step::IsIndex, line)?;
    push_gathered_or_not(draft, env, collected, op, root, place, line)
}

// The round of CO_SUM, CO_MIN or CO_MAX.
fn push_combined(
    draft: &mut Draft,
    env: &Env<'_>,
    arguments: &[ArgumentOf<'_>],
    dummies: &[u8],
    collected: &Collected,
    op: GatherOp,
    result_image: &Option<TypedExpr>,
    line: u32,
) -> Result<(), NoMemory>
    ensures { OnOk result (draft.new ≡ written line (part.combined_at (environment env.now) (pieces (environment env.now) arguments.now) dummies.now (statements.collected collected.now) op (view.maybe_expression result_image.now)) draft.old) }
{
    match result_image {
        None => {
            let place = place_beneath(env, arguments, dummies, collected)?;
            push_gathered(draft, env, collected, op, Root::Nobody, place, line)
        }
        Some(_) => {
            let index = depth_beneath(env, arguments, dummies, 1, 0)?;
            let behind = depth_beneath(env, arguments, dummies, 1, 1)?;
            let root = Root::Only(index, behind);
            push_rooted(draft, env, arguments, dummies, collected, op, root, line)
        }
    }
}

/// CO_SUM, CO_MIN and CO_MAX.
#[tactic(auto, using(crate::proofs::Collecting::combine_is))]
pub fn push_combine(
    draft: &mut Draft,
    env: &Env<'_>,
    arguments: &[ArgumentOf<'_>],
    dummies: &[u8],
    collected: &Collected,
    op: GatherOp,
    result_image: &Option<TypedExpr>,
    stat: &Option<ResultVariable>,
    line: u32,
) -> Result<(), NoMemory>
    ensures { OnOk result (draft.new ≡ written line (meaning.combine (environment env.now) (pieces (environment env.now) arguments.now) dummies.now (statements.collected collected.now) op (view.maybe_expression result_image.now) (view.maybe_result stat.now)) draft.old) }
{
    push_evaluating(draft, env, arguments, dummies, line)?;
    push_combined(
        draft,
        env,
        arguments,
        dummies,
        collected,
        op,
        result_image,
        line,
    )?;
    push_settled(draft, env, arguments, dummies, stat, line)
}

/// CO_BROADCAST: each image gets the values, the source image too.
pub fn push_broadcast(
    draft: &mut Draft,
    env: &Env<'_>,
    arguments: &[ArgumentOf<'_>],
    dummies: &[u8],
    collected: &Collected,
    stat: &Option<ResultVariable>,
    line: u32,
) -> Result<(), NoMemory>
    ensures { OnOk result (draft.new ≡ written line (meaning.broadcast (environment env.now) (pieces (environment env.now) arguments.now) dummies.now (statements.collected collected.now) (view.maybe_result stat.now)) draft.old) }
{
    let root = Root::Source(depth_beneath(env, arguments, dummies, 1, 0)?);
    push_evaluating(draft, env, arguments, dummies, line)?;
    push_rooted(
        draft,
        env,
        arguments,
        dummies,
        collected,
        GatherOp::Broadcast,
        root,
        line,
    )?;
    push_settled(draft, env, arguments, dummies, stat, line)
}
