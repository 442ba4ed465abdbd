//! Arguments of intrinsic subroutines: they are evaluated as they are written, and found again by their dummies.

ghost use Rattle.std.specs.Prelude.{◌≡◌, ◌+◌, [], ◌∷◌, map, IfOk, OnOk};
ghost use Rattle.checked_tree.specs.ExpressionViews as view;
ghost use Rattle.tree_meaning.specs.Pieces as meaning;
ghost use Rattle.tree_meaning.specs.Subroutines as subroutines;
ghost use Rattle.expr_code.specs.Drafts.{written};
ghost use Rattle.expr_code.specs.Environments.{environment};
ghost use Rattle.subroutine_code.specs.Arguments.{piece, pieces};

use crate::collected::{collected_size, push_collected};
use caf_base::refusal::NoMemory;
use checked_tree::action::{Collected, WrittenArguments};
use checked_tree::expr::{Designator, ResultVariable, TypedExpr};
use control_code::event::{cell_size, push_cell};
use control_code::settling::{push_place, size_of};
use expr_code::draft::Draft;
use expr_code::env::Env;
use expr_code::expr::{push_expr, push_result_place};
use expr_code::piece::{push_copy, result_size};
use expr_code::shape::sum;

/// An argument of an intrinsic subroutine: a value, one that may be missing, a result variable, STAT=, the cell of an
/// atom or an event, or the argument of a collective.
#[derive(Clone, Copy)]
pub enum ArgumentOf<'a> {
    Value(&'a TypedExpr),
    OptionalValue(&'a Option<TypedExpr>),
    Result(&'a ResultVariable),
    Stat(&'a Option<ResultVariable>),
    Cell(&'a Designator),
    Whole(&'a Collected),
}

// An argument is put down.
fn push_argument(
    draft: &mut Draft,
    env: &Env<'_>,
    argument: &ArgumentOf<'_>,
    line: u32,
) -> Result<(), NoMemory>
    ensures { OnOk result (draft.new ≡ written line (piece (environment env.now) argument.now).parts draft.old) }
{
    match argument {
        ArgumentOf::Value(value) => push_expr(draft, env, value, line),
        ArgumentOf::OptionalValue(value) => push_optional(draft, env, value, line),
        ArgumentOf::Result(variable) => push_result_place(draft, env, variable, line),
        ArgumentOf::Stat(variable) => push_place(draft, env, variable, line),
        ArgumentOf::Cell(cell) => push_cell(draft, env, cell, line),
        ArgumentOf::Whole(whole) => push_collected(draft, env, whole, line),
    }
}

fn push_optional(
    draft: &mut Draft,
    env: &Env<'_>,
    value: &Option<TypedExpr>,
    line: u32,
) -> Result<(), NoMemory>
    ensures { OnOk result (draft.new ≡ written line (subroutines.optional_piece (environment env.now) (view.maybe_expression value.now)).parts draft.old) }
{
    match value {
        None => Ok(()),
        Some(value) => push_expr(draft, env, value, line),
    }
}

fn optional_size(env: &Env<'_>, value: &Option<TypedExpr>) -> u32
    ensures { result ≡ (subroutines.optional_piece (environment env.now) (view.maybe_expression value.now)).size }
{
    match value {
        None => 0,
        Some(_) => 1,
    }
}

/// How many numbers an argument is.
pub fn argument_size(env: &Env<'_>, argument: &ArgumentOf<'_>) -> Result<u32, NoMemory>
    ensures { IfOk result (λ n. n ≡ (piece (environment env.now) argument.now).size) }
{
    match argument {
        ArgumentOf::Value(_) => Ok(1),
        ArgumentOf::OptionalValue(value) => Ok(optional_size(env, value)),
        ArgumentOf::Result(variable) => Ok(result_size(variable)),
        ArgumentOf::Stat(variable) => Ok(size_of(variable)),
        ArgumentOf::Cell(cell) => Ok(cell_size(env, cell)),
        ArgumentOf::Whole(whole) => collected_size(env, whole),
    }
}

// The argument of a dummy, if there is one.
#[tactic(auto, using(std::proofs::lemmas::Option::gets, crate::proofs::Arguments::piece_at))]
fn push_argument_of(
    draft: &mut Draft,
    env: &Env<'_>,
    arguments: &[ArgumentOf<'_>],
    dummy: u8,
    line: u32,
) -> Result<(), NoMemory>
    ensures { OnOk result (draft.new ≡ written line (meaning.piece_of (pieces (environment env.now) arguments.now) dummy).parts draft.old) }
{
    match arguments.get(dummy as usize) {
        Some(argument) => push_argument(draft, env, argument, line),
        None => Ok(()),
    }
}

#[tactic(auto, using(std::proofs::lemmas::Option::gets, crate::proofs::Arguments::piece_at))]
fn size_of_dummy(env: &Env<'_>, arguments: &[ArgumentOf<'_>], dummy: u8) -> Result<u32, NoMemory>
    ensures { IfOk result (λ n. n ≡ (meaning.piece_of (pieces (environment env.now) arguments.now) dummy).size) }
{
    match arguments.get(dummy as usize) {
        Some(argument) => argument_size(env, argument),
        None => Ok(0),
    }
}

/// The arguments one after another, for these dummies.
pub fn push_evaluating(
    draft: &mut Draft,
    env: &Env<'_>,
    arguments: &[ArgumentOf<'_>],
    dummies: &[u8],
    line: u32,
) -> Result<(), NoMemory>
    ensures { OnOk result (draft.new ≡ written line (meaning.evaluating (pieces (environment env.now) arguments.now) dummies.now) draft.old) }
{
    for dummy in dummies {
        push_argument_of(draft, env, arguments, *dummy, line)?;
    }
    Ok(())
}

/// How many numbers all of them are.
pub fn sizes(env: &Env<'_>, arguments: &[ArgumentOf<'_>], dummies: &[u8]) -> Result<u32, NoMemory>
    ensures { IfOk result (λ n. n ≡ meaning.sizes (pieces (environment env.now) arguments.now) dummies.now) }
{
    let [first, rest @ ..] = dummies else {
        return Ok(0);
    };
    sum(
        size_of_dummy(env, arguments, *first)?,
        sizes(env, arguments, rest)?,
    )
}

// How many numbers stand above those of a dummy.
fn depth(
    env: &Env<'_>,
    arguments: &[ArgumentOf<'_>],
    dummies: &[u8],
    dummy: u8,
) -> Result<u32, NoMemory>
    ensures { IfOk result (λ n. n ≡ meaning.depth (pieces (environment env.now) arguments.now) dummies.now dummy) }
{
    let [first, rest @ ..] = dummies else {
        return Ok(0);
    };
    if *first == dummy {
        return sizes(env, arguments, rest);
    }
    depth(env, arguments, rest, dummy)
}

/// The same, where `above` numbers stand above all arguments.
pub fn depth_beneath(
    env: &Env<'_>,
    arguments: &[ArgumentOf<'_>],
    dummies: &[u8],
    dummy: u8,
    above: u32,
) -> Result<u32, NoMemory>
    ensures { IfOk result (λ n. n ≡ meaning.depth (pieces (environment env.now) arguments.now) dummies.now dummy + above) }
{
    sum(depth(env, arguments, dummies, dummy)?, above)
}

/// The top `n` numbers of those of a dummy once more, where `above` numbers stand above all arguments.
pub fn push_fetching(
    draft: &mut Draft,
    env: &Env<'_>,
    arguments: &[ArgumentOf<'_>],
    dummies: &[u8],
    dummy: u8,
    above: u32,
    n: u32,
    line: u32,
) -> Result<(), NoMemory>
    ensures { OnOk result (draft.new ≡ written line (meaning.fetching (pieces (environment env.now) arguments.now) dummies.now dummy above n) draft.old) }
{
    let beneath = depth_beneath(env, arguments, dummies, dummy, above)?;
    push_copy(draft, beneath, n, line)
}

/// The dummies of the arguments, as these were written.
pub fn written_dummies(order: &WrittenArguments) -> &[u8]
    ensures { result.now ≡ meaning.written_dummies order.now }
{
    if order.count > 5 {
        return &order.dummies;
    }
    &order.dummies[..order.count as usize]
}
