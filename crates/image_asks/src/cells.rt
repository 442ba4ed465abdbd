//! Asks of one cell: atomic subroutines, locks and events (ISO/IEC 1539-1:2018, 11.6.7 to 11.6.10, 16.5).

ghost use Rattle.std.specs.Prelude.{◌≡◌, ◌<◌, ◌≤◌, ◌∷◌, max, drop, length};
ghost use Rattle.caf_base.specs.Arithmetic as arithmetic;
ghost use Rattle.image_acts.specs.Core.{with_values};
ghost use Rattle.image_acts.specs.Owning.{own_in};
ghost use Rattle.image_acts.specs.Operate.Asking as asking;
ghost use Rattle.image_acts.specs.Words as words;
ghost use Rattle.image_code.specs.declared.step.AskStep.TheVariants as asked;
ghost use Rattle.image_state.specs.Acting.{with_core};
ghost use Rattle.image_asks.specs.Asking.{ask_here, ComesTo, IsAsking, IsAsked, GoesOnWith};
ghost use Rattle.image_asks.specs.Operands.{number_beneath};

use crate::asks::Asking;
use crate::operands::{image_at, number, this_image};
use crate::replies::{acquired_in, count_in, old_in, put_status, status_of};
use crate::values::value_of;
use caf_base::span::Span;
use caf_base::value::{AtomicOp, Kind, Value};
use caf_events::ask::Ask;
use caf_events::reply::Reply;
use coarray_tables::asks::{cell_span, word};
use image_state::state::ImageState;

/// The number of the run fault NotAllocated.
const NOT_ALLOCATED: u32 = 6;

/// The cell of a coarray whose offset stands beneath so many numbers. It takes no memory.
fn cell(image: &ImageState, coarray: u32, depth: u32) -> Span
    ensures { result ≡ asking.cell_span coarray (number_beneath depth image.now.core.values) }
{
    cell_span(image.alloc(), coarray, &number(image, depth))
}

/// LOCK.
#[tactic(auto, using(crate::proofs::CellAsks::lock_asked))]
pub(crate) fn lock(image: &ImageState, coarray: u32) -> Ask
    requires { IsAsking (ask_here image.now (asked.Lock coarray)) }
    ensures { IsAsked (ask_here image.now (asked.Lock coarray)) result }
{
    Ask::Lock {
        owner: image_at(image, 0),
        span: cell(image, coarray, 1),
    }
}

/// LOCK with ACQUIRED_LOCK=.
#[tactic(auto, using(crate::proofs::CellAsks::try_asked))]
pub(crate) fn try_lock(image: &ImageState, coarray: u32) -> Ask
    requires { IsAsking (ask_here image.now (asked.TryLock coarray)) }
    ensures { IsAsked (ask_here image.now (asked.TryLock coarray)) result }
{
    Ask::TryLock {
        owner: image_at(image, 0),
        span: cell(image, coarray, 1),
    }
}

/// UNLOCK.
#[tactic(auto, using(crate::proofs::CellAsks::unlock_asked))]
pub(crate) fn unlock(image: &ImageState, coarray: u32) -> Ask
    requires { IsAsking (ask_here image.now (asked.Unlock coarray)) }
    ensures { IsAsked (ask_here image.now (asked.Unlock coarray)) result }
{
    Ask::Unlock {
        owner: image_at(image, 0),
        span: cell(image, coarray, 1),
    }
}

/// EVENT POST.
#[tactic(auto, using(crate::proofs::CellAsks::post_asked))]
pub(crate) fn post(image: &ImageState, coarray: u32) -> Ask
    requires { IsAsking (ask_here image.now (asked.Post coarray)) }
    ensures { IsAsked (ask_here image.now (asked.Post coarray)) result }
{
    Ask::Post {
        owner: image_at(image, 0),
        span: cell(image, coarray, 1),
    }
}

/// Whether the number beneath so many others is the offset of a cell of a coarray that is allocated here.
fn is_there(image: &ImageState, coarray: u32, depth: u32) -> bool
    ensures { result ≡ asking.has_cell (own_in image.now.core coarray) (words.word (number_beneath depth image.now.core.values)) }
{
    image
        .coarrays()
        .has_cell(coarray, word(&number(image, depth)))
}

/// What EVENT WAIT comes to: the event may have been deallocated since its place was found.
#[tactic(auto, using(crate::proofs::CellAsks::wait_comes, crate::proofs::CellAsks::wait_faults))]
pub(crate) fn waits(image: &ImageState, coarray: u32) -> Asking
    requires { 2 ≤ length image.now.core.values }
    ensures { ComesTo (ask_here image.now (asked.Wait coarray)) result }
{
    if is_there(image, coarray, 1) {
        Asking::Asks
    } else {
        Asking::Fault(NOT_ALLOCATED)
    }
}

/// EVENT WAIT.
#[tactic(auto, using(crate::proofs::CellAsks::wait_asked))]
pub(crate) fn wait(image: &ImageState, coarray: u32) -> Ask
    requires { IsAsking (ask_here image.now (asked.Wait coarray)) }
    ensures { IsAsked (ask_here image.now (asked.Wait coarray)) result }
{
    Ask::Wait {
        owner: this_image(image),
        span: cell(image, coarray, 1),
        threshold: threshold(number(image, 0)),
    }
}

/// A threshold, at least 1.
fn threshold(n: i64) -> u64
    ensures { result ≡ max (arithmetic.natural n) 1 }
{
    if n < 1 { 1 } else { n as u64 }
}

/// What EVENT_QUERY comes to, likewise.
#[tactic(auto, using(crate::proofs::CellAsks::query_comes, crate::proofs::CellAsks::query_faults))]
pub(crate) fn queries(image: &ImageState, coarray: u32) -> Asking
    requires { 1 ≤ length image.now.core.values }
    ensures { ComesTo (ask_here image.now (asked.Query coarray)) result }
{
    if is_there(image, coarray, 0) {
        Asking::Asks
    } else {
        Asking::Fault(NOT_ALLOCATED)
    }
}

/// EVENT_QUERY.
#[tactic(auto, using(crate::proofs::CellAsks::query_asked))]
pub(crate) fn query(image: &ImageState, coarray: u32) -> Ask
    requires { IsAsking (ask_here image.now (asked.Query coarray)) }
    ensures { IsAsked (ask_here image.now (asked.Query coarray)) result }
{
    Ask::Query {
        owner: this_image(image),
        span: cell(image, coarray, 0),
    }
}

/// The first operand of an atomic action.
fn first_operand(op: AtomicOp, kind: Kind, x: i64) -> Value
    ensures { result ≡ asking.first_operand op kind x }
{
    match op {
        AtomicOp::Ref => Value::Int(0),
        AtomicOp::Define
        | AtomicOp::Add
        | AtomicOp::And
        | AtomicOp::Or
        | AtomicOp::Xor
        | AtomicOp::Cas => value_of(kind, &x),
    }
}

/// The second one.
fn second_operand(op: AtomicOp, kind: Kind, y: i64) -> Value
    ensures { result ≡ asking.second_operand op kind y }
{
    match op {
        AtomicOp::Cas => value_of(kind, &y),
        AtomicOp::Define
        | AtomicOp::Ref
        | AtomicOp::Add
        | AtomicOp::And
        | AtomicOp::Or
        | AtomicOp::Xor => Value::Int(0),
    }
}

/// An atomic action.
#[tactic(auto, using(crate::proofs::CellAsks::atomic_asked))]
pub(crate) fn atomic(image: &ImageState, op: AtomicOp, coarray: u32, kind: Kind) -> Ask
    requires { IsAsking (ask_here image.now (asked.Atomic op coarray kind)) }
    ensures { IsAsked (ask_here image.now (asked.Atomic op coarray kind)) result }
{
    Ask::Atomic {
        owner: image_at(image, 2),
        op,
        span: cell(image, coarray, 3),
        x: first_operand(op, kind, number(image, 1)),
        y: second_operand(op, kind, number(image, 0)),
    }
}

/// Goes on after LOCK.
#[tactic(auto, using(crate::proofs::CellAsks::lock_there, crate::proofs::CellAsks::lock_heard))]
pub(crate) fn hear_lock(image: &mut ImageState, coarray: u32, reply: &Reply)
    requires asks { IsAsking (ask_here image.old (asked.Lock coarray)) }
    requires room { length image.old.core.values < image.old.rooms.numbers }
    ensures { GoesOnWith image.old (ask_here image.old (asked.Lock coarray)) reply.now image.new }
{
    put_status(image, 2, reply);
}

/// Goes on after UNLOCK.
#[tactic(auto, using(crate::proofs::CellAsks::unlock_there, crate::proofs::CellAsks::unlock_heard))]
pub(crate) fn hear_unlock(image: &mut ImageState, coarray: u32, reply: &Reply)
    requires asks { IsAsking (ask_here image.old (asked.Unlock coarray)) }
    requires room { length image.old.core.values < image.old.rooms.numbers }
    ensures { GoesOnWith image.old (ask_here image.old (asked.Unlock coarray)) reply.now image.new }
{
    put_status(image, 2, reply);
}

/// Goes on after EVENT POST.
#[tactic(auto, using(crate::proofs::CellAsks::post_there, crate::proofs::CellAsks::post_heard))]
pub(crate) fn hear_post(image: &mut ImageState, coarray: u32, reply: &Reply)
    requires asks { IsAsking (ask_here image.old (asked.Post coarray)) }
    requires room { length image.old.core.values < image.old.rooms.numbers }
    ensures { GoesOnWith image.old (ask_here image.old (asked.Post coarray)) reply.now image.new }
{
    put_status(image, 2, reply);
}

/// Goes on after EVENT WAIT.
#[tactic(auto, using(crate::proofs::CellAsks::wait_there, crate::proofs::CellAsks::wait_heard))]
pub(crate) fn hear_wait(image: &mut ImageState, coarray: u32, reply: &Reply)
    requires asks { IsAsking (ask_here image.old (asked.Wait coarray)) }
    requires room { length image.old.core.values < image.old.rooms.numbers }
    ensures { GoesOnWith image.old (ask_here image.old (asked.Wait coarray)) reply.now image.new }
{
    put_status(image, 2, reply);
}

/// Goes on after EVENT_QUERY: the count stands in the place of the offset.
#[tactic(auto, using(crate::proofs::CellAsks::query_there, crate::proofs::CellAsks::query_told))]
pub(crate) fn hear_query(image: &mut ImageState, coarray: u32, reply: &Reply)
    requires { IsAsking (ask_here image.old (asked.Query coarray)) }
    ensures { GoesOnWith image.old (ask_here image.old (asked.Query coarray)) reply.now image.new }
{
    image.put_for_one(count_in(reply));
}

/// Puts two numbers in the place of the n numbers on top.
#[tactic(auto, using(crate::proofs::ReplyLaws::two_put, crate::proofs::ReplyLaws::room_left, crate::proofs::ReplyLaws::room_for_two))]
fn put_two(image: &mut ImageState, n: usize, v: i64, status: i64)
    requires some { 2 ≤ n }
    requires there { n ≤ length image.old.core.values }
    requires room { length image.old.core.values < image.old.rooms.numbers }
    ensures { image.new ≡ with_core image.old (with_values image.old.core (status ∷ v ∷ drop n image.old.core.values)) }
{
    image.drop_top(n);
    image.push(v);
    image.push(status);
}

/// Goes on after LOCK with ACQUIRED_LOCK=: whether it was acquired, and on top the status.
#[tactic(auto, using(crate::proofs::CellAsks::try_there, crate::proofs::CellAsks::try_told))]
pub(crate) fn hear_try(image: &mut ImageState, coarray: u32, reply: &Reply)
    requires asks { IsAsking (ask_here image.old (asked.TryLock coarray)) }
    requires room { length image.old.core.values < image.old.rooms.numbers }
    ensures { GoesOnWith image.old (ask_here image.old (asked.TryLock coarray)) reply.now image.new }
{
    put_two(image, 2, acquired_in(reply), status_of(reply));
}

/// Goes on after an atomic action: the value that it found, and on top the status.
#[tactic(auto, using(crate::proofs::CellAsks::atomic_there, crate::proofs::CellAsks::atomic_told))]
pub(crate) fn hear_atomic(
    image: &mut ImageState,
    op: AtomicOp,
    coarray: u32,
    kind: Kind,
    reply: &Reply,
)
    requires asks { IsAsking (ask_here image.old (asked.Atomic op coarray kind)) }
    requires room { length image.old.core.values < image.old.rooms.numbers }
    ensures { GoesOnWith image.old (ask_here image.old (asked.Atomic op coarray kind)) reply.now image.new }
{
    put_two(image, 4, old_in(reply), status_of(reply));
}
