//! Whether two asks at a memory are the same: a function for each variant, and one for all of them.

ghost use Rattle.std.specs.Prelude.{◌≡◌, Decides};
ghost use Rattle.caf_base.specs.declared.place.Place.TheVariants.{Memory};
ghost use Rattle.caf_events.specs.Asks.{place_of};
ghost use Rattle.caf_events.specs.declared.ask.Ask.TheVariants as asks;

use crate::parts::{same_op, same_span, same_value, same_values};
use caf_base::place::ImageNo;
use caf_base::span::Span;
use caf_base::value::{AtomicOp, Value};
use caf_events::ask::Ask;

fn is_read(ask: &Ask, owner: ImageNo, span: &Span) -> bool
    ensures { Decides result (ask.now ≡ asks.Read owner span.now) }
{
    match ask {
        Ask::Read {
            owner: the_owner,
            span: the_span,
        } => the_owner.0 == owner.0 && same_span(the_span, span),
        _ => false,
    }
}

fn is_write(ask: &Ask, owner: ImageNo, span: &Span, values: &[Value]) -> bool
    ensures { Decides result (ask.now ≡ asks.Write owner span.now values.now) }
{
    match ask {
        Ask::Write {
            owner: the_owner,
            span: the_span,
            values: the_values,
        } => the_owner.0 == owner.0
            && same_span(the_span, span)
            && same_values(the_values.as_slice(), values),
        _ => false,
    }
}

fn is_create(ask: &Ask, owner: ImageNo, coarray: u32, cells: u32) -> bool
    ensures { Decides result (ask.now ≡ asks.Create owner coarray cells) }
{
    match ask {
        Ask::Create {
            owner: the_owner,
            coarray: the_coarray,
            cells: the_cells,
        } => the_owner.0 == owner.0 && *the_coarray == coarray && *the_cells == cells,
        _ => false,
    }
}

fn is_delete(ask: &Ask, owner: ImageNo, coarray: u32) -> bool
    ensures { Decides result (ask.now ≡ asks.Delete owner coarray) }
{
    match ask {
        Ask::Delete {
            owner: the_owner,
            coarray: the_coarray,
        } => the_owner.0 == owner.0 && *the_coarray == coarray,
        _ => false,
    }
}

fn is_atomic(ask: &Ask, owner: ImageNo, op: AtomicOp, span: &Span, x: Value, y: Value) -> bool
    ensures { Decides result (ask.now ≡ asks.Atomic owner op span.now x y) }
{
    match ask {
        Ask::Atomic {
            owner: the_owner,
            op: the_op,
            span: the_span,
            x: the_x,
            y: the_y,
        } => the_owner.0 == owner.0
            && same_op(*the_op, op)
            && same_span(the_span, span)
            && same_value(*the_x, x)
            && same_value(*the_y, y),
        _ => false,
    }
}

fn is_lock(ask: &Ask, owner: ImageNo, span: &Span) -> bool
    ensures { Decides result (ask.now ≡ asks.Lock owner span.now) }
{
    match ask {
        Ask::Lock {
            owner: the_owner,
            span: the_span,
        } => the_owner.0 == owner.0 && same_span(the_span, span),
        _ => false,
    }
}

fn is_try_lock(ask: &Ask, owner: ImageNo, span: &Span) -> bool
    ensures { Decides result (ask.now ≡ asks.TryLock owner span.now) }
{
    match ask {
        Ask::TryLock {
            owner: the_owner,
            span: the_span,
        } => the_owner.0 == owner.0 && same_span(the_span, span),
        _ => false,
    }
}

fn is_unlock(ask: &Ask, owner: ImageNo, span: &Span) -> bool
    ensures { Decides result (ask.now ≡ asks.Unlock owner span.now) }
{
    match ask {
        Ask::Unlock {
            owner: the_owner,
            span: the_span,
        } => the_owner.0 == owner.0 && same_span(the_span, span),
        _ => false,
    }
}

fn is_post(ask: &Ask, owner: ImageNo, span: &Span) -> bool
    ensures { Decides result (ask.now ≡ asks.Post owner span.now) }
{
    match ask {
        Ask::Post {
            owner: the_owner,
            span: the_span,
        } => the_owner.0 == owner.0 && same_span(the_span, span),
        _ => false,
    }
}

fn is_wait(ask: &Ask, owner: ImageNo, span: &Span, threshold: u64) -> bool
    ensures { Decides result (ask.now ≡ asks.Wait owner span.now threshold) }
{
    match ask {
        Ask::Wait {
            owner: the_owner,
            span: the_span,
            threshold: the_threshold,
        } => the_owner.0 == owner.0 && same_span(the_span, span) && *the_threshold == threshold,
        _ => false,
    }
}

fn is_query(ask: &Ask, owner: ImageNo, span: &Span) -> bool
    ensures { Decides result (ask.now ≡ asks.Query owner span.now) }
{
    match ask {
        Ask::Query {
            owner: the_owner,
            span: the_span,
        } => the_owner.0 == owner.0 && same_span(the_span, span),
        _ => false,
    }
}

fn is_mark(ask: &Ask, owner: ImageNo) -> bool
    ensures { Decides result (ask.now ≡ asks.Mark owner) }
{
    match ask {
        Ask::Mark { owner: the_owner } => the_owner.0 == owner.0,
        _ => false,
    }
}

fn is_free(ask: &Ask, owner: ImageNo, span: &Span) -> bool
    ensures { Decides result (ask.now ≡ asks.Free owner span.now) }
{
    match ask {
        Ask::Free {
            owner: the_owner,
            span: the_span,
        } => the_owner.0 == owner.0 && same_span(the_span, span),
        _ => false,
    }
}

/// Whether an ask is the other one, which is made at the memory of an image.
pub(crate) fn same_at_memory(a: &Ask, b: &Ask, at: ImageNo) -> bool
    requires { place_of b.now ≡ Memory at }
    ensures { Decides result (a.now ≡ b.now) }
{
    match b {
        Ask::Read { owner, span } => is_read(a, *owner, span),
        Ask::Write {
            owner,
            span,
            values,
        } => is_write(a, *owner, span, values.as_slice()),
        Ask::Create {
            owner,
            coarray,
            cells,
        } => is_create(a, *owner, *coarray, *cells),
        Ask::Delete { owner, coarray } => is_delete(a, *owner, *coarray),
        Ask::Atomic {
            owner,
            op,
            span,
            x,
            y,
        } => is_atomic(a, *owner, *op, span, *x, *y),
        Ask::Lock { owner, span } => is_lock(a, *owner, span),
        Ask::TryLock { owner, span } => is_try_lock(a, *owner, span),
        Ask::Unlock { owner, span } => is_unlock(a, *owner, span),
        Ask::Post { owner, span } => is_post(a, *owner, span),
        Ask::Wait {
            owner,
            span,
            threshold,
        } => is_wait(a, *owner, span, *threshold),
        Ask::Query { owner, span } => is_query(a, *owner, span),
        Ask::Mark { owner } => is_mark(a, *owner),
        Ask::Free { owner, span } => is_free(a, *owner, span),
        _ => false,
    }
}
