//! Asks at the memory of image 1, which has one coarray, and steps there.

use caf_base::few::Few;
use caf_base::place::ImageNo;
use caf_base::span::{Dims, Span};
use caf_base::value::{AtomicOp, Value};
use caf_events::ask::Ask;
use caf_events::object::Object;
use caf_events::reply::Reply;
use coarray_memory::memory::Memory;
use std::alloc::Global;
use std::fmt::Debug;
use std::process::Abort;

pub const OWNER: ImageNo = ImageNo(1);

// The words of `Debug` for a value, which is given up.
fn shown<R: Abort, T: Debug + Drop>(rt: &R, alloc: Global, value: T) -> String {
    let text = format!(in alloc; "{value:?}");
    drop(value);
    text.expect(rt, "memory")
}

/// One step of an image, which is told this reply.
pub fn step<R: Abort>(
    rt: &R,
    alloc: Global,
    memory: &mut Memory,
    image: u32,
    ask: Ask,
    wanted: Reply,
) {
    assert!(rt; memory.ready(ImageNo(image), &ask));
    assert!(rt; memory.last_stamp() < 4_611_686_018_427_387_904);
    let told = memory.reserve(ImageNo(image), &ask).expect(rt, "memory");
    let event = memory.apply(ImageNo(image), ask, told, 7, 0);
    let heard = shown(rt, alloc, event.reply(alloc));
    drop(event);
    assert!(rt; heard == shown(rt, alloc, wanted));
}

/// The cell of this offset.
pub fn cell(alloc: Global, start: u32) -> Span {
    Span {
        coarray: 0,
        start,
        dims: Dims::new(alloc),
    }
}

/// A section of one dimension: so many cells, so far apart.
pub fn section<R: Abort>(rt: &R, alloc: Global, start: u32, count: u32, apart: i32) -> Span {
    Span {
        coarray: 0,
        start,
        dims: Dims::from_slice(alloc, &[(count, apart)]).expect(rt, "memory"),
    }
}

pub fn read(span: Span) -> Ask {
    Ask::Read { owner: OWNER, span }
}

pub fn write(span: Span, values: Few<Value>) -> Ask {
    Ask::Write {
        owner: OWNER,
        span,
        values,
    }
}

pub fn atomic(alloc: Global, op: AtomicOp, x: i64, y: i64) -> Ask {
    Ask::Atomic {
        owner: OWNER,
        op,
        span: cell(alloc, 0),
        x: Value::Int(x),
        y: Value::Int(y),
    }
}

pub fn one(value: i64) -> Reply {
    Reply::Values {
        values: Few::of_one(Value::Int(value)),
    }
}

pub fn two<R: Abort>(rt: &R, alloc: Global, first: i64, second: i64) -> Few<Value> {
    Few::from_slice(alloc, &[Value::Int(first), Value::Int(second)]).expect(rt, "memory")
}

pub fn status(status: i32) -> Reply {
    Reply::Number { status }
}

pub fn old(value: i64) -> Reply {
    Reply::Old {
        value: Value::Int(value),
    }
}
