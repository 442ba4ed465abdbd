//! A gate over the memory of image 1 of `integer :: x[*]`, `type(event_type) :: e[*]`, on one thread, with passes of
//! images 1 and 2.

ghost use Rattle.std.specs.Prelude.{◌≡◌, []};

use caf_base::few::Few;
use caf_base::hook::Quiet;
use caf_base::listing::Listing;
use caf_base::place::ImageNo;
use caf_base::span::{Dims, Span};
use caf_base::value::{Kind, Value};
use caf_events::ask::Ask;
use caf_events::object::Object;
use caf_events::reply::Reply;
use coarray_memory::coarray::{Coarray, Holding};
use coarray_memory::memory::Memory;
use std::alloc::Global;
use std::process::Abort;
use turn_gate::gate::Gate;
use turn_gate::turn::Turn;

const OWNER: ImageNo = ImageNo(1);

fn cell(alloc: Global, coarray: u32) -> Span {
    Span {
        coarray,
        start: 0,
        dims: Dims::new(alloc),
    }
}

fn write(alloc: Global, value: i64) -> Ask {
    Ask::Write {
        owner: OWNER,
        span: cell(alloc, 0),
        values: Few::of_one(Value::Int(value)),
    }
}

fn read(alloc: Global) -> Ask {
    Ask::Read {
        owner: OWNER,
        span: cell(alloc, 0),
    }
}

fn wait(alloc: Global) -> Ask {
    Ask::Wait {
        owner: OWNER,
        span: cell(alloc, 1),
        threshold: 1,
    }
}

fn post(alloc: Global) -> Ask {
    Ask::Post {
        owner: OWNER,
        span: cell(alloc, 1),
    }
}

fn memory<R: Abort>(rt: &R, alloc: Global) -> Memory
    ensures { result.history ≡ [] }
{
    let first = Listing::of_one(alloc, Value::Int(0)).expect(rt, "memory");
    let x = Coarray {
        holding: Holding::Values(Kind::I4),
        allocatable: false,
        cells: 1,
        first,
    };
    let e = Coarray {
        holding: Holding::Events,
        allocatable: false,
        cells: 1,
        first: Listing::new(alloc),
    };
    let mut coarrays = Vec::with_capacity(alloc, 2).expect(rt, "memory");
    coarrays.push_reserved(x);
    coarrays.push_reserved(e);
    Memory::new(alloc, OWNER, coarrays).expect(rt, "memory")
}

// What a turn comes to: the stamp and the reply of a step, a wait, or a full gate with the last stamp.
#[derive(Clone, Copy, PartialEq, Eq)]
enum Outcome {
    Done(u64),
    Read(u64, i64),
    Status(u64, i32),
    Waits,
    Full(u64),
    Other,
}

// What a reply of these steps says, with the stamp.
fn said(stamp: u64, reply: &Reply) -> Outcome {
    match reply {
        Reply::Done => Outcome::Done(stamp),
        Reply::Number { status } => Outcome::Status(stamp, *status),
        Reply::Values { values } => match values.as_slice() {
            [Value::Int(value)] => Outcome::Read(stamp, *value),
            _ => Outcome::Other,
        },
        _ => Outcome::Other,
    }
}

fn outcome_of(alloc: Global, turn: Turn) -> Outcome {
    match turn {
        Turn::Done(event) => {
            let reply = event.reply(alloc);
            let outcome = said(event.stamp(), &reply);
            drop(reply);
            drop(event);
            outcome
        }
        Turn::NotYet(ask) => {
            drop(ask);
            Outcome::Waits
        }
        Turn::Full { ask, last } => {
            drop(ask);
            Outcome::Full(last)
        }
        other => {
            drop(other);
            Outcome::Other
        }
    }
}

#[test]
fn images_take_turns(rt: HostRuntime) {
    let alloc = rt.alloc();
    let (gate, mut first) = Gate::new(alloc, memory(&rt, alloc), 2).expect(&rt, "memory");
    let mut one = gate.split(&mut first, ImageNo(1));
    let mut two = gate.split(&mut first, ImageNo(2));
    let turn = gate.turn(&rt, &mut one, write(alloc, 3), 4, 0, 0, &Quiet);
    assert!(rt; outcome_of(alloc, turn) == Outcome::Done(1));
    let turn = gate.turn(&rt, &mut two, write(alloc, 7), 4, 5, 0, &Quiet);
    assert!(rt; outcome_of(alloc, turn) == Outcome::Done(6));
    let turn = gate.turn(&rt, &mut one, wait(alloc), 5, 1, 0, &Quiet);
    assert!(rt; outcome_of(alloc, turn) == Outcome::Waits);
    let turn = gate.turn(&rt, &mut one, read(alloc), 5, 1, 0, &Quiet);
    assert!(rt; outcome_of(alloc, turn) == Outcome::Read(7, 7));
    let turn = gate.turn(&rt, &mut two, read(alloc), 5, 1 << 62, 0, &Quiet);
    assert!(rt; outcome_of(alloc, turn) == Outcome::Full(7));
    let turn = gate.turn(&rt, &mut two, post(alloc), 6, 6, 0, &Quiet);
    assert!(rt; outcome_of(alloc, turn) == Outcome::Status(8, 0));
    let turn = gate.turn(&rt, &mut one, wait(alloc), 5, 7, 0, &Quiet);
    assert!(rt; outcome_of(alloc, turn) == Outcome::Status(9, 0));
    let mut passes = Vec::with_capacity(alloc, 3).expect(&rt, "memory");
    passes.push_reserved(first);
    passes.push_reserved(one);
    passes.push_reserved(two);
    let memory = gate.close(passes);
    assert!(rt; memory.last_stamp() == 9);
    drop(memory);
}
