//! Lock variables, event variables, and variables of atomic subroutines.

use crate::asks::{OWNER, atomic, cell, old, status, step};
use caf_base::listing::Listing;
use caf_base::place::ImageNo;
use caf_base::value::{AtomicOp, Kind, Value};
use caf_events::ask::Ask;
use caf_events::object::Object;
use caf_events::reply::Reply;
use coarray_memory::coarray::{Coarray, Holding};
use coarray_memory::memory::Memory;
use std::alloc::Global;
use std::process::Abort;

// The memory for one scalar coarray of LOCK_TYPE or EVENT_TYPE.
fn variable<R: Abort>(rt: &R, alloc: Global, is_lock: bool) -> Memory {
    let holding = if is_lock {
        Holding::Locks
    } else {
        Holding::Events
    };
    let declared = Coarray {
        holding,
        allocatable: false,
        cells: 1,
        first: Listing::new(alloc),
    };
    let mut coarrays = Vec::with_capacity(alloc, 1).expect(rt, "memory");
    coarrays.push_reserved(declared);
    Memory::new(alloc, OWNER, coarrays).expect(rt, "memory")
}

// The memory for `integer :: c[*]`.
fn counter<R: Abort>(rt: &R, alloc: Global) -> Memory {
    let c = Coarray {
        holding: Holding::Values(Kind::I4),
        allocatable: false,
        cells: 1,
        first: Listing::of_one(alloc, Value::Int(0)).expect(rt, "memory"),
    };
    let mut coarrays = Vec::with_capacity(alloc, 1).expect(rt, "memory");
    coarrays.push_reserved(c);
    Memory::new(alloc, OWNER, coarrays).expect(rt, "memory")
}

fn lock(alloc: Global) -> Ask {
    Ask::Lock {
        owner: OWNER,
        span: cell(alloc, 0),
    }
}

fn unlock(alloc: Global) -> Ask {
    Ask::Unlock {
        owner: OWNER,
        span: cell(alloc, 0),
    }
}

fn try_lock(alloc: Global) -> Ask {
    Ask::TryLock {
        owner: OWNER,
        span: cell(alloc, 0),
    }
}

#[test]
fn lock_statuses(rt: HostRuntime) {
    let alloc = rt.alloc();
    let mut memory = variable(&rt, alloc, true);
    step(&rt, alloc, &mut memory, 1, unlock(alloc), status(6004));
    step(&rt, alloc, &mut memory, 1, lock(alloc), status(0));
    step(&rt, alloc, &mut memory, 1, lock(alloc), status(6003));
    assert!(rt; !memory.ready(ImageNo(2), &lock(alloc)));
    step(&rt, alloc, &mut memory, 2, try_lock(alloc), Reply::Busy);
    step(&rt, alloc, &mut memory, 2, unlock(alloc), status(6005));
    step(&rt, alloc, &mut memory, 1, unlock(alloc), status(0));
    step(&rt, alloc, &mut memory, 2, try_lock(alloc), status(0));
    let free = Ask::Free {
        owner: OWNER,
        span: cell(alloc, 0),
    };
    step(&rt, alloc, &mut memory, 2, free, Reply::Done);
    step(&rt, alloc, &mut memory, 1, lock(alloc), status(6002));
    drop(memory);
}

#[test]
fn posts_and_a_wait(rt: HostRuntime) {
    let alloc = rt.alloc();
    let mut memory = variable(&rt, alloc, false);
    let post = |image: u32, memory: &mut Memory| {
        let ask = Ask::Post {
            owner: OWNER,
            span: cell(alloc, 0),
        };
        step(&rt, alloc, memory, image, ask, status(0));
    };
    let wait = Ask::Wait {
        owner: OWNER,
        span: cell(alloc, 0),
        threshold: 2,
    };
    post(2, &mut memory);
    assert!(rt; !memory.ready(OWNER, &wait));
    post(3, &mut memory);
    post(2, &mut memory);
    step(&rt, alloc, &mut memory, 1, wait, status(0));
    let query = Ask::Query {
        owner: OWNER,
        span: cell(alloc, 0),
    };
    step(&rt, alloc, &mut memory, 1, query, Reply::Count { count: 1 });
    drop(memory);
}

#[test]
fn atomic_actions(rt: HostRuntime) {
    let alloc = rt.alloc();
    let mut memory = counter(&rt, alloc);
    step(
        &rt,
        alloc,
        &mut memory,
        1,
        atomic(alloc, AtomicOp::Add, 1, 0),
        old(0),
    );
    step(
        &rt,
        alloc,
        &mut memory,
        2,
        atomic(alloc, AtomicOp::Add, 2_147_483_646, 0),
        old(1),
    );
    step(
        &rt,
        alloc,
        &mut memory,
        2,
        atomic(alloc, AtomicOp::Add, 1, 0),
        Reply::Overflow,
    );
    step(
        &rt,
        alloc,
        &mut memory,
        3,
        atomic(alloc, AtomicOp::Cas, 5, 6),
        old(2_147_483_647),
    );
    step(
        &rt,
        alloc,
        &mut memory,
        3,
        atomic(alloc, AtomicOp::Cas, 2_147_483_647, 6),
        old(2_147_483_647),
    );
    step(
        &rt,
        alloc,
        &mut memory,
        3,
        atomic(alloc, AtomicOp::And, 3, 0),
        old(6),
    );
    step(
        &rt,
        alloc,
        &mut memory,
        3,
        atomic(alloc, AtomicOp::Xor, 3, 0),
        old(2),
    );
    step(
        &rt,
        alloc,
        &mut memory,
        1,
        atomic(alloc, AtomicOp::Ref, 0, 0),
        old(1),
    );
    step(
        &rt,
        alloc,
        &mut memory,
        1,
        Ask::Mark { owner: OWNER },
        Reply::Done,
    );
    step(
        &rt,
        alloc,
        &mut memory,
        2,
        atomic(alloc, AtomicOp::Define, 4, 0),
        Reply::Dead,
    );
    drop(memory);
}
