//! References and definitions of cells and sections, allocation, and a memory whose owner has failed.

use crate::asks::{OWNER, cell, one, read, section, step, two, write};
use caf_base::few::Few;
use caf_base::listing::Listing;
use caf_base::value::{Kind, Value};
use caf_events::ask::Ask;
use caf_events::object::Object;
use caf_events::reply::Reply;
use coarray_memory::coarray::{Coarray, Holding};
use coarray_memory::memory::Memory;
use std::alloc::Global;
use std::process::Abort;

// The memory for `integer :: x(4)[*] = 9`.
fn four_nines<R: Abort>(rt: &R, alloc: Global) -> Memory {
    let nines = vec![in alloc; Value::Int(9); 4].expect(rt, "memory");
    let x = Coarray {
        holding: Holding::Values(Kind::I4),
        allocatable: false,
        cells: 4,
        first: Listing::from_vec(nines),
    };
    let mut coarrays = Vec::with_capacity(alloc, 1).expect(rt, "memory");
    coarrays.push_reserved(x);
    Memory::new(alloc, OWNER, coarrays).expect(rt, "memory")
}

// The memory for `integer, allocatable :: y(:)[:]`.
fn unallocated<R: Abort>(rt: &R, alloc: Global) -> Memory {
    let y = Coarray {
        holding: Holding::Values(Kind::I4),
        allocatable: true,
        cells: 0,
        first: Listing::new(alloc),
    };
    let mut coarrays = Vec::with_capacity(alloc, 1).expect(rt, "memory");
    coarrays.push_reserved(y);
    Memory::new(alloc, OWNER, coarrays).expect(rt, "memory")
}

#[test]
fn cells_of_sections(rt: HostRuntime) {
    let alloc = rt.alloc();
    let mut memory = four_nines(&rt, alloc);
    // x(1:4:3) = [5, 6], then x(4:1:-3), x(2), and x(4:1:-3) = [1, 2].
    let ends = section(&rt, alloc, 0, 2, 3);
    step(
        &rt,
        alloc,
        &mut memory,
        2,
        write(ends, two(&rt, alloc, 5, 6)),
        Reply::Done,
    );
    let backwards = read(section(&rt, alloc, 3, 2, -3));
    let values = two(&rt, alloc, 6, 5);
    step(
        &rt,
        alloc,
        &mut memory,
        1,
        backwards,
        Reply::Values { values },
    );
    step(&rt, alloc, &mut memory, 2, read(cell(alloc, 1)), one(9));
    let backwards = section(&rt, alloc, 3, 2, -3);
    step(
        &rt,
        alloc,
        &mut memory,
        1,
        write(backwards, two(&rt, alloc, 1, 2)),
        Reply::Done,
    );
    assert!(rt; memory.value(0, 0) == Some(Value::Int(2)));
    assert!(rt; memory.value(0, 2) == Some(Value::Int(9)));
    assert!(rt; memory.value(0, 3) == Some(Value::Int(1)));
    assert!(rt; memory.value(0, 4).is_none());
    assert!(rt; memory.value(1, 0).is_none());
    drop(memory);
}

#[test]
fn allocated_and_deallocated(rt: HostRuntime) {
    let alloc = rt.alloc();
    let mut memory = unallocated(&rt, alloc);
    step(
        &rt,
        alloc,
        &mut memory,
        2,
        read(cell(alloc, 0)),
        Reply::Absent,
    );
    let create = Ask::Create {
        owner: OWNER,
        coarray: 0,
        cells: 2,
    };
    assert!(rt; !memory.ready(caf_base::place::ImageNo(2), &create));
    step(&rt, alloc, &mut memory, 1, create, Reply::Done);
    step(
        &rt,
        alloc,
        &mut memory,
        2,
        write(cell(alloc, 1), Few::of_one(Value::Int(7))),
        Reply::Done,
    );
    step(&rt, alloc, &mut memory, 1, read(cell(alloc, 1)), one(7));
    step(&rt, alloc, &mut memory, 1, read(cell(alloc, 0)), one(0));
    step(
        &rt,
        alloc,
        &mut memory,
        2,
        read(cell(alloc, 2)),
        Reply::Absent,
    );
    let delete = Ask::Delete {
        owner: OWNER,
        coarray: 0,
    };
    step(&rt, alloc, &mut memory, 1, delete, Reply::Done);
    step(
        &rt,
        alloc,
        &mut memory,
        2,
        read(cell(alloc, 1)),
        Reply::Absent,
    );
    assert!(rt; memory.value(0, 1).is_none());
    drop(memory);
}

#[test]
fn owner_that_failed(rt: HostRuntime) {
    let alloc = rt.alloc();
    let mut memory = four_nines(&rt, alloc);
    step(
        &rt,
        alloc,
        &mut memory,
        1,
        Ask::Mark { owner: OWNER },
        Reply::Done,
    );
    step(
        &rt,
        alloc,
        &mut memory,
        2,
        write(cell(alloc, 0), Few::of_one(Value::Int(7))),
        Reply::Dead,
    );
    step(
        &rt,
        alloc,
        &mut memory,
        2,
        read(cell(alloc, 0)),
        Reply::Dead,
    );
    assert!(rt; memory.value(0, 0) == Some(Value::Int(9)));
    drop(memory);
}
