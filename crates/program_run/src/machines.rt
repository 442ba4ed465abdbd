//! The machines of a run.

ghost use Rattle.std.specs.Prelude.{◌≡◌, ◌<◌, ◌≤◌, ◌^◌, length, IfOk, IfSome};
ghost use Rattle.std.specs.Arc.{arc_value};
ghost use Rattle.image_core.specs.Parts.{EachAt};
ghost use Rattle.program_run.specs.Machines.{IsRunnable, HasBegun, EachWhereThere};

use caf_base::place::ImageNo;
use caf_base::refusal::NoMemory;
use full_report::way::Way;
use image_code::code::Code;
use image_machine::machine::Machine;
use std::alloc::Global;
use std::sync::Arc;
use std::thread;
use std::thread::Threads;

// The machine of the image at a place.
fn machine(alloc: Global, code: &Arc<Code>, k: u32, n: u32, limit: u64) -> Result<Machine, NoMemory>
    requires place { k < 2 ^ 31 }
    requires limit { limit ≤ 100000000 }
    requires code { IsRunnable (arc_value code.now) }
    ensures { IfOk result (HasBegun (arc_value code.now) limit n k) }
{
    let machine = Machine::new(alloc, code.clone()?, ImageNo(k + 1), n, limit)?;
    Ok(machine)
}

/// The machines of the images from 1 to n, each at its first ask or its end, made one after another. Conditions: there
/// are at most 100,000,000 statements, and the machine can run the code.
pub fn machines(
    alloc: Global,
    code: &Arc<Code>,
    n: u32,
    limit: u64,
) -> Result<Vec<Machine>, NoMemory>
    requires images { n < 2 ^ 31 }
    requires limit { limit ≤ 100000000 }
    requires code { IsRunnable (arc_value code.now) }
    ensures count { IfOk result (λ v. length v.items ≡ n) }
    ensures begun { IfOk result (λ v. EachAt (HasBegun (arc_value code.now) limit n) v.items) }
{
    let mut machines = Vec::new(alloc);
    for k in 0..n {
        machines.push(machine(alloc, code, k, n, limit)?)?;
    }
    Ok(machines)
}

// So many slots with nothing in them.
fn empty_slots(alloc: Global, n: u32) -> Result<Vec<Option<Machine>>, NoMemory>
    ensures { IfOk result (λ v. length v.items ≡ n) }
{
    let mut slots = Vec::with_capacity(alloc, n as usize)?;
    for _ in 0..n {
        slots.push(None)?;
    }
    Ok(slots)
}

// The machines that stand in the slots; an empty one is want of memory.
fn taken(
    alloc: Global,
    code: &Arc<Code>,
    slots: Vec<Option<Machine>>,
    n: u32,
    limit: u64,
) -> Result<Vec<Machine>, NoMemory>
    requires { EachWhereThere (HasBegun (arc_value code.now) limit n) slots.items }
    ensures count { IfOk result (λ v. length v.items ≡ length slots.items) }
    ensures begun { IfOk result (λ v. EachAt (HasBegun (arc_value code.now) limit n) v.items) }
{
    let _ = code;
    let _ = n;
    let _ = limit;
    let mut machines = Vec::with_capacity(alloc, slots.len())?;
    for slot in slots {
        let Some(machine) = slot else {
            return Err(NoMemory);
        };
        machines.push(machine)?;
    }
    Ok(machines)
}

// The same made at the same time, on at most so many threads, at least one.
fn machines_at_once<R: Threads + Sync>(
    rt: &R,
    alloc: Global,
    code: &Arc<Code>,
    n: u32,
    limit: u64,
    threads: u32,
) -> Result<Vec<Machine>, NoMemory>
    requires images { n < 2 ^ 31 }
    requires limit { limit ≤ 100000000 }
    requires code { IsRunnable (arc_value code.now) }
    requires threads { 0 < threads }
    ensures count { IfOk result (λ v. length v.items ≡ n) }
    ensures begun { IfOk result (λ v. EachAt (HasBegun (arc_value code.now) limit n) v.items) }
{
    let mut slots = empty_slots(alloc, n)?;
    thread::for_each_mut(
        rt,
        &mut slots,
        threads as usize,
        &|k: usize, slot: &mut Option<Machine>|
            requires { (k < 2 ^ 31) × (limit ≤ 100000000) × IsRunnable (arc_value code.now) }
            ensures { IfSome slot.new (HasBegun (arc_value code.entry.now) limit n k) }
        { *slot = machine(alloc, code, k as u32, n, limit).ok() },
    );
    taken(alloc, code, slots, n, limit)
}

/// The machines of the images from 1 to n, each at its first ask or its end. What an image does before its first ask
/// touches no other; so where the images run on workers these do that too, each some of the images.
pub(crate) fn first_machines<R: Threads + Sync>(
    rt: &R,
    alloc: Global,
    code: &Arc<Code>,
    n: u32,
    limit: u64,
    way: Way,
) -> Result<Vec<Machine>, NoMemory>
    requires images { n < 2 ^ 31 }
    requires limit { limit ≤ 100000000 }
    requires code { IsRunnable (arc_value code.now) }
    ensures count { IfOk result (λ v. length v.items ≡ n) }
    ensures begun { IfOk result (λ v. EachAt (HasBegun (arc_value code.now) limit n) v.items) }
{
    match way {
        Way::Order(_) => machines(alloc, code, n, limit),
        Way::Workers(workers) => { machines_at_once(rt, alloc, code, n, limit, workers.max(1)) }
    }
}
