//! What a memory keeps for each coarray.

ghost use Rattle.std.specs.Prelude.{◌≡◌, ◌+◌, ℕ, pos, length, is_some, nat_le, slice_index_or, IfOk};
ghost use Rattle.caf_base.specs.declared.value.Value.TheVariants as values;
ghost use Rattle.object_rules.specs.MemoryRules as rules;
ghost use Rattle.event_lock.specs.LockCells.{lock_ready, event_ready, IsLockAsk, IsEventAsk};
ghost use Rattle.coarray_memory.specs.Stores.{AreOffsets};
ghost use Rattle.coarray_memory.specs.Memories.{store_of, stored_at, size_in, value_in, lock_in, event_in, total_of, lock_waits, values_told, read_told, lock_told, event_told, lock_done, event_done, value_done, written_done, event_few, can_wait, FitsStore, CanAct, plan_of, done_at};

use crate::cells::write_cells;
use crate::prepare::Prepared;
use atomic_subs::atomic::atomic_reply;
use caf_base::few::Few;
use caf_base::limits::COARRAY_CELLS;
use caf_base::place::ImageNo;
use caf_base::refusal::NoMemory;
use caf_base::span::Span;
use caf_base::value::{AtomicOp, Kind, Value};
use caf_events::ask::Ask;
use caf_events::reply::Reply;
use event_lock::event::EventCell;
use event_lock::lock::LockCell;
use std::alloc::Global;

/// The cells of a coarray: none where it isn't there.
#[derive(Drop)]
pub enum Store {
    Absent,
    Values(Vec<Value>),
    Locks(Vec<LockCell>),
    Events(Vec<EventCell>),
}

/// How many cells the coarray has, where it is there.
pub fn size_of(stores: &Vec<Store>, coarray: u32) -> Option<usize>
    ensures { result ≡ size_in (stored_at stores.now.items coarray) }
{
    match stores.get(coarray as usize) {
        Some(Store::Absent) => None,
        Some(Store::Values(cells)) => Some(cells.len()),
        Some(Store::Locks(cells)) => Some(cells.len()),
        Some(Store::Events(cells)) => Some(cells.len()),
        None => None,
    }
}

/// Whether the coarray is there.
pub fn is_there(stores: &Vec<Store>, coarray: u32) -> bool
    ensures { result ≡ is_some (size_in (stored_at stores.now.items coarray)) }
{
    size_of(stores, coarray).is_some()
}

/// Whether the event variable is there.
pub fn has_event(stores: &Vec<Store>, span: &Span) -> bool
    ensures { result ≡ is_some (event_in (stored_at stores.now.items span.now.coarray) span.now.start) }
{
    match stores.get(span.coarray as usize) {
        Some(Store::Events(cells)) => cells.get(span.start as usize).is_some(),
        Some(Store::Absent) => false,
        Some(Store::Values(_)) => false,
        Some(Store::Locks(_)) => false,
        None => false,
    }
}

// How many cells there are.
fn cells_of(store: &Store) -> u64
    ensures { result ≡ rules.or_zero (size_in (store_of store.now)) }
{
    match store {
        Store::Absent => 0,
        Store::Values(cells) => cells.len() as u64,
        Store::Locks(cells) => cells.len() as u64,
        Store::Events(cells) => cells.len() as u64,
    }
}

/// Whether so many cells more are within an image's limit.
pub fn has_place(stores: &[Store], cells: u32) -> bool
    ensures { result ≡ nat_le (total_of stores.now + cells) 65536 }
{
    let mut left = u64::from(COARRAY_CELLS);
    for store in stores {
        let size = cells_of(store);
        if size > left {
            return false;
        }
        left -= size;
    }
    u64::from(cells) <= left
}

/// Whether another image than this one holds the lock variable, where it is there.
pub fn is_locked(stores: &Vec<Store>, span: &Span, image: ImageNo, ask: &Ask) -> bool
    ensures { result ≡ lock_waits (lock_in (stored_at stores.now.items span.now.coarray) span.now.start) image.0 ask.now }
{
    match stores.get(span.coarray as usize) {
        Some(Store::Locks(cells)) => match cells.get(span.start as usize) {
            Some(cell) => !cell.ready(image, ask, false),
            None => false,
        },
        Some(Store::Absent) => false,
        Some(Store::Values(_)) => false,
        Some(Store::Events(_)) => false,
        None => false,
    }
}

/// Whether the event variable is there and the ask of it can come.
pub fn event_can_come(stores: &Vec<Store>, span: &Span, ask: &Ask) -> bool
    ensures { result ≡ can_wait (event_in (stored_at stores.now.items span.now.coarray) span.now.start) ask.now }
{
    match stores.get(span.coarray as usize) {
        Some(Store::Events(cells)) => match cells.get(span.start as usize) {
            Some(cell) => cell.ready(ask),
            None => false,
        },
        Some(Store::Absent) => false,
        Some(Store::Values(_)) => false,
        Some(Store::Locks(_)) => false,
        None => false,
    }
}

/// The reply of a lock variable; absent where it isn't there.
pub fn lock_reply(stores: &Vec<Store>, span: &Span, image: ImageNo, ask: &Ask) -> Reply
    requires { IsLockAsk ask.now }
    ensures { result ≡ lock_told (lock_in (stored_at stores.now.items span.now.coarray) span.now.start) image.0 ask.now }
{
    match stores.get(span.coarray as usize) {
        Some(Store::Locks(cells)) => match cells.get(span.start as usize) {
            Some(cell) => cell.reply(image, ask, false),
            None => Reply::Absent,
        },
        Some(Store::Absent) => Reply::Absent,
        Some(Store::Values(_)) => Reply::Absent,
        Some(Store::Events(_)) => Reply::Absent,
        None => Reply::Absent,
    }
}

/// The reply of an event variable; absent where it isn't there.
pub fn event_reply(stores: &Vec<Store>, span: &Span, ask: &Ask) -> Reply
    requires { IsEventAsk ask.now }
    ensures { result ≡ event_told (event_in (stored_at stores.now.items span.now.coarray) span.now.start) ask.now }
{
    match stores.get(span.coarray as usize) {
        Some(Store::Events(cells)) => match cells.get(span.start as usize) {
            Some(cell) => cell.reply(ask, false),
            None => Reply::Absent,
        },
        Some(Store::Absent) => Reply::Absent,
        Some(Store::Values(_)) => Reply::Absent,
        Some(Store::Locks(_)) => Reply::Absent,
        None => Reply::Absent,
    }
}

/// The value of a cell, where it is there.
pub fn value_of(stores: &Vec<Store>, coarray: u32, offset: u32) -> Option<Value>
    ensures { result ≡ value_in (stored_at stores.now.items coarray) offset }
{
    match stores.get(coarray as usize) {
        Some(Store::Values(cells)) => cells.get(offset as usize).copied(),
        Some(Store::Absent) => None,
        Some(Store::Locks(_)) => None,
        Some(Store::Events(_)) => None,
        None => None,
    }
}

/// The reply of a cell to an atomic action; absent where it isn't there.
pub fn value_reply(stores: &Vec<Store>, span: &Span, op: AtomicOp, x: Value, y: Value) -> Reply
    ensures { result ≡ rules.atomic_reply op x y (value_in (stored_at stores.now.items span.now.coarray) span.now.start) }
{
    match value_of(stores, span.coarray, span.start) {
        None => Reply::Absent,
        Some(now) => match atomic_reply(op, now, x, y) {
            Ok(_) => Reply::Old { value: now },
            Err(_) => Reply::Overflow,
        },
    }
}

// The values at these offsets. One takes no memory.
fn read_cells(alloc: Global, cells: &[Value], offsets: &[usize]) -> Result<Few<Value>, NoMemory>
    ensures { IfOk result (λ l. l ≡ values_told cells.now offsets.now) }
{
    match offsets {
        [offset] => Ok(Few::of_one(value_at(cells, *offset))),
        _ => list_cells(alloc, cells, offsets),
    }
}

// The same, in a list.
fn list_cells(alloc: Global, cells: &[Value], offsets: &[usize]) -> Result<Few<Value>, NoMemory>
    ensures { IfOk result (λ l. l ≡ values_told cells.now offsets.now) }
{
    let mut values = Vec::new(alloc);
    for offset in offsets {
        values.push(value_at(cells, *offset))?;
    }
    Ok(Few::from_vec(values))
}

// The value of a cell, 0 where it isn't there.
fn value_at(cells: &[Value], offset: usize) -> Value
    ensures { result ≡ slice_index_or cells.now offset (values.Int (pos 0)) }
{
    if offset < cells.len() {
        cells[offset]
    } else {
        Value::Int(0)
    }
}

/// The reply to a read of cells, absent where one isn't there.
pub fn read_reply(
    alloc: Global,
    stores: &Vec<Store>,
    span: &Span,
    cells: &Option<Few<usize>>,
) -> Result<Reply, NoMemory>
    ensures { IfOk result (λ r. r ≡ read_told (stored_at stores.now.items span.now.coarray) cells.now) }
{
    let Some(offsets) = cells else {
        return Ok(Reply::Absent);
    };
    match stores.get(span.coarray as usize) {
        Some(Store::Values(values)) => Ok(Reply::Values {
            values: read_cells(alloc, values.as_slice(), offsets.as_slice())?,
        }),
        Some(Store::Absent) => Ok(Reply::Values {
            values: Few::new(alloc),
        }),
        Some(Store::Locks(_)) => Ok(Reply::Values {
            values: Few::new(alloc),
        }),
        Some(Store::Events(_)) => Ok(Reply::Values {
            values: Few::new(alloc),
        }),
        None => Ok(Reply::Values {
            values: Few::new(alloc),
        }),
    }
}

// Acts on a lock variable, where it is there. It takes no memory.
fn act_on_lock(store: &mut Store, offset: u32, image: ImageNo, ask: &Ask, marked: bool)
    ensures { store_of store.new ≡ lock_done (store_of store.old) offset image.0 ask.now marked }
{
    if let Store::Locks(cells) = store {
        if (offset as usize) < cells.len() {
            cells[offset as usize].act(image, ask, marked);
        }
    }
}

// Acts on an event variable, where it is there. It takes no memory.
fn act_on_event(store: &mut Store, offset: u32, ask: &Ask, marked: bool)
    requires { event_few (event_in (store_of store.old) offset) ask.now }
    ensures { store_of store.new ≡ event_done (store_of store.old) offset ask.now marked }
{
    if let Store::Events(cells) = store {
        if (offset as usize) < cells.len() {
            cells[offset as usize].act(ask, marked);
        }
    }
}

// Acts on a value, where it is there. It takes no memory.
fn act_on_value(store: &mut Store, offset: u32, op: AtomicOp, x: Value, y: Value)
    ensures { store_of store.new ≡ value_done (store_of store.old) offset op x y }
{
    if let Store::Values(cells) = store {
        if (offset as usize) < cells.len() {
            if let Ok(value) = atomic_reply(op, cells[offset as usize], x, y) {
                cells[offset as usize] = value;
            }
        }
    }
}

// Writes values at offsets. It takes no memory.
fn write_section(store: &mut Store, offsets: &[usize], values: &[Value])
    requires { FitsStore (store_of store.old) offsets.now values.now }
    ensures { store_of store.new ≡ written_done (store_of store.old) offsets.now values.now }
{
    if let Store::Values(cells) = store {
        write_cells(cells, offsets, values);
    }
}

/// Changes the stores as an ask says, with what was prepared for it. It takes no memory.
pub fn act(stores: &mut Vec<Store>, image: ImageNo, ask: &Ask, marked: bool, prepared: Prepared)
    requires { CanAct (stored_at stores.old.items) (length stores.old.items) ask.now marked (plan_of prepared) }
    ensures length { length stores.new.items ≡ length stores.old.items }
    ensures done { (c : ℕ) → stored_at stores.new.items c ≡ done_at marked image.0 ask.now (plan_of prepared) c (stored_at stores.old.items c) }
{
    let Prepared { cells, fresh } = prepared;
    match ask {
        Ask::Create { coarray, .. } => {
            stores[*coarray as usize] = fresh;
        }
        Ask::Delete { coarray, .. } => {
            stores[*coarray as usize] = Store::Absent;
        }
        Ask::Write { span, values, .. } => {
            if !marked {
                if let Some(offsets) = cells {
                    write_section(
                        &mut stores[span.coarray as usize],
                        offsets.as_slice(),
                        values.as_slice(),
                    );
                }
            }
        }
        Ask::Atomic { op, span, x, y, .. } => {
            if !marked {
                act_on_value(&mut stores[span.coarray as usize], span.start, *op, *x, *y);
            }
        }
        Ask::Lock { span, .. } => act_on_lock(
            &mut stores[span.coarray as usize],
            span.start,
            image,
            ask,
            marked,
        ),
        Ask::TryLock { span, .. } => act_on_lock(
            &mut stores[span.coarray as usize],
            span.start,
            image,
            ask,
            marked,
        ),
        Ask::Unlock { span, .. } => act_on_lock(
            &mut stores[span.coarray as usize],
            span.start,
            image,
            ask,
            marked,
        ),
        Ask::Free { span, .. } => act_on_lock(
            &mut stores[span.coarray as usize],
            span.start,
            image,
            ask,
            marked,
        ),
        Ask::Post { span, .. } => act_on_event(
            &mut stores[span.coarray as usize],
            span.start,
            ask,
            marked,
        ),
        Ask::Wait { span, .. } => act_on_event(
            &mut stores[span.coarray as usize],
            span.start,
            ask,
            marked,
        ),
        _ => {}
    }
}
