//! The memory of an image: cells that are overwritten, with a history, for proofs, that says what they hold (ISO/IEC
//! 1539-1:2018, 5.4.8, 16.5, 19.6.5).

ghost use Rattle.std.specs.Prelude.{◌≡◌, ◌||◌, [], map, IfOk};
ghost use Rattle.object_rules.specs.Cells.{size_after, value_after, is_mark};
ghost use Rattle.object_rules.specs.MemoryRules.{value_there};
ghost use Rattle.coarray_memory.specs.Memories.{stored_at, fits_now, comes_now, reply_now, store_of, declared_of, first_of, AreDeclared};

use crate::coarray::{Coarray, Declarations};
use crate::inert::is_inert;
use crate::prepare::{Prepared, dead_reply_of, first_cells, reply_of, section_of};
use crate::store::{
    Store, act, event_can_come, has_event, has_place, is_locked, is_there, size_of, value_of,
};
use caf_base::few::Few;
use caf_base::place::ImageNo;
use caf_base::refusal::NoMemory;
use caf_base::value::Value;
use caf_events::ask::Ask;
use caf_events::event::Event;
use caf_events::exchange::Exchange;
use caf_events::history::History;
use caf_events::object::Object;
use caf_events::reply::Reply;
use inert_steps::inert::Inert;
use std::alloc::Global;
use std::marker::Model;
use std::mem;

/// The memory of an image. In a contract it is what it was made with, its history, and what is prepared.
#[derive(Drop)]
pub struct Memory {
    declared: Declarations,
    stores: Vec<Store>,
    marked: bool,
    prepared: Prepared,
    history: History,
}

impl Model for Memory {
    ghost use Rattle.coarray_memory.specs.Memories.{MemoryState, IsMemory, plan_of};

    ghost Value = { MemoryState };

    ghost view = { λ m. record { made = m.declared; history = m.history; plan = plan_of m.prepared } };

    ghost invariant = { λ m. IsMemory m.declared m.history m.stores.items m.marked };
}

// Whether the ask fits, by what is there.
fn fits(declared: &Declarations, stores: &Vec<Store>, image: ImageNo, ask: &Ask) -> bool
    ensures { result ≡ fits_now declared.now (stored_at stores.now.items) stores.now.items image.0 ask.now }
{
    match ask {
        Ask::Create {
            owner,
            coarray,
            cells,
        } => {
            declared.is_own(image, *owner)
                && declared.is_allocatable(*coarray)
                && !is_there(stores, *coarray)
                && has_place(stores.as_slice(), *cells)
        }
        Ask::Delete { owner, coarray } => {
            declared.is_own(image, *owner)
                && declared.is_allocatable(*coarray)
                && is_there(stores, *coarray)
        }
        Ask::Wait {
            owner,
            span,
            threshold,
        } => {
            declared.is_own(image, *owner)
                && declared.is_event(span)
                && has_event(stores, span)
                && *threshold >= 1
        }
        Ask::Query { owner, span } => declared.is_own(image, *owner)
            && declared.is_event(span)
            && has_event(stores, span),
        _ => declared.fits(image, ask),
    }
}

// Whether an ask that fits can come now.
fn can_come(stores: &Vec<Store>, marked: bool, image: ImageNo, ask: &Ask) -> bool
    ensures { result ≡ comes_now (stored_at stores.now.items) marked image.0 ask.now }
{
    match ask {
        Ask::Lock { span, .. } => marked || !is_locked(stores, span, image, ask),
        Ask::Wait { span, .. } => event_can_come(stores, span, ask),
        _ => true,
    }
}

// The reply that stands now.
fn reply(
    alloc: Global,
    stores: &Vec<Store>,
    marked: bool,
    image: ImageNo,
    ask: &Ask,
    cells: &Option<Few<usize>>,
) -> Result<Reply, NoMemory>
    ensures { IfOk result (λ r. r ≡ reply_now marked (stored_at stores.now.items) image.0 ask.now cells.now) }
{
    if marked {
        if let Some(dead) = dead_reply_of(ask) {
            return Ok(dead);
        }
    }
    reply_of(alloc, stores, image, ask, cells)
}

// Whether the ask marks the memory.
fn marks(ask: &Ask) -> bool
    ensures { result ≡ is_mark ask.now }
{
    match ask {
        Ask::Mark { .. } => true,
        _ => false,
    }
}

// Whether the memory is marked after an ask.
fn is_marked_by(marked: bool, ask: &Ask) -> bool
    ensures { result ≡ (marked || is_mark ask.now) }
{
    marked || marks(ask)
}

impl Object for Memory {
    ghost use Rattle.object_rules.specs.Cells.{MadeMemory};
    ghost use Rattle.object_rules.specs.MemoryRules.{memory_ready, memory_reply};
    ghost use Rattle.coarray_memory.specs.Memories.{MemoryState, HasRoom};

    ghost Made = { MadeMemory };

    ghost made = { λ m. m.made };

    ghost history = { λ m. m.history };

    ghost has_room = { λ m image ask. HasRoom m ask };

    ghost ready_after = { λ m h image ask. memory_ready m h image ask };

    ghost reply_after = { λ m h image ask. memory_reply m h image ask };

    fn ready(&self, image: ImageNo, ask: &Ask) -> bool {
        fits(&self.declared, &self.stores, image, ask)
            && can_come(&self.stores, self.marked, image, ask)
    }

    fn last_stamp(&self) -> u64 {
        self.history.last_stamp()
    }

    fn reserve(&mut self, image: ImageNo, ask: &Ask) -> Result<Exchange, NoMemory> {
        let alloc = *self.stores.allocator();
        let cells = section_of(alloc, &self.stores, ask)?;
        let fresh = self.declared.fresh_for(alloc, ask)?;
        let due = reply(alloc, &self.stores, self.marked, image, ask, &cells)?;
        let told = Exchange::with_reply(alloc, ask, due)?;
        self.prepared = Prepared { cells, fresh };
        Ok(told)
    }

    fn apply(&mut self, image: ImageNo, ask: Ask, told: Exchange, line: u32, after: u64) -> Event {
        let nothing = Prepared {
            cells: None,
            fresh: Store::Absent,
        };
        let prepared = mem::replace(&mut self.prepared, nothing);
        act(&mut self.stores, image, &ask, self.marked, prepared);
        self.marked = is_marked_by(self.marked, &ask);
        drop(ask);
        self.history.append(image, told, line, after)
    }
}

impl Inert for Memory {
    fn is_inert(&self, image: ImageNo, event: &Event) -> bool {
        let _ = image;
        is_inert(event.told())
    }
}

// The stores at the start of a run.
fn first_stores(alloc: Global, coarrays: &Vec<Coarray>) -> Result<Vec<Store>, NoMemory>
    ensures { IfOk result (λ v. map store_of v.items ≡ map first_of coarrays.now.items) }
{
    let mut stores = Vec::new(alloc);
    for coarray in coarrays.iter() {
        stores.push(first_cells(alloc, coarray)?)?;
    }
    Ok(stores)
}

impl Memory {
    /// The memory at the start of a run: the static coarrays are there with their first values, and no step was made.
    pub fn new(alloc: Global, owner: ImageNo, coarrays: Vec<Coarray>) -> Result<Memory, NoMemory>
        requires { AreDeclared (map declared_of coarrays.items) }
        ensures made { IfOk result (λ m. m.made ≡ record { owner = owner; coarrays = map declared_of coarrays.items }) }
        ensures history { IfOk result (λ m. m.history ≡ []) }
    {
        let stores = first_stores(alloc, &coarrays)?;
        Ok(Memory {
            declared: Declarations { owner, coarrays },
            stores,
            marked: false,
            prepared: Prepared {
                cells: None,
                fresh: Store::Absent,
            },
            history: History::new(),
        })
    }

    /// How many cells a coarray has; None where it isn't there.
    pub fn size(&self, coarray: u32) -> Option<usize>
        ensures { result ≡ size_after self.now.made self.now.history coarray }
    {
        size_of(&self.stores, coarray)
    }

    /// The value of a cell; None where there is no such cell or it is a lock or an event.
    pub fn value(&self, coarray: u32, offset: u32) -> Option<Value>
        ensures { result ≡ value_there self.now.made self.now.history coarray offset }
    {
        value_of(&self.stores, coarray, offset)
    }
}
