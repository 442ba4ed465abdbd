//! Who posted which event last, and which coarrays were posted to or made, while the entries of a trace are read.

ghost use Rattle.std.specs.Prelude.{◌≡◌, ◌<◌, ◌&&◌, ℕ, true, false, [], length, get_or, nat_eq, cond, Some, None, IfOk, MatchOption};
ghost use Rattle.decided_watch.specs.EventTables.{untouched, events_at, poster_at};

use caf_base::place::ImageNo;
use caf_base::refusal::NoMemory;
use race_watch::act::CellName;
use std::alloc::Global;
use std::marker::Model;

// What was done to the events of one coarray of one image: who posted each cell last, by its offset; where the list
// ends, no one did.
#[derive(Drop)]
struct Events {
    posters: Vec<Option<u32>>,
    is_posted: bool,
    is_made: bool,
}

impl Model for Events {
    ghost use Rattle.decided_watch.specs.EventTables as tables;

    ghost Value = { tables.Events };

    ghost view = { λ e. record { posters = e.posters.items; posted = e.is_posted; made = e.is_made } };
}

// The same of each coarray of one image, by its number.
#[derive(Drop)]
struct Owned {
    coarrays: Vec<Events>,
}

impl Model for Owned {
    ghost use Rattle.std.specs.Prelude.{List};
    ghost use Rattle.decided_watch.specs.EventTables as tables;

    ghost Value = { List tables.Events };

    ghost view = { λ o. o.coarrays.items };
}

/// The same of each image, by its number. In a contract it is the list of images, each the list of its coarrays.
#[derive(Drop)]
pub struct EventTable {
    owners: Vec<Owned>,
}

impl Model for EventTable {
    ghost use Rattle.std.specs.Prelude.{List};
    ghost use Rattle.decided_watch.specs.EventTables as tables;

    ghost Value = { List (List tables.Events) };

    ghost view = { λ t. t.owners.items };
}

// Makes the offsets up to this one.
fn reach_offset(posters: &mut Vec<Option<u32>>, offset: usize) -> Result<(), NoMemory>
    ensures far { IfOk result (λ _. offset < length posters.new.items) }
    ensures same { IfOk result (λ _. (k : ℕ) → get_or posters.new.items k None ≡ get_or posters.old.items k None) }
{
    while posters.len() <= offset {
        posters.push(None)?;
    }
    Ok(())
}

impl Events {
    fn new(alloc: Global) -> Events
        ensures { result ≡ untouched }
    {
        Events {
            posters: Vec::new(alloc),
            is_posted: false,
            is_made: false,
        }
    }

    // The image posts the event at an offset.
    fn post(&mut self, offset: u32, image: u32) -> Result<(), NoMemory>
        ensures posters { IfOk result (λ _. (k : ℕ) → get_or self.new.posters k None ≡ cond (nat_eq k offset) (Some image) (get_or self.old.posters k None)) }
        ensures posted { IfOk result (λ _. self.new.posted ≡ true) }
        ensures made { IfOk result (λ _. self.new.made ≡ self.old.made) }
    {
        reach_offset(&mut self.posters, offset as usize)?;
        self.posters[offset as usize] = Some(image);
        self.is_posted = true;
        Ok(())
    }
}

// Makes the coarrays up to this one.
fn reach_coarray(coarrays: &mut Vec<Events>, alloc: Global, coarray: usize) -> Result<(), NoMemory>
    ensures far { IfOk result (λ _. coarray < length coarrays.new.items) }
    ensures same { IfOk result (λ _. (k : ℕ) → get_or coarrays.new.items k untouched ≡ get_or coarrays.old.items k untouched) }
{
    while coarrays.len() <= coarray {
        coarrays.push(Events::new(alloc))?;
    }
    Ok(())
}

impl Owned {
    fn new(alloc: Global) -> Owned
        ensures { result ≡ [] }
    {
        Owned {
            coarrays: Vec::new(alloc),
        }
    }

    // The image posts the event at an offset of a coarray.
    fn post(&mut self, alloc: Global, coarray: u32, offset: u32, image: u32) -> Result<(), NoMemory>
        ensures posters { IfOk result (λ _. (k m : ℕ) → get_or (get_or self.new k untouched).posters m None ≡ cond (nat_eq k coarray && nat_eq m offset) (Some image) (get_or (get_or self.old k untouched).posters m None)) }
        ensures posted { IfOk result (λ _. (k : ℕ) → (get_or self.new k untouched).posted ≡ cond (nat_eq k coarray) true (get_or self.old k untouched).posted) }
        ensures made { IfOk result (λ _. (k : ℕ) → (get_or self.new k untouched).made ≡ (get_or self.old k untouched).made) }
    {
        reach_coarray(&mut self.coarrays, alloc, coarray as usize)?;
        self.coarrays[coarray as usize].post(offset, image)
    }

    // The coarray is allocated or deallocated.
    fn make(&mut self, alloc: Global, coarray: u32) -> Result<(), NoMemory>
        ensures posters { IfOk result (λ _. (k : ℕ) → (get_or self.new k untouched).posters ≡ (get_or self.old k untouched).posters) }
        ensures posted { IfOk result (λ _. (k : ℕ) → (get_or self.new k untouched).posted ≡ (get_or self.old k untouched).posted) }
        ensures made { IfOk result (λ _. (k : ℕ) → (get_or self.new k untouched).made ≡ cond (nat_eq k coarray) true (get_or self.old k untouched).made) }
    {
        reach_coarray(&mut self.coarrays, alloc, coarray as usize)?;
        self.coarrays[coarray as usize].is_made = true;
        Ok(())
    }

    // What was done to a coarray, if it or one behind it was ever touched.
    fn events(&self, coarray: u32) -> Option<&Events>
        ensures { MatchOption result (get_or self.now coarray untouched ≡ untouched) (λ e. e.now ≡ get_or self.now coarray untouched) }
    {
        self.coarrays.get(coarray as usize)
    }
}

// Makes the images up to this one.
fn reach_owner(owners: &mut Vec<Owned>, alloc: Global, owner: usize) -> Result<(), NoMemory>
    ensures far { IfOk result (λ _. owner < length owners.new.items) }
    ensures same { IfOk result (λ _. (o : ℕ) → get_or owners.new.items o [] ≡ get_or owners.old.items o []) }
{
    while owners.len() <= owner {
        owners.push(Owned::new(alloc))?;
    }
    Ok(())
}

impl EventTable {
    /// Nothing was done.
    pub fn new(alloc: Global) -> EventTable
        ensures { result ≡ [] }
    {
        EventTable {
            owners: Vec::new(alloc),
        }
    }

    /// The image posts the event.
    pub fn post(&mut self, alloc: Global, cell: CellName, image: u32) -> Result<(), NoMemory>
        ensures posters { IfOk result (λ _. (o k m : ℕ) → poster_at self.new o k m ≡ cond (nat_eq o cell.owner.0 && nat_eq k cell.coarray && nat_eq m cell.offset) (Some image) (poster_at self.old o k m)) }
        ensures posted { IfOk result (λ _. (o k : ℕ) → (events_at self.new o k).posted ≡ cond (nat_eq o cell.owner.0 && nat_eq k cell.coarray) true (events_at self.old o k).posted) }
        ensures made { IfOk result (λ _. (o k : ℕ) → (events_at self.new o k).made ≡ (events_at self.old o k).made) }
    {
        reach_owner(&mut self.owners, alloc, cell.owner.0 as usize)?;
        self.owners[cell.owner.0 as usize].post(alloc, cell.coarray, cell.offset, image)
    }

    /// The owner's coarray is allocated or deallocated.
    pub fn make(&mut self, alloc: Global, owner: ImageNo, coarray: u32) -> Result<(), NoMemory>
        ensures posters { IfOk result (λ _. (o k m : ℕ) → poster_at self.new o k m ≡ poster_at self.old o k m) }
        ensures posted { IfOk result (λ _. (o k : ℕ) → (events_at self.new o k).posted ≡ (events_at self.old o k).posted) }
        ensures made { IfOk result (λ _. (o k : ℕ) → (events_at self.new o k).made ≡ cond (nat_eq o owner.0 && nat_eq k coarray) true (events_at self.old o k).made) }
    {
        reach_owner(&mut self.owners, alloc, owner.0 as usize)?;
        self.owners[owner.0 as usize].make(alloc, coarray)
    }

    // What was done to a coarray, if anything was.
    fn events(&self, owner: ImageNo, coarray: u32) -> Option<&Events>
        ensures { MatchOption result (events_at self.now owner.0 coarray ≡ untouched) (λ e. e.now ≡ events_at self.now owner.0 coarray) }
    {
        match self.owners.get(owner.0 as usize) {
            Some(owned) => owned.events(coarray),
            None => None,
        }
    }

    /// The image that posted the event last.
    pub fn poster(&self, cell: CellName) -> Option<u32>
        ensures { result ≡ poster_at self.now cell.owner.0 cell.coarray cell.offset }
    {
        match self.events(cell.owner, cell.coarray) {
            Some(events) => match events.posters.get(cell.offset as usize) {
                Some(poster) => *poster,
                None => None,
            },
            None => None,
        }
    }

    /// Whether an event of the coarray was posted.
    pub fn is_posted(&self, owner: ImageNo, coarray: u32) -> bool
        ensures { result ≡ (events_at self.now owner.0 coarray).posted }
    {
        match self.events(owner, coarray) {
            Some(events) => events.is_posted,
            None => false,
        }
    }

    /// Whether the coarray was allocated or deallocated.
    pub fn is_made(&self, owner: ImageNo, coarray: u32) -> bool
        ensures { result ≡ (events_at self.now owner.0 coarray).made }
    {
        match self.events(owner, coarray) {
            Some(events) => events.is_made,
            None => false,
        }
    }
}
