//! What moves at the gates of a run, counted, and the workers that rest until something does. No clause speaks of it:
//! who asks later than it could is only refused or served later.

ghost use Rattle.std.specs.Prelude.{◌<◌, ◌^◌};

use caf_base::place::Place;
use caf_base::refusal::NoMemory;
use caf_base::value::AtomicOp;
use caf_events::ask::Ask;
use std::alloc::Global;
use std::sync::Wait;
use std::sync::atomic::{AtomicU64, Ordering};
use std::time::Duration;
use turn_gate::turn::Turn;

/// The counts of two objects lie so many words apart that no line of a cache has both.
const STRIDE: usize = 8;

/// The low half of a word.
const LOW: u64 = 0xffff_ffff;

/// What a step at an object does to the asks of other images there.
#[derive(Clone, Copy)]
pub enum Stir {
    /// Nothing.
    Still,
    /// What only looks may find something else.
    Changes,
    /// One that was refused may come.
    Frees,
}

/// What a step of this ask does to those of others. It may say more than is so.
pub fn stir_of(ask: &Ask) -> Stir {
    match ask {
        Ask::Read { .. }
        | Ask::Atomic {
            op: AtomicOp::Ref,
            ..
        }
        | Ask::TryLock { .. }
        | Ask::Query { .. }
        | Ask::Leave { .. }
        | Ask::Take { .. }
        | Ask::Unpair
        | Ask::Failed { .. }
        | Ask::Stopped { .. }
        | Ask::Status { .. } => Stir::Still,
        Ask::Write { .. }
        | Ask::Atomic { .. }
        | Ask::Lock { .. }
        | Ask::Wait { .. }
        | Ask::Enter { .. } => Stir::Changes,
        _ => Stir::Frees,
    }
}

// Where the count of a place stands, if it has one: the board's, and then that of each memory.
fn place_of_count(place: Place) -> Option<usize> {
    match place {
        Place::Board => Some(0),
        Place::Memory(owner) => Some(owner.0 as usize * STRIDE),
        Place::Own => None,
    }
}

// A count for the board, and one for each of so many memories.
fn counts(alloc: Global, memories: usize) -> Result<Vec<AtomicU64>, NoMemory>
    requires { memories < 2 ^ 31 }
{
    let mut counts = Vec::new(alloc);
    for _ in 0..(memories + 1) * STRIDE {
        counts.push(AtomicU64::new(0))?;
    }
    Ok(counts)
}

// The count of a place among these; 0 where it has none.
fn read_at(counts: &Vec<AtomicU64>, place: Place) -> u64 {
    let Some(at) = place_of_count(place) else {
        return 0;
    };
    match counts.get(at) {
        Some(count) => count.load(Ordering::SeqCst),
        None => 0,
    }
}

// One more for a place.
fn add_at(counts: &Vec<AtomicU64>, place: Place) {
    let Some(at) = place_of_count(place) else {
        return;
    };
    if let Some(count) = counts.get(at) {
        count.fetch_add(1, Ordering::SeqCst);
    }
}

/// Counts of what moved at each object, and of the workers that rest.
#[derive(Drop)]
pub struct News {
    freed: Vec<AtomicU64>,
    changed: Vec<AtomicU64>,
    /// How many images of workers that rest were refused at each place.
    waiting: Vec<AtomicU64>,
    /// How many workers rest, or are about to.
    resting: AtomicU64,
    /// How often resting workers were woken.
    rings: AtomicU64,
    /// The number of a ring, and how many workers had no news since.
    sure: AtomicU64,
    started: AtomicU64,
    ended: AtomicU64,
    /// How many workers nap since their images only look.
    looking: AtomicU64,
    over: AtomicU64,
}

impl News {
    /// Of a board and so many memories, at none of which a step was made.
    pub(crate) fn new(alloc: Global, memories: usize) -> Result<News, NoMemory>
        requires { memories < 2 ^ 31 }
    {
        let freed = counts(alloc, memories)?;
        let changed = counts(alloc, memories)?;
        let waiting = counts(alloc, memories)?;
        Ok(News {
            freed,
            changed,
            waiting,
            resting: AtomicU64::new(0),
            rings: AtomicU64::new(0),
            sure: AtomicU64::new(0),
            started: AtomicU64::new(0),
            ended: AtomicU64::new(0),
            looking: AtomicU64::new(0),
            over: AtomicU64::new(0),
        })
    }

    /// How many steps were made at this place by which a refused ask may come.
    pub fn freed(&self, place: Place) -> u64 {
        read_at(&self.freed, place)
    }

    /// How many were by which an ask that only looks may find something else.
    pub fn changed(&self, place: Place) -> u64 {
        read_at(&self.changed, place)
    }

    /// Counts the step of a turn at this place, if it made one, whose ask stirs so.
    pub(crate) fn told(&self, turn: &Turn, place: Place, stir: Stir) {
        if let Turn::Done(_) = turn {
            self.stirs(place, stir);
        }
    }

    // Counts a step that stirs so. One that frees wakes the workers that rest, if one of their images waits there.
    fn stirs(&self, place: Place, stir: Stir) {
        match stir {
            Stir::Still => {}
            Stir::Changes => add_at(&self.changed, place),
            Stir::Frees => {
                add_at(&self.changed, place);
                add_at(&self.freed, place);
                if read_at(&self.waiting, place) != 0 {
                    self.wake();
                }
            }
        }
    }

    // Wakes the workers that rest.
    fn wake(&self) {
        self.rings.fetch_add(1, Ordering::SeqCst);
        self.rings.wake_all();
    }

    /// Wakes the workers that rest, if some do.
    pub fn ring(&self) {
        if self.resting.load(Ordering::SeqCst) != 0 {
            self.wake();
        }
    }

    /// An image of a worker that is about to rest was refused at this place: from here on each step that frees an ask
    /// there wakes it.
    pub fn waits(&self, place: Place) {
        add_at(&self.waiting, place);
    }

    /// It doesn't rest any more.
    pub fn waits_no_more(&self, place: Place) {
        if let Some(at) = place_of_count(place) {
            if let Some(count) = self.waiting.get(at) {
                count.fetch_sub(1, Ordering::SeqCst);
            }
        }
    }

    /// A worker starts.
    pub fn start(&self) {
        self.started.fetch_add(1, Ordering::SeqCst);
    }

    /// A worker has come to its end.
    pub fn end(&self) {
        self.ended.fetch_add(1, Ordering::SeqCst);
        self.ring();
    }

    /// Whether so many workers have started.
    pub fn have_started(&self, workers: usize) -> bool {
        self.started.load(Ordering::SeqCst) >= workers as u64
    }

    /// A worker is about to rest, and has told where its images wait. Gives the number of the last ring. Then it looks
    /// at its counts again, and calls `rises` in the end.
    pub fn lies_down(&self) -> u64 {
        self.resting.fetch_add(1, Ordering::SeqCst);
        self.rings.load(Ordering::SeqCst)
    }

    /// It doesn't rest any more.
    pub fn rises(&self) {
        self.resting.fetch_sub(1, Ordering::SeqCst);
    }

    /// A worker that lay down at this ring had no news when it looked again. Gives whether it is the last one that
    /// had none, so that nothing will move any more; None where that can't be told now, since another worker tells
    /// the same, or has told it of a later ring, which must not be told over.
    pub fn is_last(&self, ring: u64) -> Option<bool> {
        let before = self.sure.load(Ordering::SeqCst);
        let told = before >> 32;
        if told > ring & LOW {
            return None;
        }
        let others = if told == ring & LOW { before & LOW } else { 0 };
        let after = ((ring & LOW) << 32) | ((others + 1) & LOW);
        if self
            .sure
            .compare_exchange(before, after, Ordering::SeqCst, Ordering::SeqCst)
            .is_err()
        {
            return None;
        }
        let through = self.ended.load(Ordering::SeqCst).saturating_add(others + 1);
        let all = through >= self.started.load(Ordering::SeqCst);
        Some(all && self.rings.load(Ordering::SeqCst) == ring)
    }

    /// Sleeps until the next ring after this one.
    pub fn sleep<R: Wait>(&self, rt: &R, ring: u64) {
        for _ in rt.forever() {
            if self.rings.load(Ordering::SeqCst) != ring {
                break;
            }
            self.rings.park(rt, (ring & LOW) as u32);
        }
    }

    /// Sleeps so many microseconds, or until the run is over for all workers.
    pub fn nap<R: Wait>(&self, rt: &R, micros: u64) {
        self.over.park_timeout(rt, 0, Duration::from_micros(micros));
    }

    /// Sleeps so many microseconds, as the images of this worker only look at what doesn't change; not where those of
    /// no other worker could change it.
    pub fn nap_looking<R: Wait>(&self, rt: &R, micros: u64) {
        let looking = self.looking.fetch_add(1, Ordering::SeqCst);
        let idle = looking
            .saturating_add(1)
            .saturating_add(self.resting.load(Ordering::SeqCst))
            .saturating_add(self.ended.load(Ordering::SeqCst));
        if idle < self.started.load(Ordering::SeqCst) {
            self.nap(rt, micros);
        }
        self.looking.fetch_sub(1, Ordering::SeqCst);
    }

    /// The run is over for all workers.
    pub fn finish(&self) {
        self.over.store(1, Ordering::SeqCst);
        self.over.wake_all();
        self.ring();
    }

    /// Whether it is.
    pub fn is_over(&self) -> bool {
        self.over.load(Ordering::SeqCst) != 0
    }
}
