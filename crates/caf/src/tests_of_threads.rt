//! Runs on workers, through the top call: that images run at once and that each memory has a gate of its own, which no
//! contract says. Rows on workers that end alike in every order are run on the built program (tools/answers.cases).
//! A hook waits for what another worker does at most so long; what didn't come in that time is a miss. Each test asks
//! too that every moment of both memories came, from two workers: a run by rotation alone, and gates that never call
//! the hook, fail it.

ghost use Rattle.std.specs.Prelude.{◌≤◌};

use crate::tests::{WHOLE, source_of, words_of};
use caf_base::hook::{Hook, HookStep};
use caf_base::place::Place;
use caf_io::mem_sink::MemSink;
use caf_run::top::caf;
use crossbeam_utils::Backoff;
use std::alloc::Global;
use std::process::Abort;
use std::sync::Wait;
use std::sync::atomic::{AtomicU64, Ordering};
use std::thread::Threads;

/// How often a hook looks at most for what it waits for.
const LOOKS: u32 = 2_000_000;

/// In each of eight segments one of four images computes some 20 ms, and the others wait for it.
const COMPUTERS: &[u8] =
    b"integer :: i, k, s, x[*]\ndo k = 1, 8\ns = 0\nif (mod(k, 4) + 1 == this_image()) then\ndo i = 1, 100000\ns = mod(s + i, 1000)\nend do\nend if\nx = s\nsync all\nend do\nend\n";

/// Each of two images defines its own coarray.
const WRITERS: &[u8] = b"integer :: x[*]\nx = this_image()\nsync all\nprint *, x\nend\n";

// Whether a word comes to hold another number than 0 and this one.
fn comes(word: &AtomicU64, mine: u64) -> bool {
    let backoff = Backoff::new();
    for _ in 0..LOOKS {
        let seen = word.load(Ordering::SeqCst);
        if seen != 0 && seen != mine {
            return true;
        }
        backoff.snooze();
    }
    false
}

// Notes a miss where what was waited for hasn't come.
fn note(missed: &AtomicU64, came: bool) {
    if !came {
        missed.store(1, Ordering::SeqCst);
    }
}

/// Which worker, counted from 1, came first to each moment of the turns at one memory; 0 where none came.
#[derive(Drop)]
struct Moments {
    before: AtomicU64,
    holding: AtomicU64,
    after: AtomicU64,
}

impl Moments {
    fn new() -> Moments {
        Moments {
            before: AtomicU64::new(0),
            holding: AtomicU64::new(0),
            after: AtomicU64::new(0),
        }
    }

    fn note(&self, worker: u32, step: HookStep) {
        let word = match step {
            HookStep::Before => &self.before,
            HookStep::Holding => &self.holding,
            HookStep::After => &self.after,
        };
        if word.load(Ordering::SeqCst) == 0 {
            word.store(u64::from(worker) + 1, Ordering::SeqCst);
        }
    }

    fn have_come(&self) -> bool {
        self.before.load(Ordering::SeqCst) != 0
            && self.holding.load(Ordering::SeqCst) != 0
            && self.after.load(Ordering::SeqCst) != 0
    }
}

/// The moments of the turns at the memories of images 1 and 2. A run whose images don't run on workers has none.
#[derive(Drop)]
struct Turns {
    first: Moments,
    second: Moments,
}

impl Turns {
    fn new() -> Turns {
        Turns {
            first: Moments::new(),
            second: Moments::new(),
        }
    }

    fn note(&self, worker: u32, owner: u32, step: HookStep) {
        match owner {
            1 => self.first.note(worker, step),
            2 => self.second.note(worker, step),
            _ => {}
        }
    }

    // Whether each moment of both memories came, and the first turns at the two were those of two workers.
    fn are_of_two_workers(&self) -> bool {
        let first = self.first.before.load(Ordering::SeqCst);
        let second = self.second.before.load(Ordering::SeqCst);
        self.first.have_come() && self.second.have_come() && first != second
    }
}

/// Ahead of each turn at the memory of image 1 or 2 it waits until another worker is ahead of one at the other's.
#[derive(Drop)]
struct Meeting {
    /// The worker that came to the memory of image 1, counted from 1.
    first: AtomicU64,
    second: AtomicU64,
    missed: AtomicU64,
    turns: Turns,
}

impl Hook for Meeting {
    /// Waits ahead of a turn at one of the two memories.
    fn at(&self, worker: u32, place: Place, step: HookStep) {
        let Place::Memory(owner) = place else {
            return;
        };
        self.turns.note(worker, owner.0, step);
        let HookStep::Before = step else {
            return;
        };
        let mine = u64::from(worker) + 1;
        match owner.0 {
            1 => {
                self.first.store(mine, Ordering::SeqCst);
                note(&self.missed, comes(&self.second, mine));
            }
            2 => {
                self.second.store(mine, Ordering::SeqCst);
                note(&self.missed, comes(&self.first, mine));
            }
            _ => {}
        }
    }
}

/// Whoever has the memory of image 1 in hand waits until a turn at that of image 2 is over, and that turn until the
/// other has it in hand.
#[derive(Drop)]
struct Crossing {
    held: AtomicU64,
    passed: AtomicU64,
    missed: AtomicU64,
    turns: Turns,
}

impl Hook for Crossing {
    /// Waits ahead of a turn at the second memory, and within one at the first.
    fn at(&self, worker: u32, place: Place, step: HookStep) {
        let Place::Memory(owner) = place else {
            return;
        };
        self.turns.note(worker, owner.0, step);
        match step {
            HookStep::Before if owner.0 == 2 => note(&self.missed, comes(&self.held, 0)),
            HookStep::Holding if owner.0 == 1 => {
                self.held.store(1, Ordering::SeqCst);
                note(&self.missed, comes(&self.passed, 0));
            }
            HookStep::After if owner.0 == 2 => self.passed.store(1, Ordering::SeqCst),
            HookStep::Before | HookStep::Holding | HookStep::After => {}
        }
    }
}

/// It counts the turns of each worker at the memories.
#[derive(Drop)]
struct Counting {
    turns: Vec<AtomicU64>,
}

impl Hook for Counting {
    /// Counts a turn at a memory once it is over.
    fn at(&self, worker: u32, place: Place, step: HookStep) {
        if let (Place::Memory(_), HookStep::After) = (place, step) {
            if let Some(turns) = self.turns.get(worker as usize) {
                turns.fetch_add(1, Ordering::SeqCst);
            }
        }
    }
}

// The two writers on two workers, with this hook, end as in every order.
fn writes<R: Abort + Threads + Wait + Sync, H: Hook + Sync>(rt: &R, alloc: Global, hook: &H) {
    let words = words_of(rt, alloc, &["run", "-n", "2", "-w", "2", "a.f90"]);
    let mut source = source_of(rt, alloc, WRITERS, WHOLE);
    let mut sink = MemSink::new(alloc, Vec::new(alloc), 4096, 4096).expect(rt, "memory");
    let done = caf(rt, alloc, &words, &mut source, &mut sink, hook);
    assert!(rt;
        sink.bytes() == b"1: 1\n2: 2\n".as_slice(),
        "each image prints its own"
    );
    assert!(rt; done.status == 0, "and both end");
    drop(done);
}

#[test]
fn writes_of_two_images_overlap(rt: HostRuntime) {
    let hook = Meeting {
        first: AtomicU64::new(0),
        second: AtomicU64::new(0),
        missed: AtomicU64::new(0),
        turns: Turns::new(),
    };
    writes(&rt, rt.alloc(), &hook);
    assert!(&rt; hook.missed.load(Ordering::SeqCst) == 0, "no miss");
    assert!(&rt;
        hook.turns.are_of_two_workers(),
        "turns of two workers came"
    );
}

#[test]
fn no_lock_round_both_memories(rt: HostRuntime) {
    let hook = Crossing {
        held: AtomicU64::new(0),
        passed: AtomicU64::new(0),
        missed: AtomicU64::new(0),
        turns: Turns::new(),
    };
    writes(&rt, rt.alloc(), &hook);
    assert!(&rt; hook.missed.load(Ordering::SeqCst) == 0, "no miss");
    assert!(&rt;
        hook.turns.are_of_two_workers(),
        "turns of two workers came"
    );
}

// A worker that waits 20 ms for another one keeps its image: each defines its coarray in all eight segments, which
// takes a turn that is never refused.
#[test]
fn workers_outlast_long_waits(rt: HostRuntime) {
    let alloc = rt.alloc();
    let mut turns = Vec::with_capacity(alloc, 4).expect(&rt, "memory");
    for _ in 0..4 {
        turns.push(AtomicU64::new(0)).expect(&rt, "memory");
    }
    let hook = Counting { turns };
    let words = words_of(&rt, alloc, &["run", "-n", "4", "-w", "4", "a.f90"]);
    let mut source = source_of(&rt, alloc, COMPUTERS, WHOLE);
    let mut sink = MemSink::new(alloc, Vec::new(alloc), 4096, 4096).expect(&rt, "memory");
    let done = caf(&rt, alloc, &words, &mut source, &mut sink, &hook);
    assert!(&rt; done.status == 0, "the run ends");
    for worker in 0..4usize {
        if let Some(turns) = hook.turns.get(worker) {
            assert!(&rt;
                turns.load(Ordering::SeqCst) == 8,
                "each worker has its image to the end"
            );
        }
    }
    drop(done);
}
