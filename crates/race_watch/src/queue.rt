//! Queues of clocks by two numbers.

ghost use Rattle.std.specs.Prelude.{◌≡◌, ◌<◌, ◌≤◌, ◌&&◌, ℕ, List, [], ◌∷◌, ◌++◌, length, get_or, nat_eq, cond, All, take, drop, IfOk};
ghost use Rattle.race_watch.specs.Tables.{joined_all, queue_at};

use crate::shared::SharedClock;
use caf_base::refusal::NoMemory;
use segment_clock::clock::Clock;
use std::alloc::Global;
use std::marker::Model;

// A clock for each segment that waits, the first one first. In a contract it is the list of these.
#[derive(Drop)]
struct Queue {
    clocks: Vec<SharedClock>,
}

impl Model for Queue {
    ghost use Rattle.std.specs.Prelude.{ℕ, List};

    ghost Value = { List (List ℕ) };

    ghost view = { λ q. q.clocks.items };
}

// The queues of one line.
#[derive(Drop)]
struct QueueRow {
    queues: Vec<Queue>,
}

impl Model for QueueRow {
    ghost use Rattle.std.specs.Prelude.{ℕ, List};

    ghost Value = { List (List (List ℕ)) };

    ghost view = { λ r. r.queues.items };
}

/// A queue of clocks for each line and place. In a contract it is the list of lines, each the list of its queues.
#[derive(Drop)]
pub struct QueueTable {
    rows: Vec<QueueRow>,
}

impl Model for QueueTable {
    ghost use Rattle.std.specs.Prelude.{ℕ, List};

    ghost Value = { List (List (List (List ℕ))) };

    ghost view = { λ t. t.rows.items };
}

// Joins these clocks.
fn join_all(clocks: &[SharedClock], clock: &mut Clock)
    requires { All (λ c. length c ≡ length clock.old) clocks.now }
    ensures { clock.new ≡ joined_all clock.old clocks.now }
{
    for other in clocks {
        clock.join(other.clock());
    }
}

impl Queue {
    fn new(alloc: Global) -> Queue
        ensures { result ≡ [] }
    {
        Queue {
            clocks: Vec::new(alloc),
        }
    }

    // One more segment waits, with the clock of its image.
    fn put(&mut self, own: &SharedClock) -> Result<(), NoMemory>
        ensures { IfOk result (λ _. self.new ≡ self.old ++ own.now ∷ []) }
    {
        self.clocks.push(own.again()?)?;
        Ok(())
    }

    // The first k segments, or all where there are fewer, are taken: the clock is joined with theirs.
    fn take(&mut self, k: u64, clock: &mut Clock)
        requires { All (λ c. length c ≡ length clock.old) self.old }
        ensures queue { self.new ≡ drop k self.old }
        ensures clock { clock.new ≡ joined_all clock.old (take k self.old) }
    {
        let k = k.min(self.clocks.len() as u64) as usize;
        join_all(&self.clocks[..k], clock);
        self.clocks.drain(..k);
    }
}

// Makes the queues up to this one.
fn reach_places(queues: &mut Vec<Queue>, alloc: Global, place: usize) -> Result<(), NoMemory>
    ensures far { IfOk result (λ _. place < length queues.new.items) }
    ensures same { IfOk result (λ _. (k : ℕ) → get_or queues.new.items k [] ≡ get_or queues.old.items k []) }
{
    while queues.len() <= place {
        queues.push(Queue::new(alloc))?;
    }
    Ok(())
}

impl QueueRow {
    fn new(alloc: Global) -> QueueRow
        ensures { result ≡ [] }
    {
        QueueRow {
            queues: Vec::new(alloc),
        }
    }

    fn put(&mut self, alloc: Global, place: usize, own: &SharedClock) -> Result<(), NoMemory>
        ensures { IfOk result (λ _. (k : ℕ) → get_or self.new k [] ≡ cond (nat_eq k place) (get_or self.old place [] ++ own.now ∷ []) (get_or self.old k [])) }
    {
        reach_places(&mut self.queues, alloc, place)?;
        self.queues[place].put(own)
    }

    fn take(&mut self, place: usize, k: u64, clock: &mut Clock)
        requires { All (λ c. length c ≡ length clock.old) (get_or self.old place []) }
        ensures queues { (j : ℕ) → get_or self.new j [] ≡ cond (nat_eq j place) (drop k (get_or self.old place [])) (get_or self.old j []) }
        ensures clock { clock.new ≡ joined_all clock.old (take k (get_or self.old place [])) }
    {
        if place < self.queues.len() {
            self.queues[place].take(k, clock);
        }
    }
}

// Makes the lines up to this one.
fn reach_lines(rows: &mut Vec<QueueRow>, alloc: Global, line: usize) -> Result<(), NoMemory>
    ensures far { IfOk result (λ _. line < length rows.new.items) }
    ensures same { IfOk result (λ _. (k : ℕ) → get_or rows.new.items k [] ≡ get_or rows.old.items k []) }
{
    while rows.len() <= line {
        rows.push(QueueRow::new(alloc))?;
    }
    Ok(())
}

impl QueueTable {
    /// Nothing waits anywhere.
    pub fn new(alloc: Global) -> QueueTable
        ensures { result ≡ [] }
    {
        QueueTable {
            rows: Vec::new(alloc),
        }
    }

    /// One more segment waits at a line and place, with the clock of its image.
    pub fn put(
        &mut self,
        alloc: Global,
        line: usize,
        place: usize,
        own: &SharedClock,
    ) -> Result<(), NoMemory>
        ensures { IfOk result (λ _. (l k : ℕ) → queue_at self.new l k ≡ cond (nat_eq l line && nat_eq k place) (queue_at self.old l k ++ own.now ∷ []) (queue_at self.old l k)) }
    {
        reach_lines(&mut self.rows, alloc, line)?;
        self.rows[line].put(alloc, place, own)
    }

    /// The first `count` segments, or all where there are fewer, are taken from a line and place: the clock is joined
    /// with theirs.
    pub fn take(&mut self, line: usize, place: usize, count: u64, clock: &mut Clock)
        requires { All (λ c. length c ≡ length clock.old) (queue_at self.old line place) }
        ensures queues { (l k : ℕ) → queue_at self.new l k ≡ cond (nat_eq l line && nat_eq k place) (drop count (queue_at self.old l k)) (queue_at self.old l k) }
        ensures clock { clock.new ≡ joined_all clock.old (take count (queue_at self.old line place)) }
    {
        if line < self.rows.len() {
            self.rows[line].take(place, count, clock);
        }
    }

    /// Nothing waits at a line any more.
    pub fn clear_line(&mut self, alloc: Global, line: usize)
        ensures { (l k : ℕ) → queue_at self.new l k ≡ cond (nat_eq l line) [] (queue_at self.old l k) }
    {
        if line < self.rows.len() {
            self.rows[line] = QueueRow::new(alloc);
        }
    }
}
