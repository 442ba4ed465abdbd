//! Numbered clocks by two numbers, of which the first ones are forgotten.

ghost use Rattle.std.specs.Prelude.{◌≡◌, ◌<◌, ◌≤◌, ◌^◌, ◌&&◌, ℕ, [], length, get_or, nat_eq, cond, All, IfOk, MatchOption};
ghost use Rattle.race_watch.specs.Tables.{joined_all, none_yet, numbered_at, count_in, numbered, with_next, without};

use crate::shared::SharedClock;
use caf_base::refusal::NoMemory;
use segment_clock::clock::Clock;
use std::alloc::Global;
use std::marker::Model;

// Clocks numbered from 0 in the order in which they came, of which those before the number `first` are forgotten.
#[derive(Drop)]
struct NumberedQueue {
    first: usize,
    clocks: Vec<SharedClock>,
}

impl Model for NumberedQueue {
    ghost use Rattle.race_watch.specs.Tables.{Numbered};

    ghost Value = { Numbered };

    ghost view = { λ q. record { first = q.first; clocks = q.clocks.items } };
}

// The queues of one line.
#[derive(Drop)]
struct NumberedRow {
    queues: Vec<NumberedQueue>,
}

impl Model for NumberedRow {
    ghost use Rattle.std.specs.Prelude.{List};
    ghost use Rattle.race_watch.specs.Tables.{Numbered};

    ghost Value = { List Numbered };

    ghost view = { λ r. r.queues.items };
}

/// Numbered clocks for each line and place. In a contract it is the list of lines, each the list of its places.
#[derive(Drop)]
pub struct NumberedTable {
    rows: Vec<NumberedRow>,
}

impl Model for NumberedTable {
    ghost use Rattle.std.specs.Prelude.{List};
    ghost use Rattle.race_watch.specs.Tables.{Numbered};

    ghost Value = { List (List Numbered) };

    ghost view = { λ t. t.rows.items };
}

impl NumberedQueue {
    fn new(alloc: Global) -> NumberedQueue
        ensures { result ≡ none_yet }
    {
        NumberedQueue {
            first: 0,
            clocks: Vec::new(alloc),
        }
    }

    fn put(&mut self, own: &SharedClock) -> Result<(), NoMemory>
        ensures { IfOk result (λ _. self.new ≡ with_next own.now self.old) }
    {
        self.clocks.push(own.again()?)?;
        Ok(())
    }

    fn count(&self) -> usize
        requires { count_in self.now < 2 ^ 64 }
        ensures { result ≡ count_in self.now }
    {
        self.first + self.clocks.len()
    }

    fn look(&self, number: usize, clock: &mut Clock)
        requires kept { self.now.first ≤ number }
        requires sizes { All (λ c. length c ≡ length clock.old) self.now.clocks }
        ensures { clock.new ≡ joined_all clock.old (numbered number self.now) }
    {
        let place = number - self.first;
        if place < self.clocks.len() {
            clock.join(self.clocks[place].clock());
        }
    }

    fn forget(&mut self, number: usize)
        ensures { self.new ≡ without number self.old }
    {
        let many = number.saturating_sub(self.first).min(self.clocks.len());
        self.clocks.drain(..many);
        self.first += many;
    }
}

// Makes the queues up to this one.
fn reach_places(
    queues: &mut Vec<NumberedQueue>,
    alloc: Global,
    place: usize,
) -> Result<(), NoMemory>
    ensures far { IfOk result (λ _. place < length queues.new.items) }
    ensures same { IfOk result (λ _. (k : ℕ) → get_or queues.new.items k none_yet ≡ get_or queues.old.items k none_yet) }
{
    while queues.len() <= place {
        queues.push(NumberedQueue::new(alloc))?;
    }
    Ok(())
}

impl NumberedRow {
    fn new(alloc: Global) -> NumberedRow
        ensures { result ≡ [] }
    {
        NumberedRow {
            queues: Vec::new(alloc),
        }
    }

    fn put(&mut self, alloc: Global, place: usize, own: &SharedClock) -> Result<(), NoMemory>
        ensures { IfOk result (λ _. (k : ℕ) → get_or self.new k none_yet ≡ cond (nat_eq k place) (with_next own.now (get_or self.old k none_yet)) (get_or self.old k none_yet)) }
    {
        reach_places(&mut self.queues, alloc, place)?;
        self.queues[place].put(own)
    }

    fn forget(&mut self, place: usize, number: usize)
        ensures { (k : ℕ) → get_or self.new k none_yet ≡ cond (nat_eq k place) (without number (get_or self.old k none_yet)) (get_or self.old k none_yet) }
    {
        if place < self.queues.len() {
            self.queues[place].forget(number);
        }
    }
}

// Makes the lines up to this one.
fn reach_lines(rows: &mut Vec<NumberedRow>, alloc: Global, line: usize) -> Result<(), NoMemory>
    ensures far { IfOk result (λ _. line < length rows.new.items) }
    ensures same { IfOk result (λ _. (k : ℕ) → get_or rows.new.items k [] ≡ get_or rows.old.items k []) }
{
    while rows.len() <= line {
        rows.push(NumberedRow::new(alloc))?;
    }
    Ok(())
}

impl NumberedTable {
    /// No clocks anywhere.
    pub fn new(alloc: Global) -> NumberedTable
        ensures { result ≡ [] }
    {
        NumberedTable {
            rows: Vec::new(alloc),
        }
    }

    /// One more clock at a line and place. Its number is how many there were.
    pub fn put(
        &mut self,
        alloc: Global,
        line: usize,
        place: usize,
        own: &SharedClock,
    ) -> Result<(), NoMemory>
        ensures { IfOk result (λ _. (l k : ℕ) → numbered_at self.new l k ≡ cond (nat_eq l line && nat_eq k place) (with_next own.now (numbered_at self.old l k)) (numbered_at self.old l k)) }
    {
        reach_lines(&mut self.rows, alloc, line)?;
        self.rows[line].put(alloc, place, own)
    }

    // The clocks of a line and place, if any were ever put there or behind it.
    fn queue(&self, line: usize, place: usize) -> Option<&NumberedQueue>
        ensures { MatchOption result (numbered_at self.now line place ≡ none_yet) (λ q. q.now ≡ numbered_at self.now line place) }
    {
        match self.rows.get(line) {
            Some(row) => row.queues.get(place),
            None => None,
        }
    }

    /// How many clocks there are at a line and place, with those that are forgotten.
    pub fn count(&self, line: usize, place: usize) -> usize
        requires { count_in (numbered_at self.now line place) < 2 ^ 64 }
        ensures { result ≡ count_in (numbered_at self.now line place) }
    {
        match self.queue(line, place) {
            Some(queue) => queue.count(),
            None => 0,
        }
    }

    /// The clock is joined with that of this number, from 0, at a line and place, where there is one. Condition: that
    /// one isn't forgotten.
    pub fn look(&self, line: usize, place: usize, number: usize, clock: &mut Clock)
        requires kept { (numbered_at self.now line place).first ≤ number }
        requires sizes { All (λ c. length c ≡ length clock.old) (numbered_at self.now line place).clocks }
        ensures { clock.new ≡ joined_all clock.old (numbered number (numbered_at self.now line place)) }
    {
        if let Some(queue) = self.queue(line, place) {
            queue.look(number, clock);
        }
    }

    /// The clocks of a number below this one, at a line and place, are forgotten.
    pub fn forget(&mut self, line: usize, place: usize, number: usize)
        ensures { (l k : ℕ) → numbered_at self.new l k ≡ cond (nat_eq l line && nat_eq k place) (without number (numbered_at self.old l k)) (numbered_at self.old l k) }
    {
        if line < self.rows.len() {
            self.rows[line].forget(place, number);
        }
    }
}
