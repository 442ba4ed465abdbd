//! The clocks of images and of what waits while a trace is read.

ghost use Rattle.std.specs.Prelude.{◌≡◌, ◌<◌, ◌≤◌, ◌+◌, ◌-◌, ◌^◌, ◌&&◌, ℕ, [], ◌∷◌, ◌++◌, length, get_or, set, nat_eq, cond, replicate, true, IfOk};
ghost use Rattle.order_theory.specs.Order.{done};
ghost use Rattle.order_theory.specs.Acts.{entries, names, arrives, leaves, pairs, unpairs, gets, unlocks, enters, exits, posts, waits, finishes, creates, deletes};
ghost use Rattle.order_theory.specs.Acts as theory;
ghost use Rattle.segment_clock.specs.Counts.{count_of, joined, ticked};
ghost use Rattle.race_watch.specs.ActParts.{as_act, as_cell};
ghost use Rattle.race_watch.specs.Tables.{counts_of, IsClockOf, numbered_at, with_next};
ghost use Rattle.order_axioms.specs.Views.{view};
ghost use Rattle.race_watch.specs.Orders.{line_of, clock_of, OnlyFinishes, Sized, Differ, IsSound, Ordered, Completing, GoingOn, Needed, ForgetsUsed, CanCount, paired};

use crate::act::{Act, CellName};
use crate::numbered::NumberedTable;
use crate::queue::QueueTable;
use crate::shared::SharedClock;
use crate::table::{ClockTable, take};
use caf_base::place::ImageNo;
use caf_base::refusal::NoMemory;
use caf_events::event::Entry;
use segment_clock::clock::Clock;
use std::alloc::Global;
use std::marker::Model;

/// The images that an image named in its last SYNC IMAGES. In a contract it is the list of their numbers.
#[derive(Drop)]
pub struct Named {
    pub images: Vec<u32>,
}

impl Model for Named {
    ghost use Rattle.std.specs.Prelude.{ℕ, List};

    ghost Value = { List ℕ };

    ghost view = { λ n. n.images.items };
}

impl Named {
    fn as_slice(&self) -> &[u32]
        ensures { result.now ≡ self.now }
    {
        self.images.as_slice()
    }
}

/// Of each image the clock of its present segment, ticked, how many segments it has completed, and whom it named last;
/// and the clocks of the segments that wait at a round of a team, a lock, a CRITICAL construct, an event, or for the
/// SYNC IMAGES that corresponds. Locks and events are in the line of their coarray; constructs are in line 0; the SYNC
/// IMAGES of image j that name image h are in line j at place h; of these the clocks are forgotten at which image h has
/// no more to look.
#[derive(Drop)]
pub struct Order {
    pub(crate) images: Vec<Clock>,
    pub(crate) completed: Vec<u64>,
    pub(crate) named: Vec<Named>,
    pub(crate) rounds: ClockTable,
    pub(crate) locks: ClockTable,
    pub(crate) constructs: ClockTable,
    pub(crate) events: QueueTable,
    pub(crate) pairs: NumberedTable,
}

// The image's segment is completed: its clock takes that of the failed images that it was told of, and its next segment
// begins.
fn finish(images: &mut Vec<Clock>, completed: &mut Vec<u64>, image: ImageNo, told: &Option<Clock>)
    requires first { 0 < image.0 }
    requires last { (image.0 ≤ length images.old.items) × (image.0 ≤ length completed.old.items) }
    requires long { image.0 ≤ length (get_or images.old.items (image.0 - 1) []) }
    requires told { IsClockOf (length (get_or images.old.items (image.0 - 1) [])) told.now }
    requires room { count_of (joined (get_or images.old.items (image.0 - 1) []) (counts_of told.now)) image.0 < 2 ^ 64 - 1 }
    requires more { get_or completed.old.items (image.0 - 1) 0 < 2 ^ 64 - 1 }
    ensures clocks { images.new.items ≡ set images.old.items (image.0 - 1) (ticked (joined (get_or images.old.items (image.0 - 1) []) (counts_of told.now)) image.0) }
    ensures counts { completed.new.items ≡ set completed.old.items (image.0 - 1) (get_or completed.old.items (image.0 - 1) 0 + 1) }
{
    let clock = &mut images[(image.0 - 1) as usize];
    take(told, clock);
    clock.tick(image);
    completed[(image.0 - 1) as usize] += 1;
}

// Nothing that waits is concerned: the entry completes a segment, and that alone.
fn finishes(order: &mut Order, _n: u32, _before: &[Entry], e: &Entry, told: &Option<Clock>)
    requires { (a : theory.Act) × OnlyFinishes a × Completing _n _before.now e.now a order.old told.now }
    ensures { Ordered _n (_before.now ++ e.now ∷ []) order.new }
{
    finish(&mut order.images, &mut order.completed, e.image, told);
}

// A departure from a round that is whole takes what waits there.
fn leaves(
    order: &mut Order,
    _n: u32,
    _before: &[Entry],
    e: &Entry,
    told: &Option<Clock>,
    team: u32,
    round: u64,
)
    requires { Completing _n _before.now e.now (leaves team round true) order.old told.now }
    ensures { Ordered _n (_before.now ++ e.now ∷ []) order.new }
{
    let clock = &mut order.images[(e.image.0 - 1) as usize];
    order.rounds.take(team as usize, round as usize, clock);
    finish(&mut order.images, &mut order.completed, e.image, told);
}

// An arrival waits at its round.
fn arrives(
    order: &mut Order,
    alloc: Global,
    n: u32,
    _before: &[Entry],
    e: &Entry,
    team: u32,
    round: u64,
) -> Result<(), NoMemory>
    requires { GoingOn n _before.now e.now (arrives team round) order.old }
    ensures { IfOk result (λ _. Ordered n (_before.now ++ e.now ∷ []) order.new) }
{
    let own = &order.images[(e.image.0 - 1) as usize];
    order
        .rounds
        .add(alloc, n, team as usize, round as usize, own)
}

// The line of a coarray in a memory.
pub(crate) fn line_of(n: u32, owner: ImageNo, coarray: u32) -> usize
    requires { 0 < owner.0 }
    ensures { result ≡ line_of n owner.0 coarray }
{
    coarray as usize * n as usize + (owner.0 - 1) as usize
}

// A lock that is acquired: what released it is taken.
fn gets(
    order: &mut Order,
    n: u32,
    _before: &[Entry],
    e: &Entry,
    told: &Option<Clock>,
    cell: CellName,
)
    requires act { Completing n _before.now e.now (gets (as_cell cell)) order.old told.now }
    requires owner { (0 < cell.owner.0) × (cell.owner.0 ≤ n) }
    ensures { Ordered n (_before.now ++ e.now ∷ []) order.new }
{
    let line = line_of(n, cell.owner, cell.coarray);
    let clock = &mut order.images[(e.image.0 - 1) as usize];
    order.locks.take(line, cell.offset as usize, clock);
    order.locks.clear(line, cell.offset as usize);
    finish(&mut order.images, &mut order.completed, e.image, told);
}

// A lock that is released: its image's segment waits there.
fn unlocks(
    order: &mut Order,
    alloc: Global,
    n: u32,
    _before: &[Entry],
    e: &Entry,
    told: &Option<Clock>,
    cell: CellName,
) -> Result<(), NoMemory>
    requires act { Completing n _before.now e.now (unlocks (as_cell cell)) order.old told.now }
    requires owner { (0 < cell.owner.0) × (cell.owner.0 ≤ n) }
    ensures { IfOk result (λ _. Ordered n (_before.now ++ e.now ∷ []) order.new) }
{
    let line = line_of(n, cell.owner, cell.coarray);
    let own = &order.images[(e.image.0 - 1) as usize];
    order.locks.add(alloc, n, line, cell.offset as usize, own)?;
    finish(&mut order.images, &mut order.completed, e.image, told);
    Ok(())
}

// A CRITICAL construct is entered: what left it is taken.
fn enters(
    order: &mut Order,
    _n: u32,
    _before: &[Entry],
    e: &Entry,
    told: &Option<Clock>,
    construct: u32,
)
    requires { Completing _n _before.now e.now (enters construct) order.old told.now }
    ensures { Ordered _n (_before.now ++ e.now ∷ []) order.new }
{
    let clock = &mut order.images[(e.image.0 - 1) as usize];
    order.constructs.take(0, construct as usize, clock);
    order.constructs.clear(0, construct as usize);
    finish(&mut order.images, &mut order.completed, e.image, told);
}

// It is left: its image's segment waits there.
fn exits(
    order: &mut Order,
    alloc: Global,
    n: u32,
    _before: &[Entry],
    e: &Entry,
    told: &Option<Clock>,
    construct: u32,
) -> Result<(), NoMemory>
    requires { Completing n _before.now e.now (exits construct) order.old told.now }
    ensures { IfOk result (λ _. Ordered n (_before.now ++ e.now ∷ []) order.new) }
{
    let own = &order.images[(e.image.0 - 1) as usize];
    order.constructs.add(alloc, n, 0, construct as usize, own)?;
    finish(&mut order.images, &mut order.completed, e.image, told);
    Ok(())
}

// An event is posted: its image's segment waits there, behind those of earlier posts.
fn posts(
    order: &mut Order,
    alloc: Global,
    n: u32,
    _before: &[Entry],
    e: &Entry,
    told: &Option<Clock>,
    cell: CellName,
) -> Result<(), NoMemory>
    requires act { Completing n _before.now e.now (posts (as_cell cell)) order.old told.now }
    requires owner { (0 < cell.owner.0) × (cell.owner.0 ≤ n) }
    ensures { IfOk result (λ _. Ordered n (_before.now ++ e.now ∷ []) order.new) }
{
    let line = line_of(n, cell.owner, cell.coarray);
    let own = SharedClock::new(alloc, n, &order.images[(e.image.0 - 1) as usize])?;
    order.events.put(alloc, line, cell.offset as usize, &own)?;
    finish(&mut order.images, &mut order.completed, e.image, told);
    Ok(())
}

// EVENT WAIT takes the first posts.
fn waits(
    order: &mut Order,
    n: u32,
    _before: &[Entry],
    e: &Entry,
    told: &Option<Clock>,
    cell: CellName,
    posts: u64,
)
    requires act { Completing n _before.now e.now (waits (as_cell cell) posts) order.old told.now }
    requires owner { (0 < cell.owner.0) × (cell.owner.0 ≤ n) }
    ensures { Ordered n (_before.now ++ e.now ∷ []) order.new }
{
    let line = line_of(n, cell.owner, cell.coarray);
    let clock = &mut order.images[(e.image.0 - 1) as usize];
    order.events.take(line, cell.offset as usize, posts, clock);
    finish(&mut order.images, &mut order.completed, e.image, told);
}

// An allocation or deallocation: nothing waits any more at the coarray's events, and after an allocation at its locks.
fn creates(
    order: &mut Order,
    alloc: Global,
    n: u32,
    _before: &[Entry],
    e: &Entry,
    owner: ImageNo,
    coarray: u32,
)
    requires act { GoingOn n _before.now e.now (creates owner.0 coarray) order.old }
    requires owner { (0 < owner.0) × (owner.0 ≤ n) }
    ensures { Ordered n (_before.now ++ e.now ∷ []) order.new }
{
    let line = line_of(n, owner, coarray);
    order.locks.clear_line(alloc, line);
    order.events.clear_line(alloc, line);
}

fn deletes(
    order: &mut Order,
    alloc: Global,
    n: u32,
    _before: &[Entry],
    e: &Entry,
    owner: ImageNo,
    coarray: u32,
)
    requires act { GoingOn n _before.now e.now (deletes owner.0 coarray) order.old }
    requires owner { (0 < owner.0) × (owner.0 ≤ n) }
    ensures { Ordered n (_before.now ++ e.now ∷ []) order.new }
{
    order.events.clear_line(alloc, line_of(n, owner, coarray));
}

// One more segment waits for each of the images that SYNC IMAGES names.
fn put_each(
    pairs: &mut NumberedTable,
    alloc: Global,
    image: ImageNo,
    named: &[u32],
    own: &SharedClock,
) -> Result<(), NoMemory>
    requires apart { Differ named.now }
    ensures { IfOk result (λ _. (l k : ℕ) → numbered_at pairs.new l k ≡ cond (nat_eq l image.0 && names k named.now) (with_next own.now (numbered_at pairs.old l k)) (numbered_at pairs.old l k)) }
{
    for other in named {
        pairs.put(alloc, image.0 as usize, *other as usize, own)?;
    }
    Ok(())
}

// The beginning of SYNC IMAGES: its image's segment waits for each image that it names.
fn pairs(
    order: &mut Order,
    alloc: Global,
    n: u32,
    _before: &[Entry],
    e: &Entry,
    images: Vec<u32>,
) -> Result<(), NoMemory>
    requires act { GoingOn n _before.now e.now (pairs images.items) order.old }
    requires apart { Differ images.items }
    ensures { IfOk result (λ _. Ordered n (_before.now ++ e.now ∷ []) order.new) }
{
    let own = SharedClock::new(alloc, n, &order.images[(e.image.0 - 1) as usize])?;
    put_each(&mut order.pairs, alloc, e.image, images.as_slice(), &own)?;
    order.named[(e.image.0 - 1) as usize] = Named { images };
    Ok(())
}

// The clock takes that of the SYNC IMAGES of each of these images that corresponds to the last one of this image.
fn look_each(pairs: &NumberedTable, image: ImageNo, named: &[u32], clock: &mut Clock)
    requires sizes { (j h : ℕ) → Sized (length clock.old) (numbered_at pairs.now j h).clocks }
    requires needed { Needed pairs.now }
    requires counts { CanCount pairs.now }
    ensures { clock.new ≡ paired pairs.now image.0 named.now clock.old }
{
    for other in named {
        let count = pairs.count(image.0 as usize, *other as usize);
        pairs.look(
            *other as usize,
            image.0 as usize,
            count.saturating_sub(1),
            clock,
        );
    }
}

// Of the SYNC IMAGES of each of these images all before the one that corresponds to this image's last are forgotten: it
// has no more to look at them.
fn forget_each(pairs: &mut NumberedTable, image: ImageNo, named: &[u32])
    requires { CanCount pairs.old }
    ensures { ForgetsUsed pairs.old pairs.new }
{
    for other in named {
        let count = pairs.count(image.0 as usize, *other as usize);
        pairs.forget(*other as usize, image.0 as usize, count.saturating_sub(1));
    }
}

// The end of SYNC IMAGES, where it is whole.
fn unpairs(order: &mut Order, _n: u32, _before: &[Entry], e: &Entry, told: &Option<Clock>)
    requires { Completing _n _before.now e.now (unpairs true) order.old told.now }
    ensures { Ordered _n (_before.now ++ e.now ∷ []) order.new }
{
    let place = (e.image.0 - 1) as usize;
    let clock = &mut order.images[place];
    let named = order.named[place].as_slice();
    look_each(&order.pairs, e.image, named, clock);
    forget_each(&mut order.pairs, e.image, named);
    finish(&mut order.images, &mut order.completed, e.image, told);
}

// The clock of each image's first segment.
fn first_clocks(alloc: Global, n: u32) -> Result<Vec<Clock>, NoMemory>
    ensures count { IfOk result (λ images. length images.items ≡ n) }
    ensures clocks { IfOk result (λ images. (j : ℕ) → j < n → get_or images.items j [] ≡ ticked (replicate n 0) (j + 1)) }
{
    let mut images = Vec::new(alloc);
    for i in 0..n {
        let mut clock = Clock::new(alloc, n)?;
        clock.tick(ImageNo(i + 1));
        images.push(clock)?;
    }
    Ok(images)
}

// No image has completed a segment.
fn no_counts(alloc: Global, n: u32) -> Result<Vec<u64>, NoMemory>
    ensures { IfOk result (λ counts. counts.items ≡ replicate n 0) }
{
    Ok(Vec::from_elem(alloc, 0, n as usize)?)
}

// No image has named any.
fn no_names(alloc: Global, n: u32) -> Result<Vec<Named>, NoMemory>
    ensures count { IfOk result (λ named. length named.items ≡ n) }
    ensures names { IfOk result (λ named. (j : ℕ) → get_or named.items j [] ≡ []) }
{
    let mut named = Vec::new(alloc);
    for _ in 0..n {
        named.push(Named {
            images: Vec::new(alloc),
        })?;
    }
    Ok(named)
}

impl Order {
    /// Before the first entry of a run of n images.
    pub fn new(alloc: Global, n: u32) -> Result<Order, NoMemory>
        ensures { IfOk result (Ordered n []) }
    {
        Ok(Order {
            images: first_clocks(alloc, n)?,
            completed: no_counts(alloc, n)?,
            named: no_names(alloc, n)?,
            rounds: ClockTable::new(alloc),
            locks: ClockTable::new(alloc),
            constructs: ClockTable::new(alloc),
            events: QueueTable::new(alloc),
            pairs: NumberedTable::new(alloc),
        })
    }

    /// The clock of an image's present segment, ticked.
    #[inline(always)]
    pub fn clock(&self, _n: u32, _before: &[Entry], image: ImageNo) -> &Clock
        requires image { (0 < image.0) × (image.0 ≤ _n) }
        requires order { Ordered _n _before.now self.now }
        ensures { result.now ≡ clock_of self.now image.0 }
    {
        &self.images[(image.0 - 1) as usize]
    }

    /// How many segments an image has completed.
    #[inline(always)]
    pub fn completed(&self, _n: u32, _before: &[Entry], image: ImageNo) -> u64
        requires image { (0 < image.0) × (image.0 ≤ _n) }
        requires order { Ordered _n _before.now self.now }
        ensures { result ≡ done (entries (view _n)) image.0 _before.now }
    {
        self.completed[(image.0 - 1) as usize]
    }

    /// The next entry of the trace: what its act does. `told` covers the last segments of the failed images of which
    /// its status speaks.
    #[inline(always)]
    pub fn step(
        &mut self,
        alloc: Global,
        n: u32,
        before: &[Entry],
        e: &Entry,
        act: Act,
        told: &Option<Clock>,
    ) -> Result<(), NoMemory>
        requires act { Completing n before.now e.now (as_act act) self.old told.now }
        requires sound { IsSound n (as_act act) }
        ensures { IfOk result (λ _. Ordered n (before.now ++ e.now ∷ []) self.new) }
    {
        match act {
            Act::Arrives { team, round } => arrives(self, alloc, n, before, e, team, round),
            Act::Leaves { team, round, whole } => {
                if whole {
                    leaves(self, n, before, e, told, team, round);
                } else {
                    finishes(self, n, before, e, told);
                }
                Ok(())
            }
            Act::Pairs { images } => pairs(self, alloc, n, before, e, images),
            Act::Unpairs { whole } => {
                if whole {
                    unpairs(self, n, before, e, told);
                } else {
                    finishes(self, n, before, e, told);
                }
                Ok(())
            }
            Act::Gets { cell } => {
                gets(self, n, before, e, told, cell);
                Ok(())
            }
            Act::Unlocks { cell } => unlocks(self, alloc, n, before, e, told, cell),
            Act::Enters { construct } => {
                enters(self, n, before, e, told, construct);
                Ok(())
            }
            Act::Exits { construct } => exits(self, alloc, n, before, e, told, construct),
            Act::Posts { cell } => posts(self, alloc, n, before, e, told, cell),
            Act::Waits { cell, posts } => {
                waits(self, n, before, e, told, cell, posts);
                Ok(())
            }
            Act::Finishes => {
                finishes(self, n, before, e, told);
                Ok(())
            }
            Act::Creates { owner, coarray } => {
                creates(self, alloc, n, before, e, owner, coarray);
                Ok(())
            }
            Act::Deletes { owner, coarray } => {
                deletes(self, alloc, n, before, e, owner, coarray);
                Ok(())
            }
            Act::GoesOn => Ok(()),
        }
    }
}
