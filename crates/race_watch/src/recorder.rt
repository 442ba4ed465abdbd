//! What is kept while the entries of a trace are read.

ghost use Rattle.std.specs.Prelude.{◌≡◌, ◌<◌, ◌≤◌, ℕ, [], ◌∷◌, ◌++◌, length, get_or, true, false, IfOk, MatchBool};
ghost use Rattle.order_theory.specs.Order.{done};
ghost use Rattle.order_theory.specs.Clocks.{Covers};
ghost use Rattle.order_theory.specs.Acts.{entries, completing};
ghost use Rattle.order_theory.specs.Stored.{present};
ghost use Rattle.segment_clock.specs.Counts.{count_of};
ghost use Rattle.order_axioms.specs.Views.{act_of, view, edges};
ghost use Rattle.race_watch.specs.ActParts.{as_act};
ghost use Rattle.race_watch.specs.Touched.{FitsMemory, MadeIs};
ghost use Rattle.race_watch.specs.Orders.{Ordered};
ghost use Rattle.race_watch.specs.Marked.{Marked, HasPartner, Touching, TouchesAll, MayNote};
ghost use Rattle.race_watch.specs.Flagged.{Flagged};
ghost use Rattle.race_watch.specs.Recorded.{IsRecorded, FitsRun, IsTold, MadeKept};

use crate::act::{Act, act_by};
use crate::flag_use::{sees, sets, spoils};
use crate::flags::Flags;
use crate::marks::Marks;
use crate::order::{Order, line_of};
use crate::touch::{Touch, touch_by};
use caf_base::place::ImageNo;
use caf_base::refusal::NoMemory;
use caf_events::ask::Ask;
use caf_events::event::Entry;
use caf_events::reply::Reply;
use segment_clock::clock::Clock;
use std::alloc::Global;

/// The clocks of images and of what waits, the marks of cells, what is handed on by flags, and for each line how many
/// cells its coarray was last given.
#[derive(Drop)]
pub struct Recorder {
    pub(crate) order: Order,
    pub(crate) marks: Marks,
    pub(crate) flags: Flags,
    pub(crate) made: Vec<u32>,
}

// How many cells the coarray of a deallocation has.
fn made_of(made: &Vec<u32>, n: u32, _before: &[Entry], ask: &Ask) -> u32
    requires memory { FitsMemory n ask.now }
    requires made { MadeKept n _before.now made.now.items }
    ensures { MadeIs _before.now ask.now result }
{
    match ask {
        Ask::Delete { owner, coarray } => made
            .get(line_of(n, *owner, *coarray))
            .copied()
            .unwrap_or(0),
        _ => 0,
    }
}

// Makes the lines up to this one.
fn reach(made: &mut Vec<u32>, line: usize) -> Result<(), NoMemory>
    ensures far { IfOk result (λ _. line < length made.new.items) }
    ensures same { IfOk result (λ _. (k : ℕ) → get_or made.new.items k 0 ≡ get_or made.old.items k 0) }
{
    while made.len() <= line {
        made.push(0)?;
    }
    Ok(())
}

// Keeps how many cells an allocation gives its coarray.
fn keep_made(
    made: &mut Vec<u32>,
    n: u32,
    _before: &[Entry],
    _e: &Entry,
    ask: &Ask,
) -> Result<(), NoMemory>
    requires ask { ask.now ≡ _e.now.event.ask }
    requires memory { FitsMemory n ask.now }
    requires made { MadeKept n _before.now made.old.items }
    ensures { IfOk result (λ _. MadeKept n (_before.now ++ _e.now ∷ []) made.new.items) }
{
    match ask {
        Ask::Create {
            owner,
            coarray,
            cells,
        } => {
            let line = line_of(n, *owner, *coarray);
            reach(made, line)?;
            made[line] = *cells;
            Ok(())
        }
        _ => Ok(()),
    }
}

// Before the first entry nothing is handed on.
fn first_flags(alloc: Global, n: u32) -> Result<Flags, NoMemory>
    ensures { IfOk result (Flagged (view n) n []) }
{
    let flags = Flags::new(alloc, n)?;
    Ok(flags)
}

// An entry that completes no segment sees, sets or spoils the cells that it touches.
#[inline(always)]
fn hand_on(
    flags: &mut Flags,
    alloc: Global,
    n: u32,
    _before: &[Entry],
    e: &Entry,
    ask: &Ask,
    reply: &Reply,
    touch: &Touch,
) -> Result<(), NoMemory>
    requires exchange { (ask.now ≡ e.now.event.ask) × (reply.now ≡ e.now.event.reply) }
    requires fits { FitsRun n _before.now e.now }
    requires still { completing (act_of e.now) ≡ false }
    requires flagged { Flagged (view n) n _before.now flags.old }
    requires touch { Touching n _before.now e.now touch.now }
    ensures { IfOk result (λ _. Flagged (view n) n (_before.now ++ e.now ∷ []) flags.new) }
{
    let line = line_of(n, touch.owner, touch.coarray);
    flags.step(
        alloc,
        n,
        line,
        touch.cells.as_slice(),
        e.image,
        sees(ask),
        sets(ask, reply),
        spoils(touch.class),
    )?;
    Ok(())
}

/// What an entry is to segment order.
pub fn act_of(alloc: Global, e: &Entry) -> Result<Act, NoMemory>
    ensures { IfOk result (λ a. as_act a ≡ act_of e.now) }
{
    let ask = e.event.told().ask(alloc);
    let reply = e.event.reply(alloc);
    let act = act_by(alloc, &ask, &reply);
    drop(ask);
    drop(reply);
    act
}

impl Recorder {
    /// Before the first entry of a run of n images.
    pub fn new(alloc: Global, n: u32) -> Result<Recorder, NoMemory>
        ensures { IfOk result (IsRecorded n []) }
    {
        Ok(Recorder {
            order: Order::new(alloc, n)?,
            marks: Marks::new(alloc, n),
            flags: first_flags(alloc, n)?,
            made: Vec::new(alloc),
        })
    }

    /// The clock of an image's present segment, ticked: it covers this segment and those that precede it.
    #[inline(always)]
    pub fn clock(&self, _n: u32, _before: &[Entry], image: ImageNo) -> &Clock
        requires image { (0 < image.0) × (image.0 ≤ _n) }
        requires recorded { IsRecorded _n _before.now self.now }
        ensures size { length result.now ≡ _n }
        ensures covers { Covers (edges _n) _before.now (present (view _n) _before.now image.0 ∷ []) (count_of result.now) }
    {
        self.order.clock(_n, _before, image)
    }

    /// How many segments an image has completed.
    pub fn completed(&self, _n: u32, _before: &[Entry], image: ImageNo) -> u64
        requires image { (0 < image.0) × (image.0 ≤ _n) }
        requires recorded { IsRecorded _n _before.now self.now }
        ensures { result ≡ done (entries (view _n)) image.0 _before.now }
    {
        self.order.completed(_n, _before, image)
    }

    /// What an entry with this ask and reply touches.
    #[inline(always)]
    pub fn touch_of(
        &self,
        alloc: Global,
        n: u32,
        before: &[Entry],
        _e: &Entry,
        ask: &Ask,
        reply: &Reply,
    ) -> Result<Option<Touch>, NoMemory>
        requires exchange { (ask.now ≡ _e.now.event.ask) × (reply.now ≡ _e.now.event.reply) }
        requires fits { FitsRun n before.now _e.now }
        requires recorded { IsRecorded n before.now self.now }
        ensures { IfOk result (TouchesAll n before.now _e.now) }
    {
        let made = made_of(&self.made, n, before, ask);
        touch_by(alloc, n, before, ask, reply, made)
    }

    /// Whether an entry so far conflicts with the next one, which touches this, and stands in a segment that doesn't
    /// precede its segment.
    pub fn clash(&self, n: u32, before: &[Entry], e: &Entry, touch: &Option<Touch>) -> bool
        requires fits { FitsRun n before.now e.now }
        requires recorded { IsRecorded n before.now self.now }
        requires touch { TouchesAll n before.now e.now touch.now }
        ensures { MatchBool result (HasPartner n before.now e.now) (HasPartner n before.now e.now → ⊥) }
    {
        self.marks.clash(&self.order, n, before, e, touch)
    }

    // Notes the next entry at the cells that it touches.
    #[inline(always)]
    fn note(
        &mut self,
        alloc: Global,
        n: u32,
        before: &[Entry],
        e: &Entry,
        touch: &Option<Touch>,
    ) -> Result<(), NoMemory>
        requires fits { FitsRun n before.now e.now }
        requires recorded { IsRecorded n before.now self.old }
        requires touch { TouchesAll n before.now e.now touch.now }
        requires none { MayNote n before.now e.now }
        ensures order { self.new.order ≡ self.old.order }
        ensures made { self.new.made ≡ self.old.made }
        ensures flags { self.new.flags ≡ self.old.flags }
        ensures marks { IfOk result (λ _. Marked n (before.now ++ e.now ∷ []) self.new.marks) }
    {
        self.marks.note(alloc, &self.order, n, before, e, touch)
    }

    // The next entry sees, sets or spoils the cells that it touches, and completes no segment.
    #[inline(always)]
    fn hand(
        &mut self,
        alloc: Global,
        n: u32,
        _before: &[Entry],
        e: &Entry,
        ask: &Ask,
        reply: &Reply,
        touch: &Option<Touch>,
    ) -> Result<(), NoMemory>
        requires exchange { (ask.now ≡ e.now.event.ask) × (reply.now ≡ e.now.event.reply) }
        requires fits { FitsRun n _before.now e.now }
        requires still { completing (act_of e.now) ≡ false }
        requires flagged { Flagged (view n) n _before.now self.old.flags }
        requires touch { TouchesAll n _before.now e.now touch.now }
        ensures marks { self.new.marks ≡ self.old.marks }
        ensures made { self.new.made ≡ self.old.made }
        ensures order { self.new.order ≡ self.old.order }
        ensures flagged { IfOk result (λ _. Flagged (view n) n (_before.now ++ e.now ∷ []) self.new.flags) }
    {
        match touch {
            Some(touch) => hand_on(&mut self.flags, alloc, n, _before, e, ask, reply, touch),
            None => Ok(()),
        }
    }

    // The next entry completes its image's segment.
    #[inline(always)]
    fn complete(
        &mut self,
        alloc: Global,
        n: u32,
        before: &[Entry],
        e: &Entry,
        act: Act,
        told: &Option<Clock>,
    ) -> Result<(), NoMemory>
        requires act { as_act act ≡ act_of e.now }
        requires completes { completing (act_of e.now) ≡ true }
        requires fits { FitsRun n before.now e.now }
        requires order { Ordered n before.now self.old.order }
        requires flagged { Flagged (view n) n before.now self.old.flags }
        requires told { IsTold n before.now e.now told.now }
        ensures marks { self.new.marks ≡ self.old.marks }
        ensures made { self.new.made ≡ self.old.made }
        ensures order { IfOk result (λ _. Ordered n (before.now ++ e.now ∷ []) self.new.order) }
        ensures flagged { IfOk result (λ _. Flagged (view n) n (before.now ++ e.now ∷ []) self.new.flags) }
    {
        self.flags.tell(alloc, n, e.image, told)?;
        self.flags
            .remember(e.image, self.order.clock(n, before, e.image));
        self.order
            .step(alloc, n, before, e, act, self.flags.taken_by(e.image))?;
        self.flags.forget(e.image);
        Ok(())
    }

    // The next entry completes no segment.
    #[inline(always)]
    fn go_on(
        &mut self,
        alloc: Global,
        n: u32,
        before: &[Entry],
        e: &Entry,
        act: Act,
    ) -> Result<(), NoMemory>
        requires act { as_act act ≡ act_of e.now }
        requires still { completing (act_of e.now) ≡ false }
        requires fits { FitsRun n before.now e.now }
        requires order { Ordered n before.now self.old.order }
        requires flagged { Flagged (view n) n before.now self.old.flags }
        ensures marks { self.new.marks ≡ self.old.marks }
        ensures made { self.new.made ≡ self.old.made }
        ensures flags { self.new.flags ≡ self.old.flags }
        ensures order { IfOk result (λ _. Ordered n (before.now ++ e.now ∷ []) self.new.order) }
    {
        self.order
            .step(alloc, n, before, e, act, self.flags.taken_by(e.image))
    }

    // Keeps what the next entry, with this ask and reply, gives its coarray, and what it is to segment order.
    #[inline(always)]
    fn keep(
        &mut self,
        alloc: Global,
        n: u32,
        before: &[Entry],
        e: &Entry,
        ask: &Ask,
        reply: &Reply,
        touch: &Option<Touch>,
        told: &Option<Clock>,
    ) -> Result<(), NoMemory>
        requires exchange { (ask.now ≡ e.now.event.ask) × (reply.now ≡ e.now.event.reply) }
        requires fits { FitsRun n before.now e.now }
        requires order { Ordered n before.now self.old.order }
        requires flagged { Flagged (view n) n before.now self.old.flags }
        requires made { MadeKept n before.now self.old.made.items }
        requires touch { TouchesAll n before.now e.now touch.now }
        requires told { IsTold n before.now e.now told.now }
        ensures marks { self.new.marks ≡ self.old.marks }
        ensures order { IfOk result (λ _. Ordered n (before.now ++ e.now ∷ []) self.new.order) }
        ensures flagged { IfOk result (λ _. Flagged (view n) n (before.now ++ e.now ∷ []) self.new.flags) }
        ensures made { IfOk result (λ _. MadeKept n (before.now ++ e.now ∷ []) self.new.made.items) }
    {
        keep_made(&mut self.made, n, before, e, ask)?;
        let act = act_by(alloc, ask, reply)?;
        if act.completes() {
            self.complete(alloc, n, before, e, act, told)
        } else {
            self.go_on(alloc, n, before, e, act)?;
            self.hand(alloc, n, before, e, ask, reply, touch)
        }
    }

    /// Records the next entry, which has this ask and reply, and touches this. `told` covers the last segments of the
    /// failed images of which its status speaks. Condition: no entry so far is unordered with it, or it is no access.
    pub fn record(
        &mut self,
        alloc: Global,
        n: u32,
        before: &[Entry],
        e: &Entry,
        ask: &Ask,
        reply: &Reply,
        touch: &Option<Touch>,
        told: &Option<Clock>,
    ) -> Result<(), NoMemory>
        requires exchange { (ask.now ≡ e.now.event.ask) × (reply.now ≡ e.now.event.reply) }
        requires fits { FitsRun n before.now e.now }
        requires recorded { IsRecorded n before.now self.old }
        requires touch { TouchesAll n before.now e.now touch.now }
        requires none { MayNote n before.now e.now }
        requires told { IsTold n before.now e.now told.now }
        ensures { IfOk result (λ _. IsRecorded n (before.now ++ e.now ∷ []) self.new) }
    {
        self.note(alloc, n, before, e, touch)?;
        self.keep(alloc, n, before, e, ask, reply, touch, told)
    }
}
