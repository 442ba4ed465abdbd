//! The steps of one image at the gates of a run.

ghost use Rattle.std.specs.Prelude.{◌≡◌, ◌≤◌, ◌^◌, length, false, IfOk};
ghost use Rattle.caf_events.specs.Asks.{place_of};
ghost use Rattle.caf_events.specs.Walkers.{AsksNext, IsAtAsk};
ghost use Rattle.caf_events.specs.declared.ask.Ask.{Ask};
ghost use Rattle.caf_base.specs.declared.place.Place.TheVariants as places;
ghost use Rattle.image_core.specs.Prepared.{move_of, AsksAt};
ghost use Rattle.image_gate.specs.Fabrics.{IsPlaceOf};
ghost use Rattle.core_runs.specs.Lists.{last_of};
ghost use Rattle.image_turns.specs.Turns.{HasMade, HearsEvery, ArePassesOf, StaysOn, MadeNone, MadeAlone};
ghost use Rattle.image_turns.specs.Waits.{Waits};

use crate::looks::{Look, Spin, look_key};
use caf_base::hook::Hook;
use caf_base::limits::LAST_STAMP;
use caf_base::place::{Place, TeamNo};
use caf_base::refusal::NoMemory;
use caf_events::ask::Ask;
use caf_events::object::Object;
use caf_events::walker::{Next, Walker};
use image_core::run::ImageRun;
use image_gate::gates::Gates;
use image_gate::passes::Passes;
use std::sync::Wait;
use turn_gate::turn::Turn;

/// What a turn of an image was about: the place, how often a step there had freed an ask before it, the key of its
/// ask, and what it looked at. At no place nothing is ever freed.
#[derive(Clone, Copy)]
pub struct Told {
    pub at: Place,
    pub freed: u64,
    pub key: u64,
    pub look: Look,
}

impl Told {
    /// At no place.
    pub fn nowhere() -> Told {
        Told {
            at: Place::Own,
            freed: 0,
            key: 0,
            look: Look::none(),
        }
    }
}

/// Why an image stopped.
#[derive(Clone, Copy)]
pub enum Stop {
    /// It made as many steps as it may.
    Tired,
    /// It was refused, or has ended.
    Held,
    /// It looks again and again at what doesn't change.
    Looks,
}

/// How far an image came: whether it made a step, why it stopped, and its last turn.
#[derive(Clone, Copy)]
pub struct Ran {
    pub moved: bool,
    pub stop: Stop,
    pub told: Told,
}

impl Ran {
    fn new(moved: bool, stop: Stop, told: Told) -> Ran {
        Ran { moved, stop, told }
    }
}

// Asks of one key, which isn't 0, at one object can come at the same moments.
fn key_of(ask: &Ask) -> u64 {
    match ask {
        Ask::Leave { team, round } => key_of_round(*team, *round, 1),
        Ask::Take { team, round } => key_of_round(*team, *round, 3),
        _ => 0,
    }
}

// Of another number for each team, round and kind, as long as the rounds are below 2 ** 30; else 0.
fn key_of_round(team: TeamNo, round: u64, kind: u64) -> u64 {
    if round < 1 << 30 {
        (u64::from(team.0) << 32) | (round << 2) | kind
    } else {
        0
    }
}

// What a turn with this ask at a place is about.
fn told_of<O: Object, B: Object>(gates: &Gates<O, B>, at: Place, ask: &Ask) -> Told {
    let look = Look {
        at,
        changed: gates.news().changed(at),
        key: look_key(ask),
    };
    Told {
        at,
        freed: gates.news().freed(at),
        key: key_of(ask),
        look,
    }
}

// The step that an image makes by itself, where its stamps allow one. True where it was made.
fn step_alone<M: Walker>(run: &mut ImageRun<M>, told: &mut Told) -> Result<bool, NoMemory>
    requires place { AsksAt places.Own (move_of M.Walker run.old) }
    requires hears { HearsEvery M.step M.hears }
    ensures image { run.new.image ≡ run.old.image }
    ensures alone { MadeAlone M.Walker run.old run.new }
    ensures tells { IfOk result (HasMade run.old.events.items run.new.events.items) }
    ensures waits { IfOk result (λ made. made ≡ false → MadeNone M.Walker run.old run.new × (2 ^ 62 ≤ last_of run.new.events.items)) }
{
    if run.last_stamp() >= LAST_STAMP {
        return Ok(false);
    }
    let ask = run.ask()?;
    told.look.key = look_key(&ask);
    run.own(ask)?;
    Ok(true)
}

// One turn at the gate of the image's next ask. True where a step was made; where it wasn't, `told` says where it was
// refused.
fn step_at_gate<R: Wait, M: Walker, O: Object, B: Object, H: Hook>(
    rt: &R,
    gates: &Gates<O, B>,
    run: &mut ImageRun<M>,
    passes: &mut Passes,
    worker: u32,
    hook: &H,
    told: &mut Told,
) -> Result<bool, NoMemory>
    requires passes { ArePassesOf gates.now.board gates.now.memories.items run.old passes.old }
    requires at { IsAtAsk (move_of M.Walker run.old) }
    requires place { (ask : Ask) → AsksNext (move_of M.Walker run.old) ask → IsPlaceOf (length gates.now.memories.items) (place_of ask) }
    requires hears { HearsEvery M.step M.hears }
    ensures stays { StaysOn M.Walker gates.now.board gates.now.memories.items run.old passes.old run.new passes.new }
    ensures tells { IfOk result (HasMade run.old.events.items run.new.events.items) }
    ensures waits { IfOk result (λ made. made ≡ false → Waits O.Object B.Object gates.now.board gates.now.memories.items M.Walker run.new passes.new) }
{
    let line = run.line();
    let after = run.last_stamp();
    let ask = run.ask()?;
    let at = ask.place();
    *told = told_of(gates, at, &ask);
    match gates.turn(rt, passes, ask, line, after, worker, hook) {
        Turn::Done(event) => {
            run.take(event);
            Ok(true)
        }
        Turn::NotYet(ask) => {
            drop(ask);
            Ok(false)
        }
        Turn::Full { ask, .. } => {
            drop(ask);
            Ok(false)
        }
        Turn::NoMemory(ask) => {
            drop(ask);
            Err(NoMemory)
        }
    }
}

/// One step of an image, where it can make one now. True where it was made; where it wasn't, the image waits or has
/// ended, and if it was refused at a gate `told` says where.
pub fn advance<R: Wait, M: Walker, O: Object, B: Object, H: Hook>(
    rt: &R,
    gates: &Gates<O, B>,
    run: &mut ImageRun<M>,
    passes: &mut Passes,
    worker: u32,
    hook: &H,
    told: &mut Told,
) -> Result<bool, NoMemory>
    requires passes { ArePassesOf gates.now.board gates.now.memories.items run.old passes.old }
    requires hears { HearsEvery M.step M.hears }
    ensures stays { StaysOn M.Walker gates.now.board gates.now.memories.items run.old passes.old run.new passes.new }
    ensures tells { IfOk result (HasMade run.old.events.items run.new.events.items) }
    ensures waits { IfOk result (λ made. made ≡ false → Waits O.Object B.Object gates.now.board gates.now.memories.items M.Walker run.new passes.new) }
{
    match run.want() {
        Next::Ended => Ok(false),
        Next::Ask(Place::Own) => step_alone(run, told),
        Next::Ask(Place::Board) => step_at_gate(rt, gates, run, passes, worker, hook, told),
        Next::Ask(Place::Memory(owner)) if gates.serves(Place::Memory(owner)) => {
            step_at_gate(rt, gates, run, passes, worker, hook, told)
        }
        Next::Ask(Place::Memory(_)) => Ok(false),
    }
}

/// Runs an image until it must wait (`Waits`) or has ended. True where it made a step.
pub fn run_image<R: Wait, M: Walker, O: Object, B: Object, H: Hook>(
    rt: &R,
    gates: &Gates<O, B>,
    run: &mut ImageRun<M>,
    passes: &mut Passes,
    worker: u32,
    hook: &H,
) -> Result<bool, NoMemory>
    requires passes { ArePassesOf gates.now.board gates.now.memories.items run.old passes.old }
    requires hears { HearsEvery M.step M.hears }
    ensures stays { StaysOn M.Walker gates.now.board gates.now.memories.items run.old passes.old run.new passes.new }
    ensures tells { IfOk result (HasMade run.old.events.items run.new.events.items) }
    ensures waits { IfOk result (λ _. Waits O.Object B.Object gates.now.board gates.now.memories.items M.Walker run.new passes.new) }
{
    let mut moved = false;
    let mut told = Told::nowhere();
    for _ in rt.forever() {
        if !advance(rt, gates, run, passes, worker, hook, &mut told)? {
            return Ok(moved);
        }
        moved = true;
    }
    unreachable!()
}

/// Runs an image for at most so many steps, until it must wait, has ended or only looks at what
/// doesn't change.
pub fn run_some<R: Wait, M: Walker, O: Object, B: Object, H: Hook>(
    rt: &R,
    gates: &Gates<O, B>,
    run: &mut ImageRun<M>,
    passes: &mut Passes,
    worker: u32,
    hook: &H,
    steps: u32,
    spin: &mut Spin,
) -> Result<Ran, NoMemory>
    requires passes { ArePassesOf gates.now.board gates.now.memories.items run.old passes.old }
    requires hears { HearsEvery M.step M.hears }
    ensures stays { StaysOn M.Walker gates.now.board gates.now.memories.items run.old passes.old run.new passes.new }
{
    let mut some = false;
    for _ in 0..steps {
        let mut told = Told::nowhere();
        if !advance(rt, gates, run, passes, worker, hook, &mut told)? {
            return Ok(Ran::new(some, Stop::Held, told));
        }
        some = true;
        spin.count(&told.look);
        if spin.waits() {
            return Ok(Ran::new(some, Stop::Looks, told));
        }
    }
    Ok(Ran::new(some, Stop::Tired, Told::nowhere()))
}
