//! One image that is run by itself, step by step, by who has the objects elsewhere: what it does next, its next ask,
//! and its own steps.

ghost use Rattle.std.specs.Prelude.{◌≡◌, ◌<◌, ◌^◌, ◌++◌, ◌∷◌, ◌↔◌, [], List, true, false, IsTrue, IfOk, OnOk, OnErr};
ghost use Rattle.trace_theory.specs.Machines.{Rests};
ghost use Rattle.caf_base.specs.declared.place.Place.TheVariants as places;
ghost use Rattle.caf_events.specs.Asks.{place_of};
ghost use Rattle.caf_events.specs.Events.{EndsRun};
ghost use Rattle.caf_events.specs.Walkers.{IsAtAsk, IsAtLine, AsksNext, NextIs};
ghost use Rattle.caf_events.specs.declared.event.Event.{Event};
ghost use Rattle.caf_events.specs.declared.reply.Reply.TheVariants as replies;
ghost use Rattle.core_runs.specs.Lists.{last_of};
ghost use Rattle.image_core.specs.Prepared.{move_of, HasRoom, StepsAlone};

use crate::run::ImageRun;
use crate::step::{commit_alone, next_ask, prepare_alone};
use caf_base::refusal::NoMemory;
use caf_events::ask::Ask;
use caf_events::walker::{Next, Walker};

impl<M: Walker> ImageRun<M> {
    /// What the image does next: it asks at a place, or it has ended.
    pub fn want(&self) -> Next
        ensures { NextIs (move_of M.Walker self.now) result }
    {
        self.machine.next()
    }

    /// The line of the image's next step.
    pub fn line(&self) -> u32
        requires { IsAtAsk (move_of M.Walker self.now) }
        ensures { IsAtLine (move_of M.Walker self.now) result }
    {
        self.machine.line()
    }

    /// The stamp of the image's last event, 0 where there is none.
    pub fn last_stamp(&self) -> u64
        ensures { result ≡ last_of self.now.events.items }
    {
        self.last
    }

    /// Whether the image's last event ends the run; where there is none, it doesn't.
    pub fn ended_run(&self) -> bool
        ensures last { (es : List Event) (e : Event) → self.now.events.items ≡ es ++ e ∷ [] → (IsTrue result ↔ EndsRun e) }
        ensures none { self.now.events.items ≡ [] → result ≡ false }
    {
        match self.events.last() {
            Some(event) => event.ends_run(),
            None => false,
        }
    }

    /// The image's next ask, with room for its event and for what its reply brings.
    pub fn ask(&mut self) -> Result<Ask, NoMemory>
        requires { IsAtAsk (move_of M.Walker self.old) }
        ensures image { self.new.image ≡ self.old.image }
        ensures machine { M.config self.new.machine ≡ M.config self.old.machine }
        ensures events { self.new.events.items ≡ self.old.events.items }
        ensures room { OnOk result (HasRoom M.Walker self.new) }
        ensures asked { IfOk result (AsksNext (move_of M.Walker self.old)) }
    {
        next_ask(self)
    }

    /// The step of the next ask, which the image makes by itself. After want of memory it isn't made.
    pub fn own(&mut self, ask: Ask) -> Result<(), NoMemory>
        requires asked { AsksNext (move_of M.Walker self.old) ask }
        requires place { place_of ask ≡ places.Own }
        requires room { HasRoom M.Walker self.old }
        requires hears { M.hears (M.config self.old.machine) replies.Done }
        requires after { last_of self.old.events.items < 2 ^ 62 }
        ensures image { self.new.image ≡ self.old.image }
        ensures step { OnOk result ((e : Event) × StepsAlone M.Walker self.old self.new e) }
        ensures rests { OnOk result (Rests (move_of M.Walker self.new)) }
        ensures spends { OnOk result (M.asks_left (M.config self.new.machine) < M.asks_left (M.config self.old.machine)) }
        ensures err { OnErr result ((M.config self.new.machine ≡ M.config self.old.machine) × (self.new.events.items ≡ self.old.events.items)) }
    {
        prepare_alone(self, ask)?;
        commit_alone(self);
        Ok(())
    }
}
