//! One image of a run: its machine, and the steps that it made.

ghost use Rattle.std.specs.Prelude.{◌≡◌, ◌<◌, ◌≤◌, ◌+◌, ◌^◌, ℕ, List, [], ◌∷◌, ◌++◌, IfOk, OnOk, OnErr, MatchOption, vec_len, vec_capacity};
ghost use Rattle.core_runs.specs.Lists.{last_of};

use crate::prepared::Prepared;
use caf_base::place::ImageNo;
use caf_base::refusal::NoMemory;
use caf_events::ask::Ask;
use caf_events::event::Event;
use caf_events::walker::{Next, Walker};

/// One image: its number from 1, its machine, its events with the last one's stamp, and what is set aside for its next
/// step.
#[derive(Drop)]
pub struct ImageRun<M> {
    pub(crate) image: ImageNo,
    pub(crate) machine: M,
    pub(crate) events: Vec<Event>,
    pub(crate) last: u64,
    pub(crate) prepared: Prepared,
    ghost last_is: { last ≡ last_of events.items },
}

impl<M: Walker> ImageRun<M> {
    ghost use Rattle.caf_events.specs.Walkers.{IsAtAsk, IsAtLine, IsOver, AsksNext, Continues};
    ghost use Rattle.trace_theory.specs.Machines.{Rests};
    ghost use Rattle.image_core.specs.Prepared.{HasRoom};

    /// The image's number.
    pub fn image(&self) -> ImageNo
        ensures { result ≡ self.now.image }
    {
        self.image
    }

    /// The events that the image made, the oldest first.
    pub fn events(&self) -> &[Event]
        ensures { result.now ≡ self.now.events.items }
    {
        self.events.as_slice()
    }

    /// The image's machine, at its next ask or its end.
    pub fn machine(&self) -> &M
        ensures { result.now ≡ self.now.machine }
    {
        &self.machine
    }

    /// The line and the ask of the image's next step; None where the image has ended.
    pub fn waiting(&self) -> Result<Option<(u32, Ask)>, NoMemory>
        ensures { IfOk result (λ o. MatchOption o (IsOver (M.step (M.config self.now.machine))) (λ w. IsAtLine (M.step (M.config self.now.machine)) w.0 × AsksNext (M.step (M.config self.now.machine)) w.1)) }
    {
        match self.machine.next() {
            Next::Ended => Ok(None),
            Next::Ask(_) => {
                let ask = self.machine.ask()?;
                Ok(Some((self.machine.line(), ask)))
            }
        }
    }

    // Room for one event more, and in the machine for what its reply brings.
    #[inline(always)]
    pub(crate) fn make_room(&mut self) -> Result<(), NoMemory>
        requires { IsAtAsk (M.step (M.config self.old.machine)) }
        ensures image { self.new.image ≡ self.old.image }
        ensures machine { M.config self.new.machine ≡ M.config self.old.machine }
        ensures events { self.new.events.items ≡ self.old.events.items }
        ensures last { self.new.last ≡ self.old.last }
        ensures prepared { self.new.prepared ≡ self.old.prepared }
        ensures room { OnOk result (HasRoom M.Walker self.new) }
    {
        self.events.reserve(1)?;
        self.machine.reserve()
    }

    /// Appends the event of the next ask, and goes on with its reply.
    #[tactic(auto, using(crate::proofs::Last::last_more))]
    pub fn take(&mut self, event: Event)
        requires asked { AsksNext (M.step (M.config self.old.machine)) event.ask }
        requires line { IsAtLine (M.step (M.config self.old.machine)) event.line }
        requires hears { M.hears (M.config self.old.machine) event.reply }
        requires room { HasRoom M.Walker self.old }
        ensures image { self.new.image ≡ self.old.image }
        ensures events { self.new.events.items ≡ self.old.events.items ++ event ∷ [] }
        ensures goes { Continues M.step (M.step (M.config self.old.machine)) event.reply (M.config self.new.machine) }
        ensures rests { Rests (M.step (M.config self.new.machine)) }
        ensures spends { M.asks_left (M.config self.new.machine) < M.asks_left (M.config self.old.machine) }
    {
        self.machine.give(&event);
        self.last = event.stamp();
        self.events.push_reserved(event);
    }
}
