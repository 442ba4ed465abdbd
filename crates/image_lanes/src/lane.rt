//! The machine of a lane.

ghost use Rattle.std.specs.Prelude.{◌≡◌, ◌<◌, ◌^◌, ◌||◌, true, false, IfOk};
ghost use Rattle.trace_theory.specs.Machines.{Rests};
ghost use Rattle.caf_events.specs.declared.ask.Ask.TheVariants as asking;
ghost use Rattle.caf_events.specs.Events.{counts_words, is_of_lock, words_by};
ghost use Rattle.caf_events.specs.Walkers.{IsAtAsk, AsksNext, IsAtLine, Continues};
ghost use Rattle.image_lanes.specs.Lanes.{is_failure, is_due, is_full, lane_start, lane_step, lane_hears, begins_to_fail, fails_on, comes_to_end, goes_past};
ghost use Rattle.image_lanes.specs.LaneStates.{lane_of, Given};
ghost use Rattle.image_lanes.specs.Holds.{steps_from, rest_of};
ghost use Rattle.image_lanes.specs.declared.course.Going.TheVariants as goings;

use crate::course::{Failing, Going};
use crate::held::HeldLocks;
use crate::words::{is_recorded, words_of};
use caf_base::place::{ImageNo, Place};
use caf_base::refusal::NoMemory;
use caf_events::ask::Ask;
use caf_events::event::Event;
use caf_events::walker::{Next, Walker};
use std::alloc::Global;

/// The machine of an image's program with the image's failure and its limit of recorded words.
#[derive(Drop)]
pub struct Lane<M> {
    alloc: Global,
    image: ImageNo,
    fails_in: u32,
    limit: u32,
    machine: M,
    words: u128,
    held: HeldLocks,
    going: Going,
}

// Whether the ask is that of FAIL IMAGE.
fn fails(ask: &Ask) -> bool
    ensures { result ≡ is_failure ask.now }
{
    matches!(ask, Ask::Fail)
}

impl<M: Walker> Lane<M> {
    /// The lane of an image before its first step. Its failure starts at its event of the number `fails_at`, counted
    /// from 1 (0 for none), if its program doesn't fail before; with `limit` recorded words or more its next step is
    /// the limit.
    pub fn new(alloc: Global, image: ImageNo, fails_at: u32, limit: u32, machine: M) -> Lane<M>
        ensures { lane_of M.Walker result ≡ lane_start image.0 fails_at limit (M.config machine) }
    {
        Lane {
            alloc,
            image,
            fails_in: fails_at,
            limit,
            machine,
            words: 0,
            held: HeldLocks::new(alloc),
            going: Going::ByProgram,
        }
    }

    /// The machine of the image's program, where the lane has left it.
    pub fn machine(&self) -> &M
        ensures { result.now ≡ self.now.machine }
    {
        &self.machine
    }

    fn is_due(&self) -> bool
        ensures { result ≡ is_due (lane_of M.Walker self.now) }
    {
        self.fails_in == 1
    }

    fn is_full(&self) -> bool
        ensures is { result ≡ is_full (lane_of M.Walker self.now) }
        ensures few { result ≡ false → self.now.words < 2 ^ 32 }
    {
        u128::from(self.limit) <= self.words
    }

    // The limit, with the count of recorded words. No memory has an event with as many words as leave 64 bits.
    fn limit(&self) -> Result<Ask, NoMemory>
        ensures { IfOk result (λ ask. ask ≡ asking.LimitWords self.now.words) }
    {
        match u64::try_from(self.words) {
            Ok(number) => Ok(Ask::LimitWords { number }),
            Err(_) => Err(NoMemory),
        }
    }

    // The next ask where the limit has been reached and no failure of the list is due: FAIL IMAGE, or the limit.
    fn ask_when_full(&self) -> Result<Ask, NoMemory>
        requires going { self.now.going ≡ goings.ByProgram }
        requires due { is_due (lane_of M.Walker self.now) ≡ false }
        requires full { is_full (lane_of M.Walker self.now) ≡ true }
        requires ask { IsAtAsk (lane_step M.step (lane_of M.Walker self.now)) }
        ensures { IfOk result (AsksNext (lane_step M.step (lane_of M.Walker self.now))) }
    {
        let ask = self.machine.ask()?;
        if fails(&ask) {
            Ok(ask)
        } else {
            drop(ask);
            self.limit()
        }
    }

    fn begin_to_fail(&mut self, line: u32)
        ensures { lane_of M.Walker self.new ≡ begins_to_fail (lane_of M.Walker self.old) line }
    {
        self.going = Going::Failing {
            step: Failing::Mark,
            line,
        };
    }

    fn come_to_end(&mut self)
        ensures { lane_of M.Walker self.new ≡ comes_to_end (lane_of M.Walker self.old) }
    {
        self.going = Going::AtEnd;
    }

    // A step of the program behind which it goes on.
    fn go_past(&mut self, asked: &Ask, event: &Event)
        requires going { self.old.going ≡ goings.ByProgram }
        requires ask { asked.now ≡ event.now.ask }
        requires asked { AsksNext (M.step (M.config self.old.machine)) event.now.ask }
        requires line { IsAtLine (M.step (M.config self.old.machine)) event.now.line }
        requires hears { M.hears (M.config self.old.machine) event.now.reply }
        requires room { M.has_room self.old.machine }
        requires lock { 0 < self.old.held.room }
        requires few { self.old.words < 2 ^ 32 }
        ensures past { lane_of M.Walker self.new ≡ goes_past (lane_of M.Walker self.old) event.now.ask event.now.reply (M.config self.new.machine) }
        ensures goes { Continues M.step (M.step (M.config self.old.machine)) event.now.reply (M.config self.new.machine) }
        ensures rests { Rests (M.step (M.config self.new.machine)) }
    {
        self.machine.give(event);
        self.fails_in = self.fails_in.saturating_sub(1);
        let reply = event.reply(self.alloc);
        self.words += words_of(asked, &reply);
        self.held.note(asked, &reply);
        drop(reply);
    }

    // Whether the image fails with this ask of the lane: by the list, or by its statement.
    fn begins_failure(&self, asked: &Ask) -> bool
        ensures { result ≡ (is_due (lane_of M.Walker self.now) || is_failure asked.now) }
    {
        self.is_due() || fails(asked)
    }

    // Goes on with an event, where the lane goes on by its program.
    fn go_on(&mut self, asked: &Ask, event: &Event)
        requires going { self.old.going ≡ goings.ByProgram }
        requires ask { asked.now ≡ event.now.ask }
        requires asked { AsksNext (lane_step M.step (lane_of M.Walker self.old)) event.now.ask }
        requires line { IsAtLine (lane_step M.step (lane_of M.Walker self.old)) event.now.line }
        requires hears { lane_hears M.step M.hears (lane_of M.Walker self.old) event.now.reply }
        requires room { M.has_room self.old.machine }
        requires lock { 0 < self.old.held.room }
        ensures { Given M.step (lane_of M.Walker self.old) event.now.reply (lane_of M.Walker self.new) }
    {
        if self.begins_failure(asked) {
            self.begin_to_fail(event.line());
        } else if self.is_full() {
            self.come_to_end();
        } else if is_recorded(asked) {
            self.go_past(asked, event);
        } else {
            self.come_to_end();
        }
    }

    // A step of the program behind which it goes on, which records so many words and asks nothing of a lock.
    #[tactic(auto, using(crate::proofs::Plainly::held_without_lock))]
    fn go_past_plainly(&mut self, words: u32, event: &Event)
        requires going { self.old.going ≡ goings.ByProgram }
        requires words { words_by event.now.ask event.now.reply ≡ words }
        requires plain { is_of_lock event.now.ask ≡ false }
        requires asked { AsksNext (M.step (M.config self.old.machine)) event.now.ask }
        requires line { IsAtLine (M.step (M.config self.old.machine)) event.now.line }
        requires hears { M.hears (M.config self.old.machine) event.now.reply }
        requires room { M.has_room self.old.machine }
        requires few { self.old.words < 2 ^ 32 }
        ensures past { lane_of M.Walker self.new ≡ goes_past (lane_of M.Walker self.old) event.now.ask event.now.reply (M.config self.new.machine) }
        ensures goes { Continues M.step (M.step (M.config self.old.machine)) event.now.reply (M.config self.new.machine) }
        ensures rests { Rests (M.step (M.config self.new.machine)) }
    {
        self.machine.give(event);
        self.fails_in = self.fails_in.saturating_sub(1);
        self.words += u128::from(words);
    }

    // Goes on with an event that records so many words and asks nothing of a lock, where the lane goes on by its
    // program.
    fn go_on_plainly(&mut self, words: u32, event: &Event)
        requires going { self.old.going ≡ goings.ByProgram }
        requires recorded { counts_words event.now.ask ≡ true }
        requires words { words_by event.now.ask event.now.reply ≡ words }
        requires plain { is_of_lock event.now.ask ≡ false }
        requires asked { AsksNext (lane_step M.step (lane_of M.Walker self.old)) event.now.ask }
        requires line { IsAtLine (lane_step M.step (lane_of M.Walker self.old)) event.now.line }
        requires hears { lane_hears M.step M.hears (lane_of M.Walker self.old) event.now.reply }
        requires room { M.has_room self.old.machine }
        requires lock { 0 < self.old.held.room }
        ensures { Given M.step (lane_of M.Walker self.old) event.now.reply (lane_of M.Walker self.new) }
    {
        if self.is_due() {
            self.begin_to_fail(event.line());
        } else if self.is_full() {
            self.come_to_end();
        } else {
            self.go_past_plainly(words, event);
        }
    }

    // Goes on with an event by its ask, where the lane goes on by its program.
    fn go_on_by_ask(&mut self, event: &Event)
        requires going { self.old.going ≡ goings.ByProgram }
        requires asked { AsksNext (lane_step M.step (lane_of M.Walker self.old)) event.now.ask }
        requires line { IsAtLine (lane_step M.step (lane_of M.Walker self.old)) event.now.line }
        requires hears { lane_hears M.step M.hears (lane_of M.Walker self.old) event.now.reply }
        requires room { M.has_room self.old.machine }
        requires lock { 0 < self.old.held.room }
        ensures { Given M.step (lane_of M.Walker self.old) event.now.reply (lane_of M.Walker self.new) }
    {
        let asked = event.told().ask(self.alloc);
        self.go_on(&asked, event);
        drop(asked);
    }

    // Goes on with the next step of a failure.
    fn fail_on(&mut self, step: Failing, line: u32)
        ensures { lane_of M.Walker self.new ≡ fails_on (lane_of M.Walker self.old) (rest_of (steps_from self.old.image.0 self.old.held.locks step)) line }
    {
        let step = step.after(&self.held);
        self.going = Going::Failing { step, line };
    }
}

impl<M: Walker> Walker for Lane<M> {
    ghost use Rattle.std.specs.Prelude.{◌<◌};
    ghost use Rattle.image_lanes.specs.Lanes.{OnLane, lane_step, lane_hears, lane_left};
    ghost use Rattle.image_lanes.specs.Holds.{ByProgram};
    ghost use Rattle.image_lanes.specs.LaneStates.{lane_of};

    ghost Config = { OnLane M.Config };

    ghost config = { lane_of M.Walker };

    ghost step = { lane_step M.step };

    ghost hears = { lane_hears M.step M.hears };

    ghost asks_left = { lane_left M.step };

    ghost has_room = { λ l. ByProgram l.going (M.has_room l.machine × (0 < l.held.room)) };

    #[inline(always)]
    fn next(&self) -> Next {
        match self.going {
            Going::ByProgram => match self.machine.next() {
                Next::Ask(_) if self.is_due() || self.is_full() => Next::Ask(Place::Own),
                next => next,
            },
            Going::Failing { step, .. } => step.next(self.image, &self.held),
            Going::AtEnd => Next::Ended,
        }
    }

    #[inline(always)]
    fn ask(&self) -> Result<Ask, NoMemory> {
        match self.going {
            Going::ByProgram if self.is_due() => Ok(Ask::Fail),
            Going::ByProgram if self.is_full() => self.ask_when_full(),
            Going::ByProgram => self.machine.ask(),
            Going::Failing { step, .. } => match step.ask(self.alloc, self.image, &self.held) {
                Some(ask) => Ok(ask),
                None => unreachable!(),
            },
            Going::AtEnd => unreachable!(),
        }
    }

    fn line(&self) -> u32 {
        match self.going {
            Going::ByProgram if self.is_due() => 0,
            Going::ByProgram => self.machine.line(),
            Going::Failing { line, .. } => line,
            Going::AtEnd => unreachable!(),
        }
    }

    fn reserve(&mut self) -> Result<(), NoMemory> {
        match self.going {
            Going::ByProgram => {
                self.machine.reserve()?;
                self.held.reserve()
            }
            _ => Ok(()),
        }
    }

    fn give(&mut self, event: &Event) {
        match self.going {
            Going::ByProgram => match event.told().plain_words() {
                Some(words) => self.go_on_plainly(words, event),
                None => self.go_on_by_ask(event),
            },
            Going::Failing { step, line } => self.fail_on(step, line),
            Going::AtEnd => {}
        }
    }
}
