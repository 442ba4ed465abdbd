//! How a worker rests that has nothing to do. No clause speaks of it.

use crate::member::Member;
use crossbeam_utils::Backoff;
use image_gate::news::News;
use image_turns::looks::Look;
use image_turns::turns::{Ran, Stop, Told};
use std::sync::Wait;

/// So many rounds in a row in which none of its images could step a worker spins between them; from then on it sleeps
/// until something moves.
const SPINS: u32 = 20;

/// So often a worker with nothing to do naps for a millisecond while not all workers have started.
const START_NAPS: u32 = 200;

/// So many rounds an image that looks at what doesn't change lets pass at most.
const LONGEST_PAUSE: u32 = 64;

/// A worker whose images only look at what doesn't change sleeps so many microseconds at first, and at most.
const FIRST_NAP: u64 = 50;

const LONGEST_NAP: u64 = 1_000;

/// What a round over a worker's images came to, and what one image did in it.
#[derive(Clone, Copy)]
pub(crate) enum Round {
    /// A step was made that isn't only a look.
    Moved,
    /// None was, and an image looks at what doesn't change.
    Looks,
    /// None was, and not all have ended.
    Quiet,
    /// All have ended.
    Done,
}

/// The round of two parts.
pub(crate) fn both(one: Round, other: Round) -> Round {
    match (one, other) {
        (Round::Moved, _) | (_, Round::Moved) => Round::Moved,
        (Round::Looks, _) | (_, Round::Looks) => Round::Looks,
        (Round::Quiet, _) | (_, Round::Quiet) => Round::Quiet,
        (Round::Done, Round::Done) => Round::Done,
    }
}

/// Why an image isn't asked for now.
#[derive(Clone, Copy)]
pub(crate) enum Pause {
    /// It may go on.
    None,
    /// It was refused in this turn, or has ended.
    Held(Told),
    /// It looks at what doesn't change, and lets so many rounds pass.
    Looks { look: Look, rounds: u32 },
}

/// Whether an image goes on to be paused: nothing came free where it was refused, or another one's ask of the same key
/// was refused since; or nothing has changed where it looks, and it lets one more round pass.
pub(crate) fn is_paused(news: &News, pause: &mut Pause, last: &Told) -> bool {
    match *pause {
        Pause::None => false,
        Pause::Held(told) => {
            if news.freed(told.at) == told.freed {
                return true;
            }
            let same = told.key != 0 && told.key == last.key;
            if same {
                *pause = Pause::Held(*last);
            }
            same
        }
        Pause::Looks { look, rounds } => {
            let still = rounds > 0 && news.changed(look.at) == look.changed;
            if still {
                *pause = Pause::Looks {
                    look,
                    rounds: rounds - 1,
                };
            }
            still
        }
    }
}

/// The pause of an image that has come so far.
pub(crate) fn pause_of(ran: &Ran, same: u32) -> Pause {
    match ran.stop {
        Stop::Tired => Pause::None,
        Stop::Held => Pause::Held(ran.told),
        Stop::Looks => Pause::Looks {
            look: ran.told.look,
            rounds: (same / 8).min(LONGEST_PAUSE),
        },
    }
}

/// What an image did that has come so far, where this is what it does without a step.
pub(crate) fn round_of(ran: &Ran, stand: Round) -> Round {
    match ran.stop {
        Stop::Tired => Round::Moved,
        Stop::Looks => Round::Looks,
        Stop::Held if ran.moved => Round::Moved,
        Stop::Held => stand,
    }
}

/// The turn that was refused last.
pub(crate) fn refused(ran: &Ran, last: Told) -> Told {
    match ran.stop {
        Stop::Held => ran.told,
        Stop::Tired | Stop::Looks => last,
    }
}

// Whether all images of a worker are held where nothing came free since.
fn are_still<M>(news: &News, members: &Vec<Member<M>>) -> bool {
    for j in 0..members.len() {
        if let Pause::Held(told) = members[j].pause {
            if news.freed(told.at) != told.freed {
                return false;
            }
        }
    }
    true
}

/// How long a worker has had nothing to do.
#[derive(Drop)]
pub(crate) struct Pace {
    workers: usize,
    rounds: u32,
    naps: u32,
    backoff: Backoff,
}

impl Pace {
    /// One of so many workers starts.
    pub(crate) fn new(workers: usize) -> Pace {
        Pace {
            workers,
            rounds: 0,
            naps: 0,
            backoff: Backoff::new(),
        }
    }

    /// It had something to do.
    fn goes_on(&mut self) {
        self.rounds = 0;
        self.naps = 0;
        self.backoff.reset();
    }

    // Spins, as long as it is worth it. True where it did.
    fn spins(&mut self) -> bool {
        if self.rounds >= SPINS {
            return false;
        }
        self.rounds += 1;
        self.backoff.spin();
        true
    }

    // Naps while not all workers have started. True where it did.
    fn waits_for_start<R: Wait>(&mut self, rt: &R, news: &News) -> bool {
        if self.naps >= START_NAPS || news.have_started(self.workers) {
            return false;
        }
        self.naps += 1;
        news.nap(rt, LONGEST_NAP);
        true
    }

    // Naps, each time a little longer.
    fn naps<R: Wait>(&mut self, rt: &R, news: &News) {
        let micros = (FIRST_NAP << self.naps.min(5)).min(LONGEST_NAP);
        self.naps = self.naps.saturating_add(1);
        news.nap_looking(rt, micros);
    }
}

// Tells where the images of a worker wait that is about to rest.
fn lie_down<M>(news: &News, members: &Vec<Member<M>>) {
    for j in 0..members.len() {
        if let Pause::Held(told) = members[j].pause {
            news.waits(told.at);
        }
    }
}

// They don't any more.
fn rise<M>(news: &News, members: &Vec<Member<M>>) {
    for j in 0..members.len() {
        if let Pause::Held(told) = members[j].pause {
            news.waits_no_more(told.at);
        }
    }
    news.rises();
}

// Sleeps until something comes free where an image of the worker waits; the last worker that could sleep ends the run
// for all.
fn sleeps<R: Wait, M>(rt: &R, news: &News, members: &Vec<Member<M>>) {
    lie_down(news, members);
    let ring = news.lies_down();
    if !news.is_over() && are_still(news, members) {
        match news.is_last(ring) {
            Some(true) => news.finish(),
            Some(false) => news.sleep(rt, ring),
            None => {}
        }
    }
    rise(news, members);
}

/// What a worker does behind a round. True where it comes to its end: all its images have ended, or the run is over
/// for all workers.
pub(crate) fn rests<R: Wait, M>(
    rt: &R,
    news: &News,
    members: &Vec<Member<M>>,
    round: Round,
    pace: &mut Pace,
) -> bool {
    match round {
        Round::Done => return true,
        Round::Moved => pace.goes_on(),
        Round::Looks => {
            if !pace.spins() {
                pace.naps(rt, news);
            }
        }
        Round::Quiet => {
            if !pace.spins() && !pace.waits_for_start(rt, news) {
                sleeps(rt, news, members);
            }
        }
    }
    news.is_over()
}
