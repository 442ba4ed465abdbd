//! The options of a command, one by one.

ghost use Rattle.std.specs.Prelude.{◌≡◌, ◌≤◌, List, IfSome, IfNone, IsTrue, ◌↔◌};
ghost use Rattle.caf_words.specs.declared.command.FailAt.{FailAt};
ghost use Rattle.caf_words.specs.declared.options.Given.{Given};
ghost use Rattle.caf_words.specs.declared.options.Key.{Key};
ghost use Rattle.caf_words.specs.Words.{words_in, MayOrder, MayShow};
ghost use Rattle.caf_words.specs.Words as spec;
ghost use Rattle.caf_words.specs.Readings.{IsNextKey, Flags, Gives, IsNext, listed};

use crate::command::{FailAt, Goal, Options, Verb, Way};
use crate::failure::failure_of;
use crate::number::number_between;
use caf_base::limits::{DEFAULT_STATEMENTS, IMAGES, STATEMENTS};

/// The greatest seed of an order, and of a made source.
pub(crate) const GREATEST_SEED: u32 = 2_147_483_647;

/// The number of images where the words don't say it.
const DEFAULT_IMAGES: u32 = 4;

/// The number of workers where the words say neither it nor an order.
const DEFAULT_WORKERS: u32 = 4;

/// The greatest number of workers that may be told.
const GREATEST_WORKERS: u32 = 64;

/// The options of a command that were given so far, each of which stands once at most.
#[derive(Clone, Copy)]
pub(crate) struct Given {
    pub images: Option<u32>,
    pub workers: Option<u32>,
    pub order: Option<u32>,
    pub steps: Option<u32>,
    pub trace: bool,
    pub vars: bool,
    pub why: bool,
    pub every: bool,
}

/// An option with a value that may come next.
#[derive(Clone, Copy)]
pub(crate) enum Key {
    Images,
    Workers,
    Order,
    Steps,
    Fail,
}

/// An option that stands next.
#[derive(Clone, Copy)]
pub(crate) struct Taken {
    /// What is given with it.
    pub given: Given,
    /// The failure that it names.
    pub fail: Option<FailAt>,
    /// How many words it has.
    pub words: u32,
}

/// What stands next among the words of a command.
#[derive(Clone, Copy)]
pub(crate) enum Next {
    Option(Taken),
    /// No option: the verb's operands have to stand here.
    Operands,
    /// An option's key, with no value of it behind.
    WrongValue,
}

impl Given {
    /// No options yet.
    pub fn nothing() -> Given
        ensures { result ≡ spec.nothing }
    {
        Given {
            images: None,
            workers: None,
            order: None,
            steps: None,
            trace: false,
            vars: false,
            why: false,
            every: false,
        }
    }

    /// What a run is told by its options, and whether it is summed up.
    pub fn told(&self, summary: bool) -> Options
        ensures { result ≡ spec.told self.now summary }
    {
        Options {
            images: or_default(self.images, DEFAULT_IMAGES),
            way: self.way(),
            steps: u64::from(or_default(self.steps, DEFAULT_STATEMENTS as u32)),
            trace: self.trace,
            vars: self.vars,
            why: self.why,
            every: self.every,
            summary,
        }
    }

    // In the order that is given, or else on the workers.
    fn way(&self) -> Way
        ensures { result ≡ spec.way_of self.now }
    {
        match self.order {
            Some(seed) => Way::Order(seed),
            None => Way::Workers(or_default(self.workers, DEFAULT_WORKERS)),
        }
    }
}

// The number that is given, else another.
fn or_default(given: Option<u32>, default: u32) -> u32
    ensures { result ≡ spec.given_or default given }
{
    match given {
        Some(n) => n,
        None => default,
    }
}

// Whether the options of a verb may say how the images run.
fn may_order(verb: Verb) -> bool
    ensures { IsTrue result ↔ MayOrder verb }
{
    match verb {
        Verb::Run => true,
        Verb::Traced(_) => false,
    }
}

// Whether the options of a verb may say what is shown of a run.
fn may_show(verb: Verb) -> bool
    ensures { IsTrue result ↔ MayShow verb }
{
    match verb {
        Verb::Run | Verb::Traced(Goal::Replay) => true,
        Verb::Traced(Goal::Judge) => false,
    }
}

// The key of an option with a value that may come next behind a verb.
fn next_key(verb: Verb, word: &str, given: Given) -> Option<Key>
    ensures key { IfSome result (IsNextKey verb given word.now) }
    ensures none { IfNone result ((k : Key) → ¬ IsNextKey verb given word.now k) }
{
    let free = may_order(verb) && given.workers.is_none() && given.order.is_none();
    match word {
        "-n" if given.images.is_none() => Some(Key::Images),
        "-w" if free => Some(Key::Workers),
        "--order" if free => Some(Key::Order),
        "--steps" if given.steps.is_none() => Some(Key::Steps),
        "--fail" => Some(Key::Fail),
        _ => None,
    }
}

// What is given with an option without a value that may come next behind a verb.
fn flagged_with(verb: Verb, word: &str, given: Given) -> Option<Given>
    ensures given { IfSome result (Flags verb given word.now) }
    ensures none { IfNone result ((h : Given) → ¬ Flags verb given word.now h) }
{
    match word {
        "--trace" if may_show(verb) && !given.trace => Some(Given {
            trace: true,
            ..given
        }),
        "--vars" if may_show(verb) && !given.vars => Some(Given {
            vars: true,
            ..given
        }),
        "--why" if may_show(verb) && !given.why => Some(Given { why: true, ..given }),
        "--every" if may_show(verb) && !given.every => Some(Given {
            every: true,
            ..given
        }),
        _ => None,
    }
}

// What an option gives with its value.
fn taken_with(key: Key, word: &str, given: Given) -> Option<Taken>
    ensures taken { IfSome result (λ t. (t.words ≡ 2) × Gives given key word.now t.given (listed t.fail)) }
    ensures none { IfNone result ((h : Given) (named : List FailAt) → ¬ Gives given key word.now h named) }
{
    let mut taken = Taken {
        given,
        fail: None,
        words: 2,
    };
    match key {
        Key::Images => taken.given.images = Some(number_between(word, 1, IMAGES)?),
        Key::Workers => taken.given.workers = Some(number_between(word, 1, GREATEST_WORKERS)?),
        Key::Order => taken.given.order = Some(number_between(word, 0, GREATEST_SEED)?),
        Key::Steps => taken.given.steps = Some(number_between(word, 1, STATEMENTS as u32)?),
        Key::Fail => taken.fail = Some(failure_of(word)?),
    }
    Some(taken)
}

/// What stands next among the words of a command, behind its verb and the options that are given so far.
pub(crate) fn next_option(verb: Verb, words: &[String], given: Given) -> Next
    ensures { IsNext verb given (words_in words.now) result }
{
    let [first, behind @ ..] = words else {
        return Next::Operands;
    };
    let word = first.as_str();
    if let Some(given) = flagged_with(verb, word, given) {
        return Next::Option(Taken {
            given,
            fail: None,
            words: 1,
        });
    }
    let Some(key) = next_key(verb, word, given) else {
        return Next::Operands;
    };
    let [second, ..] = behind else {
        return Next::WrongValue;
    };
    match taken_with(key, second.as_str(), given) {
        Some(taken) => Next::Option(taken),
        None => Next::WrongValue,
    }
}
