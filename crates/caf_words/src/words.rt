//! The words of the command line.

ghost use Rattle.std.specs.Prelude.{◌≡◌, ◌≢◌, ◌<◌, ◌+◌, ◌-◌, ◌^◌, ℕ, List, ◌++◌, length, IsOk, IfOk, IfErr, IfSome, IfNone, IsTrue, ◌↔◌};
ghost use Rattle.caf_words.specs.declared.command.Command.{Command};
ghost use Rattle.caf_words.specs.declared.command.FailAt.{FailAt};
ghost use Rattle.caf_words.specs.Words as spec;
ghost use Rattle.caf_words.specs.Usages.{Word};
ghost use Rattle.caf_words.specs.Words.{Origin, words_in, IsInput, Means, IsValid, UsageIs, IsRefusalOf, IsFileName, AreSeedAndSize, CommandsWithFailure, verb_word};
ghost use Rattle.caf_words.specs.declared.command.Verb.{Verb};
ghost use Rattle.caf_words.specs.declared.command.Verb.TheVariants as verbs;
ghost use Rattle.caf_words.specs.Readings.{Rests, FileAlone, SizeAlone, MadeAlone, OriginAlone, TraceAlone, IsSize, listed, BeginsNoOption, AreKept, EndsCommand, CommandFrom, ChecksFrom, MakesFrom, IsInputOf, ArePlacesOf, IsRefusedFrom, RestsWithFailure, IsMisread};

use crate::command::{Command, FailAt, Goal, Input, Places, Verb};
use crate::number::number_between;
use crate::options::{GREATEST_SEED, Given, Next, next_option};
use caf_base::listing::Listing;
use caf_base::refusal::Refusal;
use std::alloc::Global;

/// The greatest size of a made source.
const GREATEST_SIZE: u32 = 4_096;

/// Words that are no command: the number of the first word, from 1, with which no valid list of words begins, or the
/// number of words plus one where they are a valid list cut short.
#[derive(Clone, Copy)]
pub struct Usage {
    pub word: u32,
}

/// What makes a source.
#[derive(Clone, Copy)]
struct Made {
    seed: u32,
    size: u32,
}

/// The command that the words mean: `run OPTIONS FILE`, `run OPTIONS --made SEED SIZE`, `judge OPTIONS TRACE FILE`,
/// `replay OPTIONS TRACE FILE`, `check FILE` or `make SEED SIZE`. OPTIONS of `run` are, in any order, `-n N`, with N
/// from 1 to 256, 4 where it isn't given, `-w W`, with W from 1 to 64, 4 where neither it nor an order is given,
/// `--order SEED`, with SEED from 0 to 2147483647, `--steps N`, with N from 1 to 100000000, 1000000 where it isn't
/// given, `--trace`, `--vars`, `--why`, `--every`, and `--fail I@K`, with I from 1 to 256 and K from 1 to 1000000; those
/// of `replay` are these without `-w` and `--order`, and those of `judge` are `-n`, `--steps` and `--fail`. Each stands
/// once at most, but `--fail`; `-w` and `--order` don't stand together. The SEED of a made source is from 0 to
/// 2147483647, its SIZE from 1 to 4096. Numbers are decimal digits without a sign and without a leading zero other than
/// `0` itself; TRACE and FILE aren't empty and don't begin with `-`.
/// Other words have a usage number. Want of memory comes only where there are more words than a number can tell, or
/// where valid words name failures.
pub fn words_of(alloc: Global, words: &[String]) -> Result<Command, Refusal<Usage>>
    ensures means { IfOk result (Means (words_in words.now)) }
    ensures valid { IsValid (words_in words.now) → IfErr result (λ refusal. refusal ≡ Refusal.NoMemory) }
    ensures refused { IfErr result (IsRefusalOf (words_in words.now)) }
    ensures usage { (k : ℕ) → UsageIs (words_in words.now) k → length words.now < 2 ^ 32 - 1
        → result ≡ Err (Refusal.Cause (record { word = k })) }
{
    if words.len() >= 4_294_967_295 {
        return Err(Refusal::NoMemory);
    }
    command_of(alloc, words)
}

/// Words have at most one usage number, and none where they are valid; valid words mean one command.
pub fn law_one_usage()
    ensures one { (words : List Word) (j k : ℕ) → UsageIs words j → UsageIs words k → j ≡ k }
    ensures none { (words : List Word) (k : ℕ) → UsageIs words k → ¬ IsValid words }
    ensures meaning { (words : List Word) (a b : Command) → Means words a → Means words b → a ≡ b }
{}

/// The refusal of words that go wrong at a place from 0.
fn wrong_at(place: u32) -> Refusal<Usage>
    requires { place < 4294967295 }
    ensures { result ≡ Refusal.Cause (record { word = place + 1 }) }
{
    Refusal::Cause(Usage { word: place + 1 })
}

/// The command of words that can be numbered.
fn command_of(alloc: Global, words: &[String]) -> Result<Command, Refusal<Usage>>
    requires { length words.now < 4294967295 }
    ensures means { IfOk result (Means (words_in words.now)) }
    ensures refused { IfErr result (IsMisread IsValid CommandsWithFailure (words_in words.now) 0) }
{
    let [first, rest @ ..] = words else {
        return Err(wrong_at(0));
    };
    let word = first.as_str();
    if let Some(verb) = verb_of(word) {
        return options_of(alloc, verb, rest);
    }
    match word {
        "check" => check_of(rest),
        "make" => make_of(rest),
        _ => Err(wrong_at(0)),
    }
}

/// The verb that a word is, of a command with options.
fn verb_of(word: &str) -> Option<Verb>
    ensures verb { IfSome result (λ v. word.now ≡ verb_word v) }
    ensures none { IfNone result ((v : Verb) → word.now ≢ verb_word v) }
{
    match word {
        "run" => Some(Verb::Run),
        "judge" => Some(Verb::Traced(Goal::Judge)),
        "replay" => Some(Verb::Traced(Goal::Replay)),
        _ => None,
    }
}

/// The failures and one more where an option names one; nothing where there is no memory for them.
fn with_failure(fails: Option<Listing<FailAt>>, fail: Option<FailAt>) -> Option<Listing<FailAt>>
    ensures { (named : List FailAt) → AreKept fails named → AreKept result (named ++ listed fail) }
{
    let mut fails = fails?;
    if let Some(fail) = fail {
        fails.push(fail).ok()?;
    }
    Some(fails)
}

/// The command of words behind a verb.
fn options_of(alloc: Global, verb: Verb, words: &[String]) -> Result<Command, Refusal<Usage>>
    requires { 1 + length words.now < 4294967295 }
    ensures means { IfOk result (CommandFrom verb (words_in words.now) (1 + length words.now)) }
    ensures refused { IfErr result (IsMisread (Rests verb spec.nothing) (RestsWithFailure verb) (words_in words.now) 1) }
{
    let mut given = Given::nothing();
    let mut fails = Some(Listing::new(alloc));
    let mut rest = words;
    let mut place = 1;
    loop {
        match next_option(verb, rest, given) {
            Next::Option(taken) => {
                given = taken.given;
                fails = with_failure(fails, taken.fail);
                rest = &rest[taken.words as usize..];
                place += taken.words;
            }
            Next::Operands => return ended_by(verb, rest, place, given, fails),
            Next::WrongValue => return Err(wrong_at(place + 1)),
        }
    }
}

/// The command of a verb whose operands stand at a place, behind all options; these failures are named, if there was
/// memory for them.
fn ended_by(
    verb: Verb,
    words: &[String],
    place: u32,
    given: Given,
    fails: Option<Listing<FailAt>>,
) -> Result<Command, Refusal<Usage>>
    requires few { place + length words.now < 4294967295 }
    requires no_option { BeginsNoOption verb given (words_in words.now) }
    ensures means { IfOk result (EndsCommand verb given (words_in words.now) (place + length words.now) fails) }
    ensures refused { IfErr result (IsMisread (Rests verb given) (λ rest. (fails ≡ None) × Rests verb given rest) (words_in words.now) place) }
{
    match verb {
        Verb::Run => run_of(words, place, given, fails),
        Verb::Traced(goal) => traced_of(goal, words, place, given, fails),
    }
}

/// The command of a judgement or a replay whose trace and file are named at a place, behind all options; these failures
/// are named, if there was memory for them.
fn traced_of(
    goal: Goal,
    words: &[String],
    place: u32,
    given: Given,
    fails: Option<Listing<FailAt>>,
) -> Result<Command, Refusal<Usage>>
    requires few { place + length words.now < 4294967295 }
    requires no_option { BeginsNoOption (verbs.Traced goal) given (words_in words.now) }
    ensures means { IfOk result (EndsCommand (verbs.Traced goal) given (words_in words.now) (place + length words.now) fails) }
    ensures refused { IfErr result (IsMisread (Rests (verbs.Traced goal) given) (λ rest. (fails ≡ None) × Rests (verbs.Traced goal) given rest) (words_in words.now) place) }
{
    let places = match places_of(words, place) {
        Ok(places) => places,
        Err(refusal) => return Err(refusal),
    };
    match fails {
        Some(fails) => Ok(Command::Traced {
            goal,
            places,
            fails,
            options: given.told(false),
        }),
        None => Err(Refusal::NoMemory),
    }
}

/// The command of a run whose source is named at a place, behind all options; these failures are named, if there was
/// memory for them.
fn run_of(
    words: &[String],
    place: u32,
    given: Given,
    fails: Option<Listing<FailAt>>,
) -> Result<Command, Refusal<Usage>>
    requires few { place + length words.now < 4294967295 }
    requires no_option { BeginsNoOption verbs.Run given (words_in words.now) }
    ensures means { IfOk result (EndsCommand verbs.Run given (words_in words.now) (place + length words.now) fails) }
    ensures refused { IfErr result (IsMisread (Rests verbs.Run given) (λ rest. (fails ≡ None) × Rests verbs.Run given rest) (words_in words.now) place) }
{
    let input = match input_of(words, place) {
        Ok(input) => input,
        Err(refusal) => return Err(refusal),
    };
    match fails {
        Some(fails) => Ok(Command::Run {
            input,
            fails,
            options: given.told(is_made(input)),
        }),
        None => Err(Refusal::NoMemory),
    }
}

/// The command of words behind `check`.
fn check_of(words: &[String]) -> Result<Command, Refusal<Usage>>
    requires { 1 + length words.now < 4294967295 }
    ensures means { IfOk result (ChecksFrom (words_in words.now) (1 + length words.now)) }
    ensures refused { IfErr result (IsRefusedFrom FileAlone (words_in words.now) 1) }
{
    match file_alone(words, 1) {
        Ok(word) => Ok(Command::Check { word }),
        Err(refusal) => Err(refusal),
    }
}

/// The command of words behind `make`.
fn make_of(words: &[String]) -> Result<Command, Refusal<Usage>>
    requires { 1 + length words.now < 4294967295 }
    ensures means { IfOk result (MakesFrom (words_in words.now)) }
    ensures refused { IfErr result (IsRefusedFrom MadeAlone (words_in words.now) 1) }
{
    match made_alone(words, 1) {
        Ok(Made { seed, size }) => Ok(Command::Make { seed, size }),
        Err(refusal) => Err(refusal),
    }
}

/// Whether a source is a made one.
fn is_made(input: Input) -> bool
    ensures { (origin : Origin) (last : ℕ) → IsInput origin last input → result ≡ spec.is_made origin }
{
    match input {
        Input::File { .. } => false,
        Input::Made { .. } => true,
    }
}

/// The input of a run that words at a place say, with nothing behind.
fn input_of(words: &[String], place: u32) -> Result<Input, Refusal<Usage>>
    requires { place + length words.now < 4294967295 }
    ensures input { IfOk result (IsInputOf (words_in words.now) (place + length words.now)) }
    ensures refused { IfErr result (IsRefusedFrom OriginAlone (words_in words.now) place) }
{
    let [first, behind @ ..] = words else {
        return Err(wrong_at(place));
    };
    match first.as_str() {
        "--made" => match made_alone(behind, place + 1) {
            Ok(Made { seed, size }) => Ok(Input::Made { seed, size }),
            Err(refusal) => Err(refusal),
        },
        _ => match file_alone(words, place) {
            Ok(word) => Ok(Input::File { word }),
            Err(refusal) => Err(refusal),
        },
    }
}

/// The words that name TRACE and FILE, which stand alone at a place.
fn places_of(words: &[String], place: u32) -> Result<Places, Refusal<Usage>>
    requires { place + length words.now < 4294967295 }
    ensures places { IfOk result (ArePlacesOf (words_in words.now) (place + length words.now)) }
    ensures refused { IfErr result (IsRefusedFrom TraceAlone (words_in words.now) place) }
{
    let [first, behind @ ..] = words else {
        return Err(wrong_at(place));
    };
    if !is_file_name(first.as_str()) {
        return Err(wrong_at(place));
    }
    match file_alone(behind, place + 1) {
        Ok(file) => Ok(Places {
            trace: place + 1,
            file,
        }),
        Err(refusal) => Err(refusal),
    }
}

/// The SEED and the SIZE that stand alone at a place.
fn made_alone(words: &[String], place: u32) -> Result<Made, Refusal<Usage>>
    requires { place + length words.now < 4294967295 }
    ensures made { IfOk result (λ m. AreSeedAndSize (words_in words.now) m.seed m.size) }
    ensures refused { IfErr result (IsRefusedFrom MadeAlone (words_in words.now) place) }
{
    let [first, behind @ ..] = words else {
        return Err(wrong_at(place));
    };
    let Some(seed) = number_between(first.as_str(), 0, GREATEST_SEED) else {
        return Err(wrong_at(place));
    };
    match size_alone(behind, place + 1) {
        Ok(size) => Ok(Made { seed, size }),
        Err(refusal) => Err(refusal),
    }
}

/// The SIZE that stands alone at a place.
fn size_alone(words: &[String], place: u32) -> Result<u32, Refusal<Usage>>
    requires { place + length words.now < 4294967295 }
    ensures size { IfOk result (IsSize (words_in words.now)) }
    ensures refused { IfErr result (IsRefusedFrom SizeAlone (words_in words.now) place) }
{
    let [first, behind @ ..] = words else {
        return Err(wrong_at(place));
    };
    let Some(size) = number_between(first.as_str(), 1, GREATEST_SIZE) else {
        return Err(wrong_at(place));
    };
    if !behind.is_empty() {
        return Err(wrong_at(place + 1));
    }
    Ok(size)
}

/// The number, from 1, of the name of a file that stands alone at a place.
fn file_alone(words: &[String], place: u32) -> Result<u32, Refusal<Usage>>
    requires { place + length words.now < 4294967295 }
    ensures name { IfOk result (λ word. FileAlone (words_in words.now) × (word ≡ place + length words.now)) }
    ensures refused { IfErr result (IsRefusedFrom FileAlone (words_in words.now) place) }
{
    let [first, behind @ ..] = words else {
        return Err(wrong_at(place));
    };
    if !is_file_name(first.as_str()) {
        return Err(wrong_at(place));
    }
    if !behind.is_empty() {
        return Err(wrong_at(place + 1));
    }
    Ok(place + 1)
}

/// Whether a word may be the name of a file.
fn is_file_name(word: &str) -> bool
    ensures { IsTrue result ↔ IsFileName word.now }
{
    match word.as_bytes().first() {
        Some(first) => *first != b'-',
        None => false,
    }
}
