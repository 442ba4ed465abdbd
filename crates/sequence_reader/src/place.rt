//! One place of a file: the part that stands there, and the furthest fault of the forms that don't.

ghost use Rattle.std.specs.Prelude.{◌≡◌, ◌≤◌, ◌+◌, ◌-◌, suc, length, map, MatchResult};
ghost use Rattle.expr_reader.specs.Results as results;
ghost use Rattle.expr_reader.specs.Results.{Gives};
ghost use Rattle.expr_reader.specs.Words.{tokens_of};
ghost use Rattle.part_reader.specs.Views as parts;
ghost use Rattle.program_reader.specs.Sequence as sequence;
ghost use Rattle.reader_theory.specs.Readers as readers;
ghost use Rattle.reader_theory.specs.Words.{expected};
ghost use Rattle.statement_reader.specs.Forms as forms;
ghost use Rattle.statement_reader.specs.Parts as f;
ghost use Rattle.sequence_reader.specs.Answers as answers;
ghost use Rattle.sequence_reader.specs.Statements.{Before_the_end};
ghost use Rattle.sequence_reader.specs.Views as view;

use crate::form::{Form, read_form};
use crate::state::{Allowed, State, allowed_forms};
use action_reader::key::begins_with_name;
use expr_reader::error::{Cause, ReadError, Stop};
use expr_reader::word::Word;
use part_reader::part::Part;
use std::alloc::Global;

/// How many levels may be open.
const LEVELS: usize = 64;

/// The worse of two causes.
fn worse(a: Cause, b: Cause) -> Cause
    ensures { results.cause_of result ≡ readers.worse (results.cause_of a) (results.cause_of b) }
{
    match a {
        Cause::Expected => b,
        Cause::TooDeep => Cause::TooDeep,
    }
}

/// The further of two faults.
pub fn further(a: Stop, b: Stop) -> Stop
    ensures { answers.stop_of result ≡ answers.better (answers.stop_of a) (answers.stop_of b) }
{
    if a.left < b.left {
        return a;
    }
    if b.left < a.left {
        return b;
    }
    Stop {
        cause: worse(a.cause, b.cause),
        left: a.left,
    }
}

/// What the forms that were tried at a place make: the part that one of them reads with the words behind it, and the
/// furthest fault of the others.
#[derive(Drop)]
pub struct Tried<'a> {
    pub found: Option<(Part, &'a [Word])>,
    pub fault: Stop,
}

/// The part is the condition of a one-line IF.
fn is_condition(part: &Part) -> bool
    ensures { result ≡ f.is_of f.condition_form (parts.part part.now) }
{
    matches!(part, Part::Condition { .. })
}

/// So many levels may still be opened.
fn left(state: &State) -> u32
    requires { state.now.conditions + length state.now.blocks.items ≤ 64 }
    ensures { result ≡ 64 - (state.now.conditions + length state.now.blocks.items) }
{
    (LEVELS - (state.conditions + state.blocks.len())) as u32
}

/// A part of this form at this place.
#[tactic(auto, using(crate::proofs::Turns::turn_laws))]
fn read_here<'a>(
    form: Form,
    alloc: Global,
    state: &State,
    words: &'a [Word],
) -> Result<(Part, &'a [Word]), ReadError>
    requires { state.now.conditions + length state.now.blocks.items ≤ 64 }
    ensures { Gives (λ r. (parts.part r.0, tokens_of r.1.now)) result (forms.part_reader 64 (answers.placed (view.state state.now) (view.form form)) (tokens_of words.now)) }
{
    read_form(form, alloc, words, left(state))
}

/// Tries a form more. Where two forms read a part, one is the condition of a one-line IF, and the other one's answer is
/// the better.
fn attempt<'a>(
    alloc: Global,
    state: &State,
    form: Form,
    words: &'a [Word],
    before: Tried<'a>,
) -> Result<Tried<'a>, ReadError>
    requires depth { state.now.conditions + length state.now.blocks.items ≤ 64 }
    requires may { answers.Among (view.form form) (sequence.allowed (view.state state.now)) }
    requires came { answers.Comes (λ q. (parts.part q.0, tokens_of q.1.now)) 64 (view.state state.now) (tokens_of words.now) before.found }
    requires late { Before_the_end (tokens_of words.now) before.fault }
    ensures { let s = view.state state.now in
        let ts = tokens_of words.now in
        MatchResult result
        (λ t. answers.Tries (λ q. (parts.part q.0, tokens_of q.1.now)) 64 s ts (λ n. answers.better (answers.value (λ q. (parts.part q.0, tokens_of q.1.now)) 64 n s before.entry.found before.entry.fault) (answers.follow 64 n s (forms.part_reader 64 (answers.placed s (view.form form)) ts))) t.found t.fault)
        (λ e. e ≡ ReadError.Memory) }
{
    let Tried { found, fault } = before;
    let (part, rest) = match read_here(form, alloc, state, words) {
        Ok(read) => read,
        Err(ReadError::Stopped(stop)) => {
            return Ok(Tried {
                found,
                fault: further(fault, stop),
            });
        }
        Err(ReadError::Memory) => {
            drop(found);
            return Err(ReadError::Memory);
        }
    };
    if is_condition(&part) && !begins_with_name(rest) {
        drop(part);
        let stop = Stop {
            cause: Cause::Expected,
            left: rest.len(),
        };
        return Ok(Tried {
            found,
            fault: further(fault, stop),
        });
    }
    let Some((old, behind)) = found else {
        return Ok(Tried {
            found: Some((part, rest)),
            fault,
        });
    };
    if is_condition(&old) {
        drop(old);
        return Ok(Tried {
            found: Some((part, rest)),
            fault,
        });
    }
    drop(part);
    Ok(Tried {
        found: Some((old, behind)),
        fault,
    })
}

/// Tries several forms more.
fn attempts<'a>(
    alloc: Global,
    state: &State,
    forms: &[Form],
    words: &'a [Word],
    before: Tried<'a>,
) -> Result<Tried<'a>, ReadError>
    requires depth { state.now.conditions + length state.now.blocks.items ≤ 64 }
    requires may { answers.Part_of (map view.form forms.now) (sequence.allowed (view.state state.now)) }
    requires came { answers.Comes (λ q. (parts.part q.0, tokens_of q.1.now)) 64 (view.state state.now) (tokens_of words.now) before.found }
    requires late { Before_the_end (tokens_of words.now) before.fault }
    ensures { let s = view.state state.now in
        let ts = tokens_of words.now in
        MatchResult result
        (λ t. answers.Tries (λ q. (parts.part q.0, tokens_of q.1.now)) 64 s ts (λ n. answers.gathered 64 n s ts (answers.value (λ q. (parts.part q.0, tokens_of q.1.now)) 64 n s before.entry.found before.entry.fault) (map view.form forms.now)) t.found t.fault)
        (λ e. e ≡ ReadError.Memory) }
{
    let mut tried = before;
    for form in forms {
        tried = attempt(alloc, state, *form, words, tried)?;
    }
    Ok(tried)
}

/// Tries the forms that the place allows.
pub fn best<'a>(alloc: Global, state: &State, words: &'a [Word]) -> Result<Tried<'a>, ReadError>
    requires { state.now.conditions + length state.now.blocks.items ≤ 64 }
    ensures { let s = view.state state.now in
        let ts = tokens_of words.now in
        MatchResult result
        (λ t. answers.Tries (λ q. (parts.part q.0, tokens_of q.1.now)) 64 s ts (λ n. answers.gathered 64 n s ts (answers.stopped expected (length ts)) (sequence.allowed s)) t.found t.fault)
        (λ e. e ≡ ReadError.Memory) }
{
    let Allowed {
        own,
        early,
        statements,
    } = allowed_forms(state);
    let tried = Tried {
        found: None,
        fault: Stop {
            cause: Cause::Expected,
            left: words.len(),
        },
    };
    let tried = attempts(alloc, state, own, words, tried)?;
    let tried = attempts(alloc, state, early, words, tried)?;
    let tried = attempts(alloc, state, statements, words, tried)?;
    Ok(tried)
}
