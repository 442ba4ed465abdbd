//! The first word of a statement at which a level too deep is open.

ghost use Rattle.std.specs.Prelude.{◌≡◌, length, map, MatchResult};
ghost use Rattle.expr_reader.specs.Words.{tokens_of};
ghost use Rattle.refusal_reasons.specs.Statements as statements;
ghost use Rattle.reason_reader.specs.Ends.{fits, goes_behind};

use crate::form::ReadsForms;
use expr_reader::error::{Cause, ReadError};
use expr_reader::word::Word;
use std::alloc::Global;

/// Whether a form, with an action behind its condition, goes through all words.
#[cycle(going)]
#[tactic(auto, using(crate::proofs::Ends::end_laws))]
fn goes<R: ReadsForms>(
    name: R::Name,
    alloc: Global,
    words: &[Word],
    left: u32,
) -> Result<bool, ReadError>
    ensures { MatchResult result (λ b. b ≡ statements.form_goes left (R.form name) (tokens_of words.now)) (λ e. e ≡ ReadError.Memory) }
{
    match R::end(name, alloc, words, left)? {
        Ok(rest) => {
            let on = goes_on::<R>(alloc, rest, left)?;
            Ok(on)
        }
        Err(stop) => Ok(stop.left == 0),
    }
}

/// Whether what a part leaves, before which so many levels were left, is nothing, or an action goes through it.
#[cycle(going)]
#[tactic(auto, using(crate::proofs::Ends::end_laws))]
fn goes_on<R: ReadsForms>(alloc: Global, words: &[Word], left: u32) -> Result<bool, ReadError>
    ensures { MatchResult result (λ b. b ≡ goes_behind left (tokens_of words.now)) (λ e. e ≡ ReadError.Memory) }
{
    if words.is_empty() {
        return Ok(true);
    }
    if left == 0 {
        return Ok(false);
    }
    if goes::<R>(R::assignment(), alloc, words, left - 1)? {
        return Ok(true);
    }
    if goes::<R>(R::keyword(), alloc, words, left - 1)? {
        return Ok(true);
    }
    goes::<R>(R::condition(), alloc, words, left - 1)
}

/// The earlier of two places, each told by the number of words from it on.
fn earlier(a: Option<usize>, b: Option<usize>) -> Option<usize>
    ensures { result ≡ statements.earlier a b }
{
    let Some(first) = a else {
        return b;
    };
    let Some(second) = b else {
        return Some(first);
    };
    Some(first.max(second))
}

/// Where a form comes to a level too deep, if it goes on so: the number of words from there on; behind its condition,
/// where an action does.
#[cycle(placing)]
#[tactic(auto, using(crate::proofs::Ends::place_laws))]
fn form_place<R: ReadsForms>(
    name: R::Name,
    alloc: Global,
    words: &[Word],
    left: u32,
) -> Result<Option<usize>, ReadError>
    requires { fits (length words.now) }
    ensures { MatchResult result (λ o. o ≡ statements.form_place (statements.action_place left) left (R.form name) (tokens_of words.now)) (λ e. e ≡ ReadError.Memory) }
{
    match R::end(name, alloc, words, left)? {
        Ok(rest) => {
            let place = action_place::<R>(alloc, rest, left)?;
            Ok(place)
        }
        Err(stop) => match stop.cause {
            Cause::Expected => Ok(None),
            Cause::TooDeep => {
                if goes::<R>(name, alloc, words, words.len() as u32)? {
                    Ok(Some(stop.left))
                } else {
                    Ok(None)
                }
            }
        },
    }
}

/// Where an action does behind a condition, before which so many levels were left.
#[cycle(placing)]
#[tactic(auto, using(crate::proofs::Ends::place_laws))]
fn action_place<R: ReadsForms>(
    alloc: Global,
    words: &[Word],
    left: u32,
) -> Result<Option<usize>, ReadError>
    requires { fits (length words.now) }
    ensures { MatchResult result (λ o. o ≡ statements.action_place left (tokens_of words.now)) (λ e. e ≡ ReadError.Memory) }
{
    if left == 0 {
        return Ok(None);
    }
    let assignment = form_place::<R>(R::assignment(), alloc, words, left - 1)?;
    let keyword = form_place::<R>(R::keyword(), alloc, words, left - 1)?;
    let condition = form_place::<R>(R::condition(), alloc, words, left - 1)?;
    Ok(earlier(assignment, earlier(keyword, condition)))
}

/// Where a statement of one of these forms comes to a level too deep first, of all forms that go on with these words,
/// whatever their levels: the number of words from there on, or none where none does. `left` is how many levels may be
/// opened at the statement's place; the last word is the one at which the statement fails. A form is read once more
/// with as many levels as there are words, so readers go as deep as the words nest.
#[tactic(auto, using(crate::proofs::Ends::place_laws))]
pub fn statement_place<R: ReadsForms>(
    names: &[R::Name],
    alloc: Global,
    words: &[Word],
    left: u32,
) -> Result<Option<usize>, ReadError>
    requires { fits (length words.now) }
    ensures { MatchResult result (λ o. o ≡ statements.statement_place left (map R.form names.now) (tokens_of words.now)) (λ e. e ≡ ReadError.Memory) }
{
    let Some((name, more)) = names.split_first() else {
        return Ok(None);
    };
    let here = form_place::<R>(*name, alloc, words, left)?;
    let later = statement_place::<R>(more, alloc, words, left)?;
    Ok(earlier(here, later))
}
