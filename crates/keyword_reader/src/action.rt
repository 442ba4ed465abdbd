//! The choice among actions by their first keywords, and the main contract.

ghost use Rattle.expr_reader.specs.Results.{Gives};
ghost use Rattle.expr_reader.specs.Words.{tokens_of};
ghost use Rattle.fortran_tree.specs.ActionViews as forms;
ghost use Rattle.keyword_reader.specs.Groups as groups;
ghost use Rattle.statement_reader.specs.Keywords as keywords;
ghost use Rattle.statement_reader.specs.Lines as lines;

use crate::allocate::{allocate, deallocate};
use crate::flow::{cycle, error_stop, exit, fail_image, returned, stop};
use crate::image::{call, event, form_team, lock, sync, unlock};
use crate::output::{print, write};
use action_reader::key::{begins_with_key, ended, place};
use caf_base::place::Pos;
use expr_reader::error::ReadError;
use expr_reader::word::Word;
use fortran_tree::action::ActionForm;
use std::alloc::Global;

/// SYNC, EVENT or RETURN.
#[tactic(auto, using(crate::proofs::Keyed::keyed_laws))]
fn synchronizing<'a>(
    alloc: Global,
    words: &'a [Word],
    left: u32,
) -> Result<(ActionForm, &'a [Word]), ReadError>
    ensures { Gives (λ r. (forms.action_statement r.0, tokens_of r.1.now)) result (groups.synchronizing left (tokens_of words.now)) }
{
    if begins_with_key(words, b"sync") {
        return sync(alloc, words, left);
    }
    if begins_with_key(words, b"event") {
        return event(alloc, words, left);
    }
    returned(words)
}

/// FORM TEAM, LOCK or UNLOCK, or one of the above.
#[tactic(auto, using(crate::proofs::Keyed::keyed_laws))]
fn locking<'a>(
    alloc: Global,
    words: &'a [Word],
    left: u32,
) -> Result<(ActionForm, &'a [Word]), ReadError>
    ensures { Gives (λ r. (forms.action_statement r.0, tokens_of r.1.now)) result (groups.locking left (tokens_of words.now)) }
{
    if begins_with_key(words, b"form") {
        return form_team(alloc, words, left);
    }
    if begins_with_key(words, b"lock") {
        return lock(alloc, words, left);
    }
    if begins_with_key(words, b"unlock") {
        return unlock(alloc, words, left);
    }
    synchronizing(alloc, words, left)
}

/// ALLOCATE or DEALLOCATE, or one of the above.
#[tactic(auto, using(crate::proofs::Keyed::keyed_laws))]
fn allocating<'a>(
    alloc: Global,
    words: &'a [Word],
    left: u32,
) -> Result<(ActionForm, &'a [Word]), ReadError>
    ensures { Gives (λ r. (forms.action_statement r.0, tokens_of r.1.now)) result (groups.allocating left (tokens_of words.now)) }
{
    if begins_with_key(words, b"allocate") {
        return allocate(alloc, words, left);
    }
    if begins_with_key(words, b"deallocate") {
        return deallocate(alloc, words, left);
    }
    locking(alloc, words, left)
}

/// ERROR STOP or FAIL IMAGE, or one of the above.
#[tactic(auto, using(crate::proofs::Keyed::keyed_laws))]
fn ending<'a>(
    alloc: Global,
    words: &'a [Word],
    left: u32,
) -> Result<(ActionForm, &'a [Word]), ReadError>
    ensures { Gives (λ r. (forms.action_statement r.0, tokens_of r.1.now)) result (groups.ending left (tokens_of words.now)) }
{
    if begins_with_key(words, b"error") {
        return error_stop(alloc, words, left);
    }
    if begins_with_key(words, b"fail") {
        return fail_image(words);
    }
    allocating(alloc, words, left)
}

/// EXIT, CYCLE or STOP, or one of the above.
#[tactic(auto, using(crate::proofs::Keyed::keyed_laws))]
fn leaving<'a>(
    alloc: Global,
    words: &'a [Word],
    left: u32,
) -> Result<(ActionForm, &'a [Word]), ReadError>
    ensures { Gives (λ r. (forms.action_statement r.0, tokens_of r.1.now)) result (groups.leaving left (tokens_of words.now)) }
{
    if begins_with_key(words, b"exit") {
        return exit(words);
    }
    if begins_with_key(words, b"cycle") {
        return cycle(words);
    }
    if begins_with_key(words, b"stop") {
        return stop(alloc, words, left);
    }
    ending(alloc, words, left)
}

/// An action that begins with a keyword.
#[tactic(auto, using(crate::proofs::Keyed::keyed_laws))]
fn form<'a>(
    alloc: Global,
    words: &'a [Word],
    left: u32,
) -> Result<(ActionForm, &'a [Word]), ReadError>
    ensures { Gives (λ r. (forms.action_statement r.0, tokens_of r.1.now)) result (keywords.a_keyword_action left (tokens_of words.now)) }
{
    if begins_with_key(words, b"call") {
        return call(alloc, words, left);
    }
    if begins_with_key(words, b"print") {
        return print(alloc, words, left);
    }
    if begins_with_key(words, b"write") {
        return write(alloc, words, left);
    }
    leaving(alloc, words, left)
}

/// An action that begins with a keyword, at its place, up to the end of its statement.
#[tactic(auto, using(crate::proofs::Keyed::keyed_laws))]
pub fn keyword_action<'a>(
    alloc: Global,
    words: &'a [Word],
    left: u32,
) -> Result<((Pos, ActionForm), &'a [Word]), ReadError>
    ensures { Gives (λ r. ((r.0.0, forms.action_statement r.0.1), tokens_of r.1.now)) result (lines.keyword_line left (tokens_of words.now)) }
{
    let at = place(words);
    let (form, rest) = form(alloc, words, left)?;
    let (form, rest) = ended(form, rest)?;
    Ok(((at, form), rest))
}
