//! Readers of objects with specifiers behind them, as ALLOCATE and DEALLOCATE have them (ISO/IEC 1539-1:2018, 9.7.1 and
//! 9.7.3).

ghost use Rattle.std.specs.Prelude.{◌≡◌, IfOk, map};
ghost use Rattle.expr_reader.specs.Results.{Gives};
ghost use Rattle.expr_reader.specs.Words.{tokens_of};
ghost use Rattle.fortran_tree.specs.ExpressionViews as expressions;
ghost use Rattle.keyword_reader.specs.Families as families;
ghost use Rattle.keyword_reader.specs.Views as views;
ghost use Rattle.statement_reader.specs.Objects as objects;

use action_reader::reads::Reads;
use action_reader::specifier::ASpecifier;
use expr_reader::error::ReadError;
use expr_reader::one::{begins_with, sign};
use expr_reader::token::is_name;
use expr_reader::word::Word;
use fortran_tokens::token::Sign;
use fortran_tree::expr::Specifier;
use std::alloc::{AllocError, Global};

/// An object, or a specifier behind the objects.
#[derive(Drop)]
pub enum Choice<T: Drop> {
    Object(T),
    Specifier(Specifier),
}

/// The words begin with a name and `=`.
#[tactic(auto, using(crate::proofs::Objects::object_laws))]
fn begins_specifier(words: &[Word]) -> bool
    ensures { result ≡ families.begins_specifier (tokens_of words.now) }
{
    match words.split_first() {
        Some((first, rest)) => is_name(first) && begins_with(rest, Sign::Assign),
        None => false,
    }
}

/// An object or a specifier; a specifier alone where one stands before it.
#[tactic(auto, using(crate::proofs::Objects::object_laws))]
fn object_or_specifier<'a, R: Reads>(
    alloc: Global,
    words: &'a [Word],
    is_behind: bool,
    left: u32,
) -> Result<(Choice<R::Tree>, &'a [Word]), ReadError>
    ensures { Gives (λ r. (views.choice_of R.look r.0, tokens_of r.1.now)) result (objects.a_choice R.reader is_behind left (tokens_of words.now)) }
{
    if is_behind || begins_specifier(words) {
        let (specifier, rest) = ASpecifier::read(alloc, words, left)?;
        return Ok((Choice::Specifier(specifier), rest));
    }
    let (object, rest) = R::read(alloc, words, left)?;
    Ok((Choice::Object(object), rest))
}

/// A comma and an object or a specifier.
#[tactic(auto, using(crate::proofs::Objects::object_laws))]
fn another<'a, R: Reads>(
    alloc: Global,
    words: &'a [Word],
    is_behind: bool,
    left: u32,
) -> Result<(Choice<R::Tree>, &'a [Word]), ReadError>
    ensures { Gives (λ r. (views.choice_of R.look r.0, tokens_of r.1.now)) result (families.another R.reader is_behind left (tokens_of words.now)) }
{
    let (_, rest) = sign(words, Sign::Comma)?;
    object_or_specifier::<R>(alloc, rest, is_behind, left)
}

/// A specifier stands before what comes behind this one.
fn seen<R: Reads>(is_behind: bool, choice: &Choice<R::Tree>) -> bool
    ensures { result ≡ objects.seen is_behind (views.choice_of R.look choice.now) }
{
    match choice {
        Choice::Object(_) => is_behind,
        Choice::Specifier(_) => true,
    }
}

/// Further objects, and specifiers behind them, each behind a comma.
#[tactic(auto, using(crate::proofs::Objects::object_laws))]
fn choices<'a, R: Reads>(
    alloc: Global,
    words: &'a [Word],
    left: u32,
) -> Result<(Vec<Choice<R::Tree>>, &'a [Word]), ReadError>
    ensures { Gives (λ r. (map (views.choice_of R.look) r.0.items, tokens_of r.1.now)) result (objects.further_choices R.reader left (tokens_of words.now)) }
{
    let mut all = Vec::new(alloc);
    let mut is_behind = false;
    let mut rest = words;
    for _turn in 0..words.len() {
        if !begins_with(rest, Sign::Comma) {
            return Ok((all, rest));
        }
        let (next, more) = match another::<R>(alloc, rest, is_behind, left) {
            Ok(read) => read,
            Err(e) => {
                drop(all);
                return Err(e);
            }
        };
        is_behind = seen::<R>(is_behind, &next);
        all.push(next)?;
        rest = more;
    }
    Ok((all, rest))
}

/// The objects from the first on, and the specifiers.
#[tactic(auto, using(crate::proofs::Objects::object_laws))]
fn parted<R: Reads>(
    alloc: Global,
    first: R::Tree,
    choices: Vec<Choice<R::Tree>>,
) -> Result<(Vec<R::Tree>, Vec<Specifier>), AllocError>
    ensures { IfOk result (λ r. (map R.look r.0.items, expressions.specifiers r.1.items) ≡ objects.objects_and_specifiers (R.look first, map (views.choice_of R.look) choices.items)) }
{
    let mut objects = Vec::new(alloc);
    objects.push(first)?;
    let mut specifiers = Vec::new(alloc);
    for choice in choices {
        match choice {
            Choice::Object(object) => objects.push(object)?,
            Choice::Specifier(specifier) => specifiers.push(specifier)?,
        }
    }
    Ok((objects, specifiers))
}

/// Objects, one at least, and specifiers behind them.
#[tactic(auto, using(crate::proofs::Objects::object_laws))]
pub(crate) fn objects<'a, R: Reads>(
    alloc: Global,
    words: &'a [Word],
    left: u32,
) -> Result<((Vec<R::Tree>, Vec<Specifier>), &'a [Word]), ReadError>
    ensures { Gives (λ r. ((map R.look r.0.0.items, expressions.specifiers r.0.1.items), tokens_of r.1.now)) result (objects.some_objects R.reader left (tokens_of words.now)) }
{
    let (first, rest) = R::read(alloc, words, left)?;
    match choices::<R>(alloc, rest, left) {
        Ok((choices, rest)) => Ok((parted::<R>(alloc, first, choices)?, rest)),
        Err(e) => {
            drop(first);
            Err(e)
        }
    }
}
