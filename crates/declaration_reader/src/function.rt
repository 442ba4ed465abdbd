//! Reader of FUNCTION statements (ISO/IEC 1539-1:2018, 15.6.2.2).

ghost use Rattle.std.specs.Prelude.{◌≡◌, Option, map};
ghost use Rattle.action_reader.specs.Beginnings.{begins};
ghost use Rattle.expr_reader.specs.Results.{Gives};
ghost use Rattle.expr_reader.specs.Words.{tokens_of};
ghost use Rattle.fortran_tree.specs.UnitViews as view;
ghost use Rattle.fortran_tree.specs.Units as tree;
ghost use Rattle.statement_reader.specs.Forms as forms;
ghost use Rattle.statement_reader.specs.Parts as f;
ghost use Rattle.statement_reader.specs.Units as spec;
ghost use Rattle.declaration_reader.specs.Pieces as pieces;
ghost use Rattle.declaration_reader.specs.Views as views;

use crate::kind::type_spec;
use action_reader::key::{begins_with_key, ended, is_key, key, place};
use action_reader::names::{AName, AnyNames};
use action_reader::reads::in_round;
use caf_base::place::Pos;
use expr_reader::error::ReadError;
use expr_reader::one::name;
use expr_reader::word::Word;
use fortran_tree::name::Name;
use fortran_tree::unit::{Heading, Prefix};
use std::alloc::Global;

/// What a FUNCTION statement says.
#[derive(Drop)]
pub(crate) struct FunctionParts {
    pub prefixes: Vec<Prefix>,
    pub name: Name,
    pub dummies: Vec<Name>,
    pub result: Option<Name>,
}

/// RECURSIVE, or the type of the result (R1527).
#[tactic(auto, using(crate::proofs::Declared::declared_laws))]
fn prefix<'a>(
    alloc: Global,
    words: &'a [Word],
    left: u32,
) -> Result<(Prefix, &'a [Word]), ReadError>
    ensures { Gives (λ r. (view.prefix_spec r.0, tokens_of r.1.now)) result (spec.a_prefix left (tokens_of words.now)) }
{
    if begins_with_key(words, b"recursive") {
        let rest = key(words, b"recursive")?;
        return Ok((Prefix::Recursive, rest));
    }
    let (result, rest) = type_spec(alloc, words, left)?;
    Ok((Prefix::Result(result), rest))
}

/// The words begin with a prefix.
#[tactic(auto, using(crate::proofs::Declared::declared_laws))]
fn begins_prefix(words: &[Word]) -> bool
    ensures { result ≡ begins spec.begins_prefix (tokens_of words.now) }
{
    match words.split_first() {
        Some((first, _)) => {
            is_key(first, b"recursive")
                || is_key(first, b"integer")
                || is_key(first, b"logical")
                || is_key(first, b"type")
        }
        None => false,
    }
}

/// Prefixes, as long as one begins.
#[tactic(auto, using(crate::proofs::Declared::declared_laws))]
fn prefixes<'a>(
    alloc: Global,
    words: &'a [Word],
    left: u32,
) -> Result<(Vec<Prefix>, &'a [Word]), ReadError>
    ensures { Gives (λ r. (map view.prefix_spec r.0.items, tokens_of r.1.now)) result (spec.some_prefixes left (tokens_of words.now)) }
{
    let mut all = Vec::new(alloc);
    let mut rest = words;
    for _turn in 0..words.len() {
        if !begins_prefix(rest) {
            return Ok((all, rest));
        }
        let (next, more) = match prefix(alloc, rest, left) {
            Ok(read) => read,
            Err(e) => {
                drop(all);
                return Err(e);
            }
        };
        all.push(next)?;
        rest = more;
    }
    Ok((all, rest))
}

/// RESULT and a name, where they stand.
#[tactic(auto, using(crate::proofs::Declared::declared_laws))]
fn maybe_result<'a>(
    alloc: Global,
    words: &'a [Word],
    left: u32,
) -> Result<(Option<Name>, &'a [Word]), ReadError>
    ensures { Gives (λ r. (r.0, tokens_of r.1.now)) result (spec.maybe_result left (tokens_of words.now)) }
{
    if !begins_with_key(words, b"result") {
        return Ok((None, words));
    }
    let rest = key(words, b"result")?;
    let (name, rest) = in_round::<AName>(alloc, rest, left)?;
    Ok((Some(name), rest))
}

/// Dummies in brackets, and the name of the result.
#[tactic(auto, using(crate::proofs::Declared::declared_laws))]
fn dummies<'a>(
    alloc: Global,
    words: &'a [Word],
    left: u32,
) -> Result<((Vec<Name>, Option<Name>), &'a [Word]), ReadError>
    ensures { Gives (λ r. ((r.0.0.items, r.0.1), tokens_of r.1.now)) result (pieces.dummies left (tokens_of words.now)) }
{
    let (dummies, rest) = in_round::<AnyNames>(alloc, words, left)?;
    match maybe_result(alloc, rest, left) {
        Ok((result, rest)) => Ok(((dummies, result), rest)),
        Err(e) => {
            drop(dummies);
            Err(e)
        }
    }
}

/// FUNCTION, a name, dummies and the name of the result.
#[tactic(auto, using(crate::proofs::Declared::declared_laws))]
fn signature<'a>(
    alloc: Global,
    words: &'a [Word],
    left: u32,
) -> Result<((Name, (Vec<Name>, Option<Name>)), &'a [Word]), ReadError>
    ensures { Gives (λ r. ((r.0.0, (r.0.1.0.items, r.0.1.1)), tokens_of r.1.now)) result (pieces.keyed_signature left (tokens_of words.now)) }
{
    let rest = key(words, b"function")?;
    let (name, rest) = name(rest)?;
    match dummies(alloc, rest, left) {
        Ok((dummies, rest)) => Ok(((name, dummies), rest)),
        Err(e) => {
            drop(name);
            Err(e)
        }
    }
}

/// Prefixes, and what stands from FUNCTION on.
#[tactic(auto, using(crate::proofs::Declared::declared_laws))]
fn parts<'a>(
    alloc: Global,
    words: &'a [Word],
    left: u32,
) -> Result<(FunctionParts, &'a [Word]), ReadError>
    ensures { Gives (λ r. (views.parts_of r.0, tokens_of r.1.now)) result (spec.function_parts left (tokens_of words.now)) }
{
    let (prefixes, rest) = prefixes(alloc, words, left)?;
    match signature(alloc, rest, left) {
        Ok(((name, (dummies, result)), rest)) => Ok((
            FunctionParts {
                prefixes,
                name,
                dummies,
                result,
            },
            rest,
        )),
        Err(e) => {
            drop(prefixes);
            Err(e)
        }
    }
}

/// A FUNCTION statement (R1530) and its end: the place of its first token, and the heading.
#[tactic(auto, using(crate::proofs::Declared::declared_laws))]
pub fn function<'a>(
    alloc: Global,
    words: &'a [Word],
    left: u32,
) -> Result<((Pos, Heading), &'a [Word]), ReadError>
    ensures { Gives (λ r. (f.heading_part (view.heading r.0.1) r.0.0, tokens_of r.1.now)) result (forms.form_reader f.function_form left (tokens_of words.now)) }
{
    let at = place(words);
    let (parts, rest) = parts(alloc, words, left)?;
    let (parts, rest) = ended(parts, rest)?;
    let heading = Heading::Function {
        prefixes: parts.prefixes,
        name: parts.name,
        dummies: parts.dummies,
        result: parts.result,
    };
    Ok(((at, heading), rest))
}
