//! Readers of what stands in brackets and in lists, over a reader of their items.

ghost use Rattle.std.specs.Prelude.{ℕ, List, map};
ghost use Rattle.action_reader.specs.Beginnings.{grown};
ghost use Rattle.expr_reader.specs.Results.{Gives};
ghost use Rattle.expr_reader.specs.Tests as tests;
ghost use Rattle.expr_reader.specs.Words.{tokens_of};
ghost use Rattle.fortran_grammar.specs.Tokens.{Token};
ghost use Rattle.reader_theory.specs.Readers.{joined};
ghost use Rattle.reader_theory.specs.Words.{Verdict};
ghost use Rattle.statement_reader.specs.Families.{rounded, squared};

use crate::key::closed;
use expr_reader::error::ReadError;
use expr_reader::one::{open_round, open_square};
use expr_reader::token::is_sign;
use expr_reader::word::Word;
use fortran_tokens::token::Sign;
use std::alloc::Global;

/// What can be read from words where so many levels may still be opened: a tree, and the words behind it.
///
/// `look` is the plain tree that a tree in memory stands for, and `reader` what is read.
pub trait Reads {
    type Tree: Drop;

    ghost Seen: { Type 0 };

    ghost look: { Self.Tree → Seen };

    ghost reader: { ℕ → List Token → Verdict Token Seen };

    /// Reads one from the first word on.
    fn read<'a>(
        alloc: Global,
        words: &'a [Word],
        left: u32,
    ) -> Result<(Self::Tree, &'a [Word]), ReadError>
        ensures { Gives (λ r. (look r.0, tokens_of r.1.now)) result (reader left (tokens_of words.now)) };
}

/// One in round brackets.
#[tactic(auto, using(crate::proofs::Enclosed::bracket_laws))]
pub fn in_round<'a, R: Reads>(
    alloc: Global,
    words: &'a [Word],
    left: u32,
) -> Result<(R::Tree, &'a [Word]), ReadError>
    ensures { Gives (λ r. (R.look r.0, tokens_of r.1.now)) result (rounded R.reader left (tokens_of words.now)) }
{
    let (closer, rest) = open_round(words, left)?;
    let (tree, rest) = R::read(alloc, rest, left - 1)?;
    closed(tree, rest, closer)
}

/// One in square brackets of either spelling.
#[tactic(auto, using(crate::proofs::Enclosed::bracket_laws))]
pub fn in_square<'a, R: Reads>(
    alloc: Global,
    words: &'a [Word],
    left: u32,
) -> Result<(R::Tree, &'a [Word]), ReadError>
    ensures { Gives (λ r. (R.look r.0, tokens_of r.1.now)) result (squared R.reader left (tokens_of words.now)) }
{
    let (closer, rest) = open_square(words, left)?;
    let (tree, rest) = R::read(alloc, rest, left - 1)?;
    closed(tree, rest, closer)
}

/// Further ones, each behind a comma.
#[tactic(auto, using(crate::proofs::Keys::key_laws))]
pub fn more<'a, R: Reads>(
    alloc: Global,
    first: Vec<R::Tree>,
    words: &'a [Word],
    left: u32,
) -> Result<(Vec<R::Tree>, &'a [Word]), ReadError>
    ensures { Gives (λ r. (map R.look r.0.items, tokens_of r.1.now)) result (joined grown (map R.look first.items) (tests.followed_by (R.reader left) (tokens_of words.now))) }
{
    let mut all = first;
    let mut rest = words;
    for _turn in 0..words.len() {
        let Some((comma, after)) = rest.split_first() else {
            return Ok((all, rest));
        };
        if !is_sign(comma, Sign::Comma) {
            return Ok((all, rest));
        }
        let (next, more) = match R::read(alloc, after, left) {
            Ok(read) => read,
            Err(e) => {
                drop(all);
                return Err(e);
            }
        };
        all.push(next)?;
        rest = more;
    }
    Ok((all, rest))
}

/// None or more, each behind a comma.
#[tactic(auto, using(crate::proofs::Keys::key_laws))]
pub fn further<'a, R: Reads>(
    alloc: Global,
    words: &'a [Word],
    left: u32,
) -> Result<(Vec<R::Tree>, &'a [Word]), ReadError>
    ensures { Gives (λ r. (map R.look r.0.items, tokens_of r.1.now)) result (tests.followed_by (R.reader left) (tokens_of words.now)) }
{
    more::<R>(alloc, Vec::new(alloc), words, left)
}

/// One at least, with commas between them.
#[tactic(auto, using(crate::proofs::Keys::key_laws))]
pub fn list<'a, R: Reads>(
    alloc: Global,
    words: &'a [Word],
    left: u32,
) -> Result<(Vec<R::Tree>, &'a [Word]), ReadError>
    ensures { Gives (λ r. (map R.look r.0.items, tokens_of r.1.now)) result (tests.list_of (R.reader left) (tokens_of words.now)) }
{
    let (first, rest) = R::read(alloc, words, left)?;
    let mut all = Vec::new(alloc);
    all.push(first)?;
    more::<R>(alloc, all, rest, left)
}
