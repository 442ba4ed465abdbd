//! Readers of coarray specifications (ISO/IEC 1539-1:2018, 8.5.6).

ghost use Rattle.std.specs.Prelude.{◌≡◌, List, map, IfOk};
ghost use Rattle.action_reader.specs.Beginnings.{begins};
ghost use Rattle.expr_reader.specs.Full as full;
ghost use Rattle.expr_reader.specs.PieceViews.{option_items};
ghost use Rattle.expr_reader.specs.Results.{Gives};
ghost use Rattle.expr_reader.specs.Words.{tokens_of};
ghost use Rattle.fortran_tree.specs.DeclarationViews as view;
ghost use Rattle.fortran_tree.specs.Statements as tree;
ghost use Rattle.statement_reader.specs.Dimensions as spec;
ghost use Rattle.declaration_reader.specs.Pieces as pieces;
ghost use Rattle.declaration_reader.specs.Views as views;

use action_reader::key::{begins_expression, closed};
use action_reader::reads::{Reads, in_square, list};
use caf_base::place::Pos;
use expr_reader::error::ReadError;
use expr_reader::expr::expression;
use expr_reader::one::{begins_with, sign};
use expr_reader::token::is_square;
use expr_reader::word::Word;
use fortran_tokens::token::Sign;
use fortran_tree::declaration::{Bounds, Coshape};
use fortran_tree::expr::Expr;
use std::alloc::{AllocError, Global};

/// A cobound as it is written: a lower one, behind which a colon stands, or one behind which a comma stands.
#[derive(Drop)]
pub(crate) struct Cobound {
    pub value: Expr,
    pub is_lower: bool,
}

/// What ends a cobound: a comma, or a colon behind a lower one.
#[tactic(auto, using(crate::proofs::Declared::declared_laws))]
fn lower_or_last(words: &[Word]) -> Result<(bool, &[Word]), ReadError>
    ensures { Gives (λ r. (r.0, tokens_of r.1.now)) result (spec.lower_or_last 0 (tokens_of words.now)) }
{
    if begins_with(words, Sign::Comma) {
        let (_, rest) = sign(words, Sign::Comma)?;
        return Ok((false, rest));
    }
    let (_, rest) = sign(words, Sign::Colon)?;
    Ok((true, rest))
}

/// What ends a cobound behind a lower one, or behind none.
#[tactic(auto, using(crate::proofs::Declared::declared_laws))]
fn end_of_bound(words: &[Word], is_upper: bool) -> Result<(bool, &[Word]), ReadError>
    ensures { Gives (λ r. (r.0, tokens_of r.1.now)) result (pieces.end_of_bound is_upper 0 (tokens_of words.now)) }
{
    if is_upper {
        let (_, rest) = sign(words, Sign::Comma)?;
        return Ok((false, rest));
    }
    lower_or_last(words)
}

/// A cobound, behind a lower one or behind none.
#[tactic(auto, using(crate::proofs::Declared::declared_laws))]
fn bound<'a>(
    alloc: Global,
    words: &'a [Word],
    is_upper: bool,
    left: u32,
) -> Result<(Cobound, &'a [Word]), ReadError>
    ensures { Gives (λ r. (views.bound_of r.0, tokens_of r.1.now)) result (spec.a_bound is_upper left (tokens_of words.now)) }
{
    let (value, rest) = expression(alloc, words, left)?;
    match end_of_bound(rest, is_upper) {
        Ok((is_lower, rest)) => Ok((Cobound { value, is_lower }, rest)),
        Err(e) => {
            drop(value);
            Err(e)
        }
    }
}

/// Cobounds, as long as an expression begins.
#[tactic(auto, using(crate::proofs::Declared::declared_laws))]
fn cobounds<'a>(
    alloc: Global,
    words: &'a [Word],
    left: u32,
) -> Result<(Vec<Cobound>, &'a [Word]), ReadError>
    ensures { Gives (λ r. (map views.bound_of r.0.items, tokens_of r.1.now)) result (spec.some_cobounds left (tokens_of words.now)) }
{
    let mut all = Vec::new(alloc);
    let mut is_upper = false;
    let mut rest = words;
    for _turn in 0..words.len() {
        if !begins_expression(rest) {
            return Ok((all, rest));
        }
        let (next, more) = match bound(alloc, rest, is_upper, left) {
            Ok(read) => read,
            Err(e) => {
                drop(all);
                return Err(e);
            }
        };
        is_upper = next.is_lower;
        all.push(next)?;
        rest = more;
    }
    Ok((all, rest))
}

/// A cobound behind a lower one or behind none: the bounds that it completes, or itself as a lower one.
fn paired(lower: Option<Expr>, bound: Cobound) -> (Option<Bounds>, Option<Expr>)
    ensures { (map view.bounds (option_items result.0), view.maybe_expression result.1) ≡ pieces.paired (view.maybe_expression lower) (views.bound_of bound) }
{
    if bound.is_lower && lower.is_none() {
        return (None, Some(bound.value));
    }
    let bounds = Bounds {
        lower,
        upper: bound.value,
    };
    (Some(bounds), None)
}

/// The cobounds that were written, as bounds, and the lower cobound that is left.
#[tactic(auto, using(crate::proofs::Declared::declared_laws))]
fn explicit(alloc: Global, all: Vec<Cobound>) -> Result<Coshape, AllocError>
    ensures { IfOk result (λ c. view.coarray_spec c ≡ spec.explicit_of (map views.bound_of all.items, tt)) }
{
    let mut cobounds = Vec::new(alloc);
    let mut last_lower = None;
    for bound in all {
        let (bounds, lower) = paired(last_lower, bound);
        last_lower = lower;
        if let Some(bounds) = bounds {
            cobounds.push(bounds)?;
        }
    }
    Ok(Coshape::Explicit {
        cobounds,
        last_lower,
    })
}

/// Cobounds and an asterisk.
#[tactic(auto, using(crate::proofs::Declared::declared_laws))]
fn explicit_coshape<'a>(
    alloc: Global,
    words: &'a [Word],
    left: u32,
) -> Result<(Coshape, &'a [Word]), ReadError>
    ensures { Gives (λ r. (view.coarray_spec r.0, tokens_of r.1.now)) result (pieces.explicit_coshape left (tokens_of words.now)) }
{
    let (all, rest) = cobounds(alloc, words, left)?;
    let (all, rest) = closed(all, rest, Sign::Star)?;
    Ok((explicit(alloc, all)?, rest))
}

/// A colon.
struct AColon;

impl Reads for AColon {
    type Tree = Pos;

    ghost Seen = { Unit {0} };

    ghost look = { λ p. tt };

    ghost reader = { pieces.a_colon };

    #[tactic(auto, using(crate::proofs::Declared::declared_laws))]
    fn read<'a>(_: Global, words: &'a [Word], _: u32) -> Result<(Pos, &'a [Word]), ReadError> {
        let (colon, rest) = sign(words, Sign::Colon)?;
        Ok((colon.at, rest))
    }
}

/// Colons with commas between them.
#[tactic(auto, using(crate::proofs::Declared::declared_laws))]
fn deferred_coshape<'a>(
    alloc: Global,
    words: &'a [Word],
    left: u32,
) -> Result<(Coshape, &'a [Word]), ReadError>
    ensures { Gives (λ r. (view.coarray_spec r.0, tokens_of r.1.now)) result (pieces.deferred_coshape left (tokens_of words.now)) }
{
    let (colons, rest) = list::<AColon>(alloc, words, left)?;
    match u32::try_from(colons.len()) {
        Ok(corank) => Ok((Coshape::Deferred { corank }, rest)),
        Err(_) => Err(ReadError::Memory),
    }
}

/// A coarray specification (R809).
pub(crate) struct ACoshape;

impl Reads for ACoshape {
    type Tree = Coshape;

    ghost Seen = { tree.CoarraySpec };

    ghost look = { view.coarray_spec };

    ghost reader = { spec.a_coarray_spec };

    #[tactic(auto, using(crate::proofs::Declared::declared_laws))]
    fn read<'a>(
        alloc: Global,
        words: &'a [Word],
        left: u32,
    ) -> Result<(Coshape, &'a [Word]), ReadError> {
        if begins_with(words, Sign::Colon) {
            return deferred_coshape(alloc, words, left);
        }
        explicit_coshape(alloc, words, left)
    }
}

/// The words begin with an opening square bracket.
#[tactic(auto, using(crate::proofs::Declared::declared_laws))]
fn begins_square(words: &[Word]) -> bool
    ensures { result ≡ begins full.is_square (tokens_of words.now) }
{
    match words.split_first() {
        Some((first, _)) => is_square(first),
        None => false,
    }
}

/// A coarray specification in brackets, where there are any.
#[tactic(auto, using(crate::proofs::Declared::declared_laws))]
pub(crate) fn maybe_coshape<'a>(
    alloc: Global,
    words: &'a [Word],
    left: u32,
) -> Result<(Option<Coshape>, &'a [Word]), ReadError>
    ensures { Gives (λ r. (view.maybe_coarray_spec r.0, tokens_of r.1.now)) result (spec.maybe_coarray_spec left (tokens_of words.now)) }
{
    if !begins_square(words) {
        return Ok((None, words));
    }
    let (coshape, rest) = in_square::<ACoshape>(alloc, words, left)?;
    Ok((Some(coshape), rest))
}
