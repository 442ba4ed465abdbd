//! Readers of bounds and dimensions (ISO/IEC 1539-1:2018, 8.5.8).

ghost use Rattle.std.specs.Prelude.{◌≡◌, List, map};
ghost use Rattle.expr_reader.specs.Results.{Gives};
ghost use Rattle.expr_reader.specs.Words.{tokens_of};
ghost use Rattle.fortran_tree.specs.DeclarationViews as view;
ghost use Rattle.fortran_tree.specs.ExpressionViews as expressions;
ghost use Rattle.fortran_tree.specs.Statements as tree;
ghost use Rattle.statement_reader.specs.Dimensions as spec;
ghost use Rattle.declaration_reader.specs.Pieces as pieces;

use action_reader::reads::{Reads, in_round, list};
use action_reader::specifier::expression_behind;
use expr_reader::error::ReadError;
use expr_reader::expr::expression;
use expr_reader::one::{begins_with, sign};
use expr_reader::word::Word;
use fortran_tokens::token::Sign;
use fortran_tree::declaration::{Bounds, Dimension};
use fortran_tree::expr::Expr;
use std::alloc::Global;

/// A colon and an upper bound, where a colon stands.
#[tactic(auto, using(crate::proofs::Declared::declared_laws))]
fn upper<'a>(
    alloc: Global,
    words: &'a [Word],
    left: u32,
) -> Result<(Option<Expr>, &'a [Word]), ReadError>
    ensures { Gives (λ r. (view.maybe_expression r.0, tokens_of r.1.now)) result (pieces.upper_part left (tokens_of words.now)) }
{
    if !begins_with(words, Sign::Colon) {
        return Ok((None, words));
    }
    let (value, rest) = expression_behind(alloc, Sign::Colon, words, left)?;
    Ok((Some(value), rest))
}

/// Bounds of one value, which is the upper one, or of two.
fn bounds_of(one: Expr, two: Option<Expr>) -> Bounds
    ensures { view.bounds result ≡ spec.bounds_of (expressions.expression one) (view.maybe_expression two) }
{
    match two {
        None => Bounds {
            lower: None,
            upper: one,
        },
        Some(two) => Bounds {
            lower: Some(one),
            upper: two,
        },
    }
}

/// An upper bound, and a lower one before it where one is written.
#[tactic(auto, using(crate::proofs::Declared::declared_laws))]
fn bounds<'a>(
    alloc: Global,
    words: &'a [Word],
    left: u32,
) -> Result<(Bounds, &'a [Word]), ReadError>
    ensures { Gives (λ r. (view.bounds r.0, tokens_of r.1.now)) result (spec.some_bounds left (tokens_of words.now)) }
{
    let (one, rest) = expression(alloc, words, left)?;
    match upper(alloc, rest, left) {
        Ok((two, rest)) => Ok((bounds_of(one, two), rest)),
        Err(e) => {
            drop(one);
            Err(e)
        }
    }
}

/// A dimension: bounds, or a colon.
struct ADimension;

impl Reads for ADimension {
    type Tree = Dimension;

    ghost Seen = { tree.Dimension };

    ghost look = { view.dimension };

    ghost reader = { spec.a_dimension };

    #[tactic(auto, using(crate::proofs::Declared::declared_laws))]
    fn read<'a>(
        alloc: Global,
        words: &'a [Word],
        left: u32,
    ) -> Result<(Dimension, &'a [Word]), ReadError> {
        if begins_with(words, Sign::Colon) {
            let (colon, rest) = sign(words, Sign::Colon)?;
            return Ok((Dimension::Deferred { at: colon.at }, rest));
        }
        let (bounds, rest) = bounds(alloc, words, left)?;
        Ok((Dimension::Explicit(bounds), rest))
    }
}

/// Dimensions with commas between them (R815).
pub(crate) struct Dimensions;

impl Reads for Dimensions {
    type Tree = Vec<Dimension>;

    ghost Seen = { List tree.Dimension };

    ghost look = { λ ds. map view.dimension ds.items };

    ghost reader = { pieces.dimension_list };

    #[tactic(auto, using(crate::proofs::Declared::declared_laws))]
    fn read<'a>(
        alloc: Global,
        words: &'a [Word],
        left: u32,
    ) -> Result<(Vec<Dimension>, &'a [Word]), ReadError> {
        list::<ADimension>(alloc, words, left)
    }
}

/// Dimensions in brackets, or none without brackets.
#[tactic(auto, using(crate::proofs::Declared::declared_laws))]
pub(crate) fn maybe_dimensions<'a>(
    alloc: Global,
    words: &'a [Word],
    left: u32,
) -> Result<(Vec<Dimension>, &'a [Word]), ReadError>
    ensures { Gives (λ r. (map view.dimension r.0.items, tokens_of r.1.now)) result (spec.maybe_dimensions left (tokens_of words.now)) }
{
    if !begins_with(words, Sign::OpenRound) {
        return Ok((Vec::new(alloc), words));
    }
    in_round::<Dimensions>(alloc, words, left)
}
