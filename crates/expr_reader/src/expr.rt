//! Reads expressions (ISO/IEC 1539-1:2018, 10.1). Each reader takes the words from its place on, and gives what it
//! reads and the words behind it.
//! `left` is how many levels may still be opened. A reader calls itself only over levels: chains of operators and lists
//! are loops.

ghost use Rattle.std.specs.Prelude.{◌≡◌, ◌≤◌};
ghost use Rattle.reader_theory.specs.Readers.{joined, many, optional};
ghost use Rattle.fortran_tree.specs.ExpressionViews as view;
ghost use Rattle.expr_reader.specs.Full as spec;
ghost use Rattle.expr_reader.specs.Full.{full};
ghost use Rattle.expr_reader.specs.Levels as levels;
ghost use Rattle.expr_reader.specs.Openings as openings;
ghost use Rattle.expr_reader.specs.Pieces as pieces;
ghost use Rattle.expr_reader.specs.PieceViews as pieceviews;
ghost use Rattle.expr_reader.specs.Reading as reading;
ghost use Rattle.expr_reader.specs.Results.{Gives};
ghost use Rattle.expr_reader.specs.Selectors as selectors;
ghost use Rattle.expr_reader.specs.Tests as tests;
ghost use Rattle.expr_reader.specs.Words.{tokens_of};

use crate::error::{ReadError, expected};
use crate::one::{begins_with, keyword, name, number, open_round, open_square, sign, sunken};
use crate::piece::{
    Mode, Piece, begins_piece, chosen, is_function, mode_after, named_expression, one_piece, range,
    takes_keyword, takes_range,
};
use crate::token::{
    binds, is_integer, is_name, is_sign, is_square, is_truth, opens, operator_of, prefix_of,
    prefixed, truth,
};
use crate::tree::{binary, parenthesized, prefix};
use crate::word::Word;
use fortran_tokens::token::Sign;
use fortran_tree::expr::{Expr, Specifier};
use std::alloc::Global;

/// The upper bound and the stride of a triplet.
type Bounds = (Option<Box<Expr>>, Option<Box<Expr>>);

/// Cosubscripts and specifiers.
type Choices = (Vec<Expr>, Vec<Specifier>);

/// An expression.
#[cycle(expr)]
#[tactic(auto, using(crate::proofs::Levels::expression_is))]
pub fn expression<'a>(
    alloc: Global,
    words: &'a [Word],
    left: u32,
) -> Result<(Expr, &'a [Word]), ReadError>
    ensures { Gives (λ r. (view.expression r.0, tokens_of r.1.now)) result ((full left).expression (tokens_of words.now)) }
{
    chain(alloc, 1, words, left)
}

/// Operands, with operators between them that bind so.
#[cycle(expr)]
fn chain<'a>(
    alloc: Global,
    strong: u8,
    words: &'a [Word],
    left: u32,
) -> Result<(Expr, &'a [Word]), ReadError>
    requires some { 1 ≤ strong }
    requires chain { strong ≤ 7 }
    ensures { Gives (λ r. (view.expression r.0, tokens_of r.1.now)) result (reading.chain strong (reading.operand_of strong (full left)) (reading.operand_of strong (full left)) (tokens_of words.now)) }
{
    let (first, rest) = operand(alloc, strong, words, left)?;
    operators(alloc, strong, first, rest, left)
}

/// An operand of a chain of operators that bind so: what binds more tightly.
#[cycle(expr)]
fn operand<'a>(
    alloc: Global,
    strong: u8,
    words: &'a [Word],
    left: u32,
) -> Result<(Expr, &'a [Word]), ReadError>
    requires some { 1 ≤ strong }
    requires chain { strong ≤ 7 }
    ensures { Gives (λ r. (view.expression r.0, tokens_of r.1.now)) result (reading.operand_of strong (full left) (tokens_of words.now)) }
{
    match strong {
        1 => chain(alloc, 2, words, left),
        2 => chain(alloc, 3, words, left),
        3 => negation(alloc, words, left),
        6 => chain(alloc, 7, words, left),
        _ => power(alloc, words, left),
    }
}

/// Further operators that bind so, from the left, where the first operand is read.
#[cycle(expr)]
#[tactic(auto, using(crate::proofs::Lengths::words_laws))]
fn operators<'a>(
    alloc: Global,
    strong: u8,
    first: Expr,
    words: &'a [Word],
    left: u32,
) -> Result<(Expr, &'a [Word]), ReadError>
    requires some { 1 ≤ strong }
    requires chain { strong ≤ 7 }
    ensures { Gives (λ r. (view.expression r.0, tokens_of r.1.now)) result (joined reading.folded (view.expression first) (many (openings.binds strong) (reading.item strong (reading.operand_of strong (full left))) (tokens_of words.now))) }
{
    let mut all = first;
    let mut rest = words;
    for _turn in 0..words.len() {
        let Some((sign, after)) = rest.split_first() else {
            return Ok((all, rest));
        };
        if !binds(strong, sign) {
            return Ok((all, rest));
        }
        let (next, more) = match operand(alloc, strong, after, left) {
            Ok(read) => read,
            Err(e) => {
                drop(all);
                return Err(e);
            }
        };
        all = binary(alloc, operator_of(sign), all, next)?;
        rest = more;
    }
    Ok((all, rest))
}

/// A relation, or `.not.` before one.
#[cycle(expr)]
#[tactic(auto, using(crate::proofs::Levels::negation_none, crate::proofs::Levels::negation_some, crate::proofs::Lengths::words_laws))]
fn negation<'a>(
    alloc: Global,
    words: &'a [Word],
    left: u32,
) -> Result<(Expr, &'a [Word]), ReadError>
    ensures { Gives (λ r. (view.expression r.0, tokens_of r.1.now)) result ((full left).negation (tokens_of words.now)) }
{
    let Some((sign, rest)) = words.split_first() else {
        return relation(alloc, words, left);
    };
    if !prefixed(4, sign) {
        return relation(alloc, words, left);
    }
    if left == 0 {
        return Err(sunken(5, rest));
    }
    let (operand, rest) = relation(alloc, rest, left - 1)?;
    Ok((prefix(alloc, prefix_of(sign), operand, sign.at)?, rest))
}

/// A sum, or two with a relation between them.
#[cycle(expr)]
#[tactic(auto, using(crate::proofs::Levels::relation_is, crate::proofs::Lengths::words_laws))]
fn relation<'a>(
    alloc: Global,
    words: &'a [Word],
    left: u32,
) -> Result<(Expr, &'a [Word]), ReadError>
    ensures { Gives (λ r. (view.expression r.0, tokens_of r.1.now)) result ((full left).relation (tokens_of words.now)) }
{
    let (first, rest) = sum(alloc, words, left)?;
    let Some((sign, after)) = rest.split_first() else {
        return Ok((first, rest));
    };
    if !binds(5, sign) {
        return Ok((first, rest));
    }
    let (second, rest) = match sum(alloc, after, left) {
        Ok(read) => read,
        Err(e) => {
            drop(first);
            return Err(e);
        }
    };
    Ok((binary(alloc, operator_of(sign), first, second)?, rest))
}

/// Terms with `+` and `-` between them, the first perhaps with a sign.
#[cycle(expr)]
#[tactic(auto, using(crate::proofs::Levels::sum_is))]
fn sum<'a>(alloc: Global, words: &'a [Word], left: u32) -> Result<(Expr, &'a [Word]), ReadError>
    ensures { Gives (λ r. (view.expression r.0, tokens_of r.1.now)) result ((full left).sum (tokens_of words.now)) }
{
    let (first, rest) = signed(alloc, words, left)?;
    operators(alloc, 6, first, rest, left)
}

/// A term, perhaps with a sign.
#[cycle(expr)]
#[tactic(auto, using(crate::proofs::Levels::signed_none, crate::proofs::Levels::signed_some, crate::proofs::Levels::term_is, crate::proofs::Lengths::words_laws))]
fn signed<'a>(alloc: Global, words: &'a [Word], left: u32) -> Result<(Expr, &'a [Word]), ReadError>
    ensures { Gives (λ r. (view.expression r.0, tokens_of r.1.now)) result (levels.signed_term left (tokens_of words.now)) }
{
    let Some((sign, rest)) = words.split_first() else {
        return chain(alloc, 7, words, left);
    };
    if !prefixed(6, sign) {
        return chain(alloc, 7, words, left);
    }
    if left == 0 {
        return Err(sunken(7, rest));
    }
    let (operand, rest) = chain(alloc, 7, rest, left - 1)?;
    Ok((prefix(alloc, prefix_of(sign), operand, sign.at)?, rest))
}

/// A primary, perhaps with an exponent.
#[cycle(expr)]
#[tactic(auto, using(crate::proofs::Levels::power_none, crate::proofs::Levels::power_some, crate::proofs::Lengths::words_laws))]
fn power<'a>(alloc: Global, words: &'a [Word], left: u32) -> Result<(Expr, &'a [Word]), ReadError>
    ensures { Gives (λ r. (view.expression r.0, tokens_of r.1.now)) result ((full left).power (tokens_of words.now)) }
{
    let (base, rest) = primary(alloc, words, left)?;
    let Some((sign, after)) = rest.split_first() else {
        return Ok((base, rest));
    };
    if !binds(8, sign) {
        return Ok((base, rest));
    }
    if left == 0 {
        drop(base);
        return Err(sunken(8, after));
    }
    let (exponent, rest) = match power(alloc, after, left - 1) {
        Ok(read) => read,
        Err(e) => {
            drop(base);
            return Err(e);
        }
    };
    Ok((binary(alloc, operator_of(sign), base, exponent)?, rest))
}

/// A primary (R1001).
#[cycle(expr)]
#[tactic(auto, using(crate::proofs::Levels::primary_is, crate::proofs::Levels::primary_empty, crate::proofs::Lengths::words_laws, crate::proofs::Chained::tree_laws))]
fn primary<'a>(alloc: Global, words: &'a [Word], left: u32) -> Result<(Expr, &'a [Word]), ReadError>
    ensures { Gives (λ r. (view.expression r.0, tokens_of r.1.now)) result ((full left).primary (tokens_of words.now)) }
{
    let Some((first, rest)) = words.split_first() else {
        return Err(expected(0));
    };
    if is_integer(first) {
        return Ok((number(first)?, rest));
    }
    if is_truth(first) {
        let value = truth(first);
        return Ok((
            Expr::Logical {
                value,
                at: first.at,
            },
            rest,
        ));
    }
    if is_name(first) {
        return named(alloc, words, left);
    }
    if is_sign(first, Sign::OpenRound) {
        let (inner, rest) = group(alloc, words, left)?;
        return Ok((parenthesized(alloc, inner, first.at)?, rest));
    }
    let (values, rest) = constructor(alloc, words, left)?;
    Ok((
        Expr::ArrayConstructor {
            values,
            at: first.at,
        },
        rest,
    ))
}

/// An expression in round brackets.
#[cycle(expr)]
#[tactic(auto, using(crate::proofs::Levels::group_is))]
pub fn group<'a>(
    alloc: Global,
    words: &'a [Word],
    left: u32,
) -> Result<(Expr, &'a [Word]), ReadError>
    ensures { Gives (λ r. (view.expression r.0, tokens_of r.1.now)) result (levels.group_at left (tokens_of words.now)) }
{
    let (closer, rest) = open_round(words, left)?;
    let (inner, rest) = expression(alloc, rest, left - 1)?;
    match sign(rest, closer) {
        Ok((_, rest)) => Ok((inner, rest)),
        Err(e) => {
            drop(inner);
            Err(e)
        }
    }
}

/// The values of an array constructor (7.8), in their brackets.
#[cycle(expr)]
#[tactic(auto, using(crate::proofs::Levels::constructor_is, crate::proofs::Levels::expressions_are))]
fn constructor<'a>(
    alloc: Global,
    words: &'a [Word],
    left: u32,
) -> Result<(Vec<Expr>, &'a [Word]), ReadError>
    ensures { Gives (λ r. (view.expressions r.0.items, tokens_of r.1.now)) result (levels.constructor_at left (tokens_of words.now)) }
{
    let (closer, rest) = open_square(words, left)?;
    let (values, rest) = expressions(alloc, rest, left - 1)?;
    match sign(rest, closer) {
        Ok((_, rest)) => Ok((values, rest)),
        Err(e) => {
            drop(values);
            Err(e)
        }
    }
}

/// Expressions with commas between them, one at least.
#[cycle(expr)]
#[tactic(auto, using(crate::proofs::Levels::list_one))]
pub fn expressions<'a>(
    alloc: Global,
    words: &'a [Word],
    left: u32,
) -> Result<(Vec<Expr>, &'a [Word]), ReadError>
    ensures { Gives (λ r. (pieceviews.expression_list r.0.items, tokens_of r.1.now)) result (tests.list_of (full left).expression (tokens_of words.now)) }
{
    let (first, rest) = expression(alloc, words, left)?;
    let mut all = Vec::new(alloc);
    all.push(first)?;
    more_expressions(alloc, all, rest, left)
}

/// Further expressions, each behind a comma.
#[cycle(expr)]
#[tactic(auto, using(crate::proofs::Lengths::words_laws))]
pub fn more_expressions<'a>(
    alloc: Global,
    first: Vec<Expr>,
    words: &'a [Word],
    left: u32,
) -> Result<(Vec<Expr>, &'a [Word]), ReadError>
    ensures { Gives (λ r. (pieceviews.expression_list r.0.items, tokens_of r.1.now)) result (joined pieceviews.grown_list (pieceviews.expression_list first.items) (tests.followed_by (full left).expression (tokens_of words.now))) }
{
    let mut all = first;
    let mut rest = words;
    for _turn in 0..words.len() {
        let Some((comma, after)) = rest.split_first() else {
            return Ok((all, rest));
        };
        if !is_sign(comma, Sign::Comma) {
            return Ok((all, rest));
        }
        let (next, more) = match expression(alloc, after, left) {
            Ok(read) => read,
            Err(e) => {
                drop(all);
                return Err(e);
            }
        };
        all.push(next)?;
        rest = more;
    }
    Ok((all, rest))
}

/// A name and what stands in brackets behind it: a designator, or a function with its arguments.
#[cycle(expr)]
fn named<'a>(alloc: Global, words: &'a [Word], left: u32) -> Result<(Expr, &'a [Word]), ReadError>
    ensures { Gives (λ r. (view.expression r.0, tokens_of r.1.now)) result (spec.named_reader (levels.pieces_at left) (levels.selector_at left) (tokens_of words.now)) }
{
    let (name, rest) = name(words)?;
    let (pieces, rest) = match brackets(alloc, rest, left) {
        Ok(read) => read,
        Err(e) => {
            drop(name);
            return Err(e);
        }
    };
    if is_function(&pieces) {
        return Ok((named_expression(alloc, name, pieces, None)?, rest));
    }
    let (selector, rest) = match selector(alloc, rest, left) {
        Ok(read) => read,
        Err(e) => {
            drop(name);
            drop(pieces);
            return Err(e);
        }
    };
    Ok((named_expression(alloc, name, pieces, selector)?, rest))
}

/// What stands in round brackets behind a name, where there are any.
#[cycle(expr)]
#[tactic(auto, using(crate::proofs::Levels::pieces_is, crate::proofs::Lengths::words_laws))]
pub fn brackets<'a>(
    alloc: Global,
    words: &'a [Word],
    left: u32,
) -> Result<(Option<Vec<Piece>>, &'a [Word]), ReadError>
    ensures { Gives (λ r. (pieceviews.held_pieces r.0, tokens_of r.1.now)) result (optional (tests.is_sign Sign.OpenRound) (levels.pieces_at left) (tokens_of words.now)) }
{
    let Some((first, _)) = words.split_first() else {
        return Ok((None, words));
    };
    if !is_sign(first, Sign::OpenRound) {
        return Ok((None, words));
    }
    let (closer, rest) = open_round(words, left)?;
    let (all, rest) = pieces(alloc, rest, left - 1)?;
    match sign(rest, closer) {
        Ok((_, rest)) => Ok((Some(all), rest)),
        Err(e) => {
            drop(all);
            Err(e)
        }
    }
}

/// Subscripts, or arguments, or nothing.
#[cycle(expr)]
#[tactic(auto, using(crate::proofs::Levels::pieces_none))]
fn pieces<'a>(
    alloc: Global,
    words: &'a [Word],
    left: u32,
) -> Result<(Vec<Piece>, &'a [Word]), ReadError>
    ensures { Gives (λ r. (pieceviews.pieces_of r.0.items, tokens_of r.1.now)) result (pieces.pieces_or_none (full left).expression (tokens_of words.now)) }
{
    if !begins_piece(words) {
        return Ok((Vec::new(alloc), words));
    }
    let (piece, rest) = match piece(alloc, Mode::Either, words, left) {
        Ok(read) => read,
        Err(e) => return Err(e),
    };
    let mode = mode_after(Mode::Either, &piece);
    let all = one_piece(alloc, piece)?;
    more_pieces(alloc, mode, all, rest, left)
}

/// Further pieces, each behind a comma; which may come is told by those that came.
#[cycle(expr)]
#[tactic(auto, using(crate::proofs::Lengths::words_laws))]
pub fn more_pieces<'a>(
    alloc: Global,
    mode: Mode,
    first: Vec<Piece>,
    words: &'a [Word],
    left: u32,
) -> Result<(Vec<Piece>, &'a [Word]), ReadError>
    ensures { Gives (λ r. (pieceviews.pieces_of r.0.items, tokens_of r.1.now)) result (joined pieceviews.grown (pieceviews.pieces_of first.items) (pieceviews.further mode (full left).expression (tokens_of words.now))) }
{
    let mut mode = mode;
    let mut all = first;
    let mut rest = words;
    for _turn in 0..words.len() {
        let Some((comma, after)) = rest.split_first() else {
            return Ok((all, rest));
        };
        if !is_sign(comma, Sign::Comma) {
            return Ok((all, rest));
        }
        let (next, more) = match piece(alloc, mode, after, left) {
            Ok(read) => read,
            Err(e) => {
                drop(all);
                return Err(e);
            }
        };
        mode = mode_after(mode, &next);
        all.push(next)?;
        rest = more;
    }
    Ok((all, rest))
}

/// A subscript, an argument or a specifier, as the pieces so far allow it.
#[cycle(expr)]
#[tactic(auto, using(crate::proofs::Levels::piece_is))]
pub fn piece<'a>(
    alloc: Global,
    mode: Mode,
    words: &'a [Word],
    left: u32,
) -> Result<(Piece, &'a [Word]), ReadError>
    ensures { Gives (λ r. (pieceviews.piece_of r.0, tokens_of r.1.now)) result (pieceviews.piece_by mode (full left).expression (tokens_of words.now)) }
{
    if takes_keyword(mode, words) {
        return specifier(alloc, words, left);
    }
    if takes_range(mode) {
        return subscript(alloc, words, left);
    }
    let (value, rest) = expression(alloc, words, left)?;
    Ok((Piece::Value(value), rest))
}

/// A name, `=` and an expression.
#[cycle(expr)]
#[tactic(auto, using(crate::proofs::Levels::named_is))]
pub fn specifier<'a>(
    alloc: Global,
    words: &'a [Word],
    left: u32,
) -> Result<(Piece, &'a [Word]), ReadError>
    ensures { Gives (λ r. (pieceviews.piece_of r.0, tokens_of r.1.now)) result (pieces.named_piece (full left).expression (tokens_of words.now)) }
{
    let (name, rest) = keyword(words)?;
    match expression(alloc, rest, left) {
        Ok((value, rest)) => Ok((Piece::Named { name, value }, rest)),
        Err(e) => {
            drop(name);
            Err(e)
        }
    }
}

/// A subscript or a subscript triplet (R920).
#[cycle(expr)]
#[tactic(auto, using(crate::proofs::Levels::subscript_is, crate::proofs::Levels::colon_is, crate::proofs::Levels::held_is, crate::proofs::Lengths::words_laws))]
pub fn subscript<'a>(
    alloc: Global,
    words: &'a [Word],
    left: u32,
) -> Result<(Piece, &'a [Word]), ReadError>
    ensures { Gives (λ r. (pieceviews.piece_of r.0, tokens_of r.1.now)) result (pieces.subscript_piece (full left).expression (tokens_of words.now)) }
{
    if begins_with(words, Sign::Colon) {
        let (colon, rest) = sign(words, Sign::Colon)?;
        let ((upper, stride), rest) = bounds(alloc, rest, left)?;
        let at = colon.at;
        return Ok((
            Piece::Range {
                lower: None,
                upper,
                stride,
                at,
            },
            rest,
        ));
    }
    let (lower, rest) = expression(alloc, words, left)?;
    let Some((colon, after)) = rest.split_first() else {
        return Ok((Piece::Value(lower), rest));
    };
    if !is_sign(colon, Sign::Colon) {
        return Ok((Piece::Value(lower), rest));
    }
    let ((upper, stride), rest) = match bounds(alloc, after, left) {
        Ok(read) => read,
        Err(e) => {
            drop(lower);
            return Err(e);
        }
    };
    Ok((range(alloc, lower, upper, stride)?, rest))
}

/// The upper bound and the stride of a triplet, behind its first colon.
#[cycle(expr)]
#[tactic(auto, using(crate::proofs::Levels::held_is, crate::proofs::Lengths::words_laws))]
fn bounds<'a>(
    alloc: Global,
    words: &'a [Word],
    left: u32,
) -> Result<(Bounds, &'a [Word]), ReadError>
    ensures { Gives (λ r. ((pieceviews.held_optional r.0.0, pieceviews.held_optional r.0.1), tokens_of r.1.now)) result (pieceviews.bounds (full left).expression (tokens_of words.now)) }
{
    let (upper, rest) = maybe_expression(alloc, words, left)?;
    let Some((colon, after)) = rest.split_first() else {
        return Ok(((upper, None), rest));
    };
    if !is_sign(colon, Sign::Colon) {
        return Ok(((upper, None), rest));
    }
    match expression(alloc, after, left) {
        Ok((stride, rest)) => Ok(((upper, Some(Box::new(alloc, stride)?)), rest)),
        Err(e) => {
            drop(upper);
            Err(e)
        }
    }
}

/// An expression where one begins.
#[cycle(expr)]
#[tactic(auto, using(crate::proofs::Lengths::words_laws))]
pub fn maybe_expression<'a>(
    alloc: Global,
    words: &'a [Word],
    left: u32,
) -> Result<(Option<Box<Expr>>, &'a [Word]), ReadError>
    ensures { Gives (λ r. (pieceviews.held_optional r.0, tokens_of r.1.now)) result (optional (openings.opens 1) (full left).expression (tokens_of words.now)) }
{
    let Some((first, _)) = words.split_first() else {
        return Ok((None, words));
    };
    if !opens(1, first) {
        return Ok((None, words));
    }
    let (value, rest) = expression(alloc, words, left)?;
    Ok((Some(Box::new(alloc, value)?), rest))
}

/// An image selector (R924), where there is one: cosubscripts and specifiers.
#[cycle(expr)]
#[tactic(auto, using(crate::proofs::Levels::selector_is, crate::proofs::Lengths::words_laws))]
pub fn selector<'a>(
    alloc: Global,
    words: &'a [Word],
    left: u32,
) -> Result<(Option<Choices>, &'a [Word]), ReadError>
    ensures { Gives (λ r. (pieceviews.held_chosen r.0, tokens_of r.1.now)) result (optional spec.is_square (levels.selector_at left) (tokens_of words.now)) }
{
    let Some((first, _)) = words.split_first() else {
        return Ok((None, words));
    };
    if !is_square(first) {
        return Ok((None, words));
    }
    let (closer, rest) = open_square(words, left)?;
    let (value, rest) = choices(alloc, rest, left - 1)?;
    match sign(rest, closer) {
        Ok((_, rest)) => Ok((Some(value), rest)),
        Err(e) => {
            drop(value);
            Err(e)
        }
    }
}

/// Cosubscripts, one at least, and then specifiers.
#[cycle(expr)]
fn choices<'a>(
    alloc: Global,
    words: &'a [Word],
    left: u32,
) -> Result<(Choices, &'a [Word]), ReadError>
    ensures { Gives (λ r. ((view.expressions r.0.0.items, view.specifiers r.0.1.items), tokens_of r.1.now)) result (selectors.choices (full left).expression (tokens_of words.now)) }
{
    let (first, rest) = expression(alloc, words, left)?;
    let (more, rest) = match more_choices(alloc, rest, left) {
        Ok(read) => read,
        Err(e) => {
            drop(first);
            return Err(e);
        }
    };
    Ok((chosen(alloc, first, more)?, rest))
}

/// Further cosubscripts and specifiers, each behind a comma.
#[cycle(expr)]
#[tactic(auto, using(crate::proofs::Levels::grown_empty))]
fn more_choices<'a>(
    alloc: Global,
    words: &'a [Word],
    left: u32,
) -> Result<(Vec<Piece>, &'a [Word]), ReadError>
    ensures { Gives (λ r. (pieceviews.pieces_of r.0.items, tokens_of r.1.now)) result (pieceviews.further Mode.Choice (full left).expression (tokens_of words.now)) }
{
    more_pieces(alloc, Mode::Choice, Vec::new(alloc), words, left)
}
