//! What stands between brackets behind a name, piece by piece, and what it is there.

ghost use Rattle.std.specs.Prelude.{◌≡◌, [], ◌∷◌, ◌++◌, IfOk, OnOk};
ghost use Rattle.expr_reader.specs.PieceViews.{mode_after, named_here, takes_keyword, takes_range, held_chosen, held_pieces, option_items, piece_here, piece_of, pieces_of};
ghost use Rattle.expr_reader.specs.Full as full;
ghost use Rattle.expr_reader.specs.Pieces as pieces;
ghost use Rattle.expr_reader.specs.Reading as reading;
ghost use Rattle.expr_reader.specs.Selectors as selectors;
ghost use Rattle.expr_reader.specs.Words.{tokens_of};
ghost use Rattle.fortran_tree.specs.ExpressionViews as view;
ghost use Rattle.fortran_tree.specs.Expressions as tree;

use crate::token::{is_name, is_sign, opens};
use crate::tree::place_of;
use crate::word::Word;
use caf_base::place::Pos;
use fortran_tokens::token::Sign;
use fortran_tree::expr::{Argument, Designator, Expr, Selector, Specifier, Subscript};
use fortran_tree::name::Name;
use std::alloc::{AllocError, Global};

/// An expression, a subscript triplet, or an expression with a keyword.
#[derive(Drop)]
pub enum Piece {
    Value(Expr),
    /// `lower : upper : stride`, at its first token.
    Range {
        lower: Option<Box<Expr>>,
        upper: Option<Box<Expr>>,
        stride: Option<Box<Expr>>,
        at: Pos,
    },
    Named {
        name: Name,
        value: Expr,
    },
}

/// Which pieces a list may go on with.
#[derive(Clone, Copy)]
pub enum Mode {
    /// All: neither a triplet nor a keyword came.
    Either,
    /// Expressions and triplets: a triplet came.
    Ranged,
    /// Expressions, with a keyword or without: a keyword came.
    Keyed,
    /// The same in an image selector, where no specifier came.
    Choice,
    /// Specifiers alone: one came.
    Specifiers,
}

/// What may follow a piece.
pub fn mode_after(mode: Mode, piece: &Piece) -> Mode
    ensures { result ≡ mode_after mode (piece_of piece.now) }
{
    match (mode, piece) {
        (Mode::Choice, Piece::Named { .. }) => Mode::Specifiers,
        (Mode::Choice, _) => Mode::Choice,
        (Mode::Specifiers, _) => Mode::Specifiers,
        (mode, Piece::Value(_)) => mode,
        (_, Piece::Range { .. }) => Mode::Ranged,
        (_, Piece::Named { .. }) => Mode::Keyed,
    }
}

/// The words begin with a name and `=`.
#[tactic(auto, using(crate::proofs::Lengths::words_laws))]
fn is_named(words: &[Word]) -> bool
    ensures { result ≡ named_here (tokens_of words.now) }
{
    match words {
        [name, sign, ..] => is_name(name) && is_sign(sign, Sign::Assign),
        _ => false,
    }
}

/// A piece with a keyword stands here, or must.
#[tactic(auto, using(crate::proofs::Lengths::words_laws))]
pub fn takes_keyword(mode: Mode, words: &[Word]) -> bool
    ensures { result ≡ takes_keyword mode (tokens_of words.now) }
{
    match mode {
        Mode::Ranged => false,
        Mode::Specifiers => true,
        Mode::Either | Mode::Keyed | Mode::Choice => is_named(words),
    }
}

/// A triplet may stand here.
pub fn takes_range(mode: Mode) -> bool
    ensures { result ≡ takes_range mode }
{
    matches!(mode, Mode::Either | Mode::Ranged)
}

/// A piece begins here.
#[tactic(auto, using(crate::proofs::Lengths::words_laws))]
pub fn begins_piece(words: &[Word]) -> bool
    ensures { result ≡ piece_here (tokens_of words.now) }
{
    match words.split_first() {
        Some((first, _)) => is_sign(first, Sign::Colon) || opens(1, first),
        None => false,
    }
}

/// The pieces are a function's arguments: there are none, or one has a keyword.
pub fn is_call(all: &[Piece]) -> bool
    ensures { result ≡ pieces.is_call (pieces_of all.now) }
{
    if all.is_empty() {
        return true;
    }
    for piece in all {
        if matches!(piece, Piece::Named { .. }) {
            return true;
        }
    }
    false
}

/// A piece as an argument, where it is no triplet.
fn argument(piece: Piece) -> Option<Argument>
    ensures { view.arguments (option_items result) ≡ pieces.arguments_of (piece_of piece ∷ []) }
{
    match piece {
        Piece::Value(value) => Some(Argument {
            keyword: None,
            value,
        }),
        Piece::Named { name, value } => Some(Argument {
            keyword: Some(name),
            value,
        }),
        Piece::Range {
            lower,
            upper,
            stride,
            at: _,
        } => {
            drop(lower);
            drop(upper);
            drop(stride);
            None
        }
    }
}

/// The pieces as arguments; none of them is a triplet.
fn arguments_of(alloc: Global, all: Vec<Piece>) -> Result<Vec<Argument>, AllocError>
    ensures { IfOk result (λ v. view.arguments v.items ≡ pieces.arguments_of (pieces_of all.items)) }
{
    let mut out = Vec::new(alloc);
    for piece in all {
        if let Some(argument) = argument(piece) {
            out.push(argument)?;
        }
    }
    Ok(out)
}

/// A piece as a subscript, where it has no keyword.
#[tactic(auto, using(fortran_tree::specs::ExpressionViews::section_subscript_alone, fortran_tree::specs::ExpressionViews::section_subscript_triplet))]
fn subscript(piece: Piece) -> Subscript
    ensures { view.section_subscript result ≡ pieces.subscript_of (piece_of piece) }
{
    match piece {
        Piece::Value(value) => Subscript::Element(value),
        Piece::Named { name, value } => {
            drop(name);
            Subscript::Element(value)
        }
        Piece::Range {
            lower,
            upper,
            stride,
            at,
        } => Subscript::Triplet {
            lower,
            upper,
            stride,
            at,
        },
    }
}

/// The pieces as subscripts; none of them has a keyword.
fn subscripts_of(alloc: Global, all: Vec<Piece>) -> Result<Vec<Subscript>, AllocError>
    ensures { IfOk result (λ v. view.section_subscripts v.items ≡ pieces.subscripts_of (pieces_of all.items)) }
{
    let mut out = Vec::new(alloc);
    for piece in all {
        out.push(subscript(piece))?;
    }
    Ok(out)
}

/// A piece as a cosubscript, where it has no keyword, and as a specifier, where it has one; none of them is a triplet.
fn choice(piece: Piece) -> (Option<Expr>, Option<Specifier>)
    ensures values { view.expressions (option_items result.0) ≡ selectors.values_of (piece_of piece ∷ []) }
    ensures specifiers { view.specifiers (option_items result.1) ≡ selectors.specifiers_of (piece_of piece ∷ []) }
{
    match piece {
        Piece::Value(value) => (Some(value), None),
        Piece::Named { name, value } => (None, Some(Specifier { name, value })),
        Piece::Range {
            lower,
            upper,
            stride,
            at: _,
        } => {
            drop(lower);
            drop(upper);
            drop(stride);
            (None, None)
        }
    }
}

/// Puts an item, where there is one, at the end of a list.
fn push_some<T: Drop>(list: &mut Vec<T>, item: Option<T>) -> Result<(), AllocError>
    ensures { OnOk result (list.new.items ≡ list.old.items ++ option_items item) }
{
    if let Some(item) = item {
        list.push(item)?;
    }
    Ok(())
}

/// An expression and the pieces behind it as cosubscripts and specifiers; none of them is a triplet.
pub fn chosen(
    alloc: Global,
    first: Expr,
    all: Vec<Piece>,
) -> Result<(Vec<Expr>, Vec<Specifier>), AllocError>
    ensures values { IfOk result (λ r. view.expressions r.0.items ≡ (selectors.chosen (view.expression first) (pieces_of all.items)).0) }
    ensures specifiers { IfOk result (λ r. view.specifiers r.1.items ≡ (selectors.chosen (view.expression first) (pieces_of all.items)).1) }
{
    let mut values = Vec::new(alloc);
    values.push(first)?;
    let mut specifiers = Vec::new(alloc);
    for piece in all {
        let (value, specifier) = choice(piece);
        push_some(&mut values, value)?;
        push_some(&mut specifiers, specifier)?;
    }
    Ok((values, specifiers))
}

/// The pieces behind a name are a function's arguments.
pub fn is_function(all: &Option<Vec<Piece>>) -> bool
    ensures { result ≡ full.is_function (held_pieces all.now) }
{
    match all {
        None => false,
        Some(all) => is_call(all.as_slice()),
    }
}

/// An image selector of these parts, where there is one.
#[tactic(auto, using(crate::proofs::Chained::part_laws))]
fn selector_of(selector: Option<(Vec<Expr>, Vec<Specifier>)>) -> Option<Selector>
    ensures { view.maybe_image_selector result ≡ full.selector_of (held_chosen selector) }
{
    match selector {
        None => None,
        Some((cosubscripts, specifiers)) => Some(Selector {
            cosubscripts,
            specifiers,
        }),
    }
}

/// A designator of these parts.
#[tactic(auto, using(crate::proofs::Chained::part_laws))]
pub fn designator(
    name: Name,
    subscripts: Vec<Subscript>,
    selector: Option<(Vec<Expr>, Vec<Specifier>)>,
) -> Designator
    ensures { view.designator result ≡ tree.part_ref name (view.section_subscripts subscripts.items) (full.selector_of (held_chosen selector)) }
{
    let selector = selector_of(selector);
    Designator {
        name,
        subscripts,
        selector,
    }
}

/// The expression that a name is with what stands in brackets behind it.
#[tactic(auto, using(fortran_tree::specs::ExpressionViews::expression_designator, fortran_tree::specs::ExpressionViews::expression_function_reference))]
pub fn named_expression(
    alloc: Global,
    name: Name,
    pieces: Option<Vec<Piece>>,
    selector: Option<(Vec<Expr>, Vec<Specifier>)>,
) -> Result<Expr, AllocError>
    ensures { IfOk result (λ e. view.expression e ≡ full.by_pieces name (held_pieces pieces) (held_chosen selector)) }
{
    let Some(all) = pieces else {
        let whole = designator(name, Vec::new(alloc), selector);
        return Ok(Expr::Designator(whole));
    };
    if is_call(all.as_slice()) {
        drop(selector);
        let arguments = arguments_of(alloc, all)?;
        return Ok(Expr::FunctionReference {
            function: name,
            arguments,
        });
    }
    let subscripts = subscripts_of(alloc, all)?;
    Ok(Expr::Designator(designator(name, subscripts, selector)))
}

/// A triplet with a lower bound.
pub fn range(
    alloc: Global,
    lower: Expr,
    upper: Option<Box<Expr>>,
    stride: Option<Box<Expr>>,
) -> Result<Piece, AllocError>
    ensures { IfOk result (λ p. piece_of p ≡ pieces.range (tree.given (view.expression lower)) (view.optional_expression upper) (view.optional_expression stride) (reading.place_of (view.expression lower))) }
{
    let at = place_of(&lower);
    Ok(Piece::Range {
        lower: Some(Box::new(alloc, lower)?),
        upper,
        stride,
        at,
    })
}

/// The list of one piece.
pub fn one_piece(alloc: Global, piece: Piece) -> Result<Vec<Piece>, AllocError>
    ensures { IfOk result (λ v. pieces_of v.items ≡ piece_of piece ∷ []) }
{
    let mut all = Vec::new(alloc);
    all.push(piece)?;
    Ok(all)
}
