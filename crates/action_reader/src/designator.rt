//! Readers of designators, of assignments and of calls (ISO/IEC 1539-1:2018, R901, R1032, R1521).

ghost use Rattle.std.specs.Prelude.{◌≡◌, [], ◌∷◌, List, IfOk};
ghost use Rattle.action_reader.specs.Pieces as pieces;
ghost use Rattle.action_reader.specs.Views as views;
ghost use Rattle.expr_reader.specs.Designators as designators;
ghost use Rattle.expr_reader.specs.Pieces as plain;
ghost use Rattle.expr_reader.specs.PieceViews.{held_chosen, held_pieces, option_items, piece_of, pieces_of};
ghost use Rattle.expr_reader.specs.Results.{Gives};
ghost use Rattle.expr_reader.specs.Words.{tokens_of};
ghost use Rattle.fortran_tree.specs.ActionViews as forms;
ghost use Rattle.fortran_tree.specs.ExpressionViews as view;
ghost use Rattle.fortran_tree.specs.Expressions as tree;
ghost use Rattle.statement_reader.specs.Actions as actions;
ghost use Rattle.statement_reader.specs.Lines as lines;

use crate::key::begins_expression;
use crate::reads::{Reads, in_round};
use crate::specifier::{expression_behind, further_specifiers};
use expr_reader::error::ReadError;
use expr_reader::expr::{more_pieces, piece, selector};
use expr_reader::one::{begins_with, name};
use expr_reader::piece::{Mode, Piece, designator as designator_of, mode_after, one_piece};
use expr_reader::word::Word;
use fortran_tokens::token::Sign;
use fortran_tree::action::ActionForm;
use fortran_tree::expr::{Argument, Designator, Expr, Specifier, Subscript};
use fortran_tree::name::Name;
use std::alloc::{AllocError, Global};

/// Subscripts, one at least (R919).
pub struct Subscripts;

impl Reads for Subscripts {
    type Tree = Vec<Piece>;

    ghost Seen = { List plain.Piece };

    ghost look = { λ ps. pieces_of ps.items };

    ghost reader = { pieces.subscripts };

    #[tactic(auto, using(crate::proofs::Modes::mode_laws))]
    fn read<'a>(
        alloc: Global,
        words: &'a [Word],
        left: u32,
    ) -> Result<(Vec<Piece>, &'a [Word]), ReadError> {
        let (first, rest) = piece(alloc, Mode::Ranged, words, left)?;
        let mode = mode_after(Mode::Ranged, &first);
        let all = one_piece(alloc, first)?;
        more_pieces(alloc, mode, all, rest, left)
    }
}

/// Arguments, each perhaps with a keyword, or none (R1523).
pub struct ArgumentPieces;

impl Reads for ArgumentPieces {
    type Tree = Vec<Piece>;

    ghost Seen = { List plain.Piece };

    ghost look = { λ ps. pieces_of ps.items };

    ghost reader = { pieces.argument_pieces };

    #[tactic(auto, using(crate::proofs::Modes::mode_laws))]
    fn read<'a>(
        alloc: Global,
        words: &'a [Word],
        left: u32,
    ) -> Result<(Vec<Piece>, &'a [Word]), ReadError> {
        if !begins_expression(words) {
            return Ok((Vec::new(alloc), words));
        }
        let (first, rest) = piece(alloc, Mode::Keyed, words, left)?;
        let mode = mode_after(Mode::Keyed, &first);
        let all = one_piece(alloc, first)?;
        more_pieces(alloc, mode, all, rest, left)
    }
}

/// A piece as a subscript.
#[tactic(auto, using(expr_reader::proofs::Chained::tree_laws))]
fn subscript(piece: Piece) -> Subscript
    ensures { view.section_subscript result ≡ plain.subscript_of (piece_of piece) }
{
    match piece {
        Piece::Value(value) => Subscript::Element(value),
        Piece::Named { name, value } => {
            drop(name);
            Subscript::Element(value)
        }
        Piece::Range {
            lower,
            upper,
            stride,
            at,
        } => Subscript::Triplet {
            lower,
            upper,
            stride,
            at,
        },
    }
}

/// The pieces as subscripts.
#[tactic(auto, using(expr_reader::proofs::Chained::tree_laws))]
fn subscripts_of(alloc: Global, all: Vec<Piece>) -> Result<Vec<Subscript>, AllocError>
    ensures { IfOk result (λ v. view.section_subscripts v.items ≡ plain.subscripts_of (pieces_of all.items)) }
{
    let mut out = Vec::new(alloc);
    for piece in all {
        out.push(subscript(piece))?;
    }
    Ok(out)
}

/// A piece as an argument, where it is no triplet.
#[tactic(auto, using(expr_reader::proofs::Chained::tree_laws))]
fn argument(piece: Piece) -> Option<Argument>
    ensures { view.arguments (option_items result) ≡ plain.arguments_of (piece_of piece ∷ []) }
{
    match piece {
        Piece::Value(value) => Some(Argument {
            keyword: None,
            value,
        }),
        Piece::Named { name, value } => Some(Argument {
            keyword: Some(name),
            value,
        }),
        Piece::Range {
            lower,
            upper,
            stride,
            at: _,
        } => {
            drop(lower);
            drop(upper);
            drop(stride);
            None
        }
    }
}

/// The pieces as arguments; none of them is a triplet.
#[tactic(auto, using(expr_reader::proofs::Chained::tree_laws))]
fn arguments_of(alloc: Global, all: Vec<Piece>) -> Result<Vec<Argument>, AllocError>
    ensures { IfOk result (λ v. view.arguments v.items ≡ plain.arguments_of (pieces_of all.items)) }
{
    let mut out = Vec::new(alloc);
    for piece in all {
        if let Some(argument) = argument(piece) {
            out.push(argument)?;
        }
    }
    Ok(out)
}

/// Subscripts in brackets, where there are any.
#[tactic(auto, using(crate::proofs::Modes::mode_laws))]
fn brackets<'a>(
    alloc: Global,
    words: &'a [Word],
    left: u32,
) -> Result<(Option<Vec<Piece>>, &'a [Word]), ReadError>
    ensures { Gives (λ r. (held_pieces r.0, tokens_of r.1.now)) result (pieces.brackets left (tokens_of words.now)) }
{
    if !begins_with(words, Sign::OpenRound) {
        return Ok((None, words));
    }
    let (all, rest) = in_round::<Subscripts>(alloc, words, left)?;
    Ok((Some(all), rest))
}

/// A name, and subscripts in brackets behind it.
#[tactic(auto, using(crate::proofs::Modes::mode_laws))]
fn part<'a>(
    alloc: Global,
    words: &'a [Word],
    left: u32,
) -> Result<((Name, Option<Vec<Piece>>), &'a [Word]), ReadError>
    ensures { Gives (λ r. ((r.0.0, held_pieces r.0.1), tokens_of r.1.now)) result (pieces.part left (tokens_of words.now)) }
{
    let (name, rest) = name(words)?;
    match brackets(alloc, rest, left) {
        Ok((all, rest)) => Ok(((name, all), rest)),
        Err(e) => {
            drop(name);
            Err(e)
        }
    }
}

/// A designator of its parts.
#[tactic(auto, using(crate::proofs::Modes::mode_laws))]
fn made(
    alloc: Global,
    name: Name,
    all: Option<Vec<Piece>>,
    selector: Option<(Vec<Expr>, Vec<Specifier>)>,
) -> Result<Designator, AllocError>
    ensures { IfOk result (λ d. view.designator d ≡ designators.designator_of (name, held_pieces all) (held_chosen selector)) }
{
    let subscripts = match all {
        None => Vec::new(alloc),
        Some(all) => subscripts_of(alloc, all)?,
    };
    Ok(designator_of(name, subscripts, selector))
}

/// A designator (R901).
#[tactic(auto, using(crate::proofs::Modes::mode_laws))]
pub fn designator<'a>(
    alloc: Global,
    words: &'a [Word],
    left: u32,
) -> Result<(Designator, &'a [Word]), ReadError>
    ensures { Gives (λ r. (view.designator r.0, tokens_of r.1.now)) result (actions.a_designator left (tokens_of words.now)) }
{
    let (part, rest) = part(alloc, words, left)?;
    match selector(alloc, rest, left) {
        Ok((selector, rest)) => {
            let (name, all) = part;
            Ok((made(alloc, name, all, selector)?, rest))
        }
        Err(e) => {
            drop(part);
            Err(e)
        }
    }
}

/// A variable and specifiers behind it, as LOCK and EVENT POST have them.
pub struct AnObject;

impl Reads for AnObject {
    type Tree = (Designator, Vec<Specifier>);

    ghost Seen = { tree.Designator × tree.Specifiers };

    ghost look = { views.object_of };

    ghost reader = { actions.an_object };

    #[tactic(auto, using(crate::proofs::Specifiers::specifier_laws))]
    fn read<'a>(
        alloc: Global,
        words: &'a [Word],
        left: u32,
    ) -> Result<((Designator, Vec<Specifier>), &'a [Word]), ReadError> {
        let (variable, rest) = designator(alloc, words, left)?;
        match further_specifiers(alloc, rest, left) {
            Ok((specifiers, rest)) => Ok(((variable, specifiers), rest)),
            Err(e) => {
                drop(variable);
                Err(e)
            }
        }
    }
}

/// An assignment (R1032).
#[tactic(auto, using(crate::proofs::Acts::act_laws))]
pub fn assignment<'a>(
    alloc: Global,
    words: &'a [Word],
    left: u32,
) -> Result<(ActionForm, &'a [Word]), ReadError>
    ensures { Gives (λ r. (forms.action_statement r.0, tokens_of r.1.now)) result (lines.an_assignment left (tokens_of words.now)) }
{
    let (variable, rest) = designator(alloc, words, left)?;
    match expression_behind(alloc, Sign::Assign, rest, left) {
        Ok((value, rest)) => Ok((ActionForm::Assignment { variable, value }, rest)),
        Err(e) => {
            drop(variable);
            Err(e)
        }
    }
}

/// Arguments, or none.
pub struct Arguments;

impl Reads for Arguments {
    type Tree = Vec<Argument>;

    ghost Seen = { tree.Arguments };

    ghost look = { λ args. view.arguments args.items };

    ghost reader = { actions.some_arguments };

    #[tactic(auto, using(crate::proofs::Specifiers::specifier_laws))]
    fn read<'a>(
        alloc: Global,
        words: &'a [Word],
        left: u32,
    ) -> Result<(Vec<Argument>, &'a [Word]), ReadError> {
        let (all, rest) = ArgumentPieces::read(alloc, words, left)?;
        Ok((arguments_of(alloc, all)?, rest))
    }
}

/// Arguments in brackets, where there are any.
#[tactic(auto, using(crate::proofs::Specifiers::specifier_laws))]
fn maybe_arguments<'a>(
    alloc: Global,
    words: &'a [Word],
    left: u32,
) -> Result<(Option<Vec<Argument>>, &'a [Word]), ReadError>
    ensures { Gives (λ r. (forms.maybe_arguments r.0, tokens_of r.1.now)) result (pieces.maybe_arguments left (tokens_of words.now)) }
{
    if !begins_with(words, Sign::OpenRound) {
        return Ok((None, words));
    }
    let (arguments, rest) = in_round::<Arguments>(alloc, words, left)?;
    Ok((Some(arguments), rest))
}

/// What stands behind CALL (R1521).
#[tactic(auto, using(crate::proofs::Specifiers::specifier_laws))]
pub fn called<'a>(
    alloc: Global,
    words: &'a [Word],
    left: u32,
) -> Result<((Name, Option<Vec<Argument>>), &'a [Word]), ReadError>
    ensures { Gives (λ r. ((r.0.0, forms.maybe_arguments r.0.1), tokens_of r.1.now)) result (actions.a_call left (tokens_of words.now)) }
{
    let (name, rest) = name(words)?;
    match maybe_arguments(alloc, rest, left) {
        Ok((arguments, rest)) => Ok(((name, arguments), rest)),
        Err(e) => {
            drop(name);
            Err(e)
        }
    }
}
