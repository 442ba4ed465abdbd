//! Readers of one token. Each reader takes the words from its place on, and gives what it reads and the words behind
//! it.

ghost use Rattle.std.specs.Prelude.{◌≡◌, ◌≤◌, IfOk};
ghost use Rattle.reader_theory.specs.Readers.{sunk, token};
ghost use Rattle.fortran_tree.specs.Expressions.{Expression};
ghost use Rattle.fortran_tree.specs.ExpressionViews as view;
ghost use Rattle.expr_reader.specs.Full as full;
ghost use Rattle.expr_reader.specs.Levels as levels;
ghost use Rattle.expr_reader.specs.Openings as openings;
ghost use Rattle.expr_reader.specs.Results.{Fails, Gives};
ghost use Rattle.expr_reader.specs.Tests as tests;
ghost use Rattle.expr_reader.specs.Words.{token_of, tokens_of};

use crate::error::{ReadError, expected, too_deep};
use crate::token::{is_sign, is_square, opens};
use crate::word::{Word, WordKind};
use caf_base::refusal::NoMemory;
use fortran_tokens::token::Sign;
use fortran_tree::expr::{Expr, NumberKind};
use fortran_tree::name::Name;

/// This sign.
#[tactic(auto, using(crate::proofs::Lengths::words_laws))]
pub fn sign(words: &[Word], sign: Sign) -> Result<(&Word, &[Word]), ReadError>
    ensures { Gives (λ r. (token_of r.0.now, tokens_of r.1.now)) result (token (tests.is_sign sign) (tokens_of words.now)) }
{
    let Some((first, rest)) = words.split_first() else {
        return Err(expected(0));
    };
    if is_sign(first, sign) {
        Ok((first, rest))
    } else {
        Err(expected(words.len()))
    }
}

/// A name.
#[tactic(auto, using(crate::proofs::Lengths::words_laws))]
pub fn name(words: &[Word]) -> Result<(Name, &[Word]), ReadError>
    ensures { Gives (λ r. (r.0, tokens_of r.1.now)) result (tests.a_name (tokens_of words.now)) }
{
    let Some((first, rest)) = words.split_first() else {
        return Err(expected(0));
    };
    let WordKind::Name(text) = &first.kind else {
        return Err(expected(words.len()));
    };
    let name = Name {
        text: text.copy()?,
        at: first.at,
    };
    Ok((name, rest))
}

/// A name and `=`.
#[tactic(auto, using(crate::proofs::Lengths::words_laws))]
pub fn keyword(words: &[Word]) -> Result<(Name, &[Word]), ReadError>
    ensures { Gives (λ r. (r.0, tokens_of r.1.now)) result (levels.a_keyword (tokens_of words.now)) }
{
    let (name, rest) = name(words)?;
    match sign(rest, Sign::Assign) {
        Ok((_, rest)) => Ok((name, rest)),
        Err(e) => {
            drop(name);
            Err(e)
        }
    }
}

/// An opening round bracket, where a level is left: the sign that closes it.
#[tactic(auto, using(crate::proofs::Lengths::words_laws, crate::proofs::Opened::opened_laws))]
pub fn open_round(words: &[Word], left: u32) -> Result<(Sign, &[Word]), ReadError>
    ensures reads { Gives (λ r. (r.0, tokens_of r.1.now)) result (levels.round_opened left (tokens_of words.now)) }
    ensures some { IfOk result (λ r. 1 ≤ left) }
{
    let Some((first, rest)) = words.split_first() else {
        return Err(expected(0));
    };
    if !is_sign(first, Sign::OpenRound) {
        return Err(expected(words.len()));
    }
    if left == 0 {
        return Err(too_deep(words.len()));
    }
    Ok((Sign::CloseRound, rest))
}

/// An opening square bracket in either spelling, where a level is left: the sign that closes it.
#[tactic(auto, using(crate::proofs::Lengths::words_laws, crate::proofs::Opened::opened_laws))]
pub fn open_square(words: &[Word], left: u32) -> Result<(Sign, &[Word]), ReadError>
    ensures reads { Gives (λ r. (r.0, tokens_of r.1.now)) result (levels.square_opened left (tokens_of words.now)) }
    ensures some { IfOk result (λ r. 1 ≤ left) }
{
    let Some((first, rest)) = words.split_first() else {
        return Err(expected(0));
    };
    if !is_square(first) {
        return Err(expected(words.len()));
    }
    if left == 0 {
        return Err(too_deep(words.len()));
    }
    if is_sign(first, Sign::OpenSquare) {
        Ok((Sign::CloseSquare, rest))
    } else {
        Ok((Sign::CloseArray, rest))
    }
}

/// The words begin with this sign.
#[tactic(auto, using(crate::proofs::Lengths::words_laws))]
pub fn begins_with(words: &[Word], sign: Sign) -> bool
    ensures { result ≡ levels.begins_with sign (tokens_of words.now) }
{
    match words.split_first() {
        Some((first, _)) => is_sign(first, sign),
        None => false,
    }
}

/// Where no level is left: why what binds so can't be read.
#[tactic(auto, using(crate::proofs::Lengths::words_laws))]
pub fn sunken(strong: u8, words: &[Word]) -> ReadError
    ensures { Fails {A = Expression} result (sunk (openings.opens strong) (tokens_of words.now)) }
{
    let Some((first, _)) = words.split_first() else {
        return expected(0);
    };
    if opens(strong, first) {
        too_deep(words.len())
    } else {
        expected(words.len())
    }
}

/// The kind of an integer literal once more.
fn kind_of(kind: &NumberKind) -> Result<NumberKind, NoMemory>
    ensures { IfOk result (λ k. k ≡ kind.now) }
{
    Ok(match kind {
        NumberKind::Unstated => NumberKind::Unstated,
        NumberKind::Four => NumberKind::Four,
        NumberKind::Eight => NumberKind::Eight,
        NumberKind::Named(name) => NumberKind::Named(name.copy()?),
    })
}

/// The integer literal that a token is.
#[tactic(auto, using(fortran_tree::specs::ExpressionViews::expression_number))]
pub fn number(word: &Word) -> Result<Expr, NoMemory>
    ensures { IfOk result (λ e. view.expression e ≡ full.number_of (token_of word.now)) }
{
    let at = word.at;
    match &word.kind {
        WordKind::Integer { value, kind } => Ok(Expr::Number {
            value: *value,
            kind: kind_of(kind)?,
            at,
        }),
        _ => Ok(Expr::Number {
            value: 0,
            kind: NumberKind::Unstated,
            at,
        }),
    }
}
