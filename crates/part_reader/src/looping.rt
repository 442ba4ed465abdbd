//! Readers of DO, with and without the name of its construct (ISO/IEC 1539-1:2018, R1119 to R1123).

ghost use Rattle.std.specs.Prelude.{◌≡◌, ◌≤◌, Option, IfOk};
ghost use Rattle.action_reader.specs.Beginnings.{begins};
ghost use Rattle.expr_reader.specs.Results.{Gives};
ghost use Rattle.expr_reader.specs.Words.{tokens_of};
ghost use Rattle.fortran_tree.specs.DeclarationViews as maybe;
ghost use Rattle.fortran_tree.specs.ExpressionViews as expressions;
ghost use Rattle.fortran_tree.specs.StatementViews as statements;
ghost use Rattle.statement_reader.specs.Forms as forms;
ghost use Rattle.statement_reader.specs.Heads as heads;
ghost use Rattle.statement_reader.specs.Parts as f;
ghost use Rattle.part_reader.specs.Levels as levels;
ghost use Rattle.part_reader.specs.Views as view;

use crate::head::{deep_key, no_level};
use crate::part::Part;
use action_reader::key::{begins_with_name, ended, is_key, key, place};
use action_reader::reads::in_round;
use action_reader::specifier::{AnExpression, expression_behind};
use expr_reader::error::ReadError;
use expr_reader::expr::expression;
use expr_reader::one::{begins_with, keyword, name, sign};
use expr_reader::token::is_sign;
use expr_reader::word::Word;
use fortran_tokens::token::Sign;
use fortran_tree::expr::Expr;
use fortran_tree::name::Name;
use fortran_tree::statement::LoopControl;
use std::alloc::Global;

/// The step of a counted loop, where one is written.
#[tactic(auto, using(crate::proofs::Deepened::deep_laws))]
fn step<'a>(
    alloc: Global,
    words: &'a [Word],
    left: u32,
) -> Result<(Option<Expr>, &'a [Word]), ReadError>
    ensures { Gives (λ r. (maybe.maybe_expression r.0, tokens_of r.1.now)) result (heads.step_part left (tokens_of words.now)) }
{
    if !begins_with(words, Sign::Comma) {
        return Ok((None, words));
    }
    let (value, rest) = expression_behind(alloc, Sign::Comma, words, left)?;
    Ok((Some(value), rest))
}

/// The last value of a counted loop and its step.
#[tactic(auto, using(crate::proofs::Deepened::deep_laws))]
fn last<'a>(
    alloc: Global,
    words: &'a [Word],
    left: u32,
) -> Result<((Expr, Option<Expr>), &'a [Word]), ReadError>
    ensures { Gives (λ r. ((expressions.expression r.0.0, maybe.maybe_expression r.0.1), tokens_of r.1.now)) result (levels.last_part left (tokens_of words.now)) }
{
    let (last, rest) = expression(alloc, words, left)?;
    match step(alloc, rest, left) {
        Ok((step, rest)) => Ok(((last, step), rest)),
        Err(e) => {
            drop(last);
            Err(e)
        }
    }
}

/// A comma, the last value of a counted loop and its step.
#[tactic(auto, using(crate::proofs::Deepened::deep_laws))]
fn further<'a>(
    alloc: Global,
    words: &'a [Word],
    left: u32,
) -> Result<((Expr, Option<Expr>), &'a [Word]), ReadError>
    ensures { Gives (λ r. ((expressions.expression r.0.0, maybe.maybe_expression r.0.1), tokens_of r.1.now)) result (levels.further_part left (tokens_of words.now)) }
{
    let (_, rest) = sign(words, Sign::Comma)?;
    last(alloc, rest, left)
}

/// The first and the last value of a counted loop, and its step.
#[tactic(auto, using(crate::proofs::Deepened::deep_laws))]
fn range<'a>(
    alloc: Global,
    words: &'a [Word],
    left: u32,
) -> Result<((Expr, (Expr, Option<Expr>)), &'a [Word]), ReadError>
    ensures { Gives (λ r. ((expressions.expression r.0.0, (expressions.expression r.0.1.0, maybe.maybe_expression r.0.1.1)), tokens_of r.1.now)) result (heads.a_range left (tokens_of words.now)) }
{
    let (first, rest) = expression(alloc, words, left)?;
    match further(alloc, rest, left) {
        Ok((last, rest)) => Ok(((first, last), rest)),
        Err(e) => {
            drop(first);
            Err(e)
        }
    }
}

/// A variable and the values it takes.
#[tactic(auto, using(crate::proofs::Deepened::deep_laws))]
fn counted<'a>(
    alloc: Global,
    words: &'a [Word],
    left: u32,
) -> Result<(LoopControl, &'a [Word]), ReadError>
    ensures { Gives (λ r. (statements.loop_control r.0, tokens_of r.1.now)) result (heads.a_count left (tokens_of words.now)) }
{
    let (variable, rest) = keyword(words)?;
    match range(alloc, rest, left) {
        Ok(((first, (last, step)), rest)) => Ok((
            LoopControl::Counted {
                variable,
                first,
                last,
                step,
            },
            rest,
        )),
        Err(e) => {
            drop(variable);
            Err(e)
        }
    }
}

/// WHILE and its condition.
#[tactic(auto, using(crate::proofs::Deepened::deep_laws))]
fn as_long_as<'a>(
    alloc: Global,
    words: &'a [Word],
    left: u32,
) -> Result<(LoopControl, &'a [Word]), ReadError>
    ensures { Gives (λ r. (statements.loop_control r.0, tokens_of r.1.now)) result (heads.a_while left (tokens_of words.now)) }
{
    let rest = key(words, b"while")?;
    let (condition, rest) = in_round::<AnExpression>(alloc, rest, left)?;
    Ok((LoopControl::While { condition }, rest))
}

/// The words begin with WHILE and a bracket.
#[tactic(auto, using(crate::proofs::Deepened::deep_laws))]
fn begins_while(words: &[Word]) -> bool
    ensures { result ≡ levels.begins_while (tokens_of words.now) }
{
    match words {
        [first, second, ..] => is_key(first, b"while") && is_sign(second, Sign::OpenRound),
        _ => false,
    }
}

/// What a loop goes over: nothing, the values of a variable, or as long as a condition holds (R1123).
#[tactic(auto, using(crate::proofs::Deepened::deep_laws))]
fn control<'a>(
    alloc: Global,
    words: &'a [Word],
    left: u32,
) -> Result<(LoopControl, &'a [Word]), ReadError>
    ensures { Gives (λ r. (statements.loop_control r.0, tokens_of r.1.now)) result (heads.a_control left (tokens_of words.now)) }
{
    if !begins_with_name(words) {
        return Ok((LoopControl::Unlimited, words));
    }
    if begins_while(words) {
        return as_long_as(alloc, words, left);
    }
    counted(alloc, words, left)
}

/// DO.
#[tactic(auto, using(crate::proofs::Deepened::deep_laws))]
pub fn repetition<'a>(
    alloc: Global,
    words: &'a [Word],
    left: u32,
) -> Result<(Part, &'a [Word]), ReadError>
    ensures { Gives (λ r. (view.part r.0, tokens_of r.1.now)) result (forms.form_reader f.do_form left (tokens_of words.now)) }
{
    let at = place(words);
    let rest = deep_key(words, b"do", left)?;
    let (control, rest) = control(alloc, rest, left - 1)?;
    let (control, rest) = ended(control, rest)?;
    Ok((
        Part::Do {
            construct: None,
            control,
            at,
        },
        rest,
    ))
}

/// A name from which on one level more is open.
#[tactic(auto, using(crate::proofs::Deepened::deep_laws))]
fn deep_name(words: &[Word], left: u32) -> Result<(Name, &[Word]), ReadError>
    ensures reads { Gives (λ r. (r.0, tokens_of r.1.now)) result (levels.deep_name left (tokens_of words.now)) }
    ensures some { IfOk result (λ r. 1 ≤ left) }
{
    if left == 0 {
        return Err(no_level(words, begins_with_name(words)));
    }
    name(words)
}

/// A colon, DO and what the loop goes over.
#[tactic(auto, using(crate::proofs::Deepened::deep_laws))]
fn named_control<'a>(
    alloc: Global,
    words: &'a [Word],
    left: u32,
) -> Result<(LoopControl, &'a [Word]), ReadError>
    ensures { Gives (λ r. (statements.loop_control r.0, tokens_of r.1.now)) result (levels.named_control left (tokens_of words.now)) }
{
    let (_, rest) = sign(words, Sign::Colon)?;
    let rest = key(rest, b"do")?;
    let (control, rest) = control(alloc, rest, left)?;
    ended(control, rest)
}

/// The name of a construct, a colon and DO.
#[tactic(auto, using(crate::proofs::Deepened::deep_laws))]
pub fn named_repetition<'a>(
    alloc: Global,
    words: &'a [Word],
    left: u32,
) -> Result<(Part, &'a [Word]), ReadError>
    ensures { Gives (λ r. (view.part r.0, tokens_of r.1.now)) result (forms.form_reader f.named_do_form left (tokens_of words.now)) }
{
    let at = place(words);
    let (construct, rest) = deep_name(words, left)?;
    match named_control(alloc, rest, left - 1) {
        Ok((control, rest)) => Ok((
            Part::Do {
                construct: Some(construct),
                control,
                at,
            },
            rest,
        )),
        Err(e) => {
            drop(construct);
            Err(e)
        }
    }
}
