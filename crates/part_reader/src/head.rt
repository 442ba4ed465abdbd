//! Readers of statements that begin and divide constructs (ISO/IEC 1539-1:2018, 11.1).

ghost use Rattle.std.specs.Prelude.{◌≡◌, ◌≤◌, length, IfOk};
ghost use Rattle.action_reader.specs.Beginnings.{begins};
ghost use Rattle.expr_reader.specs.Results.{Gives};
ghost use Rattle.expr_reader.specs.Tests as tests;
ghost use Rattle.expr_reader.specs.Words.{tokens_of};
ghost use Rattle.fortran_tree.specs.ExpressionViews as expressions;
ghost use Rattle.statement_reader.specs.Forms as forms;
ghost use Rattle.statement_reader.specs.Heads as heads;
ghost use Rattle.statement_reader.specs.Parts as f;
ghost use Rattle.part_reader.specs.Levels as levels;
ghost use Rattle.part_reader.specs.Views as view;

use crate::part::Part;
use action_reader::key::{begins_with_key, end, ended, is_key, joined, joined_at, key, place};
use action_reader::reads::in_round;
use action_reader::specifier::AnExpression;
use expr_reader::error::{ReadError, expected, too_deep};
use expr_reader::word::Word;
use fortran_tree::expr::Expr;
use std::alloc::Global;

/// A keyword from which on one level more is open.
#[tactic(auto, using(crate::proofs::Deepened::deep_laws))]
pub(crate) fn deep_key<'a>(
    words: &'a [Word],
    keyword: &[u8],
    left: u32,
) -> Result<&'a [Word], ReadError>
    ensures reads { Gives (λ r. (tt, tokens_of r.now)) result (levels.deep_one (tests.is_key keyword.now) left (tokens_of words.now)) }
    ensures some { IfOk result (λ r. 1 ≤ left) }
{
    if left == 0 {
        return Err(no_level(words, begins_with_key(words, keyword)));
    }
    key(words, keyword)
}

/// Where no level is left: why what may begin here, or may not, can't be read.
pub(crate) fn no_level(words: &[Word], begins: bool) -> ReadError
    ensures { result ≡ levels.no_level begins (length words.now) }
{
    if begins {
        too_deep(words.len())
    } else {
        expected(words.len())
    }
}

/// The words begin with SELECT, or SELECT CASE as one word.
#[tactic(auto, using(crate::proofs::Deepened::deep_laws))]
fn begins_select(words: &[Word]) -> bool
    ensures { result ≡ begins levels.select_key (tokens_of words.now) }
{
    match words.split_first() {
        Some((first, _)) => is_key(first, b"selectcase") || is_key(first, b"select"),
        None => false,
    }
}

/// A condition and THEN, and the end of the statement.
#[tactic(auto, using(crate::proofs::Deepened::deep_laws))]
fn condition_then<'a>(
    alloc: Global,
    words: &'a [Word],
    left: u32,
) -> Result<(Expr, &'a [Word]), ReadError>
    ensures { Gives (λ r. (expressions.expression r.0, tokens_of r.1.now)) result (heads.with heads.a_condition heads.then_end left (tokens_of words.now)) }
{
    let (condition, rest) = in_round::<AnExpression>(alloc, words, left)?;
    match then_end(rest) {
        Ok(rest) => Ok((condition, rest)),
        Err(e) => {
            drop(condition);
            Err(e)
        }
    }
}

/// THEN and the end of the statement.
#[tactic(auto, using(crate::proofs::Deepened::deep_laws))]
fn then_end(words: &[Word]) -> Result<&[Word], ReadError>
    ensures { Gives (λ r. (tt, tokens_of r.now)) result (heads.then_end 0 (tokens_of words.now)) }
{
    let rest = key(words, b"then")?;
    end(rest)
}

/// IF and the condition of a one-line IF (R1139).
#[tactic(auto, using(crate::proofs::Deepened::deep_laws))]
pub fn condition<'a>(
    alloc: Global,
    words: &'a [Word],
    left: u32,
) -> Result<(Part, &'a [Word]), ReadError>
    ensures { Gives (λ r. (view.part r.0, tokens_of r.1.now)) result (forms.form_reader f.condition_form left (tokens_of words.now)) }
{
    let at = place(words);
    let rest = deep_key(words, b"if", left)?;
    let (condition, rest) = in_round::<AnExpression>(alloc, rest, left - 1)?;
    Ok((Part::Condition { condition, at }, rest))
}

/// IF, a condition and THEN (R1135).
#[tactic(auto, using(crate::proofs::Deepened::deep_laws))]
pub fn if_then<'a>(
    alloc: Global,
    words: &'a [Word],
    left: u32,
) -> Result<(Part, &'a [Word]), ReadError>
    ensures { Gives (λ r. (view.part r.0, tokens_of r.1.now)) result (forms.form_reader f.if_form left (tokens_of words.now)) }
{
    let at = place(words);
    let rest = deep_key(words, b"if", left)?;
    let (condition, rest) = condition_then(alloc, rest, left - 1)?;
    Ok((Part::IfThen { condition, at }, rest))
}

/// ELSE IF, a condition and THEN (R1136).
#[tactic(auto, using(crate::proofs::Deepened::deep_laws))]
pub fn else_if<'a>(
    alloc: Global,
    words: &'a [Word],
    left: u32,
) -> Result<(Part, &'a [Word]), ReadError>
    ensures { Gives (λ r. (view.part r.0, tokens_of r.1.now)) result (forms.form_reader f.else_if_form left (tokens_of words.now)) }
{
    let (at, rest) = joined_at(words, b"elseif", b"else", b"if")?;
    let (condition, rest) = condition_then(alloc, rest, left)?;
    Ok((Part::ElseIf { condition, at }, rest))
}

/// SELECT CASE from which on one level more is open.
#[tactic(auto, using(crate::proofs::Deepened::deep_laws))]
fn deep_select(words: &[Word], left: u32) -> Result<&[Word], ReadError>
    ensures reads { Gives (λ r. (tt, tokens_of r.now)) result (levels.deep_select left (tokens_of words.now)) }
    ensures some { IfOk result (λ r. 1 ≤ left) }
{
    if left == 0 {
        return Err(no_level(words, begins_select(words)));
    }
    joined(words, b"selectcase", b"select", b"case")
}

/// SELECT CASE and its expression (R1141).
#[tactic(auto, using(crate::proofs::Deepened::deep_laws))]
pub fn select_case<'a>(
    alloc: Global,
    words: &'a [Word],
    left: u32,
) -> Result<(Part, &'a [Word]), ReadError>
    ensures { Gives (λ r. (view.part r.0, tokens_of r.1.now)) result (forms.form_reader f.select_form left (tokens_of words.now)) }
{
    let at = place(words);
    let rest = deep_select(words, left)?;
    let (expression, rest) = in_round::<AnExpression>(alloc, rest, left - 1)?;
    let (expression, rest) = ended(expression, rest)?;
    Ok((Part::SelectCase { expression, at }, rest))
}
