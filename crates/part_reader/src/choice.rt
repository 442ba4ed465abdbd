//! Readers of CASE (ISO/IEC 1539-1:2018, R1142).

ghost use Rattle.std.specs.Prelude.{◌≡◌, List, map};
ghost use Rattle.expr_reader.specs.Results.{Gives};
ghost use Rattle.expr_reader.specs.Words.{tokens_of};
ghost use Rattle.fortran_tree.specs.DeclarationViews as maybe;
ghost use Rattle.fortran_tree.specs.ExpressionViews as expressions;
ghost use Rattle.fortran_tree.specs.StatementViews as statements;
ghost use Rattle.fortran_tree.specs.Statements as tree;
ghost use Rattle.statement_reader.specs.Forms as forms;
ghost use Rattle.statement_reader.specs.Lines as lines;
ghost use Rattle.statement_reader.specs.Parts as f;
ghost use Rattle.part_reader.specs.Levels as levels;
ghost use Rattle.part_reader.specs.Views as view;

use crate::part::Part;
use action_reader::key::{begins_with_key, ended, key, place};
use action_reader::reads::{Reads, in_round, list};
use action_reader::specifier::maybe_expression;
use expr_reader::error::ReadError;
use expr_reader::expr::expression;
use expr_reader::one::{begins_with, sign};
use expr_reader::word::Word;
use fortran_tokens::token::Sign;
use fortran_tree::expr::Expr;
use fortran_tree::statement::{CaseRange, CaseSelector};
use std::alloc::Global;

/// A colon and an upper bound.
#[tactic(auto, using(crate::proofs::Deepened::deep_laws))]
fn at_most<'a>(
    alloc: Global,
    words: &'a [Word],
    left: u32,
) -> Result<(CaseRange, &'a [Word]), ReadError>
    ensures { Gives (λ r. (statements.case_range r.0, tokens_of r.1.now)) result (levels.at_most left (tokens_of words.now)) }
{
    let at = place(words);
    let (_, rest) = sign(words, Sign::Colon)?;
    let (upper, rest) = expression(alloc, rest, left)?;
    Ok((CaseRange::AtMost { upper, at }, rest))
}

/// A colon, and an upper bound where one is written.
#[tactic(auto, using(crate::proofs::Deepened::deep_laws))]
fn upper<'a>(
    alloc: Global,
    words: &'a [Word],
    left: u32,
) -> Result<(Option<Expr>, &'a [Word]), ReadError>
    ensures { Gives (λ r. (maybe.maybe_expression r.0, tokens_of r.1.now)) result (lines.colon_bound left (tokens_of words.now)) }
{
    let (_, rest) = sign(words, Sign::Colon)?;
    maybe_expression(alloc, rest, left)
}

/// A range of values from this one on, up to another one where there is one.
fn behind(value: Expr, upper: Option<Expr>) -> CaseRange
    ensures { statements.case_range result ≡ lines.range_of (expressions.expression value, Some (maybe.maybe_expression upper)) }
{
    match upper {
        None => CaseRange::AtLeast(value),
        Some(upper) => CaseRange::Between(value, upper),
    }
}

/// A range of values (R1146).
pub struct ACaseRange;

impl Reads for ACaseRange {
    type Tree = CaseRange;

    ghost Seen = { tree.CaseRange };

    ghost look = { statements.case_range };

    ghost reader = { lines.a_case_range };

    #[tactic(auto, using(crate::proofs::Deepened::deep_laws))]
    fn read<'a>(
        alloc: Global,
        words: &'a [Word],
        left: u32,
    ) -> Result<(CaseRange, &'a [Word]), ReadError> {
        if begins_with(words, Sign::Colon) {
            return at_most(alloc, words, left);
        }
        let (value, rest) = expression(alloc, words, left)?;
        if !begins_with(rest, Sign::Colon) {
            return Ok((CaseRange::Value(value), rest));
        }
        match upper(alloc, rest, left) {
            Ok((upper, rest)) => Ok((behind(value, upper), rest)),
            Err(e) => {
                drop(value);
                Err(e)
            }
        }
    }
}

/// Ranges of values with commas between them.
pub struct CaseRanges;

impl Reads for CaseRanges {
    type Tree = Vec<CaseRange>;

    ghost Seen = { List tree.CaseRange };

    ghost look = { λ rs. map statements.case_range rs.items };

    ghost reader = { levels.case_ranges };

    #[tactic(auto, using(crate::proofs::Deepened::deep_laws))]
    fn read<'a>(
        alloc: Global,
        words: &'a [Word],
        left: u32,
    ) -> Result<(Vec<CaseRange>, &'a [Word]), ReadError> {
        list::<ACaseRange>(alloc, words, left)
    }
}

/// DEFAULT, or ranges of values in brackets (R1145).
#[tactic(auto, using(crate::proofs::Deepened::deep_laws))]
fn selector<'a>(
    alloc: Global,
    words: &'a [Word],
    left: u32,
) -> Result<(CaseSelector, &'a [Word]), ReadError>
    ensures { Gives (λ r. (statements.case_selector r.0, tokens_of r.1.now)) result (lines.a_case_selector left (tokens_of words.now)) }
{
    if begins_with_key(words, b"default") {
        let rest = key(words, b"default")?;
        return Ok((CaseSelector::Default, rest));
    }
    let (ranges, rest) = in_round::<CaseRanges>(alloc, words, left)?;
    Ok((CaseSelector::Ranges(ranges), rest))
}

/// CASE and its selector.
#[tactic(auto, using(crate::proofs::Deepened::deep_laws))]
pub fn case<'a>(
    alloc: Global,
    words: &'a [Word],
    left: u32,
) -> Result<(Part, &'a [Word]), ReadError>
    ensures { Gives (λ r. (view.part r.0, tokens_of r.1.now)) result (forms.form_reader f.case_form left (tokens_of words.now)) }
{
    let at = place(words);
    let rest = key(words, b"case")?;
    let (selector, rest) = selector(alloc, rest, left)?;
    let (selector, rest) = ended(selector, rest)?;
    Ok((Part::Case { selector, at }, rest))
}
