//! Readers of PRINT, and of WRITE to the asterisk unit (ISO/IEC 1539-1:2018, 12.6).

ghost use Rattle.std.specs.Prelude.{◌≡◌, codes, map};
ghost use Rattle.action_reader.specs.Beginnings.{begins};
ghost use Rattle.expr_reader.specs.Results.{Gives};
ghost use Rattle.expr_reader.specs.Words.{token_of, tokens_of};
ghost use Rattle.fortran_tree.specs.ActionViews as forms;
ghost use Rattle.fortran_tree.specs.Statements as tree;
ghost use Rattle.keyword_reader.specs.Families as families;
ghost use Rattle.statement_reader.specs.Actions as actions;
ghost use Rattle.statement_reader.specs.Keywords.{after, made};
ghost use Rattle.statement_reader.specs.Statements as statements;

use action_reader::key::key;
use action_reader::reads::{Reads, further, in_round, list};
use expr_reader::error::{ReadError, expected};
use expr_reader::expr::expression;
use expr_reader::one::{begins_with, sign};
use expr_reader::token::opens;
use expr_reader::word::{Word, WordKind};
use fortran_tokens::token::Sign;
use fortran_tree::action::{ActionForm, Format, Item};
use fortran_tree::name::Literal;
use std::alloc::Global;

/// The token is a character literal.
fn is_literal(word: &Word) -> bool
    ensures { result ≡ statements.is_literal (token_of word.now) }
{
    matches!(word.kind, WordKind::Literal(_))
}

/// The words begin with a character literal.
#[tactic(auto, using(crate::proofs::Keyed::keyed_laws))]
fn begins_with_literal(words: &[Word]) -> bool
    ensures { result ≡ begins statements.is_literal (tokens_of words.now) }
{
    match words.split_first() {
        Some((first, _)) => is_literal(first),
        None => false,
    }
}

/// The words begin with what may begin an item.
#[tactic(auto, using(crate::proofs::Keyed::keyed_laws))]
fn begins_with_item(words: &[Word]) -> bool
    ensures { result ≡ begins actions.begins_item (tokens_of words.now) }
{
    match words.split_first() {
        Some((first, _)) => is_literal(first) || opens(1, first),
        None => false,
    }
}

/// A character literal (R724).
#[tactic(auto, using(crate::proofs::Keyed::keyed_laws))]
fn literal(words: &[Word]) -> Result<(Literal, &[Word]), ReadError>
    ensures { Gives (λ r. (r.0, tokens_of r.1.now)) result (statements.a_literal (tokens_of words.now)) }
{
    let Some((first, rest)) = words.split_first() else {
        return Err(expected(0));
    };
    let WordKind::Literal(text) = &first.kind else {
        return Err(expected(words.len()));
    };
    let literal = Literal {
        text: text.copy()?,
        at: first.at,
    };
    Ok((literal, rest))
}

/// A format (R1215): an asterisk or a character literal.
#[tactic(auto, using(crate::proofs::Keyed::keyed_laws))]
fn format(words: &[Word]) -> Result<(Format, &[Word]), ReadError>
    ensures { Gives (λ r. (forms.format r.0, tokens_of r.1.now)) result (statements.format_reader (tokens_of words.now)) }
{
    if begins_with(words, Sign::Star) {
        let (_, rest) = sign(words, Sign::Star)?;
        return Ok((Format::Free, rest));
    }
    let (literal, rest) = literal(words)?;
    Ok((Format::Written(literal), rest))
}

/// What stands in the brackets of WRITE: the asterisk unit and a format (R1213).
pub struct UnitAndFormat;

impl Reads for UnitAndFormat {
    type Tree = Format;

    ghost Seen = { tree.Format };

    ghost look = { forms.format };

    ghost reader = { actions.written_format };

    #[tactic(auto, using(crate::proofs::Keyed::keyed_laws))]
    fn read<'a>(_: Global, words: &'a [Word], _: u32) -> Result<(Format, &'a [Word]), ReadError> {
        let (_, behind) = sign(words, Sign::Star)?;
        let (_, rest) = sign(behind, Sign::Comma)?;
        format(rest)
    }
}

/// An output item (R1217).
pub struct AnItem;

impl Reads for AnItem {
    type Tree = Item;

    ghost Seen = { tree.Item };

    ghost look = { forms.item };

    ghost reader = { families.an_item };

    #[tactic(auto, using(crate::proofs::Keyed::keyed_laws))]
    fn read<'a>(
        alloc: Global,
        words: &'a [Word],
        left: u32,
    ) -> Result<(Item, &'a [Word]), ReadError> {
        if begins_with_literal(words) {
            let (literal, rest) = literal(words)?;
            return Ok((Item::Literal(literal), rest));
        }
        let (value, rest) = expression(alloc, words, left)?;
        Ok((Item::Value(value), rest))
    }
}

/// PRINT (R1212).
#[tactic(auto, using(crate::proofs::Keyed::keyed_laws))]
pub(crate) fn print<'a>(
    alloc: Global,
    words: &'a [Word],
    left: u32,
) -> Result<(ActionForm, &'a [Word]), ReadError>
    ensures { Gives (λ r. (forms.action_statement r.0, tokens_of r.1.now)) result (after (codes "print") (made (actions.of_two tree.print) actions.a_print) left (tokens_of words.now)) }
{
    let rest = key(words, b"print")?;
    let (format, rest) = format(rest)?;
    match further::<AnItem>(alloc, rest, left) {
        Ok((items, rest)) => Ok((ActionForm::Print { format, items }, rest)),
        Err(e) => {
            drop(format);
            Err(e)
        }
    }
}

/// Items with commas between them, or none.
#[tactic(auto, using(crate::proofs::Keyed::keyed_laws))]
fn maybe_items<'a>(
    alloc: Global,
    words: &'a [Word],
    left: u32,
) -> Result<(Vec<Item>, &'a [Word]), ReadError>
    ensures { Gives (λ r. (map forms.item r.0.items, tokens_of r.1.now)) result (families.maybe_items left (tokens_of words.now)) }
{
    if !begins_with_item(words) {
        return Ok((Vec::new(alloc), words));
    }
    list::<AnItem>(alloc, words, left)
}

/// WRITE to the asterisk unit (R1211).
#[tactic(auto, using(crate::proofs::Keyed::keyed_laws))]
pub(crate) fn write<'a>(
    alloc: Global,
    words: &'a [Word],
    left: u32,
) -> Result<(ActionForm, &'a [Word]), ReadError>
    ensures { Gives (λ r. (forms.action_statement r.0, tokens_of r.1.now)) result (after (codes "write") (made (actions.of_two tree.print) actions.a_write) left (tokens_of words.now)) }
{
    let rest = key(words, b"write")?;
    let (format, rest) = in_round::<UnitAndFormat>(alloc, rest, left)?;
    match maybe_items(alloc, rest, left) {
        Ok((items, rest)) => Ok((ActionForm::Print { format, items }, rest)),
        Err(e) => {
            drop(format);
            Err(e)
        }
    }
}
