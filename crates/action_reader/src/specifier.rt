//! Readers of specifiers, which are `NAME = value`, and of expressions in brackets.

ghost use Rattle.action_reader.specs.Views.{assigned_of, team_of};
ghost use Rattle.expr_reader.specs.Results.{Gives};
ghost use Rattle.expr_reader.specs.Tests as tests;
ghost use Rattle.expr_reader.specs.Words.{tokens_of};
ghost use Rattle.fortran_tree.specs.ActionViews as forms;
ghost use Rattle.fortran_tree.specs.DeclarationViews as maybe;
ghost use Rattle.fortran_tree.specs.ExpressionViews as view;
ghost use Rattle.fortran_tree.specs.Expressions as tree;
ghost use Rattle.reader_theory.specs.Readers.{behind};
ghost use Rattle.statement_reader.specs.Actions as actions;
ghost use Rattle.statement_reader.specs.Families.{an_expression};

use crate::key::{begins_expression, begins_with_name};
use crate::reads::{Reads, further, in_round, list};
use expr_reader::error::ReadError;
use expr_reader::expr::expression;
use expr_reader::one::{begins_with, keyword, sign};
use expr_reader::word::Word;
use fortran_tokens::token::Sign;
use fortran_tree::expr::{Expr, Specifier};
use std::alloc::Global;

/// An expression (R1022).
pub struct AnExpression;

impl Reads for AnExpression {
    type Tree = Expr;

    ghost Seen = { tree.Expression };

    ghost look = { view.expression };

    ghost reader = { an_expression };

    fn read<'a>(
        alloc: Global,
        words: &'a [Word],
        left: u32,
    ) -> Result<(Expr, &'a [Word]), ReadError> {
        expression(alloc, words, left)
    }
}

/// This sign and an expression.
#[tactic(auto, using(crate::proofs::Specifiers::specifier_laws))]
pub fn expression_behind<'a>(
    alloc: Global,
    before: Sign,
    words: &'a [Word],
    left: u32,
) -> Result<(Expr, &'a [Word]), ReadError>
    ensures { Gives (λ r. (view.expression r.0, tokens_of r.1.now)) result (behind (tests.is_sign before) (an_expression left) (tokens_of words.now)) }
{
    let (_, rest) = sign(words, before)?;
    expression(alloc, rest, left)
}

/// An expression, where one begins.
#[tactic(auto, using(crate::proofs::Specifiers::specifier_laws))]
pub fn maybe_expression<'a>(
    alloc: Global,
    words: &'a [Word],
    left: u32,
) -> Result<(Option<Expr>, &'a [Word]), ReadError>
    ensures { Gives (λ r. (maybe.maybe_expression r.0, tokens_of r.1.now)) result (actions.maybe_expression left (tokens_of words.now)) }
{
    if !begins_expression(words) {
        return Ok((None, words));
    }
    let (value, rest) = expression(alloc, words, left)?;
    Ok((Some(value), rest))
}

/// A specifier.
pub struct ASpecifier;

impl Reads for ASpecifier {
    type Tree = Specifier;

    ghost Seen = { actions.Assigned };

    ghost look = { assigned_of };

    ghost reader = { actions.a_specifier };

    #[tactic(auto, using(crate::proofs::Specifiers::specifier_laws))]
    fn read<'a>(
        alloc: Global,
        words: &'a [Word],
        left: u32,
    ) -> Result<(Specifier, &'a [Word]), ReadError> {
        let (name, rest) = keyword(words)?;
        match expression(alloc, rest, left) {
            Ok((value, rest)) => Ok((Specifier { name, value }, rest)),
            Err(e) => {
                drop(name);
                Err(e)
            }
        }
    }
}

/// Further specifiers, each behind a comma.
#[tactic(auto, using(crate::proofs::Specifiers::specifier_laws))]
pub fn further_specifiers<'a>(
    alloc: Global,
    words: &'a [Word],
    left: u32,
) -> Result<(Vec<Specifier>, &'a [Word]), ReadError>
    ensures { Gives (λ r. (view.specifiers r.0.items, tokens_of r.1.now)) result (actions.further_specifiers left (tokens_of words.now)) }
{
    further::<ASpecifier>(alloc, words, left)
}

/// Specifiers with commas between them, or none.
pub struct AnySpecifiers;

impl Reads for AnySpecifiers {
    type Tree = Vec<Specifier>;

    ghost Seen = { tree.Specifiers };

    ghost look = { λ ps. view.specifiers ps.items };

    ghost reader = { actions.any_specifiers };

    #[tactic(auto, using(crate::proofs::Specifiers::specifier_laws))]
    fn read<'a>(
        alloc: Global,
        words: &'a [Word],
        left: u32,
    ) -> Result<(Vec<Specifier>, &'a [Word]), ReadError> {
        if !begins_with_name(words) {
            return Ok((Vec::new(alloc), words));
        }
        list::<ASpecifier>(alloc, words, left)
    }
}

/// Specifiers in brackets, where there are any.
#[tactic(auto, using(crate::proofs::Specifiers::specifier_laws))]
pub fn maybe_specifiers<'a>(
    alloc: Global,
    words: &'a [Word],
    left: u32,
) -> Result<(Option<Vec<Specifier>>, &'a [Word]), ReadError>
    ensures { Gives (λ r. (forms.maybe_specifiers r.0, tokens_of r.1.now)) result (actions.maybe_specifiers left (tokens_of words.now)) }
{
    if !begins_with(words, Sign::OpenRound) {
        return Ok((None, words));
    }
    let (specifiers, rest) = in_round::<AnySpecifiers>(alloc, words, left)?;
    Ok((Some(specifiers), rest))
}

/// A team and specifiers behind it.
pub struct ATeam;

impl Reads for ATeam {
    type Tree = (Expr, Vec<Specifier>);

    ghost Seen = { tree.Expression × tree.Specifiers };

    ghost look = { team_of };

    ghost reader = { actions.a_team };

    #[tactic(auto, using(crate::proofs::Specifiers::specifier_laws))]
    fn read<'a>(
        alloc: Global,
        words: &'a [Word],
        left: u32,
    ) -> Result<((Expr, Vec<Specifier>), &'a [Word]), ReadError> {
        let (team, rest) = expression(alloc, words, left)?;
        match further_specifiers(alloc, rest, left) {
            Ok((specifiers, rest)) => Ok(((team, specifiers), rest)),
            Err(e) => {
                drop(team);
                Err(e)
            }
        }
    }
}
