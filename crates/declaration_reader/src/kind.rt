//! Readers of types (ISO/IEC 1539-1:2018, 7.3.2.1).

ghost use Rattle.std.specs.Prelude.{◌≡◌};
ghost use Rattle.expr_reader.specs.Results.{Gives};
ghost use Rattle.expr_reader.specs.Words.{tokens_of};
ghost use Rattle.fortran_tree.specs.DeclarationViews as view;
ghost use Rattle.fortran_tree.specs.ExpressionViews as expressions;
ghost use Rattle.fortran_tree.specs.Expressions as tree;
ghost use Rattle.statement_reader.specs.Declarations as spec;
ghost use Rattle.declaration_reader.specs.Pieces as pieces;

use action_reader::key::{begins_with_key, is_key, key};
use action_reader::names::AName;
use action_reader::reads::{Reads, in_round};
use action_reader::specifier::expression_behind;
use expr_reader::error::ReadError;
use expr_reader::expr::expression;
use expr_reader::one::begins_with;
use expr_reader::token::is_sign;
use expr_reader::word::Word;
use fortran_tokens::token::Sign;
use fortran_tree::declaration::TypeSpec;
use fortran_tree::expr::Expr;
use std::alloc::Global;

/// The words begin with KIND and `=`.
#[tactic(auto, using(crate::proofs::Declared::declared_laws))]
fn begins_kind(words: &[Word]) -> bool
    ensures { result ≡ pieces.begins_kind (tokens_of words.now) }
{
    match words {
        [first, second, ..] => is_key(first, b"kind") && is_sign(second, Sign::Assign),
        _ => false,
    }
}

/// KIND, `=` and an expression.
#[tactic(auto, using(crate::proofs::Declared::declared_laws))]
fn keyed_kind<'a>(
    alloc: Global,
    words: &'a [Word],
    left: u32,
) -> Result<(Expr, &'a [Word]), ReadError>
    ensures { Gives (λ r. (expressions.expression r.0, tokens_of r.1.now)) result (pieces.keyed_kind left (tokens_of words.now)) }
{
    let rest = key(words, b"kind")?;
    expression_behind(alloc, Sign::Assign, rest, left)
}

/// The value of a kind, with KIND before it or without (R706).
struct AKind;

impl Reads for AKind {
    type Tree = Expr;

    ghost Seen = { tree.Expression };

    ghost look = { expressions.expression };

    ghost reader = { spec.kind_value };

    #[tactic(auto, using(crate::proofs::Declared::declared_laws))]
    fn read<'a>(
        alloc: Global,
        words: &'a [Word],
        left: u32,
    ) -> Result<(Expr, &'a [Word]), ReadError> {
        if begins_kind(words) {
            return keyed_kind(alloc, words, left);
        }
        expression(alloc, words, left)
    }
}

/// A kind in brackets, where there are any.
#[tactic(auto, using(crate::proofs::Declared::declared_laws))]
fn maybe_kind<'a>(
    alloc: Global,
    words: &'a [Word],
    left: u32,
) -> Result<(Option<Expr>, &'a [Word]), ReadError>
    ensures { Gives (λ r. (view.maybe_expression r.0, tokens_of r.1.now)) result (spec.a_kind left (tokens_of words.now)) }
{
    if !begins_with(words, Sign::OpenRound) {
        return Ok((None, words));
    }
    let (kind, rest) = in_round::<AKind>(alloc, words, left)?;
    Ok((Some(kind), rest))
}

/// INTEGER.
#[tactic(auto, using(crate::proofs::Declared::declared_laws))]
fn integer<'a>(
    alloc: Global,
    words: &'a [Word],
    left: u32,
) -> Result<(TypeSpec, &'a [Word]), ReadError>
    ensures { Gives (λ r. (view.declaration_type_spec r.0, tokens_of r.1.now)) result (pieces.integer_type left (tokens_of words.now)) }
{
    let rest = key(words, b"integer")?;
    let (kind, rest) = maybe_kind(alloc, rest, left)?;
    Ok((TypeSpec::Integer { kind }, rest))
}

/// LOGICAL.
#[tactic(auto, using(crate::proofs::Declared::declared_laws))]
fn logical<'a>(
    alloc: Global,
    words: &'a [Word],
    left: u32,
) -> Result<(TypeSpec, &'a [Word]), ReadError>
    ensures { Gives (λ r. (view.declaration_type_spec r.0, tokens_of r.1.now)) result (pieces.logical_type left (tokens_of words.now)) }
{
    let rest = key(words, b"logical")?;
    let (kind, rest) = maybe_kind(alloc, rest, left)?;
    Ok((TypeSpec::Logical { kind }, rest))
}

/// TYPE and the name of a derived type.
#[tactic(auto, using(crate::proofs::Declared::declared_laws))]
fn derived<'a>(
    alloc: Global,
    words: &'a [Word],
    left: u32,
) -> Result<(TypeSpec, &'a [Word]), ReadError>
    ensures { Gives (λ r. (view.declaration_type_spec r.0, tokens_of r.1.now)) result (pieces.derived_type left (tokens_of words.now)) }
{
    let rest = key(words, b"type")?;
    let (name, rest) = in_round::<AName>(alloc, rest, left)?;
    Ok((TypeSpec::Derived { name }, rest))
}

/// A type (R703).
#[tactic(auto, using(crate::proofs::Declared::declared_laws))]
pub fn type_spec<'a>(
    alloc: Global,
    words: &'a [Word],
    left: u32,
) -> Result<(TypeSpec, &'a [Word]), ReadError>
    ensures { Gives (λ r. (view.declaration_type_spec r.0, tokens_of r.1.now)) result (spec.a_type left (tokens_of words.now)) }
{
    if begins_with_key(words, b"integer") {
        return integer(alloc, words, left);
    }
    if begins_with_key(words, b"logical") {
        return logical(alloc, words, left);
    }
    derived(alloc, words, left)
}
