//! Readers of declared entities (ISO/IEC 1539-1:2018, R803).

ghost use Rattle.std.specs.Prelude.{◌≡◌, true, false, map};
ghost use Rattle.expr_reader.specs.Results.{Gives};
ghost use Rattle.expr_reader.specs.Tests as tests;
ghost use Rattle.expr_reader.specs.Words.{tokens_of};
ghost use Rattle.fortran_tree.specs.DeclarationViews as view;
ghost use Rattle.fortran_tree.specs.Statements as tree;
ghost use Rattle.statement_reader.specs.Declarations as spec;
ghost use Rattle.declaration_reader.specs.Pieces as pieces;
ghost use Rattle.declaration_reader.specs.Views as views;

use crate::cobound::maybe_coshape;
use crate::dimension::maybe_dimensions;
use action_reader::reads::{Reads, list};
use action_reader::specifier::expression_behind;
use expr_reader::error::ReadError;
use expr_reader::one::{begins_with, name};
use expr_reader::word::Word;
use fortran_tokens::token::Sign;
use fortran_tree::declaration::{Coshape, Dimension, Entity};
use fortran_tree::expr::Expr;
use fortran_tree::name::Name;
use std::alloc::Global;

/// Dimensions and a coarray specification, each where its brackets stand.
#[tactic(auto, using(crate::proofs::Declared::declared_laws))]
fn shape<'a>(
    alloc: Global,
    words: &'a [Word],
    left: u32,
) -> Result<((Vec<Dimension>, Option<Coshape>), &'a [Word]), ReadError>
    ensures { Gives (λ r. (views.shape_of r.0, tokens_of r.1.now)) result (pieces.shape left (tokens_of words.now)) }
{
    let (dimensions, rest) = maybe_dimensions(alloc, words, left)?;
    match maybe_coshape(alloc, rest, left) {
        Ok((coshape, rest)) => Ok(((dimensions, coshape), rest)),
        Err(e) => {
            drop(dimensions);
            Err(e)
        }
    }
}

/// A name and its shape.
#[tactic(auto, using(crate::proofs::Declared::declared_laws))]
fn shaped<'a>(
    alloc: Global,
    words: &'a [Word],
    left: u32,
) -> Result<((Name, (Vec<Dimension>, Option<Coshape>)), &'a [Word]), ReadError>
    ensures { Gives (λ r. ((r.0.0, views.shape_of r.0.1), tokens_of r.1.now)) result (spec.a_shaped left (tokens_of words.now)) }
{
    let (name, rest) = name(words)?;
    match shape(alloc, rest, left) {
        Ok((shape, rest)) => Ok(((name, shape), rest)),
        Err(e) => {
            drop(name);
            Err(e)
        }
    }
}

/// An initial value, where `=` stands.
#[tactic(auto, using(crate::proofs::Declared::declared_laws))]
fn maybe_initial<'a>(
    alloc: Global,
    words: &'a [Word],
    left: u32,
) -> Result<(Option<Expr>, &'a [Word]), ReadError>
    ensures { Gives (λ r. (view.maybe_expression r.0, tokens_of r.1.now)) result (spec.initial_part left (tokens_of words.now)) }
{
    if !begins_with(words, Sign::Assign) {
        return Ok((None, words));
    }
    let (value, rest) = expression_behind(alloc, Sign::Assign, words, left)?;
    Ok((Some(value), rest))
}

/// An entity where no `::` stands before it: without an initial value.
struct PlainEntity;

impl Reads for PlainEntity {
    type Tree = Entity;

    ghost Seen = { tree.Entity };

    ghost look = { view.entity };

    ghost reader = { spec.an_entity false };

    #[tactic(auto, using(crate::proofs::Declared::declared_laws))]
    fn read<'a>(
        alloc: Global,
        words: &'a [Word],
        left: u32,
    ) -> Result<(Entity, &'a [Word]), ReadError> {
        let ((name, (dimensions, coshape)), rest) = shaped(alloc, words, left)?;
        Ok((
            Entity {
                name,
                dimensions,
                coshape,
                initial: None,
            },
            rest,
        ))
    }
}

/// An entity behind `::`: with an initial value, where one is written.
struct InitialEntity;

impl Reads for InitialEntity {
    type Tree = Entity;

    ghost Seen = { tree.Entity };

    ghost look = { view.entity };

    ghost reader = { spec.an_entity true };

    #[tactic(auto, using(crate::proofs::Declared::declared_laws))]
    fn read<'a>(
        alloc: Global,
        words: &'a [Word],
        left: u32,
    ) -> Result<(Entity, &'a [Word]), ReadError> {
        let (shaped, rest) = shaped(alloc, words, left)?;
        match maybe_initial(alloc, rest, left) {
            Ok((initial, rest)) => {
                let (name, (dimensions, coshape)) = shaped;
                Ok((
                    Entity {
                        name,
                        dimensions,
                        coshape,
                        initial,
                    },
                    rest,
                ))
            }
            Err(e) => {
                drop(shaped);
                Err(e)
            }
        }
    }
}

/// Entities with commas between them, behind `::` or without it.
#[tactic(auto, using(crate::proofs::Declared::declared_laws))]
pub(crate) fn entities<'a>(
    alloc: Global,
    colons: bool,
    words: &'a [Word],
    left: u32,
) -> Result<(Vec<Entity>, &'a [Word]), ReadError>
    ensures { Gives (λ r. (map view.entity r.0.items, tokens_of r.1.now)) result (tests.list_of (spec.an_entity colons left) (tokens_of words.now)) }
{
    if colons {
        list::<InitialEntity>(alloc, words, left)
    } else {
        list::<PlainEntity>(alloc, words, left)
    }
}
