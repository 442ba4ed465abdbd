//! Reader of type declaration statements (ISO/IEC 1539-1:2018, R801).

ghost use Rattle.std.specs.Prelude.{◌≡◌, map};
ghost use Rattle.expr_reader.specs.Results.{Gives};
ghost use Rattle.expr_reader.specs.Words.{tokens_of};
ghost use Rattle.fortran_tree.specs.DeclarationViews as view;
ghost use Rattle.statement_reader.specs.Declarations as spec;
ghost use Rattle.declaration_reader.specs.Views as views;

use crate::attribute::AnAttribute;
use crate::entity::entities;
use crate::kind::type_spec;
use action_reader::key::{ended, place};
use action_reader::reads::further;
use expr_reader::error::ReadError;
use expr_reader::one::{begins_with, sign};
use expr_reader::word::Word;
use fortran_tokens::token::Sign;
use fortran_tree::declaration::{Attribute, Declaration, Entity, TypeSpec};
use std::alloc::Global;

/// A type and attributes.
#[derive(Drop)]
pub(crate) struct TypeWithAttributes {
    pub type_spec: TypeSpec,
    pub attributes: Vec<Attribute>,
}

/// A type, and attributes behind it.
#[tactic(auto, using(crate::proofs::Declared::declared_laws))]
fn declared<'a>(
    alloc: Global,
    words: &'a [Word],
    left: u32,
) -> Result<(TypeWithAttributes, &'a [Word]), ReadError>
    ensures { Gives (λ r. (views.declared_of r.0, tokens_of r.1.now)) result (spec.a_declared left (tokens_of words.now)) }
{
    let (type_spec, rest) = type_spec(alloc, words, left)?;
    match further::<AnAttribute>(alloc, rest, left) {
        Ok((attributes, rest)) => Ok((
            TypeWithAttributes {
                type_spec,
                attributes,
            },
            rest,
        )),
        Err(e) => {
            drop(type_spec);
            Err(e)
        }
    }
}

/// Whether `::` stands, as it must behind attributes.
#[tactic(auto, using(crate::proofs::Declared::declared_laws))]
fn colons<'a>(words: &'a [Word], attributes: &[Attribute]) -> Result<(bool, &'a [Word]), ReadError>
    ensures { Gives (λ r. (r.0, tokens_of r.1.now)) result (spec.a_colons (map view.attribute attributes.now) 0 (tokens_of words.now)) }
{
    if attributes.is_empty() && !begins_with(words, Sign::Colons) {
        return Ok((false, words));
    }
    let (_, rest) = sign(words, Sign::Colons)?;
    Ok((true, rest))
}

/// A type and attributes, and whether `::` stands behind them.
#[tactic(auto, using(crate::proofs::Declared::declared_laws))]
fn declared_by<'a>(
    alloc: Global,
    words: &'a [Word],
    left: u32,
) -> Result<((TypeWithAttributes, bool), &'a [Word]), ReadError>
    ensures { Gives (λ r. ((views.declared_of r.0.0, r.0.1), tokens_of r.1.now)) result (spec.declared_by left (tokens_of words.now)) }
{
    let (declared, rest) = declared(alloc, words, left)?;
    match colons(rest, &declared.attributes) {
        Ok((colons, rest)) => Ok(((declared, colons), rest)),
        Err(e) => {
            drop(declared);
            Err(e)
        }
    }
}

/// A type and attributes, whether `::` stands behind them, and entities.
#[tactic(auto, using(crate::proofs::Declared::declared_laws))]
fn some_entities<'a>(
    alloc: Global,
    words: &'a [Word],
    left: u32,
) -> Result<(((TypeWithAttributes, bool), Vec<Entity>), &'a [Word]), ReadError>
    ensures { Gives (λ r. (((views.declared_of r.0.0.0, r.0.0.1), map view.entity r.0.1.items), tokens_of r.1.now)) result (spec.some_entities left (tokens_of words.now)) }
{
    let ((declared, colons), rest) = declared_by(alloc, words, left)?;
    match entities(alloc, colons, rest, left) {
        Ok((entities, rest)) => Ok((((declared, colons), entities), rest)),
        Err(e) => {
            drop(declared);
            Err(e)
        }
    }
}

/// A type declaration statement, and its end.
#[tactic(auto, using(crate::proofs::Declared::declared_laws))]
pub fn declaration<'a>(
    alloc: Global,
    words: &'a [Word],
    left: u32,
) -> Result<(Declaration, &'a [Word]), ReadError>
    ensures { Gives (λ r. (view.declaration r.0, tokens_of r.1.now)) result (spec.a_declaration left (tokens_of words.now)) }
{
    let at = place(words);
    let (read, rest) = some_entities(alloc, words, left)?;
    let (((declared, _), entities), rest) = ended(read, rest)?;
    let TypeWithAttributes {
        type_spec,
        attributes,
    } = declared;
    Ok((
        Declaration {
            type_spec,
            attributes,
            entities,
            at,
        },
        rest,
    ))
}
