//! Readers of attributes (ISO/IEC 1539-1:2018, 8.5).

ghost use Rattle.std.specs.Prelude.{◌≡◌};
ghost use Rattle.expr_reader.specs.Results.{Gives};
ghost use Rattle.expr_reader.specs.Words.{tokens_of};
ghost use Rattle.fortran_tree.specs.DeclarationViews as view;
ghost use Rattle.fortran_tree.specs.Statements as tree;
ghost use Rattle.fortran_tree.specs.declared.declaration.Intent as seen;
ghost use Rattle.statement_reader.specs.Declarations as spec;
ghost use Rattle.declaration_reader.specs.Pieces as pieces;

use crate::cobound::ACoshape;
use crate::dimension::Dimensions;
use action_reader::key::{begins_with_key, key};
use action_reader::reads::{Reads, in_round, in_square};
use expr_reader::error::ReadError;
use expr_reader::word::Word;
use fortran_tree::declaration::{Attribute, Intent};
use std::alloc::Global;

/// IN, and OUT behind it where it stands.
#[tactic(auto, using(crate::proofs::Declared::declared_laws))]
fn in_intent(words: &[Word]) -> Result<(Intent, &[Word]), ReadError>
    ensures { Gives (λ r. (r.0, tokens_of r.1.now)) result (pieces.in_intent 0 (tokens_of words.now)) }
{
    let rest = key(words, b"in")?;
    if !begins_with_key(rest, b"out") {
        return Ok((Intent::In, rest));
    }
    let rest = key(rest, b"out")?;
    Ok((Intent::InOut, rest))
}

/// An intent (R826).
struct AnIntent;

impl Reads for AnIntent {
    type Tree = Intent;

    ghost Seen = { seen.Intent };

    ghost look = { λ i. i };

    ghost reader = { spec.an_intent };

    #[tactic(auto, using(crate::proofs::Declared::declared_laws))]
    fn read<'a>(_: Global, words: &'a [Word], _: u32) -> Result<(Intent, &'a [Word]), ReadError> {
        if begins_with_key(words, b"inout") {
            let rest = key(words, b"inout")?;
            return Ok((Intent::InOut, rest));
        }
        if begins_with_key(words, b"out") {
            let rest = key(words, b"out")?;
            return Ok((Intent::Out, rest));
        }
        in_intent(words)
    }
}

/// DIMENSION.
#[tactic(auto, using(crate::proofs::Declared::declared_laws))]
fn dimension<'a>(
    alloc: Global,
    words: &'a [Word],
    left: u32,
) -> Result<(Attribute, &'a [Word]), ReadError>
    ensures { Gives (λ r. (view.attribute r.0, tokens_of r.1.now)) result (pieces.dimension_attribute left (tokens_of words.now)) }
{
    let rest = key(words, b"dimension")?;
    let (dimensions, rest) = in_round::<Dimensions>(alloc, rest, left)?;
    Ok((Attribute::Dimension(dimensions), rest))
}

/// CODIMENSION.
#[tactic(auto, using(crate::proofs::Declared::declared_laws))]
fn codimension<'a>(
    alloc: Global,
    words: &'a [Word],
    left: u32,
) -> Result<(Attribute, &'a [Word]), ReadError>
    ensures { Gives (λ r. (view.attribute r.0, tokens_of r.1.now)) result (pieces.codimension_attribute left (tokens_of words.now)) }
{
    let rest = key(words, b"codimension")?;
    let (coshape, rest) = in_square::<ACoshape>(alloc, rest, left)?;
    Ok((Attribute::Codimension(coshape), rest))
}

/// INTENT.
#[tactic(auto, using(crate::proofs::Declared::declared_laws))]
fn intent<'a>(
    alloc: Global,
    words: &'a [Word],
    left: u32,
) -> Result<(Attribute, &'a [Word]), ReadError>
    ensures { Gives (λ r. (view.attribute r.0, tokens_of r.1.now)) result (pieces.intent_attribute left (tokens_of words.now)) }
{
    let rest = key(words, b"intent")?;
    let (intent, rest) = in_round::<AnIntent>(alloc, rest, left)?;
    Ok((Attribute::Intent(intent), rest))
}

/// PARAMETER, ALLOCATABLE or SAVE.
#[tactic(auto, using(crate::proofs::Declared::declared_laws))]
fn keyword(words: &[Word]) -> Result<(Attribute, &[Word]), ReadError>
    ensures { Gives (λ r. (view.attribute r.0, tokens_of r.1.now)) result (pieces.word_attribute 0 (tokens_of words.now)) }
{
    if begins_with_key(words, b"parameter") {
        let rest = key(words, b"parameter")?;
        return Ok((Attribute::Parameter, rest));
    }
    if begins_with_key(words, b"allocatable") {
        let rest = key(words, b"allocatable")?;
        return Ok((Attribute::Allocatable, rest));
    }
    let rest = key(words, b"save")?;
    Ok((Attribute::Save, rest))
}

/// An attribute (R802).
pub(crate) struct AnAttribute;

impl Reads for AnAttribute {
    type Tree = Attribute;

    ghost Seen = { tree.Attribute };

    ghost look = { view.attribute };

    ghost reader = { spec.an_attribute };

    #[tactic(auto, using(crate::proofs::Declared::declared_laws))]
    fn read<'a>(
        alloc: Global,
        words: &'a [Word],
        left: u32,
    ) -> Result<(Attribute, &'a [Word]), ReadError> {
        if begins_with_key(words, b"dimension") {
            return dimension(alloc, words, left);
        }
        if begins_with_key(words, b"codimension") {
            return codimension(alloc, words, left);
        }
        if begins_with_key(words, b"intent") {
            return intent(alloc, words, left);
        }
        keyword(words)
    }
}
