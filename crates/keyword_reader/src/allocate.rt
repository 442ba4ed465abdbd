//! Readers of ALLOCATE and DEALLOCATE (ISO/IEC 1539-1:2018, 9.7.1 and 9.7.3).

ghost use Rattle.std.specs.Prelude.{◌≡◌, codes, List};
ghost use Rattle.expr_reader.specs.Results.{Gives};
ghost use Rattle.expr_reader.specs.Words.{tokens_of};
ghost use Rattle.fortran_tree.specs.ActionViews as forms;
ghost use Rattle.fortran_tree.specs.Expressions as expressions;
ghost use Rattle.fortran_tree.specs.Statements as tree;
ghost use Rattle.fortran_tree.specs.declared.name.Name.{Name};
ghost use Rattle.keyword_reader.specs.Families as families;
ghost use Rattle.keyword_reader.specs.Views as views;
ghost use Rattle.statement_reader.specs.Actions as actions;
ghost use Rattle.statement_reader.specs.Dimensions as dimensions;
ghost use Rattle.statement_reader.specs.Families.{rounded};
ghost use Rattle.statement_reader.specs.Keywords.{after, made};

use crate::cobound::maybe_coshape;
use crate::dimension::maybe_dimensions;
use crate::object::objects;
use action_reader::key::key;
use action_reader::names::AName;
use action_reader::reads::{Reads, in_round};
use expr_reader::error::ReadError;
use expr_reader::one::name;
use expr_reader::word::Word;
use fortran_tree::action::{ActionForm, Allocation};
use fortran_tree::declaration::{Coshape, Dimension};
use fortran_tree::expr::Specifier;
use fortran_tree::name::Name;
use std::alloc::Global;

/// Dimensions in brackets and a coarray specification in brackets, where there are any.
#[tactic(auto, using(crate::proofs::Keyed::keyed_laws))]
fn shape<'a>(
    alloc: Global,
    words: &'a [Word],
    left: u32,
) -> Result<((Vec<Dimension>, Option<Coshape>), &'a [Word]), ReadError>
    ensures { Gives (λ r. (views.shape_of r.0, tokens_of r.1.now)) result (families.shape left (tokens_of words.now)) }
{
    let (bounds, rest) = maybe_dimensions(alloc, words, left)?;
    match maybe_coshape(alloc, rest, left) {
        Ok((cobounds, rest)) => Ok(((bounds, cobounds), rest)),
        Err(e) => {
            drop(bounds);
            Err(e)
        }
    }
}

/// An object of ALLOCATE (R931).
pub struct AnAllocation;

impl Reads for AnAllocation {
    type Tree = Allocation;

    ghost Seen = { tree.Allocation };

    ghost look = { forms.allocation };

    ghost reader = { dimensions.an_allocation };

    #[tactic(auto, using(crate::proofs::Keyed::keyed_laws))]
    fn read<'a>(
        alloc: Global,
        words: &'a [Word],
        left: u32,
    ) -> Result<(Allocation, &'a [Word]), ReadError> {
        let (name, rest) = name(words)?;
        match shape(alloc, rest, left) {
            Ok(((bounds, cobounds), rest)) => Ok((
                Allocation {
                    name,
                    bounds,
                    cobounds,
                },
                rest,
            )),
            Err(e) => {
                drop(name);
                Err(e)
            }
        }
    }
}

/// What stands in the brackets of ALLOCATE.
pub struct Allocations;

impl Reads for Allocations {
    type Tree = (Vec<Allocation>, Vec<Specifier>);

    ghost Seen = { List tree.Allocation × expressions.Specifiers };

    ghost look = { views.allocations_of };

    ghost reader = { families.allocations };

    #[tactic(auto, using(crate::proofs::Keyed::keyed_laws))]
    fn read<'a>(
        alloc: Global,
        words: &'a [Word],
        left: u32,
    ) -> Result<((Vec<Allocation>, Vec<Specifier>), &'a [Word]), ReadError> {
        objects::<AnAllocation>(alloc, words, left)
    }
}

/// What stands in the brackets of DEALLOCATE.
pub struct Deallocations;

impl Reads for Deallocations {
    type Tree = (Vec<Name>, Vec<Specifier>);

    ghost Seen = { List Name × expressions.Specifiers };

    ghost look = { views.deallocations_of };

    ghost reader = { families.deallocations };

    #[tactic(auto, using(crate::proofs::Keyed::keyed_laws))]
    fn read<'a>(
        alloc: Global,
        words: &'a [Word],
        left: u32,
    ) -> Result<((Vec<Name>, Vec<Specifier>), &'a [Word]), ReadError> {
        objects::<AName>(alloc, words, left)
    }
}

/// ALLOCATE (R927).
#[tactic(auto, using(crate::proofs::Keyed::keyed_laws))]
pub(crate) fn allocate<'a>(
    alloc: Global,
    words: &'a [Word],
    left: u32,
) -> Result<(ActionForm, &'a [Word]), ReadError>
    ensures { Gives (λ r. (forms.action_statement r.0, tokens_of r.1.now)) result (after (codes "allocate") (made (actions.of_two tree.allocate) (rounded families.allocations)) left (tokens_of words.now)) }
{
    let rest = key(words, b"allocate")?;
    let ((objects, specifiers), rest) = in_round::<Allocations>(alloc, rest, left)?;
    Ok((
        ActionForm::Allocate {
            objects,
            specifiers,
        },
        rest,
    ))
}

/// DEALLOCATE (R940).
#[tactic(auto, using(crate::proofs::Keyed::keyed_laws))]
pub(crate) fn deallocate<'a>(
    alloc: Global,
    words: &'a [Word],
    left: u32,
) -> Result<(ActionForm, &'a [Word]), ReadError>
    ensures { Gives (λ r. (forms.action_statement r.0, tokens_of r.1.now)) result (after (codes "deallocate") (made (actions.of_two tree.deallocate) (rounded families.deallocations)) left (tokens_of words.now)) }
{
    let rest = key(words, b"deallocate")?;
    let ((objects, specifiers), rest) = in_round::<Deallocations>(alloc, rest, left)?;
    Ok((
        ActionForm::Deallocate {
            objects,
            specifiers,
        },
        rest,
    ))
}
