//! The rules on an entity as a whole, told at its name.

ghost use Rattle.std.specs.Prelude.{◌≡◌, map};
ghost use Rattle.fortran_tree.specs.DeclarationViews.{dimension, entity as entity_seen};
ghost use Rattle.rule_definitions.specs.Judgements.{first_of};
ghost use Rattle.rule_definitions.specs.Declarations.{rank_breaks, corank_of, all_deferred, any_deferred, is_shaped, deferred_breaks, is_placed_type, special_type_breaks, procedure_variable_breaks, intent_breaks, parameter_breaks, whole_breaks};
ghost use Rattle.declaration_rules.specs.Entities.{attributes, unit, lent_coshape};

use crate::attribute::{Attributes, DeclaringUnit};
use caf_base::place::Pos;
use checked_tree::data::DataType;
use fortran_tree::declaration::{Coshape, Dimension, Entity};
use fortran_tree::name::Name;
use rule_definitions::broken::Broken;
use rule_definitions::rule;
use scope_table::broken::note;

/// How many codimensions there are.
pub fn corank(coshape: Option<&Coshape>) -> usize
    ensures { result ≡ corank_of (lent_coshape coshape.entry) }
{
    match coshape {
        None => 0,
        Some(Coshape::Deferred { corank }) => *corank as usize,
        Some(Coshape::Explicit { cobounds, .. }) => cobounds.len() + 1,
    }
}

// Whether each dimension is a colon.
fn are_all_deferred(dimensions: &[Dimension]) -> bool
    ensures { result ≡ all_deferred (map dimension dimensions.now) }
{
    for next in dimensions {
        if let Dimension::Explicit(_) = next {
            return false;
        }
    }
    true
}

// Whether a dimension is a colon.
fn is_any_deferred(dimensions: &[Dimension]) -> bool
    ensures { result ≡ any_deferred (map dimension dimensions.now) }
{
    for next in dimensions {
        if let Dimension::Deferred { .. } = next {
            return true;
        }
    }
    false
}

// Whether shape and coshape are those of an allocatable, or of none.
fn has_shape(allocates: bool, dimensions: &[Dimension], coshape: Option<&Coshape>) -> bool
    ensures { result ≡ is_shaped allocates (map dimension dimensions.now) (lent_coshape coshape.entry) }
{
    if allocates {
        return match coshape {
            None => !dimensions.is_empty() && are_all_deferred(dimensions),
            Some(Coshape::Deferred { .. }) => are_all_deferred(dimensions),
            Some(Coshape::Explicit { .. }) => false,
        };
    }
    match coshape {
        Some(Coshape::Deferred { .. }) => false,
        None | Some(Coshape::Explicit { .. }) => !is_any_deferred(dimensions),
    }
}

/// Events and locks are coarrays; a team is a scalar without a coshape.
fn is_placed(rank: usize, corank: usize, of_type: DataType) -> bool
    ensures { result ≡ is_placed_type rank corank of_type }
{
    match of_type {
        DataType::Event | DataType::Lock => corank != 0,
        DataType::Team => rank == 0 && corank == 0,
        DataType::Intrinsic(_) => true,
    }
}

/// Rule 27 (ISO/IEC 1539-1:2018, 16.10.2.10, 16.10.2.19, 16.10.2.32)
pub fn judge_special_type(
    first: &mut Option<Broken>,
    of_type: Option<DataType>,
    rank: usize,
    corank: usize,
    at: Pos,
)
    ensures { first.new ≡ first_of first.old (special_type_breaks of_type rank corank at) }
{
    if let Some(of_type) = of_type {
        if !is_placed(rank, corank, of_type) {
            note(first, rule::SPECIAL_TYPE, at);
        }
    }
}

/// Rule 24 (8.5.8.1)
fn judge_rank(first: &mut Option<Broken>, rank: usize, corank: usize, at: Pos)
    ensures { first.new ≡ first_of first.old (rank_breaks rank corank at) }
{
    if rank > 3 || corank > 3 {
        note(first, rule::RANK, at);
    }
}

/// Rule 26 (8.5.3, 8.5.8.4, 8.5.6.2)
fn judge_deferred(
    first: &mut Option<Broken>,
    allocates: bool,
    dimensions: &[Dimension],
    coshape: Option<&Coshape>,
    at: Pos,
)
    ensures { first.new ≡ first_of first.old (deferred_breaks allocates (map dimension dimensions.now) (lent_coshape coshape.entry) at) }
{
    if !has_shape(allocates, dimensions, coshape) {
        note(first, rule::DEFERRED_SHAPE, at);
    }
}

/// Rule 28 (8.5.3, 8.5.6.1, 8.5.16)
fn judge_procedure_variable(
    first: &mut Option<Broken>,
    of: &DeclaringUnit<'_>,
    all: Attributes<'_>,
    corank: usize,
    at: Pos,
)
    ensures { first.new ≡ first_of first.old (procedure_variable_breaks (unit of.now) (attributes all.entry) corank at) }
{
    if of.is_procedure && (all.is_allocatable || all.is_saved || corank != 0) {
        note(first, rule::IN_PROCEDURE, at);
    }
}

/// Rule 29 (8.5.10)
fn judge_intent(
    first: &mut Option<Broken>,
    of: &DeclaringUnit<'_>,
    all: Attributes<'_>,
    name: &Name,
)
    ensures { first.new ≡ first_of first.old (intent_breaks (unit of.now) (attributes all.entry) name.now) }
{
    if all.intent.is_some() && !of.dummies.contains(name.text.as_slice()) {
        note(first, rule::INTENT, name.at);
    }
}

/// All rules on an entity as a whole.
pub fn judge_whole(
    first: &mut Option<Broken>,
    of: &DeclaringUnit<'_>,
    all: Attributes<'_>,
    of_type: Option<DataType>,
    entity: &Entity,
    dimensions: &[Dimension],
    coshape: Option<&Coshape>,
)
    ensures { first.new ≡ first_of first.old (whole_breaks (unit of.now) (attributes all.entry) of_type (entity_seen entity.now) (map dimension dimensions.now) (lent_coshape coshape.entry)) }
{
    let at = entity.name.at;
    let corank = corank(coshape);
    judge_rank(first, dimensions.len(), corank, at);
    judge_deferred(first, all.is_allocatable, dimensions, coshape, at);
    judge_special_type(first, of_type, dimensions.len(), corank, at);
    judge_procedure_variable(first, of, all, corank, at);
    judge_intent(first, of, all, &entity.name);
    judge_parameter(first, all, entity);
}

/// Rule 22 (8.5.13): PARAMETER without a value.
fn judge_parameter(first: &mut Option<Broken>, all: Attributes<'_>, entity: &Entity)
    ensures { first.new ≡ first_of first.old (parameter_breaks (attributes all.entry) (entity_seen entity.now).initial entity.now.name.at) }
{
    if all.is_parameter && entity.initial.is_none() {
        note(first, rule::INITIAL_VALUE, entity.name.at);
    }
}
