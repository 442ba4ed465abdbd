//! What is asked of the expressions of an entity.

ghost use Rattle.std.specs.Prelude.{◌≡◌, ◌++◌, map, IfOk};
ghost use Rattle.fortran_tree.specs.DeclarationViews.{bounds as bounds_seen, coarray_spec, dimension, entity as entity_seen};
ghost use Rattle.rule_definitions.specs.Declarations.{effective_coshape, effective_dimensions};
ghost use Rattle.rule_definitions.specs.Judgements.{first_of, is_nothing};
ghost use Rattle.declaration_rules.specs.Bounds.{asked_bounds, bounds_asked_of, maybe_asked};
ghost use Rattle.declaration_rules.specs.Entities.{attributes, lent_coshape};
ghost use Rattle.declaration_rules.specs.Shapes.{asked_dimension, dimension_asked_of, raw_asked};
ghost use Rattle.unit_scopes.specs.Coshapes.{asked_coshape, coshape_asked_of, maybe_coshape, maybe_coshape_of, raw_coshape_asked};
ghost use Rattle.unit_scopes.specs.EntitiesAsked.{asked_entity, entity_asked_of, raw_entity_asked};

use crate::asked::{ask, ask_maybe};
use crate::coshape::{AskedCoshape, note_raw_coshape};
use caf_base::refusal::NoMemory;
use declaration_rules::asked::Asked;
use declaration_rules::attribute::Attributes;
use declaration_rules::bound::AskedBounds;
use declaration_rules::dimension::{AskedDimension, note_raw, note_raw_dimensions};
use fortran_tree::declaration::{Bounds, Coshape, Dimension, Entity};
use rule_definitions::broken::Broken;
use scope_table::scope::Scope;
use std::alloc::Global;

/// An entity, by what is asked of its bounds, cobounds and initial value.
#[derive(Drop)]
pub struct AskedEntity {
    pub dimensions: Vec<AskedDimension>,
    pub coshape: Option<AskedCoshape>,
    pub initial: Option<Asked>,
}

/// The dimensions of an entity: its own, else those of the attributes (ISO/IEC 1539-1:2018, 8.5.8.1).
pub fn dimensions_of<'a>(all: Attributes<'a>, entity: &'a Entity) -> &'a [Dimension]
    ensures { map dimension result.now ≡ effective_dimensions (attributes all.entry) (entity_seen entity.now) }
{
    match entity.dimensions.as_slice() {
        [] => all.dimensions,
        [_, ..] => entity.dimensions.as_slice(),
    }
}

/// The coshape of an entity: its own, else that of the attributes (8.5.6.1).
pub fn coshape_of<'a>(all: Attributes<'a>, entity: &'a Entity) -> Option<&'a Coshape>
    ensures { lent_coshape result ≡ effective_coshape (attributes all.entry) (entity_seen entity.now) }
{
    match &entity.coshape {
        Some(coshape) => Some(coshape),
        None => all.coshape,
    }
}

fn ask_bounds(alloc: Global, scope: &Scope<'_>, bounds: &Bounds) -> Result<AskedBounds, NoMemory>
    ensures { IfOk result (λ b. asked_bounds b ≡ bounds_asked_of scope.now (bounds_seen bounds.now)) }
{
    let lower = ask_maybe(alloc, scope, &bounds.lower)?;
    Ok(AskedBounds {
        lower,
        upper: ask(alloc, scope, &bounds.upper)?,
    })
}

fn ask_all_bounds(
    alloc: Global,
    scope: &Scope<'_>,
    bounds: &[Bounds],
) -> Result<Vec<AskedBounds>, NoMemory>
    ensures { IfOk result (λ v. map asked_bounds v.items ≡ map (bounds_asked_of scope.now) (map bounds_seen bounds.now)) }
{
    let mut all = Vec::new(alloc);
    for next in bounds {
        let asked = ask_bounds(alloc, scope, next)?;
        all.push(asked)?;
    }
    Ok(all)
}

fn ask_dimension(
    alloc: Global,
    scope: &Scope<'_>,
    written: &Dimension,
) -> Result<AskedDimension, NoMemory>
    ensures { IfOk result (λ x. asked_dimension x ≡ dimension_asked_of scope.now (dimension written.now)) }
{
    match written {
        Dimension::Deferred { .. } => Ok(AskedDimension::Deferred),
        Dimension::Explicit(bounds) => {
            Ok(AskedDimension::Explicit(ask_bounds(alloc, scope, bounds)?))
        }
    }
}

/// What is asked of dimensions in a scope.
pub fn ask_dimensions(
    alloc: Global,
    scope: &Scope<'_>,
    dimensions: &[Dimension],
) -> Result<Vec<AskedDimension>, NoMemory>
    ensures { IfOk result (λ v. map asked_dimension v.items ≡ map (dimension_asked_of scope.now) (map dimension dimensions.now)) }
{
    let mut all = Vec::new(alloc);
    for next in dimensions {
        let asked = ask_dimension(alloc, scope, next)?;
        all.push(asked)?;
    }
    Ok(all)
}

/// What is asked of a coshape in a scope.
pub fn ask_coshape(
    alloc: Global,
    scope: &Scope<'_>,
    coshape: &Coshape,
) -> Result<AskedCoshape, NoMemory>
    ensures { IfOk result (λ c. asked_coshape c ≡ coshape_asked_of scope.now (coarray_spec coshape.now)) }
{
    match coshape {
        Coshape::Deferred { corank } => Ok(AskedCoshape::Deferred { corank: *corank }),
        Coshape::Explicit {
            cobounds,
            last_lower,
        } => {
            let last_lower = ask_maybe(alloc, scope, last_lower)?;
            Ok(AskedCoshape::Explicit {
                cobounds: ask_all_bounds(alloc, scope, cobounds.as_slice())?,
                last_lower,
            })
        }
    }
}

fn ask_maybe_coshape(
    alloc: Global,
    scope: &Scope<'_>,
    coshape: Option<&Coshape>,
) -> Result<Option<AskedCoshape>, NoMemory>
    ensures { IfOk result (λ c. maybe_coshape c ≡ maybe_coshape_of scope.now (lent_coshape coshape.entry)) }
{
    match coshape {
        Some(coshape) => Ok(Some(ask_coshape(alloc, scope, coshape)?)),
        None => Ok(None),
    }
}

/// What is asked of an entity in a scope.
pub fn ask_entity(
    alloc: Global,
    scope: &Scope<'_>,
    all: Attributes<'_>,
    entity: &Entity,
) -> Result<AskedEntity, NoMemory>
    ensures { IfOk result (λ q. asked_entity q ≡ entity_asked_of scope.now (attributes all.entry) (entity_seen entity.now)) }
{
    let coshape = ask_maybe_coshape(alloc, scope, coshape_of(all, entity))?;
    let initial = ask_maybe(alloc, scope, &entity.initial)?;
    let dimensions = ask_dimensions(alloc, scope, dimensions_of(all, entity))?;
    Ok(AskedEntity {
        dimensions,
        coshape,
        initial,
    })
}

/// What breaks in the expressions of an entity alone; whether nothing does.
#[tactic(auto, using(scope_table::proofs::First::first_of_both, declaration_rules::proofs::Shapes::nothing_in_both))]
pub fn note_raw_entity(first: &mut Option<Broken>, asked: &AskedEntity) -> bool
    ensures first { first.new ≡ first_of first.old (raw_entity_asked (asked_entity asked.now)) }
    ensures clean { result ≡ is_nothing (raw_entity_asked (asked_entity asked.now)) }
{
    let are_clean = note_raw_dimensions(first, asked.dimensions.as_slice());
    let is_clean = note_raw_rest(first, asked);
    are_clean && is_clean
}

#[tactic(auto, using(scope_table::proofs::First::first_of_both, declaration_rules::proofs::Shapes::nothing_in_both))]
fn note_raw_rest(first: &mut Option<Broken>, asked: &AskedEntity) -> bool
    ensures first { first.new ≡ first_of first.old (raw_coshape_asked (maybe_coshape asked.now.coshape) ++ raw_asked (maybe_asked asked.now.initial)) }
    ensures clean { result ≡ is_nothing (raw_coshape_asked (maybe_coshape asked.now.coshape) ++ raw_asked (maybe_asked asked.now.initial)) }
{
    let are_clean = note_raw_coshape(first, &asked.coshape);
    let is_clean = note_raw(first, &asked.initial);
    are_clean && is_clean
}
