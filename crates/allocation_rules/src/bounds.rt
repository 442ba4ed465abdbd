//! The bounds and cobounds of an object of ALLOCATE (9.7.1.1): rules 37, 39 and 51.

ghost use Rattle.std.specs.Prelude.{◌≡◌, ◌++◌, IfOk, OnOk, map};
ghost use Rattle.std.specs.Option.{option_map};
ghost use Rattle.checked_tree.specs.ExpressionViews.{expression, maybe_expression};
ghost use Rattle.checked_tree.specs.StatementViews.{allocated_bounds as bounds_seen};
ghost use Rattle.fortran_tree.specs.ActionViews.{allocation as allocation_written};
ghost use Rattle.fortran_tree.specs.DeclarationViews.{bounds as bounds_written, coarray_spec, dimension as dimension_written, maybe_coarray_spec, maybe_expression as maybe_written};
ghost use Rattle.rule_definitions.specs.Actions as rules;
ghost use Rattle.rule_definitions.specs.Judgements.{all_made, both};
ghost use Rattle.part_rules.specs.Views.{list_of, one_more};
ghost use Rattle.allocation_rules.specs.Allocations.{bounds_with, cobounds_seen, cobounds_with, explicit_cobounds, shape_seen, shape_with};

use caf_base::refusal::NoMemory;
use checked_tree::action::AllocatedBounds;
use checked_tree::expr::TypedExpr;
use fortran_tree::action::Allocation;
use fortran_tree::declaration::{Bounds, Coshape, Dimension};
use fortran_tree::expr::Expr;
use part_rules::judged::{Judged, fine, joined, keep, unknown};
use scope_table::scope::Scope;
use shared_rules::optional::{maybe_integer, scalar_integer};
use std::alloc::Global;

/// The cobounds before the last, and the lower one of the last.
#[derive(Drop)]
pub struct Cobounds {
    pub first: Vec<AllocatedBounds>,
    pub last: Option<TypedExpr>,
}

/// The bounds and the cobounds of an object.
#[derive(Drop)]
pub struct Shape {
    pub bounds: Vec<AllocatedBounds>,
    pub cobounds: Cobounds,
}

fn bounds_of_two(
    lower: Option<Option<TypedExpr>>,
    upper: Option<TypedExpr>,
) -> Option<AllocatedBounds>
    ensures { option_map bounds_seen result ≡ both bounds_with (option_map maybe_expression lower) (option_map expression upper) }
{
    let Some(lower) = lower else {
        drop(upper);
        return None;
    };
    let Some(upper) = upper else {
        drop(lower);
        return None;
    };
    Some(AllocatedBounds { lower, upper })
}

// Bounds, each a scalar integer.
fn judge_bounds(
    alloc: Global,
    scope: &Scope<'_>,
    bounds: &Bounds,
) -> Result<Judged<AllocatedBounds>, NoMemory>
    ensures breaks { IfOk result (λ j. j.breaks.items ≡ (rules.allocated_bounds scope.now (bounds_written bounds.now)).breaks) }
    ensures meaning { IfOk result (λ j. option_map bounds_seen j.meaning ≡ (rules.allocated_bounds scope.now (bounds_written bounds.now)).meaning) }
{
    let Judged {
        breaks,
        meaning: lower,
    } = maybe_integer(alloc, scope, &bounds.lower)?;
    let Judged {
        breaks: further,
        meaning: upper,
    } = scalar_integer(alloc, scope, &bounds.upper)?;
    joined(breaks, further, bounds_of_two(lower, upper))
}

// The bounds of a dimension; a colon stands for none.
fn judge_dimension(
    alloc: Global,
    scope: &Scope<'_>,
    dimension: &Dimension,
) -> Result<Judged<AllocatedBounds>, NoMemory>
    ensures breaks { IfOk result (λ j. j.breaks.items ≡ (rules.bounds_or_none scope.now (dimension_written dimension.now)).breaks) }
    ensures meaning { IfOk result (λ j. option_map bounds_seen j.meaning ≡ (rules.bounds_or_none scope.now (dimension_written dimension.now)).meaning) }
{
    match dimension {
        Dimension::Explicit(bounds) => judge_bounds(alloc, scope, bounds),
        Dimension::Deferred { .. } => Ok(unknown(alloc)),
    }
}

// Puts the bounds of a dimension behind the earlier ones.
fn add_dimension(
    alloc: Global,
    scope: &Scope<'_>,
    list: &mut Judged<Vec<AllocatedBounds>>,
    dimension: &Dimension,
) -> Result<(), NoMemory>
    ensures breaks { OnOk result (list.new.breaks.items ≡ list.old.breaks.items ++ (rules.bounds_or_none scope.now (dimension_written dimension.now)).breaks) }
    ensures meaning { OnOk result (option_map (map bounds_seen) (option_map list_of list.new.meaning) ≡ both one_more (option_map (map bounds_seen) (option_map list_of list.old.meaning)) (rules.bounds_or_none scope.now (dimension_written dimension.now)).meaning) }
{
    let item = judge_dimension(alloc, scope, dimension)?;
    keep(list, item)
}

#[tactic(auto, using(shared_rules::proofs::Turns::turn_laws))]
fn judge_dimensions(
    alloc: Global,
    scope: &Scope<'_>,
    dimensions: &[Dimension],
) -> Result<Judged<Vec<AllocatedBounds>>, NoMemory>
    ensures breaks { IfOk result (λ j. j.breaks.items ≡ (all_made (map (rules.bounds_or_none scope.now) (map dimension_written dimensions.now))).breaks) }
    ensures meaning { IfOk result (λ j. option_map (map bounds_seen) (option_map list_of j.meaning) ≡ (all_made (map (rules.bounds_or_none scope.now) (map dimension_written dimensions.now))).meaning) }
{
    let mut list = fine(alloc, Vec::new(alloc));
    for dimension in dimensions {
        add_dimension(alloc, scope, &mut list, dimension)?;
    }
    Ok(list)
}

// Puts cobounds behind the earlier ones.
fn add_bounds(
    alloc: Global,
    scope: &Scope<'_>,
    list: &mut Judged<Vec<AllocatedBounds>>,
    bounds: &Bounds,
) -> Result<(), NoMemory>
    ensures breaks { OnOk result (list.new.breaks.items ≡ list.old.breaks.items ++ (rules.allocated_bounds scope.now (bounds_written bounds.now)).breaks) }
    ensures meaning { OnOk result (option_map (map bounds_seen) (option_map list_of list.new.meaning) ≡ both one_more (option_map (map bounds_seen) (option_map list_of list.old.meaning)) (rules.allocated_bounds scope.now (bounds_written bounds.now)).meaning) }
{
    let item = judge_bounds(alloc, scope, bounds)?;
    keep(list, item)
}

#[tactic(auto, using(shared_rules::proofs::Turns::turn_laws))]
fn judge_all_bounds(
    alloc: Global,
    scope: &Scope<'_>,
    cobounds: &[Bounds],
) -> Result<Judged<Vec<AllocatedBounds>>, NoMemory>
    ensures breaks { IfOk result (λ j. j.breaks.items ≡ (all_made (map (rules.allocated_bounds scope.now) (map bounds_written cobounds.now))).breaks) }
    ensures meaning { IfOk result (λ j. option_map (map bounds_seen) (option_map list_of j.meaning) ≡ (all_made (map (rules.allocated_bounds scope.now) (map bounds_written cobounds.now))).meaning) }
{
    let mut list = fine(alloc, Vec::new(alloc));
    for bounds in cobounds {
        add_bounds(alloc, scope, &mut list, bounds)?;
    }
    Ok(list)
}

fn cobounds_of_two(
    first: Option<Vec<AllocatedBounds>>,
    last: Option<Option<TypedExpr>>,
) -> Option<Cobounds>
    ensures { option_map cobounds_seen result ≡ both cobounds_with (option_map (map bounds_seen) (option_map list_of first)) (option_map maybe_expression last) }
{
    let Some(first) = first else {
        drop(last);
        return None;
    };
    let Some(last) = last else {
        drop(first);
        return None;
    };
    Some(Cobounds { first, last })
}

// Cobounds that are written out.
fn judge_explicit(
    alloc: Global,
    scope: &Scope<'_>,
    cobounds: &[Bounds],
    last_lower: &Option<Expr>,
) -> Result<Judged<Cobounds>, NoMemory>
    ensures breaks { IfOk result (λ j. j.breaks.items ≡ (explicit_cobounds scope.now (map bounds_written cobounds.now) (maybe_written last_lower.now)).breaks) }
    ensures meaning { IfOk result (λ j. option_map cobounds_seen j.meaning ≡ (explicit_cobounds scope.now (map bounds_written cobounds.now) (maybe_written last_lower.now)).meaning) }
{
    let Judged {
        breaks,
        meaning: first,
    } = judge_all_bounds(alloc, scope, cobounds)?;
    let Judged {
        breaks: further,
        meaning: last,
    } = maybe_integer(alloc, scope, last_lower)?;
    joined(breaks, further, cobounds_of_two(first, last))
}

fn no_cobounds(alloc: Global) -> Cobounds
    ensures { cobounds_seen result ≡ rules.no_cobounds }
{
    Cobounds {
        first: Vec::new(alloc),
        last: None,
    }
}

fn judge_cobounds(
    alloc: Global,
    scope: &Scope<'_>,
    coshape: &Option<Coshape>,
) -> Result<Judged<Cobounds>, NoMemory>
    ensures breaks { IfOk result (λ j. j.breaks.items ≡ (rules.allocated_cobounds scope.now (maybe_coarray_spec coshape.now)).breaks) }
    ensures meaning { IfOk result (λ j. option_map cobounds_seen j.meaning ≡ (rules.allocated_cobounds scope.now (maybe_coarray_spec coshape.now)).meaning) }
{
    match coshape {
        Some(
            Coshape::Explicit {
                cobounds,
                last_lower,
            },
        ) => judge_explicit(alloc, scope, cobounds.as_slice(), last_lower),
        Some(Coshape::Deferred { .. }) | None => Ok(fine(alloc, no_cobounds(alloc))),
    }
}

fn shape_of_two(bounds: Option<Vec<AllocatedBounds>>, cobounds: Option<Cobounds>) -> Option<Shape>
    ensures { option_map shape_seen result ≡ both shape_with (option_map (map bounds_seen) (option_map list_of bounds)) (option_map cobounds_seen cobounds) }
{
    let Some(bounds) = bounds else {
        drop(cobounds);
        return None;
    };
    let Some(cobounds) = cobounds else {
        drop(bounds);
        return None;
    };
    Some(Shape { bounds, cobounds })
}

/// The bounds and the cobounds of an object of ALLOCATE, each a scalar integer.
pub fn judge_shape(
    alloc: Global,
    scope: &Scope<'_>,
    object: &Allocation,
) -> Result<Judged<Shape>, NoMemory>
    ensures breaks { IfOk result (λ j. j.breaks.items ≡ (rules.shape_judged scope.now (allocation_written object.now)).breaks) }
    ensures meaning { IfOk result (λ j. option_map shape_seen j.meaning ≡ (rules.shape_judged scope.now (allocation_written object.now)).meaning) }
{
    let Judged {
        breaks,
        meaning: bounds,
    } = judge_dimensions(alloc, scope, object.bounds.as_slice())?;
    let Judged {
        breaks: further,
        meaning: cobounds,
    } = judge_cobounds(alloc, scope, &object.cobounds)?;
    joined(breaks, further, shape_of_two(bounds, cobounds))
}
