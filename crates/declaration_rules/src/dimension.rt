//! The bounds of an entity, and its cobounds.

ghost use Rattle.std.specs.Prelude.{◌≡◌, ◌&&◌, map, IfOk, OnOk};
ghost use Rattle.rule_definitions.specs.Judgements.{first_of, is_nothing};
ghost use Rattle.declaration_rules.specs.Bounds.{asked_bounds, maybe_asked};
ghost use Rattle.declaration_rules.specs.Shapes.{raw_asked, raw_bounds_asked, raw_dimension_asked, raw_dimensions_asked, asked_dimension, dimension_asked, dimensions_asked, known_dimension};

use crate::asked::{Asked, is_clean, plain_value};
use crate::bound::{AskedBounds, bounds};
use caf_base::listing::Listing;
use caf_base::refusal::NoMemory;
use rule_definitions::broken::Broken;
use scope_table::symbol::KnownBounds;
use std::alloc::Global;

/// One dimension of an entity.
#[derive(Drop)]
pub enum AskedDimension {
    Deferred,
    Explicit(AskedBounds),
}

/// What breaks in an expression alone, where one is written; whether nothing does.
#[tactic(auto, using(scope_table::proofs::First::first_of_both))]
pub fn note_raw(first: &mut Option<Broken>, expr: &Option<Asked>) -> bool
    ensures first { first.new ≡ first_of first.old (raw_asked (maybe_asked expr.now)) }
    ensures clean { result ≡ is_nothing (raw_asked (maybe_asked expr.now)) }
{
    match expr {
        Some(expr) => {
            let _ = plain_value(first, expr);
            is_clean(expr)
        }
        None => true,
    }
}

fn both(one: bool, other: bool) -> bool
    ensures { result ≡ (one && other) }
{
    one && other
}

// What breaks in the expressions of bounds alone; whether nothing does.
#[tactic(auto, using(scope_table::proofs::First::first_of_both, crate::proofs::Shapes::nothing_in_both))]
fn note_raw_bounds(first: &mut Option<Broken>, written: &AskedBounds) -> bool
    ensures first { first.new ≡ first_of first.old (raw_bounds_asked (asked_bounds written.now)) }
    ensures clean { result ≡ is_nothing (raw_bounds_asked (asked_bounds written.now)) }
{
    let lower = note_raw(first, &written.lower);
    let _ = plain_value(first, &written.upper);
    let upper = is_clean(&written.upper);
    lower && upper
}

// The same of a dimension.
fn note_raw_dimension(first: &mut Option<Broken>, written: &AskedDimension) -> bool
    ensures first { first.new ≡ first_of first.old (raw_dimension_asked (asked_dimension written.now)) }
    ensures clean { result ≡ is_nothing (raw_dimension_asked (asked_dimension written.now)) }
{
    match written {
        AskedDimension::Deferred => true,
        AskedDimension::Explicit(written) => note_raw_bounds(first, written),
    }
}

/// What breaks in the expressions of dimensions alone; whether nothing does.
pub fn note_raw_dimensions(first: &mut Option<Broken>, written: &[AskedDimension]) -> bool
    ensures first { first.new ≡ first_of first.old (raw_dimensions_asked (map asked_dimension written.now)) }
    ensures clean { result ≡ is_nothing (raw_dimensions_asked (map asked_dimension written.now)) }
{
    let mut are_clean = true;
    for next in written {
        let is_clean = note_raw_dimension(first, next);
        are_clean = both(are_clean, is_clean);
    }
    are_clean
}

// The bounds of one dimension, as far as they are known: none of an allocatable.
fn dimension(first: &mut Option<Broken>, allocates: bool, written: &AskedDimension) -> KnownBounds
    ensures first { first.new ≡ first_of first.old (dimension_asked allocates (asked_dimension written.now)).breaks }
    ensures bounds { result ≡ (dimension_asked allocates (asked_dimension written.now)).meaning }
{
    match written {
        AskedDimension::Deferred => None,
        AskedDimension::Explicit(written) => {
            if allocates {
                let _ = note_raw_bounds(first, written);
                return None;
            }
            bounds(first, written)
        }
    }
}

/// The bounds of an entity, as far as they are known.
pub fn dimensions(
    alloc: Global,
    first: &mut Option<Broken>,
    allocates: bool,
    written: &[AskedDimension],
) -> Result<Listing<KnownBounds>, NoMemory>
    ensures first { OnOk result (first.new ≡ first_of first.old (dimensions_asked allocates (map asked_dimension written.now))) }
    ensures bounds { IfOk result (λ ds. ds ≡ map (λ x. known_dimension allocates (asked_dimension x)) written.now) }
{
    let mut all = Listing::new(alloc);
    for next in written {
        let known = dimension(first, allocates, next);
        all.push(known)?;
    }
    Ok(all)
}
