//! The coshape of an entity (ISO/IEC 1539-1:2018, 8.5.6).

ghost use Rattle.std.specs.Prelude.{◌≡◌, ◌++◌, ◌∷◌, ◌&&◌, [], false, map, Some, IfOk, OnOk};
ghost use Rattle.std.specs.Option.{option_map};
ghost use Rattle.rule_definitions.specs.Constants.{all_bounds};
ghost use Rattle.rule_definitions.specs.Declarations.{coextent, coshape_of_bounds};
ghost use Rattle.rule_definitions.specs.Judgements.{first_of, is_nothing};
ghost use Rattle.declaration_rules.specs.Bounds.{asked_bounds, maybe_asked};
ghost use Rattle.declaration_rules.specs.Shapes.{raw_asked, raw_bounds_asked};
ghost use Rattle.unit_scopes.specs.Coshapes.{cobounds_breaks, coshape_asked_breaks, coshape_asked_known, explicit as explicit_asked, explicit_known, known_cobounds, maybe_coshape, raw_all_asked, raw_coshape_asked};

use caf_base::listing::Listing;
use caf_base::refusal::NoMemory;
use caf_base::short::Short;
use checked_tree::data::Codimensions;
use coarray_types::coshape::CoShape;
use declaration_rules::asked::{Asked, is_clean, plain_value};
use declaration_rules::bound::{AskedBounds, cobounds, lower_bound};
use declaration_rules::dimension::note_raw;
use rule_definitions::broken::Broken;
use scope_table::symbol::KnownBounds;
use std::alloc::Global;

/// A coshape, by what is asked of its expressions.
#[derive(Drop)]
pub enum AskedCoshape {
    Deferred {
        corank: u32,
    },
    /// The cobounds before the last, and the lower cobound before the asterisk.
    Explicit {
        cobounds: Vec<AskedBounds>,
        last_lower: Option<Asked>,
    },
}

fn both(one: bool, other: bool) -> bool
    ensures { result ≡ (one && other) }
{
    one && other
}

// What breaks in the expressions of bounds alone; whether nothing does.
#[tactic(auto, using(scope_table::proofs::First::first_of_both, declaration_rules::proofs::Shapes::nothing_in_both))]
fn note_raw_bounds(first: &mut Option<Broken>, written: &AskedBounds) -> bool
    ensures first { first.new ≡ first_of first.old (raw_bounds_asked (asked_bounds written.now)) }
    ensures clean { result ≡ is_nothing (raw_bounds_asked (asked_bounds written.now)) }
{
    let lower = note_raw(first, &written.lower);
    let _ = plain_value(first, &written.upper);
    let upper = is_clean(&written.upper);
    lower && upper
}

// The same of a list of bounds.
fn note_raw_all(first: &mut Option<Broken>, written: &[AskedBounds]) -> bool
    ensures first { first.new ≡ first_of first.old (raw_all_asked (map asked_bounds written.now)) }
    ensures clean { result ≡ is_nothing (raw_all_asked (map asked_bounds written.now)) }
{
    let mut are_clean = true;
    for next in written {
        let is_clean = note_raw_bounds(first, next);
        are_clean = both(are_clean, is_clean);
    }
    are_clean
}

/// What breaks in the expressions of a coshape alone; whether nothing does.
#[tactic(auto, using(scope_table::proofs::First::first_of_both, declaration_rules::proofs::Shapes::nothing_in_both))]
pub fn note_raw_coshape(first: &mut Option<Broken>, written: &Option<AskedCoshape>) -> bool
    ensures first { first.new ≡ first_of first.old (raw_coshape_asked (maybe_coshape written.now)) }
    ensures clean { result ≡ is_nothing (raw_coshape_asked (maybe_coshape written.now)) }
{
    match written {
        None | Some(AskedCoshape::Deferred { .. }) => true,
        Some(
            AskedCoshape::Explicit {
                cobounds,
                last_lower,
            },
        ) => {
            let are_clean = note_raw_all(first, cobounds.as_slice());
            let is_clean = note_raw(first, last_lower);
            are_clean && is_clean
        }
    }
}

// The cobounds before the last, as far as they are known.
fn known_all(
    alloc: Global,
    first: &mut Option<Broken>,
    written: &[AskedBounds],
) -> Result<Listing<KnownBounds>, NoMemory>
    ensures first { OnOk result (first.new ≡ first_of first.old (cobounds_breaks (map asked_bounds written.now))) }
    ensures bounds { IfOk result (λ ds. ds ≡ map known_cobounds (map asked_bounds written.now)) }
{
    let mut all = Listing::new(alloc);
    for next in written {
        let known = cobounds(first, next);
        all.push(known)?;
    }
    Ok(all)
}

/// The bounds of all dimensions, where they are all known.
pub fn all_known(
    alloc: Global,
    bounds: &[KnownBounds],
) -> Result<Option<Listing<(i64, i64)>>, NoMemory>
    ensures { IfOk result (λ o. o ≡ all_bounds bounds.now) }
{
    let mut all = Listing::new(alloc);
    for next in bounds {
        let Some(known) = next else {
            return Ok(None);
        };
        all.push(*known)?;
    }
    Ok(Some(all))
}

// The lower ones of bounds, and the last.
fn lower_cobounds(
    alloc: Global,
    cobounds: &[(i64, i64)],
    last: i64,
) -> Result<Listing<i64>, NoMemory>
    ensures { IfOk result (λ ls. ls ≡ map (λ d. d.0) cobounds.now ++ last ∷ []) }
{
    let mut all = Listing::new(alloc);
    for next in cobounds {
        all.push(next.0)?;
    }
    all.push(last)?;
    Ok(all)
}

// How many cosubscripts lie between bounds; cobounds are of kind 4, so that 64 bits hold it.
fn extent_between(cobounds: &(i64, i64)) -> Result<i64, NoMemory>
    ensures { IfOk result (λ n. n ≡ coextent cobounds.now) }
{
    let (lower, upper) = *cobounds;
    let Some(less) = upper.checked_sub(lower) else {
        return Err(NoMemory);
    };
    match less.checked_add(1) {
        Some(extent) => Ok(extent),
        None => Err(NoMemory),
    }
}

fn coextents(alloc: Global, cobounds: &[(i64, i64)]) -> Result<Listing<i64>, NoMemory>
    ensures { IfOk result (λ es. es ≡ map coextent cobounds.now) }
{
    let mut all = Listing::new(alloc);
    for next in cobounds {
        let extent = extent_between(next)?;
        all.push(extent)?;
    }
    Ok(all)
}

// The codimensions of these cobounds and this last lower cobound, where all are known.
fn codimensions(
    alloc: Global,
    cobounds: Option<Listing<(i64, i64)>>,
    last: Option<i64>,
) -> Result<Codimensions, NoMemory>
    ensures { IfOk result (λ c. c ≡ coshape_of_bounds cobounds last) }
{
    match (cobounds, last) {
        (Some(cobounds), Some(last)) => explicit(alloc, cobounds.as_slice(), last),
        _ => Ok(Codimensions::Absent),
    }
}

fn explicit(alloc: Global, cobounds: &[(i64, i64)], last: i64) -> Result<Codimensions, NoMemory>
    ensures { IfOk result (λ c. c ≡ coshape_of_bounds (Some cobounds.now) (Some last)) }
{
    let lower = lower_cobounds(alloc, cobounds, last)?;
    let lower = Short::from_slice(alloc, lower.as_slice())?;
    let extent = coextents(alloc, cobounds)?;
    let extent = Short::from_slice(alloc, extent.as_slice())?;
    Ok(Codimensions::Explicit(CoShape { lower, extent }))
}

// The rules of an explicit coshape, and what is known of it.
#[tactic(auto, using(scope_table::proofs::First::first_of_both))]
fn judge_explicit(
    alloc: Global,
    first: &mut Option<Broken>,
    written: &[AskedBounds],
    last_lower: &Option<Asked>,
) -> Result<Codimensions, NoMemory>
    ensures first { OnOk result (first.new ≡ first_of first.old (coshape_asked_breaks false (Some (explicit_asked (map asked_bounds written.now) (maybe_asked last_lower.now))))) }
    ensures known { IfOk result (λ c. c ≡ explicit_known (map asked_bounds written.now) (maybe_asked last_lower.now)) }
{
    let known = known_all(alloc, first, written)?;
    let last = lower_bound(first, last_lower);
    let cobounds = all_known(alloc, known.as_slice())?;
    let codimensions = codimensions(alloc, cobounds, last)?;
    Ok(codimensions)
}

/// The rules on the cobounds of an entity, of an allocatable only what breaks in the expressions; and what is known of
/// its coshape.
pub fn judge_coshape(
    alloc: Global,
    first: &mut Option<Broken>,
    allocates: bool,
    written: &Option<AskedCoshape>,
) -> Result<Codimensions, NoMemory>
    ensures first { OnOk result (first.new ≡ first_of first.old (coshape_asked_breaks allocates (maybe_coshape written.now))) }
    ensures known { IfOk result (λ c. c ≡ coshape_asked_known (maybe_coshape written.now)) }
{
    match written {
        None => Ok(Codimensions::Absent),
        Some(AskedCoshape::Deferred { corank }) => Ok(Codimensions::Deferred { corank: *corank }),
        Some(
            AskedCoshape::Explicit {
                cobounds,
                last_lower,
            },
        ) => {
            if !allocates {
                return judge_explicit(alloc, first, cobounds.as_slice(), last_lower);
            }
            let _ = note_raw_coshape(first, written);
            let mut untold = None;
            judge_explicit(alloc, &mut untold, cobounds.as_slice(), last_lower)
        }
    }
}
