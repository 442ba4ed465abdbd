//! What is known of designators (ISO/IEC 1539-1:2018, 9.1): parts of constant arrays, and the bounds of variables and
//! sections.

ghost use Rattle.std.specs.Prelude.{◌≡◌, ◌++◌, Some, map, pos, IfOk, OnOk};
ghost use Rattle.rule_definitions.specs.Constants as rules;
ghost use Rattle.std.specs.Option.{option_map};
ghost use Rattle.scope_table.specs.Scopes.{visible};
ghost use Rattle.scope_table.specs.Symbols.{interface};
ghost use Rattle.constant_values.specs.Sections.{section_dimension};
ghost use Rattle.constant_values.specs.Views.{constancy, known, part, subscript, some_selector};

use crate::bounds::{Bounds, triplet_bounds};
use crate::constancy::Constancy;
use crate::known::Known;
use crate::part::{Part, Section, end_or, part_or};
use crate::selection::part_of_constant;
use caf_base::listing::Listing;
use caf_base::refusal::NoMemory;
use checked_tree::data::{Constant, Object};
use scope_table::scope::{Scope, Visible};
use scope_table::symbol::{Interface, KnownBounds};
use std::alloc::Global;

/// A part of an object, coindexed or not.
pub(crate) fn known_part(
    alloc: Global,
    scope: &Scope<'_>,
    object: Object,
    sections: &[Section],
    is_coindexed: bool,
) -> Result<Known, NoMemory>
    ensures { IfOk result (λ k. known k ≡ rules.known_part scope.now object (map subscript sections.now) (some_selector is_coindexed)) }
{
    let bounds = bounds_of_part(alloc, scope, object, sections)?;
    let constancy = part_constancy(alloc, scope, object, sections, is_coindexed)?;
    Ok(Known { constancy, bounds })
}

// What a part of an object stands for: something where it is a constant.
fn part_constancy(
    alloc: Global,
    scope: &Scope<'_>,
    object: Object,
    sections: &[Section],
    is_coindexed: bool,
) -> Result<Constancy, NoMemory>
    ensures { IfOk result (λ c. constancy c ≡ rules.part_constancy scope.now object (map subscript sections.now) (some_selector is_coindexed)) }
{
    if is_coindexed {
        return Ok(Constancy::NoConstant);
    }
    match object {
        Object::Constant(number) => { part_of_table(alloc, scope.constant(number), sections) }
        Object::Local(_) | Object::Coarray(_) => Ok(Constancy::NoConstant),
    }
}

// A part of a constant that may be missing in the table.
fn part_of_table(
    alloc: Global,
    constant: Option<&Constant>,
    sections: &[Section],
) -> Result<Constancy, NoMemory>
    ensures { IfOk result (λ c. constancy c ≡ rules.part_of_table (option_map (λ x. x.now) constant.entry) (map subscript sections.now)) }
{
    match constant {
        Some(constant) => part_of_constant(alloc, constant, sections),
        None => Ok(Constancy::NoConstant),
    }
}

// The bounds of a part of an object.
fn bounds_of_part(
    alloc: Global,
    scope: &Scope<'_>,
    object: Object,
    sections: &[Section],
) -> Result<Listing<Bounds>, NoMemory>
    ensures { IfOk result (λ l. l ≡ rules.bounds_behind (rules.declared_bounds scope.now object) (map subscript sections.now)) }
{
    let declared = declared_bounds(alloc, scope, object)?;
    match sections {
        [] => widened(alloc, declared.as_slice()),
        [_, ..] => section_bounds(alloc, declared.as_slice(), sections),
    }
}

// The declared bounds of an object.
fn declared_bounds(
    alloc: Global,
    scope: &Scope<'_>,
    object: Object,
) -> Result<Listing<KnownBounds>, NoMemory>
    ensures { IfOk result (λ l. l ≡ rules.declared_bounds scope.now object) }
{
    match object {
        Object::Constant(number) => constant_bounds(alloc, scope.constant(number)),
        Object::Local(_) | Object::Coarray(_) => symbol_bounds(alloc, scope.symbol_of(object)),
    }
}

fn constant_bounds(
    alloc: Global,
    constant: Option<&Constant>,
) -> Result<Listing<KnownBounds>, NoMemory>
    ensures { IfOk result (λ l. l ≡ rules.constant_bounds (option_map (λ x. x.now) constant.entry)) }
{
    match constant {
        Some(constant) => all_known(alloc, constant.shape.dims.as_slice()),
        None => Ok(Listing::new(alloc)),
    }
}

// Bounds that are all known.
fn all_known(alloc: Global, dims: &[(i64, i64)]) -> Result<Listing<KnownBounds>, NoMemory>
    ensures { IfOk result (λ l. l ≡ map (λ d. Some d) dims.now) }
{
    let mut all = Listing::new(alloc);
    for bounds in dims {
        all.push(Some(*bounds))?;
    }
    Ok(all)
}

fn symbol_bounds(
    alloc: Global,
    found: Option<Visible<'_>>,
) -> Result<Listing<KnownBounds>, NoMemory>
    ensures { IfOk result (λ l. l ≡ rules.symbol_bounds (option_map visible found.entry)) }
{
    match found {
        Some(found) => found.symbol.bounds.copy(),
        None => Ok(Listing::new(alloc)),
    }
}

// The same bounds.
fn widened(alloc: Global, bounds: &[KnownBounds]) -> Result<Listing<Bounds>, NoMemory>
    ensures { IfOk result (λ l. l ≡ bounds.now) }
{
    let mut all = Listing::new(alloc);
    for dimension in bounds {
        all.push(wide(*dimension))?;
    }
    Ok(all)
}

fn wide(bounds: KnownBounds) -> Bounds
    ensures { result ≡ bounds }
{
    match bounds {
        Some((lower, upper)) => Some((i128::from(lower), i128::from(upper))),
        None => None,
    }
}

// The bounds of a section: a dimension for each triplet.
fn section_bounds(
    alloc: Global,
    bounds: &[KnownBounds],
    sections: &[Section],
) -> Result<Listing<Bounds>, NoMemory>
    ensures { IfOk result (λ l. l ≡ rules.section_bounds bounds.now (map subscript sections.now)) }
{
    let mut all = Listing::new(alloc);
    push_sections(&mut all, bounds, sections)?;
    Ok(all)
}

fn push_sections(
    all: &mut Listing<Bounds>,
    bounds: &[KnownBounds],
    sections: &[Section],
) -> Result<(), NoMemory>
    ensures { OnOk result (all.new ≡ all.old ++ rules.section_bounds bounds.now (map subscript sections.now)) }
{
    let [first, others @ ..] = bounds else {
        return Ok(());
    };
    let [section, further @ ..] = sections else {
        return Ok(());
    };
    push_section(all, *first, *section)?;
    push_sections(all, others, further)
}

// The dimension of a triplet, nothing of a subscript.
fn push_section(
    all: &mut Listing<Bounds>,
    bounds: KnownBounds,
    section: Section,
) -> Result<(), NoMemory>
    ensures { OnOk result (all.new ≡ all.old ++ section_dimension bounds (subscript section)) }
{
    match section {
        Section::Element(_) => Ok(()),
        Section::Triplet {
            lower,
            upper,
            stride,
        } => all.push(triplet_dimension(bounds, lower, upper, stride)?),
    }
}

fn triplet_dimension(
    bounds: KnownBounds,
    lower: Part,
    upper: Part,
    stride: Part,
) -> Result<Bounds, NoMemory>
    ensures { IfOk result (λ b. b ≡ rules.triplet_bounds (rules.end_or (part lower) (rules.lower_of bounds)) (rules.end_or (part upper) (rules.upper_of bounds)) (rules.part_or (part stride) (pos 1))) }
{
    let (first, last) = match bounds {
        Some((first, last)) => (Some(first), Some(last)),
        None => (None, None),
    };
    triplet_bounds(
        end_or(lower, first),
        end_or(upper, last),
        part_or(stride, 1),
    )
}

/// The bounds of the result of a function of the program.
pub(crate) fn called(alloc: Global, found: Option<&Interface>) -> Result<Known, NoMemory>
    ensures { IfOk result (λ k. known k ≡ record { constancy = rules.no_constant; bounds = rules.interface_bounds (option_map (λ i. interface i.now) found.entry) }) }
{
    let Some(called) = found else {
        return Ok(unknown(Listing::new(alloc)));
    };
    match &called.result {
        Some(symbol) => Ok(unknown(widened(alloc, symbol.bounds.as_slice())?)),
        None => Ok(unknown(Listing::new(alloc))),
    }
}

/// An expression of which the bounds alone are known.
pub(crate) fn unknown(bounds: Listing<Bounds>) -> Known
    ensures { known result ≡ record { constancy = rules.no_constant; bounds = bounds } }
{
    Known {
        constancy: Constancy::NoConstant,
        bounds,
    }
}
