//! Elements of constant arrays (ISO/IEC 1539-1:2018, 9.5.3): whole ones, elements, and sections.

ghost use Rattle.std.specs.Prelude.{◌≡◌, ◌++◌, ℕ, [], map, replicate, IfOk, OnOk};
ghost use Rattle.std.specs.Option.{option_map};
ghost use Rattle.coarray_types.specs.Places.{extent_of, size_of};
ghost use Rattle.rule_definitions.specs.Constants as rules;
ghost use Rattle.constant_values.specs.Selections.{seen, places_of, place_in, places_before, with_choice, with_choice_of, value_at, taken_at};
ghost use Rattle.constant_values.specs.Sizes.{capped};
ghost use Rattle.constant_values.specs.Views.{constancy, subscript};

use crate::bounds::{array_size, short_extent};
use crate::chosen::{Chosen, choose};
use crate::constancy::Constancy;
use crate::part::Section;
use caf_base::listing::Listing;
use caf_base::refusal::NoMemory;
use caf_base::value::Value;
use checked_tree::data::{Constant, Initial};
use std::alloc::Global;

/// The extents of a section, and the places of its elements in the array, in array element order, from 0.
#[derive(Drop)]
pub(crate) struct Selection {
    pub extents: Vec<usize>,
    pub places: Vec<usize>,
}

/// A constant array, or a part of it.
#[tactic(auto, using(crate::proofs::Selections::some_sections))]
pub(crate) fn part_of_constant(
    alloc: Global,
    constant: &Constant,
    sections: &[Section],
) -> Result<Constancy, NoMemory>
    ensures { IfOk result (λ c. constancy c ≡ rules.part_of_constant constant.now (map subscript sections.now)) }
{
    match sections {
        [] => whole(alloc, constant),
        [_, ..] => section_of(alloc, constant, sections),
    }
}

// A section or an element of a constant array.
#[tactic(auto, using(crate::proofs::Selections::taken_found, crate::proofs::Selections::none_found))]
fn section_of(
    alloc: Global,
    constant: &Constant,
    sections: &[Section],
) -> Result<Constancy, NoMemory>
    ensures { IfOk result (λ c. constancy c ≡ rules.taken_elements constant.now.shape.dims (rules.initial_values constant.now.values (size_of constant.now.shape.dims)) (rules.selected constant.now.shape.dims (map subscript sections.now))) }
{
    match select(alloc, constant.shape.dims.as_slice(), sections)? {
        Some(selection) => taken(alloc, constant, selection),
        None => Ok(Constancy::NoConstant),
    }
}

// A whole array.
fn whole(alloc: Global, constant: &Constant) -> Result<Constancy, NoMemory>
    ensures { IfOk result (λ c. constancy c ≡ rules.constant_of constant.now) }
{
    let extents = extents(alloc, constant.shape.dims.as_slice())?;
    let values = all_values(alloc, constant)?;
    Ok(Constancy::Values { extents, values })
}

// Extents that fit 64 bits.
fn extents(alloc: Global, dims: &[(i64, i64)]) -> Result<Listing<usize>, NoMemory>
    ensures { IfOk result (λ l. l ≡ map extent_of dims.now) }
{
    let mut all = Listing::new(alloc);
    for bounds in dims {
        all.push(held(short_extent(bounds))?)?;
    }
    Ok(all)
}

// A number that 64 bits can hold.
fn held(number: u128) -> Result<usize, NoMemory>
    ensures { IfOk result (λ n. n ≡ number) }
{
    match usize::try_from(number) {
        Ok(number) => Ok(number),
        Err(_) => Err(NoMemory),
    }
}

// The values of all elements.
fn all_values(alloc: Global, constant: &Constant) -> Result<Listing<Value>, NoMemory>
    ensures { IfOk result (λ l. l ≡ rules.initial_values constant.now.values (size_of constant.now.shape.dims)) }
{
    match &constant.values {
        Initial::Unstated => Ok(Listing::new(alloc)),
        Initial::All(value) => repeated(alloc, *value, array_size(constant.shape.dims.as_slice())),
        Initial::Each(values) => values.copy(),
    }
}

// A value so many times, where there is memory for that.
#[tactic(auto, using(crate::proofs::Sizes::below_limit))]
fn repeated(alloc: Global, value: Value, count: u128) -> Result<Listing<Value>, NoMemory>
    ensures { (n : ℕ) → count ≡ capped n → IfOk result (λ l. l ≡ replicate n value) }
{
    let values = vec![in alloc; value; held(count)?]?;
    Ok(Listing::from_vec(values))
}

/// The places of the elements of a section; none where they aren't known or one is out of bounds.
fn select(
    alloc: Global,
    dims: &[(i64, i64)],
    sections: &[Section],
) -> Result<Option<Selection>, NoMemory>
    ensures { IfOk result (λ o. option_map seen o ≡ option_map (places_of dims.now) (rules.selected dims.now (map subscript sections.now))) }
{
    let [bounds, others @ ..] = dims else {
        return if sections.is_empty() {
            Ok(Some(every(alloc)?))
        } else {
            Ok(None)
        };
    };
    let [section, further @ ..] = sections else {
        return Ok(None);
    };
    let rest = select(alloc, others, further)?;
    Ok(with_section(alloc, bounds, *section, rest)?)
}

// The one element of a scalar.
fn every(alloc: Global) -> Result<Selection, NoMemory>
    ensures { IfOk result (λ r. seen r ≡ places_of [] rules.every) }
{
    let mut places = Vec::new(alloc);
    places.push(0)?;
    Ok(Selection {
        extents: Vec::new(alloc),
        places,
    })
}

// The same with one dimension more, before the others.
fn with_section(
    alloc: Global,
    bounds: &(i64, i64),
    section: Section,
    rest: Option<Selection>,
) -> Result<Option<Selection>, NoMemory>
    ensures { IfOk result (λ o. option_map seen o ≡ with_choice_of bounds.now (rules.chosen bounds.now (subscript section)) (option_map seen rest)) }
{
    let Some(rest) = rest else {
        return Ok(None);
    };
    match choose(alloc, bounds, section)? {
        Chosen::One(number) => {
            let places = places_before(alloc, bounds, &[number], rest.places.as_slice())?;
            Ok(Some(Selection {
                extents: rest.extents,
                places,
            }))
        }
        Chosen::Several(numbers) => with_row(alloc, bounds, numbers.as_slice(), rest),
        Chosen::Never => Ok(None),
    }
}

// The same with a row of subscripts before each.
fn with_row(
    alloc: Global,
    bounds: &(i64, i64),
    numbers: &[i64],
    rest: Selection,
) -> Result<Option<Selection>, NoMemory>
    ensures { IfOk result (λ o. option_map seen o ≡ with_choice bounds.now (rules.several numbers.now) (seen rest)) }
{
    let places = places_before(alloc, bounds, numbers, rest.places.as_slice())?;
    let mut extents = rest.extents;
    extents.insert(0, numbers.len())?;
    Ok(Some(Selection { extents, places }))
}

// The places of subscripts before each place.
fn places_before(
    alloc: Global,
    bounds: &(i64, i64),
    numbers: &[i64],
    places: &[usize],
) -> Result<Vec<usize>, NoMemory>
    ensures { IfOk result (λ v. v.items ≡ places_before bounds.now numbers.now places.now) }
{
    let mut all = Vec::new(alloc);
    for place in places {
        push_row(&mut all, bounds, numbers, *place)?;
    }
    Ok(all)
}

// The places of subscripts before one place.
fn push_row(
    all: &mut Vec<usize>,
    bounds: &(i64, i64),
    numbers: &[i64],
    place: usize,
) -> Result<(), NoMemory>
    ensures { OnOk result (all.new.items ≡ all.old.items ++ map (place_in bounds.now place) numbers.now) }
{
    for number in numbers {
        all.push(place_in(bounds, place, *number)?)?;
    }
    Ok(())
}

// The place of a subscript before a place in the further dimensions, where 64 bits can hold it.
fn place_in(bounds: &(i64, i64), place: usize, number: i64) -> Result<usize, NoMemory>
    ensures { IfOk result (λ n. n ≡ place_in bounds.now place number) }
{
    let (lower, _) = *bounds;
    let Some(before) = short_extent(bounds).checked_mul(place as u128) else {
        return Err(NoMemory);
    };
    match u128::from(number.abs_diff(lower)).checked_add(before) {
        Some(place) => held(place),
        None => Err(NoMemory),
    }
}

// The elements at these places: a scalar where there is no extent.
fn taken(alloc: Global, constant: &Constant, selection: Selection) -> Result<Constancy, NoMemory>
    ensures { IfOk result (λ c. constancy c ≡ taken_at (rules.initial_values constant.now.values (size_of constant.now.shape.dims)) (seen selection)) }
{
    let size = array_size(constant.shape.dims.as_slice());
    if selection.extents.is_empty() {
        return Ok(first_at(&constant.values, size, selection.places.as_slice()));
    }
    let values = values_at(alloc, &constant.values, size, selection.places.as_slice())?;
    Ok(Constancy::Values {
        extents: Listing::from_vec(selection.extents),
        values,
    })
}

// The first of the elements at these places.
fn first_at(values: &Initial, size: u128, places: &[usize]) -> Constancy
    ensures { (n : ℕ) → size ≡ capped n → constancy result ≡ rules.first_value (map (value_at (rules.initial_values values.now n)) places.now) }
{
    match places {
        [] => Constancy::NoConstant,
        [place, ..] => Constancy::Value(value_at(values, size, *place)),
    }
}

// The elements at these places.
fn values_at(
    alloc: Global,
    values: &Initial,
    size: u128,
    places: &[usize],
) -> Result<Listing<Value>, NoMemory>
    ensures { (n : ℕ) → size ≡ capped n → IfOk result (λ l. l ≡ map (value_at (rules.initial_values values.now n)) places.now) }
{
    let mut all = Listing::new(alloc);
    for place in places {
        all.push(value_at(values, size, *place))?;
    }
    Ok(all)
}

// The element at a place of an array of this size.
#[tactic(auto, using(crate::proofs::Selections::same_value, crate::proofs::Selections::no_value, crate::proofs::Sizes::within_capped, crate::proofs::Sizes::beyond_capped))]
fn value_at(values: &Initial, size: u128, place: usize) -> Value
    ensures { (n : ℕ) → size ≡ capped n → result ≡ value_at (rules.initial_values values.now n) place }
{
    match values {
        Initial::Unstated => Value::Bool(false),
        Initial::All(value) => {
            if (place as u128) < size {
                *value
            } else {
                Value::Bool(false)
            }
        }
        Initial::Each(values) => match values.as_slice().get(place) {
            Some(value) => *value,
            None => Value::Bool(false),
        },
    }
}
