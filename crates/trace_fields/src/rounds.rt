//! What an image brings to a round.

ghost use Rattle.std.specs.Prelude.{◌≡◌, ◌++◌, ◌∷◌, ℕ, ℤ, List, IfOk, drop, flat_map};
ghost use Rattle.caf_events.specs.declared.round.Allotted.{Allotted};
ghost use Rattle.caf_events.specs.declared.round.Arriving.{Arriving};
ghost use Rattle.trace_theory.specs.Entries.{Each};
ghost use Rattle.trace_text.specs.TraceText.{shape_text, allotted_text, spaced_name, arriving_text};
ghost use Rattle.trace_forms.specs.Names.{AreNames};
ghost use Rattle.trace_forms.specs.Ranges.{HasName, AreBounds, AllottedHasText, ArrivingHasText};
ghost use Rattle.trace_fields.specs.Cutting.{begins_no_name};

use crate::fields::{cut_at, next_field, next_signed};
use crate::lists::{bounds_in, cobounds_in};
use crate::names::NameTable;
use crate::span::coarray_of;
use crate::words::{RoundWord, round_word};
use caf_base::listing::Listing;
use caf_base::refusal::NoMemory;
use caf_base::short::Short;
use caf_events::round::{Allotted, Arriving};
use std::alloc::Global;

// Whether no coarray follows: what is left begins with the sign before a reply, or with a blank, or is empty.
fn is_at_end(rest: &[u8]) -> bool
    ensures { result ≡ begins_no_name rest.now }
{
    match rest {
        [first, ..] => *first == b'>' || *first == b' ',
        [] => true,
    }
}

// The bounds of an array behind their opening bracket, none where nothing stands there.
fn shape_of(alloc: Global, text: &[u8]) -> Result<Vec<(i64, i64)>, NoMemory>
    ensures { IfOk result (λ r. (dims : List (ℤ × ℤ)) → Each AreBounds dims → text.now ≡ drop 1 (shape_text dims)
        → r.items ≡ dims) }
{
    let (bounds, _) = cut_at(text, b')');
    bounds_in(alloc, bounds)
}

// A coarray that is allocated, by its field.
fn allotted_of(alloc: Global, names: &NameTable, field: &[u8]) -> Result<Allotted, NoMemory>
    requires { AreNames names.now }
    ensures { IfOk result (λ r. (allotted : Allotted) → AllottedHasText names.now allotted → 32 ∷ field.now
        ≡ allotted_text names.now allotted → r ≡ allotted) }
{
    let (front, cobounds) = cut_at(field, b'[');
    let (name, shape) = cut_at(front, b'(');
    let dims = shape_of(alloc, shape)?;
    let mut codims = Vec::new(alloc);
    let last = cobounds_in(&mut codims, cobounds)?;
    Ok(Allotted {
        coarray: coarray_of(names, name),
        dims: Short::from_slice(alloc, dims.as_slice())?,
        codims: Short::from_slice(alloc, codims.as_slice())?,
        last,
    })
}

// The coarrays that are allocated.
fn allotments_of(
    alloc: Global,
    names: &NameTable,
    rest: &mut &[u8],
) -> Result<Listing<Allotted>, NoMemory>
    requires { AreNames names.now }
    ensures { IfOk result (λ r. (list : List Allotted) (more : List ℕ) → Each (AllottedHasText names.now) list
        → 32 ∷ rest.old.now ≡ flat_map (allotted_text names.now) list ++ (32 ∷ (62 ∷ more))
        → (r ≡ list) × (rest.new.now ≡ 62 ∷ more)) }
{
    let mut list = Listing::new(alloc);
    let mut left = *rest;
    while !is_at_end(left) {
        list.push(allotted_of(alloc, names, next_field(&mut left))?)?;
    }
    *rest = left;
    Ok(list)
}

// The coarrays that are deallocated.
fn coarrays_of(alloc: Global, names: &NameTable, rest: &mut &[u8]) -> Result<Listing<u32>, NoMemory>
    requires { AreNames names.now }
    ensures { IfOk result (λ r. (list : List ℕ) (more : List ℕ) → Each (HasName names.now) list
        → 32 ∷ rest.old.now ≡ flat_map (spaced_name names.now) list ++ (32 ∷ (62 ∷ more))
        → (r ≡ list) × (rest.new.now ≡ 62 ∷ more)) }
{
    let mut list = Listing::new(alloc);
    let mut left = *rest;
    while !is_at_end(left) {
        list.push(coarray_of(names, next_field(&mut left)))?;
    }
    *rest = left;
    Ok(list)
}

/// What an image brings to a round.
pub fn next_arriving(
    alloc: Global,
    names: &NameTable,
    rest: &mut &[u8],
) -> Result<Arriving, NoMemory>
    requires { AreNames names.now }
    ensures { IfOk result (λ r. (arriving : Arriving) (more : List ℕ) → ArrivingHasText names.now arriving
        → 32 ∷ rest.old.now ≡ arriving_text names.now arriving ++ (32 ∷ (62 ∷ more))
        → (r ≡ arriving) × (rest.new.now ≡ 62 ∷ more)) }
{
    match round_word(next_field(rest)) {
        RoundWord::Sync => Ok(Arriving::Sync),
        RoundWord::Form => Ok(Arriving::Form {
            number: next_signed(rest),
            new_index: next_signed(rest),
        }),
        RoundWord::Change => Ok(Arriving::Change),
        RoundWord::End => Ok(Arriving::End),
        RoundWord::Allocate => Ok(Arriving::Allocate {
            list: allotments_of(alloc, names, rest)?,
        }),
        RoundWord::Deallocate => Ok(Arriving::Deallocate {
            list: coarrays_of(alloc, names, rest)?,
        }),
    }
}
