//! What an image brings to a round.

ghost use Rattle.std.specs.Prelude.{◌≡◌, ◌++◌, OnOk, codes, flat_map};
ghost use Rattle.trace_text.specs.TraceText.{further, bounds_text, shape_text, cobound_text, allotted_text, spaced_name, arriving_text};

use crate::piece::{push_bounds, push_coarray, push_name, push_text};
use caf_base::listing::Text;
use caf_base::refusal::NoMemory;
use caf_events::round::{Allotted, Arriving};
use caf_text::push_number;

fn push_further_bound(out: &mut Vec<u8>, bounds: (i64, i64)) -> Result<(), NoMemory>
    ensures { OnOk result (out.new.items ≡ out.old.items ++ further bounds_text bounds) }
{
    push_text(out, ",")?;
    push_bounds(out, bounds)
}

fn push_further_bounds(out: &mut Vec<u8>, dims: &[(i64, i64)]) -> Result<(), NoMemory>
    ensures { OnOk result (out.new.items ≡ out.old.items ++ flat_map (further bounds_text) dims.now) }
{
    for bounds in dims {
        push_further_bound(out, *bounds)?;
    }
    Ok(())
}

// Appends the bounds of an array in brackets, nothing of a scalar.
fn push_shape(out: &mut Vec<u8>, dims: &[(i64, i64)]) -> Result<(), NoMemory>
    ensures { OnOk result (out.new.items ≡ out.old.items ++ shape_text dims.now) }
{
    match dims.split_first() {
        None => Ok(()),
        Some((first, further)) => {
            push_text(out, "(")?;
            push_bounds(out, *first)?;
            push_further_bounds(out, further)?;
            push_text(out, ")")
        }
    }
}

fn push_cobound(out: &mut Vec<u8>, bounds: (i64, i64)) -> Result<(), NoMemory>
    ensures { OnOk result (out.new.items ≡ out.old.items ++ cobound_text bounds) }
{
    push_bounds(out, bounds)?;
    push_text(out, ",")
}

fn push_cobounds(out: &mut Vec<u8>, codims: &[(i64, i64)]) -> Result<(), NoMemory>
    ensures { OnOk result (out.new.items ≡ out.old.items ++ flat_map cobound_text codims.now) }
{
    for bounds in codims {
        push_cobound(out, *bounds)?;
    }
    Ok(())
}

// Appends a coarray that is allocated: its name, its bounds, its cobounds.
fn push_allotted(out: &mut Vec<u8>, names: &[Text], allotted: &Allotted) -> Result<(), NoMemory>
    ensures { OnOk result (out.new.items ≡ out.old.items ++ allotted_text names.now allotted.now) }
{
    push_text(out, " ")?;
    push_name(out, names, allotted.coarray)?;
    push_shape(out, allotted.dims.as_slice())?;
    push_text(out, "[")?;
    push_cobounds(out, allotted.codims.as_slice())?;
    push_number(out, allotted.last)?;
    push_text(out, ":*]")
}

fn push_allotments(out: &mut Vec<u8>, names: &[Text], list: &[Allotted]) -> Result<(), NoMemory>
    ensures { OnOk result (out.new.items ≡ out.old.items ++ flat_map (allotted_text names.now) list.now) }
{
    for allotted in list {
        push_allotted(out, names, allotted)?;
    }
    Ok(())
}

fn push_names(out: &mut Vec<u8>, names: &[Text], coarrays: &[u32]) -> Result<(), NoMemory>
    ensures { OnOk result (out.new.items ≡ out.old.items ++ flat_map (spaced_name names.now) coarrays.now) }
{
    for coarray in coarrays {
        push_coarray(out, names, *coarray)?;
    }
    Ok(())
}

/// Appends what an image brings to a round.
pub(crate) fn push_arriving(
    out: &mut Vec<u8>,
    names: &[Text],
    arriving: &Arriving,
) -> Result<(), NoMemory>
    ensures { OnOk result (out.new.items ≡ out.old.items ++ arriving_text names.now arriving.now) }
{
    match arriving {
        Arriving::Sync => push_text(out, " sync"),
        Arriving::Form { number, new_index } => {
            push_text(out, " form ")?;
            push_number(out, *number)?;
            push_text(out, " ")?;
            push_number(out, *new_index)
        }
        Arriving::Change => push_text(out, " change"),
        Arriving::End => push_text(out, " end"),
        Arriving::Allocate { list } => {
            push_text(out, " allocate")?;
            push_allotments(out, names, list.as_slice())
        }
        Arriving::Deallocate { list } => {
            push_text(out, " deallocate")?;
            push_names(out, names, list.as_slice())
        }
    }
}
