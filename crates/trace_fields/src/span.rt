//! The cells of an access, and the coarrays that an ask names.

ghost use Rattle.std.specs.Prelude.{◌≡◌, ◌++◌, ◌∷◌, ℕ, ℤ, List, IfOk, codes};
ghost use Rattle.caf_base.specs.declared.span.Span.{Span};
ghost use Rattle.trace_theory.specs.Entries.{Each};
ghost use Rattle.trace_text.specs.TraceText.{joined, name_text, span_text};
ghost use Rattle.trace_forms.specs.Names.{AreNames};
ghost use Rattle.trace_forms.specs.Ranges.{HasName, IsDimension, SpanHasText};
ghost use Rattle.trace_fields.specs.Cutting.{size_text};

use crate::fields::{cut_at, next_field};
use crate::names::NameTable;
use crate::numbers::{half_of, signed_half_of};
use caf_base::refusal::NoMemory;
use caf_base::span::{Dims, Span};
use std::alloc::Global;

/// The coarray that a field names.
pub(crate) fn coarray_of(names: &NameTable, field: &[u8]) -> u32
    requires { AreNames names.now }
    ensures { (coarray : ℕ) → HasName names.now coarray → field.now ≡ name_text names.now coarray → result ≡ coarray }
{
    names.number_of(field)
}

/// The coarray in the next field.
pub fn next_coarray(names: &NameTable, rest: &mut &[u8]) -> u32
    requires { AreNames names.now }
    ensures { (coarray : ℕ) (behind : List ℕ) → HasName names.now coarray → rest.old.now
        ≡ name_text names.now coarray ++ (32 ∷ behind) → (result ≡ coarray) × (rest.new.now ≡ behind) }
{
    coarray_of(names, next_field(rest))
}

// A dimension: how many cells, and how far apart.
fn dimension_of(item: &[u8]) -> (u32, i32)
    ensures { (dim : ℕ × ℤ) → IsDimension dim → item.now ≡ size_text dim → result ≡ dim }
{
    let (count, step) = cut_at(item, b'*');
    (half_of(count), signed_half_of(step))
}

// The dimensions of a field.
fn dimensions_of(alloc: Global, field: &[u8]) -> Result<Vec<(u32, i32)>, NoMemory>
    ensures { IfOk result (λ r. (dims : List (ℕ × ℤ)) → Each IsDimension dims → field.now
        ≡ joined (codes ":") size_text dims → r.items ≡ dims) }
{
    let mut dims = Vec::new(alloc);
    let mut rest = field;
    while !rest.is_empty() {
        let (item, behind) = cut_at(rest, b':');
        dims.push(dimension_of(item))?;
        rest = behind;
    }
    Ok(dims)
}

// The cells that a field writes.
fn span_of(alloc: Global, names: &NameTable, field: &[u8]) -> Result<Span, NoMemory>
    requires { AreNames names.now }
    ensures { IfOk result (λ r. (span : Span) → SpanHasText names.now span → field.now
        ≡ span_text names.now span → r ≡ span) }
{
    let (name, places) = cut_at(field, b':');
    let (start, further) = cut_at(places, b':');
    let dims = dimensions_of(alloc, further)?;
    Ok(Span {
        coarray: coarray_of(names, name),
        start: half_of(start),
        dims: Dims::from_slice(alloc, dims.as_slice())?,
    })
}

/// The cells in the next field.
pub fn next_span(alloc: Global, names: &NameTable, rest: &mut &[u8]) -> Result<Span, NoMemory>
    requires { AreNames names.now }
    ensures { IfOk result (λ r. (span : Span) (behind : List ℕ) → SpanHasText names.now span → rest.old.now
        ≡ span_text names.now span ++ (32 ∷ behind) → (r ≡ span) × (rest.new.now ≡ behind)) }
{
    span_of(alloc, names, next_field(rest))
}
