//! The cells that an entry touches, and what it does there.

ghost use Rattle.std.specs.Prelude.{◌≡◌, ◌<◌, ◌≤◌, IfOk};
ghost use Rattle.std.specs.List.{range_with_len};
ghost use Rattle.caf_base.specs.Spans.{IsSpan};
ghost use Rattle.order_axioms.specs.Touching.{has_reached, reached, class_by, cells_by, first_cells};
ghost use Rattle.order_theory.specs.Races.{makes};
ghost use Rattle.race_watch.specs.Classes.{as_class};
ghost use Rattle.race_watch.specs.Touched.{TouchedBy, FitsMemory, MadeIs};

use crate::class::Class;
use caf_base::place::ImageNo;
use caf_base::refusal::NoMemory;
use caf_base::span::Span;
use caf_events::ask::Ask;
use caf_events::event::Entry;
use caf_events::reply::Reply;
use coarray_types::section::section_cells;
use std::alloc::Global;

/// Cells of a coarray in the memory of its owner, by their offsets, and what is done to them.
#[derive(Drop)]
pub struct Touch {
    pub owner: ImageNo,
    pub coarray: u32,
    pub class: Class,
    pub cells: Vec<u32>,
}

// Whether the ask has reached its cells.
fn is_reached(reply: &Reply) -> bool
    ensures { result ≡ has_reached reply.now }
{
    match reply {
        Reply::Dead | Reply::Absent => false,
        Reply::Number { status } => *status != 6001,
        _ => true,
    }
}

// What an ask of this class touches of a span.
fn reaches(
    alloc: Global,
    _n: u32,
    owner: ImageNo,
    span: &Span,
    class: Class,
    reply: &Reply,
) -> Result<Option<Touch>, NoMemory>
    requires { (0 < owner.0) × (owner.0 ≤ _n) × IsSpan span.now }
    ensures { IfOk result (TouchedBy _n (as_class class) (reached owner.0 span.now reply.now)) }
{
    if !is_reached(reply) {
        return Ok(None);
    }
    Ok(Some(Touch {
        owner,
        coarray: span.coarray,
        class,
        cells: section_cells(alloc, span)?,
    }))
}

// The numbers below this one.
fn first_numbers(alloc: Global, many: u32) -> Result<Vec<u32>, NoMemory>
    ensures { IfOk result (λ v. v.items ≡ range_with_len 0 many) }
{
    let mut numbers = Vec::new(alloc);
    for number in 0..many {
        numbers.push(number)?;
    }
    Ok(numbers)
}

// The first so many cells, which an allocation or deallocation touches.
fn makes(
    alloc: Global,
    _n: u32,
    owner: ImageNo,
    coarray: u32,
    many: u32,
) -> Result<Option<Touch>, NoMemory>
    requires { (0 < owner.0) × (owner.0 ≤ _n) }
    ensures { IfOk result (TouchedBy _n makes (first_cells owner.0 coarray many)) }
{
    Ok(Some(Touch {
        owner,
        coarray,
        class: Class::Makes,
        cells: first_numbers(alloc, many)?,
    }))
}

/// What an ask with its reply touches after these entries of a run of n images; `made` is the number of cells that the
/// coarray of a deallocation has.
#[inline(always)]
pub fn touch_by(
    alloc: Global,
    n: u32,
    _before: &[Entry],
    ask: &Ask,
    reply: &Reply,
    made: u32,
) -> Result<Option<Touch>, NoMemory>
    requires memory { FitsMemory n ask.now }
    requires made { MadeIs _before.now ask.now made }
    ensures { IfOk result (TouchedBy n (class_by ask.now) (cells_by _before.now ask.now reply.now)) }
{
    match ask {
        Ask::Read { owner, span } => reaches(alloc, n, *owner, span, Class::Reads, reply),
        Ask::Write { owner, span, .. } => reaches(alloc, n, *owner, span, Class::Writes, reply),
        Ask::Atomic {
            owner,
            op,
            span,
            ..
        } => { reaches(alloc, n, *owner, span, Class::of_atomic(*op), reply) }
        Ask::Create {
            owner,
            coarray,
            cells,
        } => makes(alloc, n, *owner, *coarray, *cells),
        Ask::Delete { owner, coarray } => makes(alloc, n, *owner, *coarray, made),
        Ask::Lock { owner, span }
        | Ask::TryLock { owner, span }
        | Ask::Unlock { owner, span }
        | Ask::Post { owner, span }
        | Ask::Wait { owner, span, .. }
        | Ask::Query { owner, span }
        | Ask::Free { owner, span } => reaches(alloc, n, *owner, span, Class::Signals, reply),
        _ => Ok(None),
    }
}
