//! Accesses: the image that is accessed stands on top, and beneath it the place of the cells (ISO/IEC 1539-1:2018,
//! 9.6).

ghost use Rattle.std.specs.Prelude.{◌≡◌, ◌<◌, ◌≤◌, ◌+◌, drop, length, map, min, replicate, IfOk};
ghost use Rattle.caf_base.specs.Arithmetic.{value_of};
ghost use Rattle.image_acts.specs.Core.{with_array};
ghost use Rattle.image_acts.specs.Places.{place_in, place_size, extents_of, cells_of};
ghost use Rattle.image_acts.specs.Replies.{spare};
ghost use Rattle.image_acts.specs.Operate.Asking as asking;
ghost use Rattle.array_values.specs.Extents.{listed};
ghost use Rattle.image_code.specs.declared.step.AskStep.TheVariants as asked;
ghost use Rattle.image_state.specs.Acting.{with_core};
ghost use Rattle.image_state.specs.Places.{place_at};
ghost use Rattle.image_asks.specs.Asking.{ask_here, ComesTo, IsAsking, IsAsked, GoesOnWith};
ghost use Rattle.image_asks.specs.Heard.{values_heard};
ghost use Rattle.image_asks.specs.Operands.{number_beneath};

use crate::asks::Asking;
use crate::operands::{image_at, number, numbers};
use crate::replies::{push_status, put_status};
use crate::values::{repeated, value_of, values_of};
use array_places::place::cells_in;
use array_values::extents::{Extents, extents_of};
use caf_base::few::Few;
use caf_base::refusal::NoMemory;
use caf_base::span::Span;
use caf_base::value::{Kind, Value};
use caf_events::ask::Ask;
use caf_events::reply::Reply;
use coarray_tables::asks::span;
use image_state::state::ImageState;

/// The numbers of the place beneath the image.
fn place(image: &ImageState, rank: u32) -> &[i64]
    requires { place_size rank + 1 ≤ length image.now.core.values }
    ensures { result.now ≡ place_at 1 rank image.now.core.values }
{
    numbers(image, 1, 2 * rank as usize + 1)
}

/// The cells of an access.
#[tactic(auto, using(image_state::proofs::BoundsLaws::place_short))]
fn cells(image: &ImageState, coarray: u32, rank: u32) -> Result<Span, NoMemory>
    requires rank { rank ≤ 3 }
    requires there { place_size rank + 1 ≤ length image.now.core.values }
    ensures { IfOk result (λ s. s ≡ asking.span_of coarray (place_in (place_at 1 rank image.now.core.values))) }
{
    span(image.alloc(), coarray, place(image, rank))
}

/// A read.
#[tactic(auto, using(crate::proofs::AccessAsks::read_there, crate::proofs::AccessAsks::read_asked))]
pub(crate) fn read(image: &ImageState, coarray: u32, rank: u32) -> Result<Ask, NoMemory>
    requires rank { rank ≤ 3 }
    requires asks { IsAsking (ask_here image.now (asked.Read coarray rank)) }
    ensures { IfOk result (λ a. IsAsked (ask_here image.now (asked.Read coarray rank)) a) }
{
    let span = cells(image, coarray, rank)?;
    Ok(Ask::Read {
        owner: image_at(image, 0),
        span,
    })
}

/// How many numbers a place is.
fn place_size(rank: u32) -> u32
    requires { rank ≤ 3 }
    ensures { result ≡ place_size rank }
{
    1 + 2 * rank
}

/// The number beneath the place for each of its cells. So many that they can't be counted find no memory.
fn repeated_number(image: &ImageState, rank: u32, kind: Kind) -> Result<Few<Value>, NoMemory>
    requires rank { rank ≤ 3 }
    requires there { place_size rank + 1 ≤ length image.now.core.values }
    ensures { IfOk result (λ l. l ≡ replicate (cells_of (place_in (place_at 1 rank image.now.core.values))) (value_of kind (number_beneath (place_size rank + 1) image.now.core.values))) }
{
    let count = cells_in(place(image, rank));
    if count == u64::MAX {
        return Err(NoMemory);
    }
    let value = value_of(kind, &number(image, place_size(rank) + 1));
    repeated(image.alloc(), value, count)
}

/// A write of one number to each cell.
#[tactic(auto, using(crate::proofs::AccessAsks::write_there, crate::proofs::AccessAsks::write_asked))]
pub(crate) fn write(
    image: &ImageState,
    coarray: u32,
    rank: u32,
    kind: Kind,
) -> Result<Ask, NoMemory>
    requires rank { rank ≤ 3 }
    requires asks { IsAsking (ask_here image.now (asked.Write coarray rank kind)) }
    ensures { IfOk result (λ a. IsAsked (ask_here image.now (asked.Write coarray rank kind)) a) }
{
    let values = repeated_number(image, rank, kind)?;
    let span = cells(image, coarray, rank)?;
    Ok(Ask::Write {
        owner: image_at(image, 0),
        span,
        values,
    })
}

/// Whether there is an array value to be written.
#[tactic(auto, using(crate::proofs::AccessAsks::row_asks, crate::proofs::AccessAsks::row_without))]
pub(crate) fn row_comes(image: &ImageState, coarray: u32, rank: u32, kind: Kind) -> Asking
    requires { place_size rank + 1 ≤ length image.now.core.values }
    ensures { ComesTo (ask_here image.now (asked.WriteArray coarray rank kind)) result }
{
    if image.has_arrays(1) {
        Asking::Asks
    } else {
        Asking::Stuck
    }
}

/// A write of the elements of the top array value.
#[tactic(auto, using(crate::proofs::AccessAsks::row_there, crate::proofs::AccessAsks::row_asked))]
pub(crate) fn write_row(
    image: &ImageState,
    coarray: u32,
    rank: u32,
    kind: Kind,
) -> Result<Ask, NoMemory>
    requires rank { rank ≤ 3 }
    requires asks { IsAsking (ask_here image.now (asked.WriteArray coarray rank kind)) }
    ensures { IfOk result (λ a. IsAsked (ask_here image.now (asked.WriteArray coarray rank kind)) a) }
{
    let values = values_of(image.alloc(), kind, image.elements())?;
    let span = cells(image, coarray, rank)?;
    Ok(Ask::Write {
        owner: image_at(image, 0),
        span,
        values,
    })
}

/// Puts down the values of a read of so many cells, zeros where the memory is marked.
fn put_values(image: &mut ImageState, extents: Extents, cells: u64, reply: &Reply)
    requires { length image.old.core.arrays < image.old.rooms.arrays }
    ensures { image.new ≡ with_core image.old (with_array (record { extents = listed extents; elements = values_heard (spare image.old.core) cells reply.now }) image.old.core) }
{
    match reply {
        Reply::Values { values } => image.hear_values(extents, values.as_slice()),
        _ => image.hear_zeros(extents, cells),
    }
}

/// Goes on after a read: its values stand in the place of the image and the place, and its status on top.
#[tactic(auto, using(crate::proofs::AccessAsks::read_there, crate::proofs::ReplyLaws::room_left, image_state::proofs::BoundsLaws::place_short))]
pub(crate) fn hear_read(image: &mut ImageState, coarray: u32, rank: u32, reply: &Reply)
    requires rank { rank ≤ 3 }
    requires asks { IsAsking (ask_here image.old (asked.Read coarray rank)) }
    requires room { length image.old.core.values < image.old.rooms.numbers }
    requires place { length image.old.core.arrays < image.old.rooms.arrays }
    ensures { GoesOnWith image.old (ask_here image.old (asked.Read coarray rank)) reply.now image.new }
{
    let place = place(image, rank);
    let extents = extents_of(place);
    let cells = cells_in(place);
    image.drop_top(2 * rank as usize + 2);
    put_values(image, extents, cells, reply);
    push_status(image, reply);
}

/// Goes on after a write of one number.
#[tactic(auto, using(crate::proofs::AccessAsks::write_there, crate::proofs::AccessAsks::write_heard))]
pub(crate) fn hear_write(image: &mut ImageState, coarray: u32, rank: u32, kind: Kind, reply: &Reply)
    requires asks { IsAsking (ask_here image.old (asked.Write coarray rank kind)) }
    requires room { length image.old.core.values < image.old.rooms.numbers }
    ensures { GoesOnWith image.old (ask_here image.old (asked.Write coarray rank kind)) reply.now image.new }
{
    put_status(image, 2 * rank as usize + 3, reply);
}

/// Goes on after a write of an array value.
#[tactic(auto, using(crate::proofs::AccessAsks::row_there, crate::proofs::AccessAsks::row_array_there, crate::proofs::AccessAsks::row_heard))]
pub(crate) fn hear_row(image: &mut ImageState, coarray: u32, rank: u32, kind: Kind, reply: &Reply)
    requires asks { IsAsking (ask_here image.old (asked.WriteArray coarray rank kind)) }
    requires room { length image.old.core.values < image.old.rooms.numbers }
    ensures { GoesOnWith image.old (ask_here image.old (asked.WriteArray coarray rank kind)) reply.now image.new }
{
    image.drop_top_array();
    put_status(image, 2 * rank as usize + 2, reply);
}
