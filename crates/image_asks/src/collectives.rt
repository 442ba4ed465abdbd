//! Collective subroutines (ISO/IEC 1539-1:2018, 16.6): the arrival with values, and the result.

ghost use Rattle.std.specs.Prelude.{◌≡◌, ◌<◌, ◌≤◌, pos, map, take, length, IfOk};
ghost use Rattle.caf_base.specs.Arithmetic.{number_of};
ghost use Rattle.image_acts.specs.Core.{with_array, row};
ghost use Rattle.image_acts.specs.Replies as replies;
ghost use Rattle.image_acts.specs.Replies.{spare};
ghost use Rattle.image_acts.specs.Teams.{current_team};
ghost use Rattle.image_code.specs.declared.step.AskStep.TheVariants as asked;
ghost use Rattle.image_state.specs.Acting.{with_core};
ghost use Rattle.image_asks.specs.Asking.{ask_here, ComesTo, IsAsking, IsAsked, GoesOnWith};
ghost use Rattle.image_asks.specs.Operands as operands;

use crate::asks::Asking;
use crate::operands::number;
use crate::replies::{join, push_status};
use crate::values::values_of;
use array_values::extents::Extents;
use caf_base::place::TeamNo;
use caf_base::refusal::NoMemory;
use caf_base::value::{Kind, Value};
use caf_events::ask::Ask;
use caf_events::reply::Reply;
use caf_events::round::GatherOp;
use coarray_tables::asks::word;
use image_state::state::ImageState;

/// The current team.
fn this_team(image: &ImageState) -> TeamNo
    ensures { result ≡ operands.team_of (pos (current_team image.now.core)) }
{
    TeamNo(word(&image.teams().this_team()))
}

/// Whether there are values to arrive with.
#[tactic(auto, using(crate::proofs::CollectiveAsks::gather_asks, crate::proofs::CollectiveAsks::gather_without))]
pub(crate) fn gather_comes(image: &ImageState, op: GatherOp, kind: Kind) -> Asking
    requires { 1 ≤ length image.now.core.values }
    ensures { ComesTo (ask_here image.now (asked.Gather op kind)) result }
{
    if image.has_arrays(1) {
        Asking::Asks
    } else {
        Asking::Stuck
    }
}

/// The arrival, by the root's index with the values of the top array.
#[tactic(auto, using(crate::proofs::CollectiveAsks::gather_asked))]
pub(crate) fn gather(image: &ImageState, op: GatherOp, kind: Kind) -> Result<Ask, NoMemory>
    requires { IsAsking (ask_here image.now (asked.Gather op kind)) }
    ensures { IfOk result (λ a. IsAsked (ask_here image.now (asked.Gather op kind)) a) }
{
    let values = values_of(image.alloc(), kind, image.elements())?;
    Ok(Ask::Gather {
        team: this_team(image),
        op,
        root: word(&number(image, 0)),
        kind,
        values,
    })
}

/// Goes on after the arrival.
#[tactic(auto, using(crate::proofs::CollectiveAsks::gather_there, crate::proofs::CollectiveAsks::gather_array_there, crate::proofs::CollectiveAsks::gather_told))]
pub(crate) fn hear_gather(image: &mut ImageState, op: GatherOp, kind: Kind, reply: &Reply)
    requires { IsAsking (ask_here image.old (asked.Gather op kind)) }
    ensures { GoesOnWith image.old (ask_here image.old (asked.Gather op kind)) reply.now image.new }
{
    image.drop_top_array();
    join(image, 1, reply);
}

/// Whether there is a round whose result can be taken.
#[tactic(auto, using(crate::proofs::CollectiveAsks::take_asks, crate::proofs::CollectiveAsks::take_missing))]
pub(crate) fn take_comes(image: &ImageState) -> Asking
    ensures { ComesTo (ask_here image.now asked.Take) result }
{
    match image.round() {
        None => Asking::Stuck,
        Some(_) => Asking::Asks,
    }
}

/// The departure.
#[tactic(auto, using(crate::proofs::CollectiveAsks::take_there, crate::proofs::CollectiveAsks::take_asked))]
pub(crate) fn take(image: &ImageState) -> Ask
    requires { IsAsking (ask_here image.now asked.Take) }
    ensures { IsAsked (ask_here image.now asked.Take) result }
{
    match image.round() {
        None => unreachable!(),
        Some(round) => Ask::Take {
            team: this_team(image),
            round,
        },
    }
}

/// Goes on after it: the values, and on top the status.
#[tactic(auto, using(crate::proofs::CollectiveAsks::take_heard, crate::proofs::ReplyLaws::array_put))]
pub(crate) fn hear_take(image: &mut ImageState, reply: &Reply)
    requires asks { IsAsking (ask_here image.old asked.Take) }
    requires room { length image.old.core.values < image.old.rooms.numbers }
    requires place { length image.old.core.arrays < image.old.rooms.arrays }
    ensures { GoesOnWith image.old (ask_here image.old asked.Take) reply.now image.new }
{
    put_taken(image, reply);
    push_status(image, reply);
}

/// Puts down the values of a collective, as an array value of rank one.
fn put_taken(image: &mut ImageState, reply: &Reply)
    requires { length image.old.core.arrays < image.old.rooms.arrays }
    ensures { image.new ≡ with_core image.old (with_array (row (replies.taken_in (spare image.old.core) reply.now) (length (replies.taken_in (spare image.old.core) reply.now))) image.old.core) }
{
    match reply {
        Reply::Taken { values, .. } => put_row(image, values.as_slice()),
        _ => put_row(image, &[]),
    }
}

/// Puts down values as an array value of rank one, as far as there is room.
#[tactic(auto, using(crate::proofs::ReplyLaws::row_put))]
fn put_row(image: &mut ImageState, values: &[Value])
    requires { length image.old.core.arrays < image.old.rooms.arrays }
    ensures { image.new ≡ with_core image.old (with_array (row (take (spare image.old.core) (map number_of values.now)) (length (take (spare image.old.core) (map number_of values.now)))) image.old.core) }
{
    let count = values.len().min(image.spare());
    image.hear_values(Extents::One(count as i64), values);
}
