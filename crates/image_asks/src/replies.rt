//! What is heard of replies.

ghost use Rattle.std.specs.Prelude.{◌≡◌, ◌<◌, ◌≤◌, drop, length};
ghost use Rattle.image_acts.specs.Core.{Core, with_values};
ghost use Rattle.image_acts.specs.Replies as replies;
ghost use Rattle.image_state.specs.Acting.{with_core};

use crate::values::number_of;
use caf_events::reply::Reply;
use image_state::state::ImageState;
use number_operators::operators::truth;

/// The status in a reply.
pub(crate) fn status_of(reply: &Reply) -> i64
    ensures { result ≡ replies.status_of reply.now }
{
    match reply {
        Reply::Dead => 6001,
        Reply::Absent => -1,
        Reply::Overflow => -2,
        Reply::Number { status } | Reply::Left { status, .. } | Reply::Taken { status, .. } => {
            i64::from(*status)
        }
        Reply::Done
        | Reply::Busy
        | Reply::Values { .. }
        | Reply::Old { .. }
        | Reply::Count { .. }
        | Reply::Round { .. }
        | Reply::Clash { .. }
        | Reply::Indices { .. } => 0,
    }
}

/// The value that an atomic action found.
pub(crate) fn old_in(reply: &Reply) -> i64
    ensures { result ≡ replies.old_in reply.now }
{
    match reply {
        Reply::Old { value } => number_of(*value),
        _ => 0,
    }
}

/// Whether a lock was acquired (ISO/IEC 1539-1:2018, 11.6.10).
pub(crate) fn acquired_in(reply: &Reply) -> i64
    ensures { result ≡ replies.acquired_in reply.now }
{
    match reply {
        Reply::Number { status } => truth(*status == 0 || *status == 6002),
        _ => 0,
    }
}

/// The greatest number of the stack.
const GREATEST: u64 = 9_223_372_036_854_775_807;

/// The count of an event variable.
pub(crate) fn count_in(reply: &Reply) -> i64
    ensures { result ≡ replies.count_in reply.now }
{
    match reply {
        Reply::Count { count } => (*count).min(GREATEST) as i64,
        _ => 0,
    }
}

/// The round that an arrival joined, none where it clashed.
pub(crate) fn round_in(reply: &Reply) -> Option<u64>
    ensures { (c : Core) → result ≡ (replies.arrival_reply c reply.now).round }
{
    match reply {
        Reply::Round { round } => Some(*round),
        _ => None,
    }
}

/// Puts the status in a reply on top.
pub(crate) fn push_status(image: &mut ImageState, reply: &Reply)
    requires { length image.old.core.values < image.old.rooms.numbers }
    ensures { image.new ≡ with_core image.old (replies.with_status reply.now image.old.core) }
{
    image.push(status_of(reply));
}

/// Puts the status in a reply in the place of the n numbers on top.
#[tactic(auto, using(crate::proofs::ReplyLaws::status_put, crate::proofs::ReplyLaws::room_left))]
pub(crate) fn put_status(image: &mut ImageState, n: usize, reply: &Reply)
    requires there { n ≤ length image.old.core.values }
    requires room { length image.old.core.values < image.old.rooms.numbers }
    ensures { image.new ≡ with_core image.old (replies.with_status reply.now (with_values image.old.core (drop n image.old.core.values))) }
{
    image.drop_top(n);
    push_status(image, reply);
}

/// Drops so many numbers of an arrival and notes the round that it joined.
#[tactic(auto, using(crate::proofs::TeamAsks::joined_behind))]
pub(crate) fn join(image: &mut ImageState, n: usize, reply: &Reply)
    requires { n ≤ length image.old.core.values }
    ensures { image.new ≡ with_core image.old (replies.arrival_reply (with_values image.old.core (drop n image.old.core.values)) reply.now) }
{
    let round = round_in(reply);
    image.drop_top(n);
    image.note_round(round);
}
