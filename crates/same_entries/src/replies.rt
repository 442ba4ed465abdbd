//! Whether two replies are the same: a function for each variant, and one for all of them.

ghost use Rattle.std.specs.Prelude.{◌≡◌, Decides};
ghost use Rattle.caf_events.specs.declared.reply.Reply.TheVariants as replies;

use crate::parts::{same_numbers, same_team, same_value, same_values};
use caf_base::place::ImageNo;
use caf_base::value::Value;
use caf_events::reply::{FormedTeam, Reply};

fn same_teams(a: &[FormedTeam], b: &[FormedTeam]) -> bool
    ensures { Decides result (a.now ≡ b.now) }
{
    if a.len() != b.len() {
        return false;
    }
    for k in 0..a.len() {
        if !same_team(&a[k], &b[k]) {
            return false;
        }
    }
    true
}

fn is_done(reply: &Reply) -> bool
    ensures { Decides result (reply.now ≡ replies.Done) }
{
    match reply {
        Reply::Done => true,
        _ => false,
    }
}

fn is_dead(reply: &Reply) -> bool
    ensures { Decides result (reply.now ≡ replies.Dead) }
{
    match reply {
        Reply::Dead => true,
        _ => false,
    }
}

fn is_absent(reply: &Reply) -> bool
    ensures { Decides result (reply.now ≡ replies.Absent) }
{
    match reply {
        Reply::Absent => true,
        _ => false,
    }
}

fn is_overflow(reply: &Reply) -> bool
    ensures { Decides result (reply.now ≡ replies.Overflow) }
{
    match reply {
        Reply::Overflow => true,
        _ => false,
    }
}

fn is_busy(reply: &Reply) -> bool
    ensures { Decides result (reply.now ≡ replies.Busy) }
{
    match reply {
        Reply::Busy => true,
        _ => false,
    }
}

fn is_values(reply: &Reply, values: &[Value]) -> bool
    ensures { Decides result (reply.now ≡ replies.Values values.now) }
{
    match reply {
        Reply::Values { values: the_values } => same_values(the_values.as_slice(), values),
        _ => false,
    }
}

fn is_old(reply: &Reply, value: Value) -> bool
    ensures { Decides result (reply.now ≡ replies.Old value) }
{
    match reply {
        Reply::Old { value: the_value } => same_value(*the_value, value),
        _ => false,
    }
}

fn is_number(reply: &Reply, status: i32) -> bool
    ensures { Decides result (reply.now ≡ replies.Number status) }
{
    match reply {
        Reply::Number { status: the_status } => *the_status == status,
        _ => false,
    }
}

fn is_count(reply: &Reply, count: u64) -> bool
    ensures { Decides result (reply.now ≡ replies.Count count) }
{
    match reply {
        Reply::Count { count: the_count } => *the_count == count,
        _ => false,
    }
}

fn is_round(reply: &Reply, round: u64) -> bool
    ensures { Decides result (reply.now ≡ replies.Round round) }
{
    match reply {
        Reply::Round { round: the_round } => *the_round == round,
        _ => false,
    }
}

fn is_clash(reply: &Reply, image: ImageNo, line: u32) -> bool
    ensures { Decides result (reply.now ≡ replies.Clash image line) }
{
    match reply {
        Reply::Clash {
            image: the_image,
            line: the_line,
        } => the_image.0 == image.0 && *the_line == line,
        _ => false,
    }
}

fn is_indices(reply: &Reply, indices: &[u32]) -> bool
    ensures { Decides result (reply.now ≡ replies.Indices indices.now) }
{
    match reply {
        Reply::Indices {
            indices: the_indices,
        } => same_numbers(the_indices.as_slice(), indices),
        _ => false,
    }
}

fn is_taken(reply: &Reply, status: i32, values: &[Value]) -> bool
    ensures { Decides result (reply.now ≡ replies.Taken status values.now) }
{
    match reply {
        Reply::Taken {
            status: the_status,
            values: the_values,
        } => *the_status == status && same_values(the_values.as_slice(), values),
        _ => false,
    }
}

fn is_left(reply: &Reply, status: i32, teams: &[FormedTeam]) -> bool
    ensures { Decides result (reply.now ≡ replies.Left status teams.now) }
{
    match reply {
        Reply::Left {
            status: the_status,
            teams: the_teams,
        } => *the_status == status && same_teams(the_teams.as_slice(), teams),
        _ => false,
    }
}

/// Whether two replies are the same, in every part.
pub fn same_reply(a: &Reply, b: &Reply) -> bool
    ensures { Decides result (a.now ≡ b.now) }
{
    match b {
        Reply::Done => is_done(a),
        Reply::Dead => is_dead(a),
        Reply::Absent => is_absent(a),
        Reply::Overflow => is_overflow(a),
        Reply::Busy => is_busy(a),
        Reply::Values { values } => is_values(a, values.as_slice()),
        Reply::Old { value } => is_old(a, *value),
        Reply::Number { status } => is_number(a, *status),
        Reply::Count { count } => is_count(a, *count),
        Reply::Round { round } => is_round(a, *round),
        Reply::Clash { image, line } => is_clash(a, *image, *line),
        Reply::Indices { indices } => is_indices(a, indices.as_slice()),
        Reply::Taken { status, values } => is_taken(a, *status, values.as_slice()),
        Reply::Left { status, teams } => is_left(a, *status, teams.as_slice()),
    }
}
