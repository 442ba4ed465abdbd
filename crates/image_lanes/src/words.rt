//! The recorded words of a step, in a number that holds them whatever the reply is.

ghost use Rattle.std.specs.Prelude.{◌≡◌, ◌<◌, ◌≤◌, ◌+◌, ◌^◌, length, sum_by};
ghost use Rattle.caf_events.specs.Events.{counts_words, ask_words, reply_words, words_by};

use caf_events::ask::Ask;
use caf_events::reply::{FormedTeam, Reply};

/// Whether a step of this ask records words: limits and the steps of a failure record none.
pub(crate) fn is_recorded(ask: &Ask) -> bool
    ensures { result ≡ counts_words ask.now }
{
    !matches!(
        ask,
        Ask::Mark { .. }
            | Ask::Free { .. }
            | Ask::Gone
            | Ask::Fail
            | Ask::LimitStatements { .. }
            | Ask::LimitWords { .. }
            | Ask::LimitStamp { .. }
    )
}

/// The recorded words of a step of this ask with this reply: none for limits and the steps of a failure, else four and
/// those of the ask and the reply.
pub(crate) fn words_of(ask: &Ask, reply: &Reply) -> u128
    ensures is { result ≡ words_by ask.now reply.now }
    ensures few { result + 2 ^ 32 < 2 ^ 128 }
{
    if is_recorded(ask) {
        4 + ask_words_of(ask) + reply_words_of(reply)
    } else {
        0
    }
}

// The words of an ask: its cell values, the images that it names, its printed bytes by eights.
fn ask_words_of(ask: &Ask) -> u128
    ensures is { result ≡ ask_words ask.now }
    ensures few { result < 2 ^ 64 }
{
    match ask {
        Ask::Write { values, .. } | Ask::Gather { values, .. } => values.len() as u128,
        Ask::Atomic { .. } => 2,
        Ask::Pair { images } => images.len() as u128,
        Ask::Print { text } => text.len().div_ceil(8) as u128,
        _ => 0,
    }
}

// The words of a reply: its cell values, its indices, the members of the teams that it names.
fn reply_words_of(reply: &Reply) -> u128
    ensures is { result ≡ reply_words reply.now }
    ensures few { result + 2 ^ 65 ≤ 2 ^ 128 + 1 }
{
    match reply {
        Reply::Values { values } | Reply::Taken { values, .. } => values.len() as u128,
        Reply::Old { .. } => 1,
        Reply::Indices { indices } => indices.len() as u128,
        Reply::Left { teams, .. } => members_of(teams.as_slice()),
        _ => 0,
    }
}

// How many members the teams have together: a slice has below 2^64 items, and so has each list of members.
fn members_of(teams: &[FormedTeam]) -> u128
    ensures is { result ≡ sum_by (λ t. length t.members) teams.now }
    ensures few { result + 2 ^ 65 ≤ 2 ^ 128 + 1 }
{
    let mut members = 0u128;
    for team in teams {
        members += team.members.len() as u128;
    }
    members
}
