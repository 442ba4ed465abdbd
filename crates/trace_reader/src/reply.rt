//! Replies, by what their asks can be answered.

ghost use Rattle.std.specs.Prelude.{◌≡◌, ◌∷◌, [], List, IfOk};
ghost use Rattle.caf_events.specs.declared.reply.Reply.{Reply};
ghost use Rattle.caf_events.specs.declared.reply.FormedTeam.{FormedTeam};
ghost use Rattle.trace_theory.specs.Entries.{Each};
ghost use Rattle.trace_text.specs.TraceText.{joined, reply_text};
ghost use Rattle.trace_forms.specs.Ranges.{FormedHasText, ReplyHasText};
ghost use Rattle.trace_forms.specs.Replies.{HasForm};
ghost use Rattle.trace_reader.specs.Kinds.{kind_of, IsOfKind, word_by, formed_text};
ghost use Rattle.trace_reader.specs.declared.reply.ReplyKind.TheVariants as kinds;

use caf_base::listing::Listing;
use caf_base::place::{ImageNo, TeamNo};
use caf_base::refusal::NoMemory;
use caf_events::ask::Ask;
use caf_events::reply::{FormedTeam, Reply};
use std::alloc::Global;
use trace_fields::fields::cut_at;
use trace_fields::lists::{images_of, indices_of, value_of, values_of};
use trace_fields::numbers::{half_of, long_of, signed_half_of, signed_of};

/// What an ask can be answered, besides a word.
#[derive(Clone, Copy)]
pub(crate) enum ReplyKind {
    Word,
    Values,
    Old,
    Number,
    Count,
    Round,
    Indices,
    Taken,
    Left,
}

/// What the ask can be answered.
pub(crate) fn reply_kind(ask: &Ask) -> ReplyKind
    ensures { result ≡ kind_of ask.now }
{
    match ask {
        Ask::Read { .. } => ReplyKind::Values,
        Ask::Atomic { .. } => ReplyKind::Old,
        Ask::Lock { .. }
        | Ask::TryLock { .. }
        | Ask::Unlock { .. }
        | Ask::Post { .. }
        | Ask::Wait { .. }
        | Ask::Unpair
        | Ask::Enter { .. }
        | Ask::Status { .. } => ReplyKind::Number,
        Ask::Query { .. } => ReplyKind::Count,
        Ask::Arrive { .. } | Ask::Gather { .. } => ReplyKind::Round,
        Ask::Failed { .. } | Ask::Stopped { .. } => ReplyKind::Indices,
        Ask::Take { .. } => ReplyKind::Taken,
        Ask::Leave { .. } => ReplyKind::Left,
        _ => ReplyKind::Word,
    }
}

// The reply that is this word.
fn reply_word(text: &[u8]) -> Option<Reply>
    ensures { result ≡ word_by text.now }
{
    if text == b"ok".as_slice() {
        Some(Reply::Done)
    } else if text == b"dead".as_slice() {
        Some(Reply::Dead)
    } else if text == b"absent".as_slice() {
        Some(Reply::Absent)
    } else if text == b"overflow".as_slice() {
        Some(Reply::Overflow)
    } else if text == b"busy".as_slice() {
        Some(Reply::Busy)
    } else {
        None
    }
}

// The round that an arrival joined, or the arrival that it clashes with.
fn round_reply(text: &[u8]) -> Reply
    ensures { (reply : Reply) → ReplyHasText reply → IsOfKind kinds.Round reply → text.now ≡ reply_text reply
        → result ≡ reply }
{
    let (word, numbers) = cut_at(text, b' ');
    if word == b"round".as_slice() {
        return Reply::Round {
            round: long_of(numbers),
        };
    }
    let (image, line) = cut_at(numbers, b' ');
    Reply::Clash {
        image: ImageNo(half_of(image)),
        line: half_of(line),
    }
}

// A team that was formed, by its item.
fn formed_team(alloc: Global, item: &[u8]) -> Result<FormedTeam, NoMemory>
    ensures { IfOk result (λ r. (team : FormedTeam) → FormedHasText team → item.now ≡ formed_text team → r ≡ team) }
{
    let (team, further) = cut_at(item, b'/');
    let (number, images) = cut_at(further, b':');
    let members = images_of(alloc, images, b'.')?;
    Ok(FormedTeam {
        team: TeamNo(half_of(team)),
        number: signed_of(number),
        members,
    })
}

// The teams of a text with blanks between them.
fn teams_of(alloc: Global, text: &[u8]) -> Result<Vec<FormedTeam>, NoMemory>
    ensures { IfOk result (λ r. (teams : List FormedTeam) → Each FormedHasText teams
        → text.now ≡ joined (32 ∷ []) formed_text teams → r.items ≡ teams) }
{
    let mut teams = Vec::new(alloc);
    let mut rest = text;
    while !rest.is_empty() {
        let (item, behind) = cut_at(rest, b' ');
        let team = formed_team(alloc, item)?;
        teams.push(team)?;
        rest = behind;
    }
    Ok(teams)
}

// The status of a round, with the teams that it made behind their word.
fn left_reply(alloc: Global, text: &[u8]) -> Result<Reply, NoMemory>
    ensures { IfOk result (λ r. (reply : Reply) → ReplyHasText reply → IsOfKind kinds.Left reply → text.now
        ≡ reply_text reply → r ≡ reply) }
{
    let (status, further) = cut_at(text, b' ');
    let (_, items) = cut_at(further, b' ');
    let teams = teams_of(alloc, items)?;
    Ok(Reply::Left {
        status: signed_half_of(status),
        teams: Listing::from_vec(teams),
    })
}

// The status of a collective, with its values.
fn taken_reply(alloc: Global, text: &[u8]) -> Result<Reply, NoMemory>
    ensures { IfOk result (λ r. (reply : Reply) → ReplyHasText reply → IsOfKind kinds.Taken reply → text.now
        ≡ reply_text reply → r ≡ reply) }
{
    let (status, listed) = cut_at(text, b' ');
    let values = values_of(alloc, listed)?;
    Ok(Reply::Taken {
        status: signed_half_of(status),
        values,
    })
}

// The values of a read.
fn values_reply(alloc: Global, text: &[u8]) -> Result<Reply, NoMemory>
    ensures { IfOk result (λ r. (reply : Reply) → ReplyHasText reply → IsOfKind kinds.Values reply → text.now
        ≡ reply_text reply → r ≡ reply) }
{
    let values = values_of(alloc, text)?;
    Ok(Reply::Values { values })
}

// The indices of images that have failed or stopped.
fn indices_reply(alloc: Global, text: &[u8]) -> Result<Reply, NoMemory>
    ensures { IfOk result (λ r. (reply : Reply) → ReplyHasText reply → IsOfKind kinds.Indices reply → text.now
        ≡ reply_text reply → r ≡ reply) }
{
    let indices = indices_of(alloc, text)?;
    Ok(Reply::Indices { indices })
}

// The reply of this kind.
fn reply_of(alloc: Global, kind: ReplyKind, text: &[u8]) -> Result<Reply, NoMemory>
    ensures { IfOk result (λ r. (reply : Reply) → ReplyHasText reply → IsOfKind kind reply → text.now
        ≡ reply_text reply → r ≡ reply) }
{
    match kind {
        ReplyKind::Values => values_reply(alloc, text),
        ReplyKind::Old => Ok(Reply::Old {
            value: value_of(text),
        }),
        ReplyKind::Number => Ok(Reply::Number {
            status: signed_half_of(text),
        }),
        ReplyKind::Count => Ok(Reply::Count {
            count: long_of(text),
        }),
        ReplyKind::Round => Ok(round_reply(text)),
        ReplyKind::Indices => indices_reply(alloc, text),
        ReplyKind::Taken => taken_reply(alloc, text),
        ReplyKind::Left => left_reply(alloc, text),
        ReplyKind::Word => Ok(Reply::Done),
    }
}

/// The reply to an ask.
pub(crate) fn read_reply(alloc: Global, ask: &Ask, text: &[u8]) -> Result<Reply, NoMemory>
    ensures { IfOk result (λ r. (reply : Reply) → ReplyHasText reply → HasForm ask.now reply → text.now
        ≡ reply_text reply → r ≡ reply) }
{
    match reply_word(text) {
        Some(reply) => Ok(reply),
        None => reply_of(alloc, reply_kind(ask), text),
    }
}
