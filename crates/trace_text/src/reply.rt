//! The text of a reply.

ghost use Rattle.std.specs.Prelude.{◌≡◌, ◌++◌, OnOk, codes, flat_map, pos};
ghost use Rattle.std.specs.Ordering.{int_eq};
ghost use Rattle.caf_text.specs.Numbers.{decimal_text};
ghost use Rattle.trace_text.specs.TraceText.{further, number_text, team_text, teams_text, indices_text, taken_values, reply_text};

use crate::piece::{push_count, push_images, push_spaced, push_text, push_value, push_values};
use caf_base::refusal::NoMemory;
use caf_base::value::Value;
use caf_events::reply::{FormedTeam, Reply};
use caf_text::push_number;

// Appends a team that was formed: its number in the run, its team number and its members.
fn push_team(out: &mut Vec<u8>, team: &FormedTeam) -> Result<(), NoMemory>
    ensures { OnOk result (out.new.items ≡ out.old.items ++ team_text team.now) }
{
    push_spaced(out, u64::from(team.team.0))?;
    push_text(out, "/")?;
    push_number(out, team.number)?;
    push_text(out, ":")?;
    push_images(out, ".", team.members.as_slice())
}

fn push_each_team(out: &mut Vec<u8>, teams: &[FormedTeam]) -> Result<(), NoMemory>
    ensures { OnOk result (out.new.items ≡ out.old.items ++ flat_map team_text teams.now) }
{
    for team in teams {
        push_team(out, team)?;
    }
    Ok(())
}

fn push_teams(out: &mut Vec<u8>, teams: &[FormedTeam]) -> Result<(), NoMemory>
    ensures { OnOk result (out.new.items ≡ out.old.items ++ teams_text teams.now) }
{
    if teams.is_empty() {
        return Ok(());
    }
    push_text(out, " teams")?;
    push_each_team(out, teams)
}

fn push_further_index(out: &mut Vec<u8>, index: u32) -> Result<(), NoMemory>
    ensures { OnOk result (out.new.items ≡ out.old.items ++ further number_text index) }
{
    push_text(out, ",")?;
    push_count(out, u64::from(index))
}

fn push_further_indices(out: &mut Vec<u8>, indices: &[u32]) -> Result<(), NoMemory>
    ensures { OnOk result (out.new.items ≡ out.old.items ++ flat_map (further number_text) indices.now) }
{
    for index in indices {
        push_further_index(out, *index)?;
    }
    Ok(())
}

fn push_indices(out: &mut Vec<u8>, indices: &[u32]) -> Result<(), NoMemory>
    ensures { OnOk result (out.new.items ≡ out.old.items ++ indices_text indices.now) }
{
    match indices.split_first() {
        None => push_text(out, "-"),
        Some((first, further)) => {
            push_count(out, u64::from(*first))?;
            push_further_indices(out, further)
        }
    }
}

// Appends the status of a collective, and the values where it is 0.
fn push_taken(out: &mut Vec<u8>, status: i32, values: &[Value]) -> Result<(), NoMemory>
    ensures { OnOk result (out.new.items ≡ out.old.items ++ (decimal_text status ++ taken_values (int_eq status (pos 0)) values.now)) }
{
    push_number(out, i64::from(status))?;
    if status == 0 {
        push_text(out, " ")?;
        push_values(out, values)?;
    }
    Ok(())
}

/// Appends the text of a reply.
pub(crate) fn push_reply(out: &mut Vec<u8>, reply: &Reply) -> Result<(), NoMemory>
    ensures { OnOk result (out.new.items ≡ out.old.items ++ reply_text reply.now) }
{
    match reply {
        Reply::Done => push_text(out, "ok"),
        Reply::Dead => push_text(out, "dead"),
        Reply::Absent => push_text(out, "absent"),
        Reply::Overflow => push_text(out, "overflow"),
        Reply::Busy => push_text(out, "busy"),
        Reply::Values { values } => push_values(out, values.as_slice()),
        Reply::Old { value } => push_value(out, *value),
        Reply::Number { status } => push_number(out, i64::from(*status)),
        Reply::Count { count } => push_count(out, *count),
        Reply::Round { round } => {
            push_text(out, "round")?;
            push_spaced(out, *round)
        }
        Reply::Clash { image, line } => {
            push_text(out, "clash")?;
            push_spaced(out, u64::from(image.0))?;
            push_spaced(out, u64::from(*line))
        }
        Reply::Indices { indices } => push_indices(out, indices.as_slice()),
        Reply::Taken { status, values } => push_taken(out, *status, values.as_slice()),
        Reply::Left { status, teams } => {
            push_number(out, i64::from(*status))?;
            push_teams(out, teams.as_slice())
        }
    }
}
