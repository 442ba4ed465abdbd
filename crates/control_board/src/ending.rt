//! Which members of a team have stopped or failed.

ghost use Rattle.std.specs.Prelude.{◌≡◌, ◌-◌, ◌<◌, ◌≤◌, ◌^◌, ℕ, List, IfOk, length, slice_get};
ghost use Rattle.caf_events.specs.declared.reply.Reply.TheVariants as replies;
ghost use Rattle.caf_events.specs.declared.event.Entry.{Entry};
ghost use Rattle.object_rules.specs.Happenings.{Happening, control, happened, numbers_of};
ghost use Rattle.object_rules.specs.BoardRules.{indices_from, image_status};
ghost use Rattle.object_rules.specs.BoardTeams.{teams_after, members_at};
ghost use Rattle.failure_status.specs.Endings.{AreWithin, TellsEnded, flag_of, marked_from};
ghost use Rattle.control_board.specs.Boards.{IsBoard, KeepsTeam, marks_of, ended_as};

use crate::parts::Parts;
use caf_base::listing::Listing;
use caf_base::place::{ImageNo, TeamNo};
use caf_base::refusal::NoMemory;
use caf_events::reply::Reply;
use failure_status::endings::Endings;
use failure_status::status::status_of;
use std::alloc::Global;

// Whether the image has failed, or with `failed` false whether it has stopped.
fn has_ended(endings: &Endings, image: ImageNo, failed: bool) -> bool
    requires { (0 < image.0) × (image.0 ≤ length (marks_of endings.now failed)) }
    ensures { result ≡ flag_of (marks_of endings.now failed) image.0 }
{
    if failed {
        endings.has_failed(image)
    } else {
        endings.has_stopped(image)
    }
}

// The indices of the members that have failed, or with `failed` false of those that have stopped.
fn indices_of(
    alloc: Global,
    endings: &Endings,
    members: &[ImageNo],
    failed: bool,
) -> Result<Listing<u32>, NoMemory>
    requires few { length members.now < 2 ^ 32 }
    requires within { AreWithin (length (marks_of endings.now failed)) members.now }
    ensures { IfOk result (λ l. l ≡ marked_from 1 (marks_of endings.now failed) members.now) }
{
    let mut indices = Listing::new(alloc);
    for at in 0..members.len() {
        if has_ended(endings, members[at], failed) {
            indices.push(at as u32 + 1)?;
        }
    }
    Ok(indices)
}

// The image indices of the members of a team that have failed, or with `failed` false of those that have stopped
// (ISO/IEC 1539-1:2018, 16.9.77, 16.9.183).
pub(crate) fn ended_members(
    alloc: Global,
    parts: &Parts,
    team: TeamNo,
    failed: bool,
) -> Result<Reply, NoMemory>
    requires { KeepsTeam parts.now team.0 }
    ensures { IfOk result (λ r. (n : ℕ) (h : List Entry) → IsBoard n h parts.now
        → r ≡ replies.Indices (indices_from 1 (λ m. ended_as failed m (happened control h)) (members_at (teams_after n h) team.0))) }
{
    let members = parts.teams.members(team);
    let indices = indices_of(alloc, parts.control.endings(), members, failed)?;
    Ok(Reply::Indices { indices })
}

// The status of an image: 6000, 6001 or 0.
fn status_at(endings: &Endings, members: &[ImageNo], at: usize) -> i32
    requires at { at < length members.now }
    requires stopped { AreWithin (length endings.now.stopped) members.now }
    requires failed { AreWithin (length endings.now.failed) members.now }
    ensures { (n : ℕ) (hs : List Happening) → TellsEnded n endings.now hs → AreWithin n members.now → result ≡ image_status hs (slice_get (numbers_of members.now) at) }
{
    let image = members[at];
    status_of(endings.has_stopped(image), endings.has_failed(image))
}

// The status of the image of an index in a team (16.9.98).
pub(crate) fn member_status(parts: &Parts, team: TeamNo, index: u32) -> Reply
    requires team { KeepsTeam parts.now team.0 }
    requires index { (0 < index) × ((n : ℕ) (h : List Entry) → IsBoard n h parts.now → index ≤ length (members_at (teams_after n h) team.0)) }
    ensures { (n : ℕ) (h : List Entry) → IsBoard n h parts.now
        → result ≡ replies.Number (image_status (happened control h) (slice_get (members_at (teams_after n h) team.0) (index - 1))) }
{
    let members = parts.teams.members(team);
    Reply::Number {
        status: status_at(parts.control.endings(), members, (index - 1) as usize),
    }
}
