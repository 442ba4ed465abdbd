//! The reply that is due to an ask.

ghost use Rattle.std.specs.Prelude.{◌≡◌, ◌-◌, ◌<◌, ◌≤◌, ◌^◌, ℕ, List, Some, IsTrue, IfOk, length, slice_get};
ghost use Rattle.caf_events.specs.declared.ask.Ask.TheVariants as asks;
ghost use Rattle.caf_events.specs.declared.event.Entry.{Entry};
ghost use Rattle.caf_events.specs.declared.round.RoundKind.TheVariants as kinds;
ghost use Rattle.object_rules.specs.Happenings.{collective, control, kind_of};
ghost use Rattle.object_rules.specs.BoardRules.{arrival_reply, board_ready, board_reply};
ghost use Rattle.team_round.specs.TeamStates.{TeamState, CanExpect};
ghost use Rattle.control_board.specs.Boards.{IsBoard, Comes, Gathers, reply_by, reply_to};

use crate::ending::{ended_members, member_status};
use crate::leaving::left;
use crate::parts::Parts;
use crate::taking::taken;
use caf_base::copying::TryCopy;
use caf_base::place::{ImageNo, TeamNo};
use caf_base::refusal::NoMemory;
use caf_base::value::{Kind, Value};
use caf_events::ask::Ask;
use caf_events::reply::Reply;
use caf_events::round::{Arriving, GatherOp, RoundKind};
use std::alloc::Global;
use team_round::round::Arrival;

// The kind of a round from what an image brings to it. It takes no memory.
pub(crate) fn kind_from(arriving: Arriving) -> RoundKind
    ensures { result ≡ kind_of arriving }
{
    match arriving {
        Arriving::Sync => RoundKind::Sync,
        Arriving::Form { .. } => RoundKind::Form,
        Arriving::Change => RoundKind::Change,
        Arriving::End => RoundKind::End,
        Arriving::Allocate { list } => RoundKind::Allocate { list },
        Arriving::Deallocate { list } => RoundKind::Deallocate { list },
    }
}

// What an image is told of its arrival.
fn told(arrival: Arrival) -> Reply
    ensures { result ≡ reply_to arrival }
{
    match arrival {
        Arrival::Joined(round) => Reply::Round { round },
        Arrival::Clash { image, line } => Reply::Clash { image, line },
    }
}

// The reply to an arrival at a round by a statement of this kind.
fn joined_by(parts: &Parts, image: ImageNo, team: TeamNo, kind: &RoundKind) -> Reply
    requires team { (0 < team.0) × (team.0 ≤ length parts.now.control.teams) }
    requires state { (x : TeamState) → slice_get parts.now.control.teams (team.0 - 1) ≡ Some x → CanExpect x image.0 }
    ensures { (n : ℕ) (h : List Entry) → IsBoard n h parts.now → result ≡ arrival_reply control h image.0 team.0 kind.now }
{
    told(parts.control.expected(team, image, kind))
}

// The reply to an arrival at a round. What is brought to SYNC ALL, most arrivals, isn't copied for it.
fn joined(
    parts: &Parts,
    image: ImageNo,
    team: TeamNo,
    arriving: &Arriving,
) -> Result<Reply, NoMemory>
    requires { Comes parts.now image.0 (asks.Arrive team arriving.now) }
    ensures { IfOk result (λ r. (n : ℕ) (h : List Entry) → IsBoard n h parts.now → r ≡ board_reply n h image.0 (asks.Arrive team arriving.now)) }
{
    match arriving {
        Arriving::Sync => Ok(joined_by(parts, image, team, &RoundKind::Sync)),
        _ => {
            let kind = kind_from(arriving.copy()?);
            let reply = joined_by(parts, image, team, &kind);
            drop(kind);
            Ok(reply)
        }
    }
}

// The kind of a collective subroutine to which an image brings these values. It takes no memory.
pub(crate) fn kind_with(op: GatherOp, root: u32, kind: Kind, values: &[Value]) -> RoundKind
    requires { length values.now < 2 ^ 32 }
    ensures { result ≡ kinds.Collective op root kind (length values.now) }
{
    RoundKind::Collective {
        op,
        root,
        kind,
        count: values.len() as u32,
    }
}

// The reply to an arrival at a collective subroutine of this kind.
fn gathered(parts: &Parts, image: ImageNo, team: TeamNo, what: &RoundKind) -> Reply
    requires { Gathers parts.now image.0 team.0 }
    ensures { (n : ℕ) (h : List Entry) → IsBoard n h parts.now → result ≡ arrival_reply collective h image.0 team.0 what.now }
{
    told(parts.collective.expected(team, image, what))
}

// The reply to a departure from SYNC IMAGES.
fn unpaired(parts: &Parts, image: ImageNo) -> Reply
    requires { Comes parts.now image.0 asks.Unpair }
    ensures { (n : ℕ) (h : List Entry) → IsBoard n h parts.now → IsTrue (board_ready n h image.0 asks.Unpair) → result ≡ board_reply n h image.0 asks.Unpair }
{
    Reply::Number {
        status: parts.pairs.status(image),
    }
}

// The reply to an entry of a CRITICAL construct.
fn entered(parts: &Parts, construct: u32) -> Reply
    ensures { (n i : ℕ) (h : List Entry) → IsBoard n h parts.now → result ≡ board_reply n h i (asks.Enter construct) }
{
    Reply::Number {
        status: parts.criticals.status(construct),
    }
}

// The reply to a question for the status of an image.
fn status(parts: &Parts, image: ImageNo, team: TeamNo, index: u32) -> Reply
    requires { Comes parts.now image.0 (asks.Status team index) }
    ensures { (n : ℕ) (h : List Entry) → IsBoard n h parts.now → result ≡ board_reply n h image.0 (asks.Status team index) }
{
    member_status(parts, team, index)
}

// The reply to a question for the images that have failed.
fn failed(alloc: Global, parts: &Parts, image: ImageNo, team: TeamNo) -> Result<Reply, NoMemory>
    requires { Comes parts.now image.0 (asks.Failed team) }
    ensures { IfOk result (λ r. (n : ℕ) (h : List Entry) → IsBoard n h parts.now → r ≡ board_reply n h image.0 (asks.Failed team)) }
{
    ended_members(alloc, parts, team, true)
}

// The reply to a question for the images that have stopped.
fn stopped(alloc: Global, parts: &Parts, image: ImageNo, team: TeamNo) -> Result<Reply, NoMemory>
    requires { Comes parts.now image.0 (asks.Stopped team) }
    ensures { IfOk result (λ r. (n : ℕ) (h : List Entry) → IsBoard n h parts.now → r ≡ board_reply n h image.0 (asks.Stopped team)) }
{
    ended_members(alloc, parts, team, false)
}

// The reply to an ask that comes.
pub(crate) fn reply(
    alloc: Global,
    parts: &Parts,
    image: ImageNo,
    ask: &Ask,
) -> Result<Reply, NoMemory>
    requires { Comes parts.now image.0 ask.now }
    ensures { IfOk result (λ r. (n : ℕ) (h : List Entry) → IsBoard n h parts.now → IsTrue (board_ready n h image.0 ask.now) → r ≡ reply_by n h image.0 ask.now) }
{
    match ask {
        Ask::Arrive { team, arriving } => joined(parts, image, *team, arriving),
        Ask::Leave { team, round } => left(alloc, parts, image, *team, *round),
        Ask::Gather {
            team,
            op,
            root,
            kind,
            values,
        } => Ok(gathered(
            parts,
            image,
            *team,
            &kind_with(*op, *root, *kind, values.as_slice()),
        )),
        Ask::Take { team, round } => taken(alloc, parts, image, *team, *round),
        Ask::Unpair => Ok(unpaired(parts, image)),
        Ask::Enter { construct } => Ok(entered(parts, *construct)),
        Ask::Failed { team } => failed(alloc, parts, image, *team),
        Ask::Stopped { team } => stopped(alloc, parts, image, *team),
        Ask::Status { team, index } => Ok(status(parts, image, *team, *index)),
        _ => Ok(Reply::Done),
    }
}
