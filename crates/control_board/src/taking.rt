//! The departure from a collective subroutine.

ghost use Rattle.std.specs.Ordering.{int_eq};
ghost use Rattle.failure_status.specs.Endings.{AreWithin};
ghost use Rattle.std.specs.Prelude.{◌≡◌, ◌-◌, ◌<◌, ◌≤◌, ℕ, pos, length, List, IsTrue, IfOk, map, slice_get};
ghost use Rattle.std.specs.Option.{option_map};
ghost use Rattle.caf_base.specs.declared.place.ImageNo.{ImageNo};
ghost use Rattle.caf_events.specs.declared.ask.Ask.TheVariants as asks;
ghost use Rattle.caf_events.specs.declared.event.Entry.{Entry};
ghost use Rattle.object_rules.specs.BoardRules.{board_ready, board_reply, or_none, collected as collected_by};
ghost use Rattle.object_rules.specs.BoardTeams.{teams_after, members_at};
ghost use Rattle.object_rules.specs.Happenings.{collective, happened};
ghost use Rattle.object_rules.specs.TeamRounds.{opening_of};
ghost use Rattle.object_rules.specs.Folds.{fold_of};
ghost use Rattle.collectives.specs.Combining.{op_of};
ghost use Rattle.control_board.specs.Boards.{IsBoard, Comes, value_at, table_of, AreThere, AllCame, collected_of, taken_of};

use crate::brought::{Table, brought_at};
use crate::parts::Parts;
use caf_base::few::Few;
use caf_base::place::{ImageNo, TeamNo};
use caf_base::refusal::{NoMemory, Refusal};
use caf_base::status::STAT_BAD_ARGUMENT;
use caf_base::value::{Kind, Value};
use caf_events::reply::Reply;
use caf_events::round::{GatherOp, RoundKind};
use collectives::fold::combine;
use collectives::pair::Fold;
use std::alloc::Global;

// What the members brought to their call of this number, in the order of the members.
fn parts_of(
    alloc: Global,
    tables: &Vec<Table>,
    team: TeamNo,
    members: &[ImageNo],
    call: u64,
) -> Result<Vec<Vec<Value>>, NoMemory>
    requires team { (0 < team.0) × (team.0 ≤ length tables.now.items) }
    requires images { AreWithin (length (table_of tables.now.items team.0)) members.now }
    requires first { 0 < call }
    requires there { AreThere (table_of tables.now.items team.0) call members.now }
    ensures { IfOk result (λ v. map (λ x. x.items) v.items ≡ map (λ (m : ImageNo). value_at (table_of tables.now.items team.0) call m.0) members.now) }
{
    let mut parts = Vec::new(alloc);
    for member in members {
        let values = Vec::from_slice(alloc, brought_at(tables, team, *member, call))?;
        parts.push(values)?;
    }
    Ok(parts)
}

// The arguments combined; None where a partial sum leaves the kind.
fn folded(
    alloc: Global,
    op: Fold,
    kind: Kind,
    parts: &[Vec<Value>],
) -> Result<Option<Vec<Value>>, NoMemory>
    ensures { IfOk result (λ o. option_map (λ v. v.items) o ≡ fold_of (op_of op) kind (map (λ v. v.items) parts.now)) }
{
    match combine(alloc, op, kind, parts) {
        Ok(values) => Ok(Some(values)),
        Err(Refusal::Cause(_)) => Ok(None),
        Err(Refusal::NoMemory) => Err(NoMemory),
    }
}

// The argument of the root.
fn of_root(alloc: Global, root: u32, parts: &[Vec<Value>]) -> Result<Vec<Value>, NoMemory>
    ensures { IfOk result (λ v. v.items ≡ or_none (slice_get (map (λ v. v.items) parts.now) (root - 1))) }
{
    match parts.get(root.saturating_sub(1) as usize) {
        Some(values) => Ok(Vec::from_slice(alloc, values.as_slice())?),
        None => Ok(Vec::new(alloc)),
    }
}

// The result of a collective subroutine of this kind; None where a partial sum leaves the kind.
fn collected(
    alloc: Global,
    what: &RoundKind,
    parts: &[Vec<Value>],
) -> Result<Option<Vec<Value>>, NoMemory>
    ensures { IfOk result (λ o. option_map (λ v. v.items) o ≡ collected_by what.now (map (λ v. v.items) parts.now)) }
{
    match what {
        RoundKind::Collective { op, root, kind, .. } => match op {
            GatherOp::Sum => folded(alloc, Fold::Sum, *kind, parts),
            GatherOp::Min => folded(alloc, Fold::Min, *kind, parts),
            GatherOp::Max => folded(alloc, Fold::Max, *kind, parts),
            GatherOp::Broadcast => Ok(Some(of_root(alloc, *root, parts)?)),
        },
        _ => Ok(Some(Vec::new(alloc))),
    }
}

// The reply where all members have brought their values.
fn taken_by(alloc: Global, combined: Option<Vec<Value>>) -> Reply
    ensures { result ≡ taken_of (option_map (λ v. v.items) combined) }
{
    match combined {
        Some(values) => Reply::Taken {
            status: 0,
            values: Few::from_vec(values),
        },
        None => Reply::Taken {
            status: STAT_BAD_ARGUMENT,
            values: Few::new(alloc),
        },
    }
}

// Whether the status is that of success.
fn is_fine(status: i32) -> bool
    ensures { result ≡ int_eq status (pos 0) }
{
    status == 0
}

// The values of a round of a team to which all members came, combined.
fn combined(
    alloc: Global,
    parts: &Parts,
    team: TeamNo,
    round: u64,
) -> Result<Option<Vec<Value>>, NoMemory>
    requires { AllCame parts.now team.0 round }
    ensures { IfOk result (λ o. (n : ℕ) (h : List Entry) → IsBoard n h parts.now
        → option_map (λ v. v.items) o ≡ collected_of (opening_of team.0 round (happened collective h)) (map (λ m. value_at (table_of parts.now.brought.items team.0) round m) (members_at (teams_after n h) team.0))) }
{
    let members = parts.teams.members(team);
    let values = parts_of(alloc, &parts.brought, team, members, round)?;
    match parts.collective.kind(team, round) {
        Some(what) => collected(alloc, what, values.as_slice()),
        None => Ok(Some(Vec::new(alloc))),
    }
}

// The reply to a departure from a collective subroutine.
pub(crate) fn taken(
    alloc: Global,
    parts: &Parts,
    image: ImageNo,
    team: TeamNo,
    round: u64,
) -> Result<Reply, NoMemory>
    requires { Comes parts.now image.0 (asks.Take team round) }
    ensures { IfOk result (λ r. (n : ℕ) (h : List Entry) → IsBoard n h parts.now → IsTrue (board_ready n h image.0 (asks.Take team round))
        → r ≡ board_reply n h image.0 (asks.Take team round)) }
{
    let status = parts.collective.result(team, round, false);
    if !is_fine(status) {
        return Ok(Reply::Taken {
            status,
            values: Few::new(alloc),
        });
    }
    let values = combined(alloc, parts, team, round)?;
    Ok(taken_by(alloc, values))
}
