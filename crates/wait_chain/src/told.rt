//! The members of a team, as the departures from the rounds of FORM TEAM tell them (ISO/IEC 1539-1:2018, 11.6.9).

ghost use Rattle.std.specs.Prelude.{◌≡◌, ℕ, List, IfOk, MatchOption};
ghost use Rattle.std.specs.List.{range_with_len};
ghost use Rattle.wait_chain.specs.Told.{told, told_in, told_by, formed, members};

use crate::counts::numbers;
use caf_base::refusal::NoMemory;
use caf_events::ask::Ask;
use caf_events::event::Entry;
use caf_events::reply::{FormedTeam, Reply};
use std::alloc::Global;

// The members of the team, where it is one of these.
fn told(alloc: Global, team: u32, teams: &[FormedTeam]) -> Result<Option<Vec<u32>>, NoMemory>
    ensures { IfOk result (λ o. MatchOption o ((js : List ℕ) → told team teams.now js ≡ js) (λ v. (js : List ℕ) → told team teams.now js ≡ v.items)) }
{
    for formed in teams {
        if formed.team.0 == team {
            return Ok(Some(numbers(alloc, formed.members.as_slice())?));
        }
    }
    Ok(None)
}

// The same of the teams of a reply.
fn told_in(alloc: Global, team: u32, reply: &Reply) -> Result<Option<Vec<u32>>, NoMemory>
    ensures { IfOk result (λ o. MatchOption o ((js : List ℕ) → told_in team reply.now js ≡ js) (λ v. (js : List ℕ) → told_in team reply.now js ≡ v.items)) }
{
    match reply {
        Reply::Left { teams, .. } => told(alloc, team, teams.as_slice()),
        _ => Ok(None),
    }
}

// The same of an ask with its reply.
fn told_by(alloc: Global, team: u32, ask: &Ask, reply: &Reply) -> Result<Option<Vec<u32>>, NoMemory>
    ensures { IfOk result (λ o. MatchOption o ((js : List ℕ) → told_by team ask.now reply.now js ≡ js) (λ v. (js : List ℕ) → told_by team ask.now reply.now js ≡ v.items)) }
{
    match ask {
        Ask::Leave { .. } => told_in(alloc, team, reply),
        _ => Ok(None),
    }
}

// The same of the entry.
fn told_at(alloc: Global, team: u32, e: &Entry) -> Result<Option<Vec<u32>>, NoMemory>
    ensures { IfOk result (λ o. MatchOption o ((js : List ℕ) → told_by team e.now.event.ask e.now.event.reply js ≡ js) (λ v. (js : List ℕ) → told_by team e.now.event.ask e.now.event.reply js ≡ v.items)) }
{
    let ask = e.event.told().ask(alloc);
    let reply = e.event.reply(alloc);
    let members = told_by(alloc, team, &ask, &reply);
    drop(ask);
    drop(reply);
    members
}

// The members of a team that FORM TEAM made, none where no departure tells them.
fn formed(alloc: Global, team: u32, before: &[Entry]) -> Result<Vec<u32>, NoMemory>
    ensures { IfOk result (λ v. v.items ≡ formed team before.now) }
{
    for e in before {
        if let Some(members) = told_at(alloc, team, e)? {
            return Ok(members);
        }
    }
    Ok(Vec::new(alloc))
}

// The images of a run of n.
fn numbers_to(alloc: Global, n: u32) -> Result<Vec<u32>, NoMemory>
    ensures { IfOk result (λ v. v.items ≡ range_with_len 1 n) }
{
    let mut numbers = Vec::new(alloc);
    for number in 0..n {
        numbers.push(number + 1)?;
    }
    Ok(numbers)
}

/// The members of a team in a run of n images.
pub(crate) fn members(
    alloc: Global,
    n: u32,
    team: u32,
    before: &[Entry],
) -> Result<Vec<u32>, NoMemory>
    ensures { IfOk result (λ v. v.items ≡ members n team before.now) }
{
    if team == 1 {
        numbers_to(alloc, n)
    } else {
        formed(alloc, team, before)
    }
}
