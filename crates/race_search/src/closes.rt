//! The close of a round and of SYNC IMAGES, and the images that were gone by it (ISO/IEC 1539-1:2018, 11.6.3, 11.6.4,
//! 11.6.11).

ghost use Rattle.std.specs.Prelude.{◌≡◌, ◌||◌, ◌<◌, ◌≤◌, nat_le, ℕ, List, [], map, filter, IfOk, MatchOption};
ghost use Rattle.std.specs.List.{list_any, list_all, range_with_len};
ghost use Rattle.object_rules.specs.ImagePairs.{names};
ghost use Rattle.order_axioms.specs.Closes.{told, told_by, formed, members, joined_by, has_come, round_closed, pair_closed, is_over, gone_by};
ghost use Rattle.race_search.specs.Steps.{closed_by, has_met, is_missed};

use crate::steps::{Step, contains, goes, is_over, named, tally};
use caf_base::refusal::NoMemory;
use caf_events::event::Entry;
use caf_events::reply::{FormedTeam, Reply};
use race_watch::act::numbers;
use std::alloc::Global;

/// A round of a team, or the last SYNC IMAGES of an image.
#[derive(Clone, Copy)]
pub enum Close {
    Round { team: u32, round: u64 },
    Pairing { image: u32 },
}

// The members of the team, where it is one of these.
fn told(alloc: Global, team: u32, teams: &[FormedTeam]) -> Result<Option<Vec<u32>>, NoMemory>
    ensures { IfOk result (λ o. MatchOption o ((js : List ℕ) → told team teams.now js ≡ js) (λ v. (js : List ℕ) → told team teams.now js ≡ v.items)) }
{
    for formed in teams {
        if formed.team.0 == team {
            return Ok(Some(numbers(alloc, formed.members.as_slice())?));
        }
    }
    Ok(None)
}

// The same of the teams of a departure.
fn told_by(alloc: Global, team: u32, reply: &Reply) -> Result<Option<Vec<u32>>, NoMemory>
    ensures { IfOk result (λ o. MatchOption o ((js : List ℕ) → told_by team reply.now js ≡ js) (λ v. (js : List ℕ) → told_by team reply.now js ≡ v.items)) }
{
    match reply {
        Reply::Left { teams, .. } => told(alloc, team, teams.as_slice()),
        _ => Ok(None),
    }
}

// The same of the entry.
fn told_at(alloc: Global, team: u32, e: &Entry) -> Result<Option<Vec<u32>>, NoMemory>
    ensures { IfOk result (λ o. MatchOption o ((js : List ℕ) → told_by team e.now.event.reply js ≡ js) (λ v. (js : List ℕ) → told_by team e.now.event.reply js ≡ v.items)) }
{
    let reply = e.event.reply(alloc);
    let members = told_by(alloc, team, &reply);
    drop(reply);
    members
}

// The members of a team that FORM TEAM made, none where no departure has told them.
fn formed(alloc: Global, team: u32, before: &[Entry]) -> Result<Vec<u32>, NoMemory>
    ensures { IfOk result (λ v. v.items ≡ formed team before.now) }
{
    for e in before {
        if let Some(members) = told_at(alloc, team, e)? {
            return Ok(members);
        }
    }
    Ok(Vec::new(alloc))
}

// The images of a run of n.
fn numbers_to(alloc: Global, n: u32) -> Result<Vec<u32>, NoMemory>
    ensures { IfOk result (λ v. v.items ≡ range_with_len 1 n) }
{
    let mut numbers = Vec::new(alloc);
    for number in 0..n {
        numbers.push(number + 1)?;
    }
    Ok(numbers)
}

/// The members of a team in a run of n images.
pub fn members(alloc: Global, n: u32, team: u32, before: &[Entry]) -> Result<Vec<u32>, NoMemory>
    ensures { IfOk result (λ v. v.items ≡ members n team before.now) }
{
    if team == 1 {
        numbers_to(alloc, n)
    } else {
        formed(alloc, team, before)
    }
}

// Whether the image has arrived in the round.
fn has_joined(alloc: Global, team: u32, round: u64, before: &[Entry], image: u32) -> bool
    ensures { result ≡ nat_le round (joined_by team image before.now) }
{
    round <= tally(alloc, Step::Joins { team, image }, before)
}

// Whether one of these images has arrived in the round.
fn any_joined(alloc: Global, team: u32, round: u64, before: &[Entry], images: &[u32]) -> bool
    ensures { result ≡ list_any (λ j. nat_le round (joined_by team j before.now)) images.now }
{
    for image in images {
        if has_joined(alloc, team, round, before, *image) {
            return true;
        }
    }
    false
}

// Whether each of these images has arrived in the round, is gone or has stopped.
fn all_come(alloc: Global, team: u32, round: u64, before: &[Entry], images: &[u32]) -> bool
    ensures { result ≡ list_all (has_come team round before.now) images.now }
{
    for image in images {
        if !has_joined(alloc, team, round, before, *image) && !is_over(alloc, *image, before) {
            return false;
        }
    }
    true
}

// Whether the round has closed.
fn round_closed(
    alloc: Global,
    n: u32,
    team: u32,
    round: u64,
    before: &[Entry],
) -> Result<bool, NoMemory>
    ensures { IfOk result (λ b. b ≡ round_closed n team round before.now) }
{
    let members = members(alloc, n, team, before)?;
    let images = members.as_slice();
    let closed = any_joined(alloc, team, round, before, images)
        && all_come(alloc, team, round, before, images);
    drop(members);
    Ok(closed)
}

// Whether the other image has named this one so often in the entries `then` as this one has named it, is gone or has
// stopped.
fn has_met(alloc: Global, image: u32, before: &[Entry], then: &[Entry], other: u32) -> bool
    ensures { result ≡ has_met image before.now then.now other }
{
    let ours = tally(alloc, Step::Names { image, other }, before);
    let theirs = tally(
        alloc,
        Step::Names {
            image: other,
            other: image,
        },
        then,
    );
    ours <= theirs || is_over(alloc, other, then)
}

fn all_met(alloc: Global, image: u32, before: &[Entry], then: &[Entry], others: &[u32]) -> bool
    ensures { result ≡ list_all (has_met image before.now then.now) others.now }
{
    for other in others {
        if !has_met(alloc, image, before, then, *other) {
            return false;
        }
    }
    true
}

// Whether by the entries `then` the last SYNC IMAGES that the image began in `before` has closed.
fn pair_closed(
    alloc: Global,
    image: u32,
    before: &[Entry],
    then: &[Entry],
) -> Result<bool, NoMemory>
    ensures { IfOk result (λ b. b ≡ pair_closed before.now image then.now) }
{
    let others = named(alloc, image, before)?;
    let step = Step::Pairs { image };
    let closed = tally(alloc, step, before) <= tally(alloc, step, then)
        && all_met(alloc, image, before, then, others.as_slice());
    drop(others);
    Ok(closed)
}

// Whether it has closed by the entries `then`.
fn has_closed(
    alloc: Global,
    n: u32,
    close: Close,
    before: &[Entry],
    then: &[Entry],
) -> Result<bool, NoMemory>
    ensures { IfOk result (λ b. b ≡ closed_by n before.now close then.now) }
{
    match close {
        Close::Round { team, round } => round_closed(alloc, n, team, round, then),
        Close::Pairing { image } => pair_closed(alloc, image, before, then),
    }
}

// Whether the entry's image is gone by it, before the close.
fn is_missed(
    alloc: Global,
    n: u32,
    close: Close,
    before: &[Entry],
    then: &[Entry],
    e: &Entry,
) -> Result<bool, NoMemory>
    ensures { IfOk result (λ b. b ≡ is_missed n before.now close then.now e.now) }
{
    if goes(alloc, e) {
        Ok(!has_closed(alloc, n, close, before, then)?)
    } else {
        Ok(false)
    }
}

// The images that were gone by the close.
fn gone_images(alloc: Global, n: u32, close: Close, before: &[Entry]) -> Result<Vec<u32>, NoMemory>
    ensures { IfOk result (λ v. (j : ℕ) → names j v.items ≡ gone_by (closed_by n before.now close) before.now j) }
{
    let mut gone = Vec::new(alloc);
    for at in 0..before.len() {
        let e = &before[at];
        if is_missed(alloc, n, close, before, &before[..at], e)? {
            gone.push(e.image.0)?;
        }
    }
    Ok(gone)
}

/// Those of the images that were gone by the close.
pub fn gone_of(
    alloc: Global,
    n: u32,
    close: Close,
    before: &[Entry],
    mut images: Vec<u32>,
) -> Result<Vec<u32>, NoMemory>
    ensures { IfOk result (λ v. v.items ≡ filter (gone_by (closed_by n before.now close) before.now) images.items) }
{
    let gone = gone_images(alloc, n, close, before)?;
    images.retain(|j| contains(gone.as_slice(), *j));
    drop(gone);
    Ok(images)
}
