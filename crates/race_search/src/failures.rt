//! The images that are gone, each with the number of rounds of the initial team that had closed before.

ghost use Rattle.std.specs.Prelude.{◌≡◌, ◌<◌, ◌∷◌, [], ◌++◌, IfOk};
ghost use Rattle.std.specs.List.{list_any};
ghost use Rattle.order_axioms.specs.Closes.{gone_members};
ghost use Rattle.order_axioms.specs.Missed as missed;
ghost use Rattle.race_search.specs.Failures.{is_missing, AreFailures};

use crate::closes::members;
use crate::steps::{Step, is_gone, is_over, tally};
use caf_base::refusal::NoMemory;
use caf_events::ask::Ask;
use caf_events::event::Entry;
use std::alloc::Global;

/// An image that is gone, and how many rounds of the initial team had closed before.
#[derive(Clone, Copy)]
pub struct Failure {
    pub image: u32,
    pub closed: u64,
}

// The most rounds of the team that one of these images has joined.
fn most_joined(alloc: Global, team: u32, before: &[Entry], images: &[u32]) -> u64
    ensures { result ≡ missed.most_joined team before.now images.now }
{
    let mut most = 0u64;
    for image in images {
        let step = Step::Joins {
            team,
            image: *image,
        };
        most = most.max(tally(alloc, step, before));
    }
    most
}

// The fewest that one of them has joined that is not over, and `most` where that is fewer.
fn fewest_joined(alloc: Global, team: u32, before: &[Entry], most: u64, images: &[u32]) -> u64
    ensures { result ≡ missed.fewest_joined team before.now most images.now }
{
    let mut fewest = most;
    for image in images {
        if !is_over(alloc, *image, before) {
            let step = Step::Joins {
                team,
                image: *image,
            };
            fewest = fewest.min(tally(alloc, step, before));
        }
    }
    fewest
}

// How many rounds of the team have closed.
fn closed_rounds(alloc: Global, n: u32, team: u32, before: &[Entry]) -> Result<u64, NoMemory>
    ensures { IfOk result (λ k. k ≡ missed.closed_rounds n team before.now) }
{
    let members = members(alloc, n, team, before)?;
    let images = members.as_slice();
    let most = most_joined(alloc, team, before, images);
    let closed = fewest_joined(alloc, team, before, most, images);
    drop(members);
    Ok(closed)
}

/// Keeps the failure of the entry's image, where it is gone by this entry, which has this ask.
pub fn keep_failure(
    alloc: Global,
    n: u32,
    failures: &mut Vec<Failure>,
    before: &[Entry],
    e: &Entry,
    ask: &Ask,
) -> Result<(), NoMemory>
    requires ask { ask.now ≡ e.now.event.ask }
    requires failures { AreFailures n before.now failures.old.items }
    ensures { IfOk result (λ _. AreFailures n (before.now ++ e.now ∷ []) failures.new.items) }
{
    if is_gone(ask) {
        let closed = closed_rounds(alloc, n, 1, before)?;
        failures.push(Failure {
            image: e.image.0,
            closed,
        })?;
    }
    Ok(())
}

// Whether the image was gone by the close of this round of the initial team.
fn is_missed(failures: &[Failure], round: u64, image: u32) -> bool
    ensures { result ≡ list_any (is_missing round image) failures.now }
{
    for failure in failures {
        if failure.image == image && failure.closed < round {
            return true;
        }
    }
    false
}

/// The images that were gone by the close of this round of the initial team.
pub fn gone_members(
    alloc: Global,
    n: u32,
    failures: &[Failure],
    round: u64,
    before: &[Entry],
) -> Result<Vec<u32>, NoMemory>
    requires failures { AreFailures n before.now failures.now }
    requires round { 0 < round }
    ensures { IfOk result (λ v. v.items ≡ gone_members n 1 round before.now) }
{
    let mut images = members(alloc, n, 1, before)?;
    images.retain(|j| is_missed(failures, round, *j));
    Ok(images)
}
