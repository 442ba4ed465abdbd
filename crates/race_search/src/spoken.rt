//! The failed images of which a status speaks (ISO/IEC 1539-1:2018, 11.6.11, 16.10.2.26, 16.10.2.31).

ghost use Rattle.std.specs.Prelude.{◌≡◌, ◌∷◌, [], IfOk};
ghost use Rattle.order_axioms.specs.Closes as closes;
ghost use Rattle.order_axioms.specs.Views.{first_cell, lock_speaks, owner_speaks, departure_speaks, pair_speaks, enter_speaks, speaks_by};
ghost use Rattle.race_watch.specs.ActParts.{as_cell};
ghost use Rattle.race_search.specs.Spoken.{only};
ghost use Rattle.race_search.specs.Failures.{AreFailures};

use crate::closes::{Close, gone_of, members};
use crate::failures::{Failure, gone_members};
use crate::holders::{last_holder, last_inside};
use crate::steps::named;
use caf_base::place::ImageNo;
use caf_base::refusal::NoMemory;
use caf_base::span::Span;
use caf_events::ask::Ask;
use caf_events::event::Entry;
use caf_events::reply::Reply;
use race_watch::act::CellName;
use std::alloc::Global;

// The list of this image, if any.
fn only(alloc: Global, image: Option<u32>) -> Result<Vec<u32>, NoMemory>
    ensures { IfOk result (λ v. v.items ≡ only image) }
{
    let mut images = Vec::new(alloc);
    if let Some(image) = image {
        images.push(image)?;
    }
    Ok(images)
}

// The members of the team that were gone by the close of this round: of the initial team they are kept, of others the
// entries tell.
fn missed(
    alloc: Global,
    n: u32,
    failures: &[Failure],
    before: &[Entry],
    team: u32,
    round: u64,
) -> Result<Vec<u32>, NoMemory>
    requires failures { AreFailures n before.now failures.now }
    ensures { IfOk result (λ v. v.items ≡ closes.gone_members n team round before.now) }
{
    if team == 1 && round > 0 {
        return gone_members(alloc, n, failures, round, before);
    }
    let images = members(alloc, n, team, before)?;
    gone_of(alloc, n, Close::Round { team, round }, before, images)
}

// The images of which the status of a departure speaks.
fn departure_speaks(
    alloc: Global,
    n: u32,
    failures: &[Failure],
    before: &[Entry],
    team: u32,
    round: u64,
    reply: &Reply,
) -> Result<Vec<u32>, NoMemory>
    requires failures { AreFailures n before.now failures.now }
    ensures { IfOk result (λ v. v.items ≡ departure_speaks n before.now team round reply.now) }
{
    match reply {
        Reply::Left { status, .. } if *status == 6001 => {
            missed(alloc, n, failures, before, team, round)
        }
        _ => Ok(Vec::new(alloc)),
    }
}

// The same of the end of SYNC IMAGES.
fn pair_speaks(
    alloc: Global,
    n: u32,
    before: &[Entry],
    image: u32,
    reply: &Reply,
) -> Result<Vec<u32>, NoMemory>
    ensures { IfOk result (λ v. v.items ≡ pair_speaks before.now image reply.now) }
{
    match reply {
        Reply::Number { status } if *status == 6001 => {
            let images = named(alloc, image, before)?;
            gone_of(alloc, n, Close::Pairing { image }, before, images)
        }
        _ => Ok(Vec::new(alloc)),
    }
}

// The same of LOCK.
fn lock_speaks(
    alloc: Global,
    before: &[Entry],
    owner: ImageNo,
    span: &Span,
    reply: &Reply,
) -> Result<Vec<u32>, NoMemory>
    ensures { IfOk result (λ v. v.items ≡ lock_speaks before.now (first_cell owner.0 span.now) reply.now) }
{
    match reply {
        Reply::Number { status } if *status == 6001 => only(alloc, Some(owner.0)),
        Reply::Number { status } if *status == 6002 => {
            let cell = CellName {
                owner,
                coarray: span.coarray,
                offset: span.start,
            };
            only(alloc, last_holder(alloc, cell, before)?)
        }
        _ => Ok(Vec::new(alloc)),
    }
}

// The same of UNLOCK and EVENT POST.
fn owner_speaks(alloc: Global, owner: ImageNo, reply: &Reply) -> Result<Vec<u32>, NoMemory>
    ensures { IfOk result (λ v. v.items ≡ owner_speaks owner.0 reply.now) }
{
    match reply {
        Reply::Number { status } if *status == 6001 => only(alloc, Some(owner.0)),
        _ => Ok(Vec::new(alloc)),
    }
}

// The same of CRITICAL.
fn enter_speaks(
    alloc: Global,
    before: &[Entry],
    construct: u32,
    reply: &Reply,
) -> Result<Vec<u32>, NoMemory>
    ensures { IfOk result (λ v. v.items ≡ enter_speaks before.now construct reply.now) }
{
    match reply {
        Reply::Number { status } if *status == 6001 => {
            only(alloc, last_inside(alloc, construct, before)?)
        }
        _ => Ok(Vec::new(alloc)),
    }
}

// The failed images of which a reply to this ask of an image speaks, after these entries of a run of n images.
fn speaks_by(
    alloc: Global,
    n: u32,
    failures: &[Failure],
    before: &[Entry],
    image: ImageNo,
    ask: &Ask,
    reply: &Reply,
) -> Result<Vec<u32>, NoMemory>
    requires failures { AreFailures n before.now failures.now }
    ensures { IfOk result (λ v. v.items ≡ speaks_by n before.now image.0 ask.now reply.now) }
{
    match ask {
        Ask::Leave { team, round } => {
            departure_speaks(alloc, n, failures, before, team.0, *round, reply)
        }
        Ask::Unpair => pair_speaks(alloc, n, before, image.0, reply),
        Ask::Lock { owner, span } | Ask::TryLock { owner, span } => {
            lock_speaks(alloc, before, *owner, span, reply)
        }
        Ask::Unlock { owner, .. } | Ask::Post { owner, .. } => owner_speaks(alloc, *owner, reply),
        Ask::Enter { construct } => enter_speaks(alloc, before, *construct, reply),
        _ => Ok(Vec::new(alloc)),
    }
}

/// The failed images of which the status of the entry, which has this ask and reply, speaks, after these entries of a
/// run of n images.
pub fn spoken(
    alloc: Global,
    n: u32,
    failures: &[Failure],
    before: &[Entry],
    e: &Entry,
    ask: &Ask,
    reply: &Reply,
) -> Result<Vec<u32>, NoMemory>
    requires exchange { (ask.now ≡ e.now.event.ask) × (reply.now ≡ e.now.event.reply) }
    requires failures { AreFailures n before.now failures.now }
    ensures { IfOk result (λ v. v.items ≡ speaks_by n before.now e.now.image.0 e.now.event.ask e.now.event.reply) }
{
    speaks_by(alloc, n, failures, before, e.image, ask, reply)
}
