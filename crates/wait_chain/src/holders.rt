//! The image that holds a lock variable, and the one that is inside a CRITICAL construct.

ghost use Rattle.std.specs.Prelude.{◌≡◌, ◌&&◌, nat_eq, pos, None};
ghost use Rattle.object_rules.specs.Locks.{is_at, acquires, has_status, is_done};
ghost use Rattle.wait_chain.specs.Holders.{without, lock_by, lock_holder, inside_by, inside};

use caf_base::place::ImageNo;
use caf_base::span::Span;
use caf_events::ask::Ask;
use caf_events::event::Entry;
use caf_events::reply::Reply;
use std::alloc::Global;

/// The cell of a lock variable: the image in whose memory it is, the number of the coarray in declared order, and the
/// offset.
#[derive(Clone, Copy)]
pub struct LockCell {
    pub owner: u32,
    pub coarray: u32,
    pub offset: u32,
}

// Whether a span of this image's memory begins at the cell.
fn is_there(cell: LockCell, owner: ImageNo, span: &Span) -> bool
    ensures { result ≡ (nat_eq owner.0 cell.owner && is_at cell.coarray cell.offset span.now) }
{
    owner.0 == cell.owner && span.coarray == cell.coarray && span.start == cell.offset
}

// Whether the lock was acquired by the step of this reply, also where its last holder failed.
fn acquires(reply: &Reply) -> bool
    ensures { result ≡ acquires reply.now }
{
    matches!(reply, Reply::Number { status: 0 | 6002 })
}

// Whether the step of this reply has status 0.
fn succeeds(reply: &Reply) -> bool
    ensures { result ≡ has_status (pos 0) reply.now }
{
    matches!(reply, Reply::Number { status: 0 })
}

// Whether the step of this reply was made at its cell.
fn is_done(reply: &Reply) -> bool
    ensures { result ≡ is_done reply.now }
{
    matches!(reply, Reply::Done)
}

// Who has it, but for this image.
fn without(image: u32, holder: Option<u32>) -> Option<u32>
    ensures { result ≡ without image holder }
{
    match holder {
        Some(other) if other == image => None,
        _ => holder,
    }
}

// Who holds the lock variable after an ask of this image with its reply.
fn lock_by(cell: LockCell, holder: Option<u32>, image: u32, ask: &Ask, reply: &Reply) -> Option<u32>
    ensures { result ≡ lock_by cell holder image ask.now reply.now }
{
    match ask {
        Ask::Lock { owner, span } | Ask::TryLock { owner, span }
            if is_there(cell, *owner, span) && acquires(reply) => { Some(image) }
        Ask::Unlock { owner, span } if is_there(cell, *owner, span) && succeeds(reply) => None,
        Ask::Free { owner, span } if is_there(cell, *owner, span) && is_done(reply) => {
            without(image, holder)
        }
        Ask::Create { owner, coarray, .. } | Ask::Delete { owner, coarray }
            if owner.0 == cell.owner && *coarray == cell.coarray => { None }
        _ => holder,
    }
}

// The same of the entry.
fn lock_at(alloc: Global, cell: LockCell, holder: Option<u32>, e: &Entry) -> Option<u32>
    ensures { result ≡ lock_by cell holder e.now.image.0 e.now.event.ask e.now.event.reply }
{
    let ask = e.event.told().ask(alloc);
    let reply = e.event.reply(alloc);
    let after = lock_by(cell, holder, e.image.0, &ask, &reply);
    drop(ask);
    drop(reply);
    after
}

/// The image that holds the lock variable.
pub(crate) fn lock_holder(alloc: Global, cell: LockCell, before: &[Entry]) -> Option<u32>
    ensures { result ≡ lock_holder cell None before.now }
{
    let mut holder = None;
    for e in before {
        holder = lock_at(alloc, cell, holder, e);
    }
    holder
}

// Who is inside the construct after an ask of this image.
fn inside_by(construct: u32, inside: Option<u32>, image: u32, ask: &Ask) -> Option<u32>
    ensures { result ≡ inside_by construct inside image ask.now }
{
    match ask {
        Ask::Enter { construct: other } if *other == construct => Some(image),
        Ask::Exit { construct: other } if *other == construct => without(image, inside),
        Ask::Gone => without(image, inside),
        _ => inside,
    }
}

// The same of the entry.
fn inside_at(alloc: Global, construct: u32, inside: Option<u32>, e: &Entry) -> Option<u32>
    ensures { result ≡ inside_by construct inside e.now.image.0 e.now.event.ask }
{
    let ask = e.event.told().ask(alloc);
    let after = inside_by(construct, inside, e.image.0, &ask);
    drop(ask);
    after
}

/// The image that is inside the construct.
pub(crate) fn inside(alloc: Global, construct: u32, before: &[Entry]) -> Option<u32>
    ensures { result ≡ inside construct None before.now }
{
    let mut inside = None;
    for e in before {
        inside = inside_at(alloc, construct, inside, e);
    }
    inside
}
