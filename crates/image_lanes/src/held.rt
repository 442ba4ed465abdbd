//! The locks that an image holds.

ghost use Rattle.std.specs.Prelude.{◌≡◌, ◌<◌, ◌≤◌, pos, [], ◌∷◌, ◌++◌, length, OnOk, option_map, slice_get};
ghost use Rattle.core_runs.specs.Failures.{LockPlace, same_place, lock_place, without, held_after, release_of};
ghost use Rattle.image_lanes.specs.Holds.{place_of_lock};
ghost use Rattle.object_rules.specs.Locks.{acquires, has_status};

use caf_base::place::ImageNo;
use caf_base::refusal::NoMemory;
use caf_base::span::{Dims, Span};
use caf_events::ask::Ask;
use caf_events::reply::Reply;
use std::alloc::Global;
use std::marker::Model;

/// A lock variable: the image whose memory it is in, its coarray and its offset there.
#[derive(Clone, Copy)]
pub(crate) struct HeldLock {
    pub(crate) owner: ImageNo,
    pub(crate) coarray: u32,
    pub(crate) offset: u32,
}

impl HeldLock {
    fn of_span(owner: ImageNo, span: &Span) -> HeldLock
        ensures { place_of_lock result ≡ lock_place owner span.now }
    {
        HeldLock {
            owner,
            coarray: span.coarray,
            offset: span.start,
        }
    }

    fn is(&self, other: &HeldLock) -> bool
        ensures { result ≡ same_place (place_of_lock self.now) (place_of_lock other.now) }
    {
        self.owner.0 == other.owner.0
            && self.coarray == other.coarray
            && self.offset == other.offset
    }
}

/// The locks that an image holds, in the order in which it got them last.
#[derive(Drop)]
pub(crate) struct HeldLocks {
    locks: Vec<HeldLock>,
}

impl Model for HeldLocks {
    ghost use Rattle.std.specs.Prelude.{◌-◌};
    ghost use Rattle.std.specs.Vec.{vec_capacity, vec_len};
    ghost use Rattle.image_lanes.specs.Holds.{Holding, places_of_locks};

    ghost Value = { Holding };

    ghost view = { λ h. record { locks = places_of_locks h.locks.items; room = vec_capacity h.locks - vec_len h.locks } };
}

// Whether the lock was acquired: with status 0, or from an image that failed while it held it.
fn is_acquired(reply: &Reply) -> bool
    ensures { result ≡ acquires reply.now }
{
    matches!(reply, Reply::Number { status: 0 | 6002 })
}

// Whether the statement had the status 0.
fn is_zero(reply: &Reply) -> bool
    ensures { result ≡ has_status (pos 0) reply.now }
{
    matches!(reply, Reply::Number { status: 0 })
}

impl HeldLocks {
    pub(crate) fn new(alloc: Global) -> HeldLocks
        ensures { result.locks ≡ [] }
    {
        HeldLocks {
            locks: Vec::new(alloc),
        }
    }

    /// Makes room for one lock.
    pub(crate) fn reserve(&mut self) -> Result<(), NoMemory>
        ensures locks { self.new.locks ≡ self.old.locks }
        ensures room { OnOk result (0 < self.new.room) }
    {
        self.locks.reserve(1)?;
        Ok(())
    }

    fn forget(&mut self, lock: HeldLock)
        ensures locks { self.new.locks ≡ without (place_of_lock lock) self.old.locks }
        ensures room { self.old.room ≤ self.new.room }
    {
        self.locks.retain(|held| !held.is(&lock));
    }

    // The lock is the last one that was got.
    fn get(&mut self, lock: HeldLock)
        requires { 0 < self.old.room }
        ensures { self.new.locks ≡ without (place_of_lock lock) self.old.locks ++ place_of_lock lock ∷ [] }
    {
        self.forget(lock);
        self.locks.push_reserved(lock);
    }

    /// Takes note of a step: LOCK and UNLOCK change what is held (11.6.10).
    pub(crate) fn note(&mut self, ask: &Ask, reply: &Reply)
        requires { 0 < self.old.room }
        ensures { self.new.locks ≡ held_after self.old.locks ask.now reply.now }
    {
        match ask {
            Ask::Lock { owner, span } | Ask::TryLock { owner, span } => {
                if is_acquired(reply) {
                    self.get(HeldLock::of_span(*owner, span));
                }
            }
            Ask::Unlock { owner, span } => {
                if is_zero(reply) {
                    self.forget(HeldLock::of_span(*owner, span));
                }
            }
            _ => {}
        }
    }

    /// How many locks are held.
    pub(crate) fn count(&self) -> usize
        ensures { result ≡ length self.now.locks }
    {
        self.locks.len()
    }

    /// The image whose memory has the lock of a number, counted from 0.
    pub(crate) fn owner(&self, number: usize) -> Option<ImageNo>
        ensures { option_map (λ o. o.0) result ≡ option_map (λ p. p.owner) (slice_get self.now.locks number) }
    {
        Some(self.locks.get(number)?.owner)
    }

    /// The release of the lock of a number, counted from 0, by the failure of the image.
    pub(crate) fn release(&self, alloc: Global, number: usize) -> Option<Ask>
        ensures { result ≡ option_map release_of (slice_get self.now.locks number) }
    {
        let lock = self.locks.get(number)?;
        Some(Ask::Free {
            owner: lock.owner,
            span: Span {
                coarray: lock.coarray,
                start: lock.offset,
                dims: Dims::new(alloc),
            },
        })
    }
}
