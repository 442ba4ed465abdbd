//! One lock variable (ISO/IEC 1539-1:2018, 11.6.10).

ghost use Rattle.std.specs.Prelude.{◌≡◌, IsTrue, cond, false};
ghost use Rattle.object_rules.specs.Constructs.{free, abandoned};
ghost use Rattle.object_rules.specs.Locks.{is_others, lock_status, unlock_status};
ghost use Rattle.event_lock.specs.LockCells.{hold_of, lock_ready, lock_touched, lock_reply, lock_acted, acquired, unlocked, IsLockAsk};

use crate::hold::Holder;
use caf_base::place::ImageNo;
use caf_base::status::{
    STAT_FAILED_IMAGE, STAT_LOCKED, STAT_LOCKED_OTHER_IMAGE, STAT_UNLOCKED,
    STAT_UNLOCKED_FAILED_IMAGE,
};
use caf_events::ask::Ask;
use caf_events::reply::Reply;
use std::marker::Model;

/// A lock variable. In a contract it is who holds it.
#[derive(Drop)]
pub struct LockCell {
    holder: Holder,
}

impl Model for LockCell {
    ghost use Rattle.object_rules.specs.Constructs.{Hold};
    ghost use Rattle.event_lock.specs.LockCells.{hold_of};

    ghost Value = { Hold };

    ghost view = { λ c. hold_of c.holder };
}

// Whether another image than this one holds it.
fn is_of_another(holder: Holder, image: ImageNo) -> bool
    ensures { result ≡ is_others (hold_of holder) image.0 }
{
    match holder {
        Holder::Held(other) => other != image,
        _ => false,
    }
}

// The status of LOCK where no other image holds it.
fn lock_status_of(holder: Holder) -> i32
    ensures { result ≡ lock_status (hold_of holder) 0 }
{
    match holder {
        Holder::Free => 0,
        Holder::Held(_) => STAT_LOCKED,
        Holder::LeftBy(_) => STAT_UNLOCKED_FAILED_IMAGE,
    }
}

// The status of UNLOCK.
fn unlock_status_of(holder: Holder, image: ImageNo) -> i32
    ensures { result ≡ unlock_status (hold_of holder) image.0 }
{
    match holder {
        Holder::Held(other) => {
            if other == image {
                0
            } else {
                STAT_LOCKED_OTHER_IMAGE
            }
        }
        _ => STAT_UNLOCKED,
    }
}

// The holder after LOCK.
fn after_lock(holder: Holder, image: ImageNo) -> Holder
    ensures { hold_of result ≡ acquired (hold_of holder) image.0 }
{
    match holder {
        Holder::Held(other) => Holder::Held(other),
        _ => Holder::Held(image),
    }
}

// The holder after UNLOCK.
fn after_unlock(holder: Holder, image: ImageNo) -> Holder
    ensures { hold_of result ≡ unlocked (hold_of holder) image.0 }
{
    match holder {
        Holder::Held(other) => {
            if other == image {
                Holder::Free
            } else {
                Holder::Held(other)
            }
        }
        _ => holder,
    }
}

// The holder after the failure of an image that may hold it.
fn after_free(holder: Holder, image: ImageNo) -> Holder
    ensures { hold_of result ≡ abandoned (hold_of holder) image.0 }
{
    match holder {
        Holder::Held(other) => {
            if other == image {
                Holder::LeftBy(image)
            } else {
                Holder::Held(other)
            }
        }
        _ => holder,
    }
}

impl LockCell {
    /// A lock variable that nobody holds.
    pub fn new() -> LockCell
        ensures { result ≡ free }
    {
        LockCell {
            holder: Holder::Free,
        }
    }

    /// Whether the ask can come now.
    pub fn ready(&self, image: ImageNo, ask: &Ask, marked: bool) -> bool
        ensures { result ≡ lock_ready self.now image.0 ask.now marked }
    {
        match ask {
            Ask::Lock { .. } => marked || !is_of_another(self.holder, image),
            _ => true,
        }
    }

    /// The reply to an ask that can come now. It takes no memory.
    pub fn reply(&self, image: ImageNo, ask: &Ask, marked: bool) -> Reply
        requires { IsLockAsk ask.now }
        ensures { result ≡ lock_reply self.now image.0 ask.now marked }
    {
        match ask {
            Ask::Lock { .. } => Reply::Number {
                status: if marked {
                    STAT_FAILED_IMAGE
                } else {
                    lock_status_of(self.holder)
                },
            },
            Ask::TryLock { .. } => {
                if marked {
                    Reply::Number {
                        status: STAT_FAILED_IMAGE,
                    }
                } else if is_of_another(self.holder, image) {
                    Reply::Busy
                } else {
                    Reply::Number {
                        status: lock_status_of(self.holder),
                    }
                }
            }
            Ask::Unlock { .. } => Reply::Number {
                status: if marked {
                    STAT_FAILED_IMAGE
                } else {
                    unlock_status_of(self.holder, image)
                },
            },
            Ask::Free { .. } => { if marked { Reply::Dead } else { Reply::Done } }
            _ => Reply::Done,
        }
    }

    /// Changes it as the ask says; nothing changes at a marked memory. It takes no memory.
    pub fn act(&mut self, image: ImageNo, ask: &Ask, marked: bool)
        ensures { self.new ≡ cond marked self.old (lock_acted self.old image.0 ask.now) }
    {
        if marked {
            return;
        }
        self.holder = match ask {
            Ask::Lock { .. } | Ask::TryLock { .. } => after_lock(self.holder, image),
            Ask::Unlock { .. } => after_unlock(self.holder, image),
            Ask::Free { .. } => after_free(self.holder, image),
            _ => self.holder,
        };
    }
}
