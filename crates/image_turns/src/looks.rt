//! Loops that only look: an image that looks again and again at what doesn't change waits for it. No clause speaks of
//! it.

use caf_base::place::Place;
use caf_base::span::Span;
use caf_base::value::AtomicOp;
use caf_events::ask::Ask;

/// So many looks in a row that find what one of the four before found are a loop that waits.
const LOOKS: u32 = 16;

/// A look: the place, how often something had changed there ahead of it, and its key. Looks of one key find the same
/// where nothing has changed; of key 0 it isn't one.
#[derive(Clone, Copy, PartialEq, Eq)]
pub struct Look {
    pub at: Place,
    pub changed: u64,
    pub key: u64,
}

impl Look {
    /// What isn't a look.
    pub fn none() -> Look {
        Look {
            at: Place::Own,
            changed: 0,
            key: 0,
        }
    }
}

// The key of a look at the first cell of a span.
fn key_at(span: &Span, kind: u64) -> u64 {
    (u64::from(span.coarray) << 32) ^ (u64::from(span.start) << 3) ^ kind
}

/// The key of an ask that only looks; else 0.
pub(crate) fn look_key(ask: &Ask) -> u64 {
    match ask {
        Ask::Atomic {
            op: AtomicOp::Ref,
            span,
            ..
        } => key_at(span, 1),
        Ask::TryLock { span, .. } => key_at(span, 2),
        Ask::Query { span, .. } => key_at(span, 3),
        Ask::Status { index, .. } => (u64::from(*index) << 3) ^ 4,
        Ask::Memory => 5,
        _ => 0,
    }
}

/// The last looks of an image, and how many in a row found nothing new.
#[derive(Clone, Copy)]
pub struct Spin {
    pub same: u32,
    last: Look,
    second: Look,
    third: Look,
    fourth: Look,
}

impl Spin {
    /// Of an image that hasn't looked.
    pub fn none() -> Spin {
        Spin {
            same: 0,
            last: Look::none(),
            second: Look::none(),
            third: Look::none(),
            fourth: Look::none(),
        }
    }

    // Whether one of the last looks found the same.
    fn has(&self, look: &Look) -> bool {
        *look == self.last || *look == self.second || *look == self.third || *look == self.fourth
    }

    /// Counts a step, which may be a look.
    pub(crate) fn count(&mut self, look: &Look) {
        if look.key == 0 || !self.has(look) {
            self.same = 0;
        } else if look.at != Place::Own {
            self.same = self.same.saturating_add(1);
        }
        self.fourth = self.third;
        self.third = self.second;
        self.second = self.last;
        self.last = *look;
    }

    /// Whether the image waits in a loop.
    pub fn waits(&self) -> bool {
        self.same >= LOOKS
    }
}
