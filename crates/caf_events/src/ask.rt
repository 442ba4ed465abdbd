//! What an image asks of an object in one step.

ghost use Rattle.std.specs.Prelude.{◌≡◌, IfOk};
ghost use Rattle.caf_events.specs.Asks.{place_of};

use crate::fault::FaultKind;
use crate::round::{Arriving, GatherOp};
use caf_base::copying::TryCopy;
use caf_base::few::Few;
use caf_base::listing::{Listing, Text};
use caf_base::place::{ImageNo, Place, TeamNo};
use caf_base::refusal::NoMemory;
use caf_base::span::Span;
use caf_base::value::{AtomicOp, Kind, Value};

/// An ask: an access to a memory, a control action, or a step of the image alone. Those at a memory name its owner
/// first. Sections are those of ISO/IEC 1539-1:2018.
#[derive(Drop, Debug)]
pub enum Ask {
    /// Reference of the cells of a span.
    Read {
        owner: ImageNo,
        span: Span,
    },
    /// Definition of the cells of a span, with as many values as cells.
    Write {
        owner: ImageNo,
        span: Span,
        values: Few<Value>,
    },
    /// Allocation of a coarray of so many cells (9.7.1.2).
    Create {
        owner: ImageNo,
        coarray: u32,
        cells: u32,
    },
    /// Deallocation of a coarray (9.7.3.2).
    Delete {
        owner: ImageNo,
        coarray: u32,
    },
    /// An atomic action on one cell (16.5); a missing operand is 0, for `Cas` x is COMPARE and y is NEW.
    Atomic {
        owner: ImageNo,
        op: AtomicOp,
        span: Span,
        x: Value,
        y: Value,
    },
    /// LOCK (11.6.10), which waits while another image holds the variable.
    Lock {
        owner: ImageNo,
        span: Span,
    },
    /// LOCK with ACQUIRED_LOCK= (11.6.10), which doesn't wait.
    TryLock {
        owner: ImageNo,
        span: Span,
    },
    /// UNLOCK (11.6.10).
    Unlock {
        owner: ImageNo,
        span: Span,
    },
    /// EVENT POST (11.6.7).
    Post {
        owner: ImageNo,
        span: Span,
    },
    /// EVENT WAIT (11.6.8) with its threshold, at least 1.
    Wait {
        owner: ImageNo,
        span: Span,
        threshold: u64,
    },
    /// EVENT_QUERY (16.9).
    Query {
        owner: ImageNo,
        span: Span,
    },
    /// The failure of the owner, for accesses from here on.
    Mark {
        owner: ImageNo,
    },
    /// The release of a lock that a failed image held.
    Free {
        owner: ImageNo,
        span: Span,
    },
    /// The arrival at a round of a team: its image has come to SYNC ALL, SYNC TEAM, FORM TEAM, CHANGE TEAM, END TEAM,
    /// or ALLOCATE or DEALLOCATE of coarrays (11.6.3, 11.6.6, 11.6.9, 11.1.5, 9.7).
    Arrive {
        team: TeamNo,
        arriving: Arriving,
    },
    /// The departure from a round that has closed.
    Leave {
        team: TeamNo,
        round: u64,
    },
    /// The arrival at a collective subroutine (16.6): the index of the root in the team, 0 for none, and the values to
    /// be combined.
    Gather {
        team: TeamNo,
        op: GatherOp,
        root: u32,
        kind: Kind,
        values: Few<Value>,
    },
    /// The departure from a collective subroutine.
    Take {
        team: TeamNo,
        round: u64,
    },
    /// The arrival at SYNC IMAGES (11.6.4) with these images.
    Pair {
        images: Listing<ImageNo>,
    },
    /// The departure from SYNC IMAGES.
    Unpair,
    /// CRITICAL (11.1.6), by the number of the construct in source order from 1.
    Enter {
        construct: u32,
    },
    /// END CRITICAL (11.1.6).
    Exit {
        construct: u32,
    },
    /// The failure of the image, for control from here on.
    Gone,
    /// STOP (11.4) or END PROGRAM: normal termination (5.3.7), code 0 where none is given.
    Stop {
        code: i64,
    },
    /// FAILED_IMAGES (16.9) of a team.
    Failed {
        team: TeamNo,
    },
    /// STOPPED_IMAGES (16.9) of a team.
    Stopped {
        team: TeamNo,
    },
    /// IMAGE_STATUS (16.9) of an image index in a team.
    Status {
        team: TeamNo,
        index: u32,
    },
    /// Output of text to the unit `*`.
    Print {
        text: Text,
    },
    /// SYNC MEMORY (11.6.5): a step of the image alone.
    Memory,
    /// The start of a failure, by FAIL IMAGE (11.5) or from outside.
    Fail,
    /// ERROR STOP (11.4), or a status that no STAT= takes (11.6.11).
    ErrorStop {
        code: i64,
    },
    /// A run fault.
    Fault {
        kind: FaultKind,
    },
    /// The statement limit: the number of the statement that would pass it.
    LimitStatements {
        number: u64,
    },
    /// The limit of recorded words: how many there are.
    LimitWords {
        number: u64,
    },
    /// The limit of stamps: the last one.
    LimitStamp {
        number: u64,
    },
}

impl Ask {
    /// The object of the ask.
    pub fn place(&self) -> Place
        ensures { result ≡ place_of self.now }
    {
        match self {
            Ask::Read { owner, .. }
            | Ask::Write { owner, .. }
            | Ask::Create { owner, .. }
            | Ask::Delete { owner, .. }
            | Ask::Atomic { owner, .. }
            | Ask::Lock { owner, .. }
            | Ask::TryLock { owner, .. }
            | Ask::Unlock { owner, .. }
            | Ask::Post { owner, .. }
            | Ask::Wait { owner, .. }
            | Ask::Query { owner, .. }
            | Ask::Mark { owner, .. }
            | Ask::Free { owner, .. } => Place::Memory(*owner),
            Ask::Arrive { .. }
            | Ask::Leave { .. }
            | Ask::Gather { .. }
            | Ask::Take { .. }
            | Ask::Pair { .. }
            | Ask::Unpair
            | Ask::Enter { .. }
            | Ask::Exit { .. }
            | Ask::Gone
            | Ask::Stop { .. }
            | Ask::Failed { .. }
            | Ask::Stopped { .. }
            | Ask::Status { .. } => Place::Board,
            Ask::Print { .. }
            | Ask::Memory
            | Ask::Fail
            | Ask::ErrorStop { .. }
            | Ask::Fault { .. }
            | Ask::LimitStatements { .. }
            | Ask::LimitWords { .. }
            | Ask::LimitStamp { .. } => Place::Own,
        }
    }
}

impl TryCopy for Ask {
    fn copy(&self) -> Result<Ask, NoMemory> {
        match self {
            Ask::Read { owner, span } => Ok(Ask::Read {
                owner: *owner,
                span: span.copy()?,
            }),
            Ask::Write {
                owner,
                span,
                values,
            } => {
                Ok(Ask::Write {
                    owner: *owner,
                    span: span.copy()?,
                    values: values.copy()?,
                })
            }
            Ask::Create {
                owner,
                coarray,
                cells,
            } => Ok(Ask::Create {
                owner: *owner,
                coarray: *coarray,
                cells: *cells,
            }),
            Ask::Delete { owner, coarray } => Ok(Ask::Delete {
                owner: *owner,
                coarray: *coarray,
            }),
            Ask::Atomic {
                owner,
                op,
                span,
                x,
                y,
            } => {
                Ok(Ask::Atomic {
                    owner: *owner,
                    op: *op,
                    span: span.copy()?,
                    x: *x,
                    y: *y,
                })
            }
            Ask::Lock { owner, span } => Ok(Ask::Lock {
                owner: *owner,
                span: span.copy()?,
            }),
            Ask::TryLock { owner, span } => Ok(Ask::TryLock {
                owner: *owner,
                span: span.copy()?,
            }),
            Ask::Unlock { owner, span } => Ok(Ask::Unlock {
                owner: *owner,
                span: span.copy()?,
            }),
            Ask::Post { owner, span } => Ok(Ask::Post {
                owner: *owner,
                span: span.copy()?,
            }),
            Ask::Wait {
                owner,
                span,
                threshold,
            } => {
                Ok(Ask::Wait {
                    owner: *owner,
                    span: span.copy()?,
                    threshold: *threshold,
                })
            }
            Ask::Query { owner, span } => Ok(Ask::Query {
                owner: *owner,
                span: span.copy()?,
            }),
            Ask::Mark { owner } => Ok(Ask::Mark { owner: *owner }),
            Ask::Free { owner, span } => Ok(Ask::Free {
                owner: *owner,
                span: span.copy()?,
            }),
            Ask::Arrive { team, arriving } => Ok(Ask::Arrive {
                team: *team,
                arriving: arriving.copy()?,
            }),
            Ask::Leave { team, round } => Ok(Ask::Leave {
                team: *team,
                round: *round,
            }),
            Ask::Gather {
                team,
                op,
                root,
                kind,
                values,
            } => {
                Ok(Ask::Gather {
                    team: *team,
                    op: *op,
                    root: *root,
                    kind: *kind,
                    values: values.copy()?,
                })
            }
            Ask::Take { team, round } => Ok(Ask::Take {
                team: *team,
                round: *round,
            }),
            Ask::Pair { images } => Ok(Ask::Pair {
                images: images.copy()?,
            }),
            Ask::Unpair => Ok(Ask::Unpair),
            Ask::Enter { construct } => Ok(Ask::Enter {
                construct: *construct,
            }),
            Ask::Exit { construct } => Ok(Ask::Exit {
                construct: *construct,
            }),
            Ask::Gone => Ok(Ask::Gone),
            Ask::Stop { code } => Ok(Ask::Stop { code: *code }),
            Ask::Failed { team } => Ok(Ask::Failed { team: *team }),
            Ask::Stopped { team } => Ok(Ask::Stopped { team: *team }),
            Ask::Status { team, index } => Ok(Ask::Status {
                team: *team,
                index: *index,
            }),
            Ask::Print { text } => Ok(Ask::Print { text: text.copy()? }),
            Ask::Memory => Ok(Ask::Memory),
            Ask::Fail => Ok(Ask::Fail),
            Ask::ErrorStop { code } => Ok(Ask::ErrorStop { code: *code }),
            Ask::Fault { kind } => Ok(Ask::Fault { kind: *kind }),
            Ask::LimitStatements { number } => Ok(Ask::LimitStatements { number: *number }),
            Ask::LimitWords { number } => Ok(Ask::LimitWords { number: *number }),
            Ask::LimitStamp { number } => Ok(Ask::LimitStamp { number: *number }),
        }
    }
}
