//! An ask with its reply, as the record of a run keeps it.

ghost use Rattle.std.specs.Prelude.{◌≡◌, [], true, false, IfOk, IfSome, MatchOption};
ghost use Rattle.std.specs.Cow.{cow_value};
ghost use Rattle.caf_events.specs.Exchanges.{asked_by, whole_of};
ghost use Rattle.caf_events.specs.Events.{EndsBy, IsPrint, counts_words, is_of_lock, words_by};
ghost use Rattle.caf_events.specs.declared.ask.Ask.TheVariants as asks;
ghost use Rattle.caf_events.specs.declared.reply.Reply.TheVariants as replies;
ghost use Rattle.caf_events.specs.declared.round.Arriving.TheVariants as arrivings;

use crate::ask::Ask;
use crate::event::ends_by;
use crate::reply::Reply;
use crate::round::{Arriving, GatherOp};
use caf_base::copying::TryCopy;
use caf_base::few::Few;
use caf_base::listing::Listing;
use caf_base::place::{ImageNo, TeamNo};
use caf_base::refusal::NoMemory;
use caf_base::span::{Dims, Span};
use caf_base::value::{Kind, Value};
use std::alloc::Global;
use std::borrow::Cow;
use std::marker::Model;
use std::sync::Arc;

/// An ask and its reply.
#[derive(Drop)]
pub struct Whole {
    pub ask: Ask,
    pub reply: Reply,
}

// What is asked of a lock or an event variable that has a status for its reply (11.6.7, 11.6.10).
#[derive(Clone, Copy)]
pub(crate) enum Signal {
    Lock,
    TryLock,
    Unlock,
    Post,
}

// These stand in place: a read or a write of one cell that found it, an arrival at SYNC ALL or SYNC TEAM that joined
// its round, a departure that brings no teams, a step at a lock or an event variable that has a status for its reply, a
// collective subroutine over one integer, the end of SYNC IMAGES, and CRITICAL and END CRITICAL. The others are shared
// by all that keep the same one.
#[derive(Drop)]
pub(crate) enum Kept {
    ReadCell {
        owner: ImageNo,
        coarray: u32,
        start: u32,
        value: Value,
    },
    WriteCell {
        owner: ImageNo,
        coarray: u32,
        start: u32,
        value: Value,
    },
    Joined {
        team: TeamNo,
        round: u64,
    },
    Departed {
        team: TeamNo,
        round: u64,
        status: i32,
    },
    Signaled {
        signal: Signal,
        owner: ImageNo,
        coarray: u32,
        start: u32,
        status: i32,
    },
    Waited {
        owner: ImageNo,
        coarray: u32,
        start: u32,
        threshold: u64,
        status: i32,
    },
    Gathered {
        op: GatherOp,
        kind: Kind,
        team: TeamNo,
        root: u32,
        number: i64,
        round: u64,
    },
    Taken {
        team: TeamNo,
        round: u64,
        status: i32,
        number: i64,
    },
    Unpaired {
        status: i32,
    },
    Entered {
        construct: u32,
        status: i32,
    },
    Exited {
        construct: u32,
    },
    Shared(Arc<Whole>),
}

/// An ask with its reply. In a contract it is these two.
#[derive(Drop)]
pub struct Exchange {
    kept: Kept,
}

impl Model for Exchange {
    ghost use Rattle.caf_events.specs.declared.exchange.Whole.{Whole};
    ghost use Rattle.caf_events.specs.Exchanges.{whole_of};

    ghost Value = { Whole };

    ghost view = { λ e. whole_of e.kept };
}

// The exchange of a read, where it is of one cell.
fn kept_read(owner: ImageNo, span: &Span, values: &[Value]) -> Option<Kept>
    ensures { IfSome result (λ k. whole_of k ≡ record { ask = asks.Read owner span.now; reply = replies.Values values.now }) }
{
    match values {
        [value] if span.dims.is_empty() => Some(Kept::ReadCell {
            owner,
            coarray: span.coarray,
            start: span.start,
            value: *value,
        }),
        _ => None,
    }
}

// The exchange of a write, where it is of one cell.
fn kept_write(owner: ImageNo, span: &Span, values: &[Value]) -> Option<Kept>
    ensures { IfSome result (λ k. whole_of k ≡ record { ask = asks.Write owner span.now values.now; reply = replies.Done }) }
{
    match values {
        [value] if span.dims.is_empty() => Some(Kept::WriteCell {
            owner,
            coarray: span.coarray,
            start: span.start,
            value: *value,
        }),
        _ => None,
    }
}

// The ask of a lock or an event variable.
fn signal_ask(signal: Signal, owner: ImageNo, span: Span) -> Ask
    ensures { result ≡ asked_by signal owner span }
{
    match signal {
        Signal::Lock => Ask::Lock { owner, span },
        Signal::TryLock => Ask::TryLock { owner, span },
        Signal::Unlock => Ask::Unlock { owner, span },
        Signal::Post => Ask::Post { owner, span },
    }
}

// The exchange of a lock or an event variable, where its reply is a status.
fn kept_signal(signal: Signal, owner: ImageNo, span: &Span, reply: &Reply) -> Option<Kept>
    ensures { IfSome result (λ k. whole_of k ≡ record { ask = asked_by signal owner span.now; reply = reply.now }) }
{
    match reply {
        Reply::Number { status } if span.dims.is_empty() => Some(Kept::Signaled {
            signal,
            owner,
            coarray: span.coarray,
            start: span.start,
            status: *status,
        }),
        _ => None,
    }
}

// The exchange of an EVENT WAIT, where its reply is a status.
fn kept_wait(owner: ImageNo, span: &Span, threshold: u64, reply: &Reply) -> Option<Kept>
    ensures { IfSome result (λ k. whole_of k ≡ record { ask = asks.Wait owner span.now threshold; reply = reply.now }) }
{
    match reply {
        Reply::Number { status } if span.dims.is_empty() => Some(Kept::Waited {
            owner,
            coarray: span.coarray,
            start: span.start,
            threshold,
            status: *status,
        }),
        _ => None,
    }
}

// The exchange of an arrival at a collective subroutine with one integer, where it joined a round.
fn kept_gather(
    team: TeamNo,
    op: GatherOp,
    root: u32,
    kind: Kind,
    values: &[Value],
    reply: &Reply,
) -> Option<Kept>
    ensures { IfSome result (λ k. whole_of k ≡ record { ask = asks.Gather team op root kind values.now; reply = reply.now }) }
{
    match (values, reply) {
        ([Value::Int(number)], Reply::Round { round }) => Some(Kept::Gathered {
            team,
            op,
            root,
            kind,
            number: *number,
            round: *round,
        }),
        _ => None,
    }
}

// The exchange of a departure from a collective subroutine, where it brings one integer.
fn kept_take(team: TeamNo, round: u64, status: i32, values: &[Value]) -> Option<Kept>
    ensures { IfSome result (λ k. whole_of k ≡ record { ask = asks.Take team round; reply = replies.Taken status values.now }) }
{
    match values {
        [Value::Int(number)] => Some(Kept::Taken {
            team,
            round,
            status,
            number: *number,
        }),
        _ => None,
    }
}

// What is kept in place of an ask with the reply that there is nothing to tell, at a construct.
fn kept_exit(construct: u32, reply: &Reply) -> Option<Kept>
    ensures { IfSome result (λ k. whole_of k ≡ record { ask = asks.Exit construct; reply = reply.now }) }
{
    match reply {
        Reply::Done => Some(Kept::Exited { construct }),
        _ => None,
    }
}

// What is kept in place of an ask and its reply; None where they are shared.
fn in_place(ask: &Ask, reply: &Reply) -> Option<Kept>
    ensures { IfSome result (λ k. whole_of k ≡ record { ask = ask.now; reply = reply.now }) }
{
    match (ask, reply) {
        (Ask::Read { owner, span }, Reply::Values { values }) => {
            kept_read(*owner, span, values.as_slice())
        }
        (
            Ask::Write {
                owner,
                span,
                values,
            },
            Reply::Done,
        ) => kept_write(*owner, span, values.as_slice()),
        (
            Ask::Arrive {
                team,
                arriving: Arriving::Sync,
            },
            Reply::Round { round },
        ) => {
            Some(Kept::Joined {
                team: *team,
                round: *round,
            })
        }
        (Ask::Leave { team, round }, Reply::Left { status, teams }) if teams.len() == 0 => {
            Some(Kept::Departed {
                team: *team,
                round: *round,
                status: *status,
            })
        }
        (Ask::Lock { owner, span }, _) => kept_signal(Signal::Lock, *owner, span, reply),
        (Ask::TryLock { owner, span }, _) => kept_signal(Signal::TryLock, *owner, span, reply),
        (Ask::Unlock { owner, span }, _) => kept_signal(Signal::Unlock, *owner, span, reply),
        (Ask::Post { owner, span }, _) => kept_signal(Signal::Post, *owner, span, reply),
        (
            Ask::Wait {
                owner,
                span,
                threshold,
            },
            _,
        ) => kept_wait(*owner, span, *threshold, reply),
        (
            Ask::Gather {
                team,
                op,
                root,
                kind,
                values,
            },
            _,
        ) => kept_gather(*team, *op, *root, *kind, values.as_slice(), reply),
        (Ask::Take { team, round }, Reply::Taken { status, values }) => {
            kept_take(*team, *round, *status, values.as_slice())
        }
        (Ask::Unpair, Reply::Number { status }) => Some(Kept::Unpaired { status: *status }),
        (Ask::Enter { construct }, Reply::Number { status }) => Some(Kept::Entered {
            construct: *construct,
            status: *status,
        }),
        (Ask::Exit { construct }, _) => kept_exit(*construct, reply),
        _ => None,
    }
}

impl Exchange {
    /// The exchange of this ask with this reply. It takes memory where it doesn't stand in place.
    pub fn new(alloc: Global, ask: &Ask, reply: &Reply) -> Result<Exchange, NoMemory>
        ensures { IfOk result (λ e. e ≡ record { ask = ask.now; reply = reply.now }) }
    {
        match in_place(ask, reply) {
            Some(kept) => Ok(Exchange { kept }),
            None => {
                let whole = Whole {
                    ask: ask.copy()?,
                    reply: reply.copy()?,
                };
                Ok(Exchange {
                    kept: Kept::Shared(Arc::new(alloc, whole)?),
                })
            }
        }
    }

    /// The same, and the reply is given up.
    pub fn with_reply(alloc: Global, ask: &Ask, reply: Reply) -> Result<Exchange, NoMemory>
        ensures { IfOk result (λ e. e ≡ record { ask = ask.now; reply = reply }) }
    {
        let told = Exchange::new(alloc, ask, &reply);
        drop(reply);
        told
    }

    /// The ask. It takes no memory.
    pub fn ask(&self, alloc: Global) -> Cow<'_, Ask>
        ensures { cow_value result ≡ self.now.ask }
    {
        match &self.kept {
            Kept::ReadCell {
                owner,
                coarray,
                start,
                ..
            } => Cow::Owned(Ask::Read {
                owner: *owner,
                span: cell(alloc, *coarray, *start),
            }),
            Kept::WriteCell {
                owner,
                coarray,
                start,
                value,
            } => Cow::Owned(Ask::Write {
                owner: *owner,
                span: cell(alloc, *coarray, *start),
                values: Few::of_one(*value),
            }),
            Kept::Joined { team, .. } => Cow::Owned(Ask::Arrive {
                team: *team,
                arriving: Arriving::Sync,
            }),
            Kept::Departed { team, round, .. } => Cow::Owned(Ask::Leave {
                team: *team,
                round: *round,
            }),
            Kept::Signaled {
                signal,
                owner,
                coarray,
                start,
                ..
            } => Cow::Owned(signal_ask(*signal, *owner, cell(alloc, *coarray, *start))),
            Kept::Waited {
                owner,
                coarray,
                start,
                threshold,
                ..
            } => Cow::Owned(Ask::Wait {
                owner: *owner,
                span: cell(alloc, *coarray, *start),
                threshold: *threshold,
            }),
            Kept::Gathered {
                team,
                op,
                root,
                kind,
                number,
                ..
            } => Cow::Owned(Ask::Gather {
                team: *team,
                op: *op,
                root: *root,
                kind: *kind,
                values: Few::of_one(Value::Int(*number)),
            }),
            Kept::Taken { team, round, .. } => Cow::Owned(Ask::Take {
                team: *team,
                round: *round,
            }),
            Kept::Unpaired { .. } => Cow::Owned(Ask::Unpair),
            Kept::Entered { construct, .. } => Cow::Owned(Ask::Enter {
                construct: *construct,
            }),
            Kept::Exited { construct } => Cow::Owned(Ask::Exit {
                construct: *construct,
            }),
            Kept::Shared(whole) => Cow::Borrowed(&whole.ask),
        }
    }

    /// The reply. It takes no memory.
    pub fn reply(&self, alloc: Global) -> Cow<'_, Reply>
        ensures { cow_value result ≡ self.now.reply }
    {
        match &self.kept {
            Kept::ReadCell { value, .. } => Cow::Owned(Reply::Values {
                values: Few::of_one(*value),
            }),
            Kept::WriteCell { .. } => Cow::Owned(Reply::Done),
            Kept::Joined { round, .. } => Cow::Owned(Reply::Round { round: *round }),
            Kept::Departed { status, .. } => Cow::Owned(Reply::Left {
                status: *status,
                teams: Listing::new(alloc),
            }),
            Kept::Signaled { status, .. }
            | Kept::Waited { status, .. }
            | Kept::Unpaired { status }
            | Kept::Entered { status, .. } => Cow::Owned(Reply::Number { status: *status }),
            Kept::Gathered { round, .. } => Cow::Owned(Reply::Round { round: *round }),
            Kept::Taken { status, number, .. } => Cow::Owned(Reply::Taken {
                status: *status,
                values: Few::of_one(Value::Int(*number)),
            }),
            Kept::Exited { .. } => Cow::Owned(Reply::Done),
            Kept::Shared(whole) => Cow::Borrowed(&whole.reply),
        }
    }

    /// The ask and the reply where they end the run.
    pub fn ending(&self) -> Option<&Whole>
        ensures { MatchOption result (¬ EndsBy self.now.ask self.now.reply) (λ w. w.now ≡ self.now) }
    {
        match &self.kept {
            Kept::Shared(whole) if ends_by(&whole.ask, &whole.reply) => Some(whole),
            _ => None,
        }
    }

    /// The text where the ask is to print.
    pub fn printed(&self) -> Option<&[u8]>
        ensures { MatchOption result (¬ IsPrint self.now.ask) (λ t. self.now.ask ≡ asks.Print t.now) }
    {
        match &self.kept {
            Kept::Shared(whole) => match &whole.ask {
                Ask::Print { text } => Some(text.as_slice()),
                _ => None,
            },
            _ => None,
        }
    }

    /// The recorded words of the step, where it records some and asks nothing of a lock, and that is seen without its
    /// ask. None says nothing.
    pub fn plain_words(&self) -> Option<u32>
        ensures recorded { IfSome result (λ _. counts_words self.now.ask ≡ true) }
        ensures lock { IfSome result (λ _. is_of_lock self.now.ask ≡ false) }
        ensures words { IfSome result (λ w. words_by self.now.ask self.now.reply ≡ w) }
    {
        match &self.kept {
            Kept::ReadCell { .. }
            | Kept::WriteCell { .. }
            | Kept::Gathered { .. }
            | Kept::Taken { .. } => Some(5),
            Kept::Joined { .. }
            | Kept::Departed { .. }
            | Kept::Waited { .. }
            | Kept::Unpaired { .. }
            | Kept::Entered { .. }
            | Kept::Exited { .. } => Some(4),
            Kept::Signaled { .. } | Kept::Shared(_) => None,
        }
    }

    /// The team and the round, where the step is an arrival at SYNC ALL or SYNC TEAM that joined the round, and is kept
    /// in place. None says nothing.
    pub fn joined(&self) -> Option<(TeamNo, u64)>
        ensures { IfSome result (λ j. self.now ≡ record { ask = asks.Arrive j.0 arrivings.Sync; reply = replies.Round j.1 }) }
    {
        match &self.kept {
            Kept::Joined { team, round } => Some((*team, *round)),
            _ => None,
        }
    }

    /// The team and the round, where the step is the departure from a round, and is kept in place. None says nothing.
    pub fn departed(&self) -> Option<(TeamNo, u64)>
        ensures { IfSome result (λ d. self.now.ask ≡ asks.Leave d.0 d.1) }
    {
        match &self.kept {
            Kept::Departed { team, round, .. } => Some((*team, *round)),
            _ => None,
        }
    }

    // What is kept.
    pub(crate) fn kept(&self) -> &Kept
        ensures { whole_of result.now ≡ self.now }
    {
        &self.kept
    }
}

// The one cell of a coarray at an offset.
fn cell(alloc: Global, coarray: u32, start: u32) -> Span
    ensures { result ≡ record { coarray = coarray; start = start; dims = [] } }
{
    Span {
        coarray,
        start,
        dims: Dims::new(alloc),
    }
}

impl TryCopy for Exchange {
    fn copy(&self) -> Result<Exchange, NoMemory> {
        match &self.kept {
            Kept::ReadCell {
                owner,
                coarray,
                start,
                value,
            } => Ok(Exchange {
                kept: Kept::ReadCell {
                    owner: *owner,
                    coarray: *coarray,
                    start: *start,
                    value: *value,
                },
            }),
            Kept::WriteCell {
                owner,
                coarray,
                start,
                value,
            } => Ok(Exchange {
                kept: Kept::WriteCell {
                    owner: *owner,
                    coarray: *coarray,
                    start: *start,
                    value: *value,
                },
            }),
            Kept::Joined { team, round } => Ok(Exchange {
                kept: Kept::Joined {
                    team: *team,
                    round: *round,
                },
            }),
            Kept::Departed {
                team,
                round,
                status,
            } => Ok(Exchange {
                kept: Kept::Departed {
                    team: *team,
                    round: *round,
                    status: *status,
                },
            }),
            Kept::Signaled {
                signal,
                owner,
                coarray,
                start,
                status,
            } => Ok(Exchange {
                kept: Kept::Signaled {
                    signal: *signal,
                    owner: *owner,
                    coarray: *coarray,
                    start: *start,
                    status: *status,
                },
            }),
            Kept::Waited {
                owner,
                coarray,
                start,
                threshold,
                status,
            } => Ok(Exchange {
                kept: Kept::Waited {
                    owner: *owner,
                    coarray: *coarray,
                    start: *start,
                    threshold: *threshold,
                    status: *status,
                },
            }),
            Kept::Gathered {
                team,
                op,
                root,
                kind,
                number,
                round,
            } => Ok(Exchange {
                kept: Kept::Gathered {
                    team: *team,
                    op: *op,
                    root: *root,
                    kind: *kind,
                    number: *number,
                    round: *round,
                },
            }),
            Kept::Taken {
                team,
                round,
                status,
                number,
            } => Ok(Exchange {
                kept: Kept::Taken {
                    team: *team,
                    round: *round,
                    status: *status,
                    number: *number,
                },
            }),
            Kept::Unpaired { status } => Ok(Exchange {
                kept: Kept::Unpaired { status: *status },
            }),
            Kept::Entered { construct, status } => Ok(Exchange {
                kept: Kept::Entered {
                    construct: *construct,
                    status: *status,
                },
            }),
            Kept::Exited { construct } => Ok(Exchange {
                kept: Kept::Exited {
                    construct: *construct,
                },
            }),
            Kept::Shared(whole) => Ok(Exchange {
                kept: Kept::Shared(whole.clone()?),
            }),
        }
    }
}
