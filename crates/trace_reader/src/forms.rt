//! Which replies the line of an ask can show.

ghost use Rattle.std.specs.Prelude.{◌≡◌};
ghost use Rattle.trace_forms.specs.Replies.{statuses_of};
ghost use Rattle.trace_reader.specs.Checks as checks;
ghost use Rattle.trace_reader.specs.Kinds as kinds;

use crate::reply::{ReplyKind, reply_kind};
use caf_base::value::Value;
use caf_events::ask::Ask;
use caf_events::reply::Reply;

// Whether the ask is answered that there is nothing to tell.
fn is_done(ask: &Ask) -> bool
    ensures { result ≡ checks.is_done ask.now }
{
    matches!(
        ask,
        Ask::Write { .. }
            | Ask::Create { .. }
            | Ask::Delete { .. }
            | Ask::Mark { .. }
            | Ask::Free { .. }
            | Ask::Pair { .. }
            | Ask::Exit { .. }
            | Ask::Gone
            | Ask::Stop { .. }
            | Ask::Print { .. }
            | Ask::Memory
            | Ask::Fail
            | Ask::ErrorStop { .. }
            | Ask::Fault { .. }
            | Ask::LimitStatements { .. }
            | Ask::LimitWords { .. }
            | Ask::LimitStamp { .. }
    )
}

// Whether the ask can be answered that the memory's owner has failed.
fn may_be_dead(ask: &Ask) -> bool
    ensures { result ≡ checks.may_be_dead ask.now }
{
    matches!(
        ask,
        Ask::Read { .. } | Ask::Write { .. } | Ask::Atomic { .. } | Ask::Free { .. }
    )
}

// Whether the ask can be answered that the coarray isn't there.
fn may_be_absent(ask: &Ask) -> bool
    ensures { result ≡ checks.may_be_absent ask.now }
{
    matches!(
        ask,
        Ask::Read { .. }
            | Ask::Write { .. }
            | Ask::Atomic { .. }
            | Ask::Lock { .. }
            | Ask::TryLock { .. }
            | Ask::Unlock { .. }
            | Ask::Post { .. }
            | Ask::Free { .. }
    )
}

fn is_atomic(ask: &Ask) -> bool
    ensures { result ≡ checks.is_atomic ask.now }
{
    matches!(ask, Ask::Atomic { .. })
}

fn is_try_lock(ask: &Ask) -> bool
    ensures { result ≡ checks.is_try_lock ask.now }
{
    matches!(ask, Ask::TryLock { .. })
}

// Whether a reply is of a kind, and no word.
fn is_of_kind(kind: ReplyKind, reply: &Reply) -> bool
    ensures { result ≡ kinds.is_of_kind kind reply.now }
{
    match reply {
        Reply::Values { .. } => matches!(kind, ReplyKind::Values),
        Reply::Old { .. } => matches!(kind, ReplyKind::Old),
        Reply::Number { .. } => matches!(kind, ReplyKind::Number),
        Reply::Count { .. } => matches!(kind, ReplyKind::Count),
        Reply::Round { .. } | Reply::Clash { .. } => matches!(kind, ReplyKind::Round),
        Reply::Indices { .. } => matches!(kind, ReplyKind::Indices),
        Reply::Taken { .. } => matches!(kind, ReplyKind::Taken),
        Reply::Left { .. } => matches!(kind, ReplyKind::Left),
        _ => false,
    }
}

// Whether a reply answers an ask.
fn is_answered(ask: &Ask, reply: &Reply) -> bool
    ensures { result ≡ checks.is_answered ask.now reply.now }
{
    match reply {
        Reply::Done => is_done(ask),
        Reply::Dead => may_be_dead(ask),
        Reply::Absent => may_be_absent(ask),
        Reply::Overflow => is_atomic(ask),
        Reply::Busy => is_try_lock(ask),
        _ => is_of_kind(reply_kind(ask), reply),
    }
}

// The statuses in the replies to an ask.
fn statuses(ask: &Ask) -> &'static [i32]
    ensures { result.now ≡ statuses_of ask.now }
{
    match ask {
        Ask::Lock { .. } | Ask::TryLock { .. } => &[0, 6001, 6002, 6003],
        Ask::Unlock { .. } => &[0, 6001, 6004, 6005],
        Ask::Post { .. } | Ask::Enter { .. } => &[0, 6001],
        Ask::Wait { .. } => &[0],
        Ask::Leave { .. } | Ask::Take { .. } => &[0, 6000, 6001, 6006],
        Ask::Unpair | Ask::Status { .. } => &[0, 6000, 6001],
        _ => &[],
    }
}

// Whether a status is one of those of an ask.
fn is_status_of(ask: &Ask, status: i32) -> bool
    ensures { result ≡ checks.is_status_of ask.now status }
{
    statuses(ask).iter().any(|known| status == *known)
}

// Whether values can come with a status.
fn comes_with(status: i32, values: &[Value]) -> bool
    ensures { result ≡ checks.comes_with status values.now }
{
    status == 0 || values.is_empty()
}

// Whether the status of a reply is one of the ask's.
fn has_status_of(ask: &Ask, reply: &Reply) -> bool
    ensures { result ≡ checks.has_status_of ask.now reply.now }
{
    match reply {
        Reply::Number { status } | Reply::Left { status, .. } => is_status_of(ask, *status),
        Reply::Taken { status, values } => {
            is_status_of(ask, *status) && comes_with(*status, values.as_slice())
        }
        _ => true,
    }
}

/// Whether a reply has one of the forms that the line of an ask can show.
pub(crate) fn has_form(ask: &Ask, reply: &Reply) -> bool
    ensures { result ≡ checks.has_form ask.now reply.now }
{
    is_answered(ask, reply) && has_status_of(ask, reply)
}
