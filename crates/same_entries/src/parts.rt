//! Whether two parts of asks or of replies are the same.

ghost use Rattle.std.specs.Prelude.{◌≡◌, Decides};

use caf_base::place::ImageNo;
use caf_base::span::Span;
use caf_base::value::{AtomicOp, Kind, Value};
use caf_events::fault::FaultKind;
use caf_events::reply::FormedTeam;
use caf_events::round::{Allotted, Arriving, GatherOp};

pub(crate) fn same_value(a: Value, b: Value) -> bool
    ensures { Decides result (a ≡ b) }
{
    a == b
}

pub(crate) fn same_values(a: &[Value], b: &[Value]) -> bool
    ensures { Decides result (a.now ≡ b.now) }
{
    a == b
}

pub(crate) fn same_span(a: &Span, b: &Span) -> bool
    ensures { Decides result (a.now ≡ b.now) }
{
    a == b
}

pub(crate) fn same_op(a: AtomicOp, b: AtomicOp) -> bool
    ensures { Decides result (a ≡ b) }
{
    a == b
}

pub(crate) fn same_gather(a: GatherOp, b: GatherOp) -> bool
    ensures { Decides result (a ≡ b) }
{
    a == b
}

pub(crate) fn same_kind(a: Kind, b: Kind) -> bool
    ensures { Decides result (a ≡ b) }
{
    a == b
}

pub(crate) fn same_fault(a: FaultKind, b: FaultKind) -> bool
    ensures { Decides result (a ≡ b) }
{
    a == b
}

pub(crate) fn same_images(a: &[ImageNo], b: &[ImageNo]) -> bool
    ensures { Decides result (a.now ≡ b.now) }
{
    a == b
}

pub(crate) fn same_bytes(a: &[u8], b: &[u8]) -> bool
    ensures { Decides result (a.now ≡ b.now) }
{
    a == b
}

pub(crate) fn same_numbers(a: &[u32], b: &[u32]) -> bool
    ensures { Decides result (a.now ≡ b.now) }
{
    a == b
}

pub(crate) fn same_allotments(a: &[Allotted], b: &[Allotted]) -> bool
    ensures { Decides result (a.now ≡ b.now) }
{
    a == b
}

pub(crate) fn same_arriving(a: &Arriving, b: &Arriving) -> bool
    ensures { Decides result (a.now ≡ b.now) }
{
    match a {
        Arriving::Sync => match b {
            Arriving::Sync => true,
            _ => false,
        },
        Arriving::Form { number, new_index } => match b {
            Arriving::Form {
                number: n,
                new_index: i,
            } => *number == *n && *new_index == *i,
            _ => false,
        },
        Arriving::Change => match b {
            Arriving::Change => true,
            _ => false,
        },
        Arriving::End => match b {
            Arriving::End => true,
            _ => false,
        },
        Arriving::Allocate { list } => match b {
            Arriving::Allocate { list: l } => same_allotments(list.as_slice(), l.as_slice()),
            _ => false,
        },
        Arriving::Deallocate { list } => match b {
            Arriving::Deallocate { list: l } => same_numbers(list.as_slice(), l.as_slice()),
            _ => false,
        },
    }
}

pub(crate) fn same_team(a: &FormedTeam, b: &FormedTeam) -> bool
    ensures { Decides result (a.now ≡ b.now) }
{
    a.team.0 == b.team.0
        && a.number == b.number
        && same_images(a.members.as_slice(), b.members.as_slice())
}
