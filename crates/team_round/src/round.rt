//! One round of a team.

ghost use Rattle.std.specs.Prelude.{◌≡◌};
ghost use Rattle.object_rules.specs.Kinds.{same_kind as same_kinds};

use caf_base::place::ImageNo;
use caf_events::round::RoundKind;

/// A round that has an arrival: its kind, the image and the line of its first arrival, and where it has closed its
/// status.
#[derive(Drop)]
pub struct Round {
    pub kind: RoundKind,
    pub image: ImageNo,
    pub line: u32,
    pub closed: Option<i32>,
}

/// What comes of an arrival: it joined the round of this number, or it is of another kind than the round's first one,
/// which has this image and line.
#[derive(Clone, Copy)]
pub enum Arrival {
    Joined(u64),
    Clash { image: ImageNo, line: u32 },
}

/// Whether two arrivals are of one kind.
pub fn same_kind(a: &RoundKind, b: &RoundKind) -> bool
    ensures { result ≡ same_kinds a.now b.now }
{
    *a == *b
}
