//! Whether an ask fits and can come.

ghost use Rattle.std.specs.Prelude.{◌≡◌, ◌&&◌, nat_le, ℕ, List, IsTrue, length};
ghost use Rattle.std.specs.List.{list_all};
ghost use Rattle.std.specs.Option.{is_some};
ghost use Rattle.caf_events.specs.declared.event.Entry.{Entry};
ghost use Rattle.caf_events.specs.declared.ask.Ask.TheVariants as asks;
ghost use Rattle.object_rules.specs.Happenings.{control, collective, images, happened, numbers_of};
ghost use Rattle.object_rules.specs.BoardRules.{is_image, is_gathered as is_gathered_by, is_root as is_root_by, has_joined, fits_board, board_ready, all_differ, is_open as is_open_by};
ghost use Rattle.object_rules.specs.Folds.{is_of_kind as is_of_kind_by};
ghost use Rattle.object_rules.specs.BoardTeams.{teams_after, members_at, closing};
ghost use Rattle.object_rules.specs.Constructs.{construct_after};
ghost use Rattle.image_sync.specs.Holds.{hold_in};
ghost use Rattle.object_rules.specs.ImagePairs.{names, pairs_of, at_pairing};
ghost use Rattle.control_board.specs.Boards.{IsBoard, IsKept, comes_by};

use crate::leaving::can_depart;
use crate::parts::{Parts, has_image, is_member};
use caf_base::place::{ImageNo, TeamNo};
use caf_base::value::{Kind, Value};
use caf_events::ask::Ask;
use caf_events::round::GatherOp;
use collectives::pair::fits;
use image_sync::criticals::Criticals;

// Whether the image can leave the round of an image control statement.
pub(crate) fn can_leave(parts: &Parts, image: ImageNo, team: TeamNo, round: u64) -> bool
    requires kept { IsKept parts.now }
    requires image { IsTrue (is_image parts.now.images image.0) }
    ensures { (n : ℕ) (h : List Entry) → IsBoard n h parts.now
        → result ≡ (has_joined control n h image.0 team.0 round && is_some (closing control team.0 round (members_at (teams_after n h) team.0) h)) }
{
    can_depart(parts, &parts.control, image, team, round)
}

// Whether the image can leave a collective subroutine.
pub(crate) fn can_take(parts: &Parts, image: ImageNo, team: TeamNo, round: u64) -> bool
    requires kept { IsKept parts.now }
    requires image { IsTrue (is_image parts.now.images image.0) }
    ensures { (n : ℕ) (h : List Entry) → IsBoard n h parts.now
        → result ≡ (has_joined collective n h image.0 team.0 round && is_some (closing collective team.0 round (members_at (teams_after n h) team.0) h)) }
{
    can_depart(parts, &parts.collective, image, team, round)
}

// Whether the values are of an integer kind, or for a broadcast of any kind.
fn is_gathered(op: GatherOp, kind: Kind) -> bool
    ensures { result ≡ is_gathered_by op kind }
{
    match kind {
        Kind::I4 => true,
        Kind::I8 => true,
        Kind::L4 => match op {
            GatherOp::Broadcast => true,
            GatherOp::Sum => false,
            GatherOp::Min => false,
            GatherOp::Max => false,
        },
    }
}

// Whether the root is an image index of a team of this size, or none where there may be none.
fn is_root(op: GatherOp, size: usize, root: u32) -> bool
    ensures { result ≡ is_root_by op size root }
{
    match op {
        GatherOp::Broadcast => root >= 1 && root as usize <= size,
        GatherOp::Sum => root as usize <= size,
        GatherOp::Min => root as usize <= size,
        GatherOp::Max => root as usize <= size,
    }
}

// Whether the value is one of the kind.
fn is_of_kind(kind: Kind, value: &Value) -> bool
    ensures { result ≡ is_of_kind_by kind value.now }
{
    match value {
        Value::Int(n) => fits(kind, *n),
        Value::Bool(_) => match kind {
            Kind::L4 => true,
            Kind::I4 => false,
            Kind::I8 => false,
        },
    }
}

// Whether all values are of the kind.
fn are_of_kind(kind: Kind, values: &[Value]) -> bool
    ensures { result ≡ list_all (is_of_kind_by kind) values.now }
{
    let mut all = true;
    for value in values {
        if !is_of_kind(kind, value) {
            all = false;
        }
    }
    all
}

// Whether what an image brings to a collective subroutine fits.
fn fits_gather(size: usize, op: GatherOp, root: u32, kind: Kind, values: &[Value]) -> bool
    ensures { result ≡ (is_gathered_by op kind && is_root_by op size root && list_all (is_of_kind_by kind) values.now) }
{
    is_gathered(op, kind) && is_root(op, size, root) && are_of_kind(kind, values)
}

// Whether the image can come to a collective subroutine of the team.
fn can_gather(
    parts: &Parts,
    image: ImageNo,
    team: TeamNo,
    op: GatherOp,
    root: u32,
    kind: Kind,
    values: &[Value],
) -> bool
    requires { IsKept parts.now }
    ensures { (n : ℕ) (h : List Entry) → IsBoard n h parts.now → result ≡ fits_board n h image.0 (asks.Gather team op root kind values.now) }
{
    is_member(parts, team, image)
        && fits_gather(parts.teams.members(team).len(), op, root, kind, values)
}

// Whether the run has all these images.
fn are_images(images: u32, set: &[ImageNo]) -> bool
    ensures { result ≡ list_all (is_image images) (numbers_of set.now) }
{
    let mut all = true;
    for image in set {
        if !has_image(images, *image) {
            all = false;
        }
    }
    all
}

// Whether the image is one of the set.
fn has(set: &[ImageNo], image: ImageNo) -> bool
    ensures { result ≡ names image.0 (numbers_of set.now) }
{
    let mut found = false;
    for member in set {
        if image.0 == member.0 {
            found = true;
        }
    }
    found
}

// Whether none of the images stands in the list twice.
fn differ(set: &[ImageNo]) -> bool
    ensures { result ≡ all_differ (numbers_of set.now) }
{
    let mut all = true;
    let mut at = set.len();
    while at > 0 {
        at -= 1;
        if has(&set[at + 1..], set[at]) {
            all = false;
        }
    }
    all
}

// Whether SYNC IMAGES can name this set: images of the run, each once.
fn can_name(images: u32, set: &[ImageNo]) -> bool
    ensures { result ≡ (list_all (is_image images) (numbers_of set.now) && all_differ (numbers_of set.now)) }
{
    are_images(images, set) && differ(set)
}

// Whether the image has begun SYNC IMAGES and its last one has closed.
fn can_unpair(parts: &Parts, image: ImageNo) -> bool
    requires kept { IsKept parts.now }
    requires image { IsTrue (is_image parts.now.images image.0) }
    ensures { (n : ℕ) (h : List Entry) → IsBoard n h parts.now
        → result ≡ (nat_le 1 (pairs_of image.0 (happened images h)) && is_some (at_pairing image.0 (pairs_of image.0 (happened images h)) (happened images h))) }
{
    parts.pairs.begun(image) >= 1 && parts.pairs.closed(image)
}

// Whether nobody is inside the construct.
fn is_open(criticals: &Criticals, construct: u32) -> bool
    ensures { result ≡ is_open_by (hold_in criticals.now.constructs construct) }
{
    criticals.inside(construct).is_none()
}

// Whether the team of the image has this index.
fn has_index(parts: &Parts, image: ImageNo, team: TeamNo, index: u32) -> bool
    requires { IsKept parts.now }
    ensures { (n : ℕ) (h : List Entry) → IsBoard n h parts.now
        → result ≡ (names image.0 (members_at (teams_after n h) team.0) && nat_le 1 index && nat_le index (length (members_at (teams_after n h) team.0))) }
{
    is_member(parts, team, image) && index >= 1 && index as usize <= parts.teams.members(team).len()
}

// Whether an ask of an image of the run fits and can come.
fn comes(parts: &Parts, image: ImageNo, ask: &Ask) -> bool
    requires kept { IsKept parts.now }
    requires image { IsTrue (is_image parts.now.images image.0) }
    ensures { (n : ℕ) (h : List Entry) → IsBoard n h parts.now → result ≡ comes_by n h image.0 ask.now }
{
    match ask {
        Ask::Arrive { team, .. } => is_member(parts, *team, image),
        Ask::Leave { team, round } => can_leave(parts, image, *team, *round),
        Ask::Gather {
            team,
            op,
            root,
            kind,
            values,
        } => can_gather(parts, image, *team, *op, *root, *kind, values.as_slice()),
        Ask::Take { team, round } => can_take(parts, image, *team, *round),
        Ask::Pair { images } => can_name(parts.images, images.as_slice()),
        Ask::Unpair => can_unpair(parts, image),
        Ask::Enter { construct } => is_open(&parts.criticals, *construct),
        Ask::Exit { .. } => true,
        Ask::Gone => true,
        Ask::Stop { .. } => true,
        Ask::Failed { team } => is_member(parts, *team, image),
        Ask::Stopped { team } => is_member(parts, *team, image),
        Ask::Status { team, index } => has_index(parts, image, *team, *index),
        _ => false,
    }
}

// Whether an ask fits and can come.
pub(crate) fn is_ready(parts: &Parts, image: ImageNo, ask: &Ask) -> bool
    requires { IsKept parts.now }
    ensures { (n : ℕ) (h : List Entry) → IsBoard n h parts.now → result ≡ board_ready n h image.0 ask.now }
{
    has_image(parts.images, image) && comes(parts, image, ask)
}
