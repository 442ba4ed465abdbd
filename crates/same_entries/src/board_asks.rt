//! Whether two asks at the control board are the same: a function for each variant, and one for all of them.

ghost use Rattle.std.specs.Prelude.{◌≡◌, Decides};
ghost use Rattle.caf_base.specs.declared.place.Place.TheVariants.{Board};
ghost use Rattle.caf_events.specs.Asks.{place_of};
ghost use Rattle.caf_events.specs.declared.ask.Ask.TheVariants as asks;

use crate::parts::{same_arriving, same_gather, same_images, same_kind, same_values};
use caf_base::place::{ImageNo, TeamNo};
use caf_base::value::{Kind, Value};
use caf_events::ask::Ask;
use caf_events::round::{Arriving, GatherOp};

fn is_arrive(ask: &Ask, team: TeamNo, arriving: &Arriving) -> bool
    ensures { Decides result (ask.now ≡ asks.Arrive team arriving.now) }
{
    match ask {
        Ask::Arrive {
            team: the_team,
            arriving: the_arriving,
        } => the_team.0 == team.0 && same_arriving(the_arriving, arriving),
        _ => false,
    }
}

fn is_leave(ask: &Ask, team: TeamNo, round: u64) -> bool
    ensures { Decides result (ask.now ≡ asks.Leave team round) }
{
    match ask {
        Ask::Leave {
            team: the_team,
            round: the_round,
        } => the_team.0 == team.0 && *the_round == round,
        _ => false,
    }
}

fn is_gather(ask: &Ask, team: TeamNo, op: GatherOp, root: u32, kind: Kind, values: &[Value]) -> bool
    ensures { Decides result (ask.now ≡ asks.Gather team op root kind values.now) }
{
    match ask {
        Ask::Gather {
            team: the_team,
            op: the_op,
            root: the_root,
            kind: the_kind,
            values: the_values,
        } => the_team.0 == team.0
            && same_gather(*the_op, op)
            && *the_root == root
            && same_kind(*the_kind, kind)
            && same_values(the_values.as_slice(), values),
        _ => false,
    }
}

fn is_take(ask: &Ask, team: TeamNo, round: u64) -> bool
    ensures { Decides result (ask.now ≡ asks.Take team round) }
{
    match ask {
        Ask::Take {
            team: the_team,
            round: the_round,
        } => the_team.0 == team.0 && *the_round == round,
        _ => false,
    }
}

fn is_pair(ask: &Ask, images: &[ImageNo]) -> bool
    ensures { Decides result (ask.now ≡ asks.Pair images.now) }
{
    match ask {
        Ask::Pair { images: the_images } => same_images(the_images.as_slice(), images),
        _ => false,
    }
}

fn is_unpair(ask: &Ask) -> bool
    ensures { Decides result (ask.now ≡ asks.Unpair) }
{
    match ask {
        Ask::Unpair => true,
        _ => false,
    }
}

fn is_enter(ask: &Ask, construct: u32) -> bool
    ensures { Decides result (ask.now ≡ asks.Enter construct) }
{
    match ask {
        Ask::Enter {
            construct: the_construct,
        } => *the_construct == construct,
        _ => false,
    }
}

fn is_exit(ask: &Ask, construct: u32) -> bool
    ensures { Decides result (ask.now ≡ asks.Exit construct) }
{
    match ask {
        Ask::Exit {
            construct: the_construct,
        } => *the_construct == construct,
        _ => false,
    }
}

fn is_gone(ask: &Ask) -> bool
    ensures { Decides result (ask.now ≡ asks.Gone) }
{
    match ask {
        Ask::Gone => true,
        _ => false,
    }
}

fn is_stop(ask: &Ask, code: i64) -> bool
    ensures { Decides result (ask.now ≡ asks.Stop code) }
{
    match ask {
        Ask::Stop { code: the_code } => *the_code == code,
        _ => false,
    }
}

fn is_failed(ask: &Ask, team: TeamNo) -> bool
    ensures { Decides result (ask.now ≡ asks.Failed team) }
{
    match ask {
        Ask::Failed { team: the_team } => the_team.0 == team.0,
        _ => false,
    }
}

fn is_stopped(ask: &Ask, team: TeamNo) -> bool
    ensures { Decides result (ask.now ≡ asks.Stopped team) }
{
    match ask {
        Ask::Stopped { team: the_team } => the_team.0 == team.0,
        _ => false,
    }
}

fn is_status(ask: &Ask, team: TeamNo, index: u32) -> bool
    ensures { Decides result (ask.now ≡ asks.Status team index) }
{
    match ask {
        Ask::Status {
            team: the_team,
            index: the_index,
        } => the_team.0 == team.0 && *the_index == index,
        _ => false,
    }
}

/// Whether an ask is the other one, which is made at the control board.
pub(crate) fn same_at_board(a: &Ask, b: &Ask) -> bool
    requires { place_of b.now ≡ Board }
    ensures { Decides result (a.now ≡ b.now) }
{
    match b {
        Ask::Arrive { team, arriving } => is_arrive(a, *team, arriving),
        Ask::Leave { team, round } => is_leave(a, *team, *round),
        Ask::Gather {
            team,
            op,
            root,
            kind,
            values,
        } => is_gather(a, *team, *op, *root, *kind, values.as_slice()),
        Ask::Take { team, round } => is_take(a, *team, *round),
        Ask::Pair { images } => is_pair(a, images.as_slice()),
        Ask::Unpair => is_unpair(a),
        Ask::Enter { construct } => is_enter(a, *construct),
        Ask::Exit { construct } => is_exit(a, *construct),
        Ask::Gone => is_gone(a),
        Ask::Stop { code } => is_stop(a, *code),
        Ask::Failed { team } => is_failed(a, *team),
        Ask::Stopped { team } => is_stopped(a, *team),
        Ask::Status { team, index } => is_status(a, *team, *index),
        _ => false,
    }
}
