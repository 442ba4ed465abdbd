//! The step of an ask at the board.

ghost use Rattle.std.specs.Prelude.{◌≡◌, ◌<◌, ◌≤◌, ◌^◌, ℕ, ℤ, List, true, length, OnOk, IsTrue};
ghost use Rattle.caf_events.specs.declared.ask.Ask.{Ask};
ghost use Rattle.object_rules.specs.BoardRules.{board_ready};
ghost use Rattle.caf_events.specs.declared.ask.Ask.TheVariants as asks;
ghost use Rattle.caf_base.specs.declared.value.Kind.{Kind};
ghost use Rattle.caf_events.specs.declared.event.Entry.{Entry};
ghost use Rattle.caf_events.specs.declared.round.GatherOp.{GatherOp};
ghost use Rattle.caf_events.specs.declared.round.Arriving.TheVariants as arrivings;
ghost use Rattle.caf_events.specs.declared.round.RoundKind.TheVariants as kinds;
ghost use Rattle.control_board.specs.Boards.{IsBoard, CanEndNow, Asked, CanStep, CanStop, CanGather, GatherRoom, ArriveRoom, HasGrown, MakesNoTeam, IsPlanAt, PlanFits, Planned, IsPlanned, StepsTo, StepBy, PartsRoom, table_of, is_end_ask};

use crate::brought::{keep_joined, make_room_for};
use crate::forming::{form_of, keep_bad, keep_given};
use crate::parts::Parts;
use crate::planning::{enact_plan, end_plan, form_team_plan, make_room_for_teams};
use crate::reply::{kind_from, kind_with};
use caf_base::few::Few;
use caf_base::listing::Listing;
use caf_base::place::{INITIAL_TEAM, ImageNo, TeamNo};
use caf_base::refusal::NoMemory;
use caf_base::value::Value;
use caf_events::ask::Ask;
use caf_events::round::{Arriving, RoundKind};
use std::alloc::Global;
use team_tree::arg::FormArg;

// Makes room for what the image brings to a collective subroutine of the team.
fn make_room_to_gather(
    alloc: Global,
    parts: &mut Parts,
    image: ImageNo,
    team: TeamNo,
    values: &[Value],
) -> Result<(), NoMemory>
    requires { ((0 < team.0) × (team.0 ≤ length parts.old.collective.teams) × (team.0 ≤ length parts.old.brought.items)) × ((0 < image.0) × (image.0 ≤ length (table_of parts.old.brought.items team.0))) }
    ensures kept { HasGrown parts.old parts.new }
    ensures room { OnOk result (GatherRoom parts.new image.0 team.0 (length values.now)) }
{
    if values.len() > 4_294_967_295 {
        return Err(NoMemory);
    }
    parts.collective.reserve(alloc, team, 0)?;
    make_room_for(&mut parts.brought, team, image)
}

// Makes room for an arrival at a round of the team that isn't at FORM TEAM: it makes no team.
fn make_room_to_join(alloc: Global, parts: &mut Parts, team: TeamNo) -> Result<(), NoMemory>
    requires team { (0 < team.0) × (team.0 ≤ length parts.old.control.teams) }
    requires few { length parts.old.teams.teams < 2 ^ 32 }
    ensures kept { HasGrown parts.old parts.new }
    ensures room { OnOk result (ArriveRoom parts.new team.0) }
    ensures planned { MakesNoTeam parts.new.plan }
{
    parts.plan.clear(alloc);
    parts.forms.reserve(1)?;
    parts.bad.reserve(1)?;
    parts.control.reserve(alloc, team, 0)
}

// Makes room for an arrival at FORM TEAM, and plans what it makes.
fn make_room_to_form(
    alloc: Global,
    parts: &mut Parts,
    team: TeamNo,
    arg: FormArg,
) -> Result<(), NoMemory>
    requires { Asked parts.old arg.image.0 (asks.Arrive team (arrivings.Form arg.number arg.new_index)) }
    ensures kept { HasGrown parts.old parts.new }
    ensures room { OnOk result (ArriveRoom parts.new team.0) }
    ensures planned { OnOk result (IsPlanAt parts.old arg.image team (arrivings.Form arg.number arg.new_index) parts.new.plan) }
{
    parts.plan = form_team_plan(alloc, parts, team, arg)?;
    parts.forms.reserve(1)?;
    parts.bad.reserve(1)?;
    make_room_for_teams(alloc, parts, team)
}

// Makes room for an arrival at a round of the team, and plans what it makes.
fn make_room_to_arrive(
    alloc: Global,
    parts: &mut Parts,
    image: ImageNo,
    team: TeamNo,
    arriving: &Arriving,
) -> Result<(), NoMemory>
    requires { Asked parts.old image.0 (asks.Arrive team arriving.now) }
    ensures kept { HasGrown parts.old parts.new }
    ensures room { OnOk result (ArriveRoom parts.new team.0) }
    ensures planned { OnOk result (IsPlanAt parts.old image team arriving.now parts.new.plan) }
{
    match form_of(image, arriving) {
        Some(arg) => make_room_to_form(alloc, parts, team, arg),
        None => make_room_to_join(alloc, parts, team),
    }
}

// Makes room for the end of the image, and plans what it makes.
fn make_room_to_end(
    alloc: Global,
    parts: &mut Parts,
    image: ImageNo,
    failed: bool,
) -> Result<(), NoMemory>
    requires { CanEndNow parts.old image.0 }
    ensures kept { HasGrown parts.old parts.new }
    ensures room { OnOk result (PlanFits parts.new parts.new.plan) }
    ensures planned { OnOk result ((ask : Ask) (n : ℕ) (h : List Entry) → is_end_ask failed ask ≡ true → IsBoard n h parts.old → IsTrue (board_ready n h image.0 ask) → Planned n h parts.new.plan image ask) }
{
    parts.plan = end_plan(alloc, parts, image, failed)?;
    make_room_for_teams(alloc, parts, INITIAL_TEAM)
}

// Makes room for the step of an ask of an image.
pub(crate) fn make_room(
    alloc: Global,
    parts: &mut Parts,
    image: ImageNo,
    ask: &Ask,
) -> Result<(), NoMemory>
    requires { Asked parts.old image.0 ask.now }
    ensures kept { (n : ℕ) (h : List Entry) → IsBoard n h parts.old → IsBoard n h parts.new }
    ensures room { OnOk result (PartsRoom parts.new image.0 ask.now) }
    ensures planned { OnOk result ((n : ℕ) (h : List Entry) → IsBoard n h parts.old → IsTrue (board_ready n h image.0 ask.now) → IsPlanned n h parts.new.plan image ask.now) }
{
    match ask {
        Ask::Arrive { team, arriving } => make_room_to_arrive(alloc, parts, image, *team, arriving),
        Ask::Gather { team, values, .. } => {
            make_room_to_gather(alloc, parts, image, *team, values.as_slice())
        }
        Ask::Enter { construct } => parts.criticals.reserve(*construct),
        Ask::Gone => make_room_to_end(alloc, parts, image, true),
        Ask::Stop { .. } => make_room_to_end(alloc, parts, image, false),
        _ => Ok(()),
    }
}

// The image arrives at a round of the team.
fn arrive(parts: &mut Parts, image: ImageNo, team: TeamNo, arriving: Arriving, line: u32)
    requires { CanStep parts.old image.0 (asks.Arrive team arriving) }
    ensures { StepsTo parts.old image (asks.Arrive team arriving) line parts.new }
{
    let form = form_of(image, &arriving);
    let arrival = parts.control.arrive(team, image, kind_from(arriving), line);
    keep_given(&mut parts.forms, team, form, arrival);
    keep_bad(&mut parts.bad, team, arrival, parts.plan.bad);
    enact_plan(parts);
}

// The image comes to a collective subroutine of this kind of the team, and brings values.
fn gather(
    parts: &mut Parts,
    image: ImageNo,
    team: TeamNo,
    what: RoundKind,
    values: Few<Value>,
    line: u32,
)
    requires { CanGather parts.old image.0 team what values }
    ensures { (op : GatherOp) (root : ℕ) (kind : Kind) → what ≡ kinds.Collective op root kind (length values) → StepsTo parts.old image (asks.Gather team op root kind values) line parts.new }
{
    let arrival = parts.collective.arrive(team, image, what, line);
    keep_joined(&mut parts.brought, team, image, values, arrival);
}

// The image begins SYNC IMAGES with a set.
fn pair(parts: &mut Parts, image: ImageNo, set: &Listing<ImageNo>)
    requires { CanStep parts.old image.0 (asks.Pair set.now) }
    ensures { (line : ℕ) → StepsTo parts.old image (asks.Pair set.now) line parts.new }
{
    parts.pairs.arrive(image, set.as_slice());
}

// The image enters the construct.
fn enter(parts: &mut Parts, image: ImageNo, construct: u32)
    requires { CanStep parts.old image.0 (asks.Enter construct) }
    ensures { (line : ℕ) → StepsTo parts.old image (asks.Enter construct) line parts.new }
{
    parts.criticals.enter(image, construct);
}

// The image leaves the construct.
fn exit(parts: &mut Parts, image: ImageNo, construct: u32)
    ensures { (line : ℕ) → StepsTo parts.old image (asks.Exit construct) line parts.new }
{
    parts.criticals.exit(image, construct);
}

// The image fails.
fn fail(parts: &mut Parts, image: ImageNo)
    requires { CanStep parts.old image.0 asks.Gone }
    ensures { (line : ℕ) → StepsTo parts.old image asks.Gone line parts.new }
{
    parts.control.ended(image, true);
    parts.collective.ended(image, true);
    parts.pairs.ended(image, true);
    parts.criticals.gone(image);
    enact_plan(parts);
}

// The image initiates normal termination.
fn stop(parts: &mut Parts, image: ImageNo)
    requires { CanStop parts.old image.0 }
    ensures { (code : ℤ) (line : ℕ) → StepsTo parts.old image (asks.Stop code) line parts.new }
{
    parts.control.ended(image, false);
    parts.collective.ended(image, false);
    parts.pairs.ended(image, false);
    enact_plan(parts);
}

// The step of an ask that brings nothing to be kept.
fn step_other(parts: &mut Parts, image: ImageNo, ask: &Ask)
    requires { CanStep parts.old image.0 ask.now }
    ensures { (line : ℕ) → StepBy parts.old image ask.now line parts.new }
{
    match ask {
        Ask::Pair { images } => pair(parts, image, images),
        Ask::Enter { construct } => enter(parts, image, *construct),
        Ask::Exit { construct } => exit(parts, image, *construct),
        Ask::Gone => fail(parts, image),
        Ask::Stop { .. } => stop(parts, image),
        _ => {}
    }
}

/// The step of an ask that comes. It takes no memory.
pub(crate) fn step(parts: &mut Parts, image: ImageNo, ask: Ask, line: u32)
    requires { CanStep parts.old image.0 ask }
    ensures { StepsTo parts.old image ask line parts.new }
{
    match ask {
        Ask::Arrive { team, arriving } => arrive(parts, image, team, arriving, line),
        Ask::Gather {
            team,
            op,
            root,
            kind,
            values,
        } => {
            let what = kind_with(op, root, kind, values.as_slice());
            gather(parts, image, team, what, values, line);
        }
        other => {
            step_other(parts, image, &other);
            drop(other);
        }
    }
}
