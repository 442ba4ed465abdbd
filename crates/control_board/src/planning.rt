//! Which teams a step makes (ISO/IEC 1539-1:2018, 11.6.9): planned before the step, and added by it.

ghost use Rattle.std.specs.Prelude.{◌≡◌, ◌-◌, ◌<◌, ◌≤◌, true, ℕ, pos, List, ◌++◌, Some, length, slice_get, IfOk, OnOk, IsTrue};
ghost use Rattle.std.specs.Global.{Vec};
ghost use Rattle.caf_base.specs.declared.place.ImageNo.{ImageNo};
ghost use Rattle.failure_status.specs.Endings.{AreWithin};
ghost use Rattle.std.specs.Ordering.{int_eq};
ghost use Rattle.caf_events.specs.declared.ask.Ask.{Ask};
ghost use Rattle.caf_events.specs.declared.ask.Ask.TheVariants as asks;
ghost use Rattle.caf_events.specs.declared.round.Arriving.TheVariants as arrivings;
ghost use Rattle.caf_events.specs.declared.event.Entry.{Entry};
ghost use Rattle.object_rules.specs.Happenings.{control, happened};
ghost use Rattle.object_rules.specs.TeamRounds.{opening_of};
ghost use Rattle.object_rules.specs.BoardRules.{board_ready};
ghost use Rattle.object_rules.specs.BoardTeams.{is_form, is_form_kind as is_form_kind_by};
ghost use Rattle.team_round.specs.TeamStates.{TeamState};
ghost use Rattle.control_board.specs.Boards.{IsBoard, Asked, CanEndNow, AllFew, made_by_one, bad_of, is_few, all_made, is_end_ask, IsPlanAt, IsFormed, IsJoined, MakesAt, EndsRound, EndsTeam, EndsAll, IsStocked, Planned, HasGrown, TeamsRoom, PlanFits, IsEnacted};

use crate::forming::{Formation, Plan, add_formed, add_tables, args_for, copy_members, new_tables};
use crate::parts::Parts;
use caf_base::place::{ImageNo, TeamNo};
use caf_base::refusal::NoMemory;
use caf_base::status::{STAT_FAILED_IMAGE, STAT_STOPPED_IMAGE};
use caf_events::round::RoundKind;
use std::alloc::Global;
use std::mem;
use team_round::round::Arrival;
use team_tree::arg::FormArg;

// Whether the status is that of a member that stopped.
fn is_stopped(status: i32) -> bool
    ensures { result ≡ int_eq status (pos 6000) }
{
    status == STAT_STOPPED_IMAGE
}

// Whether the status is that of a member that failed.
fn is_failed(status: i32) -> bool
    ensures { result ≡ int_eq status (pos 6001) }
{
    status == STAT_FAILED_IMAGE
}

// What a round of FORM TEAM makes that closes with this status, 6000, 6001 or 0; None where a member stopped.
fn formation_of(
    alloc: Global,
    parts: &Parts,
    team: TeamNo,
    round: u64,
    status: i32,
    args: &[FormArg],
) -> Result<Option<Formation>, NoMemory>
    requires { (0 < team.0) × (team.0 ≤ length parts.now.teams.teams) }
    ensures few { IfOk result is_few }
    ensures formed { IfOk result (λ o. IsFormed parts.now team round status args.now o) }
{
    if is_stopped(status) {
        return Ok(None);
    }
    let plan = parts.teams.plan_form(alloc, team, args, is_failed(status))?;
    Ok(Some(Formation { round, plan }))
}

// What the round makes that the image joins by an arrival at FORM TEAM; None where it doesn't close by it.
fn plan_joined(
    alloc: Global,
    parts: &Parts,
    team: TeamNo,
    round: u64,
    arg: FormArg,
) -> Result<Option<Formation>, NoMemory>
    requires { Asked parts.now arg.image.0 (asks.Arrive team (arrivings.Form arg.number arg.new_index)) }
    ensures few { IfOk result is_few }
    ensures made { IfOk result (λ o. IsJoined parts.now team round arg o) }
{
    match parts.control.closing_by_arrival(team, arg.image) {
        Some(status) => {
            let mut args = args_for(alloc, &parts.forms, team, round)?;
            args.push(arg)?;
            formation_of(alloc, parts, team, round, status, args.as_slice())
        }
        None => Ok(None),
    }
}

// What an arrival at FORM TEAM makes.
fn plan_form(
    alloc: Global,
    parts: &Parts,
    team: TeamNo,
    arg: FormArg,
) -> Result<Option<Formation>, NoMemory>
    requires { Asked parts.now arg.image.0 (asks.Arrive team (arrivings.Form arg.number arg.new_index)) }
    ensures few { IfOk result is_few }
    ensures made { IfOk result (MakesAt parts.now arg.image team (arrivings.Form arg.number arg.new_index)) }
{
    match parts.control.expected(team, arg.image, &RoundKind::Form) {
        Arrival::Joined(round) => plan_joined(alloc, parts, team, round, arg),
        Arrival::Clash { .. } => Ok(None),
    }
}

// Whether it is the kind of FORM TEAM.
fn is_form_kind(kind: &RoundKind) -> bool
    ensures { result ≡ is_form_kind_by kind.now }
{
    match kind {
        RoundKind::Form => true,
        _ => false,
    }
}

// Whether the round of the team is one of FORM TEAM.
pub(crate) fn is_form_round(parts: &Parts, team: TeamNo, round: u64) -> bool
    requires team { (0 < team.0) × (team.0 ≤ length parts.now.control.teams) }
    requires round { 0 < round }
    ensures { (n : ℕ) (h : List Entry) → IsBoard n h parts.now → result ≡ is_form (opening_of team.0 round (happened control h)) }
{
    match parts.control.kind(team, round) {
        Some(kind) => is_form_kind(kind),
        None => false,
    }
}

// What the round of the team makes where it closes by the end of the image.
fn plan_round(
    alloc: Global,
    parts: &Parts,
    team: TeamNo,
    round: u64,
    image: ImageNo,
    failed: bool,
) -> Result<Option<Formation>, NoMemory>
    requires image { CanEndNow parts.now image.0 }
    requires team { (0 < team.0) × (team.0 ≤ length parts.now.teams.teams) }
    requires round { 0 < round }
    ensures few { IfOk result is_few }
    ensures made { IfOk result (λ o. EndsRound parts.now team round image failed o) }
{
    if !is_form_round(parts, team, round) {
        return Ok(None);
    }
    match parts.control.closing_by_end(team, round, image, failed) {
        Some(status) => {
            let args = args_for(alloc, &parts.forms, team, round)?;
            formation_of(alloc, parts, team, round, status, args.as_slice())
        }
        None => Ok(None),
    }
}

// Puts what is made behind the others.
fn add_made(formations: &mut Vec<Formation>, made: Option<Formation>) -> Result<(), NoMemory>
    requires { is_few made }
    ensures made { OnOk result (all_made formations.new.items ≡ all_made formations.old.items ++ made_by_one made) }
    ensures few { OnOk result (AllFew formations.old.items → AllFew formations.new.items) }
{
    match made {
        Some(formation) => Ok(formations.push(formation)?),
        None => Ok(()),
    }
}

// What the rounds of the team make that close by the end of the image.
fn plan_team(
    alloc: Global,
    formations: &mut Vec<Formation>,
    parts: &Parts,
    team: TeamNo,
    image: ImageNo,
    failed: bool,
) -> Result<(), NoMemory>
    requires image { CanEndNow parts.now image.0 }
    requires team { (0 < team.0) × (team.0 ≤ length parts.now.teams.teams) }
    requires few { AllFew formations.old.items }
    ensures few { OnOk result (AllFew formations.new.items) }
    ensures made { OnOk result (EndsTeam parts.now team image failed formations.old.items formations.new.items) }
{
    let from = parts.control.joined(team, image);
    for round in from..parts.control.count(team) as u64 {
        let made = plan_round(alloc, parts, team, round + 1, image, failed)?;
        add_made(formations, made)?;
    }
    Ok(())
}

// What the end of the image makes.
fn plan_end(
    alloc: Global,
    parts: &Parts,
    image: ImageNo,
    failed: bool,
) -> Result<Vec<Formation>, NoMemory>
    requires { CanEndNow parts.now image.0 }
    ensures few { IfOk result (λ v. AllFew v.items) }
    ensures made { IfOk result (λ v. EndsAll parts.now image failed v.items) }
{
    let mut formations = Vec::new(alloc);
    for t in 0..parts.teams.len() {
        plan_team(
            alloc,
            &mut formations,
            parts,
            TeamNo(t as u32 + 1),
            image,
            failed,
        )?;
    }
    Ok(formations)
}

// The plan with what the rounds and the collective subroutines keep of each team.
fn plan_with(
    alloc: Global,
    images: u32,
    bad: bool,
    formations: Vec<Formation>,
) -> Result<Plan, NoMemory>
    ensures formations { IfOk result (λ p. p.formations ≡ formations) }
    ensures bad { IfOk result (λ p. p.bad ≡ bad) }
    ensures copies { IfOk result (λ p. IsStocked images p) }
{
    let control = copy_members(alloc, &formations)?;
    let collective = copy_members(alloc, &formations)?;
    let tables = new_tables(alloc, images, control.len())?;
    Ok(Plan {
        formations,
        bad,
        control,
        collective,
        tables,
    })
}

// Whether the formation is refused for a bad argument.
fn is_bad_one(made: &Option<Formation>) -> bool
    ensures { result ≡ bad_of made.now }
{
    match made {
        Some(formation) => formation.plan.bad,
        None => false,
    }
}

// The plan of an arrival at FORM TEAM.
pub(crate) fn form_team_plan(
    alloc: Global,
    parts: &Parts,
    team: TeamNo,
    arg: FormArg,
) -> Result<Plan, NoMemory>
    requires { Asked parts.now arg.image.0 (asks.Arrive team (arrivings.Form arg.number arg.new_index)) }
    ensures few { IfOk result (λ p. AllFew p.formations.items) }
    ensures stock { IfOk result (λ p. IsStocked parts.now.images p) }
    ensures planned { IfOk result (IsPlanAt parts.now arg.image team (arrivings.Form arg.number arg.new_index)) }
{
    let made = plan_form(alloc, parts, team, arg)?;
    let bad = is_bad_one(&made);
    let mut formations = Vec::new(alloc);
    add_made(&mut formations, made)?;
    plan_with(alloc, parts.images, bad, formations)
}

// The plan of an end.
pub(crate) fn end_plan(
    alloc: Global,
    parts: &Parts,
    image: ImageNo,
    failed: bool,
) -> Result<Plan, NoMemory>
    requires { CanEndNow parts.now image.0 }
    ensures few { IfOk result (λ p. AllFew p.formations.items) }
    ensures stock { IfOk result (λ p. IsStocked parts.now.images p) }
    ensures planned { IfOk result (λ p. (ask : Ask) → (n : ℕ) (h : List Entry) → is_end_ask failed ask ≡ true → IsBoard n h parts.now → IsTrue (board_ready n h image.0 ask) → Planned n h p image ask) }
{
    let formations = plan_end(alloc, parts, image, failed)?;
    plan_with(alloc, parts.images, false, formations)
}

// Makes room for the teams of the plan, and for a round of the team.
pub(crate) fn make_room_for_teams(
    alloc: Global,
    parts: &mut Parts,
    team: TeamNo,
) -> Result<(), NoMemory>
    requires { (0 < team.0) × (team.0 ≤ length parts.old.control.teams) × (team.0 ≤ length parts.old.collective.teams) }
    ensures grown { HasGrown parts.old parts.new }
    ensures forms { parts.new.forms ≡ parts.old.forms }
    ensures bad { parts.new.bad ≡ parts.old.bad }
    ensures plan { parts.new.plan ≡ parts.old.plan }
    ensures round { OnOk result ((x : TeamState) → slice_get parts.new.control.teams (team.0 - 1) ≡ Some x → 0 < x.room) }
    ensures room { OnOk result (TeamsRoom parts.new (length parts.old.plan.control.items)) }
{
    let more = parts.plan.control.len();
    parts.control.reserve(alloc, team, more)?;
    parts.collective.reserve(alloc, team, more)?;
    parts.teams.reserve(more)?;
    parts.births.reserve(more)?;
    parts.brought.reserve(more)?;
    Ok(())
}

// Adds the teams of a plan. It takes no memory.
fn enact(parts: &mut Parts, plan: Plan)
    requires fits { PlanFits parts.old plan }
    requires control { (k : ℕ) (x : Vec ImageNo) → slice_get plan.control.items k ≡ Some x → AreWithin parts.old.control.images x.items }
    requires collective { (k : ℕ) (x : Vec ImageNo) → slice_get plan.collective.items k ≡ Some x → AreWithin parts.old.collective.images x.items }
    ensures { IsEnacted parts.old plan parts.new }
{
    let Plan {
        formations,
        bad: _,
        control,
        collective,
        tables,
    } = plan;
    parts.control.add_teams(control);
    parts.collective.add_teams(collective);
    add_tables(&mut parts.brought, tables);
    add_formed(&mut parts.teams, &mut parts.births, formations);
}

// Adds the teams that are planned, where there are some: most steps make none. It takes no memory.
pub(crate) fn enact_plan(parts: &mut Parts)
    requires fits { PlanFits parts.old parts.old.plan }
    requires control { (k : ℕ) (x : Vec ImageNo) → slice_get parts.old.plan.control.items k ≡ Some x → AreWithin parts.old.control.images x.items }
    requires collective { (k : ℕ) (x : Vec ImageNo) → slice_get parts.old.plan.collective.items k ≡ Some x → AreWithin parts.old.collective.images x.items }
    ensures { IsEnacted parts.old parts.old.plan parts.new }
{
    if !parts.plan.formations.is_empty() {
        let nothing = Plan::none(*parts.births.allocator());
        let plan = mem::replace(&mut parts.plan, nothing);
        enact(parts, plan);
    }
}
