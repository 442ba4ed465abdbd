//! The current team (ISO/IEC 1539-1:2018, 11.1.5, 11.6.9).

ghost use Rattle.std.specs.Prelude.{◌≡◌, ◌≤◌, ◌^◌, ◌∷◌, drop};
ghost use Rattle.image_acts.specs.Acts as acts;
ghost use Rattle.image_acts.specs.Operate.Teaming.{team_effect};
ghost use Rattle.image_code.specs.Table.{scope_of};
ghost use Rattle.image_state.specs.Acting.{with_core, Acts};
ghost use Rattle.image_state.specs.Kept.{table_of};
ghost use Rattle.team_tables.specs.Tables.{with_noted, with_teams};
ghost use Rattle.team_tables.specs.Steps.{own_team, with_team_in};

use caf_events::fault::{NO_TEAM, ROOM};
use image_code::step::Scope;
use image_state::state::{Acting, ImageState};
use team_tables::named::team_of;

/// Does the step `ChildTeam`.
#[tactic(auto, using(image_state::proofs::Taking::none_taken, crate::proofs::CurrentSteps::child_is, crate::proofs::CurrentSteps::child_not))]
pub fn child_team(image: &ImageState) -> Acting
    ensures { Acts image.now (team_effect acts.child_team image.now.core) image.now result }
{
    let Some(v) = image.top() else {
        return Acting::Stuck;
    };
    if image.teams().is_child(team_of(v)) {
        Acting::Done
    } else {
        Acting::Fault(NO_TEAM)
    }
}

/// Does the step `NearTeam`.
#[tactic(auto, using(image_state::proofs::Taking::none_taken, crate::proofs::CurrentSteps::near_is, crate::proofs::CurrentSteps::near_not))]
pub fn near_team(image: &ImageState) -> Acting
    ensures { Acts image.now (team_effect acts.near_team image.now.core) image.now result }
{
    let Some(v) = image.top() else {
        return Acting::Stuck;
    };
    if image.teams().is_near(team_of(v)) {
        Acting::Done
    } else {
        Acting::Fault(NO_TEAM)
    }
}

/// Does the step `MakeCurrent`.
#[tactic(auto, using(image_state::proofs::Taking::none_taken, crate::proofs::CurrentSteps::made_current, crate::proofs::CurrentSteps::no_place, crate::proofs::CurrentSteps::place_there))]
pub fn make_current(image: &mut ImageState) -> Acting
    ensures { Acts image.old (team_effect acts.make_current image.old.core) image.new result }
{
    let Some(v) = image.top() else {
        return Acting::Stuck;
    };
    if !image.teams().has_place() {
        return Acting::Fault(ROOM);
    }
    image.drop_top(1);
    image.enter_team(team_of(v));
    Acting::Done
}

/// Does the step `LeaveTeam`.
pub fn leave_team(image: &mut ImageState) -> Acting
    ensures { Acts image.old (team_effect acts.leave_team image.old.core) image.new result }
{
    image.go_back();
    Acting::Done
}

/// Does the step `NoteTeams`.
#[tactic(auto, using(crate::proofs::CurrentSteps::none_noted, crate::proofs::CurrentSteps::teams_noted))]
pub fn note_teams(image: &mut ImageState, scope: Scope, x: u32) -> Acting
    ensures { Acts image.old (team_effect (acts.note_teams (scope_of scope) x) image.old.core) image.new result }
{
    match image.round() {
        None => Acting::Stuck,
        Some(round) => {
            note(image, scope, x, round);
            Acting::Done
        }
    }
}

/// Notes the teams that this round formed; a scalar gets the one that has this image.
#[tactic(auto, using(crate::proofs::CurrentSteps::none_own, crate::proofs::CurrentSteps::own_put))]
fn note(image: &mut ImageState, scope: Scope, x: u32, round: u64)
    ensures { image.new ≡ with_core image.old (with_team_in (scope_of scope) x (own_team round (table_of image.old)) (with_teams (with_noted round (table_of image.old)) image.old.core)) }
{
    match image.note_formed(round) {
        None => {}
        Some(team) => image.put(scope, x as usize, i64::from(team)),
    }
}
