//! Teams that a program names, and what it asks about them (ISO/IEC 1539-1:2018, GET_TEAM, NUM_IMAGES, TEAM_NUMBER and
//! THIS_IMAGE in 16.9).

ghost use Rattle.std.specs.Prelude.{◌≡◌, ◌<◌, length};
ghost use Rattle.image_acts.specs.Acts as acts;
ghost use Rattle.image_acts.specs.Operate.Selecting.{selector_effect};
ghost use Rattle.image_state.specs.Acting.{Acts};

use caf_events::fault::NO_TEAM;
use image_state::state::{Acting, ImageState};
use number_operators::operators::truth;
use team_tables::named::team_of;

/// Does the step `ThisTeam`.
pub fn this_team(image: &mut ImageState) -> Acting
    requires { length image.old.core.values < image.old.rooms.numbers }
    ensures { Acts image.old (selector_effect acts.this_team image.old.core) image.new result }
{
    let team = image.teams().this_team();
    image.number(team)
}

/// Does the step `TeamValue`.
#[tactic(auto, using(image_state::proofs::Taking::none_taken, crate::proofs::NamedSteps::value_is, crate::proofs::NamedSteps::value_not))]
pub fn team_value(image: &ImageState) -> Acting
    ensures { Acts image.now (selector_effect acts.team_value image.now.core) image.now result }
{
    let Some(v) = image.top() else {
        return Acting::Stuck;
    };
    if image.teams().is_current(team_of(v)) {
        Acting::Done
    } else {
        Acting::Fault(NO_TEAM)
    }
}

/// Does the step `SiblingTeam`.
#[tactic(auto, using(image_state::proofs::Taking::none_taken, crate::proofs::NamedSteps::sibling_team_found, crate::proofs::NamedSteps::sibling_team_missing))]
pub fn sibling_team(image: &mut ImageState) -> Acting
    ensures { Acts image.old (selector_effect acts.sibling_team image.old.core) image.new result }
{
    let Some(v) = image.top() else {
        return Acting::Stuck;
    };
    match image.teams().sibling_team(v) {
        None => Acting::Fault(NO_TEAM),
        Some(found) => {
            image.put_for_one(found);
            Acting::Done
        }
    }
}

/// Does the step `GetTeam`.
#[tactic(auto, using(image_state::proofs::Taking::none_taken, crate::proofs::NamedSteps::get_team_found, crate::proofs::NamedSteps::get_team_missing))]
pub fn get_team(image: &mut ImageState) -> Acting
    ensures { Acts image.old (selector_effect acts.get_team image.old.core) image.new result }
{
    let Some(v) = image.top() else {
        return Acting::Stuck;
    };
    match image.teams().get_team(v) {
        None => Acting::Fault(NO_TEAM),
        Some(found) => {
            image.put_for_one(found);
            Acting::Done
        }
    }
}

/// Does the step `TeamNumber`.
#[tactic(auto, using(image_state::proofs::Taking::none_taken, crate::proofs::NamedSteps::team_number_found, crate::proofs::NamedSteps::team_number_missing))]
pub fn team_number(image: &mut ImageState) -> Acting
    ensures { Acts image.old (selector_effect acts.team_number image.old.core) image.new result }
{
    let Some(v) = image.top() else {
        return Acting::Stuck;
    };
    match image.teams().team_number(team_of(v)) {
        None => Acting::Fault(NO_TEAM),
        Some(found) => {
            image.put_for_one(found);
            Acting::Done
        }
    }
}

/// Does the step `ImageCountOfNumber`.
#[tactic(auto, using(image_state::proofs::Taking::none_taken, crate::proofs::NamedSteps::image_count_of_number_found, crate::proofs::NamedSteps::image_count_of_number_missing))]
pub fn image_count_of_number(image: &mut ImageState) -> Acting
    ensures { Acts image.old (selector_effect acts.image_count_of_number image.old.core) image.new result }
{
    let Some(v) = image.top() else {
        return Acting::Stuck;
    };
    match image.teams().image_count_of_number(v) {
        None => Acting::Fault(NO_TEAM),
        Some(found) => {
            image.put_for_one(found);
            Acting::Done
        }
    }
}

/// Does the step `OwnIndex`.
#[tactic(auto, using(image_state::proofs::Taking::none_taken, crate::proofs::NamedSteps::own_index_told))]
pub fn own_index(image: &mut ImageState) -> Acting
    ensures { Acts image.old (selector_effect acts.own_index image.old.core) image.new result }
{
    match image.top() {
        None => Acting::Stuck,
        Some(v) => {
            let found = image.teams().own_index(team_of(v));
            image.put_for_one(found);
            Acting::Done
        }
    }
}

/// Does the step `ImageCount`.
#[tactic(auto, using(image_state::proofs::Taking::none_taken, crate::proofs::NamedSteps::image_count_told))]
pub fn image_count(image: &mut ImageState) -> Acting
    ensures { Acts image.old (selector_effect acts.image_count image.old.core) image.new result }
{
    match image.top() {
        None => Acting::Stuck,
        Some(v) => {
            let found = image.teams().image_count(team_of(v));
            image.put_for_one(found);
            Acting::Done
        }
    }
}

/// Does the step `IsRoot`.
#[tactic(auto, using(image_state::proofs::Taking::none_taken, crate::proofs::NamedSteps::root_told))]
pub fn is_root(image: &mut ImageState) -> Acting
    ensures { Acts image.old (selector_effect acts.is_root image.old.core) image.new result }
{
    match image.top() {
        None => Acting::Stuck,
        Some(v) => {
            let holds = image.teams().is_root(v);
            image.put_for_one(truth(holds));
            Acting::Done
        }
    }
}
