//! Bounds and sections of coarrays, and whether they are allocated here (ISO/IEC 1539-1:2018, 9.5.3, 9.6; ALLOCATED,
//! LBOUND and UBOUND in 16.9).

ghost use Rattle.std.specs.Prelude.{◌≡◌, ◌<◌, ◌≤◌, ◌+◌, length};
ghost use Rattle.image_acts.specs.Acts as acts;
ghost use Rattle.image_acts.specs.Places.{digits, numbers_of_form, place_size, triplets};
ghost use Rattle.image_acts.specs.Operate.Bounds.{bounds_effect};
ghost use Rattle.image_state.specs.Acting.{Acts};

use crate::forms::numbers_of_form;
use caf_events::fault::{NOT_ALLOCATED, ROOM};
use image_state::state::{Acting, ImageState};
use number_operators::operators::truth;

/// Does the step `CoSection`.
#[tactic(auto, using(crate::proofs::OwnBounds::section_missing, crate::proofs::OwnBounds::section_faults, crate::proofs::OwnBounds::section_placed))]
pub fn co_section(image: &mut ImageState, coarray: u32, form: u32) -> Acting
    requires { length image.old.core.values + place_size (triplets (digits form)) ≤ image.old.rooms.numbers + numbers_of_form (digits form) }
    ensures { Acts image.old (bounds_effect (acts.co_section coarray form) image.old.core) image.new result }
{
    let n = numbers_of_form(form);
    let Some(numbers) = image.numbers_at(0, n) else {
        return Acting::Stuck;
    };
    match image.coarrays().section(coarray, form, numbers) {
        Err(k) => Acting::Fault(k),
        Ok(place) => {
            image.put_numbers(n, place.as_slice());
            Acting::Done
        }
    }
}

/// Does the step `CoBounds`.
#[tactic(auto, using(crate::proofs::OwnBounds::bounds_missing, crate::proofs::OwnBounds::bounds_full, crate::proofs::OwnBounds::bounds_fit, crate::proofs::OwnBounds::bounds_told))]
pub fn co_bounds(image: &mut ImageState, coarray: u32) -> Acting
    requires { length image.old.core.arrays < image.old.rooms.arrays }
    ensures { Acts image.old (bounds_effect (acts.co_bounds coarray) image.old.core) image.new result }
{
    let Some(bounds) = image.coarrays().bounds(coarray) else {
        return Acting::Fault(NOT_ALLOCATED);
    };
    if bounds.len() > image.spare() {
        return Acting::Fault(ROOM);
    }
    image.begin_own_bounds(coarray);
    Acting::Done
}

/// Does the step `CoIsThere`.
pub fn co_is_there(image: &mut ImageState, coarray: u32) -> Acting
    requires { length image.old.core.values < image.old.rooms.numbers }
    ensures { Acts image.old (bounds_effect (acts.co_is_there coarray) image.old.core) image.new result }
{
    let there = image.coarrays().is_there(coarray);
    image.number(truth(there))
}

/// Does the step `NeedsOwn`.
#[tactic(auto, using(crate::proofs::OwnBounds::own_is, crate::proofs::OwnBounds::own_not))]
pub fn needs_own(image: &ImageState, coarray: u32) -> Acting
    ensures { Acts image.now (bounds_effect (acts.needs_own coarray) image.now.core) image.now result }
{
    if image.coarrays().is_there(coarray) {
        Acting::Done
    } else {
        Acting::Fault(NOT_ALLOCATED)
    }
}

/// Does the step `MadeInTeam`.
pub fn made_in_team(image: &mut ImageState, coarray: u32) -> Acting
    requires { length image.old.core.values < image.old.rooms.numbers }
    ensures { Acts image.old (bounds_effect (acts.made_in_team coarray) image.old.core) image.new result }
{
    let team = image.teams().current();
    let made = image.coarrays().is_of_team(coarray, team);
    image.number(truth(made))
}
