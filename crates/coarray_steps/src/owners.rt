//! Images by cosubscripts of a coarray (ISO/IEC 1539-1:2018, 9.6; IMAGE_INDEX and THIS_IMAGE in 16.9).

ghost use Rattle.std.specs.Prelude.{◌≡◌, ◌<◌, ◌≤◌, ◌+◌, ◌-◌, ◌∷◌, pos, drop, length, reverse, take, IfSome, IfNone};
ghost use Rattle.walk_theory.specs.Terms.{found, with_found};
ghost use Rattle.image_acts.specs.Acts as acts;
ghost use Rattle.image_acts.specs.Core.{with_values};
ghost use Rattle.image_acts.specs.Places as places;
ghost use Rattle.image_acts.specs.Teams.{index_in, is_established, members};
ghost use Rattle.image_acts.specs.Operate.Selecting.{selector_effect};
ghost use Rattle.array_places.specs.Bounds.{as_found};
ghost use Rattle.array_values.specs.Values.{elements_on_top};
ghost use Rattle.coarray_tables.specs.Images.{index_found, own_cosubscript, owner_found};
ghost use Rattle.coarray_tables.specs.Owns.{own_at};
ghost use Rattle.coarray_tables.specs.Steps.{made_team};
ghost use Rattle.image_state.specs.Acting.{Acts, with_core};

use caf_events::fault::CELLS;
use coarray_tables::images::has_few_cells;
use image_state::state::{Acting, ImageState};
use team_tables::named::team_of;

/// How many numbers a place of this rank is.
fn place_size(rank: u32) -> usize
    ensures { result ≡ places.place_size rank }
{
    1 + 2 * rank as usize
}

/// Does the step `OwnImage`.
#[tactic(auto, using(crate::proofs::OwnImages::place_missing, crate::proofs::OwnImages::many_cells, crate::proofs::OwnImages::own_told))]
pub fn own_image(image: &mut ImageState, rank: u32) -> Acting
    requires { length image.old.core.values < image.old.rooms.numbers }
    ensures { Acts image.old (selector_effect (acts.own_image rank) image.old.core) image.new result }
{
    let Some(place) = image.numbers_at(0, place_size(rank)) else {
        return Acting::Stuck;
    };
    if !has_few_cells(place) {
        return Acting::Fault(CELLS);
    }
    image.number(i64::from(image.me()))
}

/// The team on top, the cosubscripts beneath it and the place beneath them.
#[tactic(auto, using(crate::proofs::OwnImages::place_there))]
fn named(image: &ImageState, rank: u32, corank: u32) -> Option<(i64, &[i64], &[i64])>
    ensures top { IfSome result (λ n. image.now.core.values ≡ n.0 ∷ drop 1 image.now.core.values) }
    ensures there { IfSome result (λ n. 1 + corank + places.place_size rank ≤ length image.now.core.values) }
    ensures subscripts { IfSome result (λ n. n.1.now ≡ reverse (take corank (drop 1 image.now.core.values))) }
    ensures place { IfSome result (λ n. n.2.now ≡ reverse (take (places.place_size rank) (drop (1 + corank) image.now.core.values))) }
    ensures none { IfNone result (length image.now.core.values < 1 + corank + places.place_size rank) }
{
    let team = image.top()?;
    let subscripts = image.numbers_at(1, corank as usize)?;
    let place = image.numbers_at(1 + corank as usize, place_size(rank))?;
    Some((team, subscripts, place))
}

/// The image that cosubscripts of a coarray name in a team, for an access to the section at a place; or a run fault.
fn owner_among(
    image: &ImageState,
    coarray: u32,
    team: u64,
    subscripts: &[i64],
    place: &[i64],
) -> Result<u32, u32>
    ensures { as_found result ≡ owner_found (own_at image.now.core.coarrays coarray) (is_established image.now.core (made_team (own_at image.now.core.coarrays coarray)) team) (members image.now.core team) subscripts.now (places.place_in place.now) }
{
    let teams = image.teams();
    let coarrays = image.coarrays();
    let established = teams.is_established(coarrays.made_team(coarray), team);
    coarrays.owner(coarray, subscripts, teams.members(team), established, place)
}

/// Puts an image in the place of the team and the cosubscripts.
fn put_owner(image: &mut ImageState, corank: u32, owner: u32)
    requires { 1 + corank ≤ length image.old.core.values }
    ensures { image.new ≡ with_core image.old (with_values image.old.core (pos owner ∷ drop 1 (drop corank image.old.core.values))) }
{
    image.drop_top(corank as usize);
    image.put_for_one(i64::from(owner));
}

/// Does the step `Owner`.
#[tactic(auto, using(crate::proofs::OwnImages::owner_missing, crate::proofs::OwnImages::owner_faults, crate::proofs::OwnImages::owner_told))]
pub fn owner(image: &mut ImageState, coarray: u32, rank: u32, corank: u32) -> Acting
    ensures { Acts image.old (selector_effect (acts.owner coarray rank corank) image.old.core) image.new result }
{
    let Some((team, subscripts, place)) = named(image, rank, corank) else {
        return Acting::Stuck;
    };
    match owner_among(image, coarray, team_of(team), subscripts, place) {
        Err(k) => Acting::Fault(k),
        Ok(owner) => {
            put_owner(image, corank, owner);
            Acting::Done
        }
    }
}

/// The index of the image that the cosubscripts in the top array name in a team, as a number of the stack; or a run
/// fault.
#[tactic(auto, using(crate::proofs::OwnImages::index_small))]
fn index_among(image: &ImageState, coarray: u32, corank: u32, team: u64) -> Result<i64, u32>
    ensures { as_found result ≡ with_found (index_found (own_at image.now.core.coarrays coarray) corank (elements_on_top image.now.core.arrays) (length (members image.now.core team))) (λ i. found (pos i)) }
{
    let images = image.teams().members(team).len() as u64;
    match image
        .coarrays()
        .image_index(coarray, corank, image.elements(), images)
    {
        Err(k) => Err(k),
        Ok(index) => Ok(index as i64),
    }
}

/// Does the step `ImageIndex`.
#[tactic(auto, using(image_state::proofs::Taking::none_taken, crate::proofs::OwnImages::array_missing, crate::proofs::OwnImages::index_faults, crate::proofs::OwnImages::index_told))]
pub fn image_index(image: &mut ImageState, coarray: u32, corank: u32) -> Acting
    ensures { Acts image.old (selector_effect (acts.image_index coarray corank) image.old.core) image.new result }
{
    let Some(team) = image.top() else {
        return Acting::Stuck;
    };
    if !image.has_arrays(1) {
        return Acting::Stuck;
    }
    match index_among(image, coarray, corank, team_of(team)) {
        Err(k) => Acting::Fault(k),
        Ok(index) => {
            image.drop_top_array();
            image.put_for_one(index);
            Acting::Done
        }
    }
}

/// The cosubscript with a number of this image in a team; or a run fault.
fn cosubscript_of(image: &ImageState, coarray: u32, team: u64, dim: i64) -> Result<i64, u32>
    ensures { as_found result ≡ own_cosubscript (own_at image.now.core.coarrays coarray) (index_in image.now.core.me (members image.now.core team) - 1) dim }
{
    let index = image.teams().own_index(team) as u64;
    image.coarrays().cosubscript(coarray, index, &dim)
}

/// Does the step `Cosubscript`.
#[tactic(auto, using(crate::proofs::OwnImages::two_missing, crate::proofs::OwnImages::cosubscript_faults, crate::proofs::OwnImages::cosubscript_told))]
pub fn cosubscript(image: &mut ImageState, coarray: u32) -> Acting
    ensures { Acts image.old (selector_effect (acts.cosubscript coarray) image.old.core) image.new result }
{
    let Some((dim, team)) = image.two() else {
        return Acting::Stuck;
    };
    match cosubscript_of(image, coarray, team_of(team), dim) {
        Err(k) => Acting::Fault(k),
        Ok(subscript) => {
            image.put_for_two(subscript);
            Acting::Done
        }
    }
}
