//! Image indices of the current team.

ghost use Rattle.std.specs.Prelude.{◌≡◌, ◌<◌, ◌^◌, pos, length};
ghost use Rattle.std.specs.Ordering.{int_eq};
ghost use Rattle.caf_base.specs.Arithmetic.{natural};
ghost use Rattle.image_acts.specs.Acts as acts;
ghost use Rattle.image_acts.specs.Teams.{current_team, members, is_index_of, differs_from, are_indices_of};
ghost use Rattle.image_acts.specs.Operate.Bounds.{bounds_effect};
ghost use Rattle.image_state.specs.Acting.{Acts};

use caf_events::fault::ROOM;
use image_state::state::{Acting, ImageState};
use number_operators::operators::truth;

/// How many images the current team has.
fn current_size(image: &ImageState) -> usize
    ensures is { result ≡ length (members image.now.core (current_team image.now.core)) }
    ensures few { result < 2 ^ 33 }
{
    image.teams().current_size()
}

/// The same as a number of the stack.
fn current_count(image: &ImageState) -> i64
    ensures { result ≡ pos (length (members image.now.core (current_team image.now.core))) }
{
    let teams = image.teams();
    teams.image_count(teams.current())
}

/// Does the step `EveryIndex`.
#[tactic(auto, using(crate::proofs::IndexSteps::every_full, crate::proofs::IndexSteps::every_told))]
pub fn every_index(image: &mut ImageState) -> Acting
    requires { length image.old.core.arrays < image.old.rooms.arrays }
    ensures { Acts image.old (bounds_effect acts.every_index image.old.core) image.new result }
{
    let n = current_size(image);
    if n > image.spare() {
        return Acting::Fault(ROOM);
    }
    image.begin_counted(n as u32);
    Acting::Done
}

/// Does the step `AreIndices`.
#[tactic(auto, using(crate::proofs::IndexSteps::no_indices, crate::proofs::IndexSteps::indices_told))]
pub fn are_indices(image: &mut ImageState) -> Acting
    requires { length image.old.core.values < image.old.rooms.numbers }
    ensures { Acts image.old (bounds_effect acts.are_indices image.old.core) image.new result }
{
    if !image.has_arrays(1) {
        return Acting::Stuck;
    }
    let holds = are_indices_among(current_count(image), image.elements());
    image.number(truth(holds))
}

/// Does the step `IsIndex`.
#[tactic(auto, using(image_state::proofs::Taking::none_taken, crate::proofs::IndexSteps::is_index_told))]
pub fn is_index(image: &mut ImageState) -> Acting
    ensures { Acts image.old (bounds_effect acts.is_index image.old.core) image.new result }
{
    match image.top() {
        None => Acting::Stuck,
        Some(v) => {
            let holds = is_index_among(current_count(image), v);
            image.put_for_one(truth(holds));
            Acting::Done
        }
    }
}

/// Whether a number is an index among n images.
fn is_index_among(n: i64, v: i64) -> bool
    ensures { result ≡ is_index_of (natural n) v }
{
    0 < v && v <= n
}

/// Whether a number is none of these.
#[tactic(auto, using(crate::proofs::IndexSteps::differs_next, crate::proofs::IndexSteps::differs_not))]
fn differs(v: i64, others: &[i64]) -> bool
    ensures { result ≡ differs_from v others.now }
{
    for i in 0..others.len() {
        if is_same(v, others[i]) {
            return false;
        }
    }
    true
}

/// Whether two numbers are the same.
fn is_same(v: i64, w: i64) -> bool
    ensures { result ≡ int_eq v w }
{
    v == w
}

/// Whether these are indices among n images, and none stands twice.
#[tactic(auto, using(crate::proofs::IndexSteps::indices_next, crate::proofs::IndexSteps::not_index, crate::proofs::IndexSteps::not_once))]
fn are_indices_among(n: i64, vs: &[i64]) -> bool
    ensures { result ≡ are_indices_of (natural n) vs.now }
{
    for i in 0..vs.len() {
        if !is_index_among(n, vs[i]) {
            return false;
        }
        if !differs(vs[i], &vs[i + 1..]) {
            return false;
        }
    }
    true
}
