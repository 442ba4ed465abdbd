//! Asks of teams: arrivals, FORM TEAM, departures, and inquiries of images (ISO/IEC 1539-1:2018, 11.1.5, 11.6.3,
//! 11.6.6, 11.6.9, 16.9).

ghost use Rattle.std.specs.Prelude.{◌≡◌, ◌<◌, ◌≤◌, ◌∷◌, drop, length, IfSome, IfNone};
ghost use Rattle.caf_base.specs.Arithmetic.{natural};
ghost use Rattle.image_acts.specs.Teams.{is_index_of, members};
ghost use Rattle.image_acts.specs.Replies as replies;
ghost use Rattle.image_acts.specs.Core.{with_values};
ghost use Rattle.image_state.specs.Acting.{with_core};
ghost use Rattle.image_state.specs.Kept.{table_of};
ghost use Rattle.team_tables.specs.Tables.{HasRoom};
ghost use Rattle.image_code.specs.declared.step.AskStep.TheVariants as asked;
ghost use Rattle.image_asks.specs.Asking.{teams_heard, ComesTo, IsAsking, IsAsked, GoesOnWith, ask_here};

use crate::asks::Asking;
use crate::operands::{number, team_at};
use crate::replies::{join, status_of};
use caf_base::place::TeamNo;
use caf_events::ask::Ask;
use caf_events::fault::COBOUNDS;
use caf_events::reply::Reply;
use caf_events::round::Arriving;
use coarray_tables::asks::word;
use image_state::state::ImageState;
use team_tables::named::team_of;

/// The arrival of SYNC ALL or SYNC TEAM.
#[tactic(auto, using(crate::proofs::TeamAsks::sync_asked))]
pub(crate) fn arrive_sync(image: &ImageState) -> Ask
    requires { IsAsking (ask_here image.now asked.ArriveSync) }
    ensures { IsAsked (ask_here image.now asked.ArriveSync) result }
{
    Ask::Arrive {
        team: team_at(image, 0),
        arriving: Arriving::Sync,
    }
}

/// The arrival of CHANGE TEAM.
#[tactic(auto, using(crate::proofs::TeamAsks::change_asked))]
pub(crate) fn arrive_change(image: &ImageState) -> Ask
    requires { IsAsking (ask_here image.now asked.ArriveChange) }
    ensures { IsAsked (ask_here image.now asked.ArriveChange) result }
{
    Ask::Arrive {
        team: team_at(image, 0),
        arriving: Arriving::Change,
    }
}

/// The arrival of END TEAM.
#[tactic(auto, using(crate::proofs::TeamAsks::end_asked))]
pub(crate) fn arrive_end(image: &ImageState) -> Ask
    requires { IsAsking (ask_here image.now asked.ArriveEnd) }
    ensures { IsAsked (ask_here image.now asked.ArriveEnd) result }
{
    Ask::Arrive {
        team: team_at(image, 0),
        arriving: Arriving::End,
    }
}

/// The arrival of FORM TEAM: a team, beneath its team number and a new index, 0 for none.
#[tactic(auto, using(crate::proofs::TeamAsks::form_made))]
pub(crate) fn arrive_form(image: &ImageState) -> Ask
    requires { IsAsking (ask_here image.now asked.ArriveForm) }
    ensures { IsAsked (ask_here image.now asked.ArriveForm) result }
{
    Ask::Arrive {
        team: team_at(image, 2),
        arriving: Arriving::Form {
            number: number(image, 1),
            new_index: number(image, 0),
        },
    }
}

/// Whether a round can be left.
pub(crate) fn leaving(image: &ImageState) -> Asking
    ensures { ComesTo (ask_here image.now asked.Leave) result }
{
    match image.top() {
        None => Asking::Stuck,
        Some(_) => match image.round() {
            None => Asking::Stuck,
            Some(_) => Asking::Asks,
        },
    }
}

/// The departure from a round.
pub(crate) fn departure(image: &ImageState) -> Ask
    requires { IsAsking (ask_here image.now asked.Leave) }
    ensures { IsAsked (ask_here image.now asked.Leave) result }
{
    match image.top() {
        None => unreachable!(),
        Some(team) => match image.round() {
            None => unreachable!(),
            Some(round) => Ask::Leave {
                team: TeamNo(word(&team)),
                round,
            },
        },
    }
}

/// Whether there are an image index and a team, and the index is one in the team.
#[tactic(auto, using(crate::proofs::TeamAsks::status_asks, crate::proofs::TeamAsks::status_faults, crate::proofs::TeamAsks::status_missing))]
pub(crate) fn asks_status(image: &ImageState) -> Asking
    ensures { ComesTo (ask_here image.now asked.Status) result }
{
    let Some((index, team)) = image.two() else {
        return Asking::Stuck;
    };
    if is_in_team(image, index, team) {
        Asking::Asks
    } else {
        Asking::Fault(COBOUNDS)
    }
}

/// Whether a number is an image index in a team.
fn is_in_team(image: &ImageState, index: i64, team: i64) -> bool
    ensures { result ≡ is_index_of (length (members image.now.core (natural team))) index }
{
    let n = image.teams().image_count(team_of(team));
    0 < index && index <= n
}

/// IMAGE_STATUS.
#[tactic(auto, using(crate::proofs::TeamAsks::status_asked, crate::proofs::TeamAsks::status_there))]
pub(crate) fn inquiry(image: &ImageState) -> Ask
    requires { IsAsking (ask_here image.now asked.Status) }
    ensures { IsAsked (ask_here image.now asked.Status) result }
{
    match image.two() {
        None => unreachable!(),
        Some((index, team)) => Ask::Status {
            team: TeamNo(word(&team)),
            index: word(&index),
        },
    }
}

/// FAILED_IMAGES.
#[tactic(auto, using(crate::proofs::TeamAsks::failed_asked))]
pub(crate) fn failed(image: &ImageState) -> Ask
    requires { IsAsking (ask_here image.now asked.Failed) }
    ensures { IsAsked (ask_here image.now asked.Failed) result }
{
    Ask::Failed {
        team: team_at(image, 0),
    }
}

/// STOPPED_IMAGES.
#[tactic(auto, using(crate::proofs::TeamAsks::stopped_asked))]
pub(crate) fn stopped(image: &ImageState) -> Ask
    requires { IsAsking (ask_here image.now asked.Stopped) }
    ensures { IsAsked (ask_here image.now asked.Stopped) result }
{
    Ask::Stopped {
        team: team_at(image, 0),
    }
}

/// Goes on after the arrival of SYNC ALL or SYNC TEAM.
#[tactic(auto, using(crate::proofs::TeamAsks::sync_joined, crate::proofs::TeamAsks::sync_there))]
pub(crate) fn join_sync(image: &mut ImageState, reply: &Reply)
    requires { IsAsking (ask_here image.old asked.ArriveSync) }
    ensures { GoesOnWith image.old (ask_here image.old asked.ArriveSync) reply.now image.new }
{
    join(image, 1, reply);
}

/// Goes on after the arrival of CHANGE TEAM.
#[tactic(auto, using(crate::proofs::TeamAsks::change_joined, crate::proofs::TeamAsks::change_there))]
pub(crate) fn join_change(image: &mut ImageState, reply: &Reply)
    requires { IsAsking (ask_here image.old asked.ArriveChange) }
    ensures { GoesOnWith image.old (ask_here image.old asked.ArriveChange) reply.now image.new }
{
    join(image, 1, reply);
}

/// Goes on after the arrival of END TEAM.
#[tactic(auto, using(crate::proofs::TeamAsks::end_joined, crate::proofs::TeamAsks::end_there))]
pub(crate) fn join_end(image: &mut ImageState, reply: &Reply)
    requires { IsAsking (ask_here image.old asked.ArriveEnd) }
    ensures { GoesOnWith image.old (ask_here image.old asked.ArriveEnd) reply.now image.new }
{
    join(image, 1, reply);
}

/// Goes on after the arrival of FORM TEAM.
#[tactic(auto, using(crate::proofs::TeamAsks::form_joined, crate::proofs::TeamAsks::three_there))]
pub(crate) fn join_form(image: &mut ImageState, reply: &Reply)
    requires { IsAsking (ask_here image.old asked.ArriveForm) }
    ensures { GoesOnWith image.old (ask_here image.old asked.ArriveForm) reply.now image.new }
{
    join(image, 3, reply);
}

/// Puts the status of an image in the place of its index and its team.
#[tactic(auto, using(crate::proofs::TeamAsks::status_heard, crate::proofs::TeamAsks::two_there))]
pub(crate) fn note_status(image: &mut ImageState, reply: &Reply)
    requires { IsAsking (ask_here image.old asked.Status) }
    ensures { GoesOnWith image.old (ask_here image.old asked.Status) reply.now image.new }
{
    image.put_for_two(status_of(reply));
}

/// Puts the status of a round in the place of its team, and takes over the teams that it formed.
#[tactic(auto, using(crate::proofs::AskLaws::departed, crate::proofs::AskLaws::still_there))]
pub(crate) fn depart(image: &mut ImageState, reply: &Reply)
    requires asks { IsAsking (ask_here image.old asked.Leave) }
    requires teams { HasRoom (table_of image.old) }
    ensures { GoesOnWith image.old (ask_here image.old asked.Leave) reply.now image.new }
{
    match image.top() {
        None => unreachable!(),
        Some(_) => {
            hear_teams(image, reply);
            image.put_for_one(status_of(reply));
        }
    }
}

/// Takes over the teams that a round formed.
fn hear_teams(image: &mut ImageState, reply: &Reply)
    requires { HasRoom (table_of image.old) }
    ensures { image.new ≡ with_core image.old (teams_heard image.old.core reply.now) }
{
    match reply {
        Reply::Left { teams, .. } => image.hear_formed(teams.as_slice()),
        _ => {}
    }
}

/// Puts the image indices of a reply in the place of the team.
fn note_indices(image: &mut ImageState, reply: &Reply)
    requires there { 1 ≤ length image.old.core.values }
    requires place { length image.old.core.arrays < image.old.rooms.arrays }
    ensures { image.new ≡ with_core image.old (replies.indices_reply (with_values image.old.core (drop 1 image.old.core.values)) reply.now) }
{
    image.drop_top(1);
    match reply {
        Reply::Indices { indices } => image.begin_indices(indices.as_slice()),
        _ => image.begin_indices(&[]),
    }
}

/// Goes on after FAILED_IMAGES.
#[tactic(auto, using(crate::proofs::TeamAsks::failed_there, crate::proofs::TeamAsks::failed_heard))]
pub(crate) fn note_failed(image: &mut ImageState, reply: &Reply)
    requires asks { IsAsking (ask_here image.old asked.Failed) }
    requires place { length image.old.core.arrays < image.old.rooms.arrays }
    ensures { GoesOnWith image.old (ask_here image.old asked.Failed) reply.now image.new }
{
    note_indices(image, reply);
}

/// Goes on after STOPPED_IMAGES.
#[tactic(auto, using(crate::proofs::TeamAsks::stopped_there, crate::proofs::TeamAsks::stopped_heard))]
pub(crate) fn note_stopped(image: &mut ImageState, reply: &Reply)
    requires asks { IsAsking (ask_here image.old asked.Stopped) }
    requires place { length image.old.core.arrays < image.old.rooms.arrays }
    ensures { GoesOnWith image.old (ask_here image.old asked.Stopped) reply.now image.new }
{
    note_indices(image, reply);
}
