//! What the control board keeps beside its history.

ghost use Rattle.std.specs.Prelude.{◌≡◌, ℕ, List, [], ◌&&◌, length, IfOk};
ghost use Rattle.caf_events.specs.declared.event.Entry.{Entry};
ghost use Rattle.object_rules.specs.BoardRules.{is_image};
ghost use Rattle.object_rules.specs.BoardTeams.{teams_after, members_at};
ghost use Rattle.object_rules.specs.ImagePairs.{names};
ghost use Rattle.control_board.specs.Boards.{IsBoard, IsFreshRounds};
ghost use Rattle.team_tree.specs.KnownTeams.{all_known};

use crate::brought::Table;
use crate::forming::{BadRound, Given, Plan, new_tables};
use caf_base::place::{ImageNo, TeamNo};
use caf_base::refusal::NoMemory;
use image_sync::criticals::Criticals;
use image_sync::pairs::Pairs;
use std::alloc::Global;
use team_round::rounds::Rounds;
use team_tree::teams::Teams;

/// The number of images, the teams with the round that made each, their rounds of image control statements and of
/// collective subroutines, what each image has brought to the latter and given at FORM TEAM, the rounds of FORM TEAM
/// that closed with a bad argument, the SYNC IMAGES of each image, who is inside CRITICAL constructs, and what the next
/// step makes of the teams.
#[derive(Drop)]
pub struct Parts {
    pub images: u32,
    pub teams: Teams,
    pub births: Vec<u64>,
    pub control: Rounds,
    pub collective: Rounds,
    pub brought: Vec<Table>,
    pub forms: Vec<Given>,
    pub bad: Vec<BadRound>,
    pub pairs: Pairs,
    pub criticals: Criticals,
    pub plan: Plan,
}

// The parts of a run of n images at its start, with its teams and rounds.
fn parts_with(
    alloc: Global,
    n: u32,
    teams: Teams,
    control: Rounds,
    collective: Rounds,
) -> Result<Parts, NoMemory>
    requires teams { teams.teams ≡ all_known (teams_after n []) }
    requires control { IsFreshRounds n control }
    requires collective { IsFreshRounds n collective }
    ensures { IfOk result (λ p. IsBoard n [] p) }
{
    let brought = new_tables(alloc, n, 1)?;
    let births = Vec::from_elem(alloc, 0, 1)?;
    let pairs = Pairs::new(alloc, n)?;
    Ok(Parts {
        images: n,
        teams,
        births,
        control,
        collective,
        brought,
        forms: Vec::new(alloc),
        bad: Vec::new(alloc),
        pairs,
        criticals: Criticals::new(alloc),
        plan: Plan::none(alloc),
    })
}

// The parts of a run of n images at its start.
pub(crate) fn new_parts(alloc: Global, n: u32) -> Result<Parts, NoMemory>
    ensures { IfOk result (λ p. IsBoard n [] p) }
{
    let teams = Teams::new(alloc, n)?;
    let control = Rounds::new(alloc, n)?;
    let collective = Rounds::new(alloc, n)?;
    parts_with(alloc, n, teams, control, collective)
}

// Whether the run has this image.
pub(crate) fn has_image(images: u32, image: ImageNo) -> bool
    ensures { result ≡ is_image images image.0 }
{
    image.0 >= 1 && image.0 <= images
}

// Whether there is this team.
pub(crate) fn has_team(teams: &Teams, team: TeamNo) -> bool
    ensures { result ≡ is_image (length teams.now.teams) team.0 }
{
    team.0 >= 1 && team.0 as usize <= teams.len()
}

// Whether the image is a member of the team.
pub(crate) fn is_member(parts: &Parts, team: TeamNo, image: ImageNo) -> bool
    ensures { (n : ℕ) (h : List Entry) → IsBoard n h parts.now → result ≡ names image.0 (members_at (teams_after n h) team.0) }
{
    has_team(&parts.teams, team) && parts.teams.member(team, image)
}
