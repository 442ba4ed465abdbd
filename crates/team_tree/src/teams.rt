//! The teams of a run.

ghost use Rattle.std.specs.Prelude.{◌≡◌, ◌+◌, ◌-◌, ◌<◌, ◌≤◌, ◌^◌, [], ◌++◌, ◌&&◌, not, false, nat_eq, length, map, IfOk, OnOk, vec_len, vec_capacity};
ghost use Rattle.std.specs.List.{range_with_len};
ghost use Rattle.object_rules.specs.BoardTeams.{teams_after};
ghost use Rattle.object_rules.specs.Happenings.{numbers_of};
ghost use Rattle.object_rules.specs.ImagePairs.{names};
ghost use Rattle.object_rules.specs.FormedTeams.{is_bad_form, formed};
ghost use Rattle.team_tree.specs.Args.{plain_args, plain_teams};
ghost use Rattle.team_tree.specs.Orders.{in_order};
ghost use Rattle.team_tree.specs.KnownTeams.{team_of, all_known, images_from, index_from, parent_of, child_of, AreFew};

use crate::arg::{FormArg, Members};
use crate::plan::{FormPlan, plan_of};
use crate::team::Team;
use caf_base::place::{ImageNo, TeamNo};
use caf_base::refusal::NoMemory;
use caf_events::reply::FormedTeam;
use std::alloc::Global;
use std::marker::Model;

/// The teams of a run. In a contract they are a list, team 1 first.
#[derive(Drop)]
pub struct Teams {
    teams: Vec<Team>,
}

impl Model for Teams {
    ghost use Rattle.std.specs.Prelude.{◌-◌};
    ghost use Rattle.std.specs.Vec.{vec_capacity, vec_len};
    ghost use Rattle.team_tree.specs.KnownTeams.{TeamsState};

    ghost Value = { TeamsState };

    ghost view = { λ t. record { teams = t.teams.items; room = vec_capacity t.teams - vec_len t.teams } };
}

// The images 1 to n.
fn all_images(alloc: Global, n: u32) -> Result<Vec<ImageNo>, NoMemory>
    ensures { IfOk result (λ v. v.items ≡ images_from (range_with_len 1 n)) }
{
    let mut images = Vec::new(alloc);
    for k in 0..n {
        images.push(ImageNo(k + 1))?;
    }
    Ok(images)
}

// Adds the teams as children of the parent. It takes no memory.
fn add_children(teams: &mut Vec<Team>, parent: u32, made: Vec<Members>)
    requires few { AreFew made.items }
    requires room { vec_len teams.old + length made.items ≤ vec_capacity teams.old }
    ensures teams { teams.new.items ≡ teams.old.items ++ map (child_of parent) made.items }
    ensures len { vec_len teams.new ≡ vec_len teams.old + length made.items }
    ensures capacity { vec_capacity teams.new ≡ vec_capacity teams.old }
{
    for one in made {
        let Members { number, images } = one;
        teams.push_reserved(Team::new(parent, number, images));
    }
}

impl Teams {
    /// Team 1 with the images 1 to n.
    pub fn new(alloc: Global, n: u32) -> Result<Teams, NoMemory>
        ensures { IfOk result (λ t. t.teams ≡ all_known (teams_after n [])) }
    {
        let mut teams = Vec::new(alloc);
        teams.push(Team::new(0, -1, all_images(alloc, n)?))?;
        Ok(Teams { teams })
    }

    /// How many teams there are.
    pub fn len(&self) -> usize
        ensures { result ≡ length self.now.teams }
    {
        self.teams.len()
    }

    /// Whether the image is a member of the team.
    pub fn member(&self, t: TeamNo, image: ImageNo) -> bool
        requires { (0 < t.0) × (t.0 ≤ length self.now.teams) }
        ensures { result ≡ names image.0 (numbers_of (team_of self.now.teams t.0).members) }
    {
        self.teams[(t.0 - 1) as usize].has(image)
    }

    /// The members of the team in index order.
    pub fn members(&self, t: TeamNo) -> &[ImageNo]
        requires { (0 < t.0) × (t.0 ≤ length self.now.teams) }
        ensures members { result.now ≡ (team_of self.now.teams t.0).members }
        ensures few { length result.now < 2 ^ 32 }
    {
        self.teams[(t.0 - 1) as usize].members()
    }

    /// The image index of the image in the team; 0 exactly for a stranger.
    pub fn index_in(&self, t: TeamNo, image: ImageNo) -> u32
        requires { (0 < t.0) × (t.0 ≤ length self.now.teams) }
        ensures { result ≡ index_from 1 (team_of self.now.teams t.0).members image.0 }
    {
        self.teams[(t.0 - 1) as usize].index_of(image)
    }

    /// The parent of the team; None exactly for team 1.
    pub fn parent(&self, t: TeamNo) -> Option<TeamNo>
        requires { (0 < t.0) × (t.0 ≤ length self.now.teams) }
        ensures { result ≡ parent_of (team_of self.now.teams t.0).parent }
    {
        self.teams[(t.0 - 1) as usize].parent()
    }

    /// Whether the team is a child of this one.
    pub fn is_child(&self, t: TeamNo, parent: TeamNo) -> bool
        requires { (0 < t.0) × (t.0 ≤ length self.now.teams) }
        ensures { result ≡ nat_eq (team_of self.now.teams t.0).parent parent.0 }
    {
        self.teams[(t.0 - 1) as usize].is_child_of(parent)
    }

    /// The team as a reply tells it.
    pub fn told(&self, alloc: Global, t: TeamNo) -> Result<FormedTeam, NoMemory>
        requires { (0 < t.0) × (t.0 ≤ length self.now.teams) }
        ensures { IfOk result (λ f. f ≡ record { team = t; number = (team_of self.now.teams t.0).number; members = (team_of self.now.teams t.0).members }) }
    {
        self.teams[(t.0 - 1) as usize].told(alloc, t)
    }

    /// The plan of a FORM TEAM of the parent, by the arguments of its members; the arguments may stand in any order.
    pub fn plan_form(
        &self,
        alloc: Global,
        parent: TeamNo,
        args: &[FormArg],
        failed: bool,
    ) -> Result<FormPlan, NoMemory>
        requires { (0 < parent.0) × (parent.0 ≤ length self.now.teams) }
        ensures parent { IfOk result (λ p. p.parent ≡ parent) }
        ensures bad { IfOk result (λ p. p.bad ≡ (not failed && is_bad_form (plain_args (in_order (team_of self.now.teams parent.0).members args.now)))) }
        ensures teams { IfOk result (λ p. plain_teams p.teams.items ≡ formed false failed (plain_args (in_order (team_of self.now.teams parent.0).members args.now))) }
        ensures few { IfOk result (λ p. AreFew p.teams.items) }
    {
        plan_of(
            alloc,
            parent,
            self.teams[(parent.0 - 1) as usize].members(),
            args,
            failed,
        )
    }

    /// Makes room for so many teams, in numbers too.
    pub fn reserve(&mut self, more: usize) -> Result<(), NoMemory>
        ensures same { self.new.teams ≡ self.old.teams }
        ensures room { OnOk result (more ≤ self.new.room) }
        ensures numbers { OnOk result (length self.new.teams + more < 2 ^ 32) }
    {
        match self.teams.len().checked_add(more) {
            Some(all) if all <= 4_294_967_295 => {}
            _ => return Err(NoMemory),
        }
        self.teams.reserve(more)?;
        Ok(())
    }

    /// Adds the teams of the plan as children of its parent. It takes no memory.
    pub fn enact(&mut self, plan: FormPlan)
        requires few { AreFew plan.teams.items }
        requires room { length plan.teams.items ≤ self.old.room }
        ensures teams { self.new.teams ≡ self.old.teams ++ map (child_of plan.parent.0) plan.teams.items }
        ensures room { self.new.room + length plan.teams.items ≡ self.old.room }
    {
        let FormPlan {
            parent,
            bad: _,
            teams,
        } = plan;
        add_children(&mut self.teams, parent.0, teams);
    }
}
