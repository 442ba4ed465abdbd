//! FORM TEAM (ISO/IEC 1539-1:2018, 11.6.9): what images gave, and the teams that a step makes.

ghost use Rattle.std.specs.Prelude.{◌≡◌, ◌+◌, ◌<◌, ◌≤◌, ◌++◌, ◌&&◌, nat_eq, length, map, replicate, IsTrue, IfOk, OnOk, vec_len, vec_capacity};
ghost use Rattle.object_rules.specs.BoardTeams.{Team};
ghost use Rattle.team_tree.specs.KnownTeams.{all_known};
ghost use Rattle.control_board.specs.Values.{no_values};
ghost use Rattle.control_board.specs.Boards.{MakesNoTeam, args_in, given_at, given_with, listed_with, all_made, AllFew, images_of_teams, is_listed, IsCopied};

use crate::brought::Table;
use caf_base::place::{ImageNo, TeamNo};
use caf_base::refusal::NoMemory;
use caf_events::round::Arriving;
use std::alloc::Global;
use team_round::round::Arrival;
use team_tree::arg::{FormArg, Members};
use team_tree::plan::FormPlan;
use team_tree::teams::Teams;

/// What an image gave in a round of a team.
#[derive(Clone, Copy)]
pub struct Given {
    pub team: TeamNo,
    pub round: u64,
    pub arg: FormArg,
}

/// A round of FORM TEAM that closed with a bad argument.
#[derive(Clone, Copy)]
pub struct BadRound {
    pub team: TeamNo,
    pub round: u64,
}

/// A round of FORM TEAM that closes: its number, and the plan of the teams that it makes.
#[derive(Drop)]
pub struct Formation {
    pub round: u64,
    pub plan: FormPlan,
}

/// What a step makes of the teams: the rounds that close, `bad` where one closes with a bad argument, and for each team
/// that is made what the rounds and the collective subroutines keep of it.
#[derive(Drop)]
pub struct Plan {
    pub formations: Vec<Formation>,
    pub bad: bool,
    pub control: Vec<Vec<ImageNo>>,
    pub collective: Vec<Vec<ImageNo>>,
    pub tables: Vec<Table>,
}

impl Plan {
    // No team is made. It takes no memory.
    pub(crate) fn none(alloc: Global) -> Plan
        ensures { MakesNoTeam result }
    {
        Plan {
            formations: Vec::new(alloc),
            bad: false,
            control: Vec::new(alloc),
            collective: Vec::new(alloc),
            tables: Vec::new(alloc),
        }
    }

    // Whether no team is made, and nothing is kept for one.
    fn is_none(&self) -> bool
        ensures { IsTrue result → MakesNoTeam self.now }
    {
        !self.bad
            && self.formations.is_empty()
            && self.control.is_empty()
            && self.collective.is_empty()
            && self.tables.is_empty()
    }

    // Makes it a plan by which no team is made, which most plans are already. It takes no memory.
    pub(crate) fn clear(&mut self, alloc: Global)
        ensures { MakesNoTeam self.new }
    {
        if !self.is_none() {
            *self = Plan::none(alloc);
        }
    }
}

// What the image gives where it arrives at FORM TEAM.
pub(crate) fn form_of(image: ImageNo, arriving: &Arriving) -> Option<FormArg>
    ensures { result ≡ given_at image arriving.now }
{
    match arriving {
        Arriving::Form { number, new_index } => Some(FormArg {
            image,
            number: *number,
            new_index: *new_index,
        }),
        _ => None,
    }
}

// Whether it was given in this round of the team.
fn is_of(given: &Given, team: TeamNo, round: u64) -> bool
    ensures { result ≡ (nat_eq given.now.team.0 team.0 && nat_eq given.now.round round) }
{
    given.team.0 == team.0 && given.round == round
}

// What images gave in a round of the team.
pub(crate) fn args_for(
    alloc: Global,
    forms: &Vec<Given>,
    team: TeamNo,
    round: u64,
) -> Result<Vec<FormArg>, NoMemory>
    ensures { IfOk result (λ v. v.items ≡ args_in forms.now.items team.0 round) }
{
    let mut args = Vec::new(alloc);
    for given in forms {
        if is_of(given, team, round) {
            args.push(given.arg)?;
        }
    }
    Ok(args)
}

// Keeps what an arrival gave, where it joined a round. It takes no memory.
pub(crate) fn keep_given(
    forms: &mut Vec<Given>,
    team: TeamNo,
    form: Option<FormArg>,
    arrival: Arrival,
)
    requires { vec_len forms.old < vec_capacity forms.old }
    ensures { forms.new.items ≡ given_with forms.old.items team form arrival }
{
    match form {
        Some(arg) => match arrival {
            Arrival::Joined(round) => forms.push_reserved(Given { team, round, arg }),
            Arrival::Clash { .. } => {}
        },
        None => {}
    }
}

// Keeps the round of an arrival, where it closed with a bad argument. It takes no memory.
pub(crate) fn keep_bad(rounds: &mut Vec<BadRound>, team: TeamNo, arrival: Arrival, bad: bool)
    requires { vec_len rounds.old < vec_capacity rounds.old }
    ensures { rounds.new.items ≡ listed_with rounds.old.items team arrival bad }
{
    match arrival {
        Arrival::Joined(round) => {
            if bad {
                rounds.push_reserved(BadRound { team, round });
            }
        }
        Arrival::Clash { .. } => {}
    }
}

// Whether this round of the team closed with a bad argument.
fn is_bad_at(bad: &BadRound, team: TeamNo, round: u64) -> bool
    ensures { result ≡ (nat_eq bad.now.team.0 team.0 && nat_eq bad.now.round round) }
{
    bad.team.0 == team.0 && bad.round == round
}

// Whether the round of the team is one of those that closed with a bad argument.
pub(crate) fn is_bad(rounds: &Vec<BadRound>, team: TeamNo, round: u64) -> bool
    ensures { result ≡ is_listed rounds.now.items team.0 round }
{
    let mut found = false;
    for bad in rounds {
        if is_bad_at(bad, team, round) {
            found = true;
        }
    }
    found
}

// Copies the members of the teams behind the others.
fn copy_teams(
    alloc: Global,
    copies: &mut Vec<Vec<ImageNo>>,
    teams: &Vec<Members>,
) -> Result<(), NoMemory>
    ensures { OnOk result (IsCopied copies.old.items teams.now.items copies.new.items) }
{
    for team in teams {
        copies.push(Vec::from_slice(alloc, team.images.as_slice())?)?;
    }
    Ok(())
}

// The members of all teams that are made.
pub(crate) fn copy_members(
    alloc: Global,
    formations: &Vec<Formation>,
) -> Result<Vec<Vec<ImageNo>>, NoMemory>
    ensures { IfOk result (λ v. map (λ x. x.items) v.items ≡ images_of_teams (all_made formations.now.items)) }
{
    let mut copies = Vec::new(alloc);
    for formation in formations {
        copy_teams(alloc, &mut copies, &formation.plan.teams)?;
    }
    Ok(copies)
}

// So many tables of n images that have brought nothing.
pub(crate) fn new_tables(alloc: Global, n: u32, count: usize) -> Result<Vec<Table>, NoMemory>
    ensures { IfOk result (λ v. v.items ≡ replicate count (replicate n no_values)) }
{
    let mut tables = Vec::new(alloc);
    for _ in 0..count {
        tables.push(Table::new(alloc, n)?)?;
    }
    Ok(tables)
}

// Puts the tables behind the others. It takes no memory.
pub(crate) fn add_tables(tables: &mut Vec<Table>, more: Vec<Table>)
    requires { vec_len tables.old + length more.items ≤ vec_capacity tables.old }
    ensures { tables.new.items ≡ tables.old.items ++ more.items }
{
    for table in more {
        tables.push_reserved(table);
    }
}

// Puts the round behind the others so many times. It takes no memory.
fn add_births(births: &mut Vec<u64>, round: u64, count: usize)
    requires { vec_len births.old + count ≤ vec_capacity births.old }
    ensures items { births.new.items ≡ births.old.items ++ replicate count round }
    ensures len { vec_len births.new ≡ vec_len births.old + count }
    ensures capacity { vec_capacity births.new ≡ vec_capacity births.old }
{
    for _ in 0..count {
        births.push_reserved(round);
    }
}

// Adds the teams that are made. It takes no memory.
pub(crate) fn add_formed(teams: &mut Teams, births: &mut Vec<u64>, formations: Vec<Formation>)
    requires few { AllFew formations.items }
    requires room { length (all_made formations.items) ≤ teams.old.room }
    requires births { vec_len births.old + length (all_made formations.items) ≤ vec_capacity births.old }
    ensures teams { teams.new.teams ≡ teams.old.teams ++ all_known (all_made formations.items) }
    ensures births { births.new.items ≡ births.old.items ++ map (λ (x : Team). x.round) (all_made formations.items) }
{
    for formation in formations {
        let Formation { round, plan } = formation;
        add_births(births, round, plan.teams.len());
        teams.enact(plan);
    }
}
