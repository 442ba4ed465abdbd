//! The specifiers of image selectors (9.6): STAT=, TEAM= and TEAM_NUMBER=.

ghost use Rattle.std.specs.Prelude.{◌≡◌, IfOk, None, cond, map};
ghost use Rattle.std.specs.Option.{option_map};
ghost use Rattle.checked_tree.specs.ExpressionViews.{expression, optional_result, result_variable as result_seen, selected_team as team_seen};
ghost use Rattle.rule_definitions.specs.Judgements.{both};
ghost use Rattle.specifier_rules.specs.Meanings.{team_and_stat, team_with};
ghost use Rattle.specifier_rules.specs.Values.{number_in, result_in, team_in};
ghost use Rattle.specifier_rules.specs.Views.{team_and_stat_seen, values_seen, written};

use crate::specifier::Specified;
use crate::value::{Meanings, Values, judge_specifiers};
use caf_base::refusal::NoMemory;
use checked_tree::expr::{ResultVariable, SelectedTeam, TypedExpr};
use part_rules::judged::{Judged, are_none};
use std::alloc::Global;

/// The team that a selector names, and the variable of its STAT=.
#[derive(Drop)]
pub struct TeamAndStat {
    pub team: SelectedTeam,
    pub stat: Option<Box<ResultVariable>>,
}

/// The team with the number of TEAM_NUMBER=; the current team where it isn't written.
#[tactic(auto, using(checked_tree::specs::ExpressionViews::typed_forms))]
fn numbered_team(
    alloc: Global,
    team_number: Option<Option<TypedExpr>>,
) -> Result<Option<SelectedTeam>, NoMemory>
    ensures { IfOk result (λ o. option_map team_seen o ≡ option_map number_in (option_map (option_map expression) team_number)) }
{
    match team_number {
        Some(Some(number)) => {
            let number = Box::new(alloc, number)?;
            Ok(Some(SelectedTeam::TeamNumber(number)))
        }
        Some(None) => Ok(Some(SelectedTeam::Current)),
        None => Ok(None),
    }
}

/// The team of TEAM= or of TEAM_NUMBER=; the current team where neither is written.
#[tactic(auto, using(checked_tree::specs::ExpressionViews::typed_forms))]
fn named_team(
    alloc: Global,
    team: Option<Option<TypedExpr>>,
    team_number: Option<Option<TypedExpr>>,
) -> Result<Option<SelectedTeam>, NoMemory>
    ensures { IfOk result (λ o. option_map team_seen o ≡ team_in (option_map (option_map expression) team) (option_map (option_map expression) team_number)) }
{
    match team {
        Some(Some(team)) => {
            drop(team_number);
            let team = Box::new(alloc, team)?;
            Ok(Some(SelectedTeam::Team(team)))
        }
        Some(None) => numbered_team(alloc, team_number),
        None => {
            drop(team_number);
            Ok(None)
        }
    }
}

/// The variable of STAT= as a selector holds it.
fn boxed(
    alloc: Global,
    stat: Option<Option<ResultVariable>>,
) -> Result<Option<Option<Box<ResultVariable>>>, NoMemory>
    ensures { IfOk result (λ o. option_map optional_result o ≡ option_map result_in (option_map (option_map result_seen) stat)) }
{
    match stat {
        Some(Some(stat)) => {
            let stat = Box::new(alloc, stat)?;
            Ok(Some(Some(stat)))
        }
        Some(None) => Ok(Some(None)),
        None => Ok(None),
    }
}

/// The two together, where nothing is broken.
fn together(
    holds: bool,
    team: Option<SelectedTeam>,
    stat: Option<Option<Box<ResultVariable>>>,
) -> Option<TeamAndStat>
    ensures { option_map team_and_stat_seen result ≡ cond holds (both team_with (option_map team_seen team) (option_map optional_result stat)) None }
{
    let Some(team) = team else {
        drop(stat);
        return None;
    };
    let Some(stat) = stat else {
        drop(team);
        return None;
    };
    if holds {
        return Some(TeamAndStat { team, stat });
    }
    drop(team);
    drop(stat);
    None
}

/// What the specifiers of a selector stand for, where nothing is broken.
fn selector_values(
    alloc: Global,
    holds: bool,
    values: Values,
) -> Result<Option<TeamAndStat>, NoMemory>
    ensures { IfOk result (λ o. option_map team_and_stat_seen o ≡ cond holds (both team_with (team_in (values_seen values).team (values_seen values).team_number) (option_map result_in (values_seen values).stat)) None) }
{
    let Values {
        stat,
        acquired_lock,
        team,
        team_number,
        new_index,
        until_count,
    } = values;
    drop(acquired_lock);
    drop(new_index);
    drop(until_count);
    let team = named_team(alloc, team, team_number)?;
    let stat = boxed(alloc, stat)?;
    Ok(together(holds, team, stat))
}

/// The specifiers of an image selector: rule 35 for their names, rules 36, 39 and 51 for their values.
pub fn selector_specifiers(
    alloc: Global,
    specified: Vec<Specified>,
) -> Result<Judged<TeamAndStat>, NoMemory>
    ensures breaks { IfOk result (λ j. j.breaks.items ≡ (team_and_stat (map written specified.items)).breaks) }
    ensures meaning { IfOk result (λ j. option_map team_and_stat_seen j.meaning ≡ (team_and_stat (map written specified.items)).meaning) }
{
    let allowed = [
        b"stat".as_slice(),
        b"team".as_slice(),
        b"team_number".as_slice(),
    ];
    let Meanings { breaks, values } = judge_specifiers(alloc, &allowed, specified)?;
    let holds = are_none(breaks.as_slice());
    let meaning = selector_values(alloc, holds, values)?;
    Ok(Judged { breaks, meaning })
}
