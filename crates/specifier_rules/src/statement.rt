//! The specifiers of statements (9.7.4, 11.6): STAT=, alone or with ACQUIRED_LOCK=, NEW_INDEX= or UNTIL_COUNT=.

ghost use Rattle.std.specs.Prelude.{◌≡◌, IfOk, None, codes, cond, map};
ghost use Rattle.std.specs.Option.{option_map};
ghost use Rattle.checked_tree.specs.ExpressionViews.{expression, maybe_result, result_variable as result_seen};
ghost use Rattle.rule_definitions.specs.Actions.{with_stat};
ghost use Rattle.rule_definitions.specs.Judgements.{both};
ghost use Rattle.specifier_rules.specs.Meanings.{acquired_and_stat, acquired_with, number_and_stat, number_with};
ghost use Rattle.specifier_rules.specs.Values.{expression_in, result_in};
ghost use Rattle.specifier_rules.specs.Views.{acquired_and_stat_seen, number_and_stat_seen, values_seen, written};

use crate::naming::order_written;
use crate::specifier::Specified;
use crate::value::{Meanings, Values, judge_specifiers};
use caf_base::refusal::NoMemory;
use checked_tree::expr::{ResultVariable, TypedExpr, WrittenOrder};
use part_rules::judged::{Judged, are_none};
use std::alloc::Global;

/// A number and the variable of STAT=, where they are written, and in which order.
#[derive(Drop)]
pub struct NumberAndStat {
    pub number: Option<TypedExpr>,
    pub stat: Option<ResultVariable>,
    pub order: WrittenOrder,
}

/// The variables of ACQUIRED_LOCK= and of STAT=, where they are written, and in which order.
#[derive(Drop)]
pub struct AcquiredAndStat {
    pub acquired: Option<ResultVariable>,
    pub stat: Option<ResultVariable>,
    pub order: WrittenOrder,
}

/// The variable of STAT=, where nothing is broken.
#[tactic(auto, using(crate::proofs::Slots::stat_seen))]
fn stat_value(holds: bool, values: Values) -> Option<Option<ResultVariable>>
    ensures { option_map maybe_result result ≡ cond holds (option_map result_in (values_seen values).stat) None }
{
    let Values {
        stat,
        acquired_lock,
        team,
        team_number,
        new_index,
        until_count,
    } = values;
    drop(acquired_lock);
    drop(team);
    drop(team_number);
    drop(new_index);
    drop(until_count);
    if holds {
        return stat;
    }
    drop(stat);
    None
}

/// A number and the variable of STAT= together, where nothing is broken.
#[tactic(auto, using(crate::proofs::Slots::result_seen_in, crate::proofs::Slots::expression_seen_in))]
fn number_with_stat(
    holds: bool,
    number: Option<Option<TypedExpr>>,
    stat: Option<Option<ResultVariable>>,
    order: WrittenOrder,
) -> Option<NumberAndStat>
    ensures { option_map number_and_stat_seen result ≡ cond holds (both (number_with order) (option_map expression_in (option_map (option_map expression) number)) (option_map result_in (option_map (option_map result_seen) stat))) None }
{
    let Some(number) = number else {
        drop(stat);
        return None;
    };
    let Some(stat) = stat else {
        drop(number);
        return None;
    };
    if holds {
        return Some(NumberAndStat {
            number,
            stat,
            order,
        });
    }
    drop(number);
    drop(stat);
    None
}

/// The values of NEW_INDEX= and of STAT=, where nothing is broken.
fn new_index_value(holds: bool, values: Values, order: WrittenOrder) -> Option<NumberAndStat>
    ensures { option_map number_and_stat_seen result ≡ cond holds (both (number_with order) (option_map expression_in (values_seen values).new_index) (option_map result_in (values_seen values).stat)) None }
{
    let Values {
        stat,
        acquired_lock,
        team,
        team_number,
        new_index,
        until_count,
    } = values;
    drop(acquired_lock);
    drop(team);
    drop(team_number);
    drop(until_count);
    number_with_stat(holds, new_index, stat, order)
}

/// The values of UNTIL_COUNT= and of STAT=, where nothing is broken.
fn until_count_value(holds: bool, values: Values, order: WrittenOrder) -> Option<NumberAndStat>
    ensures { option_map number_and_stat_seen result ≡ cond holds (both (number_with order) (option_map expression_in (values_seen values).until_count) (option_map result_in (values_seen values).stat)) None }
{
    let Values {
        stat,
        acquired_lock,
        team,
        team_number,
        new_index,
        until_count,
    } = values;
    drop(acquired_lock);
    drop(team);
    drop(team_number);
    drop(new_index);
    number_with_stat(holds, until_count, stat, order)
}

/// The variables of ACQUIRED_LOCK= and of STAT= together, where nothing is broken.
#[tactic(auto, using(crate::proofs::Slots::result_seen_in))]
fn acquired_with_stat(
    holds: bool,
    acquired: Option<Option<ResultVariable>>,
    stat: Option<Option<ResultVariable>>,
    order: WrittenOrder,
) -> Option<AcquiredAndStat>
    ensures { option_map acquired_and_stat_seen result ≡ cond holds (both (acquired_with order) (option_map result_in (option_map (option_map result_seen) acquired)) (option_map result_in (option_map (option_map result_seen) stat))) None }
{
    let Some(acquired) = acquired else {
        drop(stat);
        return None;
    };
    let Some(stat) = stat else {
        drop(acquired);
        return None;
    };
    if holds {
        return Some(AcquiredAndStat {
            acquired,
            stat,
            order,
        });
    }
    drop(acquired);
    drop(stat);
    None
}

/// The values of ACQUIRED_LOCK= and of STAT=, where nothing is broken.
fn acquired_value(holds: bool, values: Values, order: WrittenOrder) -> Option<AcquiredAndStat>
    ensures { option_map acquired_and_stat_seen result ≡ cond holds (both (acquired_with order) (option_map result_in (values_seen values).acquired_lock) (option_map result_in (values_seen values).stat)) None }
{
    let Values {
        stat,
        acquired_lock,
        team,
        team_number,
        new_index,
        until_count,
    } = values;
    drop(team);
    drop(team_number);
    drop(new_index);
    drop(until_count);
    acquired_with_stat(holds, acquired_lock, stat, order)
}

/// The specifiers of a statement that has STAT= alone: rule 35 for their names, rules 36, 39 and 51 for their values.
pub fn stat_alone(
    alloc: Global,
    specified: Vec<Specified>,
) -> Result<Judged<Option<ResultVariable>>, NoMemory>
    ensures breaks { IfOk result (λ j. j.breaks.items ≡ (with_stat (map written specified.items)).breaks) }
    ensures meaning { IfOk result (λ j. option_map maybe_result j.meaning ≡ (with_stat (map written specified.items)).meaning) }
{
    let allowed = [b"stat".as_slice()];
    let Meanings { breaks, values } = judge_specifiers(alloc, &allowed, specified)?;
    let holds = are_none(breaks.as_slice());
    let meaning = stat_value(holds, values);
    Ok(Judged { breaks, meaning })
}

/// The specifiers of FORM TEAM (11.6.9): NEW_INDEX= and STAT=.
pub fn form_team_specifiers(
    alloc: Global,
    specified: Vec<Specified>,
) -> Result<Judged<NumberAndStat>, NoMemory>
    ensures breaks { IfOk result (λ j. j.breaks.items ≡ (number_and_stat (codes "new_index") (map written specified.items)).breaks) }
    ensures meaning { IfOk result (λ j. option_map number_and_stat_seen j.meaning ≡ (number_and_stat (codes "new_index") (map written specified.items)).meaning) }
{
    let number = b"new_index".as_slice();
    let stat = b"stat".as_slice();
    let order = order_written(number, stat, specified.as_slice());
    let Meanings { breaks, values } = judge_specifiers(alloc, &[number, stat], specified)?;
    let holds = are_none(breaks.as_slice());
    let meaning = new_index_value(holds, values, order);
    Ok(Judged { breaks, meaning })
}

/// The specifiers of EVENT WAIT (11.6.8): UNTIL_COUNT= and STAT=.
pub fn event_wait_specifiers(
    alloc: Global,
    specified: Vec<Specified>,
) -> Result<Judged<NumberAndStat>, NoMemory>
    ensures breaks { IfOk result (λ j. j.breaks.items ≡ (number_and_stat (codes "until_count") (map written specified.items)).breaks) }
    ensures meaning { IfOk result (λ j. option_map number_and_stat_seen j.meaning ≡ (number_and_stat (codes "until_count") (map written specified.items)).meaning) }
{
    let number = b"until_count".as_slice();
    let stat = b"stat".as_slice();
    let order = order_written(number, stat, specified.as_slice());
    let Meanings { breaks, values } = judge_specifiers(alloc, &[number, stat], specified)?;
    let holds = are_none(breaks.as_slice());
    let meaning = until_count_value(holds, values, order);
    Ok(Judged { breaks, meaning })
}

/// The specifiers of LOCK (11.6.10): ACQUIRED_LOCK= and STAT=.
pub fn lock_specifiers(
    alloc: Global,
    specified: Vec<Specified>,
) -> Result<Judged<AcquiredAndStat>, NoMemory>
    ensures breaks { IfOk result (λ j. j.breaks.items ≡ (acquired_and_stat (map written specified.items)).breaks) }
    ensures meaning { IfOk result (λ j. option_map acquired_and_stat_seen j.meaning ≡ (acquired_and_stat (map written specified.items)).meaning) }
{
    let acquired = b"acquired_lock".as_slice();
    let stat = b"stat".as_slice();
    let order = order_written(acquired, stat, specified.as_slice());
    let Meanings { breaks, values } = judge_specifiers(alloc, &[acquired, stat], specified)?;
    let holds = are_none(breaks.as_slice());
    let meaning = acquired_value(holds, values, order);
    Ok(Judged { breaks, meaning })
}
