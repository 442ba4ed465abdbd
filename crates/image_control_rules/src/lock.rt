//! LOCK, UNLOCK, EVENT POST and EVENT WAIT (11.6.7, 11.6.8, 11.6.10): rules 48 to 50.

ghost use Rattle.std.specs.Prelude.{◌≡◌, ◌++◌, IfOk, codes};
ghost use Rattle.std.specs.Option.{option_map};
ghost use Rattle.checked_tree.specs.ExpressionViews.{designator as designator_seen, expression, maybe_result};
ghost use Rattle.checked_tree.specs.Statements as ts;
ghost use Rattle.checked_tree.specs.StatementViews.{statement_form};
ghost use Rattle.fortran_tree.specs.ExpressionViews.{designator as written, specifiers as specifiers_written};
ghost use Rattle.rule_definitions.specs.Actions as rules;
ghost use Rattle.rule_definitions.specs.Expressions.{judged_specifiers};
ghost use Rattle.rule_definitions.specs.IntrinsicSubroutines.{an_event, an_own_event};
ghost use Rattle.rule_definitions.specs.Judgements.{both, made_of_both};
ghost use Rattle.rule_definitions.specs.Names.{is_lock};
ghost use Rattle.part_rules.specs.Views.{placed as part_seen};
ghost use Rattle.specifier_rules.specs.Meanings.{acquired_and_stat, number_and_stat};
ghost use Rattle.specifier_rules.specs.Views.{acquired_and_stat_seen, number_and_stat_seen};
ghost use Rattle.image_control_rules.specs.Statements.{event_wait_with, lock_with, part_of};

use caf_base::refusal::NoMemory;
use checked_tree::data::DataType;
use checked_tree::expr::{Designator as TypedDesignator, ResultVariable};
use checked_tree::statement::StatementForm;
use expr_rules::expr::{judge_designator, judge_specifiers};
use fortran_tree::expr::{Designator, Specifier};
use part_rules::judged::{Judged, joined, ruled};
use part_rules::part::{Part, plain};
use rule_definitions::rule;
use scope_table::scope::Scope;
use shared_rules::form::scalar_part;
use shared_rules::stat::stat_of;
use specifier_rules::statement::{
    AcquiredAndStat, NumberAndStat, event_wait_specifiers, lock_specifiers,
};
use std::alloc::Global;
use subroutine_rules::event as events;

// The variable of a statement, at its name.
#[tactic(auto, using(fortran_tree::specs::ExpressionViews::expression_forms))]
fn judge_variable(alloc: Global, scope: &Scope<'_>, variable: &Designator) -> Result<Part, NoMemory>
    ensures { IfOk result (λ p. part_seen p ≡ part_of scope.now (written variable.now)) }
{
    let judged = judge_designator(alloc, scope, variable)?;
    Ok(Part {
        judged,
        at: variable.name.at,
        is_procedure: false,
    })
}

fn is_lock_type(of_type: DataType) -> bool
    ensures { result ≡ is_lock of_type }
{
    match of_type {
        DataType::Lock => true,
        DataType::Intrinsic(_) | DataType::Team | DataType::Event => false,
    }
}

// A variable of LOCK_TYPE (16.10.2.19): rule 48 for what is no scalar of that type.
#[tactic(auto, using(shared_rules::proofs::Forms::lock_by))]
fn a_lock(part: Part) -> Result<Judged<TypedDesignator>, NoMemory>
    ensures breaks { IfOk result (λ j. j.breaks.items ≡ (rules.a_lock (part_seen part)).breaks) }
    ensures meaning { IfOk result (λ j. option_map designator_seen j.meaning ≡ (rules.a_lock (part_seen part)).meaning) }
{
    let at = part.at;
    let Judged { breaks, meaning } = plain(part)?;
    let Some(value) = meaning else {
        return Ok(Judged {
            breaks,
            meaning: None,
        });
    };
    let is_lock = is_lock_type(value.of_type);
    let found = scalar_part(value, is_lock);
    let is_there = found.is_some();
    ruled(
        Judged {
            breaks,
            meaning: found,
        },
        is_there,
        rule::LOCK,
        at,
    )
}

#[tactic(auto, using(checked_tree::specs::StatementViews::typed_statement_forms))]
fn lock_form(
    variable: Option<TypedDesignator>,
    specified: Option<AcquiredAndStat>,
) -> Option<StatementForm>
    ensures { option_map statement_form result ≡ both lock_with (option_map designator_seen variable) (option_map acquired_and_stat_seen specified) }
{
    let Some(variable) = variable else {
        drop(specified);
        return None;
    };
    let Some(specified) = specified else {
        drop(variable);
        return None;
    };
    let AcquiredAndStat {
        acquired,
        stat,
        order,
    } = specified;
    Some(StatementForm::Lock {
        variable,
        acquired,
        stat,
        order,
    })
}

fn judge_lock_specifiers(
    alloc: Global,
    scope: &Scope<'_>,
    specifiers: &[Specifier],
) -> Result<Judged<AcquiredAndStat>, NoMemory>
    ensures breaks { IfOk result (λ j. j.breaks.items ≡ (acquired_and_stat (judged_specifiers scope.now (specifiers_written specifiers.now))).breaks) }
    ensures meaning { IfOk result (λ j. option_map acquired_and_stat_seen j.meaning ≡ (acquired_and_stat (judged_specifiers scope.now (specifiers_written specifiers.now))).meaning) }
{
    let specified = judge_specifiers(alloc, scope, specifiers)?;
    lock_specifiers(alloc, specified)
}

fn judge_lock_variable(
    alloc: Global,
    scope: &Scope<'_>,
    variable: &Designator,
) -> Result<Judged<TypedDesignator>, NoMemory>
    ensures breaks { IfOk result (λ j. j.breaks.items ≡ (rules.a_lock (rules.placed_designator scope.now (written variable.now))).breaks) }
    ensures meaning { IfOk result (λ j. option_map designator_seen j.meaning ≡ (rules.a_lock (rules.placed_designator scope.now (written variable.now))).meaning) }
{
    let part = judge_variable(alloc, scope, variable)?;
    a_lock(part)
}

/// LOCK.
#[tactic(auto, using(crate::proofs::Specified::lock_breaks, crate::proofs::Specified::lock_meaning))]
pub fn judge_lock(
    alloc: Global,
    scope: &Scope<'_>,
    variable: &Designator,
    specifiers: &[Specifier],
) -> Result<Judged<StatementForm>, NoMemory>
    ensures breaks { IfOk result (λ j. j.breaks.items ≡ (rules.lock_judged scope.now (written variable.now) (judged_specifiers scope.now (specifiers_written specifiers.now))).breaks) }
    ensures meaning { IfOk result (λ j. option_map statement_form j.meaning ≡ (rules.lock_judged scope.now (written variable.now) (judged_specifiers scope.now (specifiers_written specifiers.now))).meaning) }
{
    let Judged {
        breaks,
        meaning: found,
    } = judge_lock_variable(alloc, scope, variable)?;
    let Judged {
        breaks: further,
        meaning: specified,
    } = judge_lock_specifiers(alloc, scope, specifiers)?;
    joined(breaks, further, lock_form(found, specified))
}

#[tactic(auto, using(checked_tree::specs::StatementViews::typed_statement_forms))]
fn unlock_form(
    variable: Option<TypedDesignator>,
    stat: Option<Option<ResultVariable>>,
) -> Option<StatementForm>
    ensures { option_map statement_form result ≡ both ts.unlock (option_map designator_seen variable) (option_map maybe_result stat) }
{
    let Some(variable) = variable else {
        drop(stat);
        return None;
    };
    let Some(stat) = stat else {
        drop(variable);
        return None;
    };
    Some(StatementForm::Unlock { variable, stat })
}

/// UNLOCK.
pub fn judge_unlock(
    alloc: Global,
    scope: &Scope<'_>,
    variable: &Designator,
    specifiers: &[Specifier],
) -> Result<Judged<StatementForm>, NoMemory>
    ensures breaks { IfOk result (λ j. j.breaks.items ≡ (made_of_both ts.unlock (rules.a_lock (rules.placed_designator scope.now (written variable.now))) (rules.with_stat (judged_specifiers scope.now (specifiers_written specifiers.now)))).breaks) }
    ensures meaning { IfOk result (λ j. option_map statement_form j.meaning ≡ (made_of_both ts.unlock (rules.a_lock (rules.placed_designator scope.now (written variable.now))) (rules.with_stat (judged_specifiers scope.now (specifiers_written specifiers.now)))).meaning) }
{
    let Judged {
        breaks,
        meaning: found,
    } = judge_lock_variable(alloc, scope, variable)?;
    let Judged {
        breaks: further,
        meaning: stat,
    } = stat_of(alloc, scope, specifiers)?;
    joined(breaks, further, unlock_form(found, stat))
}

#[tactic(auto, using(checked_tree::specs::StatementViews::typed_statement_forms))]
fn event_post_form(
    variable: Option<TypedDesignator>,
    stat: Option<Option<ResultVariable>>,
) -> Option<StatementForm>
    ensures { option_map statement_form result ≡ both ts.event_post (option_map designator_seen variable) (option_map maybe_result stat) }
{
    let Some(variable) = variable else {
        drop(stat);
        return None;
    };
    let Some(stat) = stat else {
        drop(variable);
        return None;
    };
    Some(StatementForm::EventPost { variable, stat })
}

fn judge_event(
    alloc: Global,
    scope: &Scope<'_>,
    variable: &Designator,
) -> Result<Judged<TypedDesignator>, NoMemory>
    ensures breaks { IfOk result (λ j. j.breaks.items ≡ (an_event (rules.placed_designator scope.now (written variable.now))).breaks) }
    ensures meaning { IfOk result (λ j. option_map designator_seen j.meaning ≡ (an_event (rules.placed_designator scope.now (written variable.now))).meaning) }
{
    let part = judge_variable(alloc, scope, variable)?;
    events::an_event(part)
}

/// EVENT POST.
pub fn judge_event_post(
    alloc: Global,
    scope: &Scope<'_>,
    variable: &Designator,
    specifiers: &[Specifier],
) -> Result<Judged<StatementForm>, NoMemory>
    ensures breaks { IfOk result (λ j. j.breaks.items ≡ (made_of_both ts.event_post (an_event (rules.placed_designator scope.now (written variable.now))) (rules.with_stat (judged_specifiers scope.now (specifiers_written specifiers.now)))).breaks) }
    ensures meaning { IfOk result (λ j. option_map statement_form j.meaning ≡ (made_of_both ts.event_post (an_event (rules.placed_designator scope.now (written variable.now))) (rules.with_stat (judged_specifiers scope.now (specifiers_written specifiers.now)))).meaning) }
{
    let Judged {
        breaks,
        meaning: found,
    } = judge_event(alloc, scope, variable)?;
    let Judged {
        breaks: further,
        meaning: stat,
    } = stat_of(alloc, scope, specifiers)?;
    joined(breaks, further, event_post_form(found, stat))
}

#[tactic(auto, using(checked_tree::specs::StatementViews::typed_statement_forms))]
fn event_wait_form(
    variable: Option<TypedDesignator>,
    specified: Option<NumberAndStat>,
) -> Option<StatementForm>
    ensures { option_map statement_form result ≡ both event_wait_with (option_map designator_seen variable) (option_map number_and_stat_seen specified) }
{
    let Some(variable) = variable else {
        drop(specified);
        return None;
    };
    let Some(specified) = specified else {
        drop(variable);
        return None;
    };
    let NumberAndStat {
        number,
        stat,
        order,
    } = specified;
    Some(StatementForm::EventWait {
        variable,
        until_count: number,
        stat,
        order,
    })
}

fn judge_own_event(
    alloc: Global,
    scope: &Scope<'_>,
    variable: &Designator,
) -> Result<Judged<TypedDesignator>, NoMemory>
    ensures breaks { IfOk result (λ j. j.breaks.items ≡ (an_own_event (rules.placed_designator scope.now (written variable.now))).breaks) }
    ensures meaning { IfOk result (λ j. option_map designator_seen j.meaning ≡ (an_own_event (rules.placed_designator scope.now (written variable.now))).meaning) }
{
    let part = judge_variable(alloc, scope, variable)?;
    events::an_own_event(part)
}

fn judge_wait_specifiers(
    alloc: Global,
    scope: &Scope<'_>,
    specifiers: &[Specifier],
) -> Result<Judged<NumberAndStat>, NoMemory>
    ensures breaks { IfOk result (λ j. j.breaks.items ≡ (number_and_stat (codes "until_count") (judged_specifiers scope.now (specifiers_written specifiers.now))).breaks) }
    ensures meaning { IfOk result (λ j. option_map number_and_stat_seen j.meaning ≡ (number_and_stat (codes "until_count") (judged_specifiers scope.now (specifiers_written specifiers.now))).meaning) }
{
    let specified = judge_specifiers(alloc, scope, specifiers)?;
    event_wait_specifiers(alloc, specified)
}

/// EVENT WAIT.
#[tactic(auto, using(crate::proofs::Specified::wait_breaks, crate::proofs::Specified::wait_meaning))]
pub fn judge_event_wait(
    alloc: Global,
    scope: &Scope<'_>,
    variable: &Designator,
    specifiers: &[Specifier],
) -> Result<Judged<StatementForm>, NoMemory>
    ensures breaks { IfOk result (λ j. j.breaks.items ≡ (rules.wait_judged scope.now (written variable.now) (judged_specifiers scope.now (specifiers_written specifiers.now))).breaks) }
    ensures meaning { IfOk result (λ j. option_map statement_form j.meaning ≡ (rules.wait_judged scope.now (written variable.now) (judged_specifiers scope.now (specifiers_written specifiers.now))).meaning) }
{
    let Judged {
        breaks,
        meaning: found,
    } = judge_own_event(alloc, scope, variable)?;
    let Judged {
        breaks: further,
        meaning: specified,
    } = judge_wait_specifiers(alloc, scope, specifiers)?;
    joined(breaks, further, event_wait_form(found, specified))
}
