//! SYNC ALL, SYNC IMAGES, SYNC MEMORY, SYNC TEAM and FORM TEAM (11.6.3 to 11.6.6, 11.6.9): rules 20, 37, 51 and 52.

ghost use Rattle.std.specs.Prelude.{◌≡◌, ◌++◌, IfOk, OnOk, codes};
ghost use Rattle.std.specs.Option.{option_map};
ghost use Rattle.checked_tree.specs.ExpressionViews.{expression, maybe_result};
ghost use Rattle.checked_tree.specs.Statements as ts;
ghost use Rattle.checked_tree.specs.StatementViews.{image_set as set_seen, statement_form};
ghost use Rattle.fortran_tree.specs.ActionViews.{image_set as set_written, maybe_specifiers};
ghost use Rattle.fortran_tree.specs.ExpressionViews.{expression as written, specifiers as specifiers_written};
ghost use Rattle.rule_definitions.specs.Actions as rules;
ghost use Rattle.rule_definitions.specs.Expressions.{judged_specifiers, placed};
ghost use Rattle.rule_definitions.specs.Judgements.{both, made, made_of, made_of_both, three};
ghost use Rattle.rule_definitions.specs.Names.{denotes};
ghost use Rattle.rule_definitions.specs.Parts as parts;
ghost use Rattle.scope_table.specs.Scopes.{denoted as meaning_of, visible as symbol_seen};
ghost use Rattle.part_rules.specs.Views.{placed as part_seen};
ghost use Rattle.specifier_rules.specs.Meanings.{number_and_stat};
ghost use Rattle.specifier_rules.specs.Views.{number_and_stat_seen};
ghost use Rattle.image_control_rules.specs.Statements.{form_team_with, image_part, local_in};

use caf_base::place::Pos;
use caf_base::refusal::NoMemory;
use checked_tree::data::{DataType, Local, Object};
use checked_tree::expr::{ResultVariable, TypedExpr};
use checked_tree::statement::{ImageSet, StatementForm};
use expr_rules::expr::{judge_part, judge_specifiers};
use fortran_tree::action::ImageSet as WrittenSet;
use fortran_tree::expr::{Expr, Specifier};
use fortran_tree::name::Name;
use part_rules::judged::{Judged, add_all, breaking, fine, joined, refused, ruled, unknown};
use part_rules::part::{Part, plain};
use part_rules::types::{is_integer_type, is_team_type};
use rule_definitions::broken::Broken;
use rule_definitions::rule;
use scope_table::object::object_from;
use scope_table::scope::{Denoted, Scope, Visible};
use shared_rules::optional::scalar_integer;
use shared_rules::stat::{maybe_stat, stat_of};
use specifier_rules::condition::team;
use specifier_rules::statement::{NumberAndStat, form_team_specifiers};
use std::alloc::Global;
use subroutine_rules::event::is_coindexed_form;

#[tactic(auto, using(checked_tree::specs::StatementViews::typed_statement_forms))]
fn sync_all_form(stat: Option<Option<ResultVariable>>) -> Option<StatementForm>
    ensures { option_map statement_form result ≡ made ts.sync_all (option_map maybe_result stat) }
{
    match stat {
        Some(stat) => Some(StatementForm::SyncAll { stat }),
        None => None,
    }
}

/// SYNC ALL.
pub fn judge_sync_all(
    alloc: Global,
    scope: &Scope<'_>,
    specifiers: &Option<Vec<Specifier>>,
) -> Result<Judged<StatementForm>, NoMemory>
    ensures breaks { IfOk result (λ j. j.breaks.items ≡ (made_of ts.sync_all (rules.with_stat (rules.written_if scope.now (maybe_specifiers specifiers.now)))).breaks) }
    ensures meaning { IfOk result (λ j. option_map statement_form j.meaning ≡ (made_of ts.sync_all (rules.with_stat (rules.written_if scope.now (maybe_specifiers specifiers.now)))).meaning) }
{
    let Judged { breaks, meaning } = maybe_stat(alloc, scope, specifiers)?;
    Ok(Judged {
        breaks,
        meaning: sync_all_form(meaning),
    })
}

#[tactic(auto, using(checked_tree::specs::StatementViews::typed_statement_forms))]
fn sync_memory_form(stat: Option<Option<ResultVariable>>) -> Option<StatementForm>
    ensures { option_map statement_form result ≡ made ts.sync_memory (option_map maybe_result stat) }
{
    match stat {
        Some(stat) => Some(StatementForm::SyncMemory { stat }),
        None => None,
    }
}

/// SYNC MEMORY.
pub fn judge_sync_memory(
    alloc: Global,
    scope: &Scope<'_>,
    specifiers: &Option<Vec<Specifier>>,
) -> Result<Judged<StatementForm>, NoMemory>
    ensures breaks { IfOk result (λ j. j.breaks.items ≡ (made_of ts.sync_memory (rules.with_stat (rules.written_if scope.now (maybe_specifiers specifiers.now)))).breaks) }
    ensures meaning { IfOk result (λ j. option_map statement_form j.meaning ≡ (made_of ts.sync_memory (rules.with_stat (rules.written_if scope.now (maybe_specifiers specifiers.now)))).meaning) }
{
    let Judged { breaks, meaning } = maybe_stat(alloc, scope, specifiers)?;
    Ok(Judged {
        breaks,
        meaning: sync_memory_form(meaning),
    })
}

// Whether an expression is an integer, a scalar or an array of rank one without a selector.
fn is_image_set(value: &TypedExpr) -> bool
    ensures { result ≡ rules.is_image_set (expression value.now) }
{
    if !is_integer_type(value.of_type) {
        return false;
    }
    if value.rank == 0 {
        return true;
    }
    value.rank == 1 && !is_coindexed_form(value)
}

// The images of a set: rule 51 for a team, rule 52 for what else is none.
fn judge_images(part: Part) -> Result<Judged<TypedExpr>, NoMemory>
    ensures breaks { IfOk result (λ j. j.breaks.items ≡ (image_part (part_seen part)).breaks) }
    ensures meaning { IfOk result (λ j. option_map expression j.meaning ≡ (image_part (part_seen part)).meaning) }
{
    let at = part.at;
    let value = plain(part)?;
    let Some(found) = &value.meaning else {
        return Ok(value);
    };
    if is_image_set(found) {
        return Ok(value);
    }
    if is_team_type(found.of_type) {
        return breaking(value, rule::TEAM, at);
    }
    breaking(value, rule::IMAGE_SET, at)
}

fn set_of(images: Option<TypedExpr>) -> Option<ImageSet>
    ensures { option_map set_seen result ≡ made ts.images (option_map expression images) }
{
    match images {
        Some(images) => Some(ImageSet::Images(images)),
        None => None,
    }
}

fn judge_image_set(
    alloc: Global,
    scope: &Scope<'_>,
    images: &WrittenSet,
) -> Result<Judged<ImageSet>, NoMemory>
    ensures breaks { IfOk result (λ j. j.breaks.items ≡ (rules.image_set scope.now (set_written images.now)).breaks) }
    ensures meaning { IfOk result (λ j. option_map set_seen j.meaning ≡ (rules.image_set scope.now (set_written images.now)).meaning) }
{
    match images {
        WrittenSet::All => Ok(fine(alloc, ImageSet::All)),
        WrittenSet::Images(images) => {
            let part = judge_part(alloc, scope, images)?;
            let Judged { breaks, meaning } = judge_images(part)?;
            Ok(Judged {
                breaks,
                meaning: set_of(meaning),
            })
        }
    }
}

#[tactic(auto, using(checked_tree::specs::StatementViews::typed_statement_forms))]
fn sync_images_form(
    images: Option<ImageSet>,
    stat: Option<Option<ResultVariable>>,
) -> Option<StatementForm>
    ensures { option_map statement_form result ≡ both ts.sync_images (option_map set_seen images) (option_map maybe_result stat) }
{
    let Some(images) = images else {
        drop(stat);
        return None;
    };
    let Some(stat) = stat else {
        drop(images);
        return None;
    };
    Some(StatementForm::SyncImages { images, stat })
}

/// SYNC IMAGES.
pub fn judge_sync_images(
    alloc: Global,
    scope: &Scope<'_>,
    images: &WrittenSet,
    specifiers: &[Specifier],
) -> Result<Judged<StatementForm>, NoMemory>
    ensures breaks { IfOk result (λ j. j.breaks.items ≡ (made_of_both ts.sync_images (rules.image_set scope.now (set_written images.now)) (rules.with_stat (judged_specifiers scope.now (specifiers_written specifiers.now)))).breaks) }
    ensures meaning { IfOk result (λ j. option_map statement_form j.meaning ≡ (made_of_both ts.sync_images (rules.image_set scope.now (set_written images.now)) (rules.with_stat (judged_specifiers scope.now (specifiers_written specifiers.now)))).meaning) }
{
    let Judged {
        breaks,
        meaning: set,
    } = judge_image_set(alloc, scope, images)?;
    let Judged {
        breaks: further,
        meaning: stat,
    } = stat_of(alloc, scope, specifiers)?;
    joined(breaks, further, sync_images_form(set, stat))
}

#[tactic(auto, using(checked_tree::specs::StatementViews::typed_statement_forms))]
fn sync_team_form(
    team: Option<TypedExpr>,
    stat: Option<Option<ResultVariable>>,
) -> Option<StatementForm>
    ensures { option_map statement_form result ≡ both ts.sync_team (option_map expression team) (option_map maybe_result stat) }
{
    let Some(team) = team else {
        drop(stat);
        return None;
    };
    let Some(stat) = stat else {
        drop(team);
        return None;
    };
    Some(StatementForm::SyncTeam { team, stat })
}

fn judge_team(alloc: Global, scope: &Scope<'_>, expr: &Expr) -> Result<Judged<TypedExpr>, NoMemory>
    ensures breaks { IfOk result (λ j. j.breaks.items ≡ (parts.team (placed scope.now (written expr.now))).breaks) }
    ensures meaning { IfOk result (λ j. option_map expression j.meaning ≡ (parts.team (placed scope.now (written expr.now))).meaning) }
{
    let part = judge_part(alloc, scope, expr)?;
    team(part)
}

/// SYNC TEAM.
pub fn judge_sync_team(
    alloc: Global,
    scope: &Scope<'_>,
    value: &Expr,
    specifiers: &[Specifier],
) -> Result<Judged<StatementForm>, NoMemory>
    ensures breaks { IfOk result (λ j. j.breaks.items ≡ (made_of_both ts.sync_team (parts.team (placed scope.now (written value.now))) (rules.with_stat (judged_specifiers scope.now (specifiers_written specifiers.now)))).breaks) }
    ensures meaning { IfOk result (λ j. option_map statement_form j.meaning ≡ (made_of_both ts.sync_team (parts.team (placed scope.now (written value.now))) (rules.with_stat (judged_specifiers scope.now (specifiers_written specifiers.now)))).meaning) }
{
    let Judged {
        breaks,
        meaning: found,
    } = judge_team(alloc, scope, value)?;
    let Judged {
        breaks: further,
        meaning: stat,
    } = stat_of(alloc, scope, specifiers)?;
    joined(breaks, further, sync_team_form(found, stat))
}

fn local_of(object: Object) -> Option<Local>
    ensures { result ≡ local_in object }
{
    match object {
        Object::Local(local) => Some(local),
        Object::Coarray(_) | Object::Constant(_) => None,
    }
}

// The team variable of FORM TEAM, of this type: rule 51 for another type than TEAM_TYPE, rule 37 for an array.
fn team_local(alloc: Global, visible: Visible<'_>, at: Pos) -> Result<Judged<Local>, NoMemory>
    ensures breaks { IfOk result (λ j. j.breaks.items ≡ (rules.team_local (symbol_seen visible.entry) at).breaks) }
    ensures meaning { IfOk result (λ j. j.meaning ≡ (rules.team_local (symbol_seen visible.entry) at).meaning) }
{
    let symbol = visible.symbol;
    let Some(of_type) = symbol.of_type else {
        return Ok(unknown(alloc));
    };
    let judged = Judged {
        breaks: Vec::new(alloc),
        meaning: local_of(object_from(visible.home, symbol.object)),
    };
    let judged = ruled(judged, is_team_type(of_type), rule::TEAM, at)?;
    ruled(judged, symbol.bounds.len() == 0, rule::ARRAY_FOR_SCALAR, at)
}

// The team variable of FORM TEAM by what its name stands for.
fn team_variable(
    alloc: Global,
    denoted: Option<Denoted<'_>>,
    at: Pos,
) -> Result<Judged<Local>, NoMemory>
    ensures breaks { IfOk result (λ j. j.breaks.items ≡ (rules.team_variable (option_map meaning_of denoted.entry) at).breaks) }
    ensures meaning { IfOk result (λ j. j.meaning ≡ (rules.team_variable (option_map meaning_of denoted.entry) at).meaning) }
{
    let Some(denoted) = denoted else {
        return refused(alloc, rule::UNKNOWN_NAME, at);
    };
    match denoted {
        Denoted::Variable(visible) => team_local(alloc, visible, at),
        Denoted::Constant(_)
        | Denoted::Subroutine(_)
        | Denoted::Function(_)
        | Denoted::ModuleConstant(_)
        | Denoted::ModuleType(_)
        | Denoted::IntrinsicFunction(_)
        | Denoted::IntrinsicSubroutine(_) => refused(alloc, rule::TEAM, at),
    }
}

#[tactic(auto, using(checked_tree::specs::StatementViews::typed_statement_forms))]
fn form_team_of(number: TypedExpr, team: Local, specified: NumberAndStat) -> StatementForm
    ensures { statement_form result ≡ form_team_with (expression number) team (number_and_stat_seen specified) }
{
    let NumberAndStat {
        number: new_index,
        stat,
        order,
    } = specified;
    StatementForm::FormTeam {
        number,
        team,
        new_index,
        stat,
        order,
    }
}

fn form_team_form(
    number: Option<TypedExpr>,
    team: Option<Local>,
    specified: Option<NumberAndStat>,
) -> Option<StatementForm>
    ensures { option_map statement_form result ≡ three form_team_with (option_map expression number) team (option_map number_and_stat_seen specified) }
{
    let Some(number) = number else {
        drop(specified);
        return None;
    };
    let Some(specified) = specified else {
        drop(number);
        return None;
    };
    let Some(team) = team else {
        drop(number);
        drop(specified);
        return None;
    };
    Some(form_team_of(number, team, specified))
}

// The specifiers of FORM TEAM.
fn judge_form_specifiers(
    alloc: Global,
    scope: &Scope<'_>,
    specifiers: &[Specifier],
) -> Result<Judged<NumberAndStat>, NoMemory>
    ensures breaks { IfOk result (λ j. j.breaks.items ≡ (number_and_stat (codes "new_index") (judged_specifiers scope.now (specifiers_written specifiers.now))).breaks) }
    ensures meaning { IfOk result (λ j. option_map number_and_stat_seen j.meaning ≡ (number_and_stat (codes "new_index") (judged_specifiers scope.now (specifiers_written specifiers.now))).meaning) }
{
    let specified = judge_specifiers(alloc, scope, specifiers)?;
    form_team_specifiers(alloc, specified)
}

// The specifiers of FORM TEAM: what breaks in them stands behind what breaks in its number and in its team.
fn specified_behind(
    alloc: Global,
    scope: &Scope<'_>,
    breaks: &mut Vec<Broken>,
    of_team: Vec<Broken>,
    specifiers: &[Specifier],
) -> Result<Option<NumberAndStat>, NoMemory>
    ensures breaks { OnOk result (breaks.new.items ≡ breaks.old.items ++ (of_team.items ++ (number_and_stat (codes "new_index") (judged_specifiers scope.now (specifiers_written specifiers.now))).breaks)) }
    ensures meaning { IfOk result (λ o. option_map number_and_stat_seen o ≡ (number_and_stat (codes "new_index") (judged_specifiers scope.now (specifiers_written specifiers.now))).meaning) }
{
    add_all(breaks, of_team)?;
    let Judged {
        breaks: further,
        meaning,
    } = judge_form_specifiers(alloc, scope, specifiers)?;
    add_all(breaks, further)?;
    Ok(meaning)
}

// FORM TEAM by its parts.
fn judge_form_parts(
    alloc: Global,
    scope: &Scope<'_>,
    number: &Expr,
    name: &Name,
    specifiers: &[Specifier],
) -> Result<Judged<StatementForm>, NoMemory>
    ensures breaks { IfOk result (λ j. j.breaks.items ≡ (parts.integer 39 (placed scope.now (written number.now))).breaks ++ ((rules.team_variable (denotes scope.now name.now.text) name.now.at).breaks ++ (number_and_stat (codes "new_index") (judged_specifiers scope.now (specifiers_written specifiers.now))).breaks)) }
    ensures meaning { IfOk result (λ j. option_map statement_form j.meaning ≡ three form_team_with (parts.integer 39 (placed scope.now (written number.now))).meaning (rules.team_variable (denotes scope.now name.now.text) name.now.at).meaning (number_and_stat (codes "new_index") (judged_specifiers scope.now (specifiers_written specifiers.now))).meaning) }
{
    let Judged {
        breaks: of_team,
        meaning: team,
    } = team_variable(alloc, scope.denotes(name.text.as_slice()), name.at)?;
    let Judged {
        mut breaks,
        meaning: number,
    } = scalar_integer(alloc, scope, number)?;
    let specified = specified_behind(alloc, scope, &mut breaks, of_team, specifiers)?;
    Ok(Judged {
        breaks,
        meaning: form_team_form(number, team, specified),
    })
}

/// FORM TEAM.
pub fn judge_form_team(
    alloc: Global,
    scope: &Scope<'_>,
    number: &Expr,
    name: &Name,
    specifiers: &[Specifier],
) -> Result<Judged<StatementForm>, NoMemory>
    ensures breaks { IfOk result (λ j. j.breaks.items ≡ (rules.form_team scope.now (written number.now) name.now (judged_specifiers scope.now (specifiers_written specifiers.now))).breaks) }
    ensures meaning { IfOk result (λ j. option_map statement_form j.meaning ≡ (rules.form_team scope.now (written number.now) name.now (judged_specifiers scope.now (specifiers_written specifiers.now))).meaning) }
{
    let judged = judge_form_parts(alloc, scope, number, name, specifiers)?;
    Ok(judged)
}
