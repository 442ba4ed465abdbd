//! EXIT, CYCLE and RETURN (11.1.7.4.4, 11.1.12, 15.6.2.7): rules 41 and 42; and rule 43 (11.1.6) on a statement in a
//! CRITICAL block.

ghost use Rattle.std.specs.Prelude.{◌≡◌, ◌+◌, ◌++◌, IfOk, None, cond, map, nat_eq, not};
ghost use Rattle.std.specs.Option.{option_map};
ghost use Rattle.checked_tree.specs.Statements as ts;
ghost use Rattle.checked_tree.specs.StatementViews.{statement_form};
ghost use Rattle.rule_definitions.specs.Actions as rules;
ghost use Rattle.rule_definitions.specs.Judgements.{made, unless};
ghost use Rattle.branch_rules.specs.Branches as sought;
ghost use Rattle.branch_rules.specs.Sites.{around as construct_seen, maybe_name};

use crate::site::Around;
use caf_base::place::Pos;
use caf_base::refusal::NoMemory;
use checked_tree::statement::StatementForm;
use fortran_tree::name::Name;
use part_rules::judged::{Judged, fine, refused, ruled};
use rule_definitions::rule;
use std::alloc::Global;

/// The loop that a branch means: how many loops out it is, and whether a construct that no branch may leave stands
/// between.
#[derive(Clone, Copy)]
pub struct Target {
    pub loops: u32,
    pub crosses: bool,
}

fn one_more(number: u32) -> Result<u32, NoMemory>
    ensures { IfOk result (λ n. n ≡ number + 1) }
{
    match number.checked_add(1) {
        Some(next) => Ok(next),
        None => Err(NoMemory),
    }
}

fn is_called(meant: &Name, name: Option<&Name>) -> bool
    ensures { result ≡ rules.is_called meant.now (maybe_name name.entry) }
{
    match name {
        Some(name) => name.text.as_slice() == meant.text.as_slice(),
        None => false,
    }
}

fn is_named(construct: &Option<Name>, name: Option<&Name>) -> bool
    ensures { result ≡ sought.is_named construct.now (maybe_name name.entry) }
{
    match construct {
        Some(meant) => is_called(meant, name),
        None => true,
    }
}

// Whether EXIT or CYCLE may mean this construct: a loop of the name that it gives, else any.
#[tactic(auto, using(crate::proofs::Targets::meant_by_construct))]
fn is_meant(construct: &Option<Name>, around: Around<'_>) -> bool
    ensures { result ≡ rules.is_meant construct.now (construct_seen around.entry) }
{
    match around {
        Around::Loop { name, .. } => is_named(construct, name),
        Around::Selection | Around::Critical | Around::TeamChange => false,
    }
}

// The loop of a branch that stands in one construct more.
fn from_inside(target: Target, around: Around<'_>) -> Result<Target, NoMemory>
    ensures { IfOk result (λ x. x ≡ sought.from_inside target (construct_seen around.entry)) }
{
    let Target { loops, crosses } = target;
    match around {
        Around::Loop { .. } => Ok(Target {
            loops: one_more(loops)?,
            crosses,
        }),
        Around::Selection => Ok(target),
        Around::Critical | Around::TeamChange => Ok(Target {
            loops,
            crosses: true,
        }),
    }
}

fn inwards(
    found: Option<Target>,
    construct: &Option<Name>,
    around: Around<'_>,
) -> Result<Option<Target>, NoMemory>
    ensures { IfOk result (λ o. o ≡ sought.inwards construct.now found (construct_seen around.entry)) }
{
    if is_meant(construct, around) {
        return Ok(Some(Target {
            loops: 0,
            crosses: false,
        }));
    }
    match found {
        Some(target) => Ok(Some(from_inside(target, around)?)),
        None => Ok(None),
    }
}

// The loop that EXIT or CYCLE means: the innermost one of its name, or of all.
fn find_target(construct: &Option<Name>, around: &[Around<'_>]) -> Result<Option<Target>, NoMemory>
    ensures { IfOk result (λ o. o ≡ sought.target construct.now (map construct_seen around.now)) }
{
    let mut found = None;
    for inner in around {
        found = inwards(found, construct, *inner)?;
    }
    Ok(found)
}

fn is_loop(around: Around<'_>) -> bool
    ensures { result ≡ rules.is_loop (construct_seen around.entry) }
{
    match around {
        Around::Loop { .. } => true,
        Around::Selection | Around::Critical | Around::TeamChange => false,
    }
}

#[tactic(auto, using(crate::proofs::Targets::one_more_isnt_none))]
fn is_outside_loops(around: &[Around<'_>]) -> bool
    ensures { result ≡ nat_eq (rules.loops_in (map construct_seen around.now)) 0 }
{
    for construct in around {
        if is_loop(*construct) {
            return false;
        }
    }
    true
}

// Where rule 41 is told: at the branch outside of a loop, else at the name that it gives.
fn absent_place(construct: &Option<Name>, around: &[Around<'_>], at: Pos) -> Pos
    ensures { result ≡ rules.absent_place construct.now (map construct_seen around.now) at }
{
    if is_outside_loops(around) {
        return at;
    }
    match construct {
        Some(name) => name.at,
        None => at,
    }
}

fn judge_target(
    alloc: Global,
    target: Option<Target>,
    absent: Pos,
    at: Pos,
) -> Result<Judged<u32>, NoMemory>
    ensures breaks { IfOk result (λ j. j.breaks.items ≡ (sought.target_judged target absent at).breaks) }
    ensures meaning { IfOk result (λ j. j.meaning ≡ (sought.target_judged target absent at).meaning) }
{
    match target {
        Some(target) => ruled(
            fine(alloc, target.loops),
            !target.crosses,
            rule::LEAVES_CONSTRUCT,
            at,
        ),
        None => refused(alloc, rule::CONSTRUCT_NAME, absent),
    }
}

// How many loops out the loop is that EXIT or CYCLE means: rule 41 where there is none, rule 42 for a branch out of a
// CRITICAL or CHANGE TEAM construct (11.1.5, 11.1.6).
fn judge_depth(
    alloc: Global,
    construct: &Option<Name>,
    around: &[Around<'_>],
    at: Pos,
) -> Result<Judged<u32>, NoMemory>
    ensures breaks { IfOk result (λ j. j.breaks.items ≡ (sought.depth_judged construct.now (map construct_seen around.now) at).breaks) }
    ensures meaning { IfOk result (λ j. j.meaning ≡ (sought.depth_judged construct.now (map construct_seen around.now) at).meaning) }
{
    let target = find_target(construct, around)?;
    judge_target(alloc, target, absent_place(construct, around, at), at)
}

#[tactic(auto, using(checked_tree::specs::StatementViews::statement_exit))]
fn exit_form(loops: Option<u32>) -> Option<StatementForm>
    ensures { option_map statement_form result ≡ made ts.exit loops }
{
    match loops {
        Some(loops) => Some(StatementForm::Exit { loops }),
        None => None,
    }
}

#[tactic(auto, using(checked_tree::specs::StatementViews::statement_cycle))]
fn cycle_form(loops: Option<u32>) -> Option<StatementForm>
    ensures { option_map statement_form result ≡ made ts.cycle loops }
{
    match loops {
        Some(loops) => Some(StatementForm::Cycle { loops }),
        None => None,
    }
}

fn is_boundary(around: Around<'_>) -> bool
    ensures { result ≡ rules.is_boundary (construct_seen around.entry) }
{
    match around {
        Around::Critical | Around::TeamChange => true,
        Around::Loop { .. } | Around::Selection => false,
    }
}

fn has_boundary(around: &[Around<'_>]) -> bool
    ensures { result ≡ rules.has_boundary (map construct_seen around.now) }
{
    for construct in around {
        if is_boundary(*construct) {
            return true;
        }
    }
    false
}

fn is_in_critical(around: &[Around<'_>]) -> bool
    ensures { result ≡ rules.is_in_critical (map construct_seen around.now) }
{
    for construct in around {
        match construct {
            Around::Critical => return true,
            Around::Loop { .. } | Around::Selection | Around::TeamChange => {}
        }
    }
    false
}

/// EXIT of a loop of this name, or of the innermost one, at this place. More loops around it than 32 bits count are
/// answered as want of memory.
pub fn judge_exit(
    alloc: Global,
    construct: &Option<Name>,
    around: &[Around<'_>],
    at: Pos,
) -> Result<Judged<StatementForm>, NoMemory>
    ensures breaks { IfOk result (λ j. j.breaks.items ≡ (rules.leaving ts.exit construct.now (map construct_seen around.now) at).breaks) }
    ensures meaning { IfOk result (λ j. option_map statement_form j.meaning ≡ (rules.leaving ts.exit construct.now (map construct_seen around.now) at).meaning) }
{
    let Judged { breaks, meaning } = judge_depth(alloc, construct, around, at)?;
    Ok(Judged {
        breaks,
        meaning: exit_form(meaning),
    })
}

/// CYCLE of a loop of this name, or of the innermost one, at this place. More loops around it than 32 bits count are
/// answered as want of memory.
pub fn judge_cycle(
    alloc: Global,
    construct: &Option<Name>,
    around: &[Around<'_>],
    at: Pos,
) -> Result<Judged<StatementForm>, NoMemory>
    ensures breaks { IfOk result (λ j. j.breaks.items ≡ (rules.leaving ts.cycle construct.now (map construct_seen around.now) at).breaks) }
    ensures meaning { IfOk result (λ j. option_map statement_form j.meaning ≡ (rules.leaving ts.cycle construct.now (map construct_seen around.now) at).meaning) }
{
    let Judged { breaks, meaning } = judge_depth(alloc, construct, around, at)?;
    Ok(Judged {
        breaks,
        meaning: cycle_form(meaning),
    })
}

/// RETURN at this place, but for rule 43.
#[tactic(auto, using(checked_tree::specs::StatementViews::statement_return))]
pub fn judge_return(
    alloc: Global,
    around: &[Around<'_>],
    at: Pos,
) -> Result<Judged<StatementForm>, NoMemory>
    ensures breaks { IfOk result (λ j. j.breaks.items ≡ (rules.returning (map construct_seen around.now) at).breaks) }
    ensures meaning { IfOk result (λ j. option_map statement_form j.meaning ≡ (rules.returning (map construct_seen around.now) at).meaning) }
{
    let form = fine(alloc, StatementForm::Return);
    ruled(form, !has_boundary(around), rule::LEAVES_CONSTRUCT, at)
}

/// A statement that may not stand in a CRITICAL block: rule 43 at its place.
pub fn control(
    statement: Judged<StatementForm>,
    around: &[Around<'_>],
    at: Pos,
) -> Result<Judged<StatementForm>, NoMemory>
    ensures breaks { IfOk result (λ j. j.breaks.items ≡ statement.breaks.items ++ unless (not (rules.is_in_critical (map construct_seen around.now))) 43 at) }
    ensures meaning { IfOk result (λ j. j.meaning ≡ cond (not (rules.is_in_critical (map construct_seen around.now))) statement.meaning None) }
{
    ruled(statement, !is_in_critical(around), rule::IN_CRITICAL, at)
}
