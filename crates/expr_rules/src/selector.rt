//! Image selectors (9.6).

ghost use Rattle.std.specs.Prelude.{◌≡◌, ◌++◌, IfOk, map};
ghost use Rattle.std.specs.Option.{option_map};
ghost use Rattle.checked_tree.specs.ExpressionViews.{expression, maybe_selector};
ghost use Rattle.rule_definitions.specs.Expressions as rules;
ghost use Rattle.rule_definitions.specs.Judgements.{both};
ghost use Rattle.part_rules.specs.Views.{expressions_of, placed};
ghost use Rattle.specifier_rules.specs.Views.{team_and_stat_seen, written};
ghost use Rattle.expr_rules.specs.Selections.{no_selection as none_written, selection, selector_with};

use caf_base::refusal::NoMemory;
use checked_tree::expr::{Selector, TypedExpr};
use part_rules::designator::Selection;
use part_rules::judged::{Judged, fine, joined, keep};
use part_rules::operand::integer;
use part_rules::part::Part;
use rule_definitions::rule;
use specifier_rules::selector::{TeamAndStat, selector_specifiers};
use specifier_rules::specifier::Specified;
use std::alloc::Global;

/// No selector.
pub fn no_selection(alloc: Global) -> Selection
    ensures { selection result ≡ none_written }
{
    Selection {
        count: None,
        judged: fine(alloc, None),
    }
}

/// The cosubscripts: rule 31 for what is no integer scalar.
#[tactic(auto, using(crate::proofs::Lists::cosubscripts_breaks, crate::proofs::Lists::cosubscripts_meaning, crate::proofs::Lists::expressions_whole))]
fn cosubscripts(alloc: Global, parts: Vec<Part>) -> Result<Judged<Vec<TypedExpr>>, NoMemory>
    ensures breaks { IfOk result (λ j. j.breaks.items ≡ (rules.cosubscripts (map placed parts.items)).breaks) }
    ensures meaning { IfOk result (λ j. option_map expressions_of j.meaning ≡ (rules.cosubscripts (map placed parts.items)).meaning) }
{
    let mut list = fine(alloc, Vec::new(alloc));
    for part in parts {
        let item = integer(rule::OPERAND, part)?;
        keep(&mut list, item)?;
    }
    Ok(list)
}

/// A selector, where its parts stand for something.
#[tactic(auto, using(checked_tree::specs::ExpressionViews::typed_forms, checked_tree::specs::ExpressionViews::typed_made))]
fn selector_of(
    cosubscripts: Option<Vec<TypedExpr>>,
    specified: Option<TeamAndStat>,
) -> Option<Option<Selector>>
    ensures { option_map maybe_selector result ≡ both selector_with (option_map expressions_of cosubscripts) (option_map team_and_stat_seen specified) }
{
    let Some(cosubscripts) = cosubscripts else {
        drop(specified);
        return None;
    };
    let Some(TeamAndStat { team, stat }) = specified else {
        drop(cosubscripts);
        return None;
    };
    Some(Some(Selector {
        cosubscripts,
        team,
        stat,
    }))
}

/// A selector of judged parts.
fn joined_selector(
    cosubscripts: Judged<Vec<TypedExpr>>,
    specified: Judged<TeamAndStat>,
) -> Result<Judged<Option<Selector>>, NoMemory>
    ensures breaks { IfOk result (λ j. j.breaks.items ≡ cosubscripts.breaks.items ++ specified.breaks.items) }
    ensures meaning { IfOk result (λ j. option_map maybe_selector j.meaning ≡ both selector_with (option_map expressions_of cosubscripts.meaning) (option_map team_and_stat_seen specified.meaning)) }
{
    let Judged {
        breaks,
        meaning: values,
    } = cosubscripts;
    let Judged {
        breaks: further,
        meaning: team_and_stat,
    } = specified;
    joined(breaks, further, selector_of(values, team_and_stat))
}

/// A selector with these cosubscripts and specifiers.
pub fn selected(
    alloc: Global,
    parts: Vec<Part>,
    specified: Vec<Specified>,
) -> Result<Selection, NoMemory>
    ensures { IfOk result (λ s. selection s ≡ rules.selector_written (map placed parts.items) (map written specified.items)) }
{
    let count = parts.len();
    let further = selector_specifiers(alloc, specified)?;
    let cosubscripts = cosubscripts(alloc, parts)?;
    let judged = joined_selector(cosubscripts, further)?;
    Ok(Selection {
        count: Some(count),
        judged,
    })
}
