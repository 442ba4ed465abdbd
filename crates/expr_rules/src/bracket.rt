//! What breaks between brackets where no subscript stands.

ghost use Rattle.std.specs.Prelude.{◌≡◌, IfOk, None, map};
ghost use Rattle.rule_definitions.specs.Arguments as arguments;
ghost use Rattle.rule_definitions.specs.Judgements.{is_nothing};
ghost use Rattle.part_rules.specs.Brackets.{actual_seen};
ghost use Rattle.expr_rules.specs.Brackets.{refused_breaks};

use caf_base::place::Pos;
use caf_base::refusal::NoMemory;
use checked_tree::expr::TypedExpr;
use part_rules::bracket::{Actual, Item};
use part_rules::judged::{Judged, add_all, are_none, note_unless};
use part_rules::part::{is_plain, plain};
use rule_definitions::broken::Broken;
use std::alloc::Global;

/// What breaks in the expression of an item; the parts of a triplet aren't judged where no subscript stands.
fn breaks_in(alloc: Global, actual: Actual) -> Result<Vec<Broken>, NoMemory>
    ensures { IfOk result (λ v. v.items ≡ arguments.breaks_in (actual_seen actual)) }
{
    let Actual { keyword, item, .. } = actual;
    drop(keyword);
    match item {
        Item::Value(part) => {
            let Judged { breaks, meaning } = plain(part)?;
            drop(meaning);
            Ok(breaks)
        }
        Item::Triplet(judged) => {
            drop(judged);
            Ok(Vec::new(alloc))
        }
    }
}

/// What breaks in the expressions of these items.
pub fn breaks_in_all(alloc: Global, actuals: Vec<Actual>) -> Result<Vec<Broken>, NoMemory>
    ensures { IfOk result (λ v. v.items ≡ arguments.breaks_in_all (map actual_seen actuals.items)) }
{
    let mut breaks = Vec::new(alloc);
    for actual in actuals {
        let further = breaks_in(alloc, actual)?;
        add_all(&mut breaks, further)?;
    }
    Ok(breaks)
}

/// Whether nothing breaks in the expression of an item.
fn is_plain_item(actual: &Actual) -> bool
    ensures { result ≡ is_nothing (arguments.breaks_in (actual_seen actual.now)) }
{
    match &actual.item {
        Item::Value(part) => is_plain(part),
        Item::Triplet(_) => true,
    }
}

/// Whether nothing breaks in the expressions of these items.
#[tactic(auto, using(part_rules::proofs::Nothing::nothing_in_both))]
pub fn are_plain(actuals: &[Actual]) -> bool
    ensures { result ≡ is_nothing (arguments.breaks_in_all (map actual_seen actuals.now)) }
{
    for actual in actuals {
        if !is_plain_item(actual) {
            return false;
        }
    }
    true
}

/// A form that breaks this rule, around brackets in which nothing else breaks.
pub fn refused_around(
    alloc: Global,
    actuals: Vec<Actual>,
    rule: u8,
    at: Pos,
) -> Result<Judged<TypedExpr>, NoMemory>
    ensures breaks { IfOk result (λ j. j.breaks.items ≡ refused_breaks (arguments.breaks_in_all (map actual_seen actuals.items)) rule at) }
    ensures meaning { IfOk result (λ j. j.meaning ≡ None) }
{
    let mut breaks = breaks_in_all(alloc, actuals)?;
    let holds = !are_none(breaks.as_slice());
    note_unless(&mut breaks, holds, rule, at)?;
    Ok(Judged {
        breaks,
        meaning: None,
    })
}
