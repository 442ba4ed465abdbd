//! Subscripts and section subscripts (9.5.3).

ghost use Rattle.std.specs.Prelude.{◌≡◌, ◌++◌, IfOk, map};
ghost use Rattle.std.specs.Option.{option_map};
ghost use Rattle.checked_tree.specs.Expressions as t;
ghost use Rattle.checked_tree.specs.ExpressionViews.{optional_expression, subscript as subscript_seen};
ghost use Rattle.rule_definitions.specs.Expressions as rules;
ghost use Rattle.rule_definitions.specs.Judgements.{made_of, made_of_three, three};
ghost use Rattle.rule_definitions.specs.Parts as parts;
ghost use Rattle.part_rules.specs.Brackets.{actual_seen, subscripts_in};
ghost use Rattle.part_rules.specs.Views.{judgement, placed};
ghost use Rattle.expr_rules.specs.Chains.{triplet_with};

use caf_base::place::Pos;
use caf_base::refusal::NoMemory;
use checked_tree::expr::{Subscript, TypedExpr};
use part_rules::bracket::{Actual, Item};
use part_rules::judged::{Judged, fine, keep};
use part_rules::operand::integer;
use part_rules::part::Part;
use rule_definitions::broken::Broken;
use rule_definitions::rule;
use std::alloc::Global;

/// A bound or a stride of a triplet, where one is written.
pub type Bound = Option<Box<TypedExpr>>;

/// A bound or a stride that is written: rule 31 for what is no integer scalar.
pub fn bound(alloc: Global, part: Part) -> Result<Judged<Bound>, NoMemory>
    ensures breaks { IfOk result (λ j. j.breaks.items ≡ (made_of t.given (parts.integer 31 (placed part))).breaks) }
    ensures meaning { IfOk result (λ j. option_map optional_expression j.meaning ≡ (made_of t.given (parts.integer 31 (placed part))).meaning) }
{
    let Judged { breaks, meaning } = integer(rule::OPERAND, part)?;
    let meaning = match meaning {
        Some(value) => Some(Some(Box::new(alloc, value)?)),
        None => None,
    };
    Ok(Judged { breaks, meaning })
}

/// A triplet, where its parts stand for something.
#[tactic(auto, using(checked_tree::specs::ExpressionViews::typed_forms))]
fn triplet_of(
    lower: Option<Bound>,
    upper: Option<Bound>,
    stride: Option<Bound>,
) -> Option<Subscript>
    ensures { option_map subscript_seen result ≡ three t.triplet (option_map optional_expression lower) (option_map optional_expression upper) (option_map optional_expression stride) }
{
    Some(Subscript::Triplet {
        lower: lower?,
        upper: upper?,
        stride: stride?,
    })
}

/// What breaks in three parts, one behind the other.
fn gathered(
    breaks: Vec<Broken>,
    further: Vec<Broken>,
    last: Vec<Broken>,
) -> Result<Vec<Broken>, NoMemory>
    ensures { IfOk result (λ v. v.items ≡ breaks.items ++ (further.items ++ last.items)) }
{
    let mut breaks = breaks;
    breaks.extend_from_slice(further.as_slice())?;
    breaks.extend_from_slice(last.as_slice())?;
    Ok(breaks)
}

/// A triplet of judged parts.
fn triplet(
    lower: Judged<Bound>,
    upper: Judged<Bound>,
    stride: Judged<Bound>,
) -> Result<Judged<Subscript>, NoMemory>
    ensures breaks { IfOk result (λ j. j.breaks.items ≡ (made_of_three t.triplet (judgement optional_expression lower) (judgement optional_expression upper) (judgement optional_expression stride)).breaks) }
    ensures meaning { IfOk result (λ j. option_map subscript_seen j.meaning ≡ (made_of_three t.triplet (judgement optional_expression lower) (judgement optional_expression upper) (judgement optional_expression stride)).meaning) }
{
    let Judged {
        breaks,
        meaning: low,
    } = lower;
    let Judged {
        breaks: further,
        meaning: high,
    } = upper;
    let Judged {
        breaks: last,
        meaning: step,
    } = stride;
    let meaning = triplet_of(low, high, step);
    let breaks = gathered(breaks, further, last)?;
    Ok(Judged { breaks, meaning })
}

/// The bounds of a triplet, as they are written.
#[derive(Drop)]
pub struct Ends {
    pub low: Judged<Bound>,
    pub high: Judged<Bound>,
}

/// A triplet of judged parts as an item between brackets, at its first token.
pub fn triplet_at(ends: Ends, stride: Judged<Bound>, at: Pos) -> Result<Actual, NoMemory>
    ensures { IfOk result (λ a. actual_seen a ≡ triplet_with (judgement optional_expression ends.low) (judgement optional_expression ends.high) (judgement optional_expression stride) at) }
{
    let Ends { low, high } = ends;
    let judged = triplet(low, high, stride)?;
    Ok(Actual {
        keyword: None,
        at,
        item: Item::Triplet(judged),
    })
}

/// A subscript: rule 31 for an expression that is no integer scalar.
#[tactic(auto, using(checked_tree::specs::ExpressionViews::typed_forms))]
fn element(part: Part) -> Result<Judged<Subscript>, NoMemory>
    ensures breaks { IfOk result (λ j. j.breaks.items ≡ (made_of t.element (parts.integer 31 (placed part))).breaks) }
    ensures meaning { IfOk result (λ j. option_map subscript_seen j.meaning ≡ (made_of t.element (parts.integer 31 (placed part))).meaning) }
{
    let Judged { breaks, meaning } = integer(rule::OPERAND, part)?;
    let meaning = match meaning {
        Some(value) => Some(Subscript::Element(value)),
        None => None,
    };
    Ok(Judged { breaks, meaning })
}

/// An item between the brackets behind an object.
fn subscript(actual: Actual) -> Result<Judged<Subscript>, NoMemory>
    ensures breaks { IfOk result (λ j. j.breaks.items ≡ (rules.subscript_of (actual_seen actual)).breaks) }
    ensures meaning { IfOk result (λ j. option_map subscript_seen j.meaning ≡ (rules.subscript_of (actual_seen actual)).meaning) }
{
    let Actual { keyword, item, .. } = actual;
    drop(keyword);
    match item {
        Item::Value(part) => element(part),
        Item::Triplet(judged) => Ok(judged),
    }
}

/// What stands between the brackets behind an object.
#[tactic(auto, using(crate::proofs::Lists::subscripts_breaks, crate::proofs::Lists::subscripts_meaning, crate::proofs::Lists::subscripts_whole))]
pub fn subscripts(alloc: Global, actuals: Vec<Actual>) -> Result<Judged<Vec<Subscript>>, NoMemory>
    ensures breaks { IfOk result (λ j. j.breaks.items ≡ (rules.subscripts_of (map actual_seen actuals.items)).breaks) }
    ensures meaning { IfOk result (λ j. option_map subscripts_in j.meaning ≡ (rules.subscripts_of (map actual_seen actuals.items)).meaning) }
{
    let mut list = fine(alloc, Vec::new(alloc));
    for actual in actuals {
        let item = subscript(actual)?;
        keep(&mut list, item)?;
    }
    Ok(list)
}
