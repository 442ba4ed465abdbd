//! Events (11.6.7, 11.6.8, 16.9.72): rules 49 and 50.

ghost use Rattle.std.specs.Prelude.{◌≡◌, IfOk};
ghost use Rattle.std.specs.Option.{option_map};
ghost use Rattle.checked_tree.specs.ExpressionViews.{designator as designator_seen, expression};
ghost use Rattle.rule_definitions.specs.IntrinsicSubroutines as rules;
ghost use Rattle.rule_definitions.specs.Names.{is_event};
ghost use Rattle.part_rules.specs.Views.{placed};

use caf_base::refusal::NoMemory;
use checked_tree::data::DataType;
use checked_tree::expr::{Designator, TypedExpr};
use part_rules::judged::{Judged, ruled};
use part_rules::part::{Part, plain};
use rule_definitions::rule;
use specifier_rules::variable::{as_designator, designator_in, missing};

/// Whether a type is EVENT_TYPE (16.10.2.10).
fn is_event_type(of_type: DataType) -> bool
    ensures { result ≡ is_event of_type }
{
    match of_type {
        DataType::Event => true,
        DataType::Intrinsic(_) | DataType::Team | DataType::Lock => false,
    }
}

/// Whether a designator has an image selector (9.6).
#[tactic(auto, using(checked_tree::specs::ExpressionViews::typed_forms))]
fn is_coindexed(designator: &Designator) -> bool
    ensures { result ≡ rules.is_coindexed (designator_seen designator.now) }
{
    match &designator.selector {
        Some(_) => true,
        None => false,
    }
}

/// Whether an expression is a coindexed variable or a part of one (9.6).
#[tactic(auto, using(crate::proofs::Variables::coindexed_by_designator))]
pub fn is_coindexed_form(value: &TypedExpr) -> bool
    ensures { result ≡ rules.is_coindexed_form (expression value.now) }
{
    match as_designator(&value.form) {
        Some(designator) => is_coindexed(designator),
        None => false,
    }
}

/// The scalar event that an expression is, where it is one.
#[tactic(auto, using(crate::proofs::Variables::event_by_designator))]
fn event_of(value: TypedExpr) -> Option<Designator>
    ensures { option_map designator_seen result ≡ rules.event_of (expression value) }
{
    if !is_event_type(value.of_type) || value.rank != 0 {
        drop(value);
        return None;
    }
    designator_in(value.into_form())
}

/// An event of any image (11.6.7): rule 49 for what is no scalar event.
pub fn an_event(part: Part) -> Result<Judged<Designator>, NoMemory>
    ensures breaks { IfOk result (λ j. j.breaks.items ≡ (rules.an_event (placed part)).breaks) }
    ensures meaning { IfOk result (λ j. option_map designator_seen j.meaning ≡ (rules.an_event (placed part)).meaning) }
{
    let at = part.at;
    let Judged { breaks, meaning } = plain(part)?;
    let Some(value) = meaning else {
        return Ok(Judged {
            breaks,
            meaning: None,
        });
    };
    match event_of(value) {
        Some(event) => Ok(Judged {
            breaks,
            meaning: Some(event),
        }),
        None => missing(breaks, rule::EVENT, at),
    }
}

/// An event of this image (11.6.8, 16.9.72): rule 49 for what is no scalar event, rule 50 for a coindexed one.
pub fn an_own_event(part: Part) -> Result<Judged<Designator>, NoMemory>
    ensures breaks { IfOk result (λ j. j.breaks.items ≡ (rules.an_own_event (placed part)).breaks) }
    ensures meaning { IfOk result (λ j. option_map designator_seen j.meaning ≡ (rules.an_own_event (placed part)).meaning) }
{
    let at = part.at;
    let Judged { breaks, meaning } = plain(part)?;
    let Some(value) = meaning else {
        return Ok(Judged {
            breaks,
            meaning: None,
        });
    };
    let is_own = !is_coindexed_form(&value);
    let found = match event_of(value) {
        Some(event) => Judged {
            breaks,
            meaning: Some(event),
        },
        None => missing(breaks, rule::EVENT, at)?,
    };
    ruled(found, is_own, rule::COINDEXED_EVENT, at)
}
