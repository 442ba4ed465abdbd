//! Expressions that are variables or parts of them (9.1).

ghost use Rattle.std.specs.Prelude.{◌≡◌, ◌++◌, IfOk, None};
ghost use Rattle.std.specs.Option.{option_map};
ghost use Rattle.checked_tree.specs.ExpressionViews.{designator, form as form_seen};
ghost use Rattle.rule_definitions.specs.Judgements.{breaks as rule_breaks};
ghost use Rattle.specifier_rules.specs.Variables as spec;

use caf_base::place::Pos;
use caf_base::refusal::NoMemory;
use checked_tree::expr::{Designator, ExprForm};
use part_rules::judged::Judged;
use rule_definitions::broken::Broken;

/// The designator that an expression of this form is, where it is one.
#[tactic(auto, using(checked_tree::specs::ExpressionViews::typed_forms))]
pub fn designator_in(form: ExprForm) -> Option<Designator>
    ensures { option_map designator result ≡ spec.designator_in (form_seen form) }
{
    match form {
        ExprForm::Designator(designator) => Some(designator),
        other => {
            drop(other);
            None
        }
    }
}

/// The designator that an expression of this form is, where it is one.
#[tactic(auto, using(crate::proofs::Forms::form_laws))]
pub fn as_designator(form: &ExprForm) -> Option<&Designator>
    ensures { option_map spec.designator_at result ≡ spec.designator_in (form_seen form.now) }
{
    match form {
        ExprForm::Designator(designator) => Some(designator),
        ExprForm::Number(_)
        | ExprForm::Logical(_)
        | ExprForm::Call { .. }
        | ExprForm::Intrinsic(_)
        | ExprForm::Parenthesized(_)
        | ExprForm::ArrayConstructor(_)
        | ExprForm::Plus(_)
        | ExprForm::Minus(_)
        | ExprForm::Not(_)
        | ExprForm::Arithmetic { .. }
        | ExprForm::Relation { .. }
        | ExprForm::Logic { .. } => None,
    }
}

/// A part that isn't what is wanted: this rule behind those that are broken in it.
pub fn missing<T: Drop>(breaks: Vec<Broken>, rule: u8, at: Pos) -> Result<Judged<T>, NoMemory>
    ensures breaks { IfOk result (λ j. j.breaks.items ≡ breaks.items ++ rule_breaks rule at) }
    ensures meaning { IfOk result (λ j. j.meaning ≡ None) }
{
    let mut all = breaks;
    all.push(Broken { rule, at })?;
    Ok(Judged {
        breaks: all,
        meaning: None,
    })
}
