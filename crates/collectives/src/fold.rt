//! The arguments of all members, combined.

ghost use Rattle.std.specs.Prelude.{◌≡◌, ◌≤◌, Some, None, length, IfOk, IfErr, MatchResult, map};
ghost use Rattle.caf_base.specs.declared.value.Value.{Value};
ghost use Rattle.object_rules.specs.Folds.{combined_each, fold_of};
ghost use Rattle.collectives.specs.Combining.{op_of, IfCause};

use crate::pair::{Fold, combine_two};
use caf_base::refusal::Refusal;
use caf_base::value::{Kind, Overflow, Value};
use std::alloc::Global;

// Combines one more argument, which is no shorter, with those before it, element by element.
fn fold_each(
    total: &mut Vec<Value>,
    op: Fold,
    kind: Kind,
    part: &Vec<Value>,
) -> Result<(), Overflow>
    requires { length total.old.items ≤ length part.now.items }
    ensures { MatchResult result (λ _. combined_each (op_of op) kind total.old.items part.now.items ≡ Some total.new.items)
        (λ _. combined_each (op_of op) kind total.old.items part.now.items ≡ None) }
{
    for k in 0..total.len() {
        match combine_two(op, kind, total[k], part[k]) {
            Some(value) => total[k] = value,
            None => return Err(Overflow),
        }
    }
    Ok(())
}

// Combines one more argument with those before it, as far as both go.
fn fold_in(total: &mut Vec<Value>, op: Fold, kind: Kind, part: &Vec<Value>) -> Result<(), Overflow>
    ensures { MatchResult result (λ _. combined_each (op_of op) kind total.old.items part.now.items ≡ Some total.new.items)
        (λ _. combined_each (op_of op) kind total.old.items part.now.items ≡ None) }
{
    total.truncate(part.len());
    fold_each(total, op, kind, part)
}

/// The arguments of a collective subroutine, one list for each member in member order, combined element by element, as
/// far as all of them go.
/// Overflow exactly where a partial sum in member order leaves the kind.
pub fn combine(
    alloc: Global,
    op: Fold,
    kind: Kind,
    parts: &[Vec<Value>],
) -> Result<Vec<Value>, Refusal<Overflow>>
    ensures combined { IfOk result (λ values. fold_of (op_of op) kind (map (λ v. v.items) parts.now) ≡ Some values.items) }
    ensures overflow { IfErr result (λ refusal. IfCause refusal (fold_of (op_of op) kind (map (λ v. v.items) parts.now) ≡ None)) }
{
    if parts.is_empty() {
        return Ok(Vec::new(alloc));
    }
    let mut total = Vec::from_slice(alloc, parts[0].as_slice())?;
    for k in 1..parts.len() {
        if let Err(overflow) = fold_in(&mut total, op, kind, &parts[k]) {
            return Err(Refusal::Cause(overflow));
        }
    }
    Ok(total)
}
