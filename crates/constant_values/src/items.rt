//! The items of an array constructor (ISO/IEC 1539-1:2018, 7.8): their values, and how many elements they have.

ghost use Rattle.std.specs.Prelude.{◌≡◌, ◌++◌, [], Some, Option, ℕ, OnOk, IfOk};
ghost use Rattle.rule_definitions.specs.Judgements.{made};
ghost use Rattle.rule_definitions.specs.Constants as rules;
ghost use Rattle.constant_values.specs.Items.{items};
ghost use Rattle.constant_values.specs.Sizes.{capped};
ghost use Rattle.constant_values.specs.Views.{constancy, known};

use crate::bounds::{counted, size};
use crate::constancy::Constancy;
use crate::known::Known;
use caf_base::listing::Listing;
use caf_base::refusal::NoMemory;
use caf_base::value::Value;
use std::alloc::Global;

/// What is known of items: their values, and how many elements they have.
#[derive(Drop)]
pub(crate) struct KnownItems {
    pub values: Option<Listing<Value>>,
    pub count: Option<u128>,
}

/// No item.
pub(crate) fn no_items(alloc: Global) -> KnownItems
    ensures values { result.values ≡ Some [] }
    ensures count { result.count ≡ Some 0 }
{
    KnownItems {
        values: Some(Listing::new(alloc)),
        count: Some(0),
    }
}

/// One item more.
pub(crate) fn add_item(list: &mut KnownItems, item: Known) -> Result<(), NoMemory>
    ensures values { OnOk result (list.new.values ≡ rules.joined_values list.old.values (rules.elements (constancy item.constancy))) }
    ensures count { OnOk result (list.new.count ≡ rules.sum_of list.old.count (rules.known_size item.bounds)) }
{
    let count = sum_of(list.count, exact(size(item.bounds.as_slice()))?)?;
    list.count = count;
    add_values(&mut list.values, &item.constancy)
}

// A size that 128 bits can hold.
#[tactic(auto, using(crate::proofs::Sizes::exact_size))]
fn exact(size: Option<u128>) -> Result<Option<u128>, NoMemory>
    ensures { (o : Option ℕ) → size ≡ made capped o → IfOk result (λ n. n ≡ o) }
{
    if size == Some(u128::MAX) {
        Err(NoMemory)
    } else {
        Ok(size)
    }
}

// A sum of sizes.
fn sum_of(left: Option<u128>, right: Option<u128>) -> Result<Option<u128>, NoMemory>
    ensures { IfOk result (λ n. n ≡ rules.sum_of left right) }
{
    match (left, right) {
        (Some(left), Some(right)) => match left.checked_add(right) {
            Some(sum) => Ok(Some(sum)),
            None => Err(NoMemory),
        },
        (_, _) => Ok(None),
    }
}

// The elements of one item more.
fn add_values(list: &mut Option<Listing<Value>>, item: &Constancy) -> Result<(), NoMemory>
    ensures { OnOk result (list.new ≡ rules.joined_values list.old (rules.elements (constancy item.now))) }
{
    match item {
        Constancy::Value(value) => match list {
            Some(values) => values.push(*value),
            None => Ok(()),
        },
        Constancy::Values { values: more, .. } => match list {
            Some(values) => append(values, more.as_slice()),
            None => Ok(()),
        },
        Constancy::NoConstant => {
            *list = None;
            Ok(())
        }
    }
}

// Values behind others.
fn append(list: &mut Listing<Value>, more: &[Value]) -> Result<(), NoMemory>
    ensures { OnOk result (list.new ≡ list.old ++ more.now) }
{
    for value in more {
        list.push(*value)?;
    }
    Ok(())
}

/// The array that a constructor is.
pub(crate) fn constructed(alloc: Global, list: KnownItems) -> Result<Known, NoMemory>
    ensures { IfOk result (λ k. known k ≡ rules.constructor_known (items list)) }
{
    let KnownItems { values, count } = list;
    let bounds = match count {
        Some(count) => counted(count)?,
        None => None,
    };
    let bounds = Listing::of_one(alloc, bounds)?;
    let constancy = match values {
        Some(values) => Constancy::Values {
            extents: Listing::of_one(alloc, values.len())?,
            values,
        },
        None => Constancy::NoConstant,
    };
    Ok(Known { constancy, bounds })
}
