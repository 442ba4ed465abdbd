//! Lists of values, images, indices and bounds with a byte between their items.

ghost use Rattle.std.specs.Prelude.{◌≡◌, ◌≢◌, ◌++◌, ◌∷◌, [], ℕ, ℤ, pos, List, IfOk, OnOk, codes, flat_map};
ghost use Rattle.caf_base.specs.declared.place.ImageNo.{ImageNo};
ghost use Rattle.caf_base.specs.declared.value.Value.{Value};
ghost use Rattle.caf_text.specs.Numbers.{decimal_text};
ghost use Rattle.trace_theory.specs.Entries.{Each};
ghost use Rattle.trace_text.specs.TraceText.{joined, number_text, value_text, values_text, image_text, bounds_text};
ghost use Rattle.trace_text.specs.TraceText.{cobound_text, indices_text};
ghost use Rattle.trace_forms.specs.Ranges.{IsHalf, IsSigned, IsValueInRange, IsImageNumber, AreBounds};
ghost use Rattle.trace_fields.specs.Cutting.{IsBetweenImages};

use crate::fields::{cut_at, next_field};
use crate::numbers::{half_of, signed_of};
use caf_base::few::Few;
use caf_base::listing::Listing;
use caf_base::place::ImageNo;
use caf_base::refusal::NoMemory;
use caf_base::value::Value;
use std::alloc::Global;

/// The value that a field writes.
pub fn value_of(field: &[u8]) -> Value
    ensures { (value : Value) → IsValueInRange value → field.now ≡ value_text value → result ≡ value }
{
    if field == b"T".as_slice() {
        Value::Bool(true)
    } else if field == b"F".as_slice() {
        Value::Bool(false)
    } else {
        Value::Int(signed_of(field))
    }
}

/// The value in the next field.
pub fn next_value(rest: &mut &[u8]) -> Value
    ensures { (value : Value) (behind : List ℕ) → IsValueInRange value → rest.old.now ≡ value_text value
        ++ (32 ∷ behind) → (result ≡ value) × (rest.new.now ≡ behind) }
{
    value_of(next_field(rest))
}

// The values of a field that has more than one.
fn several_values(alloc: Global, field: &[u8]) -> Result<Vec<Value>, NoMemory>
    ensures { IfOk result (λ r. (values : List Value) → Each IsValueInRange values → field.now
        ≡ values_text values → r.items ≡ values) }
{
    let mut values = Vec::new(alloc);
    let mut rest = field;
    while !rest.is_empty() {
        let (item, behind) = cut_at(rest, b',');
        values.push(value_of(item))?;
        rest = behind;
    }
    Ok(values)
}

/// The values that a field writes.
pub fn values_of(alloc: Global, field: &[u8]) -> Result<Few<Value>, NoMemory>
    ensures { IfOk result (λ r. (values : List Value) → Each IsValueInRange values → field.now
        ≡ values_text values → r ≡ values) }
{
    let values = several_values(alloc, field)?;
    match values.as_slice() {
        [value] => Ok(Few::of_one(*value)),
        _ => Ok(Few::from_vec(values)),
    }
}

/// The values in the next field.
pub fn next_values(alloc: Global, rest: &mut &[u8]) -> Result<Few<Value>, NoMemory>
    ensures { IfOk result (λ r. (values : List Value) (behind : List ℕ) → Each IsValueInRange values
        → rest.old.now ≡ values_text values ++ (32 ∷ behind) → (r ≡ values) × (rest.new.now ≡ behind)) }
{
    values_of(alloc, next_field(rest))
}

/// The image numbers of a field with a byte between them.
pub fn images_of(alloc: Global, field: &[u8], between: u8) -> Result<Listing<ImageNo>, NoMemory>
    requires { IsBetweenImages between }
    ensures { IfOk result (λ r. (images : List ImageNo) → Each IsImageNumber images → field.now
        ≡ joined (between ∷ []) image_text images → r ≡ images) }
{
    let mut images = Vec::new(alloc);
    let mut rest = field;
    while !rest.is_empty() {
        let (item, behind) = cut_at(rest, between);
        images.push(ImageNo(half_of(item)))?;
        rest = behind;
    }
    Ok(Listing::from_vec(images))
}

// The numbers of a field.
fn numbers_of(alloc: Global, field: &[u8]) -> Result<Vec<u32>, NoMemory>
    ensures { IfOk result (λ r. (numbers : List ℕ) → Each IsHalf numbers → field.now
        ≡ joined (codes ",") number_text numbers → r.items ≡ numbers) }
{
    let mut numbers = Vec::new(alloc);
    let mut rest = field;
    while !rest.is_empty() {
        let (item, behind) = cut_at(rest, b',');
        numbers.push(half_of(item))?;
        rest = behind;
    }
    Ok(numbers)
}

/// The image indices of a text, which is `-` where there are none.
pub fn indices_of(alloc: Global, text: &[u8]) -> Result<Listing<u32>, NoMemory>
    ensures { IfOk result (λ r. (indices : List ℕ) → Each IsHalf indices → text.now ≡ indices_text indices → r
        ≡ indices) }
{
    if text == b"-".as_slice() {
        return Ok(Listing::new(alloc));
    }
    Ok(Listing::from_vec(numbers_of(alloc, text)?))
}

// The bounds that an item writes.
fn bounds_of(item: &[u8]) -> (i64, i64)
    ensures { (bounds : ℤ × ℤ) → AreBounds bounds → item.now ≡ bounds_text bounds → result ≡ bounds }
{
    let (lower, upper) = cut_at(item, b':');
    (signed_of(lower), signed_of(upper))
}

/// The bounds of a field with a comma between them.
pub(crate) fn bounds_in(alloc: Global, field: &[u8]) -> Result<Vec<(i64, i64)>, NoMemory>
    ensures { IfOk result (λ r. (dims : List (ℤ × ℤ)) → Each AreBounds dims → field.now
        ≡ joined (codes ",") bounds_text dims → r.items ≡ dims) }
{
    let mut dims = Vec::new(alloc);
    let mut rest = field;
    while !rest.is_empty() {
        let (item, behind) = cut_at(rest, b',');
        dims.push(bounds_of(item))?;
        rest = behind;
    }
    Ok(dims)
}

/// Puts the cobounds of a field but the last into a list; the result is the last lower one.
pub(crate) fn cobounds_in(codims: &mut Vec<(i64, i64)>, field: &[u8]) -> Result<i64, NoMemory>
    ensures { IfOk result (λ r. (cobounds : List (ℤ × ℤ)) (last : ℤ) → Each AreBounds cobounds → IsSigned last
        → field.now ≡ flat_map cobound_text cobounds ++ (decimal_text last ++ codes ":*]") → (codims.new.items
        ≡ codims.old.items ++ cobounds) × (r ≡ last)) }
{
    let (mut item, mut behind) = cut_at(field, b',');
    while !behind.is_empty() {
        codims.push(bounds_of(item))?;
        let (next, further) = cut_at(behind, b',');
        item = next;
        behind = further;
    }
    let (last, _) = cut_at(item, b':');
    Ok(signed_of(last))
}
