//! The pieces of a line.

ghost use Rattle.std.specs.Prelude.{◌≡◌, ◌++◌, OnOk, codes, flat_map, pos};
ghost use Rattle.caf_text.specs.Numbers.{decimal_text};
ghost use Rattle.trace_text.specs.TraceText.{joined, behind, further, spaced_name, number_text, value_text, values_text, image_text, name_text, dimension_text, span_text, bounds_text, spaced};

use caf_base::listing::Text;
use caf_base::place::ImageNo;
use caf_base::refusal::NoMemory;
use caf_base::span::Span;
use caf_base::value::Value;
use caf_text::{push_logical, push_number};
use itoa::Buffer;

/// Appends a text.
pub fn push_text(out: &mut Vec<u8>, text: &str) -> Result<(), NoMemory>
    ensures { OnOk result (out.new.items ≡ out.old.items ++ text.now) }
{
    out.extend_from_slice(text.as_bytes())?;
    Ok(())
}

/// Appends a number that isn't negative, in decimal.
pub fn push_count(out: &mut Vec<u8>, count: u64) -> Result<(), NoMemory>
    ensures { OnOk result (out.new.items ≡ out.old.items ++ decimal_text (pos count)) }
{
    let mut buffer = Buffer::new();
    push_text(out, buffer.format(count))
}

/// Appends a blank and a number that isn't negative.
pub fn push_spaced(out: &mut Vec<u8>, count: u64) -> Result<(), NoMemory>
    ensures { OnOk result (out.new.items ≡ out.old.items ++ spaced (number_text count)) }
{
    push_text(out, " ")?;
    push_count(out, count)
}

/// Appends a blank and a text.
pub(crate) fn push_word(out: &mut Vec<u8>, word: &str) -> Result<(), NoMemory>
    ensures { OnOk result (out.new.items ≡ out.old.items ++ spaced word.now) }
{
    push_text(out, " ")?;
    push_text(out, word)
}

/// Appends a value: a number, or `T` or `F`.
pub(crate) fn push_value(out: &mut Vec<u8>, value: Value) -> Result<(), NoMemory>
    ensures { OnOk result (out.new.items ≡ out.old.items ++ value_text value) }
{
    match value {
        Value::Int(number) => push_number(out, number),
        Value::Bool(truth) => push_logical(out, truth),
    }
}

fn push_further_value(out: &mut Vec<u8>, value: Value) -> Result<(), NoMemory>
    ensures { OnOk result (out.new.items ≡ out.old.items ++ further value_text value) }
{
    push_text(out, ",")?;
    push_value(out, value)
}

fn push_further_values(out: &mut Vec<u8>, values: &[Value]) -> Result<(), NoMemory>
    ensures { OnOk result (out.new.items ≡ out.old.items ++ flat_map (further value_text) values.now) }
{
    for value in values {
        push_further_value(out, *value)?;
    }
    Ok(())
}

/// Appends values with commas between them.
pub fn push_values(out: &mut Vec<u8>, values: &[Value]) -> Result<(), NoMemory>
    ensures { OnOk result (out.new.items ≡ out.old.items ++ values_text values.now) }
{
    match values.split_first() {
        None => Ok(()),
        Some((first, further)) => {
            push_value(out, *first)?;
            push_further_values(out, further)
        }
    }
}

fn push_further_image(out: &mut Vec<u8>, between: &str, image: ImageNo) -> Result<(), NoMemory>
    ensures { OnOk result (out.new.items ≡ out.old.items ++ behind between.now image_text image) }
{
    push_text(out, between)?;
    push_count(out, u64::from(image.0))
}

fn push_further_images(out: &mut Vec<u8>, between: &str, images: &[ImageNo]) -> Result<(), NoMemory>
    ensures { OnOk result (out.new.items ≡ out.old.items ++ flat_map (behind between.now image_text) images.now) }
{
    for image in images {
        push_further_image(out, between, *image)?;
    }
    Ok(())
}

/// Appends image numbers with a text between them.
pub(crate) fn push_images(
    out: &mut Vec<u8>,
    between: &str,
    images: &[ImageNo],
) -> Result<(), NoMemory>
    ensures { OnOk result (out.new.items ≡ out.old.items ++ joined between.now image_text images.now) }
{
    match images.split_first() {
        None => Ok(()),
        Some((first, further)) => {
            push_count(out, u64::from(first.0))?;
            push_further_images(out, between, further)
        }
    }
}

/// Appends the name of the coarray of a number, nothing where it isn't one of them.
pub fn push_name(out: &mut Vec<u8>, names: &[Text], coarray: u32) -> Result<(), NoMemory>
    ensures { OnOk result (out.new.items ≡ out.old.items ++ name_text names.now coarray) }
{
    match names.get(coarray as usize) {
        Some(name) => {
            out.extend_from_slice(name.as_slice())?;
            Ok(())
        }
        None => Ok(()),
    }
}

fn push_dimension(out: &mut Vec<u8>, dimension: (u32, i32)) -> Result<(), NoMemory>
    ensures { OnOk result (out.new.items ≡ out.old.items ++ dimension_text dimension) }
{
    push_text(out, ":")?;
    push_count(out, u64::from(dimension.0))?;
    push_text(out, "*")?;
    push_number(out, i64::from(dimension.1))
}

fn push_dimensions(out: &mut Vec<u8>, dims: &[(u32, i32)]) -> Result<(), NoMemory>
    ensures { OnOk result (out.new.items ≡ out.old.items ++ flat_map dimension_text dims.now) }
{
    for dimension in dims {
        push_dimension(out, *dimension)?;
    }
    Ok(())
}

/// Appends a blank and the cells of a span: the coarray's name, the first offset, and each dimension.
pub(crate) fn push_span(out: &mut Vec<u8>, names: &[Text], span: &Span) -> Result<(), NoMemory>
    ensures { OnOk result (out.new.items ≡ out.old.items ++ spaced (span_text names.now span.now)) }
{
    push_text(out, " ")?;
    push_name(out, names, span.coarray)?;
    push_text(out, ":")?;
    push_count(out, u64::from(span.start))?;
    push_dimensions(out, span.dims.as_slice())
}

/// Appends a coarray's name behind a blank.
pub(crate) fn push_coarray(out: &mut Vec<u8>, names: &[Text], coarray: u32) -> Result<(), NoMemory>
    ensures { OnOk result (out.new.items ≡ out.old.items ++ spaced_name names.now coarray) }
{
    push_text(out, " ")?;
    push_name(out, names, coarray)
}

/// Appends the bounds of a dimension.
pub(crate) fn push_bounds(out: &mut Vec<u8>, bounds: (i64, i64)) -> Result<(), NoMemory>
    ensures { OnOk result (out.new.items ≡ out.old.items ++ bounds_text bounds) }
{
    push_number(out, bounds.0)?;
    push_text(out, ":")?;
    push_number(out, bounds.1)
}
