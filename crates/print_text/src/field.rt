//! What the pieces of a format put out.

ghost use Rattle.std.specs.Prelude.{◌≡◌, ◌++◌, ◌∷◌, ℕ, List, [], cond, false, replicate, IsTrue, IfOk, OnOk};
ghost use Rattle.caf_text.specs.Numbers.{logical_text, right_in};
ghost use Rattle.image_acts.specs.Core.{Item as CoreItem};
ghost use Rattle.image_acts.specs.Formats.{Descriptor, pass, wrong};
ghost use Rattle.print_text.specs.Items.{item_of};
ghost use Rattle.print_text.specs.Passes.{behind, is_literal};
ghost use Rattle.print_text.specs.Pieces.{IsNumeric, characters, edit, kept};

use crate::item::{Item, text_in};
use crate::piece::DataKind;
use caf_base::listing::Text;
use caf_base::refusal::NoMemory;
use caf_text::{push_i_format, push_logical};

/// A number of places below 2 ** 32; with more there is no memory for them.
fn places(number: u64) -> Result<u32, NoMemory>
    ensures { IfOk result (λ k. (n : ℕ) → number ≡ kept n → k ≡ n) }
{
    match u32::try_from(number) {
        Ok(places) => Ok(places),
        Err(_) => Err(NoMemory),
    }
}

/// Puts out so many blanks.
fn push_spaces(out: &mut Vec<u8>, number: u32) -> Result<(), NoMemory>
    ensures { OnOk result (out.new.items ≡ out.old.items ++ replicate number 32) }
{
    let number = number as usize;
    out.reserve(number)?;
    out.resize(out.len() + number, b' ').unwrap();
    Ok(())
}

/// Puts out the blanks of places that were skipped (13.8.1.1).
pub fn push_blanks(out: &mut Vec<u8>, skipped: u64) -> Result<(), NoMemory>
    ensures { OnOk result ((n : ℕ) → skipped ≡ kept n → out.new.items ≡ out.old.items ++ replicate n 32) }
{
    push_spaces(out, places(skipped)?)
}

/// Puts out the field of a truth value (13.7.3).
fn push_logical_field(out: &mut Vec<u8>, width: u32, value: bool) -> Result<(), NoMemory>
    ensures { OnOk result (out.new.items ≡ out.old.items ++ right_in width (logical_text value)) }
{
    if width == 0 {
        return Ok(());
    }
    push_spaces(out, width - 1)?;
    push_logical(out, value)
}

/// Puts out the field of an item; says whether the item is of the type that the descriptor takes.
pub fn push_field(
    out: &mut Vec<u8>,
    texts: &[Text],
    kind: DataKind,
    width: u64,
    item: Item,
) -> Result<bool, NoMemory>
    ensures values { IfOk result (λ b. IsTrue b → IsNumeric kind → is_literal item ≡ false) }
    ensures puts { IfOk result (λ b. (w : ℕ) (ds : List Descriptor) (xs : List CoreItem) → width ≡ kept w → behind out.old.items (pass (edit kind w ∷ ds) (item_of texts.now item ∷ xs) 0) ≡ cond b (behind out.new.items (pass ds xs 0)) wrong) }
{
    match (kind, item) {
        (DataKind::Integer, Item::Integer(value)) => {
            push_i_format(out, value, places(width)?)?;
            Ok(true)
        }
        (DataKind::Logical, Item::Logical(value)) => {
            push_logical_field(out, places(width)?, value)?;
            Ok(true)
        }
        (DataKind::Character, Item::Literal(number)) => {
            out.extend_from_slice(text_in(texts, number))?;
            Ok(true)
        }
        _ => Ok(false),
    }
}

/// Puts out the characters of a literal, which stands so between two of this delimiter (7.4.4).
pub fn push_literal(out: &mut Vec<u8>, quote: u8, inside: &[u8]) -> Result<(), NoMemory>
    ensures { OnOk result (out.new.items ≡ out.old.items ++ characters quote inside.now) }
{
    let mut left = inside;
    while let Some((first, rest)) = left.split_first() {
        out.push(*first)?;
        left = rest;
        if *first == quote {
            if let Some((_second, behind)) = rest.split_first() {
                left = behind;
            }
        }
    }
    Ok(())
}
