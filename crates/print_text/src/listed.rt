//! List-directed output (ISO/IEC 1539-1:2018, 13.10.4).

ghost use Rattle.std.specs.Prelude.{◌≡◌, ◌++◌, ◌∷◌, [], OnOk};
ghost use Rattle.image_acts.specs.Formats.{listed};
ghost use Rattle.print_text.specs.Items.{item_of, items_of, items_left};
ghost use Rattle.print_text.specs.Passes.{is_literal};

use crate::item::{Item, text_in};
use crate::items::Items;
use caf_base::listing::Text;
use caf_base::refusal::NoMemory;
use caf_text::{push_logical, push_number};

/// Whether an item is a literal.
fn is_text(item: Item) -> bool
    ensures { result ≡ is_literal item }
{
    matches!(item, Item::Literal(_))
}

/// Puts out an item alone.
fn push_item(out: &mut Vec<u8>, texts: &[Text], item: Item) -> Result<(), NoMemory>
    ensures { OnOk result (out.new.items ≡ out.old.items ++ listed (item_of texts.now item ∷ [])) }
{
    match item {
        Item::Integer(value) => push_number(out, value),
        Item::Logical(value) => push_logical(out, value),
        Item::Literal(number) => {
            out.extend_from_slice(text_in(texts, number))?;
            Ok(())
        }
    }
}

/// Puts out items with a blank between two of them, but none between two literals.
pub fn push_listed(out: &mut Vec<u8>, texts: &[Text], items: Items<'_>) -> Result<(), NoMemory>
    ensures { OnOk result (out.new.items ≡ out.old.items ++ listed (items_of texts.now (items_left items.entry))) }
{
    let Some((first, mut left)) = items.split_first() else {
        return Ok(());
    };
    push_item(out, texts, first)?;
    let mut was_literal = is_text(first);
    while let Some((item, rest)) = left.split_first() {
        left = rest;
        if !(was_literal && is_text(item)) {
            out.push(b' ')?;
        }
        push_item(out, texts, item)?;
        was_literal = is_text(item);
    }
    Ok(())
}
