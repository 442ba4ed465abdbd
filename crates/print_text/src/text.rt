//! The text of a PRINT.

ghost use Rattle.std.specs.Prelude.{◌≡◌, cond, IfOk, Some, None};
ghost use Rattle.walk_theory.specs.Terms.{found, at_fault};
ghost use Rattle.image_acts.specs.Faults.{format_fault};
ghost use Rattle.image_acts.specs.Formats.{formatted};
ghost use Rattle.image_acts.specs.Operate.Printing.{text_of};
ghost use Rattle.print_text.specs.Items.{IsFound, items_of, items_left, printing_of};
ghost use Rattle.print_text.specs.Passes.{upon};

use crate::item::{Outcome, Portion, text_in};
use crate::items::Items;
use crate::listed::push_listed;
use crate::pass::push_pass;
use caf_base::listing::Text;
use caf_base::refusal::NoMemory;
use std::alloc::Global;

/// Puts out items by a format, with a new line before each pass but the first; says whether there was no fault.
fn push_formatted(
    out: &mut Vec<u8>,
    texts: &[Text],
    format: &[u8],
    items: Items<'_>,
) -> Result<bool, NoMemory>
    ensures { IfOk result (λ b. upon out.old.items (formatted format.now (items_of texts.now (items_left items.entry))) ≡ cond b (found out.new.items) (at_fault format_fault)) }
{
    let mut left = items;
    let mut passes = Some(items);
    while let Some(more) = passes {
        passes = more.further();
        match push_pass(out, texts, format, left)? {
            Outcome::Wrong => return Ok(false),
            Outcome::Ended => return Ok(true),
            Outcome::Left(items) => left = items,
        }
        if left.is_empty() {
            return Ok(true);
        }
        out.push(b'\n')?;
    }
    Ok(true)
}

/// The text of a list-directed PRINT of these portions.
fn listed_text(alloc: Global, texts: &[Text], portions: &[Portion]) -> Result<Text, NoMemory>
    ensures { IfOk result (λ t. text_of (printing_of texts.now None portions.now) ≡ found t) }
{
    let mut out = Vec::new(alloc);
    push_listed(&mut out, texts, Items::new(portions))?;
    Ok(Text::from_vec(out))
}

/// The text of a PRINT of these portions by the format with this number.
#[tactic(auto, using(crate::proofs::Judging::formatted_found))]
fn formatted_text(
    alloc: Global,
    texts: &[Text],
    number: u32,
    portions: &[Portion],
) -> Result<Text, NoMemory>
    requires { IsFound (text_of (printing_of texts.now (Some number) portions.now)) }
    ensures { IfOk result (λ t. text_of (printing_of texts.now (Some number) portions.now) ≡ found t) }
{
    let mut out = Vec::new(alloc);
    let format = text_in(texts, number as usize);
    let _right = push_formatted(&mut out, texts, format, Items::new(portions))?;
    Ok(Text::from_vec(out))
}

/// The text of a PRINT of these portions, which is no fault: by the format with this number in the table of texts, or
/// list-directed (13.4, 13.10.4). Lines are parted by the byte 10. A field of 2 ** 32 places and more is want of
/// memory.
pub fn text_of(
    alloc: Global,
    texts: &[Text],
    format: Option<u32>,
    portions: &[Portion],
) -> Result<Text, NoMemory>
    requires { IsFound (text_of (printing_of texts.now format portions.now)) }
    ensures { IfOk result (λ t. text_of (printing_of texts.now format portions.now) ≡ found t) }
{
    match format {
        None => listed_text(alloc, texts, portions),
        Some(number) => formatted_text(alloc, texts, number, portions),
    }
}
