//! Whether a PRINT is a fault (ISO/IEC 1539-1:2018, 13.4): a pass over its format, without the text.

ghost use Rattle.std.specs.Prelude.{◌≡◌, ◌<◌, ℕ, List, [], ◌∷◌, ◌++◌, cond, false, replicate, IsTrue, IsFalse};
ghost use Rattle.walk_theory.specs.Terms.{at_fault};
ghost use Rattle.image_acts.specs.Core.{Item as CoreItem};
ghost use Rattle.image_acts.specs.Faults.{format_fault};
ghost use Rattle.image_acts.specs.Formats.{Descriptor, descriptors, formatted, pass, wrong};
ghost use Rattle.image_acts.specs.Operate.Printing.{text_of};
ghost use Rattle.print_text.specs.Items.{IsFound, item_of, items_of, items_left, printing_of};
ghost use Rattle.print_text.specs.Passes.{after, bare, is_found, is_literal};
ghost use Rattle.print_text.specs.Pieces.{IsNumeric, IsOnce, edit, kept};

use crate::item::{Item, Outcome, Portion, text_in};
use crate::items::Items;
use crate::piece::{DataKind, Piece, next_piece};
use caf_base::listing::Text;

/// Whether an item is of the type that a data edit descriptor takes.
fn is_of(kind: DataKind, item: Item) -> bool
    ensures values { IsTrue result → IsNumeric kind → is_literal item ≡ false }
    ensures takes { (texts : List (List ℕ)) (w s : ℕ) (ds : List Descriptor) (xs : List CoreItem) → bare (pass (edit kind w ∷ ds) (item_of texts item ∷ xs) s) ≡ cond result (bare (pass ds xs 0)) wrong }
{
    match (kind, item) {
        (DataKind::Integer, Item::Integer(_))
        | (DataKind::Logical, Item::Logical(_))
        | (DataKind::Character, Item::Literal(_)) => true,
        _ => false,
    }
}

/// What comes of a data edit descriptor that is there so many times.
fn behind_data(kind: DataKind, times: u64, items: Items<'_>) -> Outcome<'_>
    ensures { (texts : List (List ℕ)) (n w s : ℕ) (ds : List Descriptor) → times ≡ kept n → IsOnce kind n → bare (pass (replicate n (edit kind w) ++ ds) (items_of texts (items_left items.entry)) s) ≡ bare (after texts [] result (λ xs. pass ds xs 0)) }
{
    let mut left = items;
    let mut taken = 0;
    while taken < times {
        let Some((first, rest)) = left.split_first() else {
            return Outcome::Ended;
        };
        if !is_of(kind, first) {
            return Outcome::Wrong;
        }
        left = rest;
        taken += 1;
    }
    Outcome::Left(left)
}

/// What one pass over a format comes to.
fn behind_pass<'a>(format: &[u8], items: Items<'a>) -> Outcome<'a>
    ensures { (texts : List (List ℕ)) → bare (pass (descriptors format.now) (items_of texts (items_left items.entry)) 0) ≡ bare (after texts [] result (λ xs. pass [] xs 0)) }
{
    let mut left = items;
    let mut text = format;
    while let Some((piece, rest)) = next_piece(text) {
        text = rest;
        if let Piece::Data { kind, times, .. } = piece {
            match behind_data(kind, times, left) {
                Outcome::Left(items) => left = items,
                outcome => return outcome,
            }
        }
    }
    Outcome::Left(left)
}

/// Whether the passes over a format come to no fault.
fn is_right(format: &[u8], items: Items<'_>) -> bool
    ensures { (texts : List (List ℕ)) → is_found (formatted format.now (items_of texts (items_left items.entry))) ≡ result }
{
    let mut left = items;
    let mut passes = Some(items);
    while let Some(more) = passes {
        passes = more.further();
        match behind_pass(format, left) {
            Outcome::Wrong => return false,
            Outcome::Ended => return true,
            Outcome::Left(items) => left = items,
        }
        if left.is_empty() {
            return true;
        }
    }
    true
}

/// Whether a PRINT of these portions is a fault: with a format, where an item is of another type than its descriptor
/// takes (13.4). It takes no memory.
pub fn fault_of(texts: &[Text], format: Option<u32>, portions: &[Portion]) -> bool
    ensures faults { IsTrue result → text_of (printing_of texts.now format portions.now) ≡ at_fault format_fault }
    ensures prints { IsFalse result → IsFound (text_of (printing_of texts.now format portions.now)) }
{
    match format {
        None => false,
        Some(number) => !is_right(text_in(texts, number as usize), Items::new(portions)),
    }
}
