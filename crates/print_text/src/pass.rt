//! One pass over a format with its text (ISO/IEC 1539-1:2018, 13.4).

ghost use Rattle.std.specs.Prelude.{◌≡◌, ◌<◌, ◌++◌, ◌∷◌, ℕ, List, [], replicate, IfOk, OnOk};
ghost use Rattle.image_acts.specs.Formats.{Descriptor, descriptors, pass};
ghost use Rattle.print_text.specs.Items.{items_of, items_left};
ghost use Rattle.print_text.specs.Passes.{after, behind};
ghost use Rattle.print_text.specs.Pieces.{IsOnce, characters, edit, kept};

use crate::field::{push_blanks, push_field, push_literal};
use crate::item::Outcome;
use crate::items::Items;
use crate::piece::{DataKind, Piece, next_piece};
use caf_base::listing::Text;
use caf_base::refusal::NoMemory;

/// A data edit descriptor that is there so many times, with this width.
#[derive(Clone, Copy)]
struct Fields {
    kind: DataKind,
    times: u64,
    width: u64,
}

/// Puts out the fields of the items that a data edit descriptor takes.
fn push_fields<'a>(
    out: &mut Vec<u8>,
    texts: &[Text],
    fields: Fields,
    items: Items<'a>,
) -> Result<Outcome<'a>, NoMemory>
    ensures { IfOk result (λ o. (n w : ℕ) (ds : List Descriptor) → fields.times ≡ kept n → IsOnce fields.kind n → fields.width ≡ kept w → behind out.old.items (pass (replicate n (edit fields.kind w) ++ ds) (items_of texts.now (items_left items.entry)) 0) ≡ after texts.now out.new.items o (λ xs. pass ds xs 0)) }
{
    let mut left = items;
    let mut taken = 0;
    while taken < fields.times {
        let Some((first, rest)) = left.split_first() else {
            return Ok(Outcome::Ended);
        };
        if !push_field(out, texts, fields.kind, fields.width, first)? {
            return Ok(Outcome::Wrong);
        }
        left = rest;
        taken += 1;
    }
    Ok(Outcome::Left(left))
}

/// The same behind places that were skipped, which become blanks where something is put behind them (13.8.1.1).
fn push_data<'a>(
    out: &mut Vec<u8>,
    texts: &[Text],
    skipped: u64,
    fields: Fields,
    items: Items<'a>,
) -> Result<Outcome<'a>, NoMemory>
    ensures { IfOk result (λ o. (n w s : ℕ) (ds : List Descriptor) → 0 < n → fields.times ≡ kept n → IsOnce fields.kind n → fields.width ≡ kept w → skipped ≡ kept s → behind out.old.items (pass (replicate n (edit fields.kind w) ++ ds) (items_of texts.now (items_left items.entry)) s) ≡ after texts.now out.new.items o (λ xs. pass ds xs 0)) }
{
    if items.is_empty() {
        return Ok(Outcome::Ended);
    }
    push_blanks(out, skipped)?;
    push_fields(out, texts, fields, items)
}

/// Puts out a literal of the format behind places that were skipped.
fn push_skipped_literal(
    out: &mut Vec<u8>,
    skipped: u64,
    quote: u8,
    inside: &[u8],
) -> Result<(), NoMemory>
    ensures { OnOk result ((s : ℕ) → skipped ≡ kept s → out.new.items ≡ out.old.items ++ (replicate s 32 ++ characters quote inside.now)) }
{
    push_blanks(out, skipped)?;
    push_literal(out, quote, inside)
}

/// Puts out what one pass over a format does.
pub fn push_pass<'a>(
    out: &mut Vec<u8>,
    texts: &[Text],
    format: &[u8],
    items: Items<'a>,
) -> Result<Outcome<'a>, NoMemory>
    ensures { IfOk result (λ o. behind out.old.items (pass (descriptors format.now) (items_of texts.now (items_left items.entry)) 0) ≡ after texts.now out.new.items o (λ xs. pass [] xs 0)) }
{
    let mut left = items;
    let mut skipped = 0u64;
    let mut text = format;
    while let Some((piece, rest)) = next_piece(text) {
        text = rest;
        match piece {
            Piece::Skip(places) => skipped = skipped.saturating_add(places),
            Piece::Literal { quote, inside } => {
                push_skipped_literal(out, skipped, quote, inside)?;
                skipped = 0;
            }
            Piece::Data { kind, times, width } => {
                let fields = Fields { kind, times, width };
                match push_data(out, texts, skipped, fields, left)? {
                    Outcome::Left(items) => left = items,
                    outcome => return Ok(outcome),
                }
                skipped = 0;
            }
        }
    }
    Ok(Outcome::Left(left))
}
