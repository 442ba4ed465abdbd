//! The pieces of lines, and the lines that images printed.

ghost use Rattle.std.specs.Prelude.{◌≡◌, ◌++◌, ◌∷◌, [], IfOk, List, OnOk, pos, codes, flat_map, length};
ghost use Rattle.caf_text.specs.Numbers.{decimal_text};
ghost use Rattle.caf_events.specs.declared.event.Entry.{Entry};
ghost use Rattle.caf_report.specs.ReportText.{place_text, printed_text, printed_at, printed_from};
ghost use Rattle.caf_report.specs.Texts.{bytes_of, HavePrinted};

use caf_base::place::ImageNo;
use caf_base::refusal::NoMemory;
use caf_events::event::{Entry, Trace};
use caf_text::push_number;
use std::alloc::Global;
use trace_text::piece::push_text;

/// Appends `image I line L`.
pub fn push_place(out: &mut Vec<u8>, image: ImageNo, line: u32) -> Result<(), NoMemory>
    ensures { OnOk result (out.new.items ≡ out.old.items ++ place_text image.0 line) }
{
    push_text(out, "image ")?;
    push_number(out, i64::from(image.0))?;
    push_text(out, " line ")?;
    push_number(out, i64::from(line))
}

/// Appends what begins a printed line: `I: `.
fn push_mark(out: &mut Vec<u8>, image: u32) -> Result<(), NoMemory>
    ensures { OnOk result (out.new.items ≡ out.old.items ++ (decimal_text (pos image) ++ codes ": ")) }
{
    push_number(out, i64::from(image))?;
    push_text(out, ": ")
}

/// Appends a printed text, line by line.
fn push_printed(out: &mut Vec<u8>, image: u32, text: &[u8]) -> Result<(), NoMemory>
    ensures { OnOk result (out.new.items ≡ out.old.items ++ printed_text image text.now) }
{
    push_mark(out, image)?;
    for byte in text {
        out.push(*byte)?;
        if *byte == b'\n' {
            push_mark(out, image)?;
        }
    }
    out.push(b'\n')?;
    Ok(())
}

/// Appends what an entry prints, where it is of this image.
#[tactic(auto, using(crate::proofs::Printed::silent))]
fn push_entry(out: &mut Vec<u8>, image: u32, entry: &Entry) -> Result<(), NoMemory>
    ensures { OnOk result (out.new.items ≡ out.old.items ++ printed_at image entry.now) }
{
    match entry.event.told().printed() {
        Some(text) if entry.image.0 == image => push_printed(out, image, text),
        _ => Ok(()),
    }
}

/// A text for each of so many images, in which nothing stands.
fn blank_texts(alloc: Global, images: u32) -> Result<Vec<Vec<u8>>, NoMemory>
    ensures count { IfOk result (λ texts. length texts.items ≡ images) }
    ensures blank { IfOk result (λ texts. HavePrinted 1 [] texts.items) }
{
    let mut texts = Vec::new(alloc);
    for _image in 0..images {
        texts.push(Vec::new(alloc))?;
    }
    Ok(texts)
}

/// Appends what an entry prints to the text of its image, where that has one.
fn push_to(texts: &mut Vec<Vec<u8>>, entry: &Entry) -> Result<(), NoMemory>
    ensures count { OnOk result (length texts.new.items ≡ length texts.old.items) }
    ensures more { OnOk result ((es : List Entry) → HavePrinted 1 es texts.old.items → HavePrinted 1 (es ++ entry.now ∷ []) texts.new.items) }
{
    let image = entry.image.0;
    if image == 0 || texts.len() < image as usize {
        return Ok(());
    }
    push_entry(&mut texts[image as usize - 1], image, entry)
}

/// What each of so many images printed, gathered in one pass over the trace.
fn texts_of(alloc: Global, images: u32, trace: &Trace) -> Result<Vec<Vec<u8>>, NoMemory>
    ensures count { IfOk result (λ texts. length texts.items ≡ images) }
    ensures all { IfOk result (λ texts. HavePrinted 1 trace.now.entries texts.items) }
{
    let mut texts = blank_texts(alloc, images)?;
    for entry in trace.entries.as_slice() {
        push_to(&mut texts, entry)?;
    }
    Ok(texts)
}

/// Appends texts, one behind the other.
fn push_texts(out: &mut Vec<u8>, texts: &[Vec<u8>]) -> Result<(), NoMemory>
    ensures { OnOk result (out.new.items ≡ out.old.items ++ flat_map bytes_of texts.now) }
{
    for text in texts {
        out.extend_from_slice(text.as_slice())?;
    }
    Ok(())
}

/// Appends what so many images printed, by image in rising order.
pub fn push_prints(out: &mut Vec<u8>, images: u32, trace: &Trace) -> Result<(), NoMemory>
    ensures { OnOk result (out.new.items ≡ out.old.items ++ printed_from 1 images trace.now.entries) }
{
    let texts = texts_of(*out.allocator(), images, trace)?;
    push_texts(out, texts.as_slice())
}
