//! The lines that tell why a run is stuck.
//! It stands on `wait_chain`, whose chain they tell, and on `trace_text` for the pieces of a line; `caf_run` stands on
//! it.
//! Its main contract is `why_text`: the lines are exactly `chain_text` of the chain.
#![tactic(auto)]

ghost use Rattle.std.specs.Prelude.{◌≡◌, ◌++◌, codes, pos, OnOk, IfOk};
ghost use Rattle.caf_text.specs.Numbers.{decimal_text};
ghost use Rattle.object_rules.specs.Happenings.{numbers_of};
ghost use Rattle.wait_chain.specs.Links.{close_of};
ghost use Rattle.wait_lines.specs.ChainText.{link_line, close_text, lines_from, chain_text};

use caf_base::place::ImageNo;
use caf_base::refusal::NoMemory;
use std::alloc::Global;
use trace_text::piece::{push_count, push_text};
use wait_chain::links::{Chain, Close};

// Appends a text and the number of an image.
fn push_image(out: &mut Vec<u8>, text: &str, image: ImageNo) -> Result<(), NoMemory>
    ensures { OnOk result (out.new.items ≡ out.old.items ++ (text.now ++ decimal_text (pos image.0))) }
{
    push_text(out, text)?;
    push_count(out, u64::from(image.0))
}

// Appends the line of a link and the image for which it waits.
fn push_link(out: &mut Vec<u8>, link: ImageNo, next: ImageNo) -> Result<(), NoMemory>
    ensures { OnOk result (out.new.items ≡ out.old.items ++ link_line link.0 next.0) }
{
    push_image(out, "why image ", link)?;
    push_image(out, " waits for image ", next)?;
    push_text(out, "\n")
}

// Appends the end of a chain of which this is the last link.
fn push_close(out: &mut Vec<u8>, last: ImageNo, close: Close) -> Result<(), NoMemory>
    ensures { OnOk result (out.new.items ≡ out.old.items ++ close_text last.0 (close_of close)) }
{
    match close {
        Close::Post => {
            push_image(out, "why image ", last)?;
            push_text(out, " waits for a post\n")
        }
        Close::Stopped { image } => {
            push_link(out, last, image)?;
            push_image(out, "why image ", image)?;
            push_text(out, " stopped\n")
        }
        Close::Cycle { image } => {
            push_link(out, last, image)?;
            push_image(out, "why cycle from image ", image)?;
            push_text(out, "\n")
        }
    }
}

// Appends the lines of the links behind the first one, and the end.
fn push_lines(
    out: &mut Vec<u8>,
    first: ImageNo,
    further: &[ImageNo],
    close: Close,
) -> Result<(), NoMemory>
    ensures { OnOk result (out.new.items ≡ out.old.items ++ lines_from first.0 (numbers_of further.now) (close_of close)) }
{
    let mut last = first;
    for link in further {
        push_link(out, last, *link)?;
        last = *link;
    }
    push_close(out, last, close)
}

// Appends the lines of a chain.
fn push_chain(out: &mut Vec<u8>, links: &[ImageNo], close: Close) -> Result<(), NoMemory>
    ensures { OnOk result (out.new.items ≡ out.old.items ++ chain_text (numbers_of links.now) (close_of close)) }
{
    match links.split_first() {
        None => Ok(()),
        Some((first, further)) => push_lines(out, *first, further, close),
    }
}

/// The lines that tell a chain.
pub fn why_text(alloc: Global, chain: &Chain) -> Result<Vec<u8>, NoMemory>
    ensures { IfOk result (λ t. t.items ≡ chain_text (numbers_of chain.now.links) (close_of chain.now.close)) }
{
    let mut text = Vec::new(alloc);
    push_chain(&mut text, chain.links.as_slice(), chain.close)?;
    Ok(text)
}
