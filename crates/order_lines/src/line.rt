//! The line of a run.

ghost use Rattle.std.specs.Prelude.{◌≡◌, ◌++◌, pos, OnOk, IfOk, slice_get};
ghost use Rattle.caf_text.specs.Numbers.{decimal_text};
ghost use Rattle.order_lines.specs.Lines as spec;
ghost use Rattle.order_lines.specs.Lines.{this_order_text, cause_line, order_line, IsOrderLine};

use crate::bar::{Bar, Cause, bar_of};
use caf_base::refusal::NoMemory;
use caf_events::ask::Ask;
use caf_events::event::Entry;
use caf_events::round::Arriving;
use caf_report::report::Report;
use decided_watch::watch::Reason;
use std::alloc::Global;
use trace_text::piece::{push_count, push_text};
use trace_text::words::ask_word;

// The word of an arrival.
fn arrival_word(arriving: &Arriving) -> &'static str
    ensures { result.now ≡ spec.arrival_word arriving.now }
{
    match arriving {
        Arriving::Form { .. } => "form",
        _ => "arrive",
    }
}

// The word of a step by its ask.
fn step_word(ask: &Ask) -> &'static str
    ensures { result.now ≡ spec.step_word ask.now }
{
    match ask {
        Ask::Arrive { arriving, .. } => arrival_word(arriving),
        _ => ask_word(ask),
    }
}

// The words of a cause, of an entry with this ask.
fn cause_text(ask: &Ask, cause: Cause) -> &'static str
    ensures { result.now ≡ spec.cause_text ask.now cause }
{
    match cause {
        Cause::Race => "race",
        Cause::Undecided(Reason::NotFree) => step_word(ask),
        Cause::Undecided(Reason::OtherPoster) => "other poster",
        Cause::Undecided(Reason::EventsRemade) => "events remade",
    }
}

// Appends a text and a number.
fn push_numbered(out: &mut Vec<u8>, text: &str, number: u32) -> Result<(), NoMemory>
    ensures { OnOk result (out.new.items ≡ out.old.items ++ (text.now ++ decimal_text (pos number))) }
{
    push_text(out, text)?;
    push_count(out, u64::from(number))
}

// Appends two texts.
fn push_texts(out: &mut Vec<u8>, first: &str, second: &str) -> Result<(), NoMemory>
    ensures { OnOk result (out.new.items ≡ out.old.items ++ (first.now ++ second.now)) }
{
    push_text(out, first)?;
    push_text(out, second)
}

// Appends the line that a run alone is so, with the line of a statement and the cause.
fn push_this_order(out: &mut Vec<u8>, line: u32, cause: &str) -> Result<(), NoMemory>
    ensures { OnOk result (out.new.items ≡ out.old.items ++ this_order_text line cause.now) }
{
    push_numbered(out, "this order: line ", line)?;
    push_texts(out, ", ", cause)?;
    push_text(out, "\n")
}

// Appends that line of an entry.
fn push_entry(out: &mut Vec<u8>, alloc: Global, e: &Entry, cause: Cause) -> Result<(), NoMemory>
    ensures { OnOk result (out.new.items ≡ out.old.items ++ this_order_text e.now.event.line (spec.cause_text e.now.event.ask cause)) }
{
    let ask = e.event.told().ask(alloc);
    let pushed = push_this_order(out, e.event.line(), cause_text(&ask, cause));
    drop(ask);
    pushed
}

// Appends that line of the entry at a place.
fn push_cause(
    out: &mut Vec<u8>,
    alloc: Global,
    trace: &[Entry],
    at: usize,
    cause: Cause,
) -> Result<(), NoMemory>
    ensures { OnOk result (out.new.items ≡ out.old.items ++ cause_line (slice_get trace.now at) cause) }
{
    match trace.get(at) {
        Some(e) => push_entry(out, alloc, e, cause),
        None => Ok(()),
    }
}

// Appends the line where this keeps the run from speaking for every order, or nothing does.
fn push_line(
    out: &mut Vec<u8>,
    alloc: Global,
    trace: &[Entry],
    bar: Option<Bar>,
) -> Result<(), NoMemory>
    ensures { OnOk result (out.new.items ≡ out.old.items ++ order_line trace.now bar) }
{
    match bar {
        Some(bar) => push_cause(out, alloc, trace, bar.at, bar.cause),
        None => push_text(out, "every order\n"),
    }
}

/// The line that says whether the run of a report speaks for every order of the images.
pub fn order_text(alloc: Global, report: &Report) -> Result<Vec<u8>, NoMemory>
    ensures { IfOk result (λ text. IsOrderLine report.now.images report.now.trace.entries report.now.end text.items) }
{
    let bar = bar_of(alloc, report)?;
    let mut text = Vec::new(alloc);
    push_line(&mut text, alloc, report.trace.entries.as_slice(), bar)?;
    Ok(text)
}
