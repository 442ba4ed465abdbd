//! The line of a step.

ghost use Rattle.std.specs.Prelude.{◌≡◌, ◌++◌, OnOk, codes};
ghost use Rattle.trace_text.specs.TraceText.{number_text, spaced, place_word, ask_text, reply_text, entry_line};
ghost use Rattle.trace_text.specs.Forms.{number_in_reply, team_by_table, Gains};
ghost use Rattle.caf_events.specs.Asks.{place_of};

use crate::ask::push_ask;
use crate::first::push_first_ask;
use crate::numbers::note_reply;
use crate::piece::{push_count, push_spaced, push_text};
use crate::reply::push_reply;
use caf_base::listing::Text;
use caf_base::place::Place;
use caf_base::refusal::NoMemory;
use caf_events::ask::Ask;
use caf_events::event::{Entry, Event};
use caf_events::reply::Reply;
use std::alloc::Global;
use std::collections::BTreeMap;

// Appends the object at a place behind a blank.
fn push_place(out: &mut Vec<u8>, place: Place) -> Result<(), NoMemory>
    ensures { OnOk result (out.new.items ≡ out.old.items ++ spaced (place_word place)) }
{
    match place {
        Place::Memory(owner) => {
            push_text(out, " m")?;
            push_count(out, u64::from(owner.0))
        }
        Place::Board => push_text(out, " board"),
        Place::Own => push_text(out, " own"),
    }
}

// Appends the object and the ask.
fn push_asked(
    out: &mut Vec<u8>,
    names: &[Text],
    numbers: &BTreeMap<u32, i64>,
    ask: &Ask,
) -> Result<(), NoMemory>
    ensures { OnOk result (out.new.items ≡ out.old.items ++ (spaced (place_word (place_of ask.now)) ++ spaced (ask_text (team_by_table numbers.now) names.now ask.now))) }
{
    push_place(out, ask.place())?;
    push_text(out, " ")?;
    push_ask(out, names, numbers, ask)
}

// Appends the reply and the end of the line, and puts the team numbers that the reply gives into the table.
fn push_replied(
    out: &mut Vec<u8>,
    numbers: &mut BTreeMap<u32, i64>,
    reply: &Reply,
) -> Result<(), NoMemory>
    ensures text { OnOk result (out.new.items ≡ out.old.items ++ (reply_text reply.now ++ codes "\n")) }
    ensures numbers { OnOk result (Gains numbers.old (λ q. number_in_reply q reply.now) numbers.new) }
{
    push_reply(out, reply)?;
    push_text(out, "\n")?;
    note_reply(numbers, reply)
}

// Appends the object, the ask and the reply, and puts the team numbers that the reply gives into the table.
fn push_exchange(
    alloc: Global,
    out: &mut Vec<u8>,
    names: &[Text],
    numbers: &mut BTreeMap<u32, i64>,
    event: &Event,
) -> Result<(), NoMemory>
    ensures text { OnOk result (out.new.items ≡ out.old.items ++ (spaced (place_word (place_of event.now.ask)) ++ spaced (ask_text (team_by_table numbers.old) names.now event.now.ask) ++ codes " > " ++ reply_text event.now.reply ++ codes "\n")) }
    ensures numbers { OnOk result (Gains numbers.old (λ q. number_in_reply q event.now.reply) numbers.new) }
{
    push_asked(out, names, numbers, &event.told().ask(alloc))?;
    push_text(out, " > ")?;
    push_replied(out, numbers, &event.reply(alloc))
}

/// Appends the line of a step: stamp, image, line, object, ask and reply, with the team numbers that the table has. It
/// puts those that the reply gives into the table.
pub fn push_entry(
    alloc: Global,
    out: &mut Vec<u8>,
    names: &[Text],
    numbers: &mut BTreeMap<u32, i64>,
    entry: &Entry,
) -> Result<(), NoMemory>
    ensures text { OnOk result (out.new.items ≡ out.old.items ++ entry_line (team_by_table numbers.old) names.now entry.now) }
    ensures numbers { OnOk result (Gains numbers.old (λ q. number_in_reply q entry.now.event.reply) numbers.new) }
{
    push_count(out, entry.event.stamp())?;
    push_spaced(out, u64::from(entry.image.0))?;
    push_spaced(out, u64::from(entry.event.line()))?;
    push_exchange(alloc, out, names, numbers, &entry.event)
}

// Appends the object and the ask in the first form.
fn push_first_asked(
    alloc: Global,
    out: &mut Vec<u8>,
    names: &[Text],
    ask: &Ask,
) -> Result<(), NoMemory>
    ensures { OnOk result (out.new.items ≡ out.old.items ++ (spaced (place_word (place_of ask.now)) ++ spaced (ask_text number_text names.now ask.now))) }
{
    push_place(out, ask.place())?;
    push_text(out, " ")?;
    push_first_ask(alloc, out, names, ask)
}

// Appends the object, the ask and the reply in the first form.
fn push_first_exchange(
    alloc: Global,
    out: &mut Vec<u8>,
    names: &[Text],
    event: &Event,
) -> Result<(), NoMemory>
    ensures { OnOk result (out.new.items ≡ out.old.items ++ (spaced (place_word (place_of event.now.ask)) ++ spaced (ask_text number_text names.now event.now.ask) ++ codes " > " ++ reply_text event.now.reply ++ codes "\n")) }
{
    push_first_asked(alloc, out, names, &event.told().ask(alloc))?;
    push_text(out, " > ")?;
    push_reply(out, &event.reply(alloc))?;
    push_text(out, "\n")
}

/// Appends the line of a step in the first form: stamp, image, line, object, ask and reply.
pub fn push_first_entry(
    alloc: Global,
    out: &mut Vec<u8>,
    names: &[Text],
    entry: &Entry,
) -> Result<(), NoMemory>
    ensures { OnOk result (out.new.items ≡ out.old.items ++ entry_line number_text names.now entry.now) }
{
    push_count(out, entry.event.stamp())?;
    push_spaced(out, u64::from(entry.image.0))?;
    push_spaced(out, u64::from(entry.event.line()))?;
    push_first_exchange(alloc, out, names, &entry.event)
}
