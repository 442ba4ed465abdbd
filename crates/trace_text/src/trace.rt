//! The text of a trace.

ghost use Rattle.std.specs.Prelude.{◌≡◌, ◌++◌, OnOk};
ghost use Rattle.trace_text.specs.Forms.{trace_text};

use crate::line::push_entry;
use caf_base::listing::Text;
use caf_base::refusal::NoMemory;
use caf_events::event::{Entry, Trace};
use std::alloc::Global;
use std::collections::BTreeMap;

fn push_entries(
    alloc: Global,
    out: &mut Vec<u8>,
    names: &[Text],
    entries: &[Entry],
) -> Result<(), NoMemory>
    ensures { OnOk result (out.new.items ≡ out.old.items ++ trace_text names.now entries.now) }
{
    let mut numbers = BTreeMap::new(alloc);
    for entry in entries {
        push_entry(alloc, out, names, &mut numbers, entry)?;
    }
    Ok(())
}

/// Appends the lines of a trace in the second form, with the names of the coarrays by their numbers from 0. After want
/// of memory a part of them may stand there.
pub fn push_trace(
    alloc: Global,
    out: &mut Vec<u8>,
    names: &[Text],
    trace: &Trace,
) -> Result<(), NoMemory>
    ensures { OnOk result (out.new.items ≡ out.old.items ++ trace_text names.now trace.now.entries) }
{
    push_entries(alloc, out, names, trace.entries.as_slice())
}
