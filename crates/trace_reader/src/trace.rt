//! A file that holds a trace, read line by line.

ghost use Rattle.std.specs.Prelude.{◌≡◌, ◌<◌, ◌∷◌, ◌++◌, [], ℕ, List, IsTrue, false, IfOk, IfErr, OnOk, length};
ghost use Rattle.trace_forms.specs.Names.{AreNames};
ghost use Rattle.trace_forms.specs.Files.{lines_of, is_trace_line, Written, IsBadLine};
ghost use Rattle.trace_reader.specs.Files.{HasRead, Reads, IfBad};

use crate::entry::entry_of;
use crate::lines::{first_line, is_of_trace, says_second};
use crate::teams::Teams;
use caf_base::listing::{Listing, Text};
use caf_base::refusal::{NoMemory, Refusal};
use caf_events::event::{Entry, Trace};
use std::alloc::Global;
use std::collections::BTreeMap;
use trace_fields::names::NameTable;

/// A line of a file, by its number from 1: the first by which the lines so far are written for no trace.
#[derive(Clone, Copy, PartialEq, Eq, Debug)]
pub struct BadTrace {
    pub line: u32,
}

/// Why there is no trace: want of memory, or a line.
pub type TraceRefusal = Refusal<BadTrace>;

// What was read of the lines so far.
#[derive(Drop)]
struct Reading {
    entries: Vec<Entry>,
    teams: Teams,
    has_begun: bool,
    scratch: Vec<u8>,
}

impl Reading {
    // Nothing was read.
    fn new(alloc: Global) -> Reading
        ensures { (names : List (List ℕ)) → HasRead [] names result }
    {
        Reading {
            entries: Vec::new(alloc),
            teams: Teams {
                is_second: false,
                numbers: BTreeMap::new(alloc),
            },
            has_begun: false,
            scratch: Vec::new(alloc),
        }
    }

    // Takes a line of the trace; false where it shows no step.
    fn take_step(
        &mut self,
        alloc: Global,
        names: &[Text],
        table: &NameTable,
        line: &[u8],
    ) -> Result<bool, NoMemory>
        requires names { AreNames names.now }
        requires table { table.now ≡ names.now }
        ensures { IfOk result (λ yes. (done : List (List ℕ)) → IsTrue (is_trace_line line.now)
            → HasRead done names.now self.old → Reads yes done line.now names.now self.new) }
    {
        self.has_begun = true;
        let read = entry_of(
            alloc,
            names,
            table,
            &mut self.teams,
            &mut self.scratch,
            line,
        )?;
        match read {
            Some(entry) => {
                self.entries.push(entry)?;
                Ok(true)
            }
            None => Ok(false),
        }
    }

    // Takes a line that isn't of the trace: it may say the second form, where no line of the trace stands before it.
    fn take_other(&mut self, alloc: Global, line: &[u8]) -> Result<(), NoMemory>
        ensures { OnOk result ((done names : List (List ℕ)) → is_trace_line line.now ≡ false
            → HasRead done names self.old → HasRead (done ++ line.now ∷ []) names self.new) }
    {
        if self.has_begun {
            return Ok(());
        }
        if self.teams.is_second {
            return Ok(());
        }
        self.teams.is_second = says_second(alloc, line)?;
        Ok(())
    }

    // Takes a line; false where the lines with it are written for no trace.
    fn take_line(
        &mut self,
        alloc: Global,
        names: &[Text],
        table: &NameTable,
        line: &[u8],
    ) -> Result<bool, NoMemory>
        requires names { AreNames names.now }
        requires table { table.now ≡ names.now }
        ensures { IfOk result (λ yes. (done : List (List ℕ)) → HasRead done names.now self.old
            → Reads yes done line.now names.now self.new) }
    {
        if is_of_trace(line) {
            return self.take_step(alloc, names, table, line);
        }
        self.take_other(alloc, line)?;
        Ok(true)
    }
}

/// The trace for which a file is written, with the coarrays by their names in declared order; where it is written
/// for none, the first line by which it is so.
pub fn read_trace(alloc: Global, bytes: &[u8], names: &[Text]) -> Result<Trace, TraceRefusal>
    requires few { length bytes.now < 4294967295 }
    requires names { AreNames names.now }
    ensures written { IfOk result (λ trace. Written bytes.now names.now trace.entries) }
    ensures bad { IfErr result (IfBad (IsBadLine (lines_of bytes.now) names.now)) }
{
    let table = NameTable::of(alloc, names)?;
    let mut reading = Reading::new(alloc);
    let mut rest = bytes;
    let mut line = 1;
    while !rest.is_empty() {
        let (first, others) = first_line(rest);
        let taken = reading.take_line(alloc, names, &table, first)?;
        if !taken {
            return Err(Refusal::Cause(BadTrace { line }));
        }
        rest = others;
        line += 1;
    }
    Ok(Trace {
        entries: Listing::from_vec(reading.entries),
    })
}
