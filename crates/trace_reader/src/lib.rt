//! A file that holds the text of a trace, read back.
//! It stands on `trace_forms`, which says for which trace a file is written, on `trace_text`, which prints the line
//! of a step, on `trace_fields`, which reads the parts of a line, and on `coarray_memory`, which tells whether cells
//! are a section; `checked_traces` stands on it.
//! Its main contract: `read_trace` gives the trace for which a file is written, or the number of the first line by
//! which it is written for none.
//! Each line is read without a look at whether it is well formed; the step that was read is printed, and the line
//! has to be what is printed.
#![tactic(auto)]

mod ask;
mod board;
mod checks;
mod entry;
mod forms;
mod lines;
mod memory;
mod reply;
mod teams;
pub mod trace;
