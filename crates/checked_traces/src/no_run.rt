//! Why bytes aren't the trace of a run.

/// The bytes that are given are the trace of no run: they are written for no trace, and this is the first line by which
/// they are so; or the trace is none of a run of the program, and this is the first step by which it is none, from 1.
/// Or the machine can't run the program, as `checked_run` tells it.
#[derive(Clone, Copy)]
pub enum NoRun {
    BadTrace { line: u32 },
    NotARun { step: usize },
    Unrunnable { line: u32 },
}
