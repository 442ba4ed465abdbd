//! All of the program `caf` but its `main`: a task, its source and its trace by the words of the command line, files
//! read whole or a made source, judged and run, a text written whole.
//! It stands on the words, the made sources, the reader, the checker, the run, the judged and replayed traces, the
//! report, the chain of waits and the line of every order, and on `caf_base`, whose traits `Source` and `Sink` are the
//! outside.
//! The program `caf` stands on it.
//! Its main contract is that of `top::caf`: each status with its cause and each cause with its status, the text that
//! is due and what of it is written. Below it: what is due for the words and a source, a file read whole, bytes
//! written whole.
#![tactic(auto)]

pub mod due;
mod failures;
pub mod reading;
pub mod said;
pub mod task;
pub mod top;
mod traced;
pub mod writing;
