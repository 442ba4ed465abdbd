//! The sources and sinks of `caf`: in memory for tests (`MemSource`, `MemSink`, `ConstSink`), and the real ones.
//! It stands on `caf_base` alone, whose traits `Source` and `Sink` it implements.
//! The tests of every crate that reads or writes stand on it, and so does the program.
//! Its main contract: each call of a source or sink in memory answers and does exactly what its state says, and the
//! count of faults rises exactly at the calls listed and at a full sink. `FileSource` and `StdSink` pass on what the
//! runtime's file and writer tell of their bytes; the real ones tell nothing, and are trusted.
#![tactic(auto)]

mod calls;
pub mod const_sink;
pub mod file_source;
pub mod mem_sink;
pub mod mem_source;
pub mod std_sink;
