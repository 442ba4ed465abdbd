//! What a recorder of segment order keeps while the entries of a run are read (ISO/IEC 1539-1:2018, 11.6.2): clocks
//! that cover exactly the segments that precede, what atomic actions hand on (16.5), and a few marks of each cell, by
//! which an entry is tested for races.
//! It stands on `order_theory`, `order_axioms` and `segment_clock`; the search for the first race stands on it.
//! Its main contract is `Recorder::record`: whatever the next entry is, the clocks afterwards cover exactly what the
//! edges of segment order say (`Order::step`), what flags hand on (`Flags`), and the marks tell as much as all entries
//! so far.
#![tactic(auto)]

pub mod act;
pub mod class;
pub mod flag_use;
pub mod flags;
pub mod kept;
pub mod laws;
pub mod marks;
pub mod numbered;
pub mod order;
pub mod queue;
pub mod recorder;
pub mod row;
pub mod shared;
pub mod table;
pub mod touch;
