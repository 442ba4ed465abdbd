//! The gates of a run: one round each memory and one round the board, and one image's passes for all of them.
//! It stands on `turn_gate`; the workers stand on it.
//! Its main contract is that of `Gates::turn`: one turn at the gate that the ask names, and nothing else of the
//! passes changes. Beside it `news` counts what moves at the gates, for workers that wait; no clause speaks of that.
#![tactic(auto)]

mod closing;
pub mod fabric;
pub mod gates;
pub mod news;
mod opening;
pub mod passes;
