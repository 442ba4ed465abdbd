//! Why a run is stuck: the chain of images that wait for one another (ISO/IEC 1539-1:2018, 11.1.6, 11.6, 16.6), read
//! off the trace.
//! It stands on `wait_reason`, which says for which image another one waits, and counts what that takes in passes
//! over the trace; it asks no board and no memory.
//! `caf_run` and `wait_lines` stand on it.
//! Its main contract is `why`: the chain is exactly that which the trace tells with the waits (`IsToldChain`), whatever
//! they are. Behind a stuck run that is the chain of `IsChain` (`law_told_chain`), of which there is one and no other
//! (`law_chain`).
#![tactic(auto)]

pub mod awaited;
pub mod chain;
pub mod counts;
pub mod holders;
pub mod lacking;
pub mod laws;
pub mod links;
pub mod told;
