//! The theory of runs and their traces: lists of entries that are of one run, their merge, machines that ask,
//! simulations.
//! It stands on std alone, and knows no ask, no object and no statement.
//! On it stand the crates that state what a run is, that step it, and that compare two machines.
//! Its main contract is `law_trace_of`: the merge of the images' lists has each object's history and the stamps of a
//! trace.
//! Each law is the contract of a function that does nothing; proofs cite the lemma of the same name in proofs/.
#![tactic(auto)]

pub mod machine_laws;
pub mod merge_laws;
pub mod order_laws;
pub mod run_laws;
pub mod simulation_laws;
