//! The words of the command line of `caf`: what valid words mean, and where the others go wrong.
//! It stands on `caf_base`; `caf_run` stands on it.
//! Its main contract: `words::words_of` gives the command that the words mean, or their usage number: that of the first
//! word with which no valid list of words begins, or the number of words plus one where they are a valid list cut
//! short.
#![tactic(auto)]

pub mod command;
mod failure;
mod number;
mod options;
pub mod words;
