//! Made programs: the source of a program that a seed and a size make, to try a run on and to measure one by.
//! It stands on `caf_base` and on `caf_text`, which writes numbers.
//! Its main contract: `make_source` answers exactly the bytes of `made_source`.
#![tactic(auto)]

mod generator;
pub mod source;
