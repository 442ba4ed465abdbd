//! The operators of the atomic subroutines (ISO/IEC 1539-1:2018, 16.5, and 16.9.20 to 16.9.30).
//! It stands on `caf_base` and on the definitions of `object_rules`; the memory of an image stands on it.
//! Its main contract is that of `atomic_reply`: the value that an atomic action leaves of the one that it finds, or
//! `Overflow` where kind 4 can't hold it.
#![tactic(auto)]

pub mod atomic;
