//! The tree of a program put together from its parts (ISO/IEC 1539-1:2018, 5.1 and clause 11).
//! It stands on `part_reader`, whose parts it takes, and on `program_reader`, which lists a tree's parts and says which
//! part may follow which.
//! Its main contract is that of `unit::program_of`: parts that may follow one another in a file are those of the
//! program it answers.
#![tactic(auto)]

pub mod block;
pub mod construct;
pub mod law;
pub mod next;
pub mod unit;
