//! The memory of an image: cells of coarrays that are overwritten, lock and event variables, the mark of a failure.
//! It stands on `event_lock`, `atomic_subs`, `coarray_types`, `inert_steps` and on the definitions of `object_rules`; a
//! run stands on it.
//! Its main contract is `impl Object for Memory`: every ask at a memory is ready, and replied to, as the definitions
//! say of its history. By `impl Inert for Memory` it tells of reads and writes of one cell that they leave all other
//! asks as ready as they were.
#![tactic(auto)]

pub mod cells;
pub mod coarray;
pub mod inert;
pub mod memory;
pub mod prepare;
pub mod section;
pub mod store;
