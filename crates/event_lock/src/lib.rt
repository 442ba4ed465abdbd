//! One lock variable and one event variable of a memory (ISO/IEC 1539-1:2018, 11.6.7, 11.6.8, 11.6.10).
//! It stands on `caf_events` and on the definitions of `object_rules`; the memory of an image stands on it.
//! Its main contracts are those of `act`, `reply` and `ready` of both cells: a step changes the cell as the
//! definition's fold over a history does, and is told what the definition says.
#![tactic(auto)]

pub mod event;
pub mod hold;
pub mod lock;
