//! The first race of a trace (ISO/IEC 1539-1:2018, 11.6.2): the earliest entry that conflicts with an earlier one while
//! their segments are unordered, its earliest such partner, and the least cell that both touch.
//! It stands on `race_watch`, whose recorder tells whether an entry may have a partner; `order_report`, the report of a
//! run, stands on it.
//! Its main contract is `watch`: None exactly where the trace has no race, else its first race.
#![tactic(auto)]

pub mod closes;
pub mod failures;
pub mod holders;
pub mod partner;
pub mod shared;
pub mod spoken;
pub mod steps;
pub mod told;
pub mod watch;
