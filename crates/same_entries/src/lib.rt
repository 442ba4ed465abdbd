//! Whether two asks, two replies or two events are the same, in every part.
//! It stands on `caf_events`; `judged_run` stands on it.
//! Its main contract: `same_event` answers yes exactly where the two events are one. It takes no memory.
#![tactic(auto)]

pub mod asks;
mod board_asks;
pub mod events;
mod memory_asks;
mod own_asks;
mod parts;
pub mod replies;
