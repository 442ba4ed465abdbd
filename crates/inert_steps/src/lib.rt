//! Steps at an object that leave every other image's asks there as ready as they were, as departures from a round are.
//! It stands on `caf_events`; `control_board` tells of its steps whether they are inert, and `image_core`, which keeps
//! what it knows of who can step, asks it.
//! Its main contract is the clause of `Inert`.
#![tactic(auto)]

pub mod inert;
