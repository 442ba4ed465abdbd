//! The teams that one image of a coarray program knows (ISO/IEC 1539-1:2018, 5.3.4, 11.1.5, 11.6.9): the current ones,
//! those that FORM TEAM made, and their members.
//! It stands on `image_acts`, whose definitions are its clauses, and on the member look-ups of `array_places`; the core
//! of an image stands on it.
//! Its main contract: a `Teams` is a plain table of teams, each step on teams does to the table what `image_acts` says
//! that it does to a core, and nothing takes memory but `reserve`, which makes room for the teams of the next round.
#![tactic(auto)]

mod current;
mod entries;
mod formed;
pub mod laws;
pub mod named;
pub mod teams;
