//! The coarrays of one image: which of them are allocated here, with which bounds and cobounds and in which team, and
//! how many coarray cells are in use (ISO/IEC 1539-1:2018, 5.4.7, 9.6, 9.7.1).
//! It stands on `image_acts`, whose definitions are its clauses, on `array_places` for places and sizes, and on the
//! tables of `image_code`; the core of an image stands on it.
//! Its main contract: a `Coarrays` is the list of coarrays of a core with its number of cells, each step on a coarray
//! does to the list what `image_acts` says that it does to a core, and nothing takes memory after the start but what
//! asks hold.
#![tactic(auto)]

pub mod asks;
pub mod coarrays;
mod cobounds;
mod few;
pub mod fits;
pub mod images;
pub mod laws;
pub mod plans;
pub mod sections;
mod shape;
mod start;
