//! Stores of an image, each in room that is made whole at the start: a stack of numbers, rows of cells one behind the
//! other, and piles of items with a head each.
//! It stands on std alone; the core of an image stands on it.
//! Its main contract: each store is a plain list (of numbers, rows or piles) with its room, and no change of it takes
//! memory.
#![tactic(auto)]

pub mod numbers;
pub mod piles;
pub mod rows;
