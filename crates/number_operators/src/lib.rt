//! Operators on integers of a kind and on truth values (ISO/IEC 1539-1:2018, 10.1.5 and 16.9), as an image computes
//! them.
//! It stands on `image_acts`, which says what each operator means; the core of an image stands on it.
//! Its main contract: `result` and `result_of_one` give the number, or the run fault, that the operator's act comes to.
#![tactic(auto)]

pub mod arithmetic;
mod division;
pub mod operators;
mod powers;
