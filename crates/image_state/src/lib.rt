//! The core of an image in memory, and the acts on it: numbers, array values and texts that are being evaluated, the
//! cells of frames.
//! It stands on `image_stores`, `array_values`, `array_places`, `local_arrays`, `coarray_tables`, `image_code`,
//! `number_operators`, `print_text` and `team_tables`; `image_steps`, `image_asks` and the machine of an image stand on
//! it. It does the steps on numbers, scalars, frames, array values and PRINT, and has what the steps on local arrays,
//! coarrays and teams need, which are in crates of their own.
//! Its main contract, of each step: the core becomes what `operate` says of the step's act, or stays where that faults
//! or has no operand. No act takes memory.
#![tactic(auto)]

mod arrays;
mod bounds;
mod coarrays;
mod indices;
mod locals;
mod loops;
mod numbers;
mod printing;
mod replies;
mod stack;
pub mod state;
mod teams;
