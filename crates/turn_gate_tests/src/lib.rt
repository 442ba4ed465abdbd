//! Tests of `turn_gate` over the memory of an image (`coarray_memory`).
//! It stands on `turn_gate` and `coarray_memory`; nothing stands on it.
//! The answers that are wanted were worked out by hand: who waits for an event sees the post of another image that came
//! between two of its turns.
//! It has no code besides its test.
#![tactic(auto)]

#[cfg(test)]
mod tests;
