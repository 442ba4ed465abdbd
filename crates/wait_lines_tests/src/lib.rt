//! Tests of `wait_lines`: the lines that tell a chain of waits.
//! It stands on this and on `wait_chain`; nothing stands on it.
//! What is wanted was worked out by hand. A test ends where memory is wanting.
//! It has no code besides its tests.
#![tactic(auto)]

#[cfg(test)]
mod lines;
