//! Tests of `tree_meaning`: the start of a program that was worked out by hand.
//! It stands on the meaning of programs; nothing stands on it.
//! It has no code besides its test: what a start is stands in the contract of `first`, and this shows that with ample
//! memory there is one.
#![tactic(auto)]

#[cfg(test)]
mod starts;
