//! That the values which an image writes, and with which it arrives at a collective, are of the kind that the ask names,
//! along its walk, where the blocks of its program see to that.
//! It stands on `image_acts`, which says what acts do; `kind_expressions` stands on it. Its main contract is
//! `law_walks_suit`.
#![tactic(auto)]

pub mod laws;
