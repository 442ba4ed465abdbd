//! The hidden cells that the walk keeps behind a frame's variables mean nothing to an evaluation: with others it makes
//! the same asks, comes to the same value or fault, and leaves them as they are. It stands on `direct_meaning`, whose
//! evaluations know no hidden cell; `direct_flow`, in which the walk counts iterations there, stands on it: laws alone,
//! beside the program. Its main contract is `law_hidden_cells_mean_nothing`.
#![tactic(auto)]

pub mod laws;
