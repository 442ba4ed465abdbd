//! When acts agree with an evaluation, step by step, and what stands on the stack for what was evaluated: numbers,
//! arrays with their evaluation cells, bounds, subscripts and places. It stands on `direct_meaning`, which says what an
//! expression means without a stack, and on the acts of `image_acts`; `direct_laws`, which goes over the forms of
//! expressions, stands on it: laws alone, beside the program. Its main contract is `law_subscripts_are_read_back`: a
//! form of digits and numbers on the stack give back the section subscripts that were evaluated.
#![tactic(auto)]

pub mod laws;
