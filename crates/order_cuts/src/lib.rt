//! Cuts of a trace: what segment order says of another run whose images made the first entries of those of the trace.
//! It stands on `order_theory` alone, and knows no ask, no reply and no statement. `every_order`, a law that one run
//! without a race speaks for every order of its steps as far as it is proved, stands on it. Its main contract is
//! `law_cut` (without a race in the trace, of the entries that conflict with an image's next one a cut has exactly
//! those that stand before it in the trace). That all cuts that have come to one access hold the same value at its
//! cells is a lemma (`same_value` in proofs/SameValues).
#![tactic(auto)]

pub mod laws;
