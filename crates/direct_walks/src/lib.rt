//! The walk against what evaluations come to: where it stands at an ask, where it goes on, and that it does so part by
//! part, statement by statement and iteration by iteration, whatever stands in hidden cells. It stands on
//! `direct_agreement`, which says when acts agree with an evaluation, and on `direct_hidden`; `direct_flow`, which goes
//! over statements, stands on it: laws alone, beside the program. Its main contract is `law_walk_says_what_agrees`:
//! where the acts of parts agree with an evaluation, the walk of the parts says what it comes to.
#![tactic(auto)]

pub mod laws;
