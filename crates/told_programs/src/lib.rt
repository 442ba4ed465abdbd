//! What checked programs name along their walks, as each image was told: the teams, images and own coarrays of their
//! asks.
//! It stands on `told_parts` and `tree_meaning`: a statement looks a team or an index up, or tests an allocation,
//! directly before the ask that names it. It has definitions and laws alone; `walk_laws`, which says what that means in
//! a run, stands on it.
//! Its main contract is `law_program_names_told_teams`. What it says of each statement is said of any property of parts
//! that is closed as `Closed` says (proofs/Closed).
#![tactic(auto)]

pub mod laws;
