//! In a run of an accepted program each ask of an image for a lock, an event or an atom fits, and so do all asks of
//! which this is known. It stands on `memory_fits` and `next_fits`, by which this is so where ranks are right and
//! statements name declared locks, events and atoms, and on `accepted_cells`, by which they do in what the rules accept.
//! It has laws alone.
//! Its main contracts are `law_accepted_cell_asks_fit` and `law_accepted_is_sound`.
#![tactic(auto)]

pub mod laws;
