//! Images that run at the same time: how an image's next event keeps its list and what it has seen of each object
//! together, why all lists are of one run at the end, and which moment of the run the images have come to.
//! It stands on `trace_theory` for the lists and on `core_runs` for the moments, and knows no gate and no thread; what
//! runs images on threads stands on it.
//! Its main contracts: `law_linked_woven`, events that are linked with what was seen, and closed histories, are woven,
//! in whatever order the steps were made; `law_linked_kept`, images that have come where they stand, with histories
//! that were served and lists that are linked, keep all that is kept of a run, so that their trace is a core run. Laws
//! alone.
#![tactic(auto)]

pub mod laws;
