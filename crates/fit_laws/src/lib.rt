//! The law that asks fit: what the next ask of an image of a core run names is there, and the image may ask for it.
//! It stands on `walk_laws`, which says where an image stands and what it was told, and on `wait_reason`, which says what it is that an ask fits. It has definitions and laws
//! alone.
//! Its main contracts are `law_asks_fit` and `law_waits_fit`, of the asks that name what was told to the image, and of ALLOCATE and DEALLOCATE.
#![tactic(auto)]

pub mod laws;
