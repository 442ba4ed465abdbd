//! The local arrays of all frames of an image, in room that is made once (ISO/IEC 1539-1:2018, 5.4.6, 9.5, 9.7).
//! It stands on `image_acts`, whose definitions are its clauses, `image_code` (scopes, and the arrays of a program's
//! start) and `array_places`; the core of an image stands on it.
//! Its main contract: it is a list of frames, each with its arrays as `image_acts` has them, and no change of it takes
//! memory; `laws` says by it what each act does to a core.
//! All elements stand in one row of cells without gaps, in the order of frames and of the arrays in them: so an element
//! is read by a look at its array's entry, and only what gives an array another size moves others.
#![tactic(auto)]

pub mod arrays;
pub mod bounds;
mod first;
pub mod laws;
mod offsets;
mod reach;
pub mod row;
mod slot;
