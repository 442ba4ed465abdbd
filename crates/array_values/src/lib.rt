//! Array values that are being evaluated (ISO/IEC 1539-1:2018, 5.4.6, 9.5.3.2), in room that is made whole at the
//! start: their extents, at most three of them, and their elements.
//! It stands on `image_stores` and `image_acts`; the core of an image stands on it.
//! Its main contract: the store is a plain list of array values as `image_acts` has them, with its room
//! (`ArrayValues`), and no change of it takes memory.
#![tactic(auto)]

pub mod extents;
mod filling;
pub mod values;
