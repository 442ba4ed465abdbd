//! Bounds, cobounds and sections: where a subscript list, a cosubscript list and a section's cells lie.
//! It stands on `caf_base` alone; the checked tree, the rules of declarations, the memory of an image and its machine
//! stand on it.
//! Its main contract: offsets and image indices are places in array element order (ISO/IEC 1539-1:2018, 9.5.3.2),
//! each list of subscripts within its bounds has a place of its own, and each place below the size has such a list.
#![tactic(auto)]

pub mod coshape;
mod digits;
pub mod laws;
pub mod section;
pub mod shape;
