//! Elements and sections of arrays as the numbers of a machine's stack: their places, their offsets, the elements
//! there; bounds; and the images that cosubscripts name (ISO/IEC 1539-1:2018, 5.4.6, 9.5.3, 9.6).
//! It stands on `image_acts`, whose definitions are its clauses; the machine of an image stands on it. Nothing here
//! takes memory.
//! Its main contract: the k-th offset of a place is that of `offsets` of `image_acts`, and elements are read and
//! written as `elements_at` and `with_elements_at` say; `section::place_of` finds what `place_of` there does, and
//! `images::image_index` what `index_of` does.
#![tactic(auto)]

pub mod bounds;
pub mod elements;
pub mod empty;
pub mod images;
pub mod laws;
pub mod list;
pub mod place;
pub mod section;
mod triplet;
