//! The text of a PRINT from its items (ISO/IEC 1539-1:2018, 12.6.3), list-directed or by a format that is read as it is
//! used.
//! It stands on `image_acts`, which says what the text is, and on `caf_text`; the machine of an image stands on it.
//! Its main contract: `text_of` gives the text that `text_of` of `image_acts` finds, and `fault_of` says without memory
//! whether there is none.
#![tactic(auto)]

mod field;
pub mod item;
mod items;
mod judge;
mod listed;
mod pass;
mod piece;
mod sign;
mod text;

pub use judge::fault_of;
pub use text::text_of;
