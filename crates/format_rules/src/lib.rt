//! Formats (ISO/IEC 1539-1:2018, 13.3, 13.4 and 13.7), taken apart and judged.
//! It stands on `caf_base`, `checked_tree` and `rule_definitions`; `print_rules` stands on it.
//! Its main contract is that of `judge_format`: rule 57 is broken exactly where `format_breaks` of `rule_definitions`
//! says so of the text's descriptors, and where it isn't, the descriptors are those of `descriptors` there.
//! The code goes over the text once and makes pieces of it, as the definition does; then it cuts them at the commas and
//! reads each item.
#![tactic(auto)]

pub mod format;
pub mod item;
pub mod judge;
pub mod number;
pub mod piece;

pub use format::descriptors;
pub use judge::judge_format;
