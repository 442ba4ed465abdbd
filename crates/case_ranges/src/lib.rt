//! The ranges of a SELECT CASE (11.1.9) in a map: one look-up tells whether a further range has a value of an earlier
//! one.
//!
//! Stands on `rule_definitions` and `checked_tree`; `statement_rules` stands on it. The main contract is that of
//! `CaseRanges::overlaps_one`: it answers as the definition does of the list of all ranges that were added. They are
//! kept as the closed intervals that they fill together, no two of which have a number in common.

#![tactic(auto)]

mod ends;
mod intervals;
pub mod ranges;
