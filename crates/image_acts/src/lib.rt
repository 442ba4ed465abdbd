//! What a program does between its jumps, calls and counts: acts in families, the core that they act on (values that
//! are being evaluated, variables, allocations, teams), and what each act comes to. Definitions and laws alone: the
//! meaning of the checked tree and the machine's instructions share them.
//! It stands on `walk_theory`, `caf_events`, `coarray_types` and `caf_text`; `tree_meaning` stands on it.
//! Its main contract: the cells of an element or section are those that the standard names, at the places of their
//! subscript order values (`law_section_is_in_order`), and an image selector's index is that of the image that its
//! cosubscripts name.
#![tactic(auto)]

pub mod laws;
