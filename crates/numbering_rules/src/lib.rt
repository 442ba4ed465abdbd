//! What is numbered in the statements of a unit, in source order: critical constructs and literals; and how many hidden
//! variables it needs.
//! It stands on `rule_definitions` and the trees; the rules of statements and the whole checker stand on it.
//! Its main contracts: `numbering::count_criticals`, `numbering::add_literals` and `numbering::most_hidden` give what
//! the definitions `counted_statements` and `most_hidden_of` of rule_definitions say.
#![tactic(auto)]

pub mod numbering;
