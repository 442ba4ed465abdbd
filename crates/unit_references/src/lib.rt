//! The names that stand in a part of the source for entities of the scope around it, each at its place, in source order.
//! It stands on `fortran_tree`; `unit_spelling` and `module_units` stand on it. specs/References says which names they
//! are, and specs/Renamed what a part is whose names are spelled otherwise.
//! Its main contracts: `unit::add_body`, `unit::add_declarations`, `statement::add_statements` and `unit::add_prefixes`
//! put the names of a part behind those that are there.
#![tactic(auto)]

pub mod action;
pub mod declaration;
pub mod expr;
pub mod references;
pub mod statement;
pub mod unit;
