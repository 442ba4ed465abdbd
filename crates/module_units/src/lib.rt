//! The units of a file as one program (ISO/IEC 1539-1:2018, 14.2): what each name of a module, of the main program and
//! of their procedures denotes, which of the rules 20, 41, 60, 61 and 62 the units break, and the one program that they
//! are.
//! It stands on `unit_tree`, `rule_definitions` and `unit_references`; `unit_locals` and `unit_names` stand on it.
//! It has definitions and no code to run. specs/Visible says what a name denotes, specs/UnitRules what breaks,
//! specs/Flat what the one program is, specs/Acceptance what a file breaks and stands for. Its law: a file without
//! modules and new names is its own tree.
#![tactic(auto)]

pub mod law;
