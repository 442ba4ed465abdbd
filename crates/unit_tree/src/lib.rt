//! The tree of a file: modules, and behind them the main program (ISO/IEC 1539-1:2018, 14.1 and 14.2).
//! It stands on `fortran_tree`, whose main program has no renames in its USE statements and needs no module;
//! `fortran_grammar` stands on it.
//! It has no code to run. specs/Files has the same tree as plain data, without its memory; specs/FileViews says what a
//! tree in memory stands for.
#![tactic(auto)]

pub mod file;
