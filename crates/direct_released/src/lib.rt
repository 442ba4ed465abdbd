//! The parts of simple statements in the walk against what the statements do: behind them their evaluation cells are
//! free again. The acts of the walk free them where any are taken, and where none is, none is in use. It stands on
//! `direct_statements` and `direct_output`, whose laws end before that: laws alone, beside the program. Its main
//! contract is `law_statement_does_what_it_means`.
#![tactic(auto)]

pub mod laws;
