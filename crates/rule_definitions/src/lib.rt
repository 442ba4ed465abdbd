//! The rules of the language as definitions over the plain source tree and the checked one (ISO/IEC 1539-1:2018): what
//! a name stands for in its scope, the type, kind and rank of each expression, constant expressions and their values,
//! and for each of the rules 20 to 59 (docs/use/REFUSALS.md) where a program breaks it.
//! It stands on `caf_base`, `coarray_types`, `fortran_tree` and `checked_tree`; the checker and the laws of rules stand
//! on it. It has no code to run.
//!
//! A rule is a function of its own over typed parts and places: `X_breaks .. : List Broken`. A part is judged once, as
//! `Judgement`: the rules that are broken in it, and what it stands for where none is; `under` puts a part under a
//! rule, `formed` says a rule of a form only where no part of it is broken. specs/Units has the order of a whole
//! program, specs/Acceptance the two sentences of all this: `Breaks p r at` and `Accepts p c`.
//! The proofs are sources with their answers: `answers p r l c`, the first break of the program is that of rule r at
//! line l, column c; `accepted p`.
#![tactic(auto)]

pub mod broken;
pub mod rule;
pub mod taken;
