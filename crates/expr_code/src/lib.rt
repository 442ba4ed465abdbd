//! The code of typed expressions (ISO/IEC 1539-1:2018, 10.1): it is put behind a draft of code.
//! It stands on `tree_meaning`, which says what an expression does and in what order, and on `image_code`, whose steps
//! it appends. The compiler of statements stands on it.
//! Its main contract is `push_expr`: behind the draft stands the code of the parts of the expression (`parts_code` of
//! walk_theory). A `Draft` keeps the code, or only counts it, so the size of an expression is known by the same
//! functions. docs/build/COMPILER.md says how the two serve statements.
#![tactic(auto)]

pub mod call;
pub mod draft;
pub mod env;
pub mod expr;
pub mod function;
pub mod laws;
pub mod piece;
pub mod shape;
