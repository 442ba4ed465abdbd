//! The code of simple statements, and of the heads and ends of constructs (ISO/IEC 1539-1:2018, clauses 8 to 12, 16):
//! it is put behind a draft of code.
//! It stands on `tree_meaning`, which says what a statement does and in what order, on `expr_code`, and on
//! `assignment_code`, `control_code`, `allocation_code` and `subroutine_code`, whose functions append the code of the
//! statements' parts. The compiler of constructs and programs stands on it.
//! Its main contract is `push_simple`: behind the draft stands the code of the parts of the statement, and where these
//! take evaluation cells a step that frees them.
#![tactic(auto)]

pub mod head;
pub mod output;
pub mod simple;
