//! The code of assignment (ISO/IEC 1539-1:2018, 10.2.1): it is put behind a draft of code.
//! It stands on `tree_meaning`, which says what an assignment does and in what order, and on `expr_code`, whose
//! functions append the code of the expressions in it. `statement_code` stands on it.
//! Its main contract is that of `push_assignment`: behind the draft stands the code of the assignment's parts.
#![tactic(auto)]

pub mod assignment;
