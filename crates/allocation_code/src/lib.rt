//! The code of ALLOCATE and DEALLOCATE (ISO/IEC 1539-1:2018, 9.7.1, 9.7.3): it is put behind a draft of code.
//! It stands on `tree_meaning`, which says what these statements do and in what order, on `expr_code`, and on
//! `control_code`, whose functions settle a status. `statement_code` stands on it.
//! Its main contracts are those of `push_allocate` and `push_deallocate`: behind the draft stands the code of the
//! statement's parts.
#![tactic(auto)]

pub mod allocation;
pub mod object;
