//! The acts of assignments against what they do (ISO/IEC 1539-1:2018, 10.2.1).
//! It stands on `direct_meaning`, which says what a statement does without a stack, and on `direct_laws`, by which the
//! acts of its expressions come to their values: laws alone, beside the program.
//! Its main contract is `law_assignment_defines_its_variable`: the acts of an assignment make the asks that the
//! definition says, and leave the variables that it says, or come to its fault.
#![tactic(auto)]

pub mod laws;
