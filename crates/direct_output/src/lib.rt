//! The acts of PRINT against what it does (ISO/IEC 1539-1:2018, 12.6, 13.3, 13.10.4).
//! It stands on `direct_meaning`, which says what a statement does without a stack, and on `direct_laws`, by which the
//! acts of its items come to their values: laws alone, beside the program.
//! Its main contract is `law_print_says_its_text`: the acts of a PRINT say the text of its items, or come to its fault.
#![tactic(auto)]

pub mod laws;
