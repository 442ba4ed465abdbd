//! The acts of an expression against what it means.
//! It stands on `direct_meaning`, which says what an expression means without a stack, and on `direct_agreement` and
//! `direct_access`, whose lemmas go step by step: laws alone, beside the program.
//! Its main contract is `law_expression_has_its_value`: the acts of an expression make the asks that the definition
//! says, come to its value with the variables that it leaves, or to its fault, whatever the replies are. It is proved
//! of the forms that `IsCovered` lists.
#![tactic(auto)]

pub mod laws;
