//! What an expression means, said without a stack: its asks in their order, and for the replies to them its value or
//! its run fault; and what a statement does (ISO/IEC 1539-1:2018, 9.4 to 9.6, 10.1, 10.2, 11.1, 15.5, 16.9).
//! It stands on `tree_meaning`, whose acts on a stack are held to it by `direct_laws`: definitions, beside the program.
//! An expression is an evaluation of its form, one clause a form, by recursion over the tree; it has no stack, no jump
//! and no act.
//! Its main contract is `law_walk_says_what_acts_say`: the walk of a tree makes the asks that its acts come to as an
//! evaluation, which is what can be compared with the definition.
#![tactic(auto)]

pub mod laws;
