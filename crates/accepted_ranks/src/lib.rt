//! What the rules of the language accept has the ranks that its code wants.
//! It stands on `rule_definitions`, which says what a program is accepted as, on `rule_laws`, whose lemmas of scopes it
//! takes, and on `made_code`, which says what ranks are wanted.
//! Its main contract: `law_accepted_is_ranked`, of whole programs; the laws of expressions, action statements and
//! blocks are its parts. `law_accepted_is_kinded` says more of a whole program: it also has a kind of integers where an
//! operation or a DO variable takes integers alone.
#![tactic(auto)]

pub mod laws;
