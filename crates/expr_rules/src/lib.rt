//! Expressions, judged (ISO/IEC 1539-1:2018, 9.4 to 9.6, 10.1): what a designator or a reference is by what its name
//! stands for, and the one recursion over all forms.
//! It stands on `call_rules` and `specifier_rules`; the rules of declarations and of statements stand on it.
//! Its main contract: `expr::judge` gives the judgement that the definition `judged` says: all rules that are broken,
//! and the typed expression.
#![tactic(auto)]

pub mod bracket;
pub mod constant;
pub mod designated;
pub mod expr;
pub mod link;
pub mod named;
pub mod place;
pub mod procedure;
pub mod selector;
pub mod subscript;
pub mod variable;
