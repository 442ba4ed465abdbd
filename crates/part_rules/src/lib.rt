//! The rules of the language (ISO/IEC 1539-1:2018), judged: what is broken in each expression, and the typed expression
//! that it is taken as.
//! It stands on `caf_base`, `fortran_tree`, `checked_tree`, `rule_definitions` and `scope_table`; the rules of
//! references, expressions and statements stand on it.
//! Its main contract: each function gives exactly the judgement that the definition of its name in `rule_definitions`
//! says: all rules that are broken in the part, in the order of the definition, and what the part stands for, nothing
//! where one is broken.
#![tactic(auto)]

pub mod bracket;
pub mod constructor;
pub mod designator;
pub mod judged;
pub mod literal;
pub mod named;
pub mod operand;
pub mod operator;
pub mod part;
pub mod shape;
pub mod types;
