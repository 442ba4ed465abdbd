//! The scopes of a program (ISO/IEC 1539-1:2018, 8, 15.6.2, 19.3): what the declarations of the main program and of
//! each procedure declare, in declared order, with the rules that they break; the interfaces of the procedures.
//! It stands on `declaration_rules`, `constant_rules` and `expr_rules`; `rule_checker` stands on it.
//! Its main contracts: `declare::declare_all` makes the scope that the definition `declared_all` makes, and notes the
//! rules that it says; `program::open_all` the same of all procedures, `opened_procedures`, with their interfaces.
#![tactic(auto)]

pub mod asked;
pub mod coshape;
pub mod declare;
pub mod entity;
pub mod fact;
pub mod grown;
pub mod heading;
pub mod interface;
pub mod limit;
pub mod procedure;
pub mod program;
pub mod scopes;
