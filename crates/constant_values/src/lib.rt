//! Values of constant expressions (ISO/IEC 1539-1:2018, 10.1.12): what a typed expression stands for before the run,
//! and the extents that are known of it.
//! It stands on `caf_base`, `checked_tree`, `rule_definitions` and `scope_table`; the rules of declarations, of calls
//! and of CASE stand on it.
//! Its main contract: `value::value_of` gives what the definition of its name says.
#![tactic(auto)]

mod agreement;
mod arithmetic;
mod bounds;
mod chosen;
pub mod constancy;
mod designator;
mod expression;
mod extreme;
mod inquiry;
mod items;
mod known;
mod operation;
mod part;
mod relation;
mod selection;
pub mod value;
