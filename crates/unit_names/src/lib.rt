//! What USE gives under names in the units of a file (ISO/IEC 1539-1:2018, 14.2.2), in blocks that units share.
//! It stands on `module_units`, whose specs/Visible says what lists of entities give under a name.
//! What a module hands on isn't copied: a unit has levels, the numbers of its blocks, and a block takes over others only
//! where they are no larger than it, so that a chain of modules is known in n log n steps.
//! Its main contracts: `levels::find_in` answers what levels give under a name, `levels::settle` puts a block more
//! behind them, and `lists::add_items`, `add_renames` and `add_kept` put into a block what a list of a USE statement
//! gives. proofs/Given and proofs/Renames say that this is what the lists of entities give.
#![tactic(auto)]

pub mod block;
pub mod entity;
pub mod levels;
pub mod lists;
