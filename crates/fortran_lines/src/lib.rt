//! Free source form (ISO/IEC 1539-1:2018, 6.3.2, with the limits and the leave of docs/use/LANGUAGE.md): the bytes of a
//! file, joined into statements.
//! It stands on `caf_base` and `thiserror`; `fortran_tokens` stands on it, and so does `source_reader`, which reads a
//! file by both.
//! Its main contract is that of `join_lines`: the statements are exactly those that the lines of the file join to,
//! each byte with its place, and a refusal is the break of a rule before which no rule is broken in the file.
//! The definitions are in specs/Lines (lines and how they join) and specs/Faults (what is broken, and where first).
#![tactic(auto)]

pub mod context;
pub mod fault;
pub mod join;
pub mod law;
pub mod line;
pub mod placed_byte;
pub mod reading;
pub mod stmt;

pub use fault::LineFault;
pub use join::join_lines;
pub use stmt::Stmt;
