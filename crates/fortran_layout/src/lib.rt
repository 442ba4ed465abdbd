//! Tokens laid in lines of 1,000 bytes at most, as the canonical spelling lays them: one blank between two, long lines
//! and literals continued.
//! It stands on `fortran_grammar`, whose tokens it lays, and on `fortran_tokens` and `fortran_tree` for signs and
//! kinds; `fortran_print` stands on it.
//! A page is seen as its text and how many bytes its last line has (`Sheet`).
//! Its main contracts: `Page::put`, `sign`, `number`, `literal` and `over` do exactly what specs/Layout says of their
//! token, or answer `NoMemory`; `laid_lines_fit` says that the lines are never too long, `signs_are_spelled` that signs
//! are spelled as `fortran_tokens` cuts them.
#![tactic(auto)]

pub mod law;
pub mod page;
