//! Flat code: its steps, each of which is one act on the core of an image, a count, or a way on in the code; and the
//! draft that becomes code.
//! It stands on `image_acts`, whose acts its steps are, and on `code_heights`. What makes code stands on it, and the
//! machine that runs it.
//! Its main contract is `CodeDraft::finish`: it gives code exactly where no instruction of the draft is bad, and else
//! the place of the first bad one.
//! The instruction table is `instr_of` (specs/Table); docs/build/MACHINE.md has it in words.
#![tactic(auto)]

pub mod code;
mod finish;
pub mod laws;
pub mod shape;
pub mod step;
pub mod tables;
