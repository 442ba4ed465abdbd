//! The code of a checked program (ISO/IEC 1539-1:2018, 11.1, 15.6.2): of blocks and constructs, and of the whole
//! program with its procedures.
//! It stands on `statement_code`, which has the code of each simple statement and of the heads and ends of constructs,
//! and on `program_tables`; the machine runs what it makes.
//! Its main contract is `make`: the code is `program_code` of walk_theory for the bodies that `tree_meaning` gives the
//! program, so that it asks what the program's walk asks (`law_has_walks` there), and its tables are the program's.
//! `push_block` puts the code of a block behind a draft: what `steps_written` says, which by `law_steps_written` is
//! `steps_code` of walk_theory. A jump that goes on stands before what it passes: `block_size` says how long that is,
//! by drafts that only count.
//! `finish` of image_code refuses the code only where the program's ranks aren't right (`IsRankedProgram` of
//! made_code), and `make` says so.
#![tactic(auto)]

pub mod block;
pub mod head_size;
pub mod heads;
pub mod laws;
pub mod loops;
pub mod maker;
pub mod size;
