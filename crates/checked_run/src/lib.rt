//! A checked program runs and gives its report: the code of the program, its coarrays with their names and first
//! values, and the run of the code on images.
//! It stands on `code_maker`, which makes the code, on `code_walks` and `accepted_ranks`, which say that the code has
//! the program's walks and that no accepted program is refused by the maker, and on `program_run`, which runs code; the
//! command that runs programs stands on it.
//! Its main contract is that of `running::run_checked`: the report is that of the run of the program itself
//! (`IsRunOf`), or the machine can't run it (`CanRun`), which is a property of the program alone.
#![tactic(auto)]

mod coarrays;
pub mod names;
pub mod runnable;
pub mod running;
