//! The run of a program's code on images, and its report.
//! It stands on `image_machine`, whose machines run the code, on `full_report`, which runs them as images, on
//! `final_values`, which reads their variables, and on `machine_runs`, which ties their runs to the program's; the
//! command that runs programs stands on it.
//! Its main contract is that of `running::run_code`: the report is that of a run of each program whose walks the code
//! has (`IsProgramReport`), and so are its final values (`AreProgramFinals`).
#![tactic(auto)]

pub mod laws;
pub mod machines;
pub mod running;
