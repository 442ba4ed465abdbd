//! The run of full programs and its report: machines that are given run as images, over coarray memories and the
//! control board, in the order of a SEED or on workers.
//! It stands on `full_parts` for the first parts, on `crew` for the workers and on `order_report`, which makes the run
//! or what is left of it and its report; what runs a program's code (`program_run`) stands on it.
//! Its main contract is that of `running::run_images`: the report is that of the run of lanes over the machines
//! (`IsImagesReport`), and the parts that remain are at the end of that run (`IsEndMoment`).
#![tactic(auto)]

pub mod running;
pub mod way;
