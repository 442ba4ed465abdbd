//! The runs of machines whose code has the walks of a checked program are the runs of the program: definitions and laws
//! alone.
//! It stands on `image_machine`, on `program_walks`, which tells the run of a checked program in the words of its tree,
//! and on what is below; a run of full programs stands on it.
//! Its main contracts: the machine says what the program says (`law_machine_says_as_its_program`), so that the core
//! runs, the ordered runs and the waits of lanes over machines are those of the program (`law_machine_core_runs`,
//! `law_machine_ordered`, `law_machine_waits`), where an image stands its program has computed the same
//! (`law_machine_stands`), and the run is fit (`law_machine_fit`).
#![tactic(auto)]

pub mod laws;
