//! Why a run is stuck: the chain of waits that its trace tells is that of its images, as far as their asks fit.
//! It stands on the reports of runs of checked programs and on `wait_chain`; it has laws alone, and nothing stands on
//! it.
//! Its main contracts are `law_stuck_reports`, with the premise that these asks fit, and `law_known_stuck_reports`,
//! which has it of sound programs from `next_fits`.
#![tactic(auto)]

pub mod laws;
