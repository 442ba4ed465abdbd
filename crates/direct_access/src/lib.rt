//! The acts that name an image for a part of a coarray, and those of the access to it, against what they mean (ISO/IEC
//! 1539-1:2018, 9.6). It stands on `direct_agreement`, and `direct_laws`, which goes over the forms of expressions,
//! stands on it: laws alone, beside the program. Its main contract is `law_access_reads_its_part`: one access, and the
//! part's value or the fault that the reply tells.
#![tactic(auto)]

pub mod laws;
