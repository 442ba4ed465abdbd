//! SYNC IMAGES and CRITICAL (ISO/IEC 1539-1:2018, 11.6.4, 11.1.6): how many times each image has named each other one,
//! and who is inside a construct. It stands on `failure_status` and on the definitions of `object_rules`; the control
//! board stands on it.
//! Its main contracts: `Pairs` is what has happened by the definition of corresponding SYNC IMAGES, with the status at
//! the close; `Criticals` holds for each construct who is inside, by the definition's fold.
#![tactic(auto)]

pub mod criticals;
pub mod inside;
pub mod pairs;
pub mod row;
pub mod rows;
