//! The names that a procedure declares (ISO/IEC 1539-1:2018, 15.6.2, 19.4), which come first in its scope.
//! It stands on `module_units`, whose specs/Visible says which they are.
//! Its main contract: `Locals::contains` tells whether a name is one of them, by a map and never by a search.
#![tactic(auto)]

pub mod locals;
