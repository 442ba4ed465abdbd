//! That what an image writes by an assignment is of the coarray's kind, and its variables keep values of their kinds,
//! where the parts of the program's statements are of the types and kinds that their places want.
//! It stands on `kind_expressions`, which says that expressions leave values of their kinds, and on `kind_walks`, whose
//! `BodiesSuit` its main contract, `law_bodies_suit`, gives where calls of intrinsic subroutines suit.
#![tactic(auto)]

pub mod laws;
