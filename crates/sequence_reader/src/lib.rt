//! The parts of a whole file read from its words, one behind the other (ISO/IEC 1539-1:2018, 5.1 and clause 11).
//! It stands on `part_reader`, `keyword_reader` and `declaration_reader`, whose functions read a part of each form, and
//! on `program_reader`, whose specs/Sequence says which forms a place allows and which place stands behind a part. Its
//! main contract is that of `sequence::parts`: it gives what `rest_reader` answers for the words of a whole file, all
//! of its parts, or where and why reading stops.
#![tactic(auto)]

pub mod form;
pub mod place;
pub mod sequence;
pub mod state;
