//! Which construct is open where a source ends too early, by the grammar: its words go on to programs, and in the tree
//! of each the innermost construct that is open begins among the words and ends behind them. The definition is in
//! specs/Open and stands on `fortran_grammar`; the laws are over the parts of `program_reader`, and `file_reader`
//! stands on them. Main contract: that of `law::innermost_open` (the place that a reader of parts keeps for what is
//! open innermost is that of this construct, and no words have two such places).
#![tactic(auto)]

pub mod law;
