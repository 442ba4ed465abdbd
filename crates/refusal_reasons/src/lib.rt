//! Why a file of Fortran is refused: no statement goes on with a token, or a level is open there that is one too many.
//! It stands on `program_reader`, of whose places and readers of parts the reason is told, and on `reader_theory`.
//! Main contract: the reason of a refusal is told by the statement that fails alone (`reasons_exactly`).
#![tactic(auto)]

pub mod law;
