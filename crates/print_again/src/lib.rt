//! What is printed of a program is read again as the same program but for places.
//! It stands on `fortran_print`, whose canonical spelling is read, and on `source_reader`, which says what a source is
//! read as, with the layers below it.
//! specs/Unplaced sets the places of a tree to one and the same; specs/Spelled says which tokens are read again as they
//! are laid.
//! Its main contract is that of `print_is_read_again`: of a program that some source has, the canonical spelling is a
//! source too, of one program, the same but for places.
//! It holds no code: its functions are laws over the definitions of those crates.
#![tactic(auto)]

pub mod law;
