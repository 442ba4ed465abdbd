//! What the tables say of the start of an image (ISO/IEC 1539-1:2018, 5.3.5). Each law is the contract of a function
//! that does nothing.

ghost use Rattle.std.specs.Prelude.{◌≡◌, map};
ghost use Rattle.checked_tree.specs.Statements as checked;
ghost use Rattle.tree_meaning.specs.Start as start;
ghost use Rattle.program_tables.specs.Tables.{frame_kept, own_kept, tables_of};

/// The main program's frame begins as the meaning of the program says.
pub fn law_frame_is_the_first()
    ensures { (p : checked.Program) → frame_kept (tables_of p).main ≡ start.first_frame p }
{}

/// The coarrays that are there are those that are there by its meaning.
pub fn law_coarrays_are_the_first()
    ensures { (p : checked.Program) → map own_kept (tables_of p).coarrays ≡ start.own_coarrays p }
{}
