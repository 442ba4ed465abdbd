//! Statement lists and programs without calls.

ghost use Rattle.direct_flow.specs.Laws.{BlockLaw, ProgramLaw};

/// The walk of a block makes the asks that the meaning of its statements says, at their lines, in states that are the
/// same but for hidden cells, for each reply; comes to their faults, and to the limit of statements where it is passed;
/// and goes on where the meaning says, with as many statements counted. Hidden cells of constructs around the block
/// stay, and it is left as ready for what follows as it was.
pub fn law_block_does_what_it_means()
    ensures { BlockLaw }
{}

/// The walk of a program without calls makes the asks that its meaning says, from the start of each image on, up to the
/// last one.
pub fn law_program_does_what_it_means()
    ensures { ProgramLaw }
{}
