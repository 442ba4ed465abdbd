//! What the walks of programs name, and which coarrays programs allocate.

ghost use Rattle.std.specs.Prelude.{ℕ, Bool};
ghost use Rattle.checked_tree.specs.Statements as checked;
ghost use Rattle.tree_meaning.specs.Forms.{bodies};
ghost use Rattle.tree_meaning.specs.Start.{start_of, walk_step};
ghost use Rattle.told_walks.specs.Asked.{WalksTold};
ghost use Rattle.told_parts.specs.Allocating.{BodiesActOn};
ghost use Rattle.told_programs.specs.First.{told_first};
ghost use Rattle.told_programs.specs.Allowed.{AllocatesOf};

/// Each walk of a program names what is there, as the image was told, whatever the replies are that answer its asks and
/// whose teams have numbers of 32 bits: no team but the initial one and those that its replies told before; by
/// IMAGE_STATUS an index of that team; by SYNC IMAGES members of one team, none twice; and it allocates what isn't
/// allocated on this image and has room there, and deallocates what is.
pub fn law_program_names_told_teams()
    ensures { (p : checked.Program) → (limit me images : ℕ) → WalksTold (told_first p me images) (walk_step p limit) (start_of p me images) }
{}

/// Where the statements of a program allocate and deallocate no coarrays but those of a set, END TEAM among them, so do
/// its acts.
pub fn law_program_allocates()
    ensures { (f : ℕ → Bool) (p : checked.Program) → AllocatesOf f p → BodiesActOn f (bodies p) }
{}
