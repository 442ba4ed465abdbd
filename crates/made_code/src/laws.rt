//! Laws of made code. Each is the contract of a function that does nothing.

ghost use Rattle.std.specs.Prelude.{◌≡◌, ℕ, List};
ghost use Rattle.caf_events.specs.Answers.{Answers};
ghost use Rattle.walk_theory.specs.Made.{program_code};
ghost use Rattle.walk_theory.specs.Programs.{HasWalksOf};
ghost use Rattle.checked_tree.specs.Statements as checked;
ghost use Rattle.image_acts.specs.Acts.{ask, end_program};
ghost use Rattle.image_acts.specs.Meaning.{image_language};
ghost use Rattle.image_code.specs.Code.{Program, code_of};
ghost use Rattle.image_code.specs.Draft.{shapes, IsBad};
ghost use Rattle.tree_meaning.specs.Forms.{bodies};
ghost use Rattle.tree_meaning.specs.Start.{first_core};
ghost use Rattle.made_code.specs.Ranks.{IsRankedProgram};

/// No instruction is bad in the code of a program whose ranks are right: its ways stay in the code, nothing is taken
/// that isn't there, each body goes back with nothing of its own on the stack, and all paths to an instruction have one
/// height.
pub fn law_ranked_code_is_never_bad()
    ensures { (p : checked.Program) (made : Program) → IsRankedProgram p → code_of made ≡ program_code (ask end_program) p.end_line (bodies p)
        → (at : ℕ) → IsBad (shapes made.steps) at → ⊥ }
{}

/// The code of a program has the walks of its tree, on each image of any number of them: it asks what the tree asks, at
/// the same lines, with the same cores and counts, and the other way round.
pub fn law_made_code_has_walks()
    ensures { (p : checked.Program) (made : Program) → code_of made ≡ program_code (ask end_program) p.end_line (bodies p)
        → (limit me images : ℕ)
        → HasWalksOf image_language Answers (ask end_program) (bodies p) p.end_line limit (first_core p me images) (code_of made) }
{}
