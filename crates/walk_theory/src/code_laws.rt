//! Flat code.

ghost use Rattle.std.specs.Prelude.{◌≡◌, ◌<◌, ℕ, List, length};
ghost use Rattle.trace_theory.specs.Machines.{ComesToRest, Falls};
ghost use Rattle.walk_theory.specs.Language.{Language};
ghost use Rattle.walk_theory.specs.Syntax.{Steps};
ghost use Rattle.walk_theory.specs.Code.{Line, State, code_step};
ghost use Rattle.walk_theory.specs.Good.{IsGood, IsShallow, rest};
ghost use Rattle.walk_theory.specs.Made.{Places, steps_code, steps_size, program_code};
ghost use Rattle.walk_theory.specs.Programs.{HasWalksOf};
ghost use Rattle.walk_theory.specs.Wide.{Wides, Placed, Unfolds, Covers, HasWideWalksOf};

use crate::walk_laws::Spoken;

/// The code of a block has the size of the block.
pub fn law_steps_long<S: Spoken>()
    ensures { (starts : ℕ → ℕ) (loops : List Places) (place : ℕ) (block : Steps S.Act)
        → length (steps_code starts loops place block) ≡ steps_size block }
{}

/// The code of a program has its walks: it asks what the program asks, at the same lines, with the same cores and
/// counts, and the other way round.
pub fn law_has_walks<S: Spoken>()
    ensures { (last : S.Act) (bodies : List (Steps S.Act)) (line : ℕ) (first : S.Core)
        → HasWalksOf S.language S.answers last bodies line S.limit first (program_code last line bodies) }
{}

/// The code of a program is good: each of its jumps goes on, or to a count.
pub fn law_made_code_is_good<S: Spoken>()
    ensures { (last : S.Act) (line : ℕ) (bodies : List (Steps S.Act)) → IsGood (program_code last line bodies) }
{}

/// In good code, after a step that asks nothing, less is left to do before the next count, or one more is counted below
/// the limit.
pub fn law_code_falls<S: Spoken>()
    ensures { (code : List (Line S.Act)) (deepest : ℕ) → ((c : S.Core) → S.language.frames c < deepest) → IsGood code → (d : State S.Core)
        → IsShallow deepest d
        → Falls (IsShallow deepest) (λ (e : State S.Core). e.count) (rest code deepest) S.limit d (code_step S.language code S.limit d) }
{}

/// Each state of good code comes to an ask or ends.
pub fn law_good_code_ends<S: Spoken>()
    ensures { (code : List (Line S.Act)) (deepest : ℕ) → ((c : S.Core) → S.language.frames c < deepest) → IsGood code → (d : State S.Core)
        → IsShallow deepest d → ComesToRest (code_step S.language code S.limit) d }
{}

/// A language with wide steps: what they do, and what is kept of a core while the steps that one stands for are done.
pub trait Widened {
    ghost Act: { Type 0 };

    ghost Core: { Type 0 };

    ghost Ask: { Type 0 };

    ghost Reply: { Type 0 };

    ghost Wide: { Type 0 };

    ghost Kept: { Type 0 };

    ghost language: { Language Act Core Ask Reply };

    ghost answers: { Ask → Reply → Type 0 };

    ghost limit: { ℕ };

    ghost wides: { Wides Act Core Ask Reply Wide };

    ghost kept: { Core → Kept };
}

/// Code of wide steps, each of which stands where the steps that it stands for stand and does what they do, has the
/// walks of the program.
pub fn law_has_wide_walks<S: Widened>()
    ensures { (last : S.Act) (bodies : List (Steps S.Act)) (line : ℕ) (first : S.Core)
        → Unfolds S.language S.wides (program_code last line bodies) S.limit S.kept → (wides : List (Placed S.Wide))
        → Covers S.language S.wides (program_code last line bodies) S.limit wides
        → HasWideWalksOf S.language S.wides S.kept S.answers last bodies line S.limit first (program_code last line bodies) wides }
{}
