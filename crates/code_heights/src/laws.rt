//! Laws of heights. Each is the contract of a function that does nothing.

ghost use Rattle.std.specs.Prelude.{◌≡◌, ◌≤◌, ◌<◌, ◌*◌, ◌+◌, ℕ, Bool, true, List, Option, Some, length, slice_get};
ghost use Rattle.walk_theory.specs.Language.{Language};
ghost use Rattle.walk_theory.specs.Syntax.{Steps};
ghost use Rattle.walk_theory.specs.Code.{Line, State, code_step};
ghost use Rattle.walk_theory.specs.Made.{program_code};
ghost use Rattle.walk_theory.specs.Good.{IsGood, IsShallow};
ghost use Rattle.code_heights.specs.Heights.{IsSized, IsLevel, Piled, Stands, Keeps};
ghost use Rattle.code_heights.specs.MadeHeights.{AllEven, program_heights};
ghost use Rattle.code_heights.specs.Left.{left, LeavesLess};

/// A language, and one part of the stack of its cores: how many values stand there, how many a test takes, and how many
/// each act takes and leaves. Acts that end a program go nowhere.
pub trait Stacked {
    ghost Act: { Type 0 };

    ghost Core: { Type 0 };

    ghost Ask: { Type 0 };

    ghost Reply: { Type 0 };

    ghost language: { Language Act Core Ask Reply };

    ghost height: { Core → ℕ };

    ghost tested: { ℕ };

    ghost takes: { Act → ℕ };

    ghost leaves: { Act → ℕ };

    ghost ends: { Act → Bool };

    ghost limit: { ℕ };
}

/// Code with heights keeps to them: after each step, and after each ask with any reply, its stack is no higher.
pub fn law_code_keeps_to_its_heights<S: Stacked>()
    ensures { (code : List (Line S.Act)) → IsSized S.language S.height S.tested S.takes S.leaves S.ends code → (heights : ℕ → Option ℕ)
        → IsLevel S.tested S.takes S.leaves S.ends code heights → (d : State S.Core) → Stands {A = S.Act} S.height code heights d
        → Keeps {A = S.Act} S.height code heights {Q = S.Ask} {R = S.Reply} (code_step S.language code S.limit d) }
{}

/// Where no height is above `most`, no more than `most` for each body that waits, and for the one that runs, stand on
/// the stack.
pub fn law_heights_bound_the_stack<S: Stacked>()
    ensures { (code : List (Line S.Act)) (heights : ℕ → Option ℕ) (most : ℕ) → ((p h : ℕ) → heights p ≡ Some h → h ≤ most)
        → (d : State S.Core) → Piled {A = S.Act} S.height code heights d → S.height d.core ≤ most * (length d.returns + 1) }
{}

/// The code of a program has heights: where no act of the program takes more than stands there, each simple statement
/// leaves nothing and each test what a test takes.
pub fn law_made_code_has_heights<S: Stacked>()
    ensures { (last : S.Act) (line : ℕ) (bodies : List (Steps S.Act)) → S.takes last ≡ 0 → S.ends last ≡ true → AllEven S.tested S.takes S.leaves bodies
        → IsLevel S.tested S.takes S.leaves S.ends (program_code last line bodies) (λ p. slice_get (program_heights S.tested S.takes S.leaves bodies) p) }
{}

/// In good code less is left to do after each step, and after each ask with any reply.
pub fn law_less_is_left<S: Stacked>()
    ensures { (code : List (Line S.Act)) (deepest : ℕ) → ((c : S.Core) → S.language.frames c < deepest) → IsGood code → (d : State S.Core) → IsShallow deepest d
        → LeavesLess S.language code S.limit deepest (left S.language code S.limit deepest d) (code_step S.language code S.limit d) }
{}
