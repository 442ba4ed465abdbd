//! The iterations of a counted loop (ISO/IEC 1539-1:2018, 11.1.7.4).

ghost use Rattle.std.specs.Prelude.{◌≡◌, ℕ, suc, ◌+◌, ◌<◌, List, ◌∷◌, Option, Some};
ghost use Rattle.trace_theory.specs.Machines.{goes, Said, Comes, WalkTo};
ghost use Rattle.walk_theory.specs.Syntax.{Parts, Steps, «loop»};
ghost use Rattle.walk_theory.specs.Walks.{Loop, Task, run, to, at_statement, at_test, at_body, step};
ghost use Rattle.walk_theory.specs.Evaluation.{leaves, outcome};
ghost use Rattle.walk_theory.specs.Iterations.{IsCounted, Iterations};

use crate::walk_laws::Spoken;

/// A loop of which r iterations and more are left makes r iterations, and then so many are left.
pub fn law_iterations_walk<S: Spoken>()
    ensures { (left : S.Core → Option ℕ) (m : Loop S.Act) → IsCounted S.language left m
        → (r more : ℕ) (ts : List (Task S.Act)) (c d : S.Core) (n k : ℕ) (es : List (Said S.Ask S.Reply)) → left c ≡ Some (r + more)
        → Iterations S.language S.procedures S.limit left m r c n es d k
        → WalkTo (step S.language S.procedures S.limit) (at_test m ts c n) es (at_test m ts d k) × (left d ≡ Some more) }
{}

/// Where an iteration is left the loop counts one statement and begins its body.
pub fn law_one_more_iteration<S: Spoken>()
    ensures { (left : S.Core → Option ℕ) (m : Loop S.Act) → IsCounted S.language left m → (ts : List (Task S.Act)) (c : S.Core) (n r : ℕ)
        → left c ≡ Some (suc r) → n < S.limit
        → Comes (step S.language S.procedures S.limit) (at_test m ts c n) (goes (at_body m ts c (n + 1))) }
{}

/// A statement that is a loop with the iteration count r makes r iterations, these ones, and then the statement behind
/// it comes next.
pub fn law_counted_loop<S: Spoken>()
    ensures { (left : S.Core → Option ℕ) (m : Loop S.Act) → IsCounted S.language left m
        → (start : Parts S.Act) (rest : Steps S.Act) (ts : List (Task S.Act)) (b c d : S.Core) (n r k : ℕ) (es : List (Said S.Ask S.Reply))
        → n < S.limit → outcome S.language start b ≡ leaves c → left c ≡ Some r
        → Iterations S.language S.procedures S.limit left m r c (n + 1) es d k
        → WalkTo (step S.language S.procedures S.limit) (at_statement m.line («loop» start m.next m.test m.body) rest ts b n) es (to (run rest ∷ ts) d k) }
{}
