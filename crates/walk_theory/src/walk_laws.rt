//! Walks by tasks.

ghost use Rattle.std.specs.Prelude.{◌≡◌, ℕ, ◌+◌, ◌<◌, List, [], ◌∷◌, ◌++◌};
ghost use Rattle.trace_theory.specs.Machines.{goes, asks, Said, Walk, ComesToRest};
ghost use Rattle.walk_theory.specs.Language.{faults, Language};
ghost use Rattle.walk_theory.specs.Syntax.{Parts, act, Steps, exit, cycle, «return»};
ghost use Rattle.walk_theory.specs.Walks.{Loop, Task, again, back, backs, Config, to, at_statement, at_parts, step};
ghost use Rattle.walk_theory.specs.Nesting.{loops};

/// A language and its program: acts, cores, what it asks and hears, what its acts do, which reply answers which ask,
/// its procedures by number, and how many statements may be counted.
pub trait Spoken {
    ghost Act: { Type 0 };

    ghost Core: { Type 0 };

    ghost Ask: { Type 0 };

    ghost Reply: { Type 0 };

    ghost language: { Language Act Core Ask Reply };

    ghost answers: { Ask → Reply → Type 0 };

    ghost procedures: { ℕ → Steps Act };

    ghost limit: { ℕ };
}

/// Each configuration of a walk comes to an ask or ends.
pub fn law_ends<S: Spoken>()
    ensures { (c : Config S.Act S.Core) → ComesToRest (step S.language S.procedures S.limit) c }
{}

/// An act that faults changes nothing: the walk asks where it stands, and with the reply what was being evaluated is
/// dropped and nothing is left to do.
pub fn law_fault_changes_nothing<S: Spoken>()
    ensures { (a : S.Act) (q : Parts S.Act) (l k n : ℕ) (ts : List (Task S.Act)) (c : S.Core) → S.language.operate a c ≡ faults k
        → step S.language S.procedures S.limit (at_parts l (act a q) ts c n) ≡ asks (S.language.fault k) l (λ r. to [] (S.language.forget c) n) }
{}

/// Where nothing is left to do nothing more is said, and nothing changes.
pub fn law_nothing_after<S: Spoken>()
    ensures { (es : List (Said S.Ask S.Reply)) (c : S.Core) (n : ℕ) (d : Config S.Act S.Core)
        → Walk (step S.language S.procedures S.limit) (to [] c n) es d → (es ≡ []) × (d ≡ to [] c n) }
{}

/// EXIT (ISO/IEC 1539-1:2018, 11.1.12) leaves the loop that it names and all that is inside it: the walk goes on behind
/// that loop, with the same core.
pub fn law_exit_leaves<S: Spoken>()
    ensures { (inner ts : List (Task S.Act)) (m : Loop S.Act) (l n : ℕ) (rest : Steps S.Act) (c : S.Core) → backs inner ≡ 0 → n < S.limit
        → step S.language S.procedures S.limit (at_statement l (exit (loops inner)) rest (inner ++ again m ∷ ts) c n) ≡ goes (to ts c (n + 1)) }
{}

/// CYCLE (11.1.7.4.4) leaves all that is inside the loop that it names: the walk goes on at the end of that loop's
/// iteration, with the same core.
pub fn law_cycle_leaves<S: Spoken>()
    ensures { (inner ts : List (Task S.Act)) (m : Loop S.Act) (l n : ℕ) (rest : Steps S.Act) (c : S.Core) → backs inner ≡ 0 → n < S.limit
        → step S.language S.procedures S.limit (at_statement l (cycle (loops inner)) rest (inner ++ again m ∷ ts) c n) ≡ goes (to (again m ∷ ts) c (n + 1)) }
{}

/// RETURN (15.6.2.7) leaves all that is inside the procedure's body: the walk goes on at the end of that body, with the
/// same core.
pub fn law_return_leaves<S: Spoken>()
    ensures { (inner ts : List (Task S.Act)) (l n : ℕ) (rest : Steps S.Act) (c : S.Core) → backs inner ≡ 0 → n < S.limit
        → step S.language S.procedures S.limit (at_statement l «return» rest (inner ++ back ∷ ts) c n) ≡ goes (to (back ∷ ts) c (n + 1)) }
{}
