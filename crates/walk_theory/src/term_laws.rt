//! What parts and expressions leave.

ghost use Rattle.std.specs.Prelude.{◌≡◌, ℕ, List};
ghost use Rattle.walk_theory.specs.Language.{Language};
ghost use Rattle.walk_theory.specs.Syntax.{Parts, Steps};
ghost use Rattle.walk_theory.specs.Walks.{Task, at_parts};
ghost use Rattle.walk_theory.specs.Evaluation.{outcome, ComesTo};
ghost use Rattle.walk_theory.specs.Terms.{Term, Found, term_value, term_parts, TermActs, ValueComes};

use crate::walk_laws::Spoken;

/// A language with values, and its program: how a value is put down for the act that takes it, and what an operator
/// means for its operands' values.
pub trait Valued {
    ghost Act: { Type 0 };

    ghost Core: { Type 0 };

    ghost Ask: { Type 0 };

    ghost Reply: { Type 0 };

    ghost Value: { Type 0 };

    ghost language: { Language Act Core Ask Reply };

    ghost procedures: { ℕ → Steps Act };

    ghost limit: { ℕ };

    ghost put: { Value → Core → Core };

    ghost meaning: { Act → List Value → Core → Found Value };
}

/// The walk of parts that ask nothing and enter no procedure comes to what their plain evaluation comes to: what is
/// left, or the first fault.
pub fn law_parts_come<S: Spoken>()
    ensures { (p : Parts S.Act) (l : ℕ) (ts : List (Task S.Act)) (c : S.Core) (n : ℕ)
        → ComesTo S.language S.procedures S.limit (outcome S.language p c) l ts n (at_parts l p ts c n) }
{}

/// The walk of an expression leaves its value, operands evaluated before their operator and the left one first, or
/// comes to the first fault.
pub fn law_value_comes<S: Valued>()
    ensures { ((v : S.Value) (c : S.Core) → S.language.forget (S.put v c) ≡ S.language.forget c) → (t : Term S.Act)
        → TermActs S.language S.put S.meaning t → (l : ℕ) (ts : List (Task S.Act)) (c : S.Core) (n : ℕ)
        → ValueComes S.language S.put S.meaning S.procedures S.limit (term_value S.meaning t c) l ts c n (at_parts l (term_parts t) ts c n) }
{}
