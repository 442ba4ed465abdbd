//! Machines that go by small steps and ask.

ghost use Rattle.std.specs.Prelude.{◌≡◌, ℕ, suc, List, [], ◌∷◌, ◌+◌, ◌++◌};
ghost use Rattle.trace_theory.specs.Machines.{Move, goes, asks, Said, goes_on, go, Comes, Walk, WalkTo, OneNextAsk, ComesToRest, Falls, Onward};

/// A machine: its configurations, what it asks, what it hears, and its step; where all is well with it, what it counts,
/// and what is left to do before the next count.
pub trait Machine {
    ghost Config: { Type 0 };

    ghost Ask: { Type 0 };

    ghost Reply: { Type 0 };

    ghost step: { Config → Move Config Ask Reply };

    ghost well: { Config → Type 0 };

    ghost count: { Config → ℕ };

    ghost rest: { Config → ℕ };
}

/// A configuration has at most one next ask.
pub fn law_one_next_ask<M: Machine>()
    ensures { OneNextAsk M.step }
{}

/// Steps and then more steps are one run of steps.
pub fn law_go_more<M: Machine>()
    ensures { (n m : ℕ) (c : M.Config) → go M.step (n + m) c ≡ goes_on (go M.step n c) (go M.step m) }
{}

/// A walk goes on by the next ask and its reply.
pub fn law_walk_more<M: Machine>()
    ensures { (c d : M.Config) (es : List (Said M.Ask M.Reply)) (e : Said M.Ask M.Reply) (k : M.Reply → M.Config) → Walk M.step c es d
        → Comes M.step d (asks e.ask e.line k) → Walk M.step c (es ++ e ∷ []) (k e.reply) }
{}

/// A machine that stands at its ask, hears the reply and goes on to its next stop has walked one further.
pub fn law_walk_to_more<M: Machine>()
    ensures { (c d e : M.Config) (es : List (Said M.Ask M.Reply)) (s : Said M.Ask M.Reply) (k : M.Reply → M.Config) → WalkTo M.step c es d
        → M.step d ≡ asks s.ask s.line k → (n : ℕ) → go M.step n (k s.reply) ≡ goes e → WalkTo M.step c (es ++ s ∷ []) e }
{}

/// One walk after another is a walk.
pub fn law_walk_to_join<M: Machine>()
    ensures { (c d e : M.Config) (es fs : List (Said M.Ask M.Reply)) → WalkTo M.step c es d → WalkTo M.step d fs e
        → WalkTo M.step c (es ++ fs) e }
{}

/// A machine that counts below a limit, and has less and less left to do between two counts, comes to an ask or ends.
pub fn law_ends_by_falling<M: Machine>()
    ensures { (limit : ℕ) → ((c : M.Config) → M.well c → Falls M.well M.count M.rest limit c (M.step c)) → (c : M.Config) → M.well c
        → ComesToRest M.step c }
{}

/// After several steps of such a machine that ask nothing less is left to do, or more is counted.
pub fn law_falls_along<M: Machine>()
    ensures { (limit : ℕ) → ((c : M.Config) → M.well c → Falls M.well M.count M.rest limit c (M.step c))
        → (n : ℕ) (c d : M.Config) → M.well c → go M.step (suc n) c ≡ goes d → Onward M.well M.count M.rest limit c d }
{}
