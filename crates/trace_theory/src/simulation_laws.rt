//! Two machines of which one does what the other does.

ghost use Rattle.std.specs.Prelude.{◌≡◌, ℕ, List};
ghost use Rattle.trace_theory.specs.Machines.{Move, Said, Walk, WalkTo, Rests, ComesToRest};
ghost use Rattle.trace_theory.specs.Equivalence.{SameWalks, Lasts};
ghost use Rattle.trace_theory.specs.Simulations.{Simulates, AllAnswer, SameRest, RestsNear, Advances};

/// Two machines with the same asks and replies, when they stand alike, what is the same of them after each reply and
/// where both stop, and which reply answers which ask.
pub trait Pair {
    ghost Source: { Type 0 };

    ghost Target: { Type 0 };

    ghost Ask: { Type 0 };

    ghost Reply: { Type 0 };

    ghost source: { Source → Move Source Ask Reply };

    ghost target: { Target → Move Target Ask Reply };

    ghost alike: { Source → Target → Type 0 };

    ghost after: { Source → Target → Type 0 };

    ghost near: { Source → Target → Type 0 };

    ghost answers: { Ask → Reply → Type 0 };
}

/// What the source says and hears, its target says and hears, and they stand alike after it.
pub fn law_simulated<P: Pair>()
    ensures { Simulates P.alike P.answers P.source P.target → (c e : P.Source) (d : P.Target) (es : List (Said P.Ask P.Reply))
        → AllAnswer P.answers es → P.alike c d → Walk P.source c es e → (f : P.Target) × P.alike e f × Walk P.target d es f }
{}

/// What the target says and hears, the source says and hears, where the source comes to an ask or ends wherever they
/// stand alike.
pub fn law_simulated_back<P: Pair>()
    ensures { Simulates P.alike P.answers P.source P.target → ((c : P.Source) (d : P.Target) → P.alike c d → ComesToRest P.source c)
        → (c : P.Source) (d f : P.Target) (es : List (Said P.Ask P.Reply)) → AllAnswer P.answers es → P.alike c d → Walk P.target d es f
        → (e : P.Source) × P.alike e f × Walk P.source c es e }
{}

/// Where the source walks to a stop, the target walks to the same stop near it.
pub fn law_rests_onward<P: Pair>()
    ensures { Simulates P.alike P.answers P.source P.target → RestsNear P.alike P.near P.source P.target
        → (c c' : P.Source) (d : P.Target) (es : List (Said P.Ask P.Reply)) → AllAnswer P.answers es → P.alike c d → WalkTo P.source c es c'
        → Rests (P.source c') → (d' : P.Target) × WalkTo P.target d es d' × P.near c' d' × SameRest (P.source c') (P.target d') }
{}

/// Where the target walks to a stop, the source walks to the same stop near it, where the source comes to an ask or
/// ends wherever they stand alike.
pub fn law_rests_backward<P: Pair>()
    ensures { Simulates P.alike P.answers P.source P.target → RestsNear P.alike P.near P.source P.target
        → ((c : P.Source) (d : P.Target) → P.alike c d → ComesToRest P.source c)
        → (c : P.Source) (d d' : P.Target) (es : List (Said P.Ask P.Reply)) → AllAnswer P.answers es → P.alike c d → WalkTo P.target d es d'
        → Rests (P.target d') → (c' : P.Source) × WalkTo P.source c es c' × P.near c' d' × SameRest (P.source c') (P.target d') }
{}

/// Where the source comes to an ask or ends, the target does.
pub fn law_ends_too<P: Pair>()
    ensures { Simulates P.alike P.answers P.source P.target → (c : P.Source) (d : P.Target) → P.alike c d → ComesToRest P.source c
        → ComesToRest P.target d }
{}

/// Where the target comes to an ask or ends, the source does, if each step of the source takes the target a step or
/// more.
pub fn law_ends_before<P: Pair>()
    ensures { ((c : P.Source) (d : P.Target) → P.alike c d → Advances P.alike P.target (P.source c) d) → (c : P.Source) (d : P.Target)
        → P.alike c d → ComesToRest P.target d → ComesToRest P.source c }
{}

/// A simulation whose source comes to an ask or ends wherever they stand alike gives both machines the same walks.
pub fn law_same_walks<P: Pair>()
    ensures { Simulates P.alike P.answers P.source P.target → RestsNear P.alike P.near P.source P.target
        → ((x : P.Source) (y : P.Target) → P.alike x y → ComesToRest P.source x) → ((x : P.Source) (y : P.Target) → P.alike x y → P.after x y)
        → (c : P.Source) (d : P.Target) → P.alike c d → SameWalks P.answers P.after P.near P.source c P.target d }
{}

/// The same walks, seen from the other machine.
pub fn law_same_walks_back<P: Pair>()
    ensures { (c : P.Source) (d : P.Target) → SameWalks P.answers P.after P.near P.source c P.target d
        → SameWalks P.answers (λ y x. P.after x y) (λ y x. P.near x y) P.target d P.source c }
{}

/// Where the source comes to an ask or ends wherever they stand alike, each walk of the target comes to an ask or ends.
pub fn law_lasts_too<P: Pair>()
    ensures { Simulates P.alike P.answers P.source P.target → ((c : P.Source) (d : P.Target) → P.alike c d → ComesToRest P.source c)
        → (c : P.Source) (d : P.Target) → P.alike c d → Lasts P.answers P.target d }
{}

/// A source each step of which takes the target a step or more has the same walks as the target, where each walk of the
/// target comes to an ask or ends.
pub fn law_same_walks_over<P: Pair>()
    ensures { Simulates P.alike P.answers P.source P.target → RestsNear P.alike P.near P.source P.target
        → ((c : P.Source) (d : P.Target) → P.alike c d → Advances P.alike P.target (P.source c) d)
        → ((c : P.Source) (d : P.Target) → P.alike c d → P.after c d) → (c : P.Source) (d : P.Target) → P.alike c d
        → Lasts P.answers P.target d → SameWalks P.answers P.after P.near P.source c P.target d }
{}
