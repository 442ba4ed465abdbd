//! Laws of walks whose values are of their kinds. Each is the contract of a function that does nothing.

ghost use Rattle.std.specs.Prelude.{◌≡◌, ℕ, List, None};
ghost use Rattle.trace_theory.specs.Machines.{Said, Walk};
ghost use Rattle.caf_events.specs.declared.ask.Ask.{Ask};
ghost use Rattle.caf_events.specs.declared.reply.Reply.{Reply};
ghost use Rattle.walk_theory.specs.Syntax.{Steps};
ghost use Rattle.walk_theory.specs.Walks.{Config, start, step};
ghost use Rattle.object_rules.specs.Cells.{Declared};
ghost use Rattle.image_acts.specs.Acts.{Act, ask, end_program};
ghost use Rattle.image_acts.specs.Core.{Core};
ghost use Rattle.image_acts.specs.Meaning.{image_language};
ghost use Rattle.kind_walks.specs.Kinds.{Layout, Typing, IsSo};
ghost use Rattle.kind_walks.specs.Suiting.{IsIn, BodiesSuit, AllTell, AllSuit};

/// Where the bodies of a program suit, each ask of its walks does, where the replies bring what they should.
pub fn law_walks_suit()
    ensures { (coarrays : List Declared) (n : ℕ) (layouts : ℕ → Layout) (procedures : ℕ → Steps Act) (limit : ℕ) → BodiesSuit coarrays n layouts procedures
        → (line : ℕ) (s : Typing) → IsIn coarrays n layouts 0 s → (first : Core) → IsSo n s first → (es : List (Said Ask Reply)) (c : Config Act Core) → AllTell coarrays None es
        → Walk (step image_language procedures limit) (start (ask end_program) line first) es c → AllSuit coarrays es }
{}
