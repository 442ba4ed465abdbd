//! Laws of walks whose asks fit. Each is the contract of a function that does nothing.

ghost use Rattle.std.specs.Prelude.{◌≡◌, ℕ, Bool, List, []};
ghost use Rattle.trace_theory.specs.Entries.{Each};
ghost use Rattle.trace_theory.specs.Machines.{Said, Walk};
ghost use Rattle.caf_events.specs.declared.ask.Ask.{Ask};
ghost use Rattle.caf_events.specs.declared.reply.Reply.{Reply};
ghost use Rattle.walk_theory.specs.Syntax.{Steps};
ghost use Rattle.walk_theory.specs.Walks.{Config, start, step};
ghost use Rattle.object_rules.specs.Cells.{Declared};
ghost use Rattle.image_acts.specs.Acts.{Act, ask, end_program};
ghost use Rattle.image_acts.specs.Core.{Core};
ghost use Rattle.image_acts.specs.Meaning.{image_language};
ghost use Rattle.cell_walks.specs.Fitting.{Sizes, IsSound, TellsImages, StepsFit, AllFit};

/// Where the blocks of a program fit, each ask of its walks fits, whatever the replies are that tell of images of the
/// run alone. Of coarrays those alone are read that may be read.
pub fn law_walks_fit()
    ensures { (n me : ℕ) (coarrays : List Declared) (readable : ℕ → Bool) (procedures : ℕ → Steps Act) (limit : ℕ) → ((k : ℕ) → StepsFit n me coarrays readable (procedures k))
        → (line : ℕ) (sizes : Sizes) (first : Core) → IsSound n me sizes first → first.values ≡ [] → (es : List (Said Ask Reply)) (c : Config Act Core)
        → Each (λ (x : Said Ask Reply). TellsImages n x.reply) es → Walk (step image_language procedures limit) (start (ask end_program) line first) es c → AllFit n me coarrays readable sizes es }
{}
