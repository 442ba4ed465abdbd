//! What a lawful trace gives the recorder.

ghost use Rattle.std.specs.Prelude.{◌≡◌, ◌<◌, ◌^◌, ℕ, List, ◌∷◌, ◌++◌, length};
ghost use Rattle.caf_events.specs.declared.event.Entry.{Entry};
ghost use Rattle.object_rules.specs.Cells.{Declared};
ghost use Rattle.core_runs.specs.Lawful.{IsLawfulTrace};
ghost use Rattle.race_watch.specs.Recorded.{FitsRun};

/// Each entry of a lawful trace is such as the recorder takes.
pub fn law_fits()
    ensures { (coarrays : List Declared) (n : ℕ) (t g h : List Entry) (e : Entry) → IsLawfulTrace coarrays n t → t ≡ g ++ e ∷ h → length t < 2 ^ 62 → FitsRun n g e }
{}
