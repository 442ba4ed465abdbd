//! The law of the entries of lawful traces. It is the contract of a function that does nothing.

ghost use Rattle.std.specs.Prelude.{◌≡◌, ℕ, List, [], length};
ghost use Rattle.trace_theory.specs.Entries.{Each};
ghost use Rattle.caf_events.specs.declared.event.Entry.{Entry};
ghost use Rattle.object_rules.specs.Cells.{Declared};
ghost use Rattle.core_runs.specs.Beginnings.{IsOneOf};
ghost use Rattle.core_runs.specs.CoreRuns.{said_by};
ghost use Rattle.core_runs.specs.Lawful.{IsLawfulTrace};
ghost use Rattle.answer_laws.specs.Told.{AllTold};
ghost use Rattle.trace_text.specs.Forms.{Second};
ghost use Rattle.trace_forms.specs.Shown.{HaveTexts};
ghost use Rattle.lawful_texts.specs.Ranges.{IsInRange, IsThreefold};

/// The entries of a lawful trace can be shown by lines, where each image names no team but those that it was told, as
/// many names are there as coarrays, the numbers of the entries are those of the code's types, and no section has more
/// than three dimensions: each ask of a memory has a span of an access, of a coarray that is declared; each team that
/// an ask names has a team number; and each reply has one of the forms that answer its ask.
pub fn law_lawful_has_texts()
    ensures { (names : List (List ℕ)) (coarrays : List Declared) (n : ℕ) (t : List Entry) → length names ≡ length coarrays
        → IsLawfulTrace coarrays n t → ((i : ℕ) → IsOneOf n i → AllTold [] (said_by i t)) → Each (IsInRange names) t
        → Each (λ e. IsThreefold e.event.ask) t → HaveTexts Second names [] t }
{}
