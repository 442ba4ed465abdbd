//! The laws of what images are told.

ghost use Rattle.std.specs.Prelude.{◌≡◌, ℕ, List, [], ◌∷◌, ◌++◌, IsTrue};
ghost use Rattle.caf_events.specs.declared.ask.Ask.{Ask};
ghost use Rattle.caf_events.specs.declared.reply.Reply.{Reply};
ghost use Rattle.caf_events.specs.declared.event.Entry.{Entry};
ghost use Rattle.trace_theory.specs.Machines.{Said};
ghost use Rattle.object_rules.specs.Cells.{Declared};
ghost use Rattle.object_rules.specs.Answering.{answers, AnswersFrom};
ghost use Rattle.core_runs.specs.CoreRuns.{said_by};
ghost use Rattle.core_runs.specs.Lawful.{IsLawfulTrace};
ghost use Rattle.answer_laws.specs.Told.{IsTold, AllTold};

/// In a lawful trace each reply to an image answers its ask, after what the image said and heard before, where the ask
/// names no team but one that the image was told.
pub fn law_replies_answer()
    ensures { (coarrays : List Declared) (n : ℕ) (t : List Entry) → IsLawfulTrace coarrays n t
        → (i : ℕ) (before after : List (Said Ask Reply)) (e : Said Ask Reply) → said_by i t ≡ before ++ e ∷ after
        → IsTold before e.ask → IsTrue (answers coarrays n before e.ask e.reply) }
{}

/// So each image that names no team but those that it was told hears answers alone, from its first ask to its last.
pub fn law_all_answered()
    ensures { (coarrays : List Declared) (n : ℕ) (t : List Entry) → IsLawfulTrace coarrays n t
        → (i : ℕ) → AllTold [] (said_by i t) → AnswersFrom coarrays n [] (said_by i t) }
{}
