//! The laws of files that hold the text of a trace.

ghost use Rattle.std.specs.Prelude.{◌≡◌, ◌≤◌, ◌++◌, ℕ, List, IsTrue};
ghost use Rattle.caf_events.specs.declared.ask.Ask.{Ask};
ghost use Rattle.caf_events.specs.declared.event.Entry.{Entry};
ghost use Rattle.caf_events.specs.declared.reply.Reply.{Reply};
ghost use Rattle.trace_theory.specs.Machines.{Said};
ghost use Rattle.object_rules.specs.Answering.{answers};
ghost use Rattle.object_rules.specs.Cells.{Declared};
ghost use Rattle.trace_forms.specs.Names.{AreNames};
ghost use Rattle.trace_forms.specs.Replies.{HasForm};
ghost use Rattle.trace_forms.specs.Files.{lines_of, Written, LinesWritten, WrittenForNone, IsBadLine};

/// A file is written for one trace at most.
pub fn law_written_once()
    ensures { (bytes : List ℕ) (names : List (List ℕ)) (t u : List Entry)
        → AreNames names → Written bytes names t → Written bytes names u → t ≡ u }
{}

/// The front of the lines of a file that is written for a trace is written for one. So where the first so many lines
/// are written for none, more of them aren't either.
pub fn law_front_written()
    ensures front { (xs ys names : List (List ℕ)) (t : List Entry)
        → LinesWritten (xs ++ ys) names t → (u : List Entry) × LinesWritten xs names u }
    ensures later { (ls names : List (List ℕ)) (j k : ℕ)
        → j ≤ k → WrittenForNone ls names j → WrittenForNone ls names k }
{}

/// A file with a bad line is written for no trace, and it has one bad line at most.
pub fn law_bad_line()
    ensures none { (bytes : List ℕ) (names : List (List ℕ)) (line : ℕ) (t : List Entry)
        → IsBadLine (lines_of bytes) names line → Written bytes names t → ⊥ }
    ensures one { (ls names : List (List ℕ)) (j k : ℕ) → IsBadLine ls names j → IsBadLine ls names k → j ≡ k }
{}

/// A reply that answers an ask, after what its image said and heard, has one of the forms that a line can show.
pub fn law_answer_has_form()
    ensures { (coarrays : List Declared) (n : ℕ) (heard : List (Said Ask Reply)) (ask : Ask) (reply : Reply)
        → IsTrue (answers coarrays n heard ask reply) → HasForm ask reply }
{}
