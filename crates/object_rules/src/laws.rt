//! What one more entry makes of a memory and of the rounds of a team.

ghost use Rattle.std.specs.Prelude.{◌≡◌, ℕ, ℤ, true, IsTrue, List, [], ◌∷◌, ◌++◌, Some};
ghost use Rattle.std.specs.List.{list_all};
ghost use Rattle.caf_events.specs.declared.ask.Ask.{Ask};
ghost use Rattle.caf_events.specs.declared.reply.Reply.{Reply};
ghost use Rattle.caf_events.specs.declared.event.Entry.{Entry};
ghost use Rattle.caf_events.specs.Histories.{Served};
ghost use Rattle.trace_theory.specs.Machines.{Said};
ghost use Rattle.object_rules.specs.Scans.{or_else};
ghost use Rattle.object_rules.specs.Happenings.{Happening};
ghost use Rattle.object_rules.specs.TeamRounds.{at_close};
ghost use Rattle.object_rules.specs.Cells.{MadeMemory, written, value_after};
ghost use Rattle.object_rules.specs.MemoryRules.{has_first_values, memory_ready, memory_reply};
ghost use Rattle.object_rules.specs.Answering.{answers};

/// The value of a cell after one more entry is what that writes to it, else the value before.
pub fn law_value_more()
    ensures { (m : MadeMemory) (h : List Entry) (e : Entry) (coarray : ℕ) (offset : ℤ)
        → value_after m (h ++ e ∷ []) coarray offset ≡ or_else (written m coarray offset e.event.ask e.event.reply) (value_after m h coarray offset) }
{}

/// A round that has closed stays closed, and by the same place, whatever happens then: so its status stays too (ISO/IEC
/// 1539-1:2018, 11.6.11).
pub fn law_closed_stays()
    ensures { (members : List ℕ) (team round : ℕ) (hs front : List Happening) (x : Happening)
        → at_close members team round hs ≡ Some front → at_close members team round (hs ++ x ∷ []) ≡ Some front }
{}

/// After a history that a memory served the reply that is due answers its ask, whatever the image said and heard
/// before: a read has as many values as cells, and each value is of its coarray's type and kind. Each static coarray of
/// values has a first value of its kind for each of its cells.
pub fn law_memory_answers()
    ensures { (m : MadeMemory) (h : List Entry) → list_all has_first_values m.coarrays ≡ true → Served (memory_ready m) (memory_reply m) [] h
        → (n : ℕ) (before : List (Said Ask Reply)) (i : ℕ) (ask : Ask) → IsTrue (memory_ready m h i ask) → IsTrue (answers m.coarrays n before ask (memory_reply m h i ask)) }
{}
