//! The laws of segment order, of the entries of a trace.

ghost use Rattle.std.specs.Prelude.{◌≡◌, ◌<◌, ◌↔◌, ℕ, List, ◌++◌, length};
ghost use Rattle.caf_events.specs.declared.event.Entry.{Entry};
ghost use Rattle.object_rules.specs.Cells.{Declared};
ghost use Rattle.core_runs.specs.Lawful.{IsLawfulTrace, made_memory};
ghost use Rattle.order_theory.specs.Order.{Precedes, segment_of};
ghost use Rattle.order_theory.specs.Acts.{entries};
ghost use Rattle.order_theory.specs.Races.{Cell, Stands, place, reads, Forward, NoRace, Justified};
ghost use Rattle.order_axioms.specs.Views.{view, edges};
ghost use Rattle.order_axioms.specs.Touching.{class_of, touches, accesses};
ghost use Rattle.order_axioms.specs.FirstRaces.{HasNoRace, IsFirstRace, Allowed};

/// Whether the segment of one entry precedes that of another depends only on the entries up to both.
pub fn law_prefixes()
    ensures { (n : ℕ) (t u : List Entry) (x y : Stands t) → Precedes (edges n) (t ++ u) (segment_of (entries (view n)) x.before x.event) (segment_of (entries (view n)) y.before y.event)
        ↔ Precedes (edges n) t (segment_of (entries (view n)) x.before x.event) (segment_of (entries (view n)) y.before y.event) }
{}

/// In a lawful trace an access in a segment that precedes another access's stands before it.
pub fn law_forward()
    ensures { (coarrays : List Declared) (n : ℕ) (t : List Entry) → IsLawfulTrace coarrays n t → Forward (edges n) touches t }
{}

/// In a lawful trace without a race among the first m entries each reference among them gives the value of the last
/// definition in segment order.
pub fn law_reads()
    ensures { (coarrays : List Declared) (n : ℕ) (t : List Entry) → IsLawfulTrace coarrays n t → (m : ℕ) → NoRace (edges n) touches t m
        → (x : Stands t) → class_of x.event ≡ reads → place x < m → Justified (edges n) (accesses (made_memory coarrays)) t x }
{}

/// A lawful trace is allowed up to the second entry of its first race, and as a whole where it has none.
pub fn law_allowed()
    ensures front { (coarrays : List Declared) (n : ℕ) (t : List Entry) → IsLawfulTrace coarrays n t → (p q : ℕ) (least : Cell) → IsFirstRace (edges n) touches t p q least
        → Allowed (edges n) (accesses (made_memory coarrays)) t q }
    ensures whole { (coarrays : List Declared) (n : ℕ) (t : List Entry) → IsLawfulTrace coarrays n t → HasNoRace (edges n) touches t
        → Allowed (edges n) (accesses (made_memory coarrays)) t (length t) }
{}
