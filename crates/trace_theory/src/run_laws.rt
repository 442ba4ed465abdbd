//! The lists of a run, and its trace.

ghost use Rattle.std.specs.Prelude.{◌≡◌, ℕ, List};
ghost use Rattle.trace_theory.specs.Entries.{of, IsTraceOrder};
ghost use Rattle.trace_theory.specs.Runs.{Woven, Adds, Front, TraceOf};

use crate::order_laws::Entries;

/// One more entry, at the end of its image's list and of its object's history and with the stamp that is due there,
/// keeps the lists of one run.
pub fn law_woven_more<E: Entries>()
    ensures { (events histories events' histories' : ℕ → List E.Entry) (e : E.Entry)
        → Woven E.image E.place E.stamp E.own events histories
        → Adds E.image E.place E.stamp E.own events histories events' histories' e → Woven E.image E.place E.stamp E.own events' histories' }
{}

/// Fronts of the lists of a run, in which an image and an object have the same entries of one another, are of one run.
pub fn law_woven_front<E: Entries>()
    ensures { (events histories events' histories' : ℕ → List E.Entry) → Woven E.image E.place E.stamp E.own events histories
        → Front E.image E.place events histories events' histories' → Woven E.image E.place E.stamp E.own events' histories' }
{}

/// A list in the order of a trace that has each image's list of one run has each object's history too, and the stamps
/// of a trace.
pub fn law_trace_of<E: Entries>()
    ensures { (events histories : ℕ → List E.Entry) (t : List E.Entry) → Woven E.image E.place E.stamp E.own events histories
        → IsTraceOrder E.image E.stamp t → ((i : ℕ) → of E.image i t ≡ events i) → TraceOf E.image E.place E.stamp E.own events histories t }
{}
