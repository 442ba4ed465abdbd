//! The merge of the images' lists.

ghost use Rattle.std.specs.Prelude.{◌≡◌, ℕ, List, [], ◌∷◌, ◌++◌};
ghost use Rattle.trace_theory.specs.Entries.{of, Rises, IsTraceOrder};
ghost use Rattle.trace_theory.specs.Merging.{Merges, Takes};

use crate::order_laws::Entries;

/// A merge begins with nothing taken from lists whose stamps rise.
pub fn law_merges_start<E: Entries>()
    ensures { (events : ℕ → List E.Entry) → ((i : ℕ) → Rises E.stamp (events i)) → Merges E.image E.stamp events events [] }
{}

/// A merge goes on by the least of the first entries, and by the one of the least image where their stamps are the
/// same.
pub fn law_merges_more<E: Entries>()
    ensures { (events rest rest' : ℕ → List E.Entry) (out : List E.Entry) (e : E.Entry) → Merges E.image E.stamp events rest out
        → Takes E.image E.stamp rest rest' e → Merges E.image E.stamp events rest' (out ++ e ∷ []) }
{}

/// Where nothing is left, what was taken has each image's list.
pub fn law_merges_all<E: Entries>()
    ensures { (events rest : ℕ → List E.Entry) (out : List E.Entry) → Merges E.image E.stamp events rest out → ((i : ℕ) → rest i ≡ [])
        → (i : ℕ) → of E.image i out ≡ events i }
{}
