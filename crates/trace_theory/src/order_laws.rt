//! Lists of entries in the order of a trace.

ghost use Rattle.std.specs.Prelude.{◌≡◌, ℕ, List};
ghost use Rattle.trace_theory.specs.Entries.{of, Rises, NeverFalls, IsTraceOrder};

/// Entries of a run: whose each one is, where it was made (0: at its image's own place, n + 1: at object n), its stamp,
/// and for an entry at its image's own place the stamp that is due to it after the image's last one.
pub trait Entries {
    ghost Entry: { Type 0 };

    ghost image: { Entry → ℕ };

    ghost place: { Entry → ℕ };

    ghost stamp: { Entry → ℕ };

    ghost own: { Entry → ℕ → ℕ };
}

/// A list whose stamps rise is told by each image's entries: another list with the same ones in which no stamp falls is
/// equal.
pub fn law_same_order<E: Entries>()
    ensures { (xs ys : List E.Entry) → Rises E.stamp xs → NeverFalls E.stamp ys → ((i : ℕ) → of E.image i xs ≡ of E.image i ys) → xs ≡ ys }
{}

/// There is one trace of the images' lists: two lists in the order of a trace with the same entries of each image are
/// equal.
pub fn law_one_trace<E: Entries>()
    ensures { (xs ys : List E.Entry) → IsTraceOrder E.image E.stamp xs → IsTraceOrder E.image E.stamp ys
        → ((i : ℕ) → of E.image i xs ≡ of E.image i ys) → xs ≡ ys }
{}
