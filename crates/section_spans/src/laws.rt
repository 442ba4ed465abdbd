//! The law of spans. It is the contract of a function that does nothing.

ghost use Rattle.std.specs.Prelude.{◌≡◌, ◌≤◌, ℕ, ℤ, true, List, length};
ghost use Rattle.coarray_types.specs.Places.{size_of};
ghost use Rattle.caf_base.specs.Spans.{offsets_of};
ghost use Rattle.walk_theory.specs.Terms.{found};
ghost use Rattle.image_acts.specs.Statuses.{most_cells, most_access_cells};
ghost use Rattle.image_acts.specs.Places.{Subscript, Place, place_within, cells_of, offsets};
ghost use Rattle.image_acts.specs.Operate.Asking.{span_of};
ghost use Rattle.object_rules.specs.SpanTests.{is_span};

/// An element or a section of an array (ISO/IEC 1539-1:2018, 9.5.3.3) is asked for by a span, where the array has no
/// more cells than an image may have, and the section has cells, and no more than an access may have: the span is of
/// the section's cells, in their order.
pub fn law_section_is_a_span()
    ensures { (coarray : ℕ) (bs : List (ℤ × ℤ)) (ss : List Subscript) (p : Place) → size_of bs ≤ most_cells → place_within bs ss ≡ found p → 1 ≤ cells_of p → cells_of p ≤ most_access_cells
        → (is_span (span_of coarray p) ≡ true) × (offsets_of (span_of coarray p) ≡ offsets p) × (length (offsets p) ≡ cells_of p) }
{}
