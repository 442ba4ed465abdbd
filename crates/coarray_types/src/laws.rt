//! Laws of array element order: a subscript list and its offset, and a cosubscript list and its image, belong to each
//! other.

ghost use Rattle.std.specs.Prelude.{◌≡◌, ◌≤◌, ◌<◌, ℕ, ℤ, pos, List, length, map, All};
ghost use Rattle.caf_base.specs.Spans.{offsets_from};
ghost use Rattle.coarray_types.specs.Places.{size_of, AllWithin, subscript_order};
ghost use Rattle.coarray_types.specs.Coplaces.{HasCobounds, Names};
ghost use Rattle.coarray_types.specs.Sections.{Triplet, firsts_of, elements_of, dims_of};

/// Each element of an array has a place below the size, no two have the same, and each place below the size is one's.
pub fn law_places()
    ensures below { (dims : List (ℤ × ℤ)) (subs : List ℤ) → AllWithin dims subs → subscript_order dims subs < size_of dims }
    ensures once { (dims : List (ℤ × ℤ)) (these those : List ℤ) → AllWithin dims these → AllWithin dims those → subscript_order dims these ≡ subscript_order dims those → these ≡ those }
    ensures each { (dims : List (ℤ × ℤ)) (n : ℕ) → n < size_of dims → (subs : List ℤ) × AllWithin dims subs × (subscript_order dims subs ≡ n) }
{}

/// Cosubscripts name one image, each image from 1 on has cosubscripts that name it, and no two lists name the same.
pub fn law_images()
    ensures one { (lowers extents subs : List ℤ) (image other : ℕ) → Names lowers extents subs image → Names lowers extents subs other → image ≡ other }
    ensures once { (lowers extents these those : List ℤ) (image : ℕ) → Names lowers extents these image → Names lowers extents those image → these ≡ those }
    ensures each { (lowers extents : List ℤ) (image : ℕ) → HasCobounds lowers extents → 1 ≤ image → (subs : List ℤ) × Names lowers extents subs image }
{}

/// The cells of a section's span are the places of the section's elements in the array, in the section's array element
/// order; and no dimension of the span is of one cell, where no triplet is empty.
pub fn law_sections()
    ensures cells { (dims : List (ℤ × ℤ)) (triplets : List Triplet) → length triplets ≡ length dims → All (AllWithin dims) (elements_of triplets) → offsets_from (pos (subscript_order dims (firsts_of triplets))) (dims_of 1 dims triplets) ≡ map (λ subs. pos (subscript_order dims subs)) (elements_of triplets) }
    ensures wide { (dims : List (ℤ × ℤ)) (triplets : List Triplet) → All (λ t. 1 ≤ t.count) triplets → All (λ d. 2 ≤ d.0) (dims_of 1 dims triplets) }
{}
