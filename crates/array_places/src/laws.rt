//! A law of bounds. It is the contract of a function that does nothing.

ghost use Rattle.std.specs.Prelude.{◌≡◌, ◌<◌, ℤ, List};
ghost use Rattle.coarray_types.specs.Places.{size_of};
ghost use Rattle.image_acts.specs.Places.{spread_of};

/// Where an array has an element, counting an empty dimension as one changes nothing of its size (5.4.6): so
/// `section::place_of` may be asked for the places of each array that has an element and fits in memory.
pub fn law_spread_is_size()
    ensures { (bs : List (ℤ × ℤ)) → 0 < size_of bs → spread_of bs ≡ size_of bs }
{}
