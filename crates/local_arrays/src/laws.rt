//! Laws of the steps on local arrays: what each act does to a core, by the definitions of this crate. Each is the
//! contract of a function that does nothing.

ghost use Rattle.std.specs.Prelude.{◌≡◌, ◌+◌, ◌-◌, nat_le, ℕ, List, Option, None, Some, length, replicate, cond, ◌==◌, ◌&&◌};
ghost use Rattle.coarray_types.specs.Places.{size_of};
ghost use Rattle.walk_theory.specs.Language.{goes_to};
ghost use Rattle.image_acts.specs.Acts as a;
ghost use Rattle.image_acts.specs.Core.{Core, Local, with_values};
ghost use Rattle.image_acts.specs.Faults.{room, shape_fault};
ghost use Rattle.image_acts.specs.Statuses.{most_cells};
ghost use Rattle.image_acts.specs.Frames.{array_in, with_array_in, arrays_of_frames, cells_in_frames, local_size, pairs_in, zeros_in};
ghost use Rattle.image_acts.specs.Places.{digits, numbers_of_form, place_in, place_numbers, place_size, subscripts_in, offsets};
ghost use Rattle.image_acts.specs.Taking.{given, found_in, unless, put_down, seeing, taking, taking_one, taking_array};
ghost use Rattle.image_acts.specs.Operate.Allocating.{allocation_effect, bounds_size};
ghost use Rattle.image_acts.specs.Operate.Bounds.{bounds_effect, same_extents};
ghost use Rattle.image_acts.specs.Operate.Calling.{call_effect, extents_of_bounds};
ghost use Rattle.image_acts.specs.Operate.Variables.{variable_effect, value_at, if_room};
ghost use Rattle.local_arrays.specs.Arrays.{loaded, overwritten, refilled, place_found, from_one, has_length};
ghost use Rattle.local_arrays.specs.Frames.{array_of, with_array};

/// An array of a core is that of its frames.
pub fn law_array_of_frames()
    ensures { (s : a.Scope) (x : ℕ) (c : Core) → array_in s x c ≡ array_of s x (arrays_of_frames c) }
{}

/// A core with another array, or none, has the frames with it.
pub fn law_changed_frames()
    ensures { (s : a.Scope) (x : ℕ) (v : Option Local) (c : Core) → arrays_of_frames (with_array_in s x v c) ≡ with_array s x v (arrays_of_frames c) }
{}

/// Section leaves the place that `section` finds.
pub fn law_section()
    ensures { (s : a.Scope) (x form : ℕ) (c : Core) → bounds_effect (a.section s x form) c
        ≡ taking (numbers_of_form (digits form)) c (λ vs d. found_in (place_found (array_in s x d) (subscripts_in (digits form) vs)) (λ p. goes_to (with_values d (put_down (place_numbers p) d.values)))) }
{}

/// Load gives the values that `element` and `check` find.
pub fn law_load()
    ensures { (s : a.Scope) (x rank : ℕ) (c : Core) → variable_effect (a.load s x rank) c
        ≡ taking (place_size rank) c (λ ns d. found_in (loaded (array_in s x d) (place_in ns)) (λ vs. value_at rank (place_in ns) vs d)) }
{}

/// Put does what `store` and `fill` do.
pub fn law_put()
    ensures { (s : a.Scope) (x rank : ℕ) (c : Core) → variable_effect (a.put s x rank) c
        ≡ taking (place_size rank) c (λ ns d. taking_one d (λ v e. found_in (loaded (array_in s x e) (place_in ns))
        (λ vs. goes_to (with_array_in s x (overwritten (place_in ns) (replicate (length (offsets (place_in ns))) v) (array_in s x e)) e)))) }
{}

/// PutArray does what `put` does.
pub fn law_put_array()
    ensures { (s : a.Scope) (x rank : ℕ) (c : Core) → variable_effect (a.put_array s x rank) c
        ≡ taking (place_size rank) c (λ ns d. taking_array d (λ y e. found_in (loaded (array_in s x e) (place_in ns))
        (λ vs. goes_to (with_array_in s x (overwritten (place_in ns) y.elements (array_in s x e)) e)))) }
{}

/// Free takes an array away that is there.
pub fn law_free()
    ensures { (s : a.Scope) (x : ℕ) (c : Core) → allocation_effect (a.free s x) c
        ≡ given (array_in s x c) (λ l. goes_to (record (with_array_in s x None c) { local_cells = c.local_cells - length l.elements })) }
{}

/// CopyIn does what `refill` does, where extents and the number of elements agree.
pub fn law_copy_in()
    ensures { (x : ℕ) (c : Core) → call_effect (a.copy_in x) c
        ≡ taking_array c (λ y d. given (array_in a.here x d) (λ l. unless shape_fault (same_extents y.extents (extents_of_bounds l) && (length y.elements == length l.elements))
        (goes_to (with_array_in a.here x (refilled y.elements (Some l)) d)))) }
{}

/// Make does what `lay` does, where there are local cells for it and it has three dimensions at most.
pub fn law_make()
    ensures { (s : a.Scope) (x depth rank : ℕ) (c : Core) → allocation_effect (a.make s x depth rank) c
        ≡ seeing depth (bounds_size rank) c (λ vs. unless room (nat_le (c.local_cells + size_of (pairs_in vs)) most_cells) (unless room (nat_le rank 3)
        (if_room (with_array_in s x (Some (zeros_in (pairs_in vs))) (record c { local_cells = c.local_cells + size_of (pairs_in vs) }))))) }
{}

/// LayOut does what `lay` does.
pub fn law_lay_out()
    ensures { (x rank : ℕ) (c : Core) → allocation_effect (a.lay_out x rank) c
        ≡ taking (bounds_size rank) c (λ vs d. unless room (nat_le rank 3) (if_room (with_array_in a.here x (Some (zeros_in (pairs_in vs))) d))) }
{}

/// PutImages does what `refill` does where the array has as many elements, and else what `renew` does, where there are
/// local cells for it.
pub fn law_put_images()
    ensures { (s : a.Scope) (x : ℕ) (c : Core) → variable_effect (a.put_images s x) c
        ≡ taking_array c (λ y d. cond (has_length (length y.elements) (array_in s x d)) (goes_to (with_array_in s x (refilled y.elements (array_in s x d)) d))
        (unless room (nat_le ((d.local_cells - local_size (array_in s x d)) + length y.elements) most_cells)
        (if_room (record (with_array_in s x (Some (from_one y.elements)) d) { local_cells = (d.local_cells - local_size (array_in s x d)) + length y.elements })))) }
{}

/// Where all arrays have room together with another one is what `lay` and `renew` test.
pub fn law_room()
    ensures { (s : a.Scope) (x n : ℕ) (v : Option Local) (c : Core)
        → if_room (record (with_array_in s x v c) { local_cells = n }) ≡ unless room (nat_le (cells_in_frames (with_array s x v (arrays_of_frames c))) c.array_room) (goes_to (record (with_array_in s x v c) { local_cells = n })) }
{}
