//! Laws of acts, in the words of the standard. Each is the contract of a function that does nothing.

ghost use Rattle.std.specs.Prelude.{◌≡◌, ◌<◌, ◌≤◌, ◌+◌, ℕ, ℤ, pos, [], ◌∷◌, ◌++◌, List, length, map, reverse, All};
ghost use Rattle.caf_base.specs.Arithmetic.{natural};
ghost use Rattle.coarray_types.specs.Coplaces.{Names};
ghost use Rattle.coarray_types.specs.Places.{AllWithin, subscript_order};
ghost use Rattle.coarray_types.specs.Sections.{elements_of};
ghost use Rattle.walk_theory.specs.Language.{goes_to};
ghost use Rattle.walk_theory.specs.Terms.{found};
ghost use Rattle.image_acts.specs.Acts.{team, make_current, leave_team};
ghost use Rattle.image_acts.specs.Meaning.{operate};
ghost use Rattle.image_acts.specs.Core.{Core, Own, Item, Portion, literal, literals, pushed};
ghost use Rattle.image_acts.specs.Operate.Printing.{spread, with_values_behind, with_literal_behind};
ghost use Rattle.image_acts.specs.Places.{Subscript, Place, place_within, offsets};
ghost use Rattle.image_acts.specs.Sections.{triplets_of};
ghost use Rattle.image_acts.specs.Teams.{index_of};

/// The index of cosubscripts among n images is that of the image that they name (ISO/IEC 1539-1:2018, 9.6).
pub fn law_index_is_named()
    ensures { (o : Own) (ss : List ℤ) (n : ℕ) → 0 < index_of o ss n → Names o.lowers o.extents ss (index_of o ss n) × (index_of o ss n ≤ n) }
{}

/// It is 0 only where they name none of them.
pub fn law_no_index_names_none()
    ensures { (o : Own) (ss : List ℤ) (n : ℕ) → index_of o ss n ≡ 0 → (i : ℕ) → Names o.lowers o.extents ss i → n < i }
{}

/// The cells of an element or section are those that the standard names (9.5.3.3), each within its bounds, at the
/// places of their subscript order values (9.5.3.2, Table 9.1), in array element order.
pub fn law_section_is_in_order()
    ensures { (bs : List (ℤ × ℤ)) (ss : List Subscript) (p : Place) → length ss ≡ length bs → place_within bs ss ≡ found p
        → All (AllWithin bs) (elements_of (triplets_of bs ss)) × (offsets p ≡ map (λ subs. pos (subscript_order bs subs)) (elements_of (triplets_of bs ss))) }
{}

/// END TEAM leaves the team that its CHANGE TEAM made current (11.1.5): with the teams of the block, which are those
/// that it began with, the last act of END TEAM gives the current team and its ancestors from before CHANGE TEAM.
pub fn law_end_team_leaves_the_team()
    ensures { (t : ℤ) (before block at_end after : Core) → operate (team make_current) (pushed t before) ≡ goes_to block → at_end.teams ≡ block.teams
        → operate (team leave_team) at_end ≡ goes_to after → (block.teams ≡ natural t ∷ before.teams) × (after.teams ≡ before.teams) }
{}

/// A PRINT writes its items one after another (12.6.3): a literal is one item more behind those that a text has, in
/// whatever portion it is kept, and values are as many more.
pub fn law_items_are_printed_in_order()
    ensures literals { (n : ℕ) (text : List ℕ) (ps : List Portion) → spread (reverse (with_literal_behind n text ps)) ≡ spread (reverse ps) ++ literal text ∷ [] }
    ensures values { (xs : List Item) (ps : List Portion) → spread (reverse (with_values_behind xs ps)) ≡ spread (reverse ps) ++ xs }
{}

/// The program's next literal takes no place behind the one before it, so that no number of literals side by side is
/// too many.
pub fn law_next_literal_takes_no_place()
    ensures { (n : ℕ) (text : List ℕ) (back : List (List ℕ)) (ps : List Portion) → length (with_literal_behind (n + 1) text (literals n back ∷ ps)) ≡ length (literals n back ∷ ps) }
{}
