//! What the parts of SYNC IMAGES, ALLOCATE and DEALLOCATE name, and which coarrays a walk allocates.

ghost use Rattle.std.specs.Prelude.{ℕ, pos, Bool, List, [], ◌∷◌};
ghost use Rattle.walk_theory.specs.Syntax.{Parts, Steps};
ghost use Rattle.walk_theory.specs.Walks.{start, step};
ghost use Rattle.checked_tree.specs.declared.data.Object.{Object};
ghost use Rattle.checked_tree.specs.Statements as checked;
ghost use Rattle.image_acts.specs.Statuses.{bad_argument};
ghost use Rattle.image_acts.specs.Acts as acts;
ghost use Rattle.image_acts.specs.Acts.{Act, ask, stack, bounded, allocation, end_program};
ghost use Rattle.image_acts.specs.Core.{Core};
ghost use Rattle.image_acts.specs.Meaning.{image_language};
ghost use Rattle.tree_meaning.specs.Sequences.{◌▸◌, doing, pushing, choosing};
ghost use Rattle.tree_meaning.specs.Allocation.{planning, named_once, making, allocate_round, are_allocated, deallocate_round, freeing, objects_of, coarrays_in};
ghost use Rattle.told_walks.specs.Asked.{NamesTold};
ghost use Rattle.told_parts.specs.Allocating.{StepsActOn, WalksOfSet};

/// Behind the values that they take (ISO/IEC 1539-1:2018, 9.7.1, 9.7.3, 11.6.4), and before parts that name what is
/// there: SYNC IMAGES names members of one team, none twice;
/// ALLOCATE allocates coarrays that aren't there, all of which have room; DEALLOCATE deallocates coarrays that are
/// there. In the other case the status is that of a bad argument, and nothing is asked.
pub fn law_parts_name_told()
    ensures images { (rest : Parts Act) → NamesTold rest
        → NamesTold (doing (bounded acts.are_indices ∷ []) ▸ choosing (doing (ask acts.pair ∷ ask acts.unpair ∷ [])) (doing (stack acts.drop_array ∷ []) ▸ pushing bad_argument) ▸ rest) }
    ensures allocate { (xs : List checked.Allocation) (n : ℕ) (rest : Parts Act) → NamesTold rest
        → NamesTold (doing (allocation acts.begin_plan ∷ []) ▸ planning xs n ▸ doing (allocation acts.end_plan ∷ []) ▸ named_once (objects_of xs)
        ▸ choosing (making xs n ▸ allocate_round (coarrays_in (objects_of xs))) (pushing bad_argument) ▸ rest) }
    ensures deallocate { (xs : List Object) (rest : Parts Act) → NamesTold rest
        → NamesTold (pushing (pos 1) ▸ are_allocated xs ▸ named_once xs ▸ choosing (deallocate_round (coarrays_in xs) ▸ freeing xs) (pushing bad_argument) ▸ rest) }
{}

/// Where each act of all procedures that allocates or deallocates a coarray does so with one of a set, so does each ask
/// of the walk, whatever the replies are.
pub fn law_bodies_allocate()
    ensures { (f : ℕ → Bool) (procedures : ℕ → Steps Act) (limit line : ℕ) (first : Core) → ((n : ℕ) → StepsActOn f (procedures n))
        → WalksOfSet f (step image_language procedures limit) (start (ask end_program) line first) }
{}
