//! The walk of a tree, and its acts as an evaluation.

ghost use Rattle.direct_meaning.specs.Told.{WalkLaw};

/// The walk of an expression's acts makes exactly the asks, and comes to exactly the faults and cores, that the acts
/// say as an evaluation.
pub fn law_walk_says_what_acts_say()
    ensures { WalkLaw }
{}
