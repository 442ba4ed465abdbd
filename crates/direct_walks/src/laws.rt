//! The walk of parts.

ghost use Rattle.direct_walks.specs.Walking.{PartsLaw};

/// Where the acts of parts agree with an evaluation to which hidden cells mean nothing, the walk of the parts makes its
/// asks, in its states but for hidden cells, and comes to its value, put down as the acts do, in the same frame, or to
/// its fault.
pub fn law_walk_says_what_agrees()
    ensures { PartsLaw }
{}
