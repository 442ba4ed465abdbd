//! The acts of an access against what it means.

ghost use Rattle.direct_access.specs.Accesses.{AccessLaw};

/// The acts behind a place and an image make one access to the part, or none where it has no cell, and come for each
/// reply to its value, or to the fault that the reply tells. A status that no STAT= takes is dropped.
pub fn law_access_reads_its_part()
    ensures { AccessLaw }
{}
