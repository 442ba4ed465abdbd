//! Laws of the grammar that no caller runs.

ghost use Rattle.fortran_grammar.specs.Laws.{TestIsExact, CanonicalIsAllowed};

/// The computed test of words says exactly which tokens are a word of a phrase; the tries in proofs/ rest on it.
pub fn test_is_exact()
    ensures { TestIsExact }
{}

/// The canonical tokens of a program that some tokens are read as are read as it too, but for places.
pub fn canonical_is_allowed()
    ensures { CanonicalIsAllowed }
{}
