//! Whether extents agree (ISO/IEC 1539-1:2018, 15.5.2.4), as far as they are known before the run.

ghost use Rattle.std.specs.Prelude.{◌≡◌, map};
ghost use Rattle.rule_definitions.specs.Arguments.{agrees, all_agree};
ghost use Rattle.rule_definitions.specs.Constants.{known_extent};

use crate::bounds::{Bounds, extent, short_extent};
use scope_table::symbol::KnownBounds;

/// Whether the extents of two lists of dimensions agree.
pub(crate) fn all_agree(bounds: &[KnownBounds], found: &[Bounds]) -> bool
    ensures { result ≡ all_agree (map known_extent bounds.now) (map known_extent found.now) }
{
    let [first, others @ ..] = bounds else {
        return true;
    };
    let [dimension, further @ ..] = found else {
        return true;
    };
    if !agrees(*first, *dimension) {
        return false;
    }
    all_agree(others, further)
}

// Whether two extents are the same, where both are known.
#[tactic(auto, using(crate::proofs::Sizes::extents_capped))]
fn agrees(bounds: KnownBounds, found: Bounds) -> bool
    ensures { result ≡ agrees (known_extent bounds) (known_extent found) }
{
    match (bounds, found) {
        (Some(bounds), Some(found)) => short_extent(&bounds) == extent(found),
        (_, _) => true,
    }
}
