//! What stands on the stack for subscripts and places is read back.

ghost use Rattle.direct_agreement.specs.Stacked.{ReadsPlaces, ReadsSubscripts};

/// At most three section subscripts are read back from the digits of their form and from their numbers.
pub fn law_subscripts_are_read_back()
    ensures { ReadsSubscripts }
{}

/// A place is read back from its numbers.
pub fn law_places_are_read_back()
    ensures { ReadsPlaces }
{}
