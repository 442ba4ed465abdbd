//! Parts of expressions, as far as they are known: integers of subscripts and triplets.

ghost use Rattle.std.specs.Prelude.{◌≡◌};
ghost use Rattle.rule_definitions.specs.Constants as rules;
ghost use Rattle.constant_values.specs.Views.{part};

/// A part that may be missing. Nothing is known of a written one that isn't a constant integer.
#[derive(Clone, Copy)]
pub(crate) enum Part {
    Unwritten,
    Written(Option<i64>),
}

/// A subscript or triplet.
#[derive(Clone, Copy)]
pub(crate) enum Section {
    Element(Option<i64>),
    Triplet {
        lower: Part,
        upper: Part,
        stride: Part,
    },
}

/// A part, or what holds where none is written.
pub(crate) fn part_or(written: Part, other: i64) -> Option<i64>
    ensures { result ≡ rules.part_or (part written) other }
{
    match written {
        Part::Unwritten => Some(other),
        Part::Written(number) => number,
    }
}

/// A bound of a triplet, or what is known of that of its dimension where none is written.
pub(crate) fn end_or(written: Part, other: Option<i64>) -> Option<i64>
    ensures { result ≡ rules.end_or (part written) other }
{
    match written {
        Part::Unwritten => other,
        Part::Written(number) => number,
    }
}
