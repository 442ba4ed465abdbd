//! The first of the rules that are broken.

ghost use Rattle.std.specs.Prelude.{◌≡◌};
ghost use Rattle.rule_definitions.specs.Judgements.{breaks, comes_first, first_of};

use caf_base::place::Pos;
use rule_definitions::broken::Broken;

/// Whether one stands before the other in the source, or at the same place with a lower number.
pub fn is_before(one: Broken, other: Broken) -> bool
    ensures { result ≡ comes_first one other }
{
    if one.at.line != other.at.line {
        return one.at.line < other.at.line;
    }
    if one.at.col != other.at.col {
        return one.at.col < other.at.col;
    }
    one.rule < other.rule
}

/// Notes a broken rule at a place: `first` is the first of those noted so far, or none.
pub fn note(first: &mut Option<Broken>, rule: u8, at: Pos)
    ensures { first.new ≡ first_of first.old (breaks rule at) }
{
    let next = Broken { rule, at };
    match *first {
        Some(found) => {
            if is_before(next, found) {
                *first = Some(next);
            }
        }
        None => {
            *first = Some(next);
        }
    }
}
