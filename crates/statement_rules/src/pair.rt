//! Two parts as one.

ghost use Rattle.std.specs.Prelude.{◌≡◌, ◌++◌, IfOk};
ghost use Rattle.rule_definitions.specs.Judgements.{both};

use caf_base::refusal::NoMemory;
use part_rules::judged::{Judged, joined};

/// Two parts that both have a meaning.
fn pair<A: Drop, B: Drop>(one: Option<A>, other: Option<B>) -> Option<(A, B)>
    ensures { result ≡ both (λ a b. (a, b)) one other }
{
    let Some(one) = one else {
        drop(other);
        return None;
    };
    let Some(other) = other else {
        drop(one);
        return None;
    };
    Some((one, other))
}

/// Two parts as one: what breaks in the first, then what breaks in the other; there is no meaning where one has none.
pub fn paired<A: Drop, B: Drop>(
    one: Judged<A>,
    other: Judged<B>,
) -> Result<Judged<(A, B)>, NoMemory>
    ensures breaks { IfOk result (λ j. j.breaks.items ≡ one.breaks.items ++ other.breaks.items) }
    ensures meaning { IfOk result (λ j. j.meaning ≡ both (λ a b. (a, b)) one.meaning other.meaning) }
{
    let Judged {
        breaks,
        meaning: first,
    } = one;
    let Judged {
        breaks: further,
        meaning: second,
    } = other;
    joined(breaks, further, pair(first, second))
}
