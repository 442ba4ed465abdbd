//! Positions behind statements and within constructs.

ghost use Rattle.std.specs.Prelude.{◌≡◌, ◌∷◌, ◌++◌, [], IfOk, OnOk, map};
ghost use Rattle.std.specs.Option.{option_map};
ghost use Rattle.branch_rules.specs.Sites.{around as construct_seen};
ghost use Rattle.part_rules.specs.Views.{judgement, list_of, one_more};
ghost use Rattle.rule_definitions.specs.Judgements.{both, fine as fine_of};
ghost use Rattle.statement_rules.specs.Positions.{numbered, numbers, position as seen};

use crate::statement::Position;
use branch_rules::site::Around;
use caf_base::refusal::NoMemory;
use part_rules::judged::{Judged, fine, keep};
use std::alloc::Global;

/// How many critical constructs and literals stand before a place in the program.
#[derive(Clone, Copy)]
pub struct Numbers {
    pub criticals: u32,
    pub literals: u32,
}

/// A part that was judged, and how many critical constructs and literals stand before what follows it.
#[derive(Drop)]
pub struct Passed<T> {
    pub judged: Judged<T>,
    pub behind: Numbers,
}

/// How many critical constructs and literals stand before a position.
pub fn numbers_before(position: Position<'_>) -> Numbers
    ensures { result ≡ numbers (seen position.entry) }
{
    Numbers {
        criticals: position.criticals,
        literals: position.literals,
    }
}

/// A position with these numbers.
pub fn moved<'a>(position: Position<'a>, numbers: Numbers) -> Position<'a>
    ensures { seen result ≡ numbered (seen position.entry) numbers }
{
    Position {
        scope: position.scope,
        around: position.around,
        criticals: numbers.criticals,
        literals: numbers.literals,
    }
}

/// A position within these constructs.
pub fn inside<'a>(position: Position<'a>, around: &'a [Around<'a>]) -> Position<'a>
    ensures { seen result ≡ record { scope = position.entry.scope.now; around = map construct_seen around.entry.now; criticals = position.entry.criticals; literals = position.entry.literals } }
{
    Position {
        scope: position.scope,
        around,
        criticals: position.criticals,
        literals: position.literals,
    }
}

/// The constructs around, and one more within them.
pub fn within<'a>(
    alloc: Global,
    around: &[Around<'a>],
    inner: Around<'a>,
) -> Result<Vec<Around<'a>>, NoMemory>
    ensures { IfOk result (λ v. map construct_seen v.items ≡ map construct_seen around.now ++ construct_seen inner.entry ∷ []) }
{
    let mut all = Vec::from_slice(alloc, around)?;
    all.push(inner)?;
    Ok(all)
}

/// No parts, before what stands at a position.
pub fn no_parts<T>(alloc: Global, position: Position<'_>) -> Passed<Vec<T>>
    ensures judged { judgement list_of result.judged ≡ fine_of [] }
    ensures behind { result.behind ≡ numbers (seen position.entry) }
{
    Passed {
        judged: fine(alloc, Vec::new(alloc)),
        behind: numbers_before(position),
    }
}

/// Puts a part behind the earlier ones of a list; there is no list where a part has no meaning.
pub fn keep_passed<T: Drop>(list: &mut Passed<Vec<T>>, item: Passed<T>) -> Result<(), NoMemory>
    ensures breaks { OnOk result (list.new.judged.breaks.items ≡ list.old.judged.breaks.items ++ item.judged.breaks.items) }
    ensures meaning { OnOk result (option_map list_of list.new.judged.meaning ≡ both one_more (option_map list_of list.old.judged.meaning) item.judged.meaning) }
    ensures behind { OnOk result (list.new.behind ≡ item.behind) }
{
    let Passed { judged, behind } = item;
    keep(&mut list.judged, judged)?;
    list.behind = behind;
    Ok(())
}
