//! The items of portions, one after another.

ghost use Rattle.std.specs.Prelude.{◌≡◌, ◌<◌, ◌+◌, [], ◌∷◌, ◌++◌, length, IfSome, IfNone, IsTrue, IsFalse, Some};
ghost use Rattle.print_text.specs.Items.{in_portions, in_run, items_left, passes_left};
ghost use Rattle.print_text.specs.declared.item.Item.TheVariants.{Literal};

use crate::item::{Item, Portion};

/// Literals of a portion that are left: it begins with the one with this number, so many of them are gone, and so many
/// stand behind the first one in all.
#[derive(Clone, Copy)]
struct Run {
    first: u32,
    gone: u32,
    more: u32,
}

/// Items that are left: those of a portion that was begun, where there is one, and those of the portions behind it.
#[derive(Clone, Copy)]
pub struct Items<'a> {
    run: Option<Run>,
    portions: &'a [Portion],
}

/// The literals behind the first one of these.
fn behind(run: Run) -> Option<Run>
    ensures { in_run (Some run) ≡ Literal (run.first + run.gone) ∷ in_run result }
{
    if run.gone >= run.more {
        return None;
    }
    Some(Run {
        first: run.first,
        gone: run.gone + 1,
        more: run.more,
    })
}

impl<'a> Items<'a> {
    /// All items of portions.
    pub fn new(portions: &'a [Portion]) -> Items<'a>
        ensures { items_left result ≡ in_portions portions.now }
    {
        Items {
            run: None,
            portions,
        }
    }

    /// Whether none is left.
    pub fn is_empty(self) -> bool
        ensures none { IsTrue result → items_left self.entry ≡ [] }
        ensures some { IsFalse result → 0 < length (items_left self.entry) }
    {
        self.split_first().is_none()
    }

    /// The first one, and those behind it.
    pub fn split_first(self) -> Option<(Item, Items<'a>)>
        ensures some { IfSome result (λ r. items_left self.entry ≡ r.0 ∷ items_left r.1) }
        ensures none { IfNone result (items_left self.entry ≡ []) }
    {
        match self.run {
            Some(run) => Some(first_of(run, self.portions)),
            None => first_in(self.portions),
        }
    }

    /// Those behind the first one; nothing where none is left. So many passes over a format may come behind one with
    /// these items.
    pub fn further(self) -> Option<Items<'a>>
        ensures { passes_left result ≡ length (items_left self.entry) }
    {
        match self.split_first() {
            Some((_first, rest)) => Some(rest),
            None => None,
        }
    }
}

/// The first one of literals, and what stands behind it.
fn first_of(run: Run, portions: &[Portion]) -> (Item, Items<'_>)
    ensures { in_run (Some run) ++ in_portions portions.now ≡ result.0 ∷ items_left result.1 }
{
    let number = run.first as usize + run.gone as usize;
    let run = behind(run);
    (Item::Literal(number), Items { run, portions })
}

/// The first item of portions, and those behind it.
fn first_in(portions: &[Portion]) -> Option<(Item, Items<'_>)>
    ensures some { IfSome result (λ r. in_portions portions.now ≡ r.0 ∷ items_left r.1) }
    ensures none { IfNone result (in_portions portions.now ≡ []) }
{
    let (first, rest) = portions.split_first()?;
    Some(match first {
        Portion::Integer(value) => (Item::Integer(*value), Items::new(rest)),
        Portion::Logical(value) => (Item::Logical(*value), Items::new(rest)),
        Portion::Literals(number, more) => first_of(
            Run {
                first: *number,
                gone: 0,
                more: *more,
            },
            rest,
        ),
    })
}
