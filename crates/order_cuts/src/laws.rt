//! What a cut of a trace has of it.

ghost use Rattle.std.specs.Prelude.{List, ◌<◌, ◌↔◌};
ghost use Rattle.order_theory.specs.Races.{Touching, Stands, place, Conflict};
ghost use Rattle.order_theory.specs.Acts.{View, edge_rules};
ghost use Rattle.order_theory.specs.Facts.{AccessesCell};
ghost use Rattle.order_cuts.specs.Cuts.{Likeness, IsCut, IsInside, IsNext};

/// Entries with the edges of the table, what two runs can have in common of an entry, and what is said of their
/// accesses.
pub trait Compared {
    ghost Entry: { Type 0 };

    ghost Mark: { Type 0 };

    ghost view: { View Entry };

    ghost likeness: { Likeness view Mark };

    ghost touching: { Touching Entry };
}

/// Of the accesses that conflict with the one that an image makes next behind a cut, the cut has exactly those that
/// stand before it in the trace.
pub fn law_cut<T: Compared>()
    ensures { (t f : List T.Entry) → IsCut T.view T.likeness T.touching t f → (w a : Stands t) → AccessesCell T.touching w.before w.event → AccessesCell T.touching a.before a.event
        → Conflict (edge_rules T.view) T.touching t w a → Conflict (edge_rules T.view) T.touching t a w → IsNext T.view T.likeness f a
        → IsInside T.view T.likeness f w ↔ place w < place a }
{}
