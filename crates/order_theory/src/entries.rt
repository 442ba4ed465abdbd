//! What the laws speak of: a trace's entries with the edges of the table.

ghost use Rattle.order_theory.specs.Races.{Accesses};
ghost use Rattle.order_theory.specs.Acts.{View};

/// Entries with the edges of the table: what segment order sees of them, and what is said of their accesses.
pub trait Traced {
    ghost Entry: { Type 0 };

    ghost Value: { Type 0 };

    ghost view: { View Entry };

    ghost accesses: { Accesses Entry Value };
}
