//! What the line says.

ghost use Rattle.std.specs.Prelude.{◌≡◌, ◌↔◌, ℕ, List};
ghost use Rattle.caf_events.specs.declared.event.Entry.{Entry};
ghost use Rattle.caf_report.specs.declared.report.End.{End};
ghost use Rattle.every_order.specs.Decided.{IsDecided};
ghost use Rattle.order_lines.specs.Bars.{TellsRace};
ghost use Rattle.order_lines.specs.Lines.{every_order_text, IsOrderLine};

/// The line of a run whose end tells the first race of its trace is `every order` exactly where the trace is decided.
pub fn law_exact()
    ensures { (n : ℕ) (t : List Entry) (end : End) (text : List ℕ) → TellsRace n t end → IsOrderLine n t end text → (text ≡ every_order_text) ↔ IsDecided n t }
{}
