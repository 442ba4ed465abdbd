//! What an entry does to the cells that it touches.

ghost use Rattle.std.specs.Prelude.{◌≡◌};
ghost use Rattle.order_theory.specs.Races.{is_access, is_atomic, defines, is_making, meets};
ghost use Rattle.order_theory.specs.Marks.{outranks};
ghost use Rattle.order_axioms.specs.Touching.{atomic_class};
ghost use Rattle.race_watch.specs.Classes.{as_class};

use caf_base::value::AtomicOp;

/// A reference, a definition, an atomic reference, another atomic action, an allocation or deallocation, or an action
/// on a lock or event.
#[derive(Clone, Copy, PartialEq, Eq, Debug)]
pub enum Class {
    Reads,
    Writes,
    Looks,
    Changes,
    Makes,
    Signals,
}

impl Class {
    /// What an atomic action does (16.5).
    pub fn of_atomic(op: AtomicOp) -> Class
        ensures { as_class result ≡ atomic_class op }
    {
        match op {
            AtomicOp::Ref => Class::Looks,
            _ => Class::Changes,
        }
    }

    fn is_access(self) -> bool
        ensures { result ≡ is_access (as_class self) }
    {
        !matches!(self, Class::Signals)
    }

    fn is_atomic(self) -> bool
        ensures { result ≡ is_atomic (as_class self) }
    {
        matches!(self, Class::Looks | Class::Changes)
    }

    fn defines(self) -> bool
        ensures { result ≡ defines (as_class self) }
    {
        matches!(self, Class::Writes | Class::Changes | Class::Makes)
    }

    fn is_making(self) -> bool
        ensures { result ≡ is_making (as_class self) }
    {
        matches!(self, Class::Makes)
    }

    /// Whether two of these at one cell are a conflict (ISO/IEC 1539-1:2018, 11.6.2).
    pub fn meets(self, other: Class) -> bool
        ensures { result ≡ meets (as_class self) (as_class other) }
    {
        if self.is_access() && other.is_access() {
            (self.defines() || other.defines()) && !(self.is_atomic() && other.is_atomic())
        } else {
            self.is_making() || other.is_making()
        }
    }

    /// Whether a mark of this class may take the place of one of the other: it meets each class that that one meets.
    pub fn outranks(self, other: Class) -> bool
        ensures { result ≡ outranks (as_class self) (as_class other) }
    {
        match self {
            Class::Makes => true,
            Class::Writes => !matches!(other, Class::Makes),
            Class::Reads => matches!(other, Class::Reads),
            Class::Looks => matches!(other, Class::Looks),
            Class::Changes => matches!(other, Class::Changes),
            Class::Signals => matches!(other, Class::Signals),
        }
    }
}
