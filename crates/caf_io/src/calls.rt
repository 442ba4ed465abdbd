//! The calls of a source or a sink in memory, and which of them fail.

ghost use Rattle.std.specs.Prelude.{◌≡◌, ◌≤◌};
ghost use Rattle.caf_io.specs.Calls.{one_more, fails_next, called, faulted};

use std::marker::Model;

/// How many calls were made and how many failed, and the numbers of those that fail, counted from 1.
#[derive(Drop)]
pub struct Calls {
    fail: Vec<u64>,
    made: u64,
    faults: u64,
}

impl Model for Calls {
    ghost use Rattle.caf_io.specs.Calls.{CallCount};

    ghost Value = { CallCount };

    ghost view = { λ c. record { fail = c.fail.items; made = c.made; faults = c.faults } };
}

impl Calls {
    /// No call yet.
    pub fn new(fail: Vec<u64>) -> Calls
        ensures { result ≡ record { fail = fail.items; made = 0; faults = 0 } }
    {
        Calls {
            fail,
            made: 0,
            faults: 0,
        }
    }

    /// Counts a call, and tells whether it is one of those that fail. Its fault is counted by `fault`.
    pub fn begin(&mut self) -> bool
        ensures fails { result ≡ fails_next self.old }
        ensures counted { self.new ≡ called self.old }
    {
        let next = u128::from(self.made) + 1;
        let due = self.fail.iter().any(|call| u128::from(*call) == next);
        self.made = self.made.saturating_add(1);
        due
    }

    /// Counts a fault.
    pub fn fault(&mut self)
        ensures counted { self.new ≡ faulted self.old }
        ensures later { self.old.faults ≤ self.new.faults }
    {
        self.faults = self.faults.saturating_add(1);
    }
}
