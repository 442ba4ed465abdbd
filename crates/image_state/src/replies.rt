//! What the asks of an image and their replies do with its core.

ghost use Rattle.std.specs.Prelude.{◌≡◌, ◌<◌, ◌∷◌, drop, length, IfSome, IfNone};
ghost use Rattle.image_acts.specs.Core.{with_values, pushed};
ghost use Rattle.image_state.specs.Acting.{with_core};

use crate::state::ImageState;
use std::alloc::Global;

impl ImageState {
    /// Where asks are made.
    pub fn alloc(&self) -> Global {
        self.alloc
    }

    /// The two numbers on top, the lower one first.
    pub fn two(&self) -> Option<(i64, i64)>
        ensures some { IfSome result (λ p. self.now.core.values ≡ p.1 ∷ p.0 ∷ drop 2 self.now.core.values) }
        ensures none { IfNone result (length self.now.core.values < 2) }
    {
        self.values.two()
    }

    /// Puts a number on top.
    pub fn push(&mut self, v: i64)
        requires { length self.old.core.values < self.old.rooms.numbers }
        ensures { self.new ≡ with_core self.old (pushed v self.old.core) }
    {
        self.values.push(v);
    }

    /// Puts a number in the place of the one on top.
    pub fn put_for_one(&mut self, v: i64)
        requires { 0 < length self.old.core.values }
        ensures { self.new ≡ with_core self.old (with_values self.old.core (v ∷ drop 1 self.old.core.values)) }
    {
        self.values.put(v);
    }

    /// Puts a number in the place of the two on top.
    pub fn put_for_two(&mut self, v: i64)
        requires { 1 < length self.old.core.values }
        ensures { self.new ≡ with_core self.old (with_values self.old.core (v ∷ drop 2 self.old.core.values)) }
    {
        self.values.replace(v);
    }

    /// The round of the last arrival, where it didn't clash.
    pub fn round(&self) -> Option<u64>
        ensures { result ≡ self.now.core.round }
    {
        self.round
    }

    /// Notes a round, or that there is none.
    pub fn note_round(&mut self, round: Option<u64>)
        ensures { self.new ≡ with_core self.old (record self.old.core { round = round }) }
    {
        self.round = round;
    }
}
