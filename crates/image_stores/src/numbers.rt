//! A stack of numbers in room that is made once.

ghost use Rattle.std.specs.Prelude.{◌≡◌, ◌+◌, ◌-◌, ◌^◌, ◌<◌, ◌≤◌, ◌∷◌, ◌++◌, [], pos, take, drop, reverse, slice_index_or, IfSome, IfNone, IsTrue, IsFalse, length, slice_get, slice_set, ℤ, List};
ghost use Rattle.image_stores.specs.Numbers.{Pile, below};

use crate::rows::{read, write};
use std::marker::Model;

/// A stack of numbers.
#[derive(Drop)]
pub struct Numbers {
    cells: Vec<i64>,
    used: usize,
}

impl Model for Numbers {
    ghost use Rattle.std.specs.Prelude.{◌≤◌, length};
    ghost use Rattle.image_stores.specs.Numbers.{Pile, below};

    ghost Value = { Pile };

    ghost view = { λ s. record { values = below s.cells.items s.used; size = length s.cells.items } };

    ghost invariant = { λ s. s.used ≤ length s.cells.items };
}

impl Numbers {
    /// Puts a number on top.
    #[tactic(auto, using(crate::proofs::NumberLaws::below_length, crate::proofs::NumberLaws::below_push))]
    pub fn push(&mut self, v: i64)
        requires { length self.old.values < self.old.size }
        ensures { self.new ≡ record { values = v ∷ self.old.values; size = self.old.size } }
    {
        let used = self.used;
        write(&mut self.cells, used, v);
        self.used = used + 1;
    }

    /// A stack with nothing on it, which has room for as many numbers as there are cells.
    pub fn new(cells: Vec<i64>) -> Numbers
        ensures { result ≡ record { values = []; size = length cells.items } }
    {
        Numbers { cells, used: 0 }
    }

    /// The number beneath so many others, where there is one.
    #[tactic(auto, using(crate::proofs::NumberLaws::below_get, crate::proofs::NumberLaws::below_past, crate::proofs::NumberLaws::below_length))]
    pub fn get(&self, depth: usize) -> Option<i64>
        ensures { result ≡ slice_get self.now.values depth }
    {
        let used = self.used;
        if depth >= used {
            return None;
        }
        Some(read(&self.cells, used - 1 - depth))
    }

    /// Drops so many numbers; where there are fewer it drops none and says so.
    #[tactic(auto, using(crate::proofs::NumberLaws::below_drop, crate::proofs::NumberLaws::below_length))]
    pub fn drop_top(&mut self, n: usize) -> bool
        ensures dropped { IsTrue result → (n ≤ length self.old.values) × (self.new ≡ record { values = drop n self.old.values; size = self.old.size }) }
        ensures kept { IsFalse result → (length self.old.values < n) × (self.new ≡ self.old) }
    {
        let used = self.used;
        if used < n {
            return false;
        }
        self.used = used - n;
        true
    }

    /// Drops all.
    pub fn clear(&mut self)
        ensures { self.new ≡ record { values = []; size = self.old.size } }
    {
        self.used = 0;
    }

    /// How many numbers there are.
    #[tactic(auto, using(crate::proofs::NumberLaws::below_length))]
    pub fn len(&self) -> usize
        ensures { result ≡ length self.now.values }
    {
        self.used
    }

    /// Its cells, and how many of them are numbers.
    pub fn into_parts(self) -> (Vec<i64>, usize)
        ensures values { below result.0.items result.1 ≡ self.values }
        ensures size { length result.0.items ≡ self.size }
        ensures within { result.1 ≤ length result.0.items }
    {
        (self.cells, self.used)
    }

    /// The numbers in the first cells.
    pub fn from_parts(cells: Vec<i64>, used: usize) -> Numbers
        requires { used ≤ length cells.items }
        ensures { result ≡ record { values = below cells.items used; size = length cells.items } }
    {
        Numbers { cells, used }
    }

    /// Whether it has no room.
    #[tactic(auto, using(crate::proofs::NumberLaws::below_length))]
    pub fn is_full(&self) -> bool
        ensures { IsFalse result → length self.now.values < self.now.size }
    {
        self.used >= self.cells.len()
    }

    /// Takes the number on top.
    #[tactic(auto, using(crate::proofs::NumberLaws::below_length, crate::proofs::NumberLaws::below_one))]
    pub fn take(&mut self) -> i64
        requires { 0 < length self.old.values }
        ensures { self.old ≡ record { values = result ∷ self.new.values; size = self.new.size } }
    {
        let used = self.used;
        self.used = used - 1;
        self.cells[used - 1]
    }

    /// Takes the number on top, where there is one.
    #[tactic(auto, using(crate::proofs::NumberLaws::below_length))]
    pub fn pop(&mut self) -> Option<i64>
        ensures some { IfSome result (λ v. self.old ≡ record { values = v ∷ self.new.values; size = self.new.size }) }
        ensures none { IfNone result ((self.old.values ≡ []) × (self.new ≡ self.old)) }
    {
        if self.used == 0 {
            return None;
        }
        Some(self.take())
    }

    /// The number on top.
    #[tactic(auto, using(crate::proofs::NumberLaws::top_is, crate::proofs::NumberLaws::below_length))]
    pub fn top(&self) -> Option<i64>
        ensures some { IfSome result (λ v. self.now.values ≡ v ∷ drop 1 self.now.values) }
        ensures none { IfNone result (self.now.values ≡ []) }
    {
        let used = self.used;
        if used == 0 {
            return None;
        }
        Some(read(&self.cells, used - 1))
    }

    /// The two numbers on top, the lower one first.
    #[tactic(auto, using(crate::proofs::NumberLaws::two_are, crate::proofs::NumberLaws::below_length))]
    pub fn two(&self) -> Option<(i64, i64)>
        ensures some { IfSome result (λ p. self.now.values ≡ p.1 ∷ p.0 ∷ drop 2 self.now.values) }
        ensures none { IfNone result (length self.now.values < 2) }
    {
        let used = self.used;
        if used < 2 {
            return None;
        }
        Some((read(&self.cells, used - 2), read(&self.cells, used - 1)))
    }

    /// Puts a number in the place of the one on top.
    #[tactic(auto, using(crate::proofs::NumberLaws::put_is, crate::proofs::NumberLaws::below_length, crate::proofs::NumberLaws::same_word))]
    pub fn put(&mut self, v: i64)
        requires { 0 < length self.old.values }
        ensures { self.new ≡ record { values = v ∷ drop 1 self.old.values; size = self.old.size } }
    {
        let used = self.used;
        write(&mut self.cells, used - 1, v);
    }

    /// Puts a number in the place of the two on top.
    #[tactic(auto, using(crate::proofs::NumberLaws::replace_is, crate::proofs::NumberLaws::below_length, crate::proofs::NumberLaws::same_word))]
    pub fn replace(&mut self, v: i64)
        requires { 1 < length self.old.values }
        ensures { self.new ≡ record { values = v ∷ drop 2 self.old.values; size = self.old.size } }
    {
        let used = self.used;
        write(&mut self.cells, used - 2, v);
        self.used = used - 1;
    }

    /// Whether so many numbers stand beneath so many others.
    #[tactic(auto, using(crate::proofs::NumberLaws::below_length))]
    pub fn has(&self, depth: usize, n: usize) -> bool
        ensures there { IsTrue result → depth + n ≤ length self.now.values }
        ensures not { IsFalse result → length self.now.values < depth + n }
    {
        let used = self.used;
        depth <= used && n <= used - depth
    }

    /// The `n` numbers beneath `depth` others, in the order in which they were put down.
    pub fn beneath(&self, depth: usize, n: usize) -> &[i64]
        requires { depth + n ≤ length self.now.values }
        ensures { result.now ≡ reverse (take n (drop depth self.now.values)) }
    {
        let end = self.used - depth;
        &self.cells[end - n..end]
    }

    /// Puts the number beneath so many others on top once more.
    #[tactic(auto, using(crate::proofs::NumberLaws::below_index, crate::proofs::NumberLaws::below_length))]
    fn push_again(&mut self, depth: usize)
        requires there { depth < length self.old.values }
        requires room { length self.old.values < self.old.size }
        ensures { self.new ≡ record { values = slice_index_or self.old.values depth (pos 0) ∷ self.old.values; size = self.old.size } }
    {
        let v = read(&self.cells, self.used - 1 - depth);
        self.push(v);
    }

    /// Puts the `n` numbers beneath `depth` others on top once more, in their order.
    pub fn repeat(&mut self, depth: usize, n: usize)
        requires there { depth + n ≤ length self.old.values }
        requires small { depth + n < 2 ^ 64 }
        requires room { length self.old.values + n ≤ self.old.size }
        ensures { self.new ≡ record { values = take n (drop depth self.old.values) ++ self.old.values; size = self.old.size } }
    {
        for i in 0..n {
            let _ = i;
            self.push_again(depth + n - 1);
        }
    }

    /// Brings the `n` numbers beneath `depth` others to the top, in their order.
    pub fn bring(&mut self, depth: usize, n: usize)
        requires { depth + n ≤ length self.old.values }
        ensures { self.new ≡ record { values = take n (drop depth self.old.values) ++ (take depth self.old.values ++ drop (depth + n) self.old.values); size = self.old.size } }
    {
        let used = self.used;
        rotate(&mut self.cells, used - depth - n, used, n);
    }
}

/// The first `n` of the cells from `start` to `end` come behind the others.
fn rotate(cells: &mut Vec<i64>, start: usize, end: usize, n: usize)
    requires within { end ≤ length cells.old.items }
    requires some { start + n ≤ end }
    ensures { cells.new.items ≡ take start cells.old.items ++ ((drop n (take (end - start) (drop start cells.old.items)) ++ take n (take (end - start) (drop start cells.old.items))) ++ drop end cells.old.items) }
{
    cells[start..end].rotate_left(n);
}
