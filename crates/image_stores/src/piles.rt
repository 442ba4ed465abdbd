//! Piles of items, one on top of the other: array values with their elements, or texts that were begun with what is to
//! be printed.

ghost use Rattle.std.specs.Prelude.{◌≡◌, ◌<◌, ◌≤◌, ◌+◌, ◌∷◌, ◌++◌, [], drop, length, reverse, IfOk};
ghost use Rattle.image_stores.specs.Piles.{Piled, pile, items_in, newest, head_of, last_of, heaped, headed, merged, with_last};

use std::alloc::{AllocError, Global};
use std::marker::Model;

/// What a pile is for, and how many items it has.
#[derive(Clone, Copy)]
pub struct Base<H> {
    head: H,
    count: usize,
}

/// Piles in room that is made once.
#[derive(Drop)]
pub struct Piles<H, T> {
    bases: Vec<Base<H>>,
    items: Vec<T>,
}

impl<H, T> Model for Piles<H, T> {
    ghost use Rattle.std.specs.Prelude.{◌≡◌, length, reverse, vec_capacity};
    ghost use Rattle.image_stores.specs.Piles.{Piled, piles_of, counts};

    ghost Value = { Piled H T };

    ghost view = { λ s. record { piles = piles_of (reverse s.bases.items) (reverse s.items.items); most = vec_capacity s.bases; size = vec_capacity s.items } };

    ghost invariant = { λ s. counts (reverse s.bases.items) ≡ length s.items.items };
}

impl<H: Copy, T: Copy> Piles<H, T> {
    /// No piles, with room for so many and for so many items in all.
    pub fn new(alloc: Global, most: usize, size: usize) -> Result<Piles<H, T>, AllocError>
        ensures { IfOk result (λ s. s ≡ record { piles = []; most = most; size = size }) }
    {
        let bases = Vec::with_capacity(alloc, most)?;
        let items = Vec::with_capacity(alloc, size)?;
        Ok(Piles { bases, items })
    }

    /// How many piles there are.
    pub fn len(&self) -> usize
        ensures { result ≡ length self.now.piles }
    {
        self.bases.len()
    }

    /// How many items they have.
    pub fn total(&self) -> usize
        ensures is { result ≡ items_in self.now.piles }
        ensures within { result ≤ self.now.size }
    {
        self.items.len()
    }

    /// Begins a pile. It takes no memory, as nothing here does.
    pub fn begin(&mut self, head: H)
        requires { length self.old.piles < self.old.most }
        ensures { self.new ≡ record { piles = pile head [] ∷ self.old.piles; most = self.old.most; size = self.old.size } }
    {
        self.bases.push_reserved(Base { head, count: 0 });
    }

    /// Puts an item on the newest pile.
    pub fn add(&mut self, item: T)
        requires some { 0 < length self.old.piles }
        requires room { items_in self.old.piles < self.old.size }
        ensures { self.new ≡ record { piles = heaped item self.old.piles; most = self.old.most; size = self.old.size } }
    {
        let base = self.bases.take_last();
        self.bases.push_reserved(Base {
            head: base.head,
            count: base.count + 1,
        });
        self.items.push_reserved(item);
    }

    /// Takes the newest pile away.
    pub fn end(&mut self)
        requires { 0 < length self.old.piles }
        ensures { self.new ≡ record { piles = drop 1 self.old.piles; most = self.old.most; size = self.old.size } }
    {
        let base = self.bases.take_last();
        let left = self.items.len() - base.count;
        self.items.truncate(left);
    }

    /// Takes all piles away.
    pub fn clear(&mut self)
        ensures { self.new ≡ record { piles = []; most = self.old.most; size = self.old.size } }
    {
        self.bases.clear();
        self.items.clear();
    }

    /// Gives the newest pile another head.
    pub fn set_head(&mut self, head: H)
        requires { 0 < length self.old.piles }
        ensures { self.new ≡ record { piles = headed head self.old.piles; most = self.old.most; size = self.old.size } }
    {
        let base = self.bases.take_last();
        self.bases.push_reserved(Base {
            head,
            count: base.count,
        });
    }

    /// Puts the newest pile on the one beneath.
    pub fn merge(&mut self)
        requires { 1 < length self.old.piles }
        ensures { self.new ≡ record { piles = merged self.old.piles; most = self.old.most; size = self.old.size } }
    {
        let upper = self.bases.take_last();
        let lower = self.bases.take_last();
        self.bases.push_reserved(Base {
            head: lower.head,
            count: lower.count + upper.count,
        });
    }

    /// The head of the newest pile, where there is one.
    pub fn head(&self) -> Option<H>
        ensures { result ≡ head_of self.now.piles }
    {
        let n = self.bases.len();
        if n == 0 {
            return None;
        }
        Some(self.bases[n - 1].head)
    }

    /// The last item of the newest pile, where there is one.
    pub fn last(&self) -> Option<T>
        ensures is { result ≡ last_of self.now.piles }
        ensures within { items_in self.now.piles ≤ self.now.size }
    {
        if self.total() == 0 {
            return None;
        }
        let newest = self.newest();
        let n = newest.len();
        if n == 0 {
            return None;
        }
        Some(newest[n - 1])
    }

    /// Puts another item in the place of the last one of the newest pile.
    pub fn set_last(&mut self, item: T)
        requires { 0 < length (newest self.old.piles) }
        ensures { self.new ≡ record { piles = with_last item self.old.piles; most = self.old.most; size = self.old.size } }
    {
        let _last = self.items.take_last();
        self.items.push_reserved(item);
    }

    /// The items of the newest pile, the first one first; none where there is no pile.
    pub fn newest(&self) -> &[T]
        ensures { result.now ≡ reverse (newest self.now.piles) }
    {
        let n = self.bases.len();
        let end = self.items.len();
        if n == 0 {
            return &self.items[end..end];
        }
        let count = self.bases[n - 1].count;
        &self.items[end - count..end]
    }
}
