//! A stack of array values.

ghost use Rattle.std.specs.Prelude.{◌≡◌, ◌<◌, ◌≤◌, ◌+◌, ◌*◌, ◌^◌, ◌∷◌, [], drop, length, map, reverse, pos, IfOk, IfSome, IfNone};
ghost use Rattle.image_acts.specs.Core.{elements_in};
ghost use Rattle.image_acts.specs.Frames.{pairs_numbers};
ghost use Rattle.image_acts.specs.Operate.Bounds.{from_one};
ghost use Rattle.image_acts.specs.Teams.{counted_from};
ghost use Rattle.image_stores.specs.Piles.{pile, items_in, headed, heaped};
ghost use Rattle.array_values.specs.Extents.{listed};
ghost use Rattle.array_values.specs.Values.{Values, row_of, without_elements, extents_on_top, elements_on_top, with_element, merged_arrays, with_bounds};
ghost use Rattle.array_values.specs.declared.extents.Extents.TheVariants as extents;

use crate::extents::{Extents, natural};
use image_stores::piles::Piles;
use std::alloc::{AllocError, Global};
use std::marker::Model;

/// Array values, one on top of the other, in room that is made once.
#[derive(Drop)]
pub struct ArrayValues {
    pub(crate) piles: Piles<Extents, i64>,
}

impl Model for ArrayValues {
    ghost use Rattle.std.specs.Prelude.{◌<◌, ◌^◌};
    ghost use Rattle.array_values.specs.Values.{Values, arrays_in};

    ghost Value = { Values };

    ghost view = { λ s. record { arrays = arrays_in s.piles.piles; most = s.piles.most; size = s.piles.size } };

    ghost invariant = { λ s. s.piles.size < 2 ^ 32 };
}

impl ArrayValues {
    /// No array values, with room for so many and for so many elements in all.
    pub fn new(alloc: Global, most: usize, size: usize) -> Result<ArrayValues, AllocError>
        requires { size < 2 ^ 32 }
        ensures { IfOk result (λ s. s ≡ record { arrays = []; most = most; size = size }) }
    {
        Ok(ArrayValues {
            piles: Piles::new(alloc, most, size)?,
        })
    }

    /// How many array values there are.
    #[tactic(auto, using(crate::proofs::ValueLaws::arrays_long))]
    pub fn len(&self) -> usize
        ensures { result ≡ length self.now.arrays }
    {
        self.piles.len()
    }

    /// How many elements they have.
    #[tactic(auto, using(crate::proofs::ValueLaws::elements_many))]
    pub fn total(&self) -> usize
        ensures is { result ≡ elements_in self.now.arrays }
        ensures within { result ≤ self.now.size }
    {
        self.piles.total()
    }

    /// The elements of the top one; none where there is no array value.
    #[tactic(auto, using(crate::proofs::ValueLaws::newest_elements))]
    pub fn elements(&self) -> &[i64]
        ensures { result.now ≡ elements_on_top self.now.arrays }
    {
        self.piles.newest()
    }

    /// The extents of the top one.
    #[tactic(auto, using(crate::proofs::ValueLaws::head_there, crate::proofs::ValueLaws::head_extents, crate::proofs::ValueLaws::no_head))]
    pub fn extents(&self) -> Option<Extents>
        ensures there { IfSome result (λ e. 0 < length self.now.arrays) }
        ensures some { IfSome result (λ e. listed e ≡ extents_on_top self.now.arrays) }
        ensures none { IfNone result (length self.now.arrays ≡ 0) }
    {
        self.piles.head()
    }

    /// How many elements the top one has.
    #[tactic(auto, using(crate::proofs::ValueLaws::newest_elements, crate::proofs::ValueLaws::newest_few, crate::proofs::ValueLaws::elements_many))]
    fn count(&self) -> u32
        ensures is { result ≡ length (elements_on_top self.now.arrays) }
        ensures few { result ≤ elements_in self.now.arrays }
    {
        let total = self.piles.total();
        let n = self.piles.newest().len();
        prove!(n <= total);
        n as u32
    }

    /// Begins an array value without elements.
    #[tactic(auto, using(crate::proofs::ValueLaws::arrays_long))]
    pub fn begin(&mut self, extents: Extents)
        requires { length self.old.arrays < self.old.most }
        ensures { self.new ≡ record { arrays = without_elements extents ∷ self.old.arrays; most = self.old.most; size = self.old.size } }
    {
        self.piles.begin(extents);
    }

    /// Puts an element behind those of the top one, which is of rank one then.
    #[tactic(auto, using(crate::proofs::ValueLaws::arrays_long, crate::proofs::ValueLaws::elements_many, crate::proofs::ValueLaws::headed_long, crate::proofs::ValueLaws::headed_many, crate::proofs::ValueLaws::element_added))]
    pub fn add(&mut self, v: i64)
        requires some { 0 < length self.old.arrays }
        requires room { elements_in self.old.arrays < self.old.size }
        ensures { self.new ≡ record { arrays = with_element v self.old.arrays; most = self.old.most; size = self.old.size } }
    {
        let n = self.count() + 1;
        self.piles.set_head(Extents::One(i64::from(n)));
        self.piles.add(v);
    }

    /// Takes the top one away.
    #[tactic(auto, using(crate::proofs::ValueLaws::arrays_long, crate::proofs::ValueLaws::arrays_dropped))]
    pub fn end(&mut self)
        requires { 0 < length self.old.arrays }
        ensures { self.new ≡ record { arrays = drop 1 self.old.arrays; most = self.old.most; size = self.old.size } }
    {
        self.piles.end();
    }

    /// Takes all away.
    pub fn clear(&mut self)
        ensures { self.new ≡ record { arrays = []; most = self.old.most; size = self.old.size } }
    {
        self.piles.clear();
    }

    /// Puts the elements of the top one behind those of the one beneath, which is of rank one then.
    #[tactic(auto, using(crate::proofs::ValueLaws::arrays_long, crate::proofs::ValueLaws::merged_some, crate::proofs::ValueLaws::arrays_merged))]
    pub fn merge(&mut self)
        requires { 1 < length self.old.arrays }
        ensures { self.new ≡ record { arrays = merged_arrays self.old.arrays; most = self.old.most; size = self.old.size } }
    {
        self.piles.merge();
        let n = self.count();
        self.piles.set_head(Extents::One(i64::from(n)));
    }

    /// Begins an array value with the numbers from 1 to n.
    #[tactic(auto, using(crate::proofs::ValueLaws::arrays_long, crate::proofs::ValueLaws::elements_many, crate::proofs::ValueLaws::counted_row))]
    pub fn begin_counted(&mut self, n: u32)
        requires place { length self.old.arrays < self.old.most }
        requires room { elements_in self.old.arrays + n ≤ self.old.size }
        ensures { self.new ≡ record { arrays = row_of (counted_from 1 n) ∷ self.old.arrays; most = self.old.most; size = self.old.size } }
    {
        put_counted(&mut self.piles, n);
    }

    /// Begins an array value with these numbers.
    #[tactic(auto, using(crate::proofs::ValueLaws::arrays_long, crate::proofs::ValueLaws::elements_many, crate::proofs::ValueLaws::row_turned))]
    pub fn begin_row(&mut self, numbers: &[u32])
        requires place { length self.old.arrays < self.old.most }
        requires room { elements_in self.old.arrays + length numbers.now ≤ self.old.size }
        ensures { self.new ≡ record { arrays = row_of (map (λ n. pos n) numbers.now) ∷ self.old.arrays; most = self.old.most; size = self.old.size } }
    {
        put_all(&mut self.piles, numbers);
    }

    /// Begins an array value with the bounds of these extents, a lower and an upper one for each; the lower ones are 1
    /// (16.9.109, 16.9.196).
    #[tactic(auto, using(crate::proofs::ValueLaws::arrays_long, crate::proofs::ValueLaws::elements_many))]
    pub fn begin_bounds(&mut self, extents: Extents)
        requires place { length self.old.arrays < self.old.most }
        requires room { elements_in self.old.arrays + 2 * length (listed extents) ≤ self.old.size }
        ensures { self.new ≡ record { arrays = row_of (pairs_numbers (from_one (listed extents))) ∷ self.old.arrays; most = self.old.most; size = self.old.size } }
    {
        match extents {
            Extents::Scalar => self.piles.begin(Extents::One(0)),
            Extents::One(k) => {
                self.piles.begin(Extents::One(2));
                put_bounds(&mut self.piles, k);
            }
            Extents::Two(k, m) => {
                self.piles.begin(Extents::One(4));
                put_bounds(&mut self.piles, k);
                put_bounds(&mut self.piles, m);
            }
            Extents::Three(k, m, n) => {
                self.piles.begin(Extents::One(6));
                put_bounds(&mut self.piles, k);
                put_bounds(&mut self.piles, m);
                put_bounds(&mut self.piles, n);
            }
        }
    }
}

/// Begins a pile with the numbers from 1 to n.
#[tactic(auto, using(crate::proofs::RowLaws::counted_more))]
fn put_counted(piles: &mut Piles<Extents, i64>, n: u32)
    requires place { length piles.old.piles < piles.old.most }
    requires room { items_in piles.old.piles + n ≤ piles.old.size }
    ensures { piles.new ≡ record { piles = pile (extents.One (pos n)) (reverse (counted_from 1 n)) ∷ piles.old.piles; most = piles.old.most; size = piles.old.size } }
{
    piles.begin(Extents::One(i64::from(n)));
    for i in 0..n {
        piles.add(i64::from(i) + 1);
    }
}

/// Begins a pile with these numbers.
#[tactic(auto, using(crate::proofs::RowLaws::numbers_more))]
fn put_all(piles: &mut Piles<Extents, i64>, ns: &[u32])
    requires place { length piles.old.piles < piles.old.most }
    requires room { items_in piles.old.piles + length ns.now ≤ piles.old.size }
    requires small { length ns.now < 2 ^ 63 }
    ensures { piles.new ≡ record { piles = pile (extents.One (pos (length ns.now))) (reverse (map (λ n. pos n) ns.now)) ∷ piles.old.piles; most = piles.old.most; size = piles.old.size } }
{
    piles.begin(Extents::One(ns.len() as i64));
    for i in 0..ns.len() {
        piles.add(i64::from(ns[i]));
    }
}

/// Puts a lower bound of 1 and an upper one on the newest pile.
fn put_bounds(piles: &mut Piles<Extents, i64>, count: i64)
    requires some { 0 < length piles.old.piles }
    requires room { items_in piles.old.piles + 2 ≤ piles.old.size }
    ensures { piles.new ≡ record { piles = with_bounds count piles.old.piles; most = piles.old.most; size = piles.old.size } }
{
    piles.add(1);
    piles.add(natural(count) as i64);
}
