//! Array values whose elements are given.

ghost use Rattle.std.specs.Prelude.{◌≡◌, ◌<◌, ◌≤◌, ◌+◌, ◌^◌, ◌∷◌, [], length, map, replicate, reverse, pos};
ghost use Rattle.caf_base.specs.Arithmetic.{number_of};
ghost use Rattle.image_acts.specs.Core.{elements_in};
ghost use Rattle.image_stores.specs.Piles.{pile, items_in};
ghost use Rattle.array_values.specs.Extents.{listed};
ghost use Rattle.array_values.specs.Values.{lengthened};

use crate::extents::Extents;
use crate::values::ArrayValues;
use caf_base::value::Value;
use image_stores::piles::Piles;

impl ArrayValues {
    /// Begins an array value with these extents and elements.
    #[tactic(auto, using(crate::proofs::ValueLaws::arrays_long, crate::proofs::ValueLaws::elements_many, crate::proofs::RowLaws::turned_back))]
    pub fn begin_with(&mut self, extents: Extents, elements: &[i64])
        requires place { length self.old.arrays < self.old.most }
        requires room { elements_in self.old.arrays + length elements.now ≤ self.old.size }
        ensures { self.new ≡ record { arrays = record { extents = listed extents; elements = elements.now } ∷ self.old.arrays; most = self.old.most; size = self.old.size } }
    {
        put_elements(&mut self.piles, extents, elements);
    }

    /// The same with the numbers of these values.
    #[tactic(auto, using(crate::proofs::ValueLaws::arrays_long, crate::proofs::ValueLaws::elements_many, crate::proofs::RowLaws::turned_back))]
    pub fn begin_values(&mut self, extents: Extents, values: &[Value])
        requires place { length self.old.arrays < self.old.most }
        requires room { elements_in self.old.arrays + length values.now ≤ self.old.size }
        ensures { self.new ≡ record { arrays = record { extents = listed extents; elements = map number_of values.now } ∷ self.old.arrays; most = self.old.most; size = self.old.size } }
    {
        put_values(&mut self.piles, extents, values);
    }

    /// The same with so many zeros.
    #[tactic(auto, using(crate::proofs::ValueLaws::arrays_long, crate::proofs::ValueLaws::elements_many, crate::proofs::RowLaws::zeros_turned))]
    pub fn begin_zeros(&mut self, extents: Extents, n: usize)
        requires place { length self.old.arrays < self.old.most }
        requires room { elements_in self.old.arrays + n ≤ self.old.size }
        ensures { self.new ≡ record { arrays = record { extents = listed extents; elements = replicate n (pos 0) } ∷ self.old.arrays; most = self.old.most; size = self.old.size } }
    {
        put_zeros(&mut self.piles, extents, n);
    }

    /// Puts an element behind those of the top one, whose extents stay as they are.
    #[tactic(auto, using(crate::proofs::ValueLaws::arrays_long, crate::proofs::ValueLaws::elements_many, crate::proofs::ValueLaws::arrays_lengthened))]
    pub fn lengthen(&mut self, v: i64)
        requires some { 0 < length self.old.arrays }
        requires room { elements_in self.old.arrays < self.old.size }
        ensures { self.new ≡ record { arrays = lengthened v self.old.arrays; most = self.old.most; size = self.old.size } }
    {
        self.piles.add(v);
    }
}

/// Begins a pile with these elements.
#[tactic(auto, using(crate::proofs::RowLaws::elements_more))]
fn put_elements(piles: &mut Piles<Extents, i64>, extents: Extents, elements: &[i64])
    requires place { length piles.old.piles < piles.old.most }
    requires room { items_in piles.old.piles + length elements.now ≤ piles.old.size }
    ensures { piles.new ≡ record { piles = pile extents (reverse elements.now) ∷ piles.old.piles; most = piles.old.most; size = piles.old.size } }
{
    piles.begin(extents);
    for i in 0..elements.len() {
        piles.add(elements[i]);
    }
}

/// Begins a pile with the numbers of these values.
#[tactic(auto, using(crate::proofs::RowLaws::values_more))]
fn put_values(piles: &mut Piles<Extents, i64>, extents: Extents, values: &[Value])
    requires place { length piles.old.piles < piles.old.most }
    requires room { items_in piles.old.piles + length values.now ≤ piles.old.size }
    ensures { piles.new ≡ record { piles = pile extents (reverse (map number_of values.now)) ∷ piles.old.piles; most = piles.old.most; size = piles.old.size } }
{
    piles.begin(extents);
    for i in 0..values.len() {
        piles.add(number_of(values[i]));
    }
}

/// The number that a value is kept as.
fn number_of(value: Value) -> i64
    ensures { result ≡ number_of value }
{
    match value {
        Value::Int(v) => v,
        Value::Bool(b) => i64::from(b),
    }
}

/// Begins a pile with so many zeros.
fn put_zeros(piles: &mut Piles<Extents, i64>, extents: Extents, n: usize)
    requires place { length piles.old.piles < piles.old.most }
    requires room { items_in piles.old.piles + n ≤ piles.old.size }
    ensures { piles.new ≡ record { piles = pile extents (replicate n (pos 0)) ∷ piles.old.piles; most = piles.old.most; size = piles.old.size } }
{
    piles.begin(extents);
    for i in 0..n {
        let _ = i;
        piles.add(0);
    }
}
