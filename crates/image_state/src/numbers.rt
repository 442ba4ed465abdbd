//! Numbers of the stack that are read and put down together, and array values of given numbers.

ghost use Rattle.std.specs.Prelude.{◌≡◌, ◌<◌, ◌≤◌, ◌+◌, ◌^◌, ◌∷◌, [], drop, length, map, min, pos, replicate, reverse, take, IfSome, IfNone};
ghost use Rattle.std.specs.Option.{option_map};
ghost use Rattle.caf_base.specs.Arithmetic.{number_of};
ghost use Rattle.image_acts.specs.Core.{elements_in, with_array, with_values};
ghost use Rattle.image_acts.specs.Replies as replies;
ghost use Rattle.image_acts.specs.Taking.{put_down, taken};
ghost use Rattle.array_values.specs.Extents.{listed};
ghost use Rattle.array_values.specs.Values.{row_of};
ghost use Rattle.image_state.specs.Acting.{with_core};

use crate::indices::lesser;
use crate::state::ImageState;
use array_values::extents::Extents;
use array_values::values::ArrayValues;
use caf_base::value::Value;
use image_stores::numbers::Numbers;

impl ImageState {
    /// The `n` numbers beneath `depth` others, in the order in which they were put down.
    pub fn numbers_at(&self, depth: usize, n: usize) -> Option<&[i64]>
        ensures is { option_map (λ p. p.now) result ≡ option_map (λ p. p.0) (taken n (drop depth self.now.core.values) []) }
        ensures few { IfSome result (λ p. length p.now ≡ n) }
        ensures enough { IfSome result (λ p. n ≤ length self.now.core.values) }
        ensures beneath { IfSome result (λ p. n ≤ length (drop depth self.now.core.values)) }
        ensures numbers { IfSome result (λ p. p.now ≡ reverse (take n (drop depth self.now.core.values))) }
        ensures none { IfNone result (length self.now.core.values < depth + n) }
    {
        numbers_beneath(&self.values, depth, n)
    }

    /// Puts these numbers down in the place of the `n` on top.
    pub fn put_numbers(&mut self, n: usize, numbers: &[i64])
        requires there { n ≤ length self.old.core.values }
        requires room { length self.old.core.values + length numbers.now ≤ self.old.rooms.numbers + n }
        ensures { self.new ≡ with_core self.old (with_values self.old.core (put_down numbers.now (drop n self.old.core.values))) }
    {
        self.drop_top(n);
        put_all(&mut self.values, numbers);
    }

    /// Begins an array value of rank one with these numbers.
    pub fn begin_numbers(&mut self, numbers: &[i64])
        requires place { length self.old.core.arrays < self.old.rooms.arrays }
        requires room { elements_in self.old.core.arrays + length numbers.now ≤ 524288 }
        ensures { self.new ≡ with_core self.old (with_array (row_of numbers.now) self.old.core) }
    {
        begin_row(&mut self.arrays, numbers);
    }

    /// Begins an array value with these extents and the numbers of these values, as far as there is room.
    #[tactic(auto, using(crate::proofs::IndexLaws::values_kept, crate::proofs::IndexLaws::values_within))]
    pub fn hear_values(&mut self, extents: Extents, values: &[Value])
        requires { length self.old.core.arrays < self.old.rooms.arrays }
        ensures { self.new ≡ with_core self.old (with_array (record { extents = listed extents; elements = take (replies.spare self.old.core) (map number_of values.now) }) self.old.core) }
    {
        let kept = lesser(values.len(), self.spare());
        self.arrays.begin_values(extents, &values[..kept]);
    }

    /// Begins an array value with these extents and so many zeros, as far as there is room.
    pub fn hear_zeros(&mut self, extents: Extents, n: u64)
        requires { length self.old.core.arrays < self.old.rooms.arrays }
        ensures { self.new ≡ with_core self.old (with_array (record { extents = listed extents; elements = replicate (min (replies.spare self.old.core) n) (pos 0) }) self.old.core) }
    {
        let kept = lesser(self.spare(), n as usize);
        self.arrays.begin_zeros(extents, kept);
    }
}

/// The numbers beneath others, in the order in which they were put down; no numbers stand beneath any number of others.
#[tactic(auto, using(crate::proofs::NumberLaws::none_taken, crate::proofs::NumberLaws::some_taken, crate::proofs::NumberLaws::too_few_taken, crate::proofs::NumberLaws::some_long, crate::proofs::NumberLaws::some_enough))]
pub(crate) fn numbers_beneath(values: &Numbers, depth: usize, n: usize) -> Option<&[i64]>
    ensures is { option_map (λ p. p.now) result ≡ option_map (λ p. p.0) (taken n (drop depth values.now.values) []) }
    ensures few { IfSome result (λ p. length p.now ≡ n) }
    ensures enough { IfSome result (λ p. n ≤ length values.now.values) }
    ensures beneath { IfSome result (λ p. n ≤ length (drop depth values.now.values)) }
    ensures numbers { IfSome result (λ p. p.now ≡ reverse (take n (drop depth values.now.values))) }
    ensures none { IfNone result (length values.now.values < depth + n) }
{
    if n == 0 {
        return Some(&[]);
    }
    if values.has(depth, n) {
        return Some(values.beneath(depth, n));
    }
    None
}

/// Puts numbers down one after another.
fn put_all(values: &mut Numbers, numbers: &[i64])
    requires { length values.old.values + length numbers.now ≤ values.old.size }
    ensures { values.new ≡ record { values = put_down numbers.now values.old.values; size = values.old.size } }
{
    let mut left = numbers;
    while let Some((number, rest)) = left.split_first() {
        values.push(*number);
        left = rest;
    }
}

/// Begins an array value of rank one with these numbers.
pub(crate) fn begin_row(arrays: &mut ArrayValues, numbers: &[i64])
    requires place { length arrays.old.arrays < arrays.old.most }
    requires room { elements_in arrays.old.arrays + length numbers.now ≤ arrays.old.size }
    requires small { length numbers.now < 2 ^ 63 }
    ensures { arrays.new ≡ record { arrays = row_of numbers.now ∷ arrays.old.arrays; most = arrays.old.most; size = arrays.old.size } }
{
    arrays.begin_with(Extents::One(numbers.len() as i64), numbers);
}
