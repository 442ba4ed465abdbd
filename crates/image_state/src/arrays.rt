//! Array values that are being evaluated.

ghost use Rattle.std.specs.Prelude.{◌≡◌, ◌<◌, ◌≤◌, ◌+◌, ◌∷◌, drop, length, IsTrue, IsFalse, IfSome, IfNone};
ghost use Rattle.std.specs.List.{list_all};
ghost use Rattle.caf_base.specs.Arithmetic.{fits_kind};
ghost use Rattle.image_acts.specs.Acts as acts;
ghost use Rattle.image_acts.specs.Core.{with_values, elements_in};
ghost use Rattle.image_acts.specs.Operate.Stack.{stack_effect};
ghost use Rattle.image_acts.specs.Operate.Operators.{operator_effect};
ghost use Rattle.image_state.specs.Acting.{with_core, Acts};
ghost use Rattle.array_values.specs.Values.{elements_on_top, with_element, merged_arrays};
ghost use Rattle.image_state.specs.Arrays.{with_arrays};

use crate::state::{Acting, ImageState, MOST_ELEMENTS, MOST_EVALUATED};
use array_values::extents::Extents;
use caf_base::value::Kind;
use caf_events::fault::{OVERFLOW, ROOM};
use number_operators::arithmetic::is_of_kind;

impl ImageState {
    /// Whether there are so many array values.
    pub fn has_arrays(&self, n: usize) -> bool
        ensures there { IsTrue result → n ≤ length self.now.core.arrays }
        ensures not { IsFalse result → length self.now.core.arrays < n }
    {
        self.arrays.len() >= n
    }

    /// The elements of the top array, none where there is no array.
    pub fn elements(&self) -> &[i64]
        ensures { result.now ≡ elements_on_top self.now.core.arrays }
    {
        self.arrays.elements()
    }

    /// Drops the top array.
    pub fn drop_top_array(&mut self)
        requires { 0 < length self.old.core.arrays }
        ensures { self.new ≡ with_core self.old (with_arrays self.old.core (drop 1 self.old.core.arrays)) }
    {
        self.arrays.end();
    }

    /// Puts the elements of the top array behind those of the one beneath.
    fn merge_arrays(&mut self)
        requires { 1 < length self.old.core.arrays }
        ensures { self.new ≡ with_core self.old (with_arrays self.old.core (merged_arrays self.old.core.arrays)) }
    {
        self.arrays.merge();
    }

    /// Does the step `EmptyArray`.
    pub fn empty_array(&mut self) -> Acting
        requires { length self.old.core.arrays < self.old.rooms.arrays }
        ensures { Acts self.old (stack_effect acts.empty_array self.old.core) self.new result }
    {
        self.arrays.begin(Extents::One(0));
        Acting::Done
    }

    /// Whether there is no room for a further element.
    fn is_array_full(&self) -> bool
        ensures full { IsTrue result → 524288 ≤ elements_in self.now.core.arrays }
        ensures not { IsFalse result → elements_in self.now.core.arrays < 524288 }
    {
        self.arrays.total() >= MOST_ELEMENTS
    }

    /// Puts an element behind those of the top array.
    fn add_element(&mut self, v: i64)
        requires there { 0 < length self.old.core.arrays }
        requires room { elements_in self.old.core.arrays < 524288 }
        ensures { self.new ≡ with_core self.old (with_arrays self.old.core (with_element v self.old.core.arrays)) }
    {
        self.arrays.add(v);
    }

    /// Moves the number on top behind the elements of the top array.
    fn move_element(&mut self, v: i64)
        requires value { 0 < length self.old.core.values }
        requires there { 0 < length self.old.core.arrays }
        requires room { elements_in self.old.core.arrays < 524288 }
        ensures { self.new ≡ with_core self.old (with_arrays (with_values self.old.core (drop 1 self.old.core.values)) (with_element v self.old.core.arrays)) }
    {
        self.drop_top(1);
        self.add_element(v);
    }

    /// Does the step `Append`.
    #[tactic(auto, using(crate::proofs::ArrayLaws::none_to_append, crate::proofs::ArrayLaws::no_array_to_append, crate::proofs::ArrayLaws::append_full, crate::proofs::ArrayLaws::appended))]
    pub fn append(&mut self) -> Acting
        ensures { Acts self.old (stack_effect acts.append self.old.core) self.new result }
    {
        let Some(v) = self.top() else {
            return Acting::Stuck;
        };
        if !self.has_arrays(1) {
            return Acting::Stuck;
        }
        if self.is_array_full() {
            return Acting::Fault(ROOM);
        }
        self.move_element(v);
        Acting::Done
    }

    /// Does the step `AppendArray`.
    #[tactic(auto, using(crate::proofs::ArrayLaws::two_arrays_missing, crate::proofs::ArrayLaws::two_arrays_there))]
    pub fn append_array(&mut self) -> Acting
        ensures { Acts self.old (stack_effect acts.append_array self.old.core) self.new result }
    {
        if !self.has_arrays(2) {
            return Acting::Stuck;
        }
        self.merge_arrays();
        Acting::Done
    }

    /// Does the step `DropArray`.
    #[tactic(auto, using(crate::proofs::ArrayLaws::array_missing, crate::proofs::ArrayLaws::array_dropped))]
    pub fn drop_array(&mut self) -> Acting
        ensures { Acts self.old (stack_effect acts.drop_array self.old.core) self.new result }
    {
        if !self.has_arrays(1) {
            return Acting::Stuck;
        }
        self.drop_top_array();
        Acting::Done
    }

    /// The first element of the top array.
    fn first_element(&self) -> Option<i64>
        ensures some { IfSome result (λ v. elements_on_top self.now.core.arrays ≡ v ∷ drop 1 (elements_on_top self.now.core.arrays)) }
        ensures none { IfNone result (length (elements_on_top self.now.core.arrays) ≡ 0) }
    {
        first_of(self.elements())
    }

    /// Does the step `OnlyElement`.
    #[tactic(auto, using(crate::proofs::ArrayLaws::element_missing, crate::proofs::ArrayLaws::element_there, crate::proofs::ArrayLaws::some_array))]
    pub fn only_element(&mut self) -> Acting
        requires { length self.old.core.values < self.old.rooms.numbers }
        ensures { Acts self.old (stack_effect acts.only_element self.old.core) self.new result }
    {
        match self.first_element() {
            None => Acting::Stuck,
            Some(v) => {
                self.drop_top_array();
                self.number(v)
            }
        }
    }

    /// Does the step `TakeCells`.
    #[tactic(auto, using(crate::proofs::ArrayLaws::cells_missing, crate::proofs::ArrayLaws::cells_full, crate::proofs::ArrayLaws::cells_taken))]
    pub fn take_cells(&mut self) -> Acting
        ensures { Acts self.old (stack_effect acts.take_cells self.old.core) self.new result }
    {
        if !self.has_arrays(1) {
            return Acting::Stuck;
        }
        let n = self.elements().len() as u64;
        if n > MOST_EVALUATED - self.used {
            return Acting::Fault(ROOM);
        }
        self.used += n;
        Acting::Done
    }

    /// Does the step `FitsEach`.
    #[tactic(auto, using(crate::proofs::ArrayLaws::fits_each_missing, crate::proofs::ArrayLaws::fits_each_fails, crate::proofs::ArrayLaws::fits_each_holds))]
    pub fn fits_each(&self, kind: Kind) -> Acting
        ensures { Acts self.now (operator_effect (acts.fits_each kind) self.now.core) self.now result }
    {
        if !self.has_arrays(1) {
            return Acting::Stuck;
        }
        if are_of_kind(kind, self.elements()) {
            return Acting::Done;
        }
        Acting::Fault(OVERFLOW)
    }
}

/// The first of some numbers.
fn first_of(vs: &[i64]) -> Option<i64>
    ensures some { IfSome result (λ v. vs.now ≡ v ∷ drop 1 vs.now) }
    ensures none { IfNone result (length vs.now ≡ 0) }
{
    match vs {
        [] => None,
        [v, ..] => Some(*v),
    }
}

/// Whether each of some numbers is one of this kind.
fn are_of_kind(kind: Kind, vs: &[i64]) -> bool
    ensures { result ≡ list_all (fits_kind kind) vs.now }
{
    vs.iter().all(|v| is_of_kind(kind, *v))
}
