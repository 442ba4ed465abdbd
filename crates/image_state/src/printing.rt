//! Texts that were begun, and what is to be printed (ISO/IEC 1539-1:2018, 12.6.3).

ghost use Rattle.std.specs.Prelude.{◌≡◌, ◌<◌, ◌≤◌, ◌+◌, ◌∷◌, [], drop, length, map, IsTrue, IsFalse, IfOk, Some};
ghost use Rattle.std.specs.Option.{option_map};
ghost use Rattle.image_acts.specs.Acts as acts;
ghost use Rattle.image_acts.specs.Core.{with_values};
ghost use Rattle.image_acts.specs.Taking.{using};
ghost use Rattle.walk_theory.specs.Terms.{found, at_fault};
ghost use Rattle.image_acts.specs.Faults.{format_fault};
ghost use Rattle.image_acts.specs.Operate.Printing.{open_portions, printed, print_effect, text_of};
ghost use Rattle.image_acts.specs.Operate.Printing.{item_of as item_of_kind};
ghost use Rattle.image_stores.specs.Piles.{items_in};
ghost use Rattle.array_values.specs.Values.{elements_on_top};
ghost use Rattle.print_text.specs.Items.{text_at, portion_of, IsFound};
ghost use Rattle.print_text.specs.declared.item.Portion.TheVariants.{Literals};
ghost use Rattle.image_state.specs.Acting.{with_core, Acts};
ghost use Rattle.image_state.specs.Kept.{texts_of};
ghost use Rattle.image_state.specs.Texts.{with_texts, with_portion, with_literal, with_items, innermost, begun, value_printed, element_portion, heaped_all, IsPut, HasNoRoom};
ghost use Rattle.image_state.specs.Texts.{with_next as next_in};

use crate::state::{Acting, ImageState, MOST_EVALUATED, MOST_PORTIONS};
use caf_base::listing::Text;
use caf_base::refusal::NoMemory;
use caf_base::value::Kind;
use caf_events::fault::ROOM;
use image_stores::piles::Piles;
use print_text::item::Portion;
use print_text::{fault_of, text_of};

impl ImageState {
    /// Whether a text was begun.
    #[tactic(auto, using(crate::proofs::PrintLaws::texts_long))]
    pub fn has_text(&self) -> bool
        ensures there { IsTrue result → 0 < length self.now.core.printing }
        ensures not { IsFalse result → length self.now.core.printing ≡ 0 }
    {
        self.prints.len() != 0
    }

    /// Whether there is no room for a further portion.
    #[tactic(auto, using(crate::proofs::PrintLaws::items_open))]
    fn is_text_full(&self) -> bool
        ensures full { IsTrue result → 131329 ≤ open_portions self.now.core.printing }
        ensures not { IsFalse result → open_portions self.now.core.printing < 131329 }
    {
        self.prints.total() >= MOST_PORTIONS
    }

    /// Begins a text.
    #[tactic(auto, using(crate::proofs::PrintLaws::texts_long))]
    fn begin_text(&mut self, format: Option<u32>)
        requires { length self.old.core.printing < self.old.rooms.texts }
        ensures { self.new ≡ with_core self.old (with_texts self.old.core (begun (option_map (text_at (texts_of self.old)) format) self.old.core.printing)) }
    {
        self.prints.begin(format);
    }

    /// Adds a portion to the innermost text.
    #[tactic(auto, using(crate::proofs::PrintLaws::texts_long, crate::proofs::PrintLaws::items_open, crate::proofs::PrintLaws::portion_added))]
    fn add_portion(&mut self, portion: Portion)
        requires there { 0 < length self.old.core.printing }
        requires room { open_portions self.old.core.printing < 131329 }
        ensures { self.new ≡ with_core self.old (with_texts self.old.core (with_portion (portion_of (texts_of self.old) portion) self.old.core.printing)) }
    {
        self.prints.add(portion);
    }

    /// Drops the innermost text.
    #[tactic(auto, using(crate::proofs::PrintLaws::texts_long, crate::proofs::PrintLaws::text_ended))]
    pub fn end_text(&mut self)
        requires { 0 < length self.old.core.printing }
        ensures { self.new ≡ with_core self.old (with_texts self.old.core (drop 1 self.old.core.printing)) }
    {
        self.prints.end();
    }

    /// Does the step `BeginFree`.
    pub fn begin_free(&mut self) -> Acting
        requires { length self.old.core.printing < self.old.rooms.texts }
        ensures { Acts self.old (print_effect acts.begin_free self.old.core) self.new result }
    {
        self.begin_text(None);
        Acting::Done
    }

    /// Does the step `BeginFormat`.
    pub fn begin_format(&mut self, text: u32) -> Acting
        requires { length self.old.core.printing < self.old.rooms.texts }
        ensures { Acts self.old (print_effect (acts.begin_format (text_at (texts_of self.old) text)) self.old.core) self.new result }
    {
        self.begin_text(Some(text));
        Acting::Done
    }

    /// Adds a literal to the innermost text, where there is room for it.
    fn add_literal(&mut self, text: u32) -> bool
        requires { 0 < length self.old.core.printing }
        ensures put { IsTrue result → (self.new ≡ with_core self.old (with_texts self.old.core (with_literal text (text_at (texts_of self.old) text) self.old.core.printing))) × (open_portions (with_literal text (text_at (texts_of self.old) text) self.old.core.printing) ≤ 131329) }
        ensures full { IsFalse result → (self.new ≡ self.old) × (131329 < open_portions (with_literal text (text_at (texts_of self.old) text) self.old.core.printing)) }
    {
        put_literal(&mut self.prints, text)
    }

    /// Does the step `PrintLiteral`.
    #[tactic(auto, using(crate::proofs::PrintLaws::prints_nothing, crate::proofs::PrintLaws::prints_too_much, crate::proofs::PrintLaws::prints))]
    pub fn print_literal(&mut self, text: u32) -> Acting
        ensures { Acts self.old (print_effect (acts.print_literal text (text_at (texts_of self.old) text)) self.old.core) self.new result }
    {
        if !self.has_text() {
            return Acting::Stuck;
        }
        if !self.add_literal(text) {
            return Acting::Fault(ROOM);
        }
        Acting::Done
    }

    /// Does the step `PrintNumber`.
    #[tactic(auto, using(crate::proofs::Taking::none_taken, crate::proofs::PrintLaws::number_printed))]
    pub fn print_number(&mut self) -> Acting
        ensures { Acts self.old (print_effect acts.print_number self.old.core) self.new result }
    {
        match self.top() {
            None => Acting::Stuck,
            Some(v) => self.print_value(Portion::Integer(v)),
        }
    }

    /// Does the step `PrintTruth`.
    #[tactic(auto, using(crate::proofs::Taking::none_taken, crate::proofs::PrintLaws::truth_printed))]
    pub fn print_truth(&mut self) -> Acting
        ensures { Acts self.old (print_effect acts.print_truth self.old.core) self.new result }
    {
        match self.top() {
            None => Acting::Stuck,
            Some(v) => self.print_value(Portion::Logical(v != 0)),
        }
    }

    /// Prints an item for the number on top.
    #[tactic(auto, using(crate::proofs::PrintLaws::value_full, crate::proofs::PrintLaws::value_lacks, crate::proofs::PrintLaws::value_too_much, crate::proofs::PrintLaws::value_prints))]
    fn print_value(&mut self, portion: Portion) -> Acting
        requires { 0 < length self.old.core.values }
        ensures { Acts self.old (value_printed (portion_of (texts_of self.old) portion) (drop 1 self.old.core.values) self.old.core) self.new result }
    {
        if self.used >= MOST_EVALUATED {
            return Acting::Fault(ROOM);
        }
        if !self.has_text() {
            return Acting::Stuck;
        }
        if self.is_text_full() {
            return Acting::Fault(ROOM);
        }
        self.put_value(portion);
        Acting::Done
    }

    /// Drops the number on top and adds a portion to the innermost text; one evaluation cell more is in use.
    fn put_value(&mut self, portion: Portion)
        requires value { 0 < length self.old.core.values }
        requires cell { self.old.core.used < 65536 }
        requires there { 0 < length self.old.core.printing }
        requires room { open_portions self.old.core.printing < 131329 }
        ensures { self.new ≡ with_core self.old (with_texts (record (with_values self.old.core (drop 1 self.old.core.values)) { used = self.old.core.used + 1 }) (with_portion (portion_of (texts_of self.old) portion) self.old.core.printing)) }
    {
        self.drop_top(1);
        self.used += 1;
        self.add_portion(portion);
    }

    /// Whether there is no room for the elements of the top array among the portions.
    #[tactic(auto, using(crate::proofs::PrintLaws::items_open))]
    fn is_full_for_array(&self) -> bool
        ensures full { IsTrue result → 131329 < open_portions self.now.core.printing + length (elements_on_top self.now.core.arrays) }
        ensures not { IsFalse result → open_portions self.now.core.printing + length (elements_on_top self.now.core.arrays) ≤ 131329 }
    {
        self.elements().len() > MOST_PORTIONS - self.prints.total()
    }

    /// Adds the elements of the top array to the innermost text.
    #[tactic(auto, using(crate::proofs::PrintLaws::texts_long, crate::proofs::PrintLaws::items_open, crate::proofs::PrintLaws::items_added))]
    fn add_elements(&mut self, kind: Kind)
        requires there { 0 < length self.old.core.printing }
        requires room { open_portions self.old.core.printing + length (elements_on_top self.old.core.arrays) ≤ 131329 }
        ensures { self.new ≡ with_core self.old (with_texts self.old.core (with_items (map (item_of_kind kind) (elements_on_top self.old.core.arrays)) self.old.core.printing)) }
    {
        put_items(&mut self.prints, kind, self.arrays.elements());
    }

    /// Does the step `PrintArray`.
    #[tactic(auto, using(crate::proofs::PrintLaws::array_not_there, crate::proofs::PrintLaws::array_without_text, crate::proofs::PrintLaws::array_too_much, crate::proofs::PrintLaws::array_printed))]
    pub fn print_array(&mut self, kind: Kind) -> Acting
        ensures { Acts self.old (print_effect (acts.print_array kind) self.old.core) self.new result }
    {
        if !self.has_arrays(1) {
            return Acting::Stuck;
        }
        if !self.has_text() {
            return Acting::Stuck;
        }
        if self.is_full_for_array() {
            return Acting::Fault(ROOM);
        }
        self.add_elements(kind);
        self.drop_top_array();
        Acting::Done
    }

    /// Whether the format of the innermost text has another edit descriptor than one of its items wants.
    #[tactic(auto, using(crate::proofs::PrintLaws::innermost_is))]
    pub fn has_fault(&self) -> bool
        requires { 0 < length self.now.core.printing }
        ensures faults { IsTrue result → text_of (innermost self.now.core.printing) ≡ at_fault format_fault }
        ensures prints { IsFalse result → IsFound (text_of (innermost self.now.core.printing)) }
    {
        match self.prints.head() {
            None => unreachable!(),
            Some(format) => fault_of(
                self.code.tables().texts.as_slice(),
                format,
                self.prints.newest(),
            ),
        }
    }

    /// The innermost text.
    #[tactic(auto, using(crate::proofs::PrintLaws::innermost_is))]
    pub fn text(&self) -> Result<Text, NoMemory>
        requires there { 0 < length self.now.core.printing }
        requires prints { IsFound (text_of (innermost self.now.core.printing)) }
        ensures { IfOk result (λ t. text_of (innermost self.now.core.printing) ≡ found t) }
    {
        match self.prints.head() {
            None => unreachable!(),
            Some(format) => text_of(
                self.alloc,
                self.code.tables().texts.as_slice(),
                format,
                self.prints.newest(),
            ),
        }
    }
}

/// A number of this kind as a portion.
fn portion_of(kind: Kind, v: i64) -> Portion
    ensures { result ≡ element_portion kind v }
{
    match kind {
        Kind::I4 | Kind::I8 => Portion::Integer(v),
        Kind::L4 => Portion::Logical(v != 0),
    }
}

/// Adds numbers of this kind to the newest text.
#[tactic(auto, using(crate::proofs::PrintLaws::heaped_more, crate::proofs::PrintLaws::heaped_long, crate::proofs::PrintLaws::heaped_many))]
fn put_items(prints: &mut Piles<Option<u32>, Portion>, kind: Kind, values: &[i64])
    requires some { 0 < length prints.old.piles }
    requires room { items_in prints.old.piles + length values.now ≤ prints.old.size }
    ensures { prints.new ≡ record { piles = heaped_all (map (element_portion kind) values.now) prints.old.piles; most = prints.old.most; size = prints.old.size } }
{
    for i in 0..values.len() {
        prints.add(portion_of(kind, values[i]));
    }
}

/// Literals with the one that has this number, where it comes next behind them in the program.
fn with_next(last: Option<Portion>, text: u32) -> Option<Portion>
    ensures { result ≡ next_in last text }
{
    match last {
        Some(Portion::Literals(first, more)) => one_more(first, more, text),
        Some(Portion::Integer(_) | Portion::Logical(_)) | None => None,
    }
}

/// The same behind the literal with this number and so many more.
fn one_more(first: u32, more: u32, text: u32) -> Option<Portion>
    ensures { result ≡ next_in (Some (Literals first more)) text }
{
    if u64::from(text) != u64::from(first) + u64::from(more) + 1 {
        return None;
    }
    Some(Portion::Literals(first, more + 1))
}

/// Puts a literal into the newest text, with the literals that stand last there where it comes next behind them in the
/// program; says whether there was room.
#[tactic(auto, using(crate::proofs::PrintLaws::put_joined, crate::proofs::PrintLaws::put_apart, crate::proofs::PrintLaws::not_put, crate::proofs::PrintLaws::last_there))]
fn put_literal(prints: &mut Piles<Option<u32>, Portion>, text: u32) -> bool
    requires some { 0 < length prints.old.piles }
    requires size { prints.old.size ≡ 131329 }
    ensures most { prints.new.most ≡ prints.old.most }
    ensures size { prints.new.size ≡ prints.old.size }
    ensures put { IsTrue result → IsPut text prints.old prints.new }
    ensures full { IsFalse result → HasNoRoom text prints.old prints.new }
{
    if let Some(longer) = with_next(prints.last(), text) {
        prints.set_last(longer);
        return true;
    }
    if prints.total() >= MOST_PORTIONS {
        return false;
    }
    prints.add(Portion::Literals(text, 0));
    true
}
