//! The coarrays that a program declares, as a memory sees them.

ghost use Rattle.std.specs.Prelude.{◌≡◌, nat_eq, [], length, slice_get, IfOk};
ghost use Rattle.std.specs.List.{list_all};
ghost use Rattle.object_rules.specs.Folds.{is_of_kind};
ghost use Rattle.object_rules.specs.Cells.{MadeMemory};
ghost use Rattle.object_rules.specs.MemoryRules.{is_values, is_lock, is_event, holds, suits_values, suits_atomic, is_of_type, has_operands, is_logical_op, is_allocatable, is_one_cell, is_here, is_own, is_cell_of, fits_memory};
ghost use Rattle.coarray_memory.specs.Memories.{declared_at, store_of, fresh_made, IsPlainAsk};

use crate::prepare::fresh_cells;
use crate::section::{has_cells, is_section};
use crate::store::Store;
use caf_base::limits::COARRAY_CELLS;
use caf_base::listing::Listing;
use caf_base::place::ImageNo;
use caf_base::refusal::NoMemory;
use caf_base::span::Span;
use caf_base::value::{AtomicOp, Kind, Value};
use caf_events::ask::Ask;
use std::alloc::Global;
use std::marker::Model;

/// What the cells of a coarray hold: values of a kind, lock variables, or event variables.
#[derive(Clone, Copy)]
pub enum Holding {
    Values(Kind),
    Locks,
    Events,
}

/// A declared coarray. An allocatable one has no cells before its allocation; a static one has so many, with first
/// values if it holds values.
#[derive(Drop)]
pub struct Coarray {
    pub holding: Holding,
    pub allocatable: bool,
    pub cells: u32,
    pub first: Listing<Value>,
}

/// Whose a memory is, and the coarrays in declared order.
#[derive(Drop)]
pub struct Declarations {
    pub owner: ImageNo,
    pub coarrays: Vec<Coarray>,
}

impl Model for Declarations {
    ghost use Rattle.std.specs.Prelude.{map};
    ghost use Rattle.object_rules.specs.Cells.{MadeMemory};
    ghost use Rattle.coarray_memory.specs.Memories.{declared_of};

    ghost Value = { MadeMemory };

    ghost view = { λ d. record { owner = d.owner; coarrays = map declared_of d.coarrays.items } };
}

// Whether the coarray holds values.
fn holds_values(coarrays: &Vec<Coarray>, coarray: u32) -> bool
    ensures { result ≡ holds is_values (declared_at coarrays.now.items coarray) }
{
    match coarrays.get(coarray as usize) {
        Some(declared) => match declared.holding {
            Holding::Values(_) => true,
            Holding::Locks => false,
            Holding::Events => false,
        },
        None => false,
    }
}

// Whether the coarray holds lock variables.
fn holds_locks(coarrays: &Vec<Coarray>, coarray: u32) -> bool
    ensures { result ≡ holds is_lock (declared_at coarrays.now.items coarray) }
{
    match coarrays.get(coarray as usize) {
        Some(declared) => match declared.holding {
            Holding::Values(_) => false,
            Holding::Locks => true,
            Holding::Events => false,
        },
        None => false,
    }
}

// Whether the coarray holds event variables.
fn holds_events(coarrays: &Vec<Coarray>, coarray: u32) -> bool
    ensures { result ≡ holds is_event (declared_at coarrays.now.items coarray) }
{
    match coarrays.get(coarray as usize) {
        Some(declared) => match declared.holding {
            Holding::Values(_) => false,
            Holding::Locks => false,
            Holding::Events => true,
        },
        None => false,
    }
}

// Whether the value is one of the kind.
fn is_of(kind: Kind, value: Value) -> bool
    ensures { result ≡ is_of_kind kind value }
{
    match kind {
        Kind::I4 => match value {
            Value::Int(n) => n >= -2_147_483_648 && n <= 2_147_483_647,
            Value::Bool(_) => false,
        },
        Kind::I8 => match value {
            Value::Int(_) => true,
            Value::Bool(_) => false,
        },
        Kind::L4 => match value {
            Value::Int(_) => false,
            Value::Bool(_) => true,
        },
    }
}

// Whether each of the values is one of the kind.
fn are_of(kind: Kind, values: &[Value]) -> bool
    ensures { result ≡ list_all (is_of_kind kind) values.now }
{
    values.iter().all(|value| is_of(kind, *value))
}

// Whether the values are of the coarray's type and kind.
fn suits(coarrays: &Vec<Coarray>, coarray: u32, values: &[Value]) -> bool
    ensures { result ≡ holds (suits_values values.now) (declared_at coarrays.now.items coarray) }
{
    match coarrays.get(coarray as usize) {
        Some(declared) => match declared.holding {
            Holding::Values(kind) => are_of(kind, values),
            Holding::Locks => false,
            Holding::Events => false,
        },
        None => false,
    }
}

// Whether the operand is of the type of the kind.
fn is_operand(kind: Kind, value: Value) -> bool
    ensures { result ≡ is_of_type kind value }
{
    match kind {
        Kind::I4 | Kind::I8 => match value {
            Value::Int(_) => true,
            Value::Bool(_) => false,
        },
        Kind::L4 => match value {
            Value::Int(_) => false,
            Value::Bool(_) => true,
        },
    }
}

// Whether the operands that the operator uses are of the type of the kind.
fn are_operands(op: AtomicOp, kind: Kind, x: Value, y: Value) -> bool
    ensures { result ≡ has_operands op kind x y }
{
    match op {
        AtomicOp::Ref => true,
        AtomicOp::Cas => is_operand(kind, x) && is_operand(kind, y),
        AtomicOp::Define | AtomicOp::Add | AtomicOp::And | AtomicOp::Or | AtomicOp::Xor =>
            is_operand(kind, x),
    }
}

// Whether the operator takes a logical variable too.
fn takes_logical(op: AtomicOp) -> bool
    ensures { result ≡ is_logical_op op }
{
    match op {
        AtomicOp::Define | AtomicOp::Ref | AtomicOp::Cas => true,
        AtomicOp::Add | AtomicOp::And | AtomicOp::Or | AtomicOp::Xor => false,
    }
}

// Whether the atomic action suits the coarray.
fn suits_action(coarrays: &Vec<Coarray>, coarray: u32, op: AtomicOp, x: Value, y: Value) -> bool
    ensures { result ≡ holds (suits_atomic op x y) (declared_at coarrays.now.items coarray) }
{
    match coarrays.get(coarray as usize) {
        Some(declared) => match declared.holding {
            Holding::Values(Kind::I4) => are_operands(op, Kind::I4, x, y),
            Holding::Values(Kind::I8) => false,
            Holding::Values(Kind::L4) => takes_logical(op) && are_operands(op, Kind::L4, x, y),
            Holding::Locks => false,
            Holding::Events => false,
        },
        None => false,
    }
}

// Whether the coarray is allocatable.
fn can_be_allocated(coarrays: &Vec<Coarray>, coarray: u32) -> bool
    ensures { result ≡ is_allocatable (declared_at coarrays.now.items coarray) }
{
    match coarrays.get(coarray as usize) {
        Some(declared) => declared.allocatable,
        None => false,
    }
}

// Whether the span is of one cell, at an offset that a coarray can have.
fn is_one(span: &Span) -> bool
    ensures { result ≡ is_one_cell span.now }
{
    span.dims.is_empty() && span.start < COARRAY_CELLS
}

impl Declarations {
    // Whether the memory that an ask names is this one.
    fn is_here(&self, owner: ImageNo) -> bool
        ensures { result ≡ is_here self.now owner }
    {
        owner == self.owner
    }

    /// The same, of an ask that the owner alone makes.
    pub fn is_own(&self, image: ImageNo, owner: ImageNo) -> bool
        ensures { result ≡ is_own self.now image.0 owner }
    {
        self.is_here(owner) && image == self.owner
    }

    /// Whether the coarray is allocatable.
    #[tactic(auto, using(crate::proofs::Declaring::get_declared))]
    pub fn is_allocatable(&self, coarray: u32) -> bool
        ensures { result ≡ is_allocatable (slice_get self.now.coarrays coarray) }
    {
        can_be_allocated(&self.coarrays, coarray)
    }

    // Whether the span is one cell of a coarray of values that the atomic action suits.
    #[tactic(auto, using(crate::proofs::Declaring::get_declared))]
    fn is_atom(&self, span: &Span, op: AtomicOp, x: Value, y: Value) -> bool
        ensures { result ≡ is_cell_of self.now (suits_atomic op x y) span.now }
    {
        is_one(span) && suits_action(&self.coarrays, span.coarray, op, x, y)
    }

    // Whether the span is one lock variable.
    #[tactic(auto, using(crate::proofs::Declaring::get_declared))]
    fn is_lock(&self, span: &Span) -> bool
        ensures { result ≡ is_cell_of self.now is_lock span.now }
    {
        is_one(span) && holds_locks(&self.coarrays, span.coarray)
    }

    /// Whether the span is one event variable.
    #[tactic(auto, using(crate::proofs::Declaring::get_declared))]
    pub fn is_event(&self, span: &Span) -> bool
        ensures { result ≡ is_cell_of self.now is_event span.now }
    {
        is_one(span) && holds_events(&self.coarrays, span.coarray)
    }

    // Whether the coarray holds values.
    #[tactic(auto, using(crate::proofs::Declaring::get_declared))]
    fn has_values(&self, coarray: u32) -> bool
        ensures { result ≡ holds is_values (slice_get self.now.coarrays coarray) }
    {
        holds_values(&self.coarrays, coarray)
    }

    // Whether the values are of the coarray's type and kind.
    #[tactic(auto, using(crate::proofs::Declaring::get_declared))]
    fn takes(&self, coarray: u32, values: &[Value]) -> bool
        ensures { result ≡ holds (suits_values values.now) (slice_get self.now.coarrays coarray) }
    {
        suits(&self.coarrays, coarray, values)
    }

    /// Whether an ask fits whose fitting doesn't depend on what is there.
    pub fn fits(&self, image: ImageNo, ask: &Ask) -> bool
        requires { IsPlainAsk ask.now }
        ensures { result ≡ fits_memory self.now [] image.0 ask.now }
    {
        match ask {
            Ask::Read { owner, span } => {
                self.is_here(*owner) && is_section(span) && self.has_values(span.coarray)
            }
            Ask::Write {
                owner,
                span,
                values,
            } => {
                self.is_here(*owner)
                    && is_section(span)
                    && has_cells(span, values.len())
                    && self.takes(span.coarray, values.as_slice())
            }
            Ask::Atomic {
                owner,
                op,
                span,
                x,
                y,
            } => self.is_here(*owner) && self.is_atom(span, *op, *x, *y),
            Ask::Lock { owner, span } => self.is_here(*owner) && self.is_lock(span),
            Ask::TryLock { owner, span } => self.is_here(*owner) && self.is_lock(span),
            Ask::Unlock { owner, span } => self.is_here(*owner) && self.is_lock(span),
            Ask::Free { owner, span } => self.is_here(*owner) && self.is_lock(span),
            Ask::Post { owner, span } => self.is_here(*owner) && self.is_event(span),
            Ask::Mark { owner } => self.is_own(image, *owner),
            _ => false,
        }
    }

    /// The store of the coarray that an ask allocates.
    #[tactic(auto, using(crate::proofs::Declaring::get_declared))]
    pub fn fresh_for(&self, alloc: Global, ask: &Ask) -> Result<Store, NoMemory>
        ensures { IfOk result (λ s. store_of s ≡ fresh_made self.now ask.now) }
    {
        match ask {
            Ask::Create { coarray, cells, .. } => match self.coarrays.get(*coarray as usize) {
                Some(declared) => fresh_cells(alloc, declared.holding, *cells),
                None => Ok(Store::Absent),
            },
            _ => Ok(Store::Absent),
        }
    }
}
