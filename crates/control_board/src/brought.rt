//! What each image has brought to the collective subroutines of each team.

ghost use Rattle.std.specs.Prelude.{◌≡◌, ◌-◌, ◌<◌, ◌≤◌, ℕ, [], ◌∷◌, ◌++◌, Some, length, map, replicate, slice_get, slice_set, IfOk, OnOk, vec_len, vec_capacity};
ghost use Rattle.caf_base.specs.declared.value.Value.{Value};
ghost use Rattle.control_board.specs.Boards.{values_in, values_of, table_of, IsKeptWith, IsKeptIn, HasRoomIn};
ghost use Rattle.control_board.specs.Values.{BroughtState, no_values};

use caf_base::few::Few;
use caf_base::place::{ImageNo, TeamNo};
use caf_base::refusal::NoMemory;
use caf_base::value::Value;
use std::alloc::Global;
use std::marker::Model;
use team_round::round::Arrival;

/// The values of each call of an image, the first one first. In a contract it is these, and room for more.
#[derive(Drop)]
pub struct Brought {
    values: Vec<Few<Value>>,
}

impl Model for Brought {
    ghost use Rattle.std.specs.Prelude.{◌-◌};
    ghost use Rattle.std.specs.Vec.{vec_capacity, vec_len};
    ghost use Rattle.control_board.specs.Values.{BroughtState};

    ghost Value = { BroughtState };

    ghost view = { λ b. record { values = b.values.items; room = vec_capacity b.values - vec_len b.values } };
}

impl Brought {
    // Nothing yet.
    fn new(alloc: Global) -> Brought
        ensures { result ≡ no_values }
    {
        Brought {
            values: Vec::new(alloc),
        }
    }

    // Makes room for the values of one more call.
    fn reserve(&mut self) -> Result<(), NoMemory>
        ensures values { self.new.values ≡ self.old.values }
        ensures room { OnOk result (0 < self.new.room) }
    {
        self.values.reserve(1)?;
        Ok(())
    }

    // Puts the values of a call behind the others. It takes no memory.
    fn push(&mut self, values: Few<Value>)
        requires { 0 < self.old.room }
        ensures { self.new.values ≡ self.old.values ++ values ∷ [] }
    {
        self.values.push_reserved(values);
    }

    // The values of the call of this number, from 1.
    fn at(&self, call: u64) -> &[Value]
        requires { (0 < call) × (call ≤ length self.now.values) }
        ensures { slice_get self.now.values (call - 1) ≡ Some result.now }
    {
        self.values[(call - 1) as usize].as_slice()
    }
}

/// What each image of the run has brought to the collective subroutines of one team. In a contract it is a list, that
/// of image 1 first.
#[derive(Drop)]
pub struct Table {
    rows: Vec<Brought>,
}

impl Model for Table {
    ghost use Rattle.std.specs.Prelude.{List};
    ghost use Rattle.control_board.specs.Values.{BroughtState};

    ghost Value = { List BroughtState };

    ghost view = { λ t. t.rows.items };
}

impl Table {
    // For each image of n: nothing yet.
    pub(crate) fn new(alloc: Global, n: u32) -> Result<Table, NoMemory>
        ensures { IfOk result (λ t. t ≡ replicate n no_values) }
    {
        let mut rows = Vec::new(alloc);
        for _ in 0..n {
            rows.push(Brought::new(alloc))?;
        }
        Ok(Table { rows })
    }

    // Makes room for what the image brings to one more call.
    fn reserve(&mut self, image: ImageNo) -> Result<(), NoMemory>
        requires { (0 < image.0) × (image.0 ≤ length self.old) }
        ensures values { values_in self.new ≡ values_in self.old }
        ensures room { OnOk result ((x : BroughtState) → slice_get self.new (image.0 - 1) ≡ Some x → 0 < x.room) }
    {
        self.rows[(image.0 - 1) as usize].reserve()
    }

    // Keeps what the image brings to one more call. It takes no memory.
    fn keep(&mut self, image: ImageNo, values: Few<Value>)
        requires image { (0 < image.0) × (image.0 ≤ length self.old) }
        requires room { (x : BroughtState) → slice_get self.old (image.0 - 1) ≡ Some x → 0 < x.room }
        ensures { values_in self.new ≡ slice_set (values_in self.old) (image.0 - 1) (values_of self.old image.0 ++ values ∷ []) }
    {
        self.rows[(image.0 - 1) as usize].push(values);
    }

    // What the image brought to its call of this number, from 1.
    fn at(&self, image: ImageNo, call: u64) -> &[Value]
        requires image { (0 < image.0) × (image.0 ≤ length self.now) }
        requires call { (0 < call) × (call ≤ length (values_of self.now image.0)) }
        ensures { slice_get (values_of self.now image.0) (call - 1) ≡ Some result.now }
    {
        self.rows[(image.0 - 1) as usize].at(call)
    }
}

// Makes room for what the image brings to one more call of the team.
pub(crate) fn make_room_for(
    tables: &mut Vec<Table>,
    team: TeamNo,
    image: ImageNo,
) -> Result<(), NoMemory>
    requires team { (0 < team.0) × (team.0 ≤ length tables.old.items) }
    requires image { (0 < image.0) × (image.0 ≤ length (table_of tables.old.items team.0)) }
    ensures values { map values_in tables.new.items ≡ map values_in tables.old.items }
    ensures room { OnOk result (HasRoomIn tables.new.items team.0 image.0) }
{
    tables[(team.0 - 1) as usize].reserve(image)
}

// Keeps what the image brings where its arrival joined a round of the team. It takes no memory.
pub(crate) fn keep_joined(
    tables: &mut Vec<Table>,
    team: TeamNo,
    image: ImageNo,
    values: Few<Value>,
    arrival: Arrival,
)
    requires team { (0 < team.0) × (team.0 ≤ length tables.old.items) }
    requires image { (0 < image.0) × (image.0 ≤ length (table_of tables.old.items team.0)) }
    requires room { HasRoomIn tables.old.items team.0 image.0 }
    ensures { IsKeptIn tables.old.items tables.new.items team.0 image.0 values arrival }
{
    match arrival {
        Arrival::Joined(_) => tables[(team.0 - 1) as usize].keep(image, values),
        Arrival::Clash { .. } => drop(values),
    }
}

// What the image brought to its call of this number of the team, from 1.
pub(crate) fn brought_at(tables: &Vec<Table>, team: TeamNo, image: ImageNo, call: u64) -> &[Value]
    requires team { (0 < team.0) × (team.0 ≤ length tables.now.items) }
    requires image { (0 < image.0) × (image.0 ≤ length (table_of tables.now.items team.0)) }
    requires call { (0 < call) × (call ≤ length (values_of (table_of tables.now.items team.0) image.0)) }
    ensures { slice_get (values_of (table_of tables.now.items team.0) image.0) (call - 1) ≡ Some result.now }
{
    tables[(team.0 - 1) as usize].at(image, call)
}
