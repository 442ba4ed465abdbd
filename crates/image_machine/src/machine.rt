//! The machine of an image, at its next ask or at its end.

ghost use Rattle.std.specs.Prelude.{◌≡◌, ◌≤◌, ◌<◌, ◌*◌, ◌^◌, ℕ, [], None, Some, length, map, slice_get, sum_by, IfOk, IfSome, IfNone};
ghost use Rattle.std.specs.Arc.{arc_value};
ghost use Rattle.trace_theory.specs.Machines.{go, goes, Rests};
ghost use Rattle.caf_events.specs.Walkers.{IsAtAsk, AsksNext, NextIs};
ghost use Rattle.image_acts.specs.Acts.{host};
ghost use Rattle.image_acts.specs.Faults as faults;
ghost use Rattle.image_acts.specs.Frames.{array_in, cell_in};
ghost use Rattle.image_code.specs.declared.step.Step.{Step};
ghost use Rattle.image_state.specs.Acting.{HasFrame};
ghost use Rattle.local_arrays.specs.Arrays.{elements_of};
ghost use Rattle.image_state.specs.declared.state.Rooms.{Rooms};
ghost use Rattle.image_machine.specs.Engine.{start_of, bare, kept_of};
ghost use Rattle.coarray_tables.specs.Start.{AreFew, first_own, own_size};
ghost use Rattle.image_machine.specs.Walk.{ArePlain, HasRoom, IsWell, machine_step, Stood, Answered};
ghost use Rattle.quick_code.specs.Quick.{Covers};
ghost use Rattle.image_state.specs.Kept.{table_of};
ghost use Rattle.team_tables.specs.Tables as teams;

use crate::engine::{Engine, Went};
use caf_base::place::{ImageNo, Place};
use caf_base::refusal::NoMemory;
use caf_events::ask::Ask;
use caf_events::event::Event;
use caf_events::fault::FaultKind;
use caf_events::reply::Reply;
use caf_events::walker::{Next, Walker};
use image_code::code::Code;
use image_code::step::Step;
use image_state::state::{ImageState, Rooms};
use image_stores::numbers::Numbers;
use quick_code::quick::{Quick, quick_code};
use std::alloc::Global;
use std::marker::Model;
use std::sync::Arc;

/// The machine of an image at its next ask, or after its last step.
#[derive(Drop)]
pub struct Machine {
    alloc: Global,
    engine: Engine,
    stand: Went,
    quick: Vec<Quick>,
    stack: Numbers,
}

impl Model for Machine {
    ghost use Rattle.std.specs.Prelude.{◌≡◌, ◌≤◌, [], length};
    ghost use Rattle.quick_code.specs.Quick.{Covers};
    ghost use Rattle.image_machine.specs.Engine.{Engine};
    ghost use Rattle.image_machine.specs.Walk.{IsWell, Stood};

    ghost Value = { Engine };

    ghost view = { λ m. m.engine };

    ghost invariant = { λ m. IsWell m.engine × Stood m.engine m.stand × Covers m.engine.code.program.steps m.quick.items × (length m.quick.items ≤ 4294967295) × (m.stack.values ≡ []) × (m.stack.size ≤ m.engine.rooms.numbers) };
}

impl Machine {
    /// Image `me` of so many at the first ask of its code, which may count so many statements. Its stack, its frames
    /// and all cells are made whole here. Conditions: the code's kinds and ranks are such as made code has, and so are
    /// its static coarrays (`AreFew`), which have 65,536 cells at most.
    #[tactic(auto, using(crate::proofs::Bare::bare_rests))]
    pub fn new(
        alloc: Global,
        code: Arc<Code>,
        me: ImageNo,
        n: u32,
        limit: u64,
    ) -> Result<Machine, NoMemory>
        requires limit { limit ≤ 100000000 }
        requires plain { ArePlain (arc_value code).program.steps }
        requires few { AreFew (arc_value code).program.tables.coarrays }
        requires cells { sum_by own_size (map first_own (arc_value code).program.tables.coarrays) ≤ 65536 }
        ensures start { IfOk result (λ m. (rooms : Rooms) × (steps : ℕ) × (go machine_step steps (start_of (arc_value code) limit rooms me.0 n) ≡ goes (bare m))) }
        ensures rests { IfOk result (λ m. Rests (machine_step (bare m))) }
    {
        let rooms = rooms(&code)?;
        let quick = quick_of(alloc, &code)?;
        let mut stack = quick_stack(alloc, rooms.numbers)?;
        let image = ImageState::new(alloc, code, rooms, me, n)?;
        let mut engine = Engine::new(alloc, image, limit)?;
        let stand = engine.run(quick.as_slice(), &mut stack, alloc);
        Ok(Machine {
            alloc,
            engine,
            stand,
            quick,
            stack,
        })
    }

    /// A scalar of the main program, where it is there.
    pub fn scalar(&self, x: u32) -> Option<i64>
        ensures { result ≡ cell_in host x self.now.state.core }
    {
        self.engine.scalar(x)
    }

    /// The elements of an array of the main program, where it is allocated.
    pub fn elements(&self, x: u32) -> Option<&[i64]>
        ensures some { IfSome result (λ xs. elements_of (array_in host x self.now.state.core) ≡ Some xs.now) }
        ensures none { IfNone result (array_in host x self.now.state.core ≡ None) }
    {
        self.engine.elements(x)
    }
}

impl Walker for Machine {
    ghost use Rattle.image_state.specs.Kept.{table_of};
    ghost use Rattle.team_tables.specs.Tables as teams;
    ghost use Rattle.image_machine.specs.Engine.{Engine, bare, kept_of};
    ghost use Rattle.image_machine.specs.Walk.{machine_step, left_of};

    ghost Config = { Engine };

    ghost config = { bare };

    ghost step = { machine_step };

    ghost hears = { λ c reply. Unit {0} };

    ghost asks_left = { left_of };

    ghost has_room = { λ m. teams.HasRoom (table_of (kept_of m)) };

    #[tactic(auto, using(crate::proofs::Bare::bare_next))]
    fn next(&self) -> Next {
        next_of(&self.engine, self.stand)
    }

    #[tactic(auto, using(crate::proofs::Bare::bare_ask, crate::proofs::Bare::bare_asks))]
    fn ask(&self) -> Result<Ask, NoMemory> {
        ask_of(&self.engine, self.stand)
    }

    #[tactic(auto, using(crate::proofs::Bare::bare_ask, crate::proofs::Bare::bare_line))]
    fn line(&self) -> u32 {
        self.engine.line()
    }

    #[tactic(auto, using(crate::proofs::Bare::bare_same, crate::proofs::Bare::well_room, crate::proofs::Bare::stood_room))]
    fn reserve(&mut self) -> Result<(), NoMemory> {
        self.engine.reserve()
    }

    #[tactic(auto, using(crate::proofs::Bare::bare_at, crate::proofs::Bare::bare_rests))]
    fn give(&mut self, event: &Event) {
        take(&mut self.engine, self.stand, event, self.alloc);
        self.stand = self
            .engine
            .run(self.quick.as_slice(), &mut self.stack, self.alloc);
    }
}

/// What an engine that stands there does next.
#[tactic(auto, using(crate::proofs::Walking::stood_plain, crate::proofs::Walking::stood_asks, crate::proofs::Walking::next_there))]
fn next_of(engine: &Engine, stand: Went) -> Next
    requires { Stood engine.now stand }
    ensures { NextIs (machine_step engine.now) result }
{
    match stand {
        Went::Fault(_) | Went::Limit => Next::Ask(Place::Own),
        Went::Asks(ask) => Next::Ask(engine.place_of(ask)),
        Went::Over => Next::Ended,
        Went::On => unreachable!(),
    }
}

/// The ask at which an engine stands.
#[tactic(auto, using(crate::proofs::Walking::stood_plain, crate::proofs::Walking::stood_asks, crate::proofs::Walking::asks_there))]
fn ask_of(engine: &Engine, stand: Went) -> Result<Ask, NoMemory>
    requires stood { Stood engine.now stand }
    requires ask { IsAtAsk (machine_step engine.now) }
    ensures { IfOk result (AsksNext (machine_step engine.now)) }
{
    match stand {
        Went::Fault(n) => Ok(Ask::Fault { kind: fault_of(n) }),
        Went::Limit => Ok(Ask::LimitStatements {
            number: engine.next_count(),
        }),
        Went::Asks(ask) => engine.ask_of(ask),
        Went::Over | Went::On => unreachable!(),
    }
}

/// Goes on after the reply of an event.
fn take(engine: &mut Engine, stand: Went, event: &Event, alloc: Global)
    requires well { IsWell engine.old }
    requires stood { Stood engine.old stand }
    requires ask { IsAtAsk (machine_step engine.old) }
    requires teams { teams.HasRoom (table_of (kept_of engine.old)) }
    ensures { Answered (machine_step engine.old) event.now.reply engine.new }
{
    let reply = event.reply(alloc);
    hear(engine, stand, &reply);
    drop(reply);
}

/// Goes on after the reply, where the engine stands at an ask.
#[tactic(auto, using(crate::proofs::Walking::ask_within, crate::proofs::Walking::ask_room, crate::proofs::Walking::ask_place, crate::proofs::Walking::stood_plain, crate::proofs::Walking::stood_asks, crate::proofs::Walking::answered_there))]
fn hear(engine: &mut Engine, stand: Went, reply: &Reply)
    requires well { IsWell engine.old }
    requires stood { Stood engine.old stand }
    requires ask { IsAtAsk (machine_step engine.old) }
    requires teams { teams.HasRoom (table_of (kept_of engine.old)) }
    ensures { Answered (machine_step engine.old) reply.now engine.new }
{
    match stand {
        Went::Fault(_) => engine.end_after_fault(),
        Went::Limit => engine.end(),
        Went::Asks(ask) => engine.answer(ask, reply),
        Went::Over | Went::On => unreachable!(),
    }
}

/// The most numbers on the stack of quick steps.
const MOST_NUMBERS: usize = 64;

/// A stack for quick steps, which has no more room than the image's.
fn quick_stack(alloc: Global, numbers: usize) -> Result<Numbers, NoMemory>
    ensures empty { IfOk result (λ s. s.values ≡ []) }
    ensures room { IfOk result (λ s. s.size ≤ numbers) }
{
    let size = numbers.min(MOST_NUMBERS);
    Ok(Numbers::new(vec![in alloc; 0i64; size]?))
}

/// The quick code of a code.
fn quick_of(alloc: Global, code: &Code) -> Result<Vec<Quick>, NoMemory>
    ensures covers { IfOk result (λ qs. Covers code.now.program.steps qs.items) }
    ensures few { IfOk result (λ qs. length qs.items ≤ 4294967295) }
{
    let length = code.length();
    prove!(length <= 4294967295);
    quick_code(alloc, code.steps())
}

/// Room for the stacks of all bodies, and for a frame.
fn rooms(code: &Code) -> Result<Rooms, NoMemory>
    ensures { IfOk result (λ r. HasRoom code.now r) }
{
    let most = code.highest();
    let frame = frame_room(code.steps());
    Ok(Rooms {
        numbers: stack_room(most.numbers)?,
        arrays: stack_room(most.arrays)?,
        texts: stack_room(most.texts)?,
        scalars: frame.scalars,
        locals: frame.locals,
    })
}

/// The fault with this number.
fn fault_of(n: u32) -> FaultKind
    ensures { result ≡ faults.fault_of n }
{
    match n {
        2 => FaultKind::DivideByZero,
        3 => FaultKind::Bounds,
        4 => FaultKind::ZeroStep,
        5 => FaultKind::CoBounds,
        6 => FaultKind::NotAllocated,
        7 => FaultKind::NotEstablished,
        8 => FaultKind::NoTeam,
        9 => FaultKind::Cells,
        10 => FaultKind::Depth,
        11 => FaultKind::Room,
        12 => FaultKind::Shape,
        13 => FaultKind::Format,
        _ => FaultKind::Overflow,
    }
}

/// Room for a part of the stacks of 258 bodies, where that of one is no higher than this.
fn stack_room(most: u64) -> Result<usize, NoMemory>
    ensures { IfOk result (λ room. most * 258 < room) }
{
    let Some(room) = most.checked_mul(258) else {
        return Err(NoMemory);
    };
    let Some(room) = room.checked_add(1) else {
        return Err(NoMemory);
    };
    Ok(room as usize)
}

/// Room for a procedure's frame: so many scalars with hidden cells, and so many arrays.
#[derive(Clone, Copy)]
struct FrameRoom {
    scalars: u32,
    locals: u32,
}

/// Room for each frame that some step begins.
fn frame_room(steps: &[Step]) -> FrameRoom
    ensures { (p : ℕ) (s : Step) → slice_get steps.now p ≡ Some s → HasFrame result.scalars result.locals s }
{
    let mut most = FrameRoom {
        scalars: 0,
        locals: 0,
    };
    for p in 0..steps.len() {
        most = with_frame(step_at(steps, p), most);
    }
    most
}

/// The same with room for the frame that a step begins.
fn with_frame(step: Step, most: FrameRoom) -> FrameRoom
    ensures frame { HasFrame result.scalars result.locals step }
    ensures scalars { most.scalars ≤ result.scalars }
    ensures locals { most.locals ≤ result.locals }
{
    match step {
        Step::BeginFrame(cells, arrays, _) => FrameRoom {
            scalars: most.scalars.max(cells),
            locals: most.locals.max(arrays),
        },
        _ => most,
    }
}

/// The step at a place.
fn step_at(steps: &[Step], p: usize) -> Step
    requires { p < length steps.now }
    ensures { slice_get steps.now p ≡ Some result }
{
    steps[p]
}
