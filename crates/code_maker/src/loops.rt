//! Places in code: of the loops that are open, and where jumps go.

ghost use Rattle.std.specs.Prelude.{◌≡◌, ◌+◌, ◌∷◌, IfOk, OnOk};
ghost use Rattle.walk_theory.specs.Code.{on, jump_if};
ghost use Rattle.walk_theory.specs.Made.{cycle_instr, exit_instr};
ghost use Rattle.expr_code.specs.Drafts.{lines_in, with_line};
ghost use Rattle.code_maker.specs.Blocks as blocks;
ghost use Rattle.code_maker.specs.Loops.{open_loop, open_loops};

use caf_base::refusal::NoMemory;
use expr_code::draft::Draft;
use image_code::step::Step;
use std::alloc::Global;

/// Where an open loop goes on: with its next iteration, and behind it.
#[derive(Clone, Copy)]
pub struct LoopPlaces {
    pub next: u32,
    pub exit: u32,
}

/// A sum, if it is one of 64 bits.
pub fn sum(m: u64, n: u64) -> Result<u64, NoMemory>
    ensures { IfOk result (λ k. k ≡ m + n) }
{
    match m.checked_add(n) {
        Some(k) => Ok(k),
        None => Err(NoMemory),
    }
}

/// A place in code, if it is one of 32 bits.
pub fn place(n: u64) -> Result<u32, NoMemory>
    ensures { IfOk result (λ p. p ≡ n) }
{
    if n > 4294967295 {
        return Err(NoMemory);
    }
    Ok(n as u32)
}

/// The place so many steps behind the draft's end.
pub fn place_behind(draft: &Draft, size: u64) -> Result<u32, NoMemory>
    ensures { IfOk result (λ p. p ≡ lines_in draft.now.body + size) }
{
    place(sum(draft.length(), size)?)
}

/// Where a loop goes on whose iterations begin at this place, by the sizes of its body, of the way to the next
/// iteration, and of its test.
fn places_at(first: u32, body: u64, next: u64, test: u64) -> Result<LoopPlaces, NoMemory>
    ensures { IfOk result (λ x. open_loop x ≡ blocks.places_at first body next test) }
{
    let to_next = sum(first as u64 + 1, body)?;
    let to_exit = sum(sum(sum(to_next, next)?, test)?, 1)?;
    Ok(LoopPlaces {
        next: place(to_next)?,
        exit: place(to_exit)?,
    })
}

/// The open loops, and inside of them such a loop.
pub fn with_loop(
    alloc: Global,
    loops: &[LoopPlaces],
    first: u32,
    body: u64,
    next: u64,
    test: u64,
) -> Result<Vec<LoopPlaces>, NoMemory>
    ensures { IfOk result (λ inner. open_loops inner.items ≡ blocks.places_at first body next test ∷ open_loops loops.now) }
{
    let places = places_at(first, body, next, test)?;
    let mut inner = Vec::new(alloc);
    inner.push(places)?;
    inner.extend_from_slice(loops)?;
    Ok(inner)
}

/// Behind the start of a loop: the jump to its test, and the count of an iteration.
pub fn begin_iterations(draft: &mut Draft, body: u64, next: u64, line: u32) -> Result<(), NoMemory>
    ensures { OnOk result (draft.new ≡ blocks.iterations_begun line body next draft.old) }
{
    let test = place(sum(sum(sum(draft.length(), 2)?, body)?, next)?)?;
    draft.push(Step::Jump(test), line)?;
    draft.push(Step::Count, line)
}

/// Behind the test of a block of this size: the way past it.
pub fn push_passing(draft: &mut Draft, block: u64, line: u32) -> Result<(), NoMemory>
    ensures { OnOk result (draft.new ≡ blocks.passing line block draft.old) }
{
    let behind = place(sum(sum(draft.length(), 2)?, block)?)?;
    draft.push(Step::JumpUnless(behind), line)
}

/// EXIT of the loop that is so many loops out; where there is none, the body ends.
#[tactic(auto, using(std::proofs::lemmas::Option::gets, crate::proofs::OpenLoops::exit_at))]
pub fn push_exit(draft: &mut Draft, loops: &[LoopPlaces], n: u32, line: u32) -> Result<(), NoMemory>
    ensures { OnOk result (draft.new ≡ with_line (on line (exit_instr (open_loops loops.now) n)) draft.old) }
{
    match loops.get(n as usize) {
        Some(places) => draft.push(Step::Jump(places.exit), line),
        None => draft.push(Step::Back, line),
    }
}

/// CYCLE of that loop.
#[tactic(auto, using(std::proofs::lemmas::Option::gets, crate::proofs::OpenLoops::cycle_at))]
pub fn push_cycle(
    draft: &mut Draft,
    loops: &[LoopPlaces],
    n: u32,
    line: u32,
) -> Result<(), NoMemory>
    ensures { OnOk result (draft.new ≡ with_line (on line (cycle_instr (open_loops loops.now) n)) draft.old) }
{
    match loops.get(n as usize) {
        Some(places) => draft.push(Step::Jump(places.next), line),
        None => draft.push(Step::Back, line),
    }
}
