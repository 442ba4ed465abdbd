//! Code, and the draft that becomes code.

ghost use Rattle.std.specs.Prelude.{◌≡◌, ◌<◌, ◌≤◌, ◌∷◌, ◌++◌, [], length, slice_get, slice_index_or, ℕ, IfOk, IfErr, OnOk, OnErr};
ghost use Rattle.image_code.specs.Code.{no_tables, first_heights, IsWhole, IsRefused, IfCause};
ghost use Rattle.image_code.specs.Draft.{Within, Known};

use crate::finish::{Verdict, judge};
use crate::shape::Height;
use crate::step::Step;
use crate::tables::{Coarray, MainFrame, Tables};
use caf_base::listing::Text;
use caf_base::refusal::{NoMemory, Refusal};
use std::alloc::Global;
use std::marker::Model;

/// The place of an instruction that can't be run.
#[derive(Clone, Copy)]
pub struct BadCode {
    pub at: u32,
}

/// Code that is being made.
#[derive(Drop)]
pub struct CodeDraft {
    steps: Vec<Step>,
    lines: Vec<u32>,
    tables: Tables,
}

impl Model for CodeDraft {
    ghost use Rattle.std.specs.Prelude.{length, ◌≤◌};
    ghost use Rattle.image_code.specs.Code.{Program};

    ghost Value = { Program };

    ghost view = { λ d. record { steps = d.steps.items; lines = d.lines.items; tables = d.tables } };

    ghost invariant = { λ d. (length d.steps.items ≤ 4294967295) × (length d.tables.coarrays ≤ 4294967295) × (length d.tables.texts ≤ 4294967295) };
}

/// Code that may be run: no instruction of it is bad.
#[derive(Drop)]
pub struct Code {
    steps: Vec<Step>,
    lines: Vec<u32>,
    tables: Tables,
    highest: Height,
}

impl Model for Code {
    ghost use Rattle.std.specs.Prelude.{length, ◌≤◌};
    ghost use Rattle.image_code.specs.Code.{Whole, IsWhole};

    ghost Value = { Whole };

    ghost view = { λ c. record { program = record { steps = c.steps.items; lines = c.lines.items; tables = c.tables }; highest = c.highest } };

    ghost invariant = { λ c. IsWhole c.steps.items c.highest × (length c.steps.items ≤ 4294967295) × (length c.tables.coarrays ≤ 4294967295) };
}

impl CodeDraft {
    /// An empty draft.
    pub fn new(alloc: Global) -> Result<CodeDraft, NoMemory>
        ensures { IfOk result (λ d. d ≡ record { steps = []; lines = []; tables = no_tables }) }
    {
        Ok(CodeDraft {
            steps: Vec::new(alloc),
            lines: Vec::new(alloc),
            tables: Tables::new(alloc),
        })
    }

    /// How many instructions there are.
    pub fn length(&self) -> usize
        ensures { result ≡ length self.now.steps }
    {
        self.steps.len()
    }

    /// Puts an instruction at the end, with the line of its statement; after want of memory the draft is as before.
    /// There are at most 4,294,967,295 instructions.
    pub fn push(&mut self, step: Step, line: u32) -> Result<(), NoMemory>
        ensures pushed { OnOk result (self.new ≡ record self.old { steps = self.old.steps ++ step ∷ []; lines = self.old.lines ++ line ∷ [] }) }
        ensures kept { OnErr result (self.new ≡ self.old) }
    {
        if self.steps.len() >= 4294967295 {
            return Err(NoMemory);
        }
        self.lines.reserve(1)?;
        self.steps.push(step)?;
        self.lines.push_reserved(line);
        Ok(())
    }

    /// Puts a literal or a format behind those that are there, and gives its number; after want of memory the draft is
    /// as before. There are at most 4,294,967,295 of them.
    pub fn add_text(&mut self, text: Text) -> Result<u32, NoMemory>
        ensures added { OnOk result (self.new ≡ record self.old { tables = record self.old.tables { texts = self.old.tables.texts ++ text ∷ [] } }) }
        ensures number { IfOk result (λ n. n ≡ length self.old.tables.texts) }
        ensures kept { OnErr result (self.new ≡ self.old) }
    {
        let n = self.tables.texts.len();
        if n >= 4294967295 {
            return Err(NoMemory);
        }
        self.tables.texts.push(text)?;
        Ok(n as u32)
    }

    /// Puts a coarray behind those that are there, in declared order; after want of memory the draft is as before.
    /// There are at most 4,294,967,295 of them.
    pub fn add_coarray(&mut self, coarray: Coarray) -> Result<(), NoMemory>
        ensures added { OnOk result (self.new ≡ record self.old { tables = record self.old.tables { coarrays = self.old.tables.coarrays ++ coarray ∷ [] } }) }
        ensures kept { OnErr result (self.new ≡ self.old) }
    {
        if self.tables.coarrays.len() >= 4294967295 {
            return Err(NoMemory);
        }
        self.tables.coarrays.push(coarray)?;
        Ok(())
    }

    /// Says how the main program's frame begins.
    pub fn set_main(&mut self, main: MainFrame)
        ensures { self.new ≡ record self.old { tables = record self.old.tables { main = main } } }
    {
        self.tables.main = main;
    }

    /// The code of these instructions, or the place of the first bad one. Where the stack would be higher than 64 bits
    /// say there is no memory.
    pub fn finish(self) -> Result<Code, Refusal<BadCode>>
        ensures whole { IfOk result (λ code. (code.program ≡ self) × IsWhole self.steps code.highest) }
        ensures refused { IfErr result (λ refusal. IfCause refusal (λ bad. IsRefused self.steps bad.at)) }
    {
        match judged(*self.steps.allocator(), self.steps.as_slice()) {
            Err(refusal) => Err(refusal),
            Ok(highest) => Ok(Code {
                steps: self.steps,
                lines: self.lines,
                tables: self.tables,
                highest,
            }),
        }
    }
}

impl Code {
    /// How many coarrays there are.
    pub fn coarrays(&self) -> u32
        ensures { result ≡ length self.now.program.tables.coarrays }
    {
        self.tables.coarrays.len() as u32
    }

    /// How many instructions there are.
    pub fn length(&self) -> usize
        ensures is { result ≡ length self.now.program.steps }
        ensures some { 0 < result }
        ensures small { result ≤ 4294967295 }
    {
        self.steps.len()
    }

    /// The instruction at a place, if it is in the code.
    pub fn get(&self, at: usize) -> Option<Step>
        ensures { result ≡ slice_get self.now.program.steps at }
    {
        if at < self.steps.len() {
            Some(self.steps[at])
        } else {
            None
        }
    }

    /// The instructions.
    pub fn steps(&self) -> &[Step]
        ensures { result.now ≡ self.now.program.steps }
    {
        self.steps.as_slice()
    }

    /// The line of the instruction at a place, 0 where there is none.
    pub fn line(&self, at: usize) -> u32
        ensures { result ≡ slice_index_or self.now.program.lines at 0 }
    {
        if at < self.lines.len() {
            self.lines[at]
        } else {
            0
        }
    }

    /// What stands beside the instructions.
    pub fn tables(&self) -> &Tables
        ensures { result.now ≡ self.now.program.tables }
    {
        &self.tables
    }

    /// The most that stands on the stack of one body.
    pub fn highest(&self) -> Height
        ensures is { result ≡ self.now.highest }
        ensures whole { IsWhole self.now.program.steps result }
    {
        self.highest
    }
}

/// The most that stands on the stack of one body, or the place of the first bad instruction.
fn judged(alloc: Global, steps: &[Step]) -> Result<Height, Refusal<BadCode>>
    requires { length steps.now ≤ 4294967295 }
    ensures whole { IfOk result (λ highest. IsWhole steps.now highest) }
    ensures refused { IfErr result (λ refusal. IfCause refusal (λ bad. IsRefused steps.now bad.at)) }
{
    let length = steps.len();
    if length == 0 {
        return Err(Refusal::Cause(BadCode { at: 0 }));
    }
    let mut heights = heights_at_first(alloc, length)?;
    let known = heights.as_mut_slice();
    match judge(steps, known) {
        Verdict::Bad(at) => Err(Refusal::Cause(BadCode { at: at as u32 })),
        Verdict::Full => Err(Refusal::NoMemory),
        Verdict::Fine => Ok(highest_of(known)),
    }
}

/// Heights of which none is known but the first, where nothing stands on the stack.
fn heights_at_first(alloc: Global, n: usize) -> Result<Vec<Option<Height>>, NoMemory>
    requires { 0 < n }
    ensures { IfOk result (λ v. v.items ≡ first_heights n) }
{
    let mut heights: Vec<Option<Height>> = Vec::from_elem(alloc, None, n)?;
    heights[0] = Some(Height {
        numbers: 0,
        arrays: 0,
        texts: 0,
    });
    Ok(heights)
}

/// The greater of two numbers.
fn greater(a: u64, b: u64) -> u64
    ensures first { a ≤ result }
    ensures second { b ≤ result }
{
    if a < b { b } else { a }
}

/// No part of the two is above this.
fn higher(a: Height, b: Height) -> Height
    ensures first { Within a result }
    ensures second { Within b result }
{
    Height {
        numbers: greater(a.numbers, b.numbers),
        arrays: greater(a.arrays, b.arrays),
        texts: greater(a.texts, b.texts),
    }
}

/// The most of each part of the stack.
fn highest_of(heights: &[Option<Height>]) -> Height
    ensures { (p : ℕ) (h : Height) → Known heights.now p h → Within h result }
{
    let mut most = Height {
        numbers: 0,
        arrays: 0,
        texts: 0,
    };
    for p in 0..heights.len() {
        if let Some(h) = heights[p] {
            most = higher(most, h);
        }
    }
    most
}
