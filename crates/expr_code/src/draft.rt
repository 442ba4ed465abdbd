//! Drafts of code that is being made for a program.

ghost use Rattle.std.specs.Prelude.{◌≡◌, ℕ, [], List, false, IfOk, OnOk};
ghost use Rattle.walk_theory.specs.Code.{Line, on};
ghost use Rattle.image_acts.specs.Acts.{Act};
ghost use Rattle.image_code.specs.Code.{code_of, no_tables};
ghost use Rattle.image_code.specs.Table.{instr_of};
ghost use Rattle.expr_code.specs.Drafts.{counted, ended, instr_takes, kept, lines_in, looked, starts_of, with_line};

use caf_base::refusal::NoMemory;
use image_code::code::CodeDraft;
use image_code::step::Step;
use std::alloc::Global;
use std::marker::Model;

/// A draft that keeps its code, or one that only counts how many steps it has: by such a one the size of code is known
/// before the code itself. It knows where the code of each procedure will begin: the main program is the first one, and
/// a procedure that isn't among them begins at `end`. And it knows whether a step took evaluation cells since that was
/// last looked at: they are released at the end of the statement.
#[derive(Drop)]
pub struct Draft {
    code: CodeDraft,
    keeps: bool,
    count: u64,
    starts: Vec<u32>,
    end: u32,
    took: bool,
}

impl Model for Draft {
    ghost use Rattle.std.specs.Prelude.{length, ◌≡◌};
    ghost use Rattle.expr_code.specs.Drafts.{Drafted, body_of};

    ghost Value = { Drafted };

    ghost view = { λ d. record { starts = d.starts.items; end = d.end; tables = d.code.tables; body = body_of d.keeps d.count d.code; took = d.took } };

    ghost invariant = { λ d. length d.code.steps ≡ length d.code.lines };
}

impl Draft {
    /// A draft that only counts.
    pub fn counting(alloc: Global) -> Result<Draft, NoMemory>
        ensures { IfOk result (λ d. d ≡ record { starts = []; end = 0; tables = no_tables; body = counted 0; took = false }) }
    {
        Ok(Draft {
            code: CodeDraft::new(alloc)?,
            keeps: false,
            count: 0,
            starts: Vec::new(alloc),
            end: 0,
            took: false,
        })
    }

    /// A draft that keeps its code, behind an empty one with these tables.
    pub fn keeping(code: CodeDraft, starts: Vec<u32>, end: u32) -> Draft
        requires { (code.steps ≡ []) × (code.lines ≡ []) }
        ensures { result ≡ record { starts = starts.items; end = end; tables = code.tables; body = kept []; took = false } }
    {
        Draft {
            code,
            keeps: true,
            count: 0,
            starts,
            end,
            took: false,
        }
    }

    /// The allocator of the draft.
    pub fn allocator(&self) -> Global {
        *self.starts.allocator()
    }

    /// How many steps there are.
    #[tactic(auto, using(crate::proofs::Lines::lines_long))]
    pub fn length(&self) -> u64
        ensures { result ≡ lines_in self.now.body }
    {
        if self.keeps {
            self.code.length() as u64
        } else {
            self.count
        }
    }

    /// Where the code of a procedure begins: the main program is the first one.
    pub fn start(&self, procedure: u32) -> u32
        ensures { result ≡ starts_of self.now procedure }
    {
        let n = procedure as usize;
        if n < self.starts.len() {
            self.starts[n]
        } else {
            self.end
        }
    }

    /// Puts a step at the end, with the line of its statement.
    #[tactic(auto, using(crate::proofs::Lines::line_pushed))]
    pub fn push(&mut self, step: Step, line: u32) -> Result<(), NoMemory>
        ensures { OnOk result (self.new ≡ with_line (on line (instr_of self.old.tables.texts step)) self.old) }
    {
        self.took = is_taking(step) || self.took;
        if self.keeps {
            return self.code.push(step, line);
        }
        match self.count.checked_add(1) {
            None => Err(NoMemory),
            Some(n) => {
                self.count = n;
                Ok(())
            }
        }
    }

    /// Begins a statement: no step has taken evaluation cells yet. It answers whether one had before.
    pub fn look(&mut self) -> bool
        ensures before { result ≡ self.old.took }
        ensures draft { self.new ≡ looked self.old }
    {
        let before = self.took;
        self.took = false;
        before
    }

    /// Ends a statement: where a step of it took evaluation cells, they are free again. `before` is what `look`
    /// answered.
    pub fn release(&mut self, before: bool, line: u32) -> Result<(), NoMemory>
        ensures { OnOk result (self.new ≡ ended line before self.old) }
    {
        if self.took {
            self.push(Step::Release, line)?;
        }
        self.took = self.took || before;
        Ok(())
    }

    /// The draft as it goes on into code.
    pub fn into_code(self) -> CodeDraft
        ensures code { (is : List (Line Act)) → self.body ≡ kept is → code_of result ≡ is }
        ensures tables { result.tables ≡ self.tables }
    {
        self.code
    }
}

// Whether a step takes evaluation cells.
#[tactic(auto, using(crate::proofs::Lines::few_take))]
fn is_taking(step: Step) -> bool
    ensures { (texts : List (List ℕ)) → result ≡ instr_takes (instr_of texts step) }
{
    match step {
        Step::TakeCell => true,
        Step::TakeCells => true,
        Step::PrintNumber => true,
        Step::PrintTruth => true,
        _ => false,
    }
}
