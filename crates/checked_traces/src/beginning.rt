//! What a run of a checked program begins with.

ghost use Rattle.std.specs.Prelude.{IfOk, IfErr};
ghost use Rattle.checked_tree.specs.StatementViews.{program};
ghost use Rattle.fortran_tree.specs.Units as units;
ghost use Rattle.image_code.specs.Code.{IfCause};
ghost use Rattle.rule_definitions.specs.Acceptance.{Accepts};
ghost use Rattle.checked_run.specs.Runnable.{IsUnrunnable};
ghost use Rattle.checked_traces.specs.Beginnings.{BeginsAs};

use caf_base::refusal::Refusal;
use checked_run::runnable::Unrunnable;
use checked_run::running::{coarrays, runnable};
use checked_tree::program::Checked;
use coarray_memory::coarray::Coarray;
use image_code::code::Code;
use std::alloc::Global;
use std::sync::Arc;

/// The code of a program, and its coarrays as each memory has them.
#[derive(Drop)]
pub(crate) struct Begun {
    pub(crate) code: Arc<Code>,
    pub(crate) coarrays: Vec<Coarray>,
}

/// What a run of an accepted program begins with, if the machine can run it.
pub(crate) fn begin(alloc: Global, checked: &Checked) -> Result<Begun, Refusal<Unrunnable>>
    requires accepted { (x : units.Program) × Accepts x (program checked.now) }
    ensures begins { IfOk result (BeginsAs (program checked.now)) }
    ensures refused { IfErr result (λ refusal. IfCause refusal (λ u. IsUnrunnable (program checked.now) u.line)) }
{
    let code = runnable(alloc, checked)?;
    let coarrays = coarrays(alloc, code.tables())?;
    let shared = Arc::new(alloc, code)?;
    Ok(Begun {
        code: shared,
        coarrays,
    })
}
