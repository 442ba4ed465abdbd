//! The checker.

ghost use Rattle.std.specs.Prelude.{◌≡◌, IfOk, IfErr, Some};
ghost use Rattle.fortran_lines.specs.Causes.{IfCause};
ghost use Rattle.fortran_tree.specs.UnitViews as tree;
ghost use Rattle.checked_tree.specs.StatementViews as typed;
ghost use Rattle.rule_definitions.specs.Acceptance.{Accepts, first_break};

use crate::program::{Found, judge_program};
use caf_base::refusal::Refusal;
use checked_tree::program::Checked;
use fortran_tree::unit::Program;
use rule_definitions::broken::Broken;
use std::alloc::Global;

/// The checked program that a program is accepted as, or the first rule that it breaks; or want of memory, which
/// judging alone may meet: once a program is judged, one that breaks nothing has its checked program. The program stays
/// as it is.
pub fn check_tree(alloc: Global, program: &Program) -> Result<Checked, Refusal<Broken>>
    ensures accepted { IfOk result (λ c. Accepts (tree.program program.now) (typed.program c)) }
    ensures broken { IfErr result (λ refusal. IfCause refusal (λ b. first_break (tree.program program.now) ≡ Some b)) }
{
    let Found { first, checked } = judge_program(alloc, program)?;
    if let Some(broken) = first {
        drop(checked);
        return Err(Refusal::Cause(broken));
    }
    // A program that breaks nothing stands for a checked program.
    let Some(checked) = checked else {
        unreachable!()
    };
    Ok(checked)
}

/// The checked program that a program is accepted as, or the first rule that it breaks; or want of memory, as
/// `check_tree` says.
pub fn check(alloc: Global, program: Program) -> Result<Checked, Refusal<Broken>>
    ensures accepted { IfOk result (λ c. Accepts (tree.program program) (typed.program c)) }
    ensures broken { IfErr result (λ refusal. IfCause refusal (λ b. first_break (tree.program program) ≡ Some b)) }
{
    let checked = check_tree(alloc, &program);
    drop(program);
    checked
}
