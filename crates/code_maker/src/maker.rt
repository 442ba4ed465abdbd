//! The code of a whole checked program.

ghost use Rattle.std.specs.Prelude.{◌≡◌, ◌+◌, ◌++◌, ◌∷◌, [], IfErr, IfOk, OnOk, map};
ghost use Rattle.walk_theory.specs.Made.{program_code, steps_size};
ghost use Rattle.checked_tree.specs.StatementViews as view;
ghost use Rattle.image_acts.specs.Acts.{ask, end_program};
ghost use Rattle.image_code.specs.Code.{IfCause, code_of};
ghost use Rattle.image_code.specs.Table.{scope_of};
ghost use Rattle.tree_meaning.specs.Forms.{bodies, environment_of, procedure_bodies, steps};
ghost use Rattle.program_tables.specs.Tables.{tables_of};
ghost use Rattle.made_code.specs.Ranks.{IsRankedProgram};
ghost use Rattle.code_maker.specs.Programs as programs;

use crate::block::push_block;
use crate::loops::{place, sum};
use crate::size::block_size;
use caf_base::refusal::{NoMemory, Refusal};
use checked_tree::program::{Checked, Unit};
use expr_code::draft::Draft;
use expr_code::env::Env;
use expr_code::shape::narrow;
use image_code::code::{BadCode, Code, CodeDraft};
use image_code::step::{AskStep, Scope, Step};
use program_tables::table::begin_code;
use std::alloc::Global;

/// Where the code of each procedure begins, the main program's first, and where that of the last one ends.
#[derive(Drop)]
struct Starts {
    places: Vec<u32>,
    end: u32,
}

/// How many steps the statements of a unit make.
#[tactic(auto, unfolding(expr_code::specs::Environments::environment))]
fn unit_size(alloc: Global, checked: &Checked, main: Scope, unit: &Unit) -> Result<u64, NoMemory>
    ensures { IfOk result (λ n. n ≡ steps_size (steps (environment_of (view.program checked.now) (scope_of main) (view.unit unit.now)) (view.unit unit.now).statements)) }
{
    let hidden = narrow(unit.variables.len())?;
    let env = Env {
        checked,
        main,
        hidden,
    };
    block_size(alloc, &env, unit.statements.as_slice())
}

/// Appends the code of a unit, and the step back behind it.
#[tactic(auto, unfolding(expr_code::specs::Environments::environment))]
fn push_unit(draft: &mut Draft, checked: &Checked, main: Scope, unit: &Unit) -> Result<(), NoMemory>
    requires texts { programs.HasLiterals checked.now.literals.items draft.old }
    ensures { OnOk result (draft.new ≡ programs.procedure_written checked.now.end_line (steps (environment_of (view.program checked.now) (scope_of main) (view.unit unit.now)) (view.unit unit.now).statements) draft.old) }
{
    let hidden = narrow(unit.variables.len())?;
    let env = Env {
        checked,
        main,
        hidden,
    };
    push_block(draft, &env, &[], unit.statements.as_slice())?;
    draft.push(Step::Back, checked.end_line)
}

/// Appends the code of the procedures.
fn push_procedures(draft: &mut Draft, checked: &Checked) -> Result<(), NoMemory>
    requires texts { programs.HasLiterals checked.now.literals.items draft.old }
    ensures { OnOk result (draft.new ≡ programs.procedures_written checked.now.end_line (procedure_bodies (view.program checked.now) (map view.procedure checked.now.procedures.items)) draft.old) }
{
    let procedures = checked.procedures.as_slice();
    for procedure in procedures {
        push_unit(draft, checked, Scope::Host, &procedure.unit)?;
    }
    Ok(())
}

/// The call of the main program, its count, the end of the image, and a step back.
fn push_beginning(draft: &mut Draft, line: u32) -> Result<(), NoMemory>
    ensures { OnOk result (draft.new ≡ programs.beginning_written (ask end_program) line draft.old) }
{
    let main = draft.start(0);
    draft.push(Step::Call(main), line)?;
    draft.push(Step::Count, line)?;
    draft.push(Step::Ask(AskStep::EndProgram), line)?;
    draft.push(Step::Back, line)
}

/// Appends the whole code.
#[tactic(auto, using(crate::proofs::Programs::literals))]
fn push_program(draft: &mut Draft, checked: &Checked) -> Result<(), NoMemory>
    requires texts { programs.HasLiterals checked.now.literals.items draft.old }
    ensures { OnOk result (draft.new ≡ programs.program_written (ask end_program) checked.now.end_line (bodies (view.program checked.now)) draft.old) }
{
    push_beginning(draft, checked.end_line)?;
    push_unit(draft, checked, Scope::Here, &checked.main)?;
    push_procedures(draft, checked)?;
    draft.push(Step::Back, checked.end_line)
}

/// Where the code of a unit ends that begins at a place, with the step back behind it.
fn unit_end(
    alloc: Global,
    checked: &Checked,
    main: Scope,
    unit: &Unit,
    at: u64,
) -> Result<u64, NoMemory>
    ensures { IfOk result (λ n. n ≡ at + steps_size (steps (environment_of (view.program checked.now) (scope_of main) (view.unit unit.now)) (view.unit unit.now).statements) + 1) }
{
    sum(sum(at, unit_size(alloc, checked, main, unit)?)?, 1)
}

/// Puts a place behind others.
fn push_place(places: &mut Vec<u32>, at: u64) -> Result<(), NoMemory>
    ensures { OnOk result (places.new.items ≡ places.old.items ++ at ∷ []) }
{
    let at = place(at)?;
    places.push(at)?;
    Ok(())
}

/// Where the procedures begin, behind the first four steps.
fn procedure_starts(alloc: Global, checked: &Checked) -> Result<Starts, NoMemory>
    ensures places { IfOk result (λ s. s.places.items ≡ programs.starts_from 4 (bodies (view.program checked.now))) }
    ensures end { IfOk result (λ s. s.end ≡ programs.end_from 4 (bodies (view.program checked.now))) }
{
    let procedures = checked.procedures.as_slice();
    let mut end = unit_end(alloc, checked, Scope::Here, &checked.main, 4)?;
    let mut places = Vec::new(alloc);
    push_place(&mut places, 4)?;
    for procedure in procedures {
        push_place(&mut places, end)?;
        end = unit_end(alloc, checked, Scope::Host, &procedure.unit, end)?;
    }
    let end = place(end)?;
    Ok(Starts { places, end })
}

/// The code of a draft that holds the code of the program.
fn whole(draft: CodeDraft, checked: &Checked) -> Result<Code, Refusal<BadCode>>
    requires made { code_of draft ≡ program_code (ask end_program) checked.now.end_line (bodies (view.program checked.now)) }
    ensures whole { IfOk result (λ code. code.program ≡ draft) }
    ensures refused { IfErr result (λ refusal. IfCause refusal (λ bad. IsRankedProgram (view.program checked.now) → ⊥)) }
{
    draft.finish()
}

/// The code of a draft that is empty but for its tables.
fn coded(code: CodeDraft, starts: Starts, checked: &Checked) -> Result<Code, Refusal<BadCode>>
    requires empty { (code.steps ≡ []) × (code.lines ≡ []) }
    requires texts { code.tables.texts ≡ checked.now.literals.items }
    requires places { starts.places.items ≡ programs.starts_from 4 (bodies (view.program checked.now)) }
    requires end { starts.end ≡ programs.end_from 4 (bodies (view.program checked.now)) }
    ensures code { IfOk result (λ c. code_of c.program ≡ program_code (ask end_program) checked.now.end_line (bodies (view.program checked.now))) }
    ensures tables { IfOk result (λ c. c.program.tables ≡ code.tables) }
    ensures refused { IfErr result (λ refusal. IfCause refusal (λ bad. IsRankedProgram (view.program checked.now) → ⊥)) }
{
    let Starts { places, end } = starts;
    let mut draft = Draft::keeping(code, places, end);
    push_program(&mut draft, checked)?;
    whole(draft.into_code(), checked)
}

/// The code of a checked program (`program_code` of walk_theory for the bodies of `tree_meaning`), with its tables; or
/// the first bad instruction, which there is only where some expression, designator or argument hasn't the rank that
/// its place wants (`IsRankedProgram`).
pub fn make(alloc: Global, checked: &Checked) -> Result<Code, Refusal<BadCode>>
    ensures code { IfOk result (λ c. code_of c.program ≡ program_code (ask end_program) checked.now.end_line (bodies (view.program checked.now))) }
    ensures tables { IfOk result (λ c. c.program.tables ≡ tables_of (view.program checked.now)) }
    ensures refused { IfErr result (λ refusal. IfCause refusal (λ bad. IsRankedProgram (view.program checked.now) → ⊥)) }
{
    let starts = procedure_starts(alloc, checked)?;
    let code = begin_code(alloc, checked)?;
    coded(code, starts, checked)
}
