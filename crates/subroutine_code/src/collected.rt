//! The argument of a collective (ISO/IEC 1539-1:2018, 16.6): a variable or a part of one.

ghost use Rattle.std.specs.Prelude.{◌≡◌, [], ◌∷◌, IfOk, OnOk};
ghost use Rattle.checked_tree.specs.ExpressionViews as view;
ghost use Rattle.image_code.specs.Table as table;
ghost use Rattle.tree_meaning.specs.Sequences.{copying};
ghost use Rattle.tree_meaning.specs.Subroutines as meaning;
ghost use Rattle.expr_code.specs.Drafts.{written};
ghost use Rattle.expr_code.specs.Environments.{environment};
ghost use Rattle.subroutine_code.specs.Collecting as part;

use assignment_code::assignment::{push_placing, push_writing};
use caf_base::refusal::NoMemory;
use checked_tree::action::Collected;
use checked_tree::data::{Local, Object};
use checked_tree::expr::Subscript;
use expr_code::draft::Draft;
use expr_code::env::Env;
use expr_code::expr::push_subscripts;
use expr_code::piece::{push_cells, push_copy, push_drop, push_needs_own, push_read, scope_of};
use expr_code::shape::{form_of, is_scalar, place_size, sum};
use image_code::step::{Scope, Step};

// The value of a part of a local array, whose place is on top and stays, as the top array.
#[tactic(auto, using(crate::proofs::Collecting::of_arrays))]
fn push_loaded(
    draft: &mut Draft,
    env: &Env<'_>,
    scope: Scope,
    array: u32,
    rank: u32,
    line: u32,
) -> Result<(), NoMemory>
    ensures { OnOk result (draft.new ≡ written line (part.loaded (environment env.now) (table.scope_of scope) array rank) draft.old) }
{
    let size = place_size(rank)?;
    match rank {
        0 => {
            draft.push(Step::EmptyArray, line)?;
            push_copy(draft, 0, size, line)?;
            draft.push(Step::Load(scope, array, 0), line)?;
            draft.push(Step::Append, line)
        }
        _ => {
            push_copy(draft, 0, size, line)?;
            draft.push(Step::Load(scope, array, rank), line)?;
            draft.push(Step::TakeCells, line)
        }
    }
}

fn push_local(
    draft: &mut Draft,
    env: &Env<'_>,
    variable: Local,
    subscripts: &[Subscript],
    rank: u32,
    line: u32,
) -> Result<(), NoMemory>
    ensures { OnOk result (draft.new ≡ written line (part.local (environment env.now) variable (view.subscripts subscripts.now) rank).parts draft.old) }
{
    let scope = scope_of(variable.home);
    let array = variable.variable;
    if is_scalar(subscripts, rank) {
        draft.push(Step::EmptyArray, line)?;
        draft.push(Step::Cell(scope, array), line)?;
        return draft.push(Step::Append, line);
    }
    let form = form_of(subscripts, rank)?;
    push_subscripts(draft, env, subscripts, line)?;
    draft.push(Step::Section(scope, array, form), line)?;
    push_loaded(draft, env, scope, array, rank, line)
}

/// It is put down: of a local variable its values, as the top array, and the place of an array; of a coarray the place,
/// and above it the owner.
#[tactic(auto, using(expr_code::proofs::Forms::laws))]
pub fn push_collected(
    draft: &mut Draft,
    env: &Env<'_>,
    collected: &Collected,
    line: u32,
) -> Result<(), NoMemory>
    ensures { OnOk result (draft.new ≡ written line (meaning.collected_piece (environment env.now) (view.designator collected.now.variable) collected.now.rank).parts draft.old) }
{
    let variable = &collected.variable;
    let subscripts = variable.subscripts.as_slice();
    match variable.object {
        Object::Local(local) => push_local(draft, env, local, subscripts, collected.rank, line),
        Object::Coarray(coarray) => push_placing(
            draft,
            env,
            coarray,
            subscripts,
            collected.rank,
            &variable.selector,
            line,
        ),
        Object::Constant(_) => Ok(()),
    }
}

/// How many numbers it is.
#[tactic(auto, using(expr_code::proofs::Forms::laws))]
pub fn collected_size(env: &Env<'_>, collected: &Collected) -> Result<u32, NoMemory>
    ensures { IfOk result (λ n. n ≡ (meaning.collected_piece (environment env.now) (view.designator collected.now.variable) collected.now.rank).size) }
{
    let size = place_size(collected.rank)?;
    match collected.variable.object {
        Object::Local(_) => {
            if is_scalar(&collected.variable.subscripts, collected.rank) {
                return Ok(0);
            }
            Ok(size)
        }
        Object::Coarray(_) => sum(size, 1),
        Object::Constant(_) => Ok(0),
    }
}

// Of a coarray the values as the top array, by its place, which stands beneath `depth` numbers; those of a local
// variable are there.
#[tactic(auto, using(expr_code::proofs::Forms::laws, crate::proofs::Collecting::same_cells))]
pub fn push_collected_value(
    draft: &mut Draft,
    env: &Env<'_>,
    collected: &Collected,
    depth: u32,
    size: u32,
    line: u32,
) -> Result<(), NoMemory>
    ensures { OnOk result (draft.new ≡ written line (meaning.collected_value (environment env.now) (view.designator collected.now.variable) collected.now.rank (copying depth size)) draft.old) }
{
    let variable = &collected.variable;
    let rank = collected.rank;
    match variable.object {
        Object::Local(_) => Ok(()),
        Object::Coarray(coarray) => {
            let scalar = is_scalar(&variable.subscripts, rank);
            push_needs_own(draft, coarray, scalar, &variable.selector, line)?;
            push_copy(draft, depth, size, line)?;
            push_read(draft, coarray, rank, line)?;
            draft.push(Step::Accessed, line)?;
            push_drop(draft, 1, line)?;
            push_cells(draft, rank, line)
        }
        Object::Constant(_) => Ok(()),
    }
}

/// Where no step is made the values of a local variable are dropped.
#[tactic(auto, using(expr_code::proofs::Forms::laws))]
pub fn push_dropping_collected(
    draft: &mut Draft,
    env: &Env<'_>,
    collected: &Collected,
    line: u32,
) -> Result<(), NoMemory>
    ensures { OnOk result (draft.new ≡ written line (meaning.dropping_collected (environment env.now) (view.designator collected.now.variable)) draft.old) }
{
    match collected.variable.object {
        Object::Local(_) => draft.push(Step::DropArray, line),
        Object::Coarray(_) => Ok(()),
        Object::Constant(_) => Ok(()),
    }
}

/// The top array goes into it, by its place, which stands beneath `depth` numbers.
#[tactic(auto, using(expr_code::proofs::Forms::laws))]
pub fn push_collected_put(
    draft: &mut Draft,
    env: &Env<'_>,
    collected: &Collected,
    depth: u32,
    size: u32,
    line: u32,
) -> Result<(), NoMemory>
    ensures { OnOk result (draft.new ≡ written line (meaning.collected_put (environment env.now) (view.designator collected.now.variable) collected.now.kind collected.now.rank (copying depth size)) draft.old) }
{
    let rank = collected.rank;
    match collected.variable.object {
        Object::Local(local) => {
            let scope = scope_of(local.home);
            if is_scalar(&collected.variable.subscripts, rank) {
                draft.push(Step::OnlyElement, line)?;
                return draft.push(Step::Store(scope, local.variable), line);
            }
            push_copy(draft, depth, size, line)?;
            draft.push(Step::PutArray(scope, local.variable, rank), line)
        }
        Object::Coarray(coarray) => {
            push_copy(draft, depth, size, line)?;
            push_writing(draft, 1, coarray, rank, collected.kind, line)?;
            draft.push(Step::Accessed, line)?;
            push_drop(draft, 1, line)
        }
        Object::Constant(_) => Ok(()),
    }
}
