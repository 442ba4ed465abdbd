//! Calls of procedures of the program (ISO/IEC 1539-1:2018, 15.5): what comes behind the arguments.

ghost use Rattle.std.specs.Prelude.{◌≡◌, [], suc, map, false, IfOk, OnOk};
ghost use Rattle.walk_theory.specs.Syntax.{enter, end_parts};
ghost use Rattle.checked_tree.specs.ExpressionViews as view;
ghost use Rattle.checked_tree.specs.StatementViews.{procedure as procedure_view};
ghost use Rattle.image_acts.specs.Acts as act;
ghost use Rattle.tree_meaning.specs.Environment as environment;
ghost use Rattle.tree_meaning.specs.Expressions as meaning;
ghost use Rattle.tree_meaning.specs.Sequences.{doing};
ghost use Rattle.expr_code.specs.Drafts.{written};
ghost use Rattle.expr_code.specs.Calls as calls;
ghost use Rattle.expr_code.specs.Procedures.{no_procedure};

use crate::draft::Draft;
use crate::piece::{push_bring, push_cells, push_copy, push_drop, scope_of};
use crate::shape::{is_scalar, narrow, next_digit, place_size, sum};
use caf_base::refusal::NoMemory;
use checked_tree::data::{Dimensions, Object, Variable};
use checked_tree::expr::{Argument, Designator};
use checked_tree::program::{Dummy, Procedure};
use image_code::step::{Scope, Step};
use std::alloc::Global;
use tree_meaning::start::sum_of_locals;

/// An argument as it was passed: its dummy's number and rank; where it goes back to; how many numbers its place is; and
/// whether it goes back.
#[derive(Clone, Copy)]
pub struct PassedArgument {
    pub dummy: u32,
    pub rank: u32,
    pub scope: Scope,
    pub actual: u32,
    pub place: u32,
    pub goes_back: bool,
}

/// The rank of the variable with this number.
#[tactic(auto, using(std::proofs::lemmas::Option::gets, crate::proofs::Calls::rank_at))]
pub fn rank_in(variables: &[Variable], variable: u32) -> Result<u32, NoMemory>
    ensures { IfOk result (λ n. n ≡ environment.rank_in variables.now variable) }
{
    match variables.get(variable as usize) {
        Some(variable) => rank_of(&variable.dimensions),
        None => Ok(0),
    }
}

fn rank_of(dimensions: &Dimensions) -> Result<u32, NoMemory>
    ensures { IfOk result (λ n. n ≡ environment.rank_of dimensions.now) }
{
    match dimensions {
        Dimensions::Explicit(shape) => narrow(shape.dims.len()),
        Dimensions::Deferred { rank } => Ok(*rank),
    }
}

// An argument that is a value.
fn value_passed(dummy: u32, rank: u32) -> PassedArgument
    ensures { calls.passed_argument result ≡ record { dummy = dummy; rank = rank; scope = act.here; actual = 0; place = 0; goes_back = false } }
{
    PassedArgument {
        dummy,
        rank,
        scope: Scope::Here,
        actual: 0,
        place: 0,
        goes_back: false,
    }
}

// An argument that is a variable.
#[tactic(auto, using(crate::proofs::Forms::laws))]
fn part_passed(designator: &Designator, dummy: u32, rank: u32) -> Result<PassedArgument, NoMemory>
    ensures { IfOk result (λ p. calls.passed_argument p ≡ meaning.passed_part (view.designator designator.now) dummy rank) }
{
    match designator.object {
        Object::Local(local) => {
            let place = if is_scalar(&designator.subscripts, rank) {
                0
            } else {
                place_size(rank)?
            };
            Ok(PassedArgument {
                dummy,
                rank,
                scope: scope_of(local.home),
                actual: local.variable,
                place,
                goes_back: true,
            })
        }
        Object::Coarray(_) => Ok(value_passed(dummy, rank)),
        Object::Constant(_) => Ok(value_passed(dummy, rank)),
    }
}

#[tactic(auto, using(crate::proofs::Forms::laws))]
fn argument_passed(argument: &Argument, dummy: u32, rank: u32) -> Result<PassedArgument, NoMemory>
    ensures { IfOk result (λ p. calls.passed_argument p ≡ meaning.passed_as (view.argument argument.now) dummy rank) }
{
    match argument {
        Argument::Value(_) => Ok(value_passed(dummy, rank)),
        Argument::Variable(designator) => part_passed(designator, dummy, rank),
    }
}

// The arguments of a call as they are passed.
fn arguments_passed(
    alloc: Global,
    variables: &[Variable],
    dummies: &[Dummy],
    arguments: &[Argument],
) -> Result<Vec<PassedArgument>, NoMemory>
    ensures { IfOk result (λ ps. map calls.passed_argument ps.items ≡ meaning.passed variables.now dummies.now (view.arguments arguments.now)) }
{
    let mut passed = Vec::new(alloc);
    let mut n = 0;
    for argument in arguments {
        if n >= dummies.len() {
            return Ok(passed);
        }
        let dummy = dummies[n].variable;
        let rank = rank_in(variables, dummy)?;
        passed.push(argument_passed(argument, dummy, rank)?)?;
        n += 1;
    }
    Ok(passed)
}

// How many numbers a value of this rank is.
fn value_size(rank: u32) -> u32
    ensures { result ≡ meaning.value_size rank }
{
    if rank == 0 { 1 } else { 0 }
}

// How many numbers are put down for these arguments.
fn passed_sizes(passed: &[PassedArgument]) -> Result<u32, NoMemory>
    ensures { IfOk result (λ n. n ≡ meaning.passed_sizes (map calls.passed_argument passed.now)) }
{
    let [first, rest @ ..] = passed else {
        return Ok(0);
    };
    sum(
        sum(first.place, value_size(first.rank))?,
        passed_sizes(rest)?,
    )
}

// How many numbers those are that go back.
fn out_sizes(passed: &[PassedArgument]) -> Result<u32, NoMemory>
    ensures { IfOk result (λ n. n ≡ meaning.out_sizes (map calls.passed_argument passed.now)) }
{
    let [first, rest @ ..] = passed else {
        return Ok(0);
    };
    let own = if first.goes_back {
        value_size(first.rank)
    } else {
        0
    };
    sum(own, out_sizes(rest)?)
}

// The values go into the dummies, the last one first.
fn push_in(draft: &mut Draft, passed: &[PassedArgument], line: u32) -> Result<(), NoMemory>
    ensures { OnOk result (draft.new ≡ written line (meaning.copying_in (map calls.passed_argument passed.now)) draft.old) }
{
    let [first, rest @ ..] = passed else {
        return Ok(());
    };
    push_in(draft, rest, line)?;
    push_in_one(draft, first, passed_sizes(rest)?, line)
}

fn push_in_one(
    draft: &mut Draft,
    passed: &PassedArgument,
    behind: u32,
    line: u32,
) -> Result<(), NoMemory>
    ensures { OnOk result (draft.new ≡ written line (meaning.copying_in_one (calls.passed_argument passed.now) behind) draft.old) }
{
    if passed.rank == 0 {
        push_copy(draft, behind, 1, line)?;
        return draft.push(Step::Store(Scope::Here, passed.dummy), line);
    }
    draft.push(Step::CopyIn(passed.dummy), line)
}

// A variable of the instance is put down.
#[tactic(auto, using(crate::proofs::Calls::array_out))]
fn push_out_one(draft: &mut Draft, rank: u32, variable: u32, line: u32) -> Result<(), NoMemory>
    ensures { OnOk result (draft.new ≡ written line (meaning.copying_out_one rank variable) draft.old) }
{
    match rank {
        0 => draft.push(Step::Cell(Scope::Here, variable), line),
        _ => draft.push(Step::CopyOut(variable), line),
    }
}

// Those that go back are put down, the first one last.
fn push_out(draft: &mut Draft, passed: &[PassedArgument], line: u32) -> Result<(), NoMemory>
    ensures { OnOk result (draft.new ≡ written line (meaning.copying_out (map calls.passed_argument passed.now)) draft.old) }
{
    let [first, rest @ ..] = passed else {
        return Ok(());
    };
    push_out(draft, rest, line)?;
    if first.goes_back {
        push_out_one(draft, first.rank, first.dummy, line)
    } else {
        Ok(())
    }
}

// One of them goes back to its actual argument, whose place stands beneath so many numbers.
fn push_back(
    draft: &mut Draft,
    passed: &PassedArgument,
    depth: u32,
    line: u32,
) -> Result<(), NoMemory>
    ensures { OnOk result (draft.new ≡ written line (meaning.going_back (calls.passed_argument passed.now) depth) draft.old) }
{
    if passed.place == 0 {
        return draft.push(Step::Store(passed.scope, passed.actual), line);
    }
    push_copy(draft, depth, passed.place, line)?;
    if passed.rank == 0 {
        draft.push(Step::Put(passed.scope, passed.actual, 0), line)
    } else {
        draft.push(
            Step::PutArray(passed.scope, passed.actual, passed.rank),
            line,
        )
    }
}

// From the first to the last, with a result's numbers beneath them.
fn push_all_back(
    draft: &mut Draft,
    passed: &[PassedArgument],
    result_numbers: u32,
    line: u32,
) -> Result<(), NoMemory>
    ensures { OnOk result (draft.new ≡ written line (meaning.putting_back (map calls.passed_argument passed.now) result_numbers) draft.old) }
{
    let [first, rest @ ..] = passed else {
        return Ok(());
    };
    if first.goes_back {
        let beneath = sum(passed_sizes(rest)?, value_size(first.rank))?;
        let depth = sum(out_sizes(passed)?, sum(result_numbers, beneath)?)?;
        push_back(draft, first, depth, line)?;
    }
    push_all_back(draft, rest, result_numbers, line)
}

// Pushes bounds, the lower one of each dimension first.
fn push_bounds(draft: &mut Draft, bounds: &[(i64, i64)], line: u32) -> Result<(), NoMemory>
    ensures { OnOk result (draft.new ≡ written line (doing (meaning.bounds_acts bounds.now)) draft.old) }
{
    let [(lower, upper), rest @ ..] = bounds else {
        return Ok(());
    };
    draft.push(Step::Number(*lower), line)?;
    draft.push(Step::Number(*upper), line)?;
    push_bounds(draft, rest, line)
}

// An array of an instance gets its bounds.
#[tactic(auto, using(crate::proofs::Calls::written_acts))]
fn push_lay_out(
    draft: &mut Draft,
    dimensions: &Dimensions,
    variable: u32,
    line: u32,
) -> Result<(), NoMemory>
    ensures { OnOk result (draft.new ≡ written line (meaning.laying_out_one (environment.declared_bounds dimensions.now) variable) draft.old) }
{
    let Dimensions::Explicit(shape) = dimensions else {
        return Ok(());
    };
    let bounds = shape.dims.as_slice();
    if bounds.is_empty() {
        return Ok(());
    }
    let rank = narrow(bounds.len())?;
    push_bounds(draft, bounds, line)?;
    draft.push(Step::LayOut(variable, rank), line)
}

// The arrays of an instance get their bounds, from the variable with this number on.
fn push_layout(draft: &mut Draft, variables: &[Variable], line: u32) -> Result<(), NoMemory>
    ensures { OnOk result (draft.new ≡ written line (meaning.laying_out variables.now 0) draft.old) }
{
    let mut n = 0;
    for variable in variables {
        push_lay_out(draft, &variable.dimensions, n, line)?;
        n = sum(n, 1)?;
    }
    Ok(())
}

// The rank of a function's result, 0 of a subroutine.
fn result_rank(procedure: &Procedure) -> Result<u32, NoMemory>
    ensures { IfOk result (λ n. n ≡ meaning.result_rank (procedure_view procedure.now).unit procedure.now.result) }
{
    match procedure.result {
        None => Ok(0),
        Some(variable) => rank_in(procedure.unit.variables.as_slice(), variable),
    }
}

// How many numbers the result is.
fn result_numbers(procedure: &Procedure) -> Result<u32, NoMemory>
    ensures { IfOk result (λ n. n ≡ meaning.result_numbers (procedure_view procedure.now).unit procedure.now.result) }
{
    match procedure.result {
        None => Ok(0),
        Some(_) => Ok(value_size(result_rank(procedure)?)),
    }
}

// The result is put down.
fn push_result(draft: &mut Draft, procedure: &Procedure, line: u32) -> Result<(), NoMemory>
    ensures { OnOk result (draft.new ≡ written line (meaning.resulting (procedure_view procedure.now).unit procedure.now.result) draft.old) }
{
    match procedure.result {
        None => Ok(()),
        Some(variable) => {
            let rank = result_rank(procedure)?;
            push_out_one(draft, rank, variable, line)
        }
    }
}

// The local cells of an instance.
fn local_cells(variables: &[Variable]) -> Result<u32, NoMemory>
    ensures { IfOk result (λ n. n ≡ environment.total_cells variables.now) }
{
    let cells = sum_of_locals(variables)?;
    if cells > 4294967295 {
        return Err(NoMemory);
    }
    Ok(cells as u32)
}

// An instance begins: its frame, its arrays, its dummies (15.5.2, 15.6.2.4).
fn push_begin(
    draft: &mut Draft,
    procedure: &Procedure,
    passed: &[PassedArgument],
    line: u32,
) -> Result<(), NoMemory>
    ensures { OnOk result (draft.new ≡ written line (meaning.beginning (procedure_view procedure.now).unit (map calls.passed_argument passed.now)) draft.old) }
{
    let variables = procedure.unit.variables.as_slice();
    let arrays = narrow(variables.len())?;
    let cells = next_digit(arrays, procedure.unit.hidden, 2)?;
    let need = local_cells(variables)?;
    draft.push(Step::BeginFrame(cells, arrays, need), line)?;
    push_layout(draft, variables, line)?;
    push_in(draft, passed, line)
}

// An instance ends; its result is left, without the arguments.
fn push_end(
    draft: &mut Draft,
    procedure: &Procedure,
    passed: &[PassedArgument],
    line: u32,
) -> Result<(), NoMemory>
    ensures { OnOk result (draft.new ≡ written line (meaning.ending (procedure_view procedure.now) (map calls.passed_argument passed.now)) draft.old) }
{
    let rank = result_rank(procedure)?;
    let numbers = result_numbers(procedure)?;
    let size = passed_sizes(passed)?;
    push_result(draft, procedure, line)?;
    push_out(draft, passed, line)?;
    draft.push(Step::EndFrame, line)?;
    push_all_back(draft, passed, numbers, line)?;
    push_bring(draft, numbers, size, line)?;
    push_drop(draft, size, line)?;
    push_cells(draft, rank, line)
}

// The body of a procedure is run: the main program is the first one.
#[tactic(auto, using(crate::proofs::Calls::one_more))]
fn push_enter(draft: &mut Draft, number: u32, line: u32) -> Result<(), NoMemory>
    ensures { OnOk result (draft.new ≡ written line (enter (suc number) end_parts) draft.old) }
{
    let place = sum(number, 1)?;
    draft.push(Step::Call(draft.start(place)), line)
}

// The instance of a procedure with these arguments.
fn push_instance(
    draft: &mut Draft,
    number: u32,
    procedure: &Procedure,
    passed: &[PassedArgument],
    line: u32,
) -> Result<(), NoMemory>
    ensures { OnOk result (draft.new ≡ written line (meaning.calling number (procedure_view procedure.now) (map calls.passed_argument passed.now)) draft.old) }
{
    push_begin(draft, procedure, passed, line)?;
    push_enter(draft, number, line)?;
    push_end(draft, procedure, passed, line)
}

/// Appends the code of a procedure's instance, behind its arguments.
pub fn push_calling(
    draft: &mut Draft,
    number: u32,
    procedure: &Procedure,
    arguments: &[Argument],
    line: u32,
) -> Result<(), NoMemory>
    ensures { OnOk result (draft.new ≡ written line (calls.instance_of number (procedure_view procedure.now) (view.arguments arguments.now)) draft.old) }
{
    let variables = procedure.unit.variables.as_slice();
    let dummies = procedure.dummies.as_slice();
    let passed = arguments_passed(draft.allocator(), variables, dummies, arguments)?;
    push_instance(draft, number, procedure, passed.as_slice(), line)
}

/// The same of a procedure that isn't there: a frame without variables.
pub fn push_calling_none(draft: &mut Draft, number: u32, line: u32) -> Result<(), NoMemory>
    ensures { OnOk result (draft.new ≡ written line (meaning.calling number no_procedure []) draft.old) }
{
    draft.push(Step::BeginFrame(0, 0, 0), line)?;
    push_enter(draft, number, line)?;
    draft.push(Step::EndFrame, line)
}
