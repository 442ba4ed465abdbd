//! What an expression does between its operands, and behind them.

ghost use Rattle.std.specs.Prelude.{◌≡◌, OnOk};
ghost use Rattle.caf_base.specs.Arithmetic.{truth};
ghost use Rattle.checked_tree.specs.ExpressionViews as view;
ghost use Rattle.image_acts.specs.Acts as act;
ghost use Rattle.image_code.specs.Table as table;
ghost use Rattle.tree_meaning.specs.Environment as environment;
ghost use Rattle.tree_meaning.specs.Expressions as meaning;
ghost use Rattle.tree_meaning.specs.Sequences.{pushing, dropping, copying, bringing};
ghost use Rattle.expr_code.specs.Drafts.{written};
ghost use Rattle.expr_code.specs.Pieces as part;

use crate::draft::Draft;
use crate::shape::{element_form, place_size, sum};
use caf_base::refusal::NoMemory;
use caf_base::value::Kind;
use checked_tree::data::{DataType, Home, Local};
use checked_tree::expr::{
    ArithmeticOperator, LogicalOperator, RelationalOperator, ResultVariable, Selector, TypedExpr,
};
use image_code::step::{AskStep, Scope, Step};

/// The kind of the numbers of a type; those of a team and a lock are of kind 4, those of an event of kind 8.
pub fn kind_of(of_type: DataType) -> Kind
    ensures { result ≡ environment.kind_of of_type }
{
    match of_type {
        DataType::Intrinsic(kind) => kind,
        DataType::Team => Kind::I4,
        DataType::Event => Kind::I8,
        DataType::Lock => Kind::I4,
    }
}

/// Whose variable it is.
pub fn scope_of(home: Home) -> Scope
    ensures { table.scope_of result ≡ environment.scope_of home }
{
    match home {
        Home::Own => Scope::Here,
        Home::Host => Scope::Host,
    }
}

/// Pushes a truth value.
pub fn push_truth(draft: &mut Draft, value: bool, line: u32) -> Result<(), NoMemory>
    ensures { OnOk result (draft.new ≡ written line (pushing (truth value)) draft.old) }
{
    if value {
        draft.push(Step::Number(1), line)
    } else {
        draft.push(Step::Number(0), line)
    }
}

/// An operator of two numbers of this kind.
pub fn push_arithmetic(
    draft: &mut Draft,
    operator: ArithmeticOperator,
    kind: Kind,
    line: u32,
) -> Result<(), NoMemory>
    ensures { OnOk result (draft.new ≡ written line (meaning.operating (meaning.arithmetic_act operator kind)) draft.old) }
{
    match operator {
        ArithmeticOperator::Power => draft.push(Step::Power(kind), line),
        ArithmeticOperator::Multiply => draft.push(Step::Multiply(kind), line),
        ArithmeticOperator::Divide => draft.push(Step::Divide(kind), line),
        ArithmeticOperator::Add => draft.push(Step::Add(kind), line),
        ArithmeticOperator::Subtract => draft.push(Step::Subtract(kind), line),
    }
}

/// A comparison of two numbers.
pub fn push_relation(
    draft: &mut Draft,
    operator: RelationalOperator,
    line: u32,
) -> Result<(), NoMemory>
    ensures { OnOk result (draft.new ≡ written line (meaning.operating (meaning.relation_act operator)) draft.old) }
{
    match operator {
        RelationalOperator::Equal => draft.push(Step::Equal, line),
        RelationalOperator::NotEqual => draft.push(Step::Differ, line),
        RelationalOperator::Less => draft.push(Step::Less, line),
        RelationalOperator::LessEqual => draft.push(Step::AtMost, line),
        RelationalOperator::Greater => draft.push(Step::Greater, line),
        RelationalOperator::GreaterEqual => draft.push(Step::AtLeast, line),
    }
}

/// An operator of two truth values.
pub fn push_logic(draft: &mut Draft, operator: LogicalOperator, line: u32) -> Result<(), NoMemory>
    ensures { OnOk result (draft.new ≡ written line (meaning.operating (meaning.logic_act operator)) draft.old) }
{
    match operator {
        LogicalOperator::And => draft.push(Step::Both, line),
        LogicalOperator::Or => draft.push(Step::AnyOf, line),
        LogicalOperator::Eqv => draft.push(Step::Equal, line),
        LogicalOperator::Neqv => draft.push(Step::Differ, line),
    }
}

/// Drops so many numbers.
#[tactic(auto, using(crate::proofs::Pieces::some))]
pub fn push_drop(draft: &mut Draft, n: u32, line: u32) -> Result<(), NoMemory>
    ensures { OnOk result (draft.new ≡ written line (dropping n) draft.old) }
{
    match n {
        0 => Ok(()),
        _ => draft.push(Step::Drop(n), line),
    }
}

/// Pushes so many numbers, which stand beneath `depth` others, once more.
#[tactic(auto, using(crate::proofs::Pieces::some))]
pub fn push_copy(draft: &mut Draft, depth: u32, n: u32, line: u32) -> Result<(), NoMemory>
    ensures { OnOk result (draft.new ≡ written line (copying depth n) draft.old) }
{
    match n {
        0 => Ok(()),
        _ => draft.push(Step::Copy(depth, n), line),
    }
}

/// Brings so many numbers, which stand beneath `depth` others, to the top.
#[tactic(auto, using(crate::proofs::Pieces::some))]
pub fn push_bring(draft: &mut Draft, depth: u32, n: u32, line: u32) -> Result<(), NoMemory>
    ensures { OnOk result (draft.new ≡ written line (bringing depth n) draft.old) }
{
    match (depth, n) {
        (0, _) => Ok(()),
        (_, 0) => Ok(()),
        _ => draft.push(Step::Bring(depth, n), line),
    }
}

/// The evaluation cells of a value of this rank.
#[tactic(auto, using(crate::proofs::Pieces::some))]
pub fn push_cells(draft: &mut Draft, rank: u32, line: u32) -> Result<(), NoMemory>
    ensures { OnOk result (draft.new ≡ written line (meaning.taking_cells rank) draft.old) }
{
    match rank {
        0 => Ok(()),
        _ => draft.push(Step::TakeCells, line),
    }
}

/// What was read, as a value of this rank.
#[tactic(auto, using(crate::proofs::Pieces::some))]
pub fn push_as_value(draft: &mut Draft, rank: u32, line: u32) -> Result<(), NoMemory>
    ensures { OnOk result (draft.new ≡ written line (meaning.as_value rank) draft.old) }
{
    match rank {
        0 => draft.push(Step::OnlyElement, line),
        _ => draft.push(Step::TakeCells, line),
    }
}

/// A value of this rank goes behind the elements of a constructor.
#[tactic(auto, using(crate::proofs::Pieces::some))]
pub fn push_item(draft: &mut Draft, rank: u32, line: u32) -> Result<(), NoMemory>
    ensures { OnOk result (draft.new ≡ written line (part.ending_item rank) draft.old) }
{
    match rank {
        0 => {
            draft.push(Step::TakeCell, line)?;
            draft.push(Step::Append, line)
        }
        _ => {
            draft.push(Step::TakeCells, line)?;
            draft.push(Step::AppendArray, line)
        }
    }
}

/// The value of the part of a local array that these subscripts, which are on top, select.
pub fn push_local_value(
    draft: &mut Draft,
    scope: Scope,
    array: u32,
    form: u32,
    rank: u32,
    line: u32,
) -> Result<(), NoMemory>
    ensures { OnOk result (draft.new ≡ written line (part.value_of_part (table.scope_of scope) array form rank) draft.old) }
{
    draft.push(Step::Section(scope, array, form), line)?;
    draft.push(Step::Load(scope, array, rank), line)?;
    push_cells(draft, rank, line)
}

/// Reads the section at the place and owner on top; a section without cells makes no access.
#[tactic(auto, using(crate::proofs::Pieces::some))]
pub fn push_read(draft: &mut Draft, coarray: u32, rank: u32, line: u32) -> Result<(), NoMemory>
    ensures { OnOk result (draft.new ≡ written line (meaning.reading coarray rank) draft.old) }
{
    match rank {
        0 => draft.push(Step::Ask(AskStep::Read(coarray, 0)), line),
        _ => {
            draft.push(Step::SomeCells(1, rank), line)?;
            draft.push(Step::SkipUnless(2), line)?;
            draft.push(Step::Ask(AskStep::Read(coarray, rank)), line)?;
            draft.push(Step::Skip(1), line)?;
            draft.push(Step::NothingRead(rank), line)
        }
    }
}

/// An access without a selector to an array is one to this image's, which has to be there.
#[tactic(auto, using(crate::proofs::Forms::laws))]
pub fn push_needs_own(
    draft: &mut Draft,
    coarray: u32,
    is_scalar: bool,
    selector: &Option<Selector>,
    line: u32,
) -> Result<(), NoMemory>
    ensures { OnOk result (draft.new ≡ written line (meaning.needing_own coarray is_scalar (view.maybe_selector selector.now)) draft.old) }
{
    if is_scalar {
        return Ok(());
    }
    match selector {
        Some(_) => Ok(()),
        None => draft.push(Step::NeedsOwn(coarray), line),
    }
}

/// Stores the number on top in a result variable, whose place, if it is an element, stands beneath `depth` numbers.
#[tactic(auto, using(crate::proofs::Forms::laws))]
pub fn push_store(
    draft: &mut Draft,
    depth: u32,
    variable: &ResultVariable,
    line: u32,
) -> Result<(), NoMemory>
    ensures { OnOk result (draft.new ≡ written line (meaning.storing depth (view.result_variable variable.now)) draft.old) }
{
    push_store_at(draft, depth, variable.variable, &variable.subscripts, line)
}

// The same of a variable with these subscripts.
fn push_store_at(
    draft: &mut Draft,
    depth: u32,
    variable: Local,
    subscripts: &[TypedExpr],
    line: u32,
) -> Result<(), NoMemory>
    ensures { OnOk result (draft.new ≡ written line (part.storing_at depth variable (view.expressions subscripts.now)) draft.old) }
{
    let scope = scope_of(variable.home);
    match subscripts {
        [] => draft.push(Step::Store(scope, variable.variable), line),
        [_first, _rest @ ..] => {
            push_copy(draft, depth, 1, line)?;
            draft.push(Step::Put(scope, variable.variable, 0), line)
        }
    }
}

/// The place of a variable with these subscripts, which are on top; of a scalar variable it is nothing.
pub fn push_section_at(
    draft: &mut Draft,
    variable: Local,
    subscripts: &[TypedExpr],
    line: u32,
) -> Result<(), NoMemory>
    ensures { OnOk result (draft.new ≡ written line (part.section_at variable (view.expressions subscripts.now)) draft.old) }
{
    let form = element_form(subscripts)?;
    match subscripts {
        [] => Ok(()),
        [_first, _rest @ ..] => draft.push(
            Step::Section(scope_of(variable.home), variable.variable, form),
            line,
        ),
    }
}

/// How many numbers the place of a result variable is.
#[tactic(auto, using(crate::proofs::Forms::laws))]
pub fn result_size(variable: &ResultVariable) -> u32
    ensures { result ≡ meaning.result_size (view.result_variable variable.now) }
{
    size_at(&variable.subscripts)
}

// The same by its subscripts.
fn size_at(subscripts: &[TypedExpr]) -> u32
    ensures { result ≡ part.size_at (view.expressions subscripts.now) }
{
    match subscripts {
        [] => 0,
        [_first, _rest @ ..] => 1,
    }
}

/// The same, where there may be none.
#[tactic(auto, using(crate::proofs::Forms::laws))]
pub fn optional_size(variable: &Option<Box<ResultVariable>>) -> u32
    ensures { result ≡ meaning.optional_size (view.optional_result variable.now) }
{
    match variable {
        None => 0,
        Some(variable) => result_size(variable),
    }
}

/// The same of the STAT= variable of a selector.
#[tactic(auto, using(crate::proofs::Forms::laws))]
pub fn stat_size(selector: &Option<Selector>) -> u32
    ensures { result ≡ meaning.optional_size (meaning.stat_of (view.maybe_selector selector.now)) }
{
    match selector {
        None => 0,
        Some(selector) => optional_size(&selector.stat),
    }
}

// The status on top goes into a result variable, or nowhere.
#[tactic(auto, using(crate::proofs::Forms::laws))]
fn push_status_of(
    draft: &mut Draft,
    variable: &Option<Box<ResultVariable>>,
    line: u32,
) -> Result<(), NoMemory>
    ensures { OnOk result (draft.new ≡ written line (meaning.storing_status 1 (view.optional_result variable.now)) draft.old) }
{
    match variable {
        None => push_drop(draft, 1, line),
        Some(variable) => push_store(draft, 1, variable, line),
    }
}

/// The status on top goes into the STAT= variable of a selector, or nowhere.
#[tactic(auto, using(crate::proofs::Forms::laws))]
pub fn push_status(
    draft: &mut Draft,
    selector: &Option<Selector>,
    line: u32,
) -> Result<(), NoMemory>
    ensures { OnOk result (draft.new ≡ written line (meaning.storing_status 1 (meaning.stat_of (view.maybe_selector selector.now))) draft.old) }
{
    match selector {
        None => push_drop(draft, 1, line),
        Some(selector) => push_status_of(draft, &selector.stat, line),
    }
}

/// Reads a section of a coarray, whose place and owner are on top, and sets the selector's STAT= variable.
pub fn push_access(
    draft: &mut Draft,
    coarray: u32,
    is_scalar: bool,
    rank: u32,
    selector: &Option<Selector>,
    line: u32,
) -> Result<(), NoMemory>
    ensures { OnOk result (draft.new ≡ written line (part.accessing coarray is_scalar rank (view.maybe_selector selector.now)) draft.old) }
{
    push_needs_own(draft, coarray, is_scalar, selector, line)?;
    push_read(draft, coarray, rank, line)?;
    draft.push(Step::Accessed, line)?;
    push_status(draft, selector, line)?;
    push_drop(draft, stat_size(selector), line)?;
    push_as_value(draft, rank, line)
}

/// The image that cosubscripts and a team select; the place of the selector's STAT= variable comes beneath the
/// section's.
pub fn push_selected_owner(
    draft: &mut Draft,
    coarray: u32,
    rank: u32,
    count: u32,
    stat: u32,
    line: u32,
) -> Result<(), NoMemory>
    ensures { OnOk result (draft.new ≡ written line (part.owning coarray rank count stat) draft.old) }
{
    let depth = sum(place_size(rank)?, sum(count, 1)?)?;
    push_bring(draft, stat, depth, line)?;
    draft.push(Step::Owner(coarray, rank, count), line)
}
