//! What intrinsic functions and arguments do behind their operands (ISO/IEC 1539-1:2018, 16.9, 15.5.2).

ghost use Rattle.std.specs.Prelude.{◌≡◌, [], ◌∷◌, OnOk};
ghost use Rattle.caf_base.specs.Arithmetic.{huge_of};
ghost use Rattle.checked_tree.specs.ExpressionViews as view;
ghost use Rattle.image_acts.specs.Acts as act;
ghost use Rattle.image_code.specs.Table as table;
ghost use Rattle.tree_meaning.specs.Expressions as meaning;
ghost use Rattle.tree_meaning.specs.Sequences.{doing, pushing};
ghost use Rattle.expr_code.specs.Drafts.{written};
ghost use Rattle.expr_code.specs.Functions as functions;

use crate::draft::Draft;
use crate::piece::{push_cells, push_copy, push_drop, scope_of};
use crate::shape::place_size;
use caf_base::refusal::NoMemory;
use caf_base::value::Kind;
use checked_tree::data::Object;
use checked_tree::expr::{Subscript, TypedExpr};
use image_code::step::{AskStep, Scope, Step};

/// MIN or MAX.
#[derive(Clone, Copy)]
pub enum Extreme {
    Least,
    Greatest,
}

/// The lesser or the greater one of two numbers.
pub fn push_extreme(draft: &mut Draft, extreme: Extreme, line: u32) -> Result<(), NoMemory>
    ensures { OnOk result (draft.new ≡ written line (meaning.operating (functions.extreme_act extreme)) draft.old) }
{
    match extreme {
        Extreme::Least => draft.push(Step::Least, line),
        Extreme::Greatest => draft.push(Step::Greatest, line),
    }
}

/// HUGE: the greatest number of a kind.
pub fn push_huge(draft: &mut Draft, kind: Kind, line: u32) -> Result<(), NoMemory>
    ensures { OnOk result (draft.new ≡ written line (pushing (huge_of kind)) draft.old) }
{
    match kind {
        Kind::I4 => draft.push(Step::Number(2147483647), line),
        Kind::I8 => draft.push(Step::Number(9223372036854775807), line),
        Kind::L4 => draft.push(Step::Number(1), line),
    }
}

/// ALLOCATED.
pub fn push_is_there(draft: &mut Draft, object: Object, line: u32) -> Result<(), NoMemory>
    ensures { OnOk result (draft.new ≡ written line (functions.is_there object) draft.old) }
{
    match object {
        Object::Local(local) => draft.push(
            Step::IsThere(scope_of(local.home), local.variable),
            line,
        ),
        Object::Coarray(coarray) => draft.push(Step::CoIsThere(coarray), line),
        Object::Constant(_) => Ok(()),
    }
}

/// IMAGE_STATUS of the image index beneath the team on top, which is looked up once more: the index may have been
/// evaluated behind it.
pub fn push_image_status(draft: &mut Draft, line: u32) -> Result<(), NoMemory>
    ensures { OnOk result (draft.new ≡ written line (doing (act.selector act.team_value ∷ act.ask act.status ∷ [])) draft.old) }
{
    draft.push(Step::TeamValue, line)?;
    draft.push(Step::Ask(AskStep::Status), line)
}

/// FAILED_IMAGES of the team on top.
pub fn push_failed(draft: &mut Draft, line: u32) -> Result<(), NoMemory>
    ensures { OnOk result (draft.new ≡ written line (doing (act.ask act.failed ∷ act.stack act.take_cells ∷ [])) draft.old) }
{
    draft.push(Step::Ask(AskStep::Failed), line)?;
    draft.push(Step::TakeCells, line)
}

/// STOPPED_IMAGES of the team on top.
pub fn push_stopped(draft: &mut Draft, line: u32) -> Result<(), NoMemory>
    ensures { OnOk result (draft.new ≡ written line (doing (act.ask act.stopped ∷ act.stack act.take_cells ∷ [])) draft.old) }
{
    draft.push(Step::Ask(AskStep::Stopped), line)?;
    draft.push(Step::TakeCells, line)
}

/// SIZE by the bounds on top: the size of the array, or its extent along the dimension above them.
pub fn push_extent(
    draft: &mut Draft,
    dim: &Option<Box<TypedExpr>>,
    line: u32,
) -> Result<(), NoMemory>
    ensures { OnOk result (draft.new ≡ written line (functions.extent_by (view.optional_expression dim.now)) draft.old) }
{
    match dim {
        Some(_) => draft.push(Step::Extent, line),
        None => draft.push(Step::Size, line),
    }
}

/// Whether a designator with these subscripts is the whole object.
pub fn is_whole(subscripts: &[Subscript]) -> bool
    ensures { result ≡ functions.is_whole (view.subscripts subscripts.now) }
{
    match subscripts {
        [] => true,
        [_first, _rest @ ..] => false,
    }
}

/// The bounds of a local array, or of the section by the subscripts on top.
pub fn push_local_bounds(
    draft: &mut Draft,
    is_whole: bool,
    scope: Scope,
    array: u32,
    form: u32,
    rank: u32,
    line: u32,
) -> Result<(), NoMemory>
    ensures { OnOk result (draft.new ≡ written line (functions.local_bounds is_whole (table.scope_of scope) array form rank) draft.old) }
{
    if is_whole {
        return draft.push(Step::Bounds(scope, array), line);
    }
    draft.push(Step::Section(scope, array, form), line)?;
    draft.push(Step::SectionBounds(rank), line)
}

/// The bounds of a section of a coarray whose place and owner are on top.
pub fn push_selected_bounds(
    draft: &mut Draft,
    rank: u32,
    stat: u32,
    line: u32,
) -> Result<(), NoMemory>
    ensures { OnOk result (draft.new ≡ written line (functions.selected_bounds rank stat) draft.old) }
{
    push_drop(draft, 1, line)?;
    draft.push(Step::SectionBounds(rank), line)?;
    push_drop(draft, stat, line)
}

/// The place of a part of a local array, by the subscripts on top, and above it the value.
pub fn push_place_and_value(
    draft: &mut Draft,
    scope: Scope,
    array: u32,
    form: u32,
    rank: u32,
    line: u32,
) -> Result<(), NoMemory>
    ensures { OnOk result (draft.new ≡ written line (functions.place_and_value (table.scope_of scope) array form rank) draft.old) }
{
    let size = place_size(rank)?;
    draft.push(Step::Section(scope, array, form), line)?;
    push_copy(draft, 0, size, line)?;
    draft.push(Step::Load(scope, array, rank), line)?;
    push_cells(draft, rank, line)
}
