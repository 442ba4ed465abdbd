//! Assignment (ISO/IEC 1539-1:2018, 10.2.1): the right side comes first, then the subscripts and the selector of the
//! left side, then the store or the write.

ghost use Rattle.std.specs.Prelude.{◌≡◌, ◌≤◌, [], ◌∷◌, IfOk, OnOk};
ghost use Rattle.checked_tree.specs.Expressions as t;
ghost use Rattle.checked_tree.specs.ExpressionViews as view;
ghost use Rattle.checked_tree.specs.declared.data.Object.TheVariants as objects;
ghost use Rattle.image_code.specs.Table as table;
ghost use Rattle.image_acts.specs.Places as places;
ghost use Rattle.tree_meaning.specs.Assignments as meaning;
ghost use Rattle.expr_code.specs.Drafts.{written};
ghost use Rattle.expr_code.specs.Environments.{environment};
ghost use Rattle.assignment_code.specs.Assigning as part;

use caf_base::refusal::NoMemory;
use caf_base::value::Kind;
use checked_tree::data::{DataType, Local, Object};
use checked_tree::expr::{Designator, Selector, Subscript, TypedExpr};
use checked_tree::statement::ListedImages;
use expr_code::draft::Draft;
use expr_code::env::Env;
use expr_code::expr::{push_expr, push_owner, push_subscripts};
use expr_code::function::{push_failed, push_stopped};
use expr_code::piece::{
    kind_of, push_bring, push_copy, push_drop, push_needs_own, push_status, scope_of, stat_size,
};
use expr_code::shape::{form_of, is_scalar, place_size, sum};
use image_code::step::{AskStep, Scope, Step};

// Whether a value of the one kind may not be one of the other.
fn narrows(from: Kind, to: Kind) -> bool
    ensures { result ≡ meaning.narrows from to }
{
    match from {
        Kind::I4 => false,
        Kind::I8 => match to {
            Kind::I4 => true,
            Kind::I8 => false,
            Kind::L4 => false,
        },
        Kind::L4 => false,
    }
}

// The test that a value of this rank is of a kind.
#[tactic(auto, using(crate::proofs::Assigning::of_arrays))]
fn push_fits(
    draft: &mut Draft,
    to: Kind,
    value_rank: u32,
    depth: u32,
    line: u32,
) -> Result<(), NoMemory>
    ensures { OnOk result (draft.new ≡ written line (part.fits_at to value_rank depth) draft.old) }
{
    match value_rank {
        0 => draft.push(Step::Fits(to, depth), line),
        _ => draft.push(Step::FitsEach(to), line),
    }
}

// The same, where it may not be.
#[tactic(auto, using(crate::proofs::Assigning::of_kinds))]
fn push_fitting(
    draft: &mut Draft,
    from: Kind,
    to: Kind,
    value_rank: u32,
    depth: u32,
    line: u32,
) -> Result<(), NoMemory>
    ensures { OnOk result (draft.new ≡ written line (meaning.fitting from to value_rank depth) draft.old) }
{
    if narrows(from, to) {
        return push_fits(draft, to, value_rank, depth, line);
    }
    Ok(())
}

// How many numbers the subscript with this digit of a form is.
fn numbers_in(digit: u32) -> u32
    ensures is { result ≡ places.numbers_in digit }
    ensures small { result ≤ 3 }
{
    if digit == 1 {
        return 1;
    }
    let parts = digit.saturating_sub(2);
    let first = if parts % 2 == 1 { 1 } else { 0 };
    let last = if (parts / 2) % 2 == 1 { 1 } else { 0 };
    let stride = if parts >= 4 { 1 } else { 0 };
    first + last + stride
}

// How many numbers the subscripts of a form are.
#[tactic(auto, using(crate::proofs::Numbers::in_form))]
fn numbers_of_form(form: u32) -> u32
    ensures { result ≡ places.numbers_of_form (places.digits form) }
{
    numbers_in(form % 10) + (numbers_in((form / 10) % 10) + numbers_in((form / 100) % 10))
}

// The place of a section, and the test that the value beneath is of the kind.
#[tactic(auto, using(crate::proofs::Assigning::of_sizes))]
fn push_tested_section(
    draft: &mut Draft,
    to: Kind,
    value_rank: u32,
    scope: Scope,
    array: u32,
    form: u32,
    rank: u32,
    line: u32,
) -> Result<(), NoMemory>
    ensures { OnOk result (draft.new ≡ written line (part.tested_section to value_rank (table.scope_of scope) array form rank) draft.old) }
{
    let depth = place_size(rank)?;
    draft.push(Step::IsThere(scope, array), line)?;
    draft.push(Step::SkipUnless(3), line)?;
    draft.push(Step::Section(scope, array, form), line)?;
    push_fits(draft, to, value_rank, depth, line)?;
    draft.push(Step::Skip(2), line)?;
    push_fits(draft, to, value_rank, numbers_of_form(form), line)?;
    draft.push(Step::Section(scope, array, form), line)
}

#[tactic(auto, using(crate::proofs::Assigning::of_kinds))]
fn push_fitting_section(
    draft: &mut Draft,
    from: Kind,
    to: Kind,
    value_rank: u32,
    scope: Scope,
    array: u32,
    form: u32,
    rank: u32,
    line: u32,
) -> Result<(), NoMemory>
    ensures { OnOk result (draft.new ≡ written line (meaning.fitting_section from to value_rank (table.scope_of scope) array form rank) draft.old) }
{
    if narrows(from, to) {
        return push_tested_section(draft, to, value_rank, scope, array, form, rank, line);
    }
    draft.push(Step::Section(scope, array, form), line)
}

// An array has the shape of the place beneath so many numbers.
#[tactic(auto, using(crate::proofs::Assigning::of_arrays))]
fn push_agreeing(
    draft: &mut Draft,
    value_rank: u32,
    depth: u32,
    rank: u32,
    line: u32,
) -> Result<(), NoMemory>
    ensures { OnOk result (draft.new ≡ written line (meaning.agreeing value_rank depth rank) draft.old) }
{
    match value_rank {
        0 => Ok(()),
        _ => draft.push(Step::SameShape(depth, rank), line),
    }
}

// The value goes into the place on top of a local array.
#[tactic(auto, using(crate::proofs::Assigning::of_arrays))]
fn push_putting(
    draft: &mut Draft,
    value_rank: u32,
    scope: Scope,
    array: u32,
    rank: u32,
    line: u32,
) -> Result<(), NoMemory>
    ensures { OnOk result (draft.new ≡ written line (meaning.putting value_rank (table.scope_of scope) array rank) draft.old) }
{
    match value_rank {
        0 => draft.push(Step::Put(scope, array, rank), line),
        _ => draft.push(Step::PutArray(scope, array, rank), line),
    }
}

// The value is written to the place and owner on top.
#[tactic(auto, using(crate::proofs::Assigning::of_arrays))]
fn push_write(
    draft: &mut Draft,
    value_rank: u32,
    coarray: u32,
    rank: u32,
    kind: Kind,
    line: u32,
) -> Result<(), NoMemory>
    ensures { OnOk result (draft.new ≡ written line (meaning.written value_rank coarray rank kind) draft.old) }
{
    match value_rank {
        0 => draft.push(Step::Ask(AskStep::Write(coarray, rank, kind)), line),
        _ => draft.push(Step::Ask(AskStep::WriteArray(coarray, rank, kind)), line),
    }
}

#[tactic(auto, using(crate::proofs::Assigning::of_arrays))]
fn push_dropping_value(draft: &mut Draft, value_rank: u32, line: u32) -> Result<(), NoMemory>
    ensures { OnOk result (draft.new ≡ written line (meaning.dropping_value value_rank) draft.old) }
{
    match value_rank {
        0 => push_drop(draft, 1, line),
        _ => draft.push(Step::DropArray, line),
    }
}

/// A value of this rank is written to the section at the place and owner on top: where it has no cells no access is
/// made, and the status is 0.
#[tactic(auto, using(crate::proofs::Assigning::of_sizes))]
pub fn push_writing(
    draft: &mut Draft,
    value_rank: u32,
    coarray: u32,
    rank: u32,
    kind: Kind,
    line: u32,
) -> Result<(), NoMemory>
    ensures { OnOk result (draft.new ≡ written line (meaning.writing value_rank coarray rank kind) draft.old) }
{
    let size = sum(place_size(rank)?, 1)?;
    match rank {
        0 => push_write(draft, value_rank, coarray, 0, kind, line),
        _ => {
            draft.push(Step::SomeCells(1, rank), line)?;
            draft.push(Step::SkipUnless(2), line)?;
            push_write(draft, value_rank, coarray, rank, kind, line)?;
            draft.push(Step::Skip(3), line)?;
            push_drop(draft, size, line)?;
            push_dropping_value(draft, value_rank, line)?;
            draft.push(Step::Number(0), line)
        }
    }
}

// A scalar comes once more beneath the place, where the place of the selector's STAT= variable stands between.
#[tactic(auto, using(crate::proofs::Assigning::of_arrays))]
fn push_lifting(
    draft: &mut Draft,
    value_rank: u32,
    size: u32,
    place: u32,
    line: u32,
) -> Result<(), NoMemory>
    ensures { OnOk result (draft.new ≡ written line (meaning.lifting value_rank size place) draft.old) }
{
    let depth = sum(place, size)?;
    match value_rank {
        0 => {
            if size == 0 {
                return Ok(());
            }
            push_copy(draft, depth, 1, line)?;
            push_bring(draft, 1, place, line)
        }
        _ => Ok(()),
    }
}

#[tactic(auto, using(crate::proofs::Assigning::of_arrays))]
fn left_over(value_rank: u32, size: u32) -> Result<u32, NoMemory>
    ensures { IfOk result (λ n. n ≡ meaning.left_over value_rank size) }
{
    match value_rank {
        0 => sum(size, size),
        _ => Ok(size),
    }
}

// A value is written to the place and owner on top, and the status goes into the selector's STAT= variable.
fn push_writing_value(
    draft: &mut Draft,
    coarray: u32,
    is_scalar: bool,
    rank: u32,
    kind: Kind,
    from: Kind,
    value_rank: u32,
    selector: &Option<Selector>,
    line: u32,
) -> Result<(), NoMemory>
    ensures { OnOk result (draft.new ≡ written line (part.writing_value coarray is_scalar rank kind from value_rank (view.maybe_selector selector.now)) draft.old) }
{
    let stat = stat_size(selector);
    let place = sum(place_size(rank)?, 1)?;
    let left = left_over(value_rank, stat)?;
    push_lifting(draft, value_rank, stat, place, line)?;
    push_fitting(draft, from, kind, value_rank, place, line)?;
    push_needs_own(draft, coarray, is_scalar, selector, line)?;
    push_agreeing(draft, value_rank, 1, rank, line)?;
    push_writing(draft, value_rank, coarray, rank, kind, line)?;
    draft.push(Step::Accessed, line)?;
    push_status(draft, selector, line)?;
    push_drop(draft, left, line)
}

/// The place and the owner of a section of a coarray of this rank.
pub fn push_placing(
    draft: &mut Draft,
    env: &Env<'_>,
    coarray: u32,
    subscripts: &[Subscript],
    rank: u32,
    selector: &Option<Selector>,
    line: u32,
) -> Result<(), NoMemory>
    ensures { OnOk result (draft.new ≡ written line (part.placing (environment env.now) coarray (view.subscripts subscripts.now) rank (view.maybe_selector selector.now)) draft.old) }
{
    let form = form_of(subscripts, rank)?;
    push_subscripts(draft, env, subscripts, line)?;
    draft.push(Step::CoSection(coarray, form), line)?;
    push_owner(draft, env, coarray, rank, selector, line)
}

// The value on top goes into a local variable or a part of one.
fn push_assigned_local(
    draft: &mut Draft,
    env: &Env<'_>,
    variable: Local,
    subscripts: &[Subscript],
    kind: Kind,
    rank: u32,
    from: Kind,
    value_rank: u32,
    line: u32,
) -> Result<(), NoMemory>
    ensures { OnOk result (draft.new ≡ written line (meaning.assigned (environment env.now) (t.part (objects.Local variable) (view.subscripts subscripts.now) t.no_selector) kind rank from value_rank) draft.old) }
{
    let scope = scope_of(variable.home);
    let array = variable.variable;
    if is_scalar(subscripts, rank) {
        push_fitting(draft, from, kind, 0, 0, line)?;
        return draft.push(Step::Store(scope, array), line);
    }
    let form = form_of(subscripts, rank)?;
    push_subscripts(draft, env, subscripts, line)?;
    push_fitting_section(
        draft, from, kind, value_rank, scope, array, form, rank, line,
    )?;
    push_agreeing(draft, value_rank, 0, rank, line)?;
    push_putting(draft, value_rank, scope, array, rank, line)
}

// The value on top goes into a variable of this kind and rank, or a part of one.
#[tactic(auto, using(expr_code::proofs::Forms::laws))]
fn push_assigned(
    draft: &mut Draft,
    env: &Env<'_>,
    variable: &Designator,
    kind: Kind,
    rank: u32,
    from: Kind,
    value_rank: u32,
    line: u32,
) -> Result<(), NoMemory>
    ensures { OnOk result (draft.new ≡ written line (meaning.assigned (environment env.now) (view.designator variable.now) kind rank from value_rank) draft.old) }
{
    let subscripts = variable.subscripts.as_slice();
    match variable.object {
        Object::Local(local) => push_assigned_local(
            draft, env, local, subscripts, kind, rank, from, value_rank, line,
        ),
        Object::Coarray(coarray) => {
            let scalar = is_scalar(subscripts, rank);
            push_placing(
                draft,
                env,
                coarray,
                subscripts,
                rank,
                &variable.selector,
                line,
            )?;
            push_writing_value(
                draft,
                coarray,
                scalar,
                rank,
                kind,
                from,
                value_rank,
                &variable.selector,
                line,
            )
        }
        Object::Constant(_) => Ok(()),
    }
}

/// Assignment of an expression to a variable of this type and rank, or a part of one.
pub fn push_assignment(
    draft: &mut Draft,
    env: &Env<'_>,
    variable: &Designator,
    of_type: DataType,
    rank: u32,
    value: &TypedExpr,
    line: u32,
) -> Result<(), NoMemory>
    ensures { OnOk result (draft.new ≡ written line (meaning.assignment (environment env.now) (view.designator variable.now) of_type rank (view.expression value.now)) draft.old) }
{
    push_expr(draft, env, value, line)?;
    push_assigned(
        draft,
        env,
        variable,
        kind_of(of_type),
        rank,
        kind_of(value.of_type),
        value.rank,
        line,
    )
}

// The team of FAILED_IMAGES or STOPPED_IMAGES (16.9): the current team where it is missing.
fn push_listed_team(
    draft: &mut Draft,
    env: &Env<'_>,
    team: &Option<TypedExpr>,
    line: u32,
) -> Result<(), NoMemory>
    ensures { OnOk result (draft.new ≡ written line (meaning.listed_team (environment env.now) (view.maybe_expression team.now)) draft.old) }
{
    match team {
        None => draft.push(Step::ThisTeam, line),
        Some(team) => {
            push_expr(draft, env, team, line)?;
            draft.push(Step::TeamValue, line)
        }
    }
}

fn push_listing(
    draft: &mut Draft,
    env: &Env<'_>,
    images: ListedImages,
    line: u32,
) -> Result<(), NoMemory>
    ensures { OnOk result (draft.new ≡ written line (meaning.listing (environment env.now) images) draft.old) }
{
    match images {
        ListedImages::Failed => push_failed(draft, line),
        ListedImages::Stopped => push_stopped(draft, line),
    }
}

/// Assignment of FAILED_IMAGES or STOPPED_IMAGES to a whole allocatable array.
pub fn push_images_assignment(
    draft: &mut Draft,
    env: &Env<'_>,
    variable: Local,
    images: ListedImages,
    team: &Option<TypedExpr>,
    line: u32,
) -> Result<(), NoMemory>
    ensures { OnOk result (draft.new ≡ written line (meaning.images_assignment (environment env.now) variable images (view.maybe_expression team.now)) draft.old) }
{
    push_listed_team(draft, env, team, line)?;
    push_listing(draft, env, images, line)?;
    draft.push(
        Step::PutImages(scope_of(variable.home), variable.variable),
        line,
    )
}
