//! The objects of ALLOCATE and DEALLOCATE, and DEALLOCATE (ISO/IEC 1539-1:2018, 9.7.1, 9.7.3).

ghost use Rattle.std.specs.Prelude.{◌≡◌, [], ◌∷◌, length, map, pos, IfOk, OnOk};
ghost use Rattle.walk_theory.specs.Made.{parts_size};
ghost use Rattle.checked_tree.specs.ExpressionViews as view;
ghost use Rattle.checked_tree.specs.StatementViews as statements;
ghost use Rattle.tree_meaning.specs.Allocation as meaning;
ghost use Rattle.tree_meaning.specs.Sequences.{doing};
ghost use Rattle.expr_code.specs.Drafts.{written};
ghost use Rattle.expr_code.specs.Environments.{environment};
ghost use Rattle.allocation_code.specs.Allocating as part;

use caf_base::refusal::NoMemory;
use checked_tree::action::Allocation;
use checked_tree::data::{Home, Object};
use checked_tree::expr::ResultVariable;
use control_code::settling::{BAD_ARGUMENT, push_place, push_settling, size_of};
use expr_code::draft::Draft;
use expr_code::env::Env;
use expr_code::piece::{push_drop, scope_of};
use expr_code::shape::{narrow, sum};
use image_code::step::{AskStep, Step};
use std::alloc::Global;

fn same_home(home: Home, other: Home) -> bool
    ensures { result ≡ meaning.same_home home other }
{
    match home {
        Home::Own => matches!(other, Home::Own),
        Home::Host => matches!(other, Home::Host),
    }
}

fn same_object(object: Object, other: Object) -> bool
    ensures { result ≡ meaning.same_object object other }
{
    match object {
        Object::Local(local) => match other {
            Object::Local(found) => {
                same_home(local.home, found.home) && local.variable == found.variable
            }
            Object::Coarray(_) => false,
            Object::Constant(_) => false,
        },
        Object::Coarray(coarray) => match other {
            Object::Coarray(found) => coarray == found,
            Object::Local(_) => false,
            Object::Constant(_) => false,
        },
        Object::Constant(_) => false,
    }
}

fn stands_in(object: Object, others: &[Object]) -> bool
    ensures { result ≡ meaning.stands_in object others.now }
{
    let [first, rest @ ..] = others else {
        return false;
    };
    same_object(object, *first) || stands_in(object, rest)
}

// Whether one of them stands there twice.
fn has_twice(objects: &[Object]) -> bool
    ensures { result ≡ meaning.has_twice objects.now }
{
    let [first, rest @ ..] = objects else {
        return false;
    };
    stands_in(*first, rest) || has_twice(rest)
}

fn object_of(object: &Allocation) -> Object
    ensures { result ≡ meaning.object_of (statements.allocation object.now) }
{
    match object {
        Allocation::Local { variable, .. } => Object::Local(*variable),
        Allocation::Coarray { coarray, .. } => Object::Coarray(*coarray),
    }
}

/// The objects of ALLOCATE without their bounds.
pub fn objects_of(alloc: Global, allocations: &[Allocation]) -> Result<Vec<Object>, NoMemory>
    ensures { IfOk result (λ xs. xs.items ≡ meaning.objects_of (map statements.allocation allocations.now)) }
{
    let mut objects = Vec::new(alloc);
    for allocation in allocations {
        objects.push(object_of(allocation))?;
    }
    Ok(objects)
}

/// A name that stands twice is a bad argument.
pub fn push_named_once(draft: &mut Draft, objects: &[Object], line: u32) -> Result<(), NoMemory>
    ensures { OnOk result (draft.new ≡ written line (meaning.named_once objects.now) draft.old) }
{
    if has_twice(objects) {
        draft.push(Step::Number(0), line)?;
        return draft.push(Step::Both, line);
    }
    Ok(())
}

// How many coarrays are among them.
#[tactic(auto, using(std::proofs::lemmas::Grind::common_steps))]
fn count_coarrays(objects: &[Object]) -> Result<u32, NoMemory>
    ensures { IfOk result (λ n. n ≡ length (meaning.coarrays_in objects.now)) }
{
    let mut count = 0;
    for object in objects {
        count = match object {
            Object::Coarray(_) => sum(count, 1)?,
            Object::Local(_) => count,
            Object::Constant(_) => count,
        };
    }
    Ok(count)
}

// Their numbers.
fn push_coarrays(draft: &mut Draft, objects: &[Object], line: u32) -> Result<(), NoMemory>
    ensures { OnOk result (draft.new ≡ written line (doing (meaning.numbers (meaning.coarrays_in objects.now))) draft.old) }
{
    for object in objects {
        match object {
            Object::Coarray(coarray) => draft.push(Step::Number(*coarray as i64), line)?,
            Object::Local(_) => {}
            Object::Constant(_) => {}
        }
    }
    Ok(())
}

/// The round of the coarrays among the objects of ALLOCATE; where there is none the status is 0.
#[tactic(auto, using(crate::proofs::Objects::rounds))]
pub fn push_allocate_round(draft: &mut Draft, objects: &[Object], line: u32) -> Result<(), NoMemory>
    ensures { OnOk result (draft.new ≡ written line (meaning.allocate_round (meaning.coarrays_in objects.now)) draft.old) }
{
    let count = count_coarrays(objects)?;
    if count == 0 {
        return draft.push(Step::Number(0), line);
    }
    draft.push(Step::ThisTeam, line)?;
    push_coarrays(draft, objects, line)?;
    draft.push(Step::Ask(AskStep::ArriveAllocate(count)), line)?;
    draft.push(Step::ThisTeam, line)?;
    draft.push(Step::Ask(AskStep::Leave), line)
}

// The same of DEALLOCATE.
#[tactic(auto, using(crate::proofs::Objects::rounds))]
fn push_deallocate_round(draft: &mut Draft, objects: &[Object], line: u32) -> Result<(), NoMemory>
    ensures { OnOk result (draft.new ≡ written line (meaning.deallocate_round (meaning.coarrays_in objects.now)) draft.old) }
{
    let count = count_coarrays(objects)?;
    if count == 0 {
        return draft.push(Step::Number(0), line);
    }
    draft.push(Step::ThisTeam, line)?;
    push_coarrays(draft, objects, line)?;
    draft.push(Step::Ask(AskStep::ArriveDeallocate(count)), line)?;
    draft.push(Step::ThisTeam, line)?;
    draft.push(Step::Ask(AskStep::Leave), line)
}

// Whether an object is allocated, beside the truth value on top.
fn push_allocated(draft: &mut Draft, object: Object, line: u32) -> Result<(), NoMemory>
    ensures { OnOk result (draft.new ≡ written line (meaning.is_allocated object) draft.old) }
{
    match object {
        Object::Local(local) => {
            draft.push(Step::IsThere(scope_of(local.home), local.variable), line)?;
            draft.push(Step::Both, line)
        }
        Object::Coarray(coarray) => {
            draft.push(Step::CoIsThere(coarray), line)?;
            draft.push(Step::Both, line)
        }
        Object::Constant(_) => Ok(()),
    }
}

fn push_are_allocated(draft: &mut Draft, objects: &[Object], line: u32) -> Result<(), NoMemory>
    ensures { OnOk result (draft.new ≡ written line (meaning.are_allocated objects.now) draft.old) }
{
    for object in objects {
        push_allocated(draft, *object, line)?;
    }
    Ok(())
}

// The deallocation of an object.
fn push_freeing_one(draft: &mut Draft, object: Object, line: u32) -> Result<(), NoMemory>
    ensures { OnOk result (draft.new ≡ written line (meaning.freeing_one object) draft.old) }
{
    match object {
        Object::Local(local) => draft.push(Step::Free(scope_of(local.home), local.variable), line),
        Object::Coarray(coarray) => {
            draft.push(Step::Ask(AskStep::Delete(coarray)), line)?;
            draft.push(Step::NoteFreed(coarray), line)
        }
        Object::Constant(_) => Ok(()),
    }
}

// The round of the coarrays among them, and the deallocation of all.
fn push_freed(draft: &mut Draft, objects: &[Object], line: u32) -> Result<(), NoMemory>
    ensures { OnOk result (draft.new ≡ written line (part.freed objects.now) draft.old) }
{
    push_deallocate_round(draft, objects, line)?;
    for object in objects {
        push_freeing_one(draft, *object, line)?;
    }
    Ok(())
}

// Its size.
#[tactic(auto, using(expr_code::proofs::Lines::written_long))]
fn freed_size(alloc: Global, objects: &[Object]) -> Result<u32, NoMemory>
    ensures { IfOk result (λ n. n ≡ parts_size (part.freed objects.now)) }
{
    let mut draft = Draft::counting(alloc)?;
    push_freed(&mut draft, objects, 0)?;
    narrow(draft.length() as usize)
}

// Where all is well, the deallocation; else the status of a bad argument.
fn push_freed_or_not(draft: &mut Draft, objects: &[Object], line: u32) -> Result<(), NoMemory>
    ensures { OnOk result (draft.new ≡ written line (part.freed_or_not objects.now) draft.old) }
{
    let size = freed_size(draft.allocator(), objects)?;
    draft.push(Step::SkipUnless(sum(size, 1)?), line)?;
    push_freed(draft, objects, line)?;
    draft.push(Step::Skip(1), line)?;
    draft.push(Step::Number(BAD_ARGUMENT), line)
}

/// DEALLOCATE.
pub fn push_deallocate(
    draft: &mut Draft,
    env: &Env<'_>,
    objects: &[Object],
    stat: &Option<ResultVariable>,
    line: u32,
) -> Result<(), NoMemory>
    ensures { OnOk result (draft.new ≡ written line (meaning.deallocate (environment env.now) objects.now (view.maybe_result stat.now)) draft.old) }
{
    push_place(draft, env, stat, line)?;
    draft.push(Step::Number(1), line)?;
    push_are_allocated(draft, objects, line)?;
    push_named_once(draft, objects, line)?;
    push_freed_or_not(draft, objects, line)?;
    push_settling(draft, stat, 1, &[], line)?;
    push_drop(draft, size_of(stat), line)
}
