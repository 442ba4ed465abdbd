//! ALLOCATE and DEALLOCATE (9.7.1, 9.7.3): rules 20, 33, 34 and 55.

ghost use Rattle.std.specs.Prelude.{◌≡◌, ◌++◌, [], IfOk, None, OnOk, Some, cond, map};
ghost use Rattle.std.specs.Option.{option_map};
ghost use Rattle.checked_tree.specs.ExpressionViews.{maybe_result};
ghost use Rattle.checked_tree.specs.Statements as ts;
ghost use Rattle.checked_tree.specs.StatementViews.{allocation as allocation_seen, statement_form};
ghost use Rattle.fortran_tree.specs.ActionViews.{allocation as allocation_written};
ghost use Rattle.fortran_tree.specs.DeclarationViews.{coarray_spec, dimension as dimension_written, maybe_coarray_spec};
ghost use Rattle.fortran_tree.specs.ExpressionViews.{specifiers as specifiers_written};
ghost use Rattle.rule_definitions.specs.Actions as rules;
ghost use Rattle.rule_definitions.specs.Expressions.{judged_specifiers};
ghost use Rattle.rule_definitions.specs.Judgements.{all_made, both, breaks, is_nothing, made_of_both, then_made, unless};
ghost use Rattle.rule_definitions.specs.Names.{variable};
ghost use Rattle.scope_table.specs.Scopes.{denoted as meaning_of, visible as symbol_seen};
ghost use Rattle.part_rules.specs.Views.{judgement, list_of, one_more};
ghost use Rattle.allocation_rules.specs.Allocations.{allocated_as, allocation_with, explicit_said, name_of, noted, object_of, shape_seen, variable_breaks};

use crate::bounds::{Cobounds, Shape, judge_shape};
use caf_base::place::Pos;
use caf_base::refusal::NoMemory;
use checked_tree::action::Allocation as TypedAllocation;
use checked_tree::data::{DataType, Local, Object};
use checked_tree::expr::ResultVariable;
use checked_tree::statement::StatementForm;
use fortran_tree::action::Allocation;
use fortran_tree::declaration::{Coshape, Dimension};
use fortran_tree::expr::Specifier;
use fortran_tree::name::Name;
use part_rules::judged::{Judged, are_none, fine, joined, keep, note_unless, refused, ruled};
use rule_definitions::broken::Broken;
use rule_definitions::rule;
use scope_table::object::object_from;
use scope_table::scope::{Denoted, Scope, Visible};
use shared_rules::stat::stat_of;
use std::alloc::Global;

fn is_colon(dimension: &Dimension) -> bool
    ensures { result ≡ rules.is_colon (dimension_written dimension.now) }
{
    match dimension {
        Dimension::Deferred { .. } => true,
        Dimension::Explicit(_) => false,
    }
}

fn has_colon(dimensions: &[Dimension]) -> bool
    ensures { result ≡ rules.has_colon (map dimension_written dimensions.now) }
{
    for dimension in dimensions {
        if is_colon(dimension) {
            return true;
        }
    }
    false
}

// The rule that bounds break at an object of this rank: 55 where there are none for an array, or a colon, 33 where
// there is another number of them.
#[tactic(auto, using(crate::proofs::Shapes::shape_by))]
fn shape_rule(rank: usize, dimensions: &[Dimension], at: Pos) -> Option<Broken>
    ensures { noted result ≡ rules.shape_breaks rank (map dimension_written dimensions.now) at }
{
    let [_, ..] = dimensions else {
        return rule_unless(rank == 0, rule::ALLOCATE, at);
    };
    if has_colon(dimensions) {
        return Some(Broken {
            rule: rule::ALLOCATE,
            at,
        });
    }
    rule_unless(dimensions.len() == rank, rule::SUBSCRIPT_COUNT, at)
}

fn rule_unless(holds: bool, rule: u8, at: Pos) -> Option<Broken>
    ensures { noted result ≡ unless holds rule at }
{
    if holds {
        None
    } else {
        Some(Broken { rule, at })
    }
}

// The rule that cobounds break at a coarray: 55 where they are deferred, 33 where there is another number of them.
fn coshape_rule(corank: usize, coshape: &Coshape, at: Pos) -> Option<Broken>
    ensures { noted result ≡ explicit_said corank (coarray_spec coshape.now) at }
{
    match coshape {
        Coshape::Explicit { cobounds, .. } => rule_unless(
            cobounds.len() + 1 == corank,
            rule::SUBSCRIPT_COUNT,
            at,
        ),
        Coshape::Deferred { .. } => Some(Broken {
            rule: rule::ALLOCATE,
            at,
        }),
    }
}

// The rule that cobounds break at an object of this corank: 34 for cobounds of what is no coarray.
#[tactic(auto, using(crate::proofs::Shapes::cobounds_by))]
fn cobounds_rule(corank: usize, coshape: &Option<Coshape>, at: Pos) -> Option<Broken>
    ensures { noted result ≡ rules.cobounds_breaks corank (maybe_coarray_spec coshape.now) at }
{
    let Some(coshape) = coshape else {
        return rule_unless(corank == 0, rule::ALLOCATE, at);
    };
    if corank == 0 {
        return Some(Broken {
            rule: rule::NO_COARRAY,
            at,
        });
    }
    coshape_rule(corank, coshape, at)
}

fn note(breaks: &mut Vec<Broken>, broken: Option<Broken>) -> Result<(), NoMemory>
    ensures { OnOk result (breaks.new.items ≡ breaks.old.items ++ noted broken) }
{
    if let Some(broken) = broken {
        breaks.push(broken)?;
    }
    Ok(())
}

// Notes what breaks in an object of ALLOCATE that is this variable, as a whole.
fn note_variable(
    breaks: &mut Vec<Broken>,
    visible: Visible<'_>,
    object: &Allocation,
) -> Result<(), NoMemory>
    ensures { OnOk result (breaks.new.items ≡ breaks.old.items ++ variable_breaks (symbol_seen visible.entry) (allocation_written object.now)) }
{
    let at = object.name.at;
    let symbol = visible.symbol;
    let shape = shape_rule(symbol.bounds.len(), object.bounds.as_slice(), at);
    let cobounds = cobounds_rule(symbol.corank, &object.cobounds, at);
    note_unless(breaks, symbol.is_allocatable, rule::ALLOCATE, at)?;
    note(breaks, shape)?;
    note(breaks, cobounds)
}

// The same where nothing is broken in the parts. Whether nothing is broken then.
#[tactic(auto, using(part_rules::proofs::Nothing::nothing_in_both))]
fn note_formed(
    breaks: &mut Vec<Broken>,
    visible: Visible<'_>,
    object: &Allocation,
) -> Result<bool, NoMemory>
    ensures breaks { OnOk result (breaks.new.items ≡ breaks.old.items ++ cond (is_nothing breaks.old.items) (variable_breaks (symbol_seen visible.entry) (allocation_written object.now)) []) }
    ensures holds { IfOk result (λ h. h ≡ is_nothing (cond (is_nothing breaks.old.items) (variable_breaks (symbol_seen visible.entry) (allocation_written object.now)) [])) }
{
    if !are_none(breaks.as_slice()) {
        return Ok(true);
    }
    note_variable(breaks, visible, object)?;
    Ok(are_none(breaks.as_slice()))
}

fn local_allocation(
    variable: Local,
    of_type: Option<DataType>,
    shape: Shape,
) -> Option<TypedAllocation>
    ensures { option_map allocation_seen result ≡ (rules.local_allocation variable of_type (shape_seen shape).bounds).meaning }
{
    let Shape { bounds, cobounds } = shape;
    drop(cobounds);
    let Some(of_type) = of_type else {
        drop(bounds);
        return None;
    };
    Some(TypedAllocation::Local {
        variable,
        of_type,
        bounds,
    })
}

fn coarray_allocation(coarray: u32, shape: Shape) -> TypedAllocation
    ensures { allocation_seen result ≡ ts.allocate_coarray coarray (shape_seen shape).bounds (shape_seen shape).cobounds.first (shape_seen shape).cobounds.last }
{
    let Shape { bounds, cobounds } = shape;
    let Cobounds { first, last } = cobounds;
    TypedAllocation::Coarray {
        coarray,
        bounds,
        cobounds: first,
        last_lower: last,
    }
}

// The allocation of a variable with this shape.
fn allocation_of(visible: Visible<'_>, shape: Shape) -> Option<TypedAllocation>
    ensures { option_map allocation_seen result ≡ (allocation_with (symbol_seen visible.entry) (shape_seen shape)).meaning }
{
    match object_from(visible.home, visible.symbol.object) {
        Object::Local(variable) => local_allocation(variable, visible.symbol.of_type, shape),
        Object::Coarray(coarray) => Some(coarray_allocation(coarray, shape)),
        Object::Constant(_) => {
            drop(shape);
            None
        }
    }
}

// The allocation of a variable, where nothing is broken.
fn allocation_where(
    holds: bool,
    visible: Visible<'_>,
    shape: Option<Shape>,
) -> Option<TypedAllocation>
    ensures { option_map allocation_seen result ≡ (then_made (allocation_with (symbol_seen visible.entry)) (cond holds (option_map shape_seen shape) None)).meaning }
{
    let Some(shape) = shape else {
        return None;
    };
    if holds {
        return allocation_of(visible, shape);
    }
    drop(shape);
    None
}

// An object that is this variable.
#[tactic(auto, using(crate::proofs::Allocations::variable_allocation_breaks, crate::proofs::Allocations::variable_allocation_meaning))]
fn judge_variable(
    visible: Visible<'_>,
    shape: Judged<Shape>,
    object: &Allocation,
) -> Result<Judged<TypedAllocation>, NoMemory>
    ensures breaks { IfOk result (λ j. j.breaks.items ≡ (allocated_as (Some (variable (symbol_seen visible.entry))) (judgement shape_seen shape) (allocation_written object.now)).breaks) }
    ensures meaning { IfOk result (λ j. option_map allocation_seen j.meaning ≡ (allocated_as (Some (variable (symbol_seen visible.entry))) (judgement shape_seen shape) (allocation_written object.now)).meaning) }
{
    let Judged {
        mut breaks,
        meaning,
    } = shape;
    let holds = note_formed(&mut breaks, visible, object)?;
    Ok(Judged {
        breaks,
        meaning: allocation_where(holds, visible, meaning),
    })
}

// An object whose name stands for nothing.
fn judge_undeclared(
    alloc: Global,
    shape: Judged<Shape>,
    at: Pos,
) -> Result<Judged<TypedAllocation>, NoMemory>
    ensures breaks { IfOk result (λ j. j.breaks.items ≡ breaks 20 at ++ shape.breaks.items) }
    ensures meaning { IfOk result (λ j. j.meaning ≡ None) }
{
    let Judged { breaks, meaning } = shape;
    drop(meaning);
    let Judged {
        breaks: before,
        meaning,
    } = refused(alloc, rule::UNKNOWN_NAME, at)?;
    joined(before, breaks, meaning)
}

// An object that is no variable.
fn judge_other(shape: Judged<Shape>, at: Pos) -> Result<Judged<TypedAllocation>, NoMemory>
    ensures breaks { IfOk result (λ j. j.breaks.items ≡ shape.breaks.items ++ cond (is_nothing shape.breaks.items) (breaks 55 at) []) }
    ensures meaning { IfOk result (λ j. j.meaning ≡ None) }
{
    let Judged {
        mut breaks,
        meaning,
    } = shape;
    drop(meaning);
    let is_broken = !are_none(breaks.as_slice());
    note_unless(&mut breaks, is_broken, rule::ALLOCATE, at)?;
    Ok(Judged {
        breaks,
        meaning: None,
    })
}

// An object of ALLOCATE by what its name stands for.
fn judge_denoted(
    alloc: Global,
    denoted: Option<Denoted<'_>>,
    shape: Judged<Shape>,
    object: &Allocation,
) -> Result<Judged<TypedAllocation>, NoMemory>
    ensures breaks { IfOk result (λ j. j.breaks.items ≡ (allocated_as (option_map meaning_of denoted.entry) (judgement shape_seen shape) (allocation_written object.now)).breaks) }
    ensures meaning { IfOk result (λ j. option_map allocation_seen j.meaning ≡ (allocated_as (option_map meaning_of denoted.entry) (judgement shape_seen shape) (allocation_written object.now)).meaning) }
{
    let Some(denoted) = denoted else {
        return judge_undeclared(alloc, shape, object.name.at);
    };
    match denoted {
        Denoted::Variable(visible) => judge_variable(visible, shape, object),
        Denoted::Constant(_)
        | Denoted::Subroutine(_)
        | Denoted::Function(_)
        | Denoted::ModuleConstant(_)
        | Denoted::ModuleType(_)
        | Denoted::IntrinsicFunction(_)
        | Denoted::IntrinsicSubroutine(_) => judge_other(shape, object.name.at),
    }
}

// An object of ALLOCATE.
fn judge_object(
    alloc: Global,
    scope: &Scope<'_>,
    object: &Allocation,
) -> Result<Judged<TypedAllocation>, NoMemory>
    ensures breaks { IfOk result (λ j. j.breaks.items ≡ (rules.allocation_judged scope.now (allocation_written object.now)).breaks) }
    ensures meaning { IfOk result (λ j. option_map allocation_seen j.meaning ≡ (rules.allocation_judged scope.now (allocation_written object.now)).meaning) }
{
    let shape = judge_shape(alloc, scope, object)?;
    let denoted = scope.denotes(object.name.text.as_slice());
    judge_denoted(alloc, denoted, shape, object)
}

// Puts an object of ALLOCATE behind the earlier ones.
fn add_object(
    alloc: Global,
    scope: &Scope<'_>,
    list: &mut Judged<Vec<TypedAllocation>>,
    object: &Allocation,
) -> Result<(), NoMemory>
    ensures breaks { OnOk result (list.new.breaks.items ≡ list.old.breaks.items ++ (rules.allocation_judged scope.now (allocation_written object.now)).breaks) }
    ensures meaning { OnOk result (option_map (map allocation_seen) (option_map list_of list.new.meaning) ≡ both one_more (option_map (map allocation_seen) (option_map list_of list.old.meaning)) (rules.allocation_judged scope.now (allocation_written object.now)).meaning) }
{
    let item = judge_object(alloc, scope, object)?;
    keep(list, item)
}

#[tactic(auto, using(shared_rules::proofs::Turns::turn_laws))]
fn judge_objects(
    alloc: Global,
    scope: &Scope<'_>,
    objects: &[Allocation],
) -> Result<Judged<Vec<TypedAllocation>>, NoMemory>
    ensures breaks { IfOk result (λ j. j.breaks.items ≡ (all_made (map (rules.allocation_judged scope.now) (map allocation_written objects.now))).breaks) }
    ensures meaning { IfOk result (λ j. option_map (map allocation_seen) (option_map list_of j.meaning) ≡ (all_made (map (rules.allocation_judged scope.now) (map allocation_written objects.now))).meaning) }
{
    let mut list = fine(alloc, Vec::new(alloc));
    for object in objects {
        add_object(alloc, scope, &mut list, object)?;
    }
    Ok(list)
}

#[tactic(auto, using(checked_tree::specs::StatementViews::typed_statement_forms))]
fn allocate_form(
    objects: Option<Vec<TypedAllocation>>,
    stat: Option<Option<ResultVariable>>,
) -> Option<StatementForm>
    ensures { option_map statement_form result ≡ both ts.allocate (option_map (map allocation_seen) (option_map list_of objects)) (option_map maybe_result stat) }
{
    let Some(objects) = objects else {
        drop(stat);
        return None;
    };
    let Some(stat) = stat else {
        drop(objects);
        return None;
    };
    Some(StatementForm::Allocate { objects, stat })
}

/// ALLOCATE.
pub fn judge_allocate(
    alloc: Global,
    scope: &Scope<'_>,
    objects: &[Allocation],
    specifiers: &[Specifier],
) -> Result<Judged<StatementForm>, NoMemory>
    ensures breaks { IfOk result (λ j. j.breaks.items ≡ (made_of_both ts.allocate (all_made (map (rules.allocation_judged scope.now) (map allocation_written objects.now))) (rules.with_stat (judged_specifiers scope.now (specifiers_written specifiers.now)))).breaks) }
    ensures meaning { IfOk result (λ j. option_map statement_form j.meaning ≡ (made_of_both ts.allocate (all_made (map (rules.allocation_judged scope.now) (map allocation_written objects.now))) (rules.with_stat (judged_specifiers scope.now (specifiers_written specifiers.now)))).meaning) }
{
    let Judged {
        breaks,
        meaning: list,
    } = judge_objects(alloc, scope, objects)?;
    let Judged {
        breaks: further,
        meaning: stat,
    } = stat_of(alloc, scope, specifiers)?;
    joined(breaks, further, allocate_form(list, stat))
}

// An object of DEALLOCATE by what its name stands for: rule 20 for nothing, rule 55 for what isn't allocatable.
fn deallocated_as(
    alloc: Global,
    denoted: Option<Denoted<'_>>,
    at: Pos,
) -> Result<Judged<Object>, NoMemory>
    ensures breaks { IfOk result (λ j. j.breaks.items ≡ (object_of (rules.allocatable (option_map meaning_of denoted.entry) at)).breaks) }
    ensures meaning { IfOk result (λ j. j.meaning ≡ (object_of (rules.allocatable (option_map meaning_of denoted.entry) at)).meaning) }
{
    let Some(denoted) = denoted else {
        return refused(alloc, rule::UNKNOWN_NAME, at);
    };
    match denoted {
        Denoted::Variable(visible) => {
            let object = object_from(visible.home, visible.symbol.object);
            ruled(
                fine(alloc, object),
                visible.symbol.is_allocatable,
                rule::ALLOCATE,
                at,
            )
        }
        Denoted::Constant(_)
        | Denoted::Subroutine(_)
        | Denoted::Function(_)
        | Denoted::ModuleConstant(_)
        | Denoted::ModuleType(_)
        | Denoted::IntrinsicFunction(_)
        | Denoted::IntrinsicSubroutine(_) => refused(alloc, rule::ALLOCATE, at),
    }
}

// Puts an object of DEALLOCATE behind the earlier ones.
fn add_name(
    alloc: Global,
    scope: &Scope<'_>,
    list: &mut Judged<Vec<Object>>,
    name: &Name,
) -> Result<(), NoMemory>
    ensures breaks { OnOk result (list.new.breaks.items ≡ list.old.breaks.items ++ (rules.deallocated scope.now name.now).breaks) }
    ensures meaning { OnOk result (option_map list_of list.new.meaning ≡ both one_more (option_map list_of list.old.meaning) (rules.deallocated scope.now name.now).meaning) }
{
    let denoted = scope.denotes(name.text.as_slice());
    let item = deallocated_as(alloc, denoted, name.at)?;
    keep(list, item)
}

#[tactic(auto, using(shared_rules::proofs::Turns::turn_laws))]
fn judge_names(
    alloc: Global,
    scope: &Scope<'_>,
    names: &[Name],
) -> Result<Judged<Vec<Object>>, NoMemory>
    ensures breaks { IfOk result (λ j. j.breaks.items ≡ (all_made (map (rules.deallocated scope.now) names.now)).breaks) }
    ensures meaning { IfOk result (λ j. option_map list_of j.meaning ≡ (all_made (map (rules.deallocated scope.now) names.now)).meaning) }
{
    let mut list = fine(alloc, Vec::new(alloc));
    for name in names {
        add_name(alloc, scope, &mut list, name)?;
    }
    Ok(list)
}

#[tactic(auto, using(checked_tree::specs::StatementViews::typed_statement_forms))]
fn deallocate_form(
    objects: Option<Vec<Object>>,
    stat: Option<Option<ResultVariable>>,
) -> Option<StatementForm>
    ensures { option_map statement_form result ≡ both ts.deallocate (option_map list_of objects) (option_map maybe_result stat) }
{
    let Some(objects) = objects else {
        drop(stat);
        return None;
    };
    let Some(stat) = stat else {
        drop(objects);
        return None;
    };
    Some(StatementForm::Deallocate { objects, stat })
}

/// DEALLOCATE.
pub fn judge_deallocate(
    alloc: Global,
    scope: &Scope<'_>,
    names: &[Name],
    specifiers: &[Specifier],
) -> Result<Judged<StatementForm>, NoMemory>
    ensures breaks { IfOk result (λ j. j.breaks.items ≡ (made_of_both ts.deallocate (all_made (map (rules.deallocated scope.now) names.now)) (rules.with_stat (judged_specifiers scope.now (specifiers_written specifiers.now)))).breaks) }
    ensures meaning { IfOk result (λ j. option_map statement_form j.meaning ≡ (made_of_both ts.deallocate (all_made (map (rules.deallocated scope.now) names.now)) (rules.with_stat (judged_specifiers scope.now (specifiers_written specifiers.now)))).meaning) }
{
    let Judged {
        breaks,
        meaning: list,
    } = judge_names(alloc, scope, names)?;
    let Judged {
        breaks: further,
        meaning: stat,
    } = stat_of(alloc, scope, specifiers)?;
    joined(breaks, further, deallocate_form(list, stat))
}

fn is_coarray(denoted: Option<Denoted<'_>>) -> bool
    ensures { result ≡ rules.is_coarray (option_map meaning_of denoted.entry) }
{
    let Some(denoted) = denoted else {
        return false;
    };
    match denoted {
        Denoted::Variable(visible) => visible.symbol.corank != 0,
        Denoted::Constant(_)
        | Denoted::Subroutine(_)
        | Denoted::Function(_)
        | Denoted::ModuleConstant(_)
        | Denoted::ModuleType(_)
        | Denoted::IntrinsicFunction(_)
        | Denoted::IntrinsicSubroutine(_) => false,
    }
}

/// Whether an object of DEALLOCATE is a coarray.
pub fn names_coarray(scope: &Scope<'_>, names: &[Name]) -> bool
    ensures { result ≡ rules.any_coarray scope.now names.now }
{
    for name in names {
        if is_coarray(scope.denotes(name.text.as_slice())) {
            return true;
        }
    }
    false
}

/// Whether an object of ALLOCATE is a coarray.
pub fn allocates_coarray(scope: &Scope<'_>, objects: &[Allocation]) -> bool
    ensures { result ≡ rules.any_coarray scope.now (map name_of (map allocation_written objects.now)) }
{
    for object in objects {
        if is_coarray(scope.denotes(object.name.text.as_slice())) {
            return true;
        }
    }
    false
}
