//! The names in action statements.

ghost use Rattle.std.specs.Prelude.{◌≡◌, ◌++◌, ◌∷◌, OnOk, map};
ghost use Rattle.fortran_tree.specs.ActionViews as view;
ghost use Rattle.fortran_tree.specs.ExpressionViews as exprs;
ghost use Rattle.unit_references.specs.References as names;
ghost use Rattle.unit_references.specs.Written.{control_names, event_names};

use crate::declaration::{add_dimensions, add_maybe, add_maybe_coshape};
use crate::expr::{add_arguments, add_designator, add_expr, add_specifiers};
use crate::references::References;
use caf_base::refusal::NoMemory;
use fortran_tree::action::{ActionForm, Allocation, ImageSet, Item};
use fortran_tree::expr::{Argument, Designator, Expr, Specifier};
use fortran_tree::name::Name;

fn add_item<'a>(refs: &mut References<'a>, item: &'a Item) -> Result<(), NoMemory>
    ensures { OnOk result (refs.new ≡ refs.old ++ names.item (view.item item.now)) }
{
    match item {
        Item::Literal(_) => Ok(()),
        Item::Value(expr) => add_expr(refs, expr),
    }
}

fn add_items<'a>(refs: &mut References<'a>, items: &'a [Item]) -> Result<(), NoMemory>
    ensures { OnOk result (refs.new ≡ refs.old ++ names.each names.item (map view.item items.now)) }
{
    for item in items {
        add_item(refs, item)?;
    }
    Ok(())
}

fn add_allocation<'a>(refs: &mut References<'a>, allocation: &'a Allocation) -> Result<(), NoMemory>
    ensures { OnOk result (refs.new ≡ refs.old ++ names.allocation (view.allocation allocation.now)) }
{
    refs.add_name(&allocation.name)?;
    add_dimensions(refs, &allocation.bounds)?;
    add_maybe_coshape(refs, &allocation.cobounds)
}

fn add_allocations<'a>(refs: &mut References<'a>, objects: &'a [Allocation]) -> Result<(), NoMemory>
    ensures { OnOk result (refs.new ≡ refs.old ++ names.each names.allocation (map view.allocation objects.now)) }
{
    for object in objects {
        add_allocation(refs, object)?;
    }
    Ok(())
}

fn add_names<'a>(refs: &mut References<'a>, all: &'a [Name]) -> Result<(), NoMemory>
    ensures { OnOk result (refs.new ≡ refs.old ++ all.now) }
{
    for name in all {
        refs.add_name(name)?;
    }
    Ok(())
}

fn add_maybe_arguments<'a>(
    refs: &mut References<'a>,
    arguments: &'a Option<Vec<Argument>>,
) -> Result<(), NoMemory>
    ensures { OnOk result (refs.new ≡ refs.old ++ names.maybe names.arguments (view.maybe_arguments arguments.now)) }
{
    match arguments {
        Some(arguments) => add_arguments(refs, arguments),
        None => Ok(()),
    }
}

fn add_maybe_specifiers<'a>(
    refs: &mut References<'a>,
    specifiers: &'a Option<Vec<Specifier>>,
) -> Result<(), NoMemory>
    ensures { OnOk result (refs.new ≡ refs.old ++ names.maybe names.specifiers (view.maybe_specifiers specifiers.now)) }
{
    match specifiers {
        Some(specifiers) => add_specifiers(refs, specifiers),
        None => Ok(()),
    }
}

fn add_set<'a>(refs: &mut References<'a>, images: &'a ImageSet) -> Result<(), NoMemory>
    ensures { OnOk result (refs.new ≡ refs.old ++ names.image_set (view.image_set images.now)) }
{
    match images {
        ImageSet::All => Ok(()),
        ImageSet::Images(expr) => add_expr(refs, expr),
    }
}

// The names of SYNC IMAGES.
fn add_images<'a>(
    refs: &mut References<'a>,
    images: &'a ImageSet,
    specifiers: &'a [Specifier],
) -> Result<(), NoMemory>
    ensures { OnOk result (refs.new ≡ refs.old ++ (names.image_set (view.image_set images.now) ++ names.specifiers (exprs.specifiers specifiers.now))) }
{
    add_set(refs, images)?;
    add_specifiers(refs, specifiers)
}

// The names of SYNC TEAM.
fn add_sync_team<'a>(
    refs: &mut References<'a>,
    team: &'a Expr,
    specifiers: &'a [Specifier],
) -> Result<(), NoMemory>
    ensures { OnOk result (refs.new ≡ refs.old ++ (names.expression (exprs.expression team.now) ++ names.specifiers (exprs.specifiers specifiers.now))) }
{
    add_expr(refs, team)?;
    add_specifiers(refs, specifiers)
}

// The names of ALLOCATE.
fn add_allocate<'a>(
    refs: &mut References<'a>,
    objects: &'a [Allocation],
    specifiers: &'a [Specifier],
) -> Result<(), NoMemory>
    ensures { OnOk result (refs.new ≡ refs.old ++ (names.each names.allocation (map view.allocation objects.now) ++ names.specifiers (exprs.specifiers specifiers.now))) }
{
    add_allocations(refs, objects)?;
    add_specifiers(refs, specifiers)
}

// The names of DEALLOCATE.
fn add_deallocate<'a>(
    refs: &mut References<'a>,
    objects: &'a [Name],
    specifiers: &'a [Specifier],
) -> Result<(), NoMemory>
    ensures { OnOk result (refs.new ≡ refs.old ++ (objects.now ++ names.specifiers (exprs.specifiers specifiers.now))) }
{
    add_names(refs, objects)?;
    add_specifiers(refs, specifiers)
}

// The names of an assignment.
fn add_assignment<'a>(
    refs: &mut References<'a>,
    variable: &'a Designator,
    value: &'a Expr,
) -> Result<(), NoMemory>
    ensures { OnOk result (refs.new ≡ refs.old ++ (names.designator (exprs.designator variable.now) ++ names.expression (exprs.expression value.now))) }
{
    add_designator(refs, variable)?;
    add_expr(refs, value)
}

// The names of CALL.
fn add_call<'a>(
    refs: &mut References<'a>,
    subroutine: &'a Name,
    arguments: &'a Option<Vec<Argument>>,
) -> Result<(), NoMemory>
    ensures { OnOk result (refs.new ≡ refs.old ++ subroutine.now ∷ names.maybe names.arguments (view.maybe_arguments arguments.now)) }
{
    refs.add_name(subroutine)?;
    add_maybe_arguments(refs, arguments)
}

// The names in a designator, and then those in specifiers.
fn add_variable<'a>(
    refs: &mut References<'a>,
    variable: &'a Designator,
    specifiers: &'a [Specifier],
) -> Result<(), NoMemory>
    ensures { OnOk result (refs.new ≡ refs.old ++ (names.designator (exprs.designator variable.now) ++ names.specifiers (exprs.specifiers specifiers.now))) }
{
    add_designator(refs, variable)?;
    add_specifiers(refs, specifiers)
}

// The names of FORM TEAM.
fn add_team<'a>(
    refs: &mut References<'a>,
    number: &'a Expr,
    team: &'a Name,
    specifiers: &'a [Specifier],
) -> Result<(), NoMemory>
    ensures { OnOk result (refs.new ≡ refs.old ++ (names.expression (exprs.expression number.now) ++ team.now ∷ names.specifiers (exprs.specifiers specifiers.now))) }
{
    add_expr(refs, number)?;
    refs.add_name(team)?;
    add_specifiers(refs, specifiers)
}

/// The names in an action statement.
#[tactic(auto, using(crate::proofs::Behind::action_laws))]
pub fn add_action<'a>(refs: &mut References<'a>, action: &'a ActionForm) -> Result<(), NoMemory>
    ensures { OnOk result (refs.new ≡ refs.old ++ names.action_statement (view.action_statement action.now)) }
{
    match action {
        ActionForm::Assignment { variable, value } => add_assignment(refs, variable, value),
        ActionForm::Call {
            subroutine,
            arguments,
        } => add_call(refs, subroutine, arguments),
        ActionForm::Print { items, .. } => add_items(refs, items),
        ActionForm::Stop { code } => add_maybe(refs, code),
        ActionForm::ErrorStop { code } => add_maybe(refs, code),
        ActionForm::Allocate {
            objects,
            specifiers,
        } => add_allocate(refs, objects, specifiers),
        ActionForm::Deallocate {
            objects,
            specifiers,
        } => add_deallocate(refs, objects, specifiers),
        ActionForm::If { condition, action } => {
            add_expr(refs, condition)?;
            add_action(refs, &action.form)
        }
        ActionForm::Exit { .. }
        | ActionForm::Cycle { .. }
        | ActionForm::Return
        | ActionForm::FailImage
        | ActionForm::SyncAll { .. }
        | ActionForm::SyncMemory { .. }
        | ActionForm::SyncImages { .. }
        | ActionForm::SyncTeam { .. }
        | ActionForm::FormTeam { .. }
        | ActionForm::Lock { .. }
        | ActionForm::Unlock { .. }
        | ActionForm::EventPost { .. }
        | ActionForm::EventWait { .. } => add_control(refs, action),
    }
}

// The names in an image control statement.
#[tactic(auto, using(crate::proofs::Behind::action_laws))]
fn add_control<'a>(refs: &mut References<'a>, action: &'a ActionForm) -> Result<(), NoMemory>
    ensures { OnOk result (refs.new ≡ refs.old ++ control_names (view.action_statement action.now)) }
{
    match action {
        ActionForm::SyncAll { specifiers } => add_maybe_specifiers(refs, specifiers),
        ActionForm::SyncMemory { specifiers } => add_maybe_specifiers(refs, specifiers),
        ActionForm::SyncImages { images, specifiers } => add_images(refs, images, specifiers),
        ActionForm::SyncTeam { team, specifiers } => add_sync_team(refs, team, specifiers),
        ActionForm::FormTeam {
            number,
            team,
            specifiers,
        } => add_team(refs, number, team, specifiers),
        ActionForm::Lock { .. }
        | ActionForm::Unlock { .. }
        | ActionForm::EventPost { .. }
        | ActionForm::EventWait { .. } => add_event(refs, action),
        ActionForm::Assignment { .. }
        | ActionForm::Call { .. }
        | ActionForm::Print { .. }
        | ActionForm::Exit { .. }
        | ActionForm::Cycle { .. }
        | ActionForm::Return
        | ActionForm::Stop { .. }
        | ActionForm::ErrorStop { .. }
        | ActionForm::FailImage
        | ActionForm::Allocate { .. }
        | ActionForm::Deallocate { .. }
        | ActionForm::If { .. } => Ok(()),
    }
}

// The names in a statement of a lock or an event.
#[tactic(auto, using(crate::proofs::Behind::action_laws))]
fn add_event<'a>(refs: &mut References<'a>, action: &'a ActionForm) -> Result<(), NoMemory>
    ensures { OnOk result (refs.new ≡ refs.old ++ event_names (view.action_statement action.now)) }
{
    match action {
        ActionForm::Lock {
            variable,
            specifiers,
        } => add_variable(refs, variable, specifiers),
        ActionForm::Unlock {
            variable,
            specifiers,
        } => add_variable(refs, variable, specifiers),
        ActionForm::EventPost {
            variable,
            specifiers,
        } => add_variable(refs, variable, specifiers),
        ActionForm::EventWait {
            variable,
            specifiers,
        } => add_variable(refs, variable, specifiers),
        ActionForm::Assignment { .. }
        | ActionForm::Call { .. }
        | ActionForm::Print { .. }
        | ActionForm::Exit { .. }
        | ActionForm::Cycle { .. }
        | ActionForm::Return
        | ActionForm::Stop { .. }
        | ActionForm::ErrorStop { .. }
        | ActionForm::FailImage
        | ActionForm::Allocate { .. }
        | ActionForm::Deallocate { .. }
        | ActionForm::SyncAll { .. }
        | ActionForm::SyncMemory { .. }
        | ActionForm::SyncImages { .. }
        | ActionForm::SyncTeam { .. }
        | ActionForm::FormTeam { .. }
        | ActionForm::If { .. } => Ok(()),
    }
}
