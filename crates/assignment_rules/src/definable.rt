//! What may be defined (10.2.1.2, 8.5.10, 11.1.7.4.3): no constant, no dummy argument with INTENT(IN), no variable of
//! an enclosing loop, no lock and no event.

ghost use Rattle.std.specs.Prelude.{◌≡◌, map};
ghost use Rattle.std.specs.Option.{option_map};
ghost use Rattle.checked_tree.specs.ExpressionViews.{designator as designator_seen, expression};
ghost use Rattle.checked_tree.specs.declared.data.Object.TheVariants as objects;
ghost use Rattle.branch_rules.specs.Sites.{around as construct_seen, site as seen};
ghost use Rattle.rule_definitions.specs.Actions as rules;
ghost use Rattle.rule_definitions.specs.Names.{intent_is_in, symbol_of};
ghost use Rattle.scope_table.specs.Scopes.{visible as symbol_seen};
ghost use Rattle.scope_table.specs.Symbols.{role as role_seen};
ghost use Rattle.assignment_rules.specs.Targets.{is_definable_part as part_may_be_defined};

use branch_rules::site::{Around, Site};
use checked_tree::data::{DataType, Home, Local, Object};
use checked_tree::expr::{Designator, TypedExpr};
use fortran_tree::declaration::Intent;
use scope_table::object::is_same_local;
use scope_table::scope::{Scope, Visible};
use scope_table::symbol::Role;
use specifier_rules::variable::as_designator;

// Whether a construct is a loop with this variable.
fn is_loop_variable(local: Local, construct: &Around<'_>) -> bool
    ensures { result ≡ rules.is_loop_variable local (construct_seen construct.now) }
{
    match construct {
        Around::Loop { variable, .. } => match variable {
            Some(variable) => is_same_local(local, *variable),
            None => false,
        },
        Around::Selection | Around::Critical | Around::TeamChange => false,
    }
}

// Whether a variable is that of an enclosing loop (11.1.7.4.3).
fn is_active(local: Local, around: &[Around<'_>]) -> bool
    ensures { result ≡ rules.is_active local (map construct_seen around.now) }
{
    for construct in around {
        if is_loop_variable(local, construct) {
            return true;
        }
    }
    false
}

// Whether a variable in this role has the intent IN (8.5.10).
fn is_in(role: Role) -> bool
    ensures { result ≡ intent_is_in (role_seen role) }
{
    match role {
        Role::Dummy(Some(Intent::In)) => true,
        Role::Dummy(Some(Intent::Out | Intent::InOut) | None)
        | Role::Plain
        | Role::UndeclaredDummy
        | Role::FunctionResult => false,
    }
}

// Whether a variable has the intent IN in the procedure from which it is seen.
fn is_seen_in(found: Visible<'_>) -> bool
    ensures { result ≡ intent_is_in (symbol_seen found.entry).role }
{
    match found.home {
        Home::Own => is_in(found.symbol.role),
        Home::Host => false,
    }
}

// Whether a variable is a dummy argument with the intent IN.
fn has_intent_in(scope: &Scope<'_>, local: Local) -> bool
    ensures { result ≡ rules.has_intent_in (symbol_of scope.now (objects.Local local)) }
{
    match scope.symbol_of(Object::Local(local)) {
        Some(found) => is_seen_in(found),
        None => false,
    }
}

// Whether an object may be defined.
fn is_definable_object(site: Site<'_>, object: Object) -> bool
    ensures { result ≡ rules.is_definable_object (seen site.entry) object }
{
    match object {
        Object::Local(local) => {
            if is_active(local, site.around) {
                return false;
            }
            !has_intent_in(site.scope, local)
        }
        Object::Coarray(_) => true,
        Object::Constant(_) => false,
    }
}

// Whether values of a type are assigned: not locks and events (16.10.2.10, 16.10.2.19).
fn is_value_type(of_type: DataType) -> bool
    ensures { result ≡ rules.is_value_type of_type }
{
    match of_type {
        DataType::Intrinsic(_) | DataType::Team => true,
        DataType::Event | DataType::Lock => false,
    }
}

// Whether a variable of this type or a part of one may be defined.
#[tactic(auto, using(checked_tree::specs::ExpressionViews::typed_forms))]
fn is_definable_part(site: Site<'_>, variable: &Designator, of_type: DataType) -> bool
    ensures { result ≡ part_may_be_defined (seen site.entry) (designator_seen variable.now) of_type }
{
    if !is_definable_object(site, variable.object) {
        return false;
    }
    is_value_type(of_type)
}

/// Whether an expression may be defined.
#[tactic(auto, using(crate::proofs::Forms::definable_by))]
pub fn is_definable(site: Site<'_>, target: &TypedExpr) -> bool
    ensures { result ≡ rules.is_definable (seen site.entry) (expression target.now) }
{
    match as_designator(&target.form) {
        Some(variable) => is_definable_part(site, variable, target.of_type),
        None => false,
    }
}
