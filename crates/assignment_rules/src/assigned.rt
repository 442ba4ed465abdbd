//! A value beside the variable to which it is assigned (10.2.1.2, 10.2.1.3): rules 32, 37, 38 and 56.

ghost use Rattle.std.specs.Prelude.{◌≡◌, ◌||◌, ◌&&◌, IfOk, None, cond, nat_eq, not};
ghost use Rattle.std.specs.Option.{option_map};
ghost use Rattle.checked_tree.specs.Expressions as t;
ghost use Rattle.checked_tree.specs.ExpressionViews.{designator as designator_seen, expression, maybe_selector, subscripts as subscripts_seen};
ghost use Rattle.checked_tree.specs.StatementViews.{statement_form};
ghost use Rattle.checked_tree.specs.declared.data.Object.TheVariants as objects;
ghost use Rattle.branch_rules.specs.Sites.{site as seen};
ghost use Rattle.rule_definitions.specs.Actions as rules;
ghost use Rattle.rule_definitions.specs.Declarations.{is_like};
ghost use Rattle.rule_definitions.specs.IntrinsicFunctions.{is_allocatable_symbol};
ghost use Rattle.rule_definitions.specs.Judgements.{is_nothing, unless};
ghost use Rattle.rule_definitions.specs.Names.{symbol_of};
ghost use Rattle.rule_definitions.specs.Parts.{rank_of};
ghost use Rattle.specifier_rules.specs.Variables.{designator_in};
ghost use Rattle.checked_tree.specs.ExpressionViews.{form as form_seen};
ghost use Rattle.assignment_rules.specs.Assignments.{assigned_to, assignment_form as form_of_sides, noted, sides_seen};
ghost use Rattle.assignment_rules.specs.Targets.{takes_list as list_taken, whole_in, whole_part};

use crate::form::assignment_form;
use branch_rules::site::Site;
use caf_base::place::Pos;
use caf_base::refusal::NoMemory;
use checked_tree::data::{DataType, Local, Object};
use checked_tree::expr::{Designator, Selector, Subscript, TypedExpr};
use checked_tree::statement::StatementForm;
use part_rules::judged::{Judged, refused};
use part_rules::types::{is_integer_type, is_logical_type, is_team_type};
use rule_definitions::broken::Broken;
use rule_definitions::rule;
use scope_table::scope::Scope;
use shared_rules::form::{is_listed, is_plain};
use specifier_rules::variable::as_designator;
use std::alloc::Global;

/// The variable of an assignment, and the value that it gets.
#[derive(Drop)]
pub struct Sides {
    pub target: TypedExpr,
    pub value: TypedExpr,
}

fn rule_unless(holds: bool, rule: u8, at: Pos) -> Option<Broken>
    ensures { noted result ≡ unless holds rule at }
{
    if holds {
        None
    } else {
        Some(Broken { rule, at })
    }
}

// Whether a value of one type may be assigned to a variable of the other (Table 10.8).
fn is_alike(of_type: DataType, value_type: DataType) -> bool
    ensures { result ≡ is_like of_type value_type }
{
    if is_integer_type(of_type) {
        return is_integer_type(value_type);
    }
    if is_logical_type(of_type) {
        return is_logical_type(value_type);
    }
    is_team_type(of_type) && is_team_type(value_type)
}

// Whether a value is an array designator or an array constructor.
#[tactic(auto, using(crate::proofs::Forms::plain_array_by))]
fn is_plain_array(value: &TypedExpr) -> bool
    ensures { result ≡ rules.is_plain_array (expression value.now) }
{
    is_plain(&value.form)
}

// Whether an array may be assigned to a variable of this rank: one of the same rank that isn't computed.
fn is_assigned_whole(rank: u32, value: &TypedExpr) -> bool
    ensures { result ≡ (nat_eq value.now.rank rank && rules.is_plain_array (expression value.now)) }
{
    if value.rank != rank {
        return false;
    }
    is_plain_array(value)
}

// The rule that a value breaks: 32 where it is of another type, 37 for an array in a scalar, 38 for an array of another
// rank or one that is computed.
fn kindred_rule(target: &TypedExpr, value: &TypedExpr, at: Pos, value_at: Pos) -> Option<Broken>
    ensures { noted result ≡ rules.kindred_breaks at value_at (expression target.now) (expression value.now) }
{
    if !is_alike(target.of_type, value.of_type) {
        return Some(Broken {
            rule: rule::ASSIGNMENT,
            at,
        });
    }
    if value.rank == 0 {
        return None;
    }
    if target.rank == 0 {
        return Some(Broken {
            rule: rule::ARRAY_FOR_SCALAR,
            at: value_at,
        });
    }
    rule_unless(
        is_assigned_whole(target.rank, value),
        rule::ARRAY_ASSIGNMENT,
        value_at,
    )
}

// The object of a designator with these subscripts and this selector, where it has neither.
#[tactic(auto, using(checked_tree::specs::ExpressionViews::typed_forms))]
fn bare(object: Object, subscripts: &[Subscript], selector: &Option<Selector>) -> Option<Object>
    ensures { result ≡ whole_part (t.part object (subscripts_seen subscripts.now) (maybe_selector selector.now)) }
{
    match subscripts {
        [] => match selector {
            Some(_) => None,
            None => Some(object),
        },
        [_, ..] => None,
    }
}

// The object that a designator is as a whole (9.5.2).
#[tactic(auto, using(checked_tree::specs::ExpressionViews::typed_forms))]
fn whole_of(variable: &Designator) -> Option<Object>
    ensures { result ≡ whole_part (designator_seen variable.now) }
{
    bare(
        variable.object,
        variable.subscripts.as_slice(),
        &variable.selector,
    )
}

// The object that an expression is as a whole.
fn whole_object(target: &TypedExpr) -> Option<Object>
    ensures { result ≡ whole_in (designator_in (form_seen target.now.form)) }
{
    match as_designator(&target.form) {
        Some(variable) => whole_of(variable),
        None => None,
    }
}

// Whether a variable is allocatable.
#[tactic(auto, using(crate::proofs::Forms::allocatable_seen))]
fn is_allocatable(scope: &Scope<'_>, local: Local) -> bool
    ensures { result ≡ is_allocatable_symbol (symbol_of scope.now (objects.Local local)) }
{
    match scope.symbol_of(Object::Local(local)) {
        Some(found) => found.symbol.is_allocatable,
        None => false,
    }
}

// Whether an object as a whole, of this type and rank, takes a list of images.
fn takes_list(scope: &Scope<'_>, whole: Option<Object>, of_type: DataType, rank: u32) -> bool
    ensures { result ≡ list_taken scope.now whole of_type rank }
{
    let Some(object) = whole else {
        return false;
    };
    let Object::Local(local) = object else {
        return false;
    };
    if !is_integer_type(of_type) {
        return false;
    }
    if rank != 1 {
        return false;
    }
    is_allocatable(scope, local)
}

// Whether a variable is a whole local allocatable integer array of rank one.
#[tactic(auto, using(crate::proofs::Forms::list_target_by))]
fn is_list_target(site: Site<'_>, target: &TypedExpr) -> bool
    ensures { result ≡ rules.is_list_target (seen site.entry) (expression target.now) }
{
    takes_list(
        site.scope,
        whole_object(target),
        target.of_type,
        target.rank,
    )
}

// Whether a variable is an object as a whole.
#[tactic(auto, using(crate::proofs::Forms::whole_by))]
fn is_whole(target: &TypedExpr) -> bool
    ensures { result ≡ rules.is_whole (expression target.now) }
{
    match whole_object(target) {
        Some(_) => true,
        None => false,
    }
}

// Whether a variable is a whole array of rank 2 or 3.
fn is_whole_array(target: &TypedExpr) -> bool
    ensures { result ≡ (rules.is_whole (expression target.now) && not (nat_eq target.now.rank 0 || nat_eq target.now.rank 1)) }
{
    if !is_whole(target) {
        return false;
    }
    target.rank != 0 && target.rank != 1
}

// The rule that a list of images breaks: 38 at a whole array of rank 2 or 3, 56 at what else doesn't take it.
fn list_rule(site: Site<'_>, target: &TypedExpr, value_at: Pos) -> Option<Broken>
    ensures { noted result ≡ rules.list_breaks (seen site.entry) value_at (expression target.now) }
{
    let takes_list = is_list_target(site, target);
    if is_whole_array(target) {
        rule_unless(takes_list, rule::ARRAY_ASSIGNMENT, value_at)
    } else {
        rule_unless(takes_list, rule::IMAGE_LIST, value_at)
    }
}

// The rule that an assignment breaks, but for the rule on what may be defined.
fn assigned_rule(site: Site<'_>, sides: &Sides, at: Pos, value_at: Pos) -> Option<Broken>
    ensures { noted result ≡ rules.assigned_breaks (seen site.entry) at value_at (sides_seen sides.now).0 (sides_seen sides.now).1 }
{
    if is_listed(&sides.value) {
        list_rule(site, &sides.target, value_at)
    } else {
        kindred_rule(&sides.target, &sides.value, at, value_at)
    }
}

// A value and its variable: the rule that is broken, else the statement.
fn assigned_by_rule(
    alloc: Global,
    site: Site<'_>,
    sides: Sides,
    at: Pos,
    value_at: Pos,
) -> Result<Judged<StatementForm>, NoMemory>
    ensures breaks { IfOk result (λ j. j.breaks.items ≡ rules.assigned_breaks (seen site.entry) at value_at (sides_seen sides).0 (sides_seen sides).1) }
    ensures meaning { IfOk result (λ j. option_map statement_form j.meaning ≡ cond (is_nothing (rules.assigned_breaks (seen site.entry) at value_at (sides_seen sides).0 (sides_seen sides).1)) (form_of_sides (sides_seen sides).0 (sides_seen sides).1) None) }
{
    let Some(broken) = assigned_rule(site, &sides, at, value_at) else {
        return Ok(Judged {
            breaks: Vec::new(alloc),
            meaning: assignment_form(sides),
        });
    };
    drop(sides);
    refused(alloc, broken.rule, broken.at)
}

/// A value, at its place, that is assigned to a variable, in a statement at this place.
pub fn assigned(
    alloc: Global,
    site: Site<'_>,
    sides: Sides,
    at: Pos,
    value_at: Pos,
) -> Result<Judged<StatementForm>, NoMemory>
    ensures breaks { IfOk result (λ j. j.breaks.items ≡ (assigned_to (seen site.entry) at value_at (sides_seen sides)).breaks) }
    ensures meaning { IfOk result (λ j. option_map statement_form j.meaning ≡ (assigned_to (seen site.entry) at value_at (sides_seen sides)).meaning) }
{
    let judged = assigned_by_rule(alloc, site, sides, at, value_at)?;
    Ok(judged)
}
