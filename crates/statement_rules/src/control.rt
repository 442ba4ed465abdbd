//! The control of loops (11.1.7.2): rules 20, 32, 39 and 40.

ghost use Rattle.std.specs.Prelude.{◌≡◌, ◌++◌, cond, IfOk, None, Some, map};
ghost use Rattle.std.specs.Option.{option_map};
ghost use Rattle.branch_rules.specs.Sites.{around as construct_seen};
ghost use Rattle.checked_tree.specs.Expressions as t;
ghost use Rattle.checked_tree.specs.ExpressionViews.{expression, maybe_expression};
ghost use Rattle.checked_tree.specs.StatementViews.{statement_form};
ghost use Rattle.fortran_tree.specs.DeclarationViews.{maybe_expression as maybe_written};
ghost use Rattle.fortran_tree.specs.ExpressionViews.{expression as written};
ghost use Rattle.fortran_tree.specs.StatementViews.{loop_control};
ghost use Rattle.fortran_tree.specs.Statements as fs;
ghost use Rattle.rule_definitions.specs.Actions.{has_intent_in, is_active, is_loop_variable, loop as loop_seen, maybe};
ghost use Rattle.rule_definitions.specs.Expressions.{placed};
ghost use Rattle.rule_definitions.specs.Judgements.{is_nothing, made};
ghost use Rattle.rule_definitions.specs.Names.{denotes, variable as variable_meaning};
ghost use Rattle.rule_definitions.specs.Parts as parts;
ghost use Rattle.rule_definitions.specs.Statements as rules;
ghost use Rattle.scope_table.specs.Scopes.{denoted, visible};
ghost use Rattle.case_rules.specs.Blocks.{block};
ghost use Rattle.statement_rules.specs.Controls.{control as control_seen, counter as counter_seen};
ghost use Rattle.statement_rules.specs.Positions.{position as seen};

use crate::pair::paired;
use crate::statement::Position;
use branch_rules::site::Around;
use caf_base::place::Pos;
use caf_base::refusal::NoMemory;
use caf_base::value::Kind;
use checked_tree::data::{DataType, Home, Local, Object};
use checked_tree::expr::TypedExpr;
use checked_tree::statement::{StatementForm, TypedStatement};
use expr_rules::expr::judge_part;
use fortran_tree::declaration::Intent;
use fortran_tree::expr::Expr;
use fortran_tree::name::Name;
use fortran_tree::statement::LoopControl;
use numbering_rules::numbering::one_more;
use part_rules::judged::{Judged, fine, refused, ruled, unknown};
use rule_definitions::rule;
use scope_table::object::{is_same_local, object_from};
use scope_table::scope::{Denoted, Scope, Visible};
use scope_table::symbol::Role;
use specifier_rules::condition::{bound_or_code, condition};
use std::alloc::Global;

/// The variable of a loop, and its kind.
#[derive(Clone, Copy)]
pub struct Counter {
    pub variable: Local,
    pub kind: Kind,
}

/// The parameters of a counted loop.
#[derive(Drop)]
pub struct Limits {
    pub first: TypedExpr,
    pub last: TypedExpr,
    pub step: Option<TypedExpr>,
}

/// The control of a loop.
#[derive(Drop)]
pub enum Control {
    Forever,
    While(TypedExpr),
    Counted { counter: Counter, limits: Limits },
}

fn is_variable_of(variable: Local, construct: Around<'_>) -> bool
    ensures { result ≡ is_loop_variable variable (construct_seen construct.entry) }
{
    match construct {
        Around::Loop {
            variable: Some(other),
            ..
        } => is_same_local(variable, other),
        Around::Loop { variable: None, .. }
        | Around::Selection
        | Around::Critical
        | Around::TeamChange => false,
    }
}

// Whether a variable is that of an enclosing loop.
fn is_counting(variable: Local, around: &[Around<'_>]) -> bool
    ensures { result ≡ is_active variable (map construct_seen around.now) }
{
    for construct in around {
        if is_variable_of(variable, *construct) {
            return true;
        }
    }
    false
}

// Whether a variable is an IN dummy (8.5.10).
fn is_input(found: Visible<'_>) -> bool
    ensures { result ≡ has_intent_in (Some (visible found.entry)) }
{
    match found.home {
        Home::Own => match found.symbol.role {
            Role::Dummy(Some(Intent::In)) => true,
            Role::Dummy(Some(Intent::Out | Intent::InOut) | None)
            | Role::Plain
            | Role::UndeclaredDummy
            | Role::FunctionResult => false,
        },
        Home::Host => false,
    }
}

// A local variable as a counter, where it is a scalar integer.
fn counter_typed(variable: Local, rank: usize, of_type: DataType) -> Option<Counter>
    ensures { option_map counter_seen result ≡ rules.counter_typed variable rank of_type }
{
    let DataType::Intrinsic(kind) = of_type else {
        return None;
    };
    match kind {
        Kind::I4 | Kind::I8 => {
            if rank == 0 {
                Some(Counter { variable, kind })
            } else {
                None
            }
        }
        Kind::L4 => None,
    }
}

// A counter that no enclosing loop counts and that is no IN dummy.
fn inactive(
    alloc: Global,
    position: Position<'_>,
    found: Visible<'_>,
    at: Pos,
    counter: Counter,
) -> Result<Judged<Counter>, NoMemory>
    ensures breaks { IfOk result (λ j. j.breaks.items ≡ (rules.inactive (seen position.entry) (visible found.entry) at (counter_seen counter)).breaks) }
    ensures meaning { IfOk result (λ j. option_map counter_seen j.meaning ≡ (rules.inactive (seen position.entry) (visible found.entry) at (counter_seen counter)).meaning) }
{
    let is_counting = is_counting(counter.variable, position.around);
    let is_input = is_input(found);
    ruled(
        fine(alloc, counter),
        !(is_counting || is_input),
        rule::ASSIGNMENT,
        at,
    )
}

// A variable as the counter of a loop.
#[tactic(auto, using(crate::proofs::Seen::seen_laws))]
fn judge_variable(
    alloc: Global,
    position: Position<'_>,
    found: Visible<'_>,
    at: Pos,
) -> Result<Judged<Counter>, NoMemory>
    ensures breaks { IfOk result (λ j. j.breaks.items ≡ (rules.counter_symbol (seen position.entry) (visible found.entry) at).breaks) }
    ensures meaning { IfOk result (λ j. option_map counter_seen j.meaning ≡ (rules.counter_symbol (seen position.entry) (visible found.entry) at).meaning) }
{
    let Object::Local(variable) = object_from(found.home, found.symbol.object) else {
        return refused(alloc, rule::DO_VARIABLE, at);
    };
    let Some(of_type) = found.symbol.of_type else {
        return Ok(unknown(alloc));
    };
    match counter_typed(variable, found.symbol.bounds.len(), of_type) {
        Some(counter) => inactive(alloc, position, found, at, counter),
        None => refused(alloc, rule::DO_VARIABLE, at),
    }
}

// What a name denotes, as the counter of a loop.
fn judge_counter(
    alloc: Global,
    position: Position<'_>,
    name: &Name,
) -> Result<Judged<Counter>, NoMemory>
    ensures breaks { IfOk result (λ j. j.breaks.items ≡ (rules.counter_judged (seen position.entry) (denotes position.entry.scope.now name.now.text) name.now.at).breaks) }
    ensures meaning { IfOk result (λ j. option_map counter_seen j.meaning ≡ (rules.counter_judged (seen position.entry) (denotes position.entry.scope.now name.now.text) name.now.at).meaning) }
{
    match position.scope.denotes(name.text.as_slice()) {
        Some(Denoted::Variable(found)) => judge_variable(alloc, position, found, name.at),
        Some(
            Denoted::Constant(_)
            | Denoted::Subroutine(_)
            | Denoted::Function(_)
            | Denoted::ModuleConstant(_)
            | Denoted::ModuleType(_)
            | Denoted::IntrinsicFunction(_)
            | Denoted::IntrinsicSubroutine(_),
        ) => refused(alloc, rule::DO_VARIABLE, name.at),
        None => refused(alloc, rule::UNKNOWN_NAME, name.at),
    }
}

// A parameter of a counted loop.
fn judge_bound(alloc: Global, scope: &Scope<'_>, expr: &Expr) -> Result<Judged<TypedExpr>, NoMemory>
    ensures breaks { IfOk result (λ j. j.breaks.items ≡ (parts.bound_or_code (placed scope.now (written expr.now))).breaks) }
    ensures meaning { IfOk result (λ j. option_map expression j.meaning ≡ (parts.bound_or_code (placed scope.now (written expr.now))).meaning) }
{
    let part = judge_part(alloc, scope, expr)?;
    bound_or_code(part)
}

fn given(value: Option<TypedExpr>) -> Option<Option<TypedExpr>>
    ensures { option_map maybe_expression result ≡ made t.given (option_map expression value) }
{
    match value {
        Some(value) => Some(Some(value)),
        None => None,
    }
}

// The step of a counted loop, where one is written.
fn judge_step(
    alloc: Global,
    scope: &Scope<'_>,
    expr: &Option<Expr>,
) -> Result<Judged<Option<TypedExpr>>, NoMemory>
    ensures breaks { IfOk result (λ j. j.breaks.items ≡ (maybe parts.bound_or_code scope.now (maybe_written expr.now)).breaks) }
    ensures meaning { IfOk result (λ j. option_map maybe_expression j.meaning ≡ (maybe parts.bound_or_code scope.now (maybe_written expr.now)).meaning) }
{
    match expr {
        Some(expr) => {
            let Judged { breaks, meaning } = judge_bound(alloc, scope, expr)?;
            Ok(Judged {
                breaks,
                meaning: given(meaning),
            })
        }
        None => Ok(fine(alloc, None)),
    }
}

// The variable of a counted loop, its first and its last parameter, and its step.
type Parts = ((Counter, (TypedExpr, TypedExpr)), Option<TypedExpr>);

fn counted(parts: Option<Parts>) -> Option<Control>
    ensures { option_map control_seen result ≡ option_map (λ p. rules.counted p.0.0.variable p.0.0.kind (expression p.0.1.0) (expression p.0.1.1) (maybe_expression p.1)) parts }
{
    match parts {
        Some(((counter, (first, last)), step)) => Some(Control::Counted {
            counter,
            limits: Limits { first, last, step },
        }),
        None => None,
    }
}

#[tactic(auto, using(crate::proofs::Parts::part_laws))]
fn judge_counted(
    alloc: Global,
    position: Position<'_>,
    variable: &Name,
    first: &Expr,
    last: &Expr,
    step: &Option<Expr>,
) -> Result<Judged<Control>, NoMemory>
    ensures breaks { IfOk result (λ j. j.breaks.items ≡ (rules.judged_control (seen position.entry) (fs.counted variable.now (written first.now) (written last.now) (maybe_written step.now))).breaks) }
    ensures meaning { IfOk result (λ j. option_map control_seen j.meaning ≡ (rules.judged_control (seen position.entry) (fs.counted variable.now (written first.now) (written last.now) (maybe_written step.now))).meaning) }
{
    let first = judge_bound(alloc, position.scope, first)?;
    let last = judge_bound(alloc, position.scope, last)?;
    let ends = paired(first, last)?;
    let counter = judge_counter(alloc, position, variable)?;
    let start = paired(counter, ends)?;
    let step = judge_step(alloc, position.scope, step)?;
    let Judged { breaks, meaning } = paired(start, step)?;
    Ok(Judged {
        breaks,
        meaning: counted(meaning),
    })
}

fn repeated(condition: Option<TypedExpr>) -> Option<Control>
    ensures { option_map control_seen result ≡ made rules.while (option_map expression condition) }
{
    match condition {
        Some(condition) => Some(Control::While(condition)),
        None => None,
    }
}

/// The control of a loop.
pub fn judge_control(
    alloc: Global,
    position: Position<'_>,
    control: &LoopControl,
) -> Result<Judged<Control>, NoMemory>
    ensures breaks { IfOk result (λ j. j.breaks.items ≡ (rules.judged_control (seen position.entry) (loop_control control.now)).breaks) }
    ensures meaning { IfOk result (λ j. option_map control_seen j.meaning ≡ (rules.judged_control (seen position.entry) (loop_control control.now)).meaning) }
{
    match control {
        LoopControl::Unlimited => Ok(fine(alloc, Control::Forever)),
        LoopControl::While { condition: expr } => {
            let part = judge_part(alloc, position.scope, expr)?;
            let Judged { breaks, meaning } = condition(part)?;
            Ok(Judged {
                breaks,
                meaning: repeated(meaning),
            })
        }
        LoopControl::Counted {
            variable,
            first,
            last,
            step,
        } => judge_counted(alloc, position, variable, first, last, step),
    }
}

fn local_of(found: Visible<'_>) -> Option<Local>
    ensures { result ≡ rules.local_of (Some (variable_meaning (visible found.entry))) }
{
    match object_from(found.home, found.symbol.object) {
        Object::Local(variable) => Some(variable),
        Object::Coarray(_) | Object::Constant(_) => None,
    }
}

/// The variable of a loop, active in its block.
pub fn loop_variable(position: Position<'_>, control: &LoopControl) -> Option<Local>
    ensures { result ≡ rules.loop_variable (seen position.entry) (loop_control control.now) }
{
    let LoopControl::Counted { variable, .. } = control else {
        return None;
    };
    match position.scope.denotes(variable.text.as_slice()) {
        Some(Denoted::Variable(found)) => local_of(found),
        Some(
            Denoted::Constant(_)
            | Denoted::Subroutine(_)
            | Denoted::Function(_)
            | Denoted::ModuleConstant(_)
            | Denoted::ModuleType(_)
            | Denoted::IntrinsicFunction(_)
            | Denoted::IntrinsicSubroutine(_),
        )
        | None => None,
    }
}

/// A loop around the statements of its block.
pub fn loop_around<'a>(
    position: Position<'_>,
    construct: &'a Option<Name>,
    control: &LoopControl,
) -> Around<'a>
    ensures { construct_seen result ≡ loop_seen construct.entry.now (rules.loop_variable (seen position.entry) (loop_control control.now)) }
{
    let variable = loop_variable(position, control);
    match construct {
        Some(name) => Around::Loop {
            name: Some(name),
            variable,
        },
        None => Around::Loop {
            name: None,
            variable,
        },
    }
}

// Whether a construct has this name (11.1.7.2).
fn is_same_name(construct: &Option<Name>, name: &Name) -> bool
    ensures { result ≡ rules.is_same_name construct.now name.now }
{
    match construct {
        Some(construct) => construct.text.as_slice() == name.text.as_slice(),
        None => false,
    }
}

/// A loop whose END DO may have a name: rule 41 for another one than that of its DO.
pub fn ended<T: Drop>(
    part: Judged<T>,
    construct: &Option<Name>,
    end: &Option<Name>,
) -> Result<Judged<T>, NoMemory>
    ensures breaks { IfOk result (λ j. j.breaks.items ≡ part.breaks.items ++ rules.end_breaks construct.now end.now) }
    ensures meaning { IfOk result (λ j. j.meaning ≡ cond (is_nothing (rules.end_breaks construct.now end.now)) part.meaning None) }
{
    match end {
        Some(name) => ruled(
            part,
            is_same_name(construct, name),
            rule::CONSTRUCT_NAME,
            name.at,
        ),
        None => Ok(part),
    }
}

fn is_counted(construct: Around<'_>) -> bool
    ensures { result ≡ rules.is_counted (construct_seen construct.entry) }
{
    match construct {
        Around::Loop {
            variable: Some(_),
            ..
        }
        | Around::Selection => true,
        Around::Loop { variable: None, .. } | Around::Critical | Around::TeamChange => false,
    }
}

/// How many hidden cells the constructs around have.
pub fn count_hidden(around: &[Around<'_>]) -> Result<u32, NoMemory>
    ensures { IfOk result (λ n. n ≡ rules.hidden_of (map construct_seen around.now)) }
{
    let mut count = 0;
    for construct in around {
        if is_counted(*construct) {
            count = one_more(count)?;
        }
    }
    Ok(count)
}

/// A loop with its block.
#[tactic(auto, using(checked_tree::specs::StatementViews::typed_statement_forms))]
pub fn loop_form(
    parts: Option<(Control, Vec<TypedStatement>)>,
    hidden: u32,
) -> Option<StatementForm>
    ensures { option_map statement_form result ≡ option_map (λ p. rules.loop_form hidden (control_seen p.0) (block p.1)) parts }
{
    let Some((control, body)) = parts else {
        return None;
    };
    match control {
        Control::Forever => Some(StatementForm::DoForever { body }),
        Control::While(condition) => Some(StatementForm::DoWhile { condition, body }),
        Control::Counted {
            counter: Counter { variable, kind },
            limits: Limits { first, last, step },
        } => Some(StatementForm::DoCounted {
            variable,
            kind,
            first,
            last,
            step,
            hidden,
            body,
        }),
    }
}
