//! CALL (15.5.1): rules 20 and 47, and those on arguments.

ghost use Rattle.std.specs.Prelude.{◌≡◌, IfOk, None, map};
ghost use Rattle.std.specs.Option.{option_map};
ghost use Rattle.checked_tree.specs.ExpressionViews.{arguments as arguments_seen};
ghost use Rattle.checked_tree.specs.Statements as ts;
ghost use Rattle.checked_tree.specs.StatementViews.{statement_form};
ghost use Rattle.fortran_tree.specs.ActionViews.{maybe_arguments};
ghost use Rattle.rule_definitions.specs.Actions as rules;
ghost use Rattle.rule_definitions.specs.Arguments.{breaks_in_all as breaks_in_arguments};
ghost use Rattle.rule_definitions.specs.Judgements.{made};
ghost use Rattle.rule_definitions.specs.Names.{denotes};
ghost use Rattle.scope_table.specs.Scopes.{denoted as meaning_of};
ghost use Rattle.scope_table.specs.Symbols.{interface as interface_seen};
ghost use Rattle.part_rules.specs.Brackets.{actual_seen};
ghost use Rattle.expr_rules.specs.Brackets.{refused_breaks};

use caf_base::place::Pos;
use caf_base::refusal::NoMemory;
use call_rules::actual;
use checked_tree::expr::Argument as TypedArgument;
use checked_tree::statement::StatementForm;
use expr_rules::bracket::breaks_in_all;
use expr_rules::expr::judge_arguments;
use fortran_tree::expr::Argument;
use fortran_tree::name::Name;
use part_rules::bracket::Actual;
use part_rules::judged::{Judged, are_none, note_unless, refused, unknown};
use rule_definitions::rule;
use scope_table::scope::{Denoted, Scope};
use scope_table::symbol::Interface;
use std::alloc::Global;
use subroutine_rules::call::intrinsic_call;

#[tactic(auto, using(checked_tree::specs::StatementViews::typed_statement_forms))]
fn call_form(procedure: u32, arguments: Option<Vec<TypedArgument>>) -> Option<StatementForm>
    ensures { option_map statement_form result ≡ made (ts.call procedure) (option_map (λ v. arguments_seen v.items) arguments) }
{
    match arguments {
        Some(arguments) => Some(StatementForm::Call {
            procedure,
            arguments,
        }),
        None => None,
    }
}

// A call of the subroutine of the program that has this number.
fn called_with(
    alloc: Global,
    scope: &Scope<'_>,
    interface: Option<&Interface>,
    procedure: u32,
    actuals: Vec<Actual>,
    at: Pos,
) -> Result<Judged<StatementForm>, NoMemory>
    ensures breaks { IfOk result (λ j. j.breaks.items ≡ (rules.called_with (option_map (λ i. interface_seen i.now) interface.entry) scope.now procedure (map actual_seen actuals.items) at).breaks) }
    ensures meaning { IfOk result (λ j. option_map statement_form j.meaning ≡ (rules.called_with (option_map (λ i. interface_seen i.now) interface.entry) scope.now procedure (map actual_seen actuals.items) at).meaning) }
{
    let Some(interface) = interface else {
        drop(actuals);
        return Ok(unknown(alloc));
    };
    let Judged { breaks, meaning } = actual::arguments(
        alloc,
        scope,
        interface.dummies.as_slice(),
        actuals,
        at,
    )?;
    Ok(Judged {
        breaks,
        meaning: call_form(procedure, meaning),
    })
}

// CALL of what is no subroutine: rule 47, where nothing breaks in the arguments.
fn refused_call(
    alloc: Global,
    actuals: Vec<Actual>,
    at: Pos,
) -> Result<Judged<StatementForm>, NoMemory>
    ensures breaks { IfOk result (λ j. j.breaks.items ≡ refused_breaks (breaks_in_arguments (map actual_seen actuals.items)) 47 at) }
    ensures meaning { IfOk result (λ j. j.meaning ≡ None) }
{
    let mut breaks = breaks_in_all(alloc, actuals)?;
    let is_broken = !are_none(breaks.as_slice());
    note_unless(&mut breaks, is_broken, rule::PROCEDURE_NAME, at)?;
    Ok(Judged {
        breaks,
        meaning: None,
    })
}

// A call by what the name stands for.
fn called(
    alloc: Global,
    scope: &Scope<'_>,
    denoted: Option<Denoted<'_>>,
    actuals: Vec<Actual>,
    at: Pos,
) -> Result<Judged<StatementForm>, NoMemory>
    ensures breaks { IfOk result (λ j. j.breaks.items ≡ (rules.called scope.now (option_map meaning_of denoted.entry) (map actual_seen actuals.items) at).breaks) }
    ensures meaning { IfOk result (λ j. option_map statement_form j.meaning ≡ (rules.called scope.now (option_map meaning_of denoted.entry) (map actual_seen actuals.items) at).meaning) }
{
    let Some(denoted) = denoted else {
        drop(actuals);
        return refused(alloc, rule::UNKNOWN_NAME, at);
    };
    match denoted {
        Denoted::Subroutine(number) => {
            called_with(alloc, scope, scope.interface(number), number, actuals, at)
        }
        Denoted::IntrinsicSubroutine(name) => intrinsic_call(alloc, name, actuals, at),
        Denoted::Variable(_)
        | Denoted::Constant(_)
        | Denoted::Function(_)
        | Denoted::ModuleConstant(_)
        | Denoted::ModuleType(_)
        | Denoted::IntrinsicFunction(_) => refused_call(alloc, actuals, at),
    }
}

// The actual arguments of a call, none where there are no brackets.
fn actuals_of(
    alloc: Global,
    scope: &Scope<'_>,
    arguments: &Option<Vec<Argument>>,
) -> Result<Vec<Actual>, NoMemory>
    ensures { IfOk result (λ v. map actual_seen v.items ≡ rules.actuals_of scope.now (maybe_arguments arguments.now)) }
{
    match arguments {
        Some(arguments) => judge_arguments(alloc, scope, arguments.as_slice()),
        None => Ok(Vec::new(alloc)),
    }
}

/// A call of what this name stands for. No arguments are given where there are no brackets.
pub fn judge_call(
    alloc: Global,
    scope: &Scope<'_>,
    subroutine: &Name,
    arguments: &Option<Vec<Argument>>,
) -> Result<Judged<StatementForm>, NoMemory>
    ensures breaks { IfOk result (λ j. j.breaks.items ≡ (rules.called scope.now (denotes scope.now subroutine.now.text) (rules.actuals_of scope.now (maybe_arguments arguments.now)) subroutine.now.at).breaks) }
    ensures meaning { IfOk result (λ j. option_map statement_form j.meaning ≡ (rules.called scope.now (denotes scope.now subroutine.now.text) (rules.actuals_of scope.now (maybe_arguments arguments.now)) subroutine.now.at).meaning) }
{
    let actuals = actuals_of(alloc, scope, arguments)?;
    let denoted = scope.denotes(subroutine.text.as_slice());
    called(alloc, scope, denoted, actuals, subroutine.at)
}
