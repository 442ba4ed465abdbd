//! References to procedures by their names (15.5.1): rules 20, 33 and 47.

ghost use Rattle.std.specs.Prelude.{◌≡◌, IfOk, length, map};
ghost use Rattle.std.specs.Option.{option_map};
ghost use Rattle.checked_tree.specs.ExpressionViews.{arguments as arguments_seen, expression};
ghost use Rattle.rule_definitions.specs.Expressions as rules;
ghost use Rattle.part_rules.specs.Brackets.{actual_seen};
ghost use Rattle.scope_table.specs.Scopes.{denoted as meaning_of};
ghost use Rattle.scope_table.specs.Symbols.{interface as interface_seen, symbol};
ghost use Rattle.expr_rules.specs.Selections.{breaks_of_subroutine, selection as selection_seen};

use crate::bracket::{breaks_in_all, refused_around};
use caf_base::place::Pos;
use caf_base::refusal::NoMemory;
use call_rules::actual::arguments;
use checked_tree::expr::{Argument, ExprForm, TypedExpr};
use function_rules::function::intrinsic_reference;
use part_rules::bracket::Actual;
use part_rules::designator::Selection;
use part_rules::judged::{Judged, are_none, note_unless, refused, unknown};
use rule_definitions::broken::Broken;
use rule_definitions::rule;
use scope_table::scope::{Denoted, Scope};
use scope_table::symbol::{Interface, Symbol};
use std::alloc::Global;

/// A rank as the checked tree keeps it.
fn rank_of(answer: &Symbol) -> Result<u32, NoMemory>
    ensures { IfOk result (λ r. r ≡ length answer.now.bounds) }
{
    match u32::try_from(answer.bounds.len()) {
        Ok(rank) => Ok(rank),
        Err(_) => Err(NoMemory),
    }
}

/// A call of the function with this number, where its result's type is known.
#[tactic(auto, using(checked_tree::specs::ExpressionViews::typed_forms))]
fn call(
    answer: &Option<Symbol>,
    procedure: u32,
    arguments: Vec<Argument>,
) -> Result<Option<TypedExpr>, NoMemory>
    ensures { IfOk result (λ o. option_map expression o ≡ (rules.call_typed (option_map symbol answer.now) procedure (arguments_seen arguments.items)).meaning) }
{
    let Some(symbol) = answer else {
        drop(arguments);
        return Ok(None);
    };
    let Some(of_type) = symbol.of_type else {
        drop(arguments);
        return Ok(None);
    };
    let rank = rank_of(symbol)?;
    Ok(Some(TypedExpr {
        form: ExprForm::Call {
            procedure,
            arguments,
        },
        of_type,
        rank,
    }))
}

/// A reference to a function of the program (15.5.1).
fn function_called(
    alloc: Global,
    scope: &Scope<'_>,
    interface: Option<&Interface>,
    procedure: u32,
    actuals: Vec<Actual>,
    at: Pos,
) -> Result<Judged<TypedExpr>, NoMemory>
    ensures breaks { IfOk result (λ j. j.breaks.items ≡ (rules.function_called scope.now (option_map (λ i. interface_seen i.now) interface.entry) procedure (map actual_seen actuals.items) at).breaks) }
    ensures meaning { IfOk result (λ j. option_map expression j.meaning ≡ (rules.function_called scope.now (option_map (λ i. interface_seen i.now) interface.entry) procedure (map actual_seen actuals.items) at).meaning) }
{
    let Some(interface) = interface else {
        return Ok(Judged {
            breaks: breaks_in_all(alloc, actuals)?,
            meaning: None,
        });
    };
    let Judged { breaks, meaning } = arguments(
        alloc,
        scope,
        interface.dummies.as_slice(),
        actuals,
        at,
    )?;
    let meaning = match meaning {
        Some(arguments) => call(&interface.result, procedure, arguments)?,
        None => None,
    };
    Ok(Judged { breaks, meaning })
}

/// A name with arguments: rule 20 for nothing and for a type, rule 47 for a subroutine, rule 33 for what is no
/// procedure.
pub fn referenced(
    alloc: Global,
    scope: &Scope<'_>,
    denoted: Option<Denoted<'_>>,
    at: Pos,
    actuals: Vec<Actual>,
) -> Result<Judged<TypedExpr>, NoMemory>
    ensures breaks { IfOk result (λ j. j.breaks.items ≡ (rules.referenced scope.now (option_map meaning_of denoted.entry) at (map actual_seen actuals.items)).breaks) }
    ensures meaning { IfOk result (λ j. option_map expression j.meaning ≡ (rules.referenced scope.now (option_map meaning_of denoted.entry) at (map actual_seen actuals.items)).meaning) }
{
    let Some(denoted) = denoted else {
        drop(actuals);
        return refused(alloc, rule::UNKNOWN_NAME, at);
    };
    match denoted {
        Denoted::Function(number) => {
            function_called(alloc, scope, scope.interface(number), number, actuals, at)
        }
        Denoted::IntrinsicFunction(name) => intrinsic_reference(alloc, scope, name, actuals, at),
        Denoted::Subroutine(_) | Denoted::IntrinsicSubroutine(_) => {
            refused_around(alloc, actuals, rule::PROCEDURE_NAME, at)
        }
        Denoted::ModuleType(_) => {
            drop(actuals);
            refused(alloc, rule::UNKNOWN_NAME, at)
        }
        Denoted::Variable(_) | Denoted::Constant(_) | Denoted::ModuleConstant(_) => {
            refused_around(alloc, actuals, rule::SUBSCRIPT_COUNT, at)
        }
    }
}

/// A function's name, with what stands behind it: rule 47 for the bare name, where nothing is broken in the selector.
#[tactic(auto, using(crate::proofs::Names::function_laws))]
pub fn function_named(
    alloc: Global,
    scope: &Scope<'_>,
    denoted: Denoted<'_>,
    at: Pos,
    actuals: Vec<Actual>,
    selection: &Selection,
) -> Result<Judged<TypedExpr>, NoMemory>
    ensures breaks { IfOk result (λ j. j.breaks.items ≡ (rules.function_named scope.now (meaning_of denoted.entry) at (map actual_seen actuals.items) (selection_seen selection.now)).breaks) }
    ensures meaning { IfOk result (λ j. option_map expression j.meaning ≡ (rules.function_named scope.now (meaning_of denoted.entry) at (map actual_seen actuals.items) (selection_seen selection.now)).meaning) }
{
    if actuals.len() > 0 {
        return referenced(alloc, scope, Some(denoted), at, actuals);
    }
    drop(actuals);
    if are_none(selection.judged.breaks.as_slice()) {
        refused(alloc, rule::PROCEDURE_NAME, at)
    } else {
        Ok(unknown(alloc))
    }
}

/// What breaks in a subroutine's name as a value: rule 47, where nothing is broken in what stands behind it.
#[tactic(auto, using(crate::proofs::Names::subroutine_laws))]
pub fn subroutine_breaks(
    alloc: Global,
    at: Pos,
    actuals: Vec<Actual>,
    selection: &Selection,
) -> Result<Vec<Broken>, NoMemory>
    ensures { IfOk result (λ v. v.items ≡ breaks_of_subroutine at (map actual_seen actuals.items) (selection_seen selection.now)) }
{
    let mut breaks = breaks_in_all(alloc, actuals)?;
    let is_clean = are_none(breaks.as_slice()) && are_none(selection.judged.breaks.as_slice());
    note_unless(&mut breaks, !is_clean, rule::PROCEDURE_NAME, at)?;
    Ok(breaks)
}
