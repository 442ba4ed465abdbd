//! The units of a program with their statements.

ghost use Rattle.std.specs.Prelude.{◌≡◌, ◌+◌, IfOk, OnOk};
ghost use Rattle.std.specs.Option.{option_map};
ghost use Rattle.checked_tree.specs.StatementViews as typed;
ghost use Rattle.fortran_tree.specs.StatementViews.{statement_list};
ghost use Rattle.part_rules.specs.Views.{list_of};
ghost use Rattle.rule_definitions.specs.Judgements.{both, first_of};
ghost use Rattle.rule_definitions.specs.Statements.{behind, counted_statements};
ghost use Rattle.rule_definitions.specs.Units.{position_of};
ghost use Rattle.statement_rules.specs.Positions.{position as position_seen};
ghost use Rattle.rule_checker.specs.Units.{counted, unit_here};

use crate::variable::type_variables;
use caf_base::listing::Text;
use caf_base::refusal::NoMemory;
use checked_tree::data::Variable;
use checked_tree::program::Unit;
use checked_tree::statement::TypedStatement;
use declaration_rules::asked::note_all;
use fortran_tree::statement::Statement;
use numbering_rules::numbering::{add_literals, count_criticals, most_hidden};
use rule_definitions::broken::Broken;
use scope_table::scope::Scope;
use scope_table::table::Table;
use statement_rules::statement::{Position, judge_statements};
use std::alloc::Global;

/// The critical constructs and the literals that stand in statements so far.
#[derive(Drop)]
pub struct Counts {
    pub criticals: u32,
    pub literals: Vec<Text>,
}

fn sum(one: u32, other: u32) -> Result<u32, NoMemory>
    ensures { IfOk result (λ n. n ≡ one + other) }
{
    match one.checked_add(other) {
        Some(sum) => Ok(sum),
        None => Err(NoMemory),
    }
}

/// Counts what stands in these statements.
pub fn count(counts: &mut Counts, statements: &[Statement]) -> Result<(), NoMemory>
    ensures { OnOk result (counted counts.new ≡ behind (counted counts.old) (counted_statements (statement_list statements.now))) }
{
    let criticals = sum(counts.criticals, count_criticals(statements)?)?;
    add_literals(&mut counts.literals, statements)?;
    counts.criticals = criticals;
    Ok(())
}

/// Where the statements of a unit stand that has this scope, behind these.
pub fn position_in<'a>(scope: &'a Scope<'a>, counts: &Counts) -> Result<Position<'a>, NoMemory>
    ensures { IfOk result (λ x. position_seen x ≡ position_of scope.now (counted counts.now)) }
{
    let Ok(literals) = u32::try_from(counts.literals.len()) else {
        return Err(NoMemory);
    };
    Ok(Position {
        scope,
        around: &[],
        criticals: counts.criticals,
        literals,
    })
}

fn joined(
    variables: Option<Vec<Variable>>,
    hidden: u32,
    statements: Option<Vec<TypedStatement>>,
) -> Option<Unit>
    ensures { option_map typed.unit result ≡ both (λ vs body. record { variables = vs; hidden = hidden; statements = body }) (option_map list_of variables) (option_map (λ v. typed.statements v.items) statements) }
{
    let Some(variables) = variables else {
        drop(statements);
        return None;
    };
    match statements {
        Some(statements) => Some(Unit {
            variables,
            hidden,
            statements,
        }),
        None => None,
    }
}

/// A unit with these names and these statements.
pub fn judge_unit(
    alloc: Global,
    first: &mut Option<Broken>,
    own: &Table,
    position: Position<'_>,
    statements: &[Statement],
) -> Result<Option<Unit>, NoMemory>
    ensures first { OnOk result (first.new ≡ first_of first.old (unit_here own.now (position_seen position.entry) (statement_list statements.now)).breaks) }
    ensures unit { IfOk result (λ o. option_map typed.unit o ≡ (unit_here own.now (position_seen position.entry) (statement_list statements.now)).meaning) }
{
    let hidden = most_hidden(statements)?;
    let variables = type_variables(alloc, own)?;
    let judged = judge_statements(alloc, position, statements)?;
    note_all(first, judged.breaks.as_slice());
    Ok(joined(variables, hidden, judged.meaning))
}
