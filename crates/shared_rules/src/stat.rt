//! Statements with STAT= alone (9.7.4, 11.6.11).

ghost use Rattle.std.specs.Prelude.{◌≡◌, IfOk};
ghost use Rattle.std.specs.Option.{option_map};
ghost use Rattle.checked_tree.specs.ExpressionViews.{maybe_result};
ghost use Rattle.fortran_tree.specs.ActionViews.{maybe_specifiers};
ghost use Rattle.fortran_tree.specs.ExpressionViews.{specifiers as specifiers_written};
ghost use Rattle.rule_definitions.specs.Actions as rules;
ghost use Rattle.rule_definitions.specs.Expressions.{judged_specifiers};

use caf_base::refusal::NoMemory;
use checked_tree::expr::ResultVariable;
use expr_rules::expr::judge_specifiers;
use fortran_tree::expr::Specifier;
use part_rules::judged::{Judged, fine};
use scope_table::scope::Scope;
use specifier_rules::statement::stat_alone;
use std::alloc::Global;

/// The specifiers of a statement that has STAT= alone.
pub fn stat_of(
    alloc: Global,
    scope: &Scope<'_>,
    specifiers: &[Specifier],
) -> Result<Judged<Option<ResultVariable>>, NoMemory>
    ensures breaks { IfOk result (λ j. j.breaks.items ≡ (rules.with_stat (judged_specifiers scope.now (specifiers_written specifiers.now))).breaks) }
    ensures meaning { IfOk result (λ j. option_map maybe_result j.meaning ≡ (rules.with_stat (judged_specifiers scope.now (specifiers_written specifiers.now))).meaning) }
{
    let specified = judge_specifiers(alloc, scope, specifiers)?;
    stat_alone(alloc, specified)
}

/// The specifiers of a statement that may stand without brackets.
pub fn maybe_stat(
    alloc: Global,
    scope: &Scope<'_>,
    specifiers: &Option<Vec<Specifier>>,
) -> Result<Judged<Option<ResultVariable>>, NoMemory>
    ensures breaks { IfOk result (λ j. j.breaks.items ≡ (rules.with_stat (rules.written_if scope.now (maybe_specifiers specifiers.now))).breaks) }
    ensures meaning { IfOk result (λ j. option_map maybe_result j.meaning ≡ (rules.with_stat (rules.written_if scope.now (maybe_specifiers specifiers.now))).meaning) }
{
    match specifiers {
        Some(specifiers) => stat_of(alloc, scope, specifiers.as_slice()),
        None => Ok(fine(alloc, None)),
    }
}
