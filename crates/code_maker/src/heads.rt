//! What stands before the blocks of constructs. The texts of the draft stay those of the program, so a block may be put
//! behind.

ghost use Rattle.std.specs.Prelude.{◌≡◌, [], ◌∷◌, OnOk};
ghost use Rattle.checked_tree.specs.ExpressionViews as view;
ghost use Rattle.image_acts.specs.Acts.{here, variable as on_variable, store};
ghost use Rattle.tree_meaning.specs.Environment.{hidden_cell};
ghost use Rattle.tree_meaning.specs.Expressions.{expression};
ghost use Rattle.tree_meaning.specs.Forms.{do_start, in_ranges};
ghost use Rattle.tree_meaning.specs.ImageControl as control;
ghost use Rattle.tree_meaning.specs.Sequences.{◌▸◌, doing, released};
ghost use Rattle.expr_code.specs.Drafts.{written};
ghost use Rattle.expr_code.specs.Environments.{environment};
ghost use Rattle.statement_code.specs.Texts.{HasTexts};

use caf_base::refusal::NoMemory;
use caf_base::value::Kind;
use checked_tree::data::Local;
use checked_tree::expr::{ResultVariable, TypedExpr};
use checked_tree::statement::CaseRange;
use expr_code::draft::Draft;
use expr_code::env::Env;
use statement_code::head::{
    push_change_team, push_condition, push_critical, push_do_start, push_in_ranges,
    push_select_value,
};

/// The test of an IF or ELSE IF.
#[tactic(auto, using(crate::proofs::Texts::laws))]
pub fn begin_branch(
    draft: &mut Draft,
    env: &Env<'_>,
    condition: &TypedExpr,
    line: u32,
) -> Result<(), NoMemory>
    requires texts { HasTexts (environment env.now) draft.old }
    ensures written { OnOk result (draft.new ≡ written line (released (expression (environment env.now) (view.expression condition.now))) draft.old) }
    ensures texts { OnOk result (HasTexts (environment env.now) draft.new) }
{
    push_condition(draft, env, condition, line)
}

/// The test of a CASE.
#[tactic(auto, using(crate::proofs::Texts::laws))]
pub fn begin_case(
    draft: &mut Draft,
    env: &Env<'_>,
    hidden: u32,
    ranges: &[CaseRange],
    line: u32,
) -> Result<(), NoMemory>
    requires texts { HasTexts (environment env.now) draft.old }
    ensures written { OnOk result (draft.new ≡ written line (doing (in_ranges (hidden_cell (environment env.now) hidden) ranges.now)) draft.old) }
    ensures texts { OnOk result (HasTexts (environment env.now) draft.new) }
{
    push_in_ranges(draft, env, hidden, ranges, line)
}

/// The start of a DO with a variable.
#[tactic(auto, using(crate::proofs::Texts::laws))]
pub fn begin_do(
    draft: &mut Draft,
    env: &Env<'_>,
    variable: Local,
    kind: Kind,
    first: &TypedExpr,
    last: &TypedExpr,
    step: &Option<TypedExpr>,
    hidden: u32,
    line: u32,
) -> Result<(), NoMemory>
    requires texts { HasTexts (environment env.now) draft.old }
    ensures written { OnOk result (draft.new ≡ written line (released (do_start (environment env.now) variable kind (view.expression first.now) (view.expression last.now) (view.maybe_expression step.now) (hidden_cell (environment env.now) hidden))) draft.old) }
    ensures texts { OnOk result (HasTexts (environment env.now) draft.new) }
{
    push_do_start(draft, env, variable, kind, first, last, step, hidden, line)
}

/// The value of a SELECT CASE.
#[tactic(auto, using(crate::proofs::Texts::laws))]
pub fn begin_select(
    draft: &mut Draft,
    env: &Env<'_>,
    value: &TypedExpr,
    hidden: u32,
    line: u32,
) -> Result<(), NoMemory>
    requires texts { HasTexts (environment env.now) draft.old }
    ensures written { OnOk result (draft.new ≡ written line (released (expression (environment env.now) (view.expression value.now)) ▸ doing (on_variable (store here (hidden_cell (environment env.now) hidden)) ∷ [])) draft.old) }
    ensures texts { OnOk result (HasTexts (environment env.now) draft.new) }
{
    push_select_value(draft, env, value, hidden, line)
}

/// CRITICAL.
#[tactic(auto, using(crate::proofs::Texts::laws))]
pub fn begin_critical(
    draft: &mut Draft,
    env: &Env<'_>,
    number: u32,
    stat: &Option<ResultVariable>,
    line: u32,
) -> Result<(), NoMemory>
    requires texts { HasTexts (environment env.now) draft.old }
    ensures written { OnOk result (draft.new ≡ written line (released (control.critical (environment env.now) number (view.maybe_result stat.now))) draft.old) }
    ensures texts { OnOk result (HasTexts (environment env.now) draft.new) }
{
    push_critical(draft, env, number, stat, line)
}

/// CHANGE TEAM.
#[tactic(auto, using(crate::proofs::Texts::laws))]
pub fn begin_change_team(
    draft: &mut Draft,
    env: &Env<'_>,
    team: &TypedExpr,
    stat: &Option<ResultVariable>,
    line: u32,
) -> Result<(), NoMemory>
    requires texts { HasTexts (environment env.now) draft.old }
    ensures written { OnOk result (draft.new ≡ written line (released (control.change_team (environment env.now) (view.expression team.now) (view.maybe_result stat.now))) draft.old) }
    ensures texts { OnOk result (HasTexts (environment env.now) draft.new) }
{
    push_change_team(draft, env, team, stat, line)
}
