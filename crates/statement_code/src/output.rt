//! Output (ISO/IEC 1539-1:2018, 12.6).

ghost use Rattle.std.specs.Prelude.{◌≡◌, [], ◌∷◌, map, OnOk};
ghost use Rattle.checked_tree.specs.ExpressionViews as view;
ghost use Rattle.checked_tree.specs.StatementViews as statements;
ghost use Rattle.image_acts.specs.Acts as act;
ghost use Rattle.tree_meaning.specs.Assignments as meaning;
ghost use Rattle.tree_meaning.specs.Environment.{literal_text};
ghost use Rattle.tree_meaning.specs.Sequences.{doing};
ghost use Rattle.expr_code.specs.Drafts.{written};
ghost use Rattle.expr_code.specs.Environments.{environment};
ghost use Rattle.statement_code.specs.Texts.{HasTexts};

use caf_base::refusal::NoMemory;
use caf_base::value::Kind;
use checked_tree::format::Format;
use checked_tree::statement::Item;
use expr_code::draft::Draft;
use expr_code::env::Env;
use expr_code::expr::push_expr;
use expr_code::piece::kind_of;
use image_code::step::{AskStep, Step};

// A value of this kind and rank goes into the text.
#[tactic(auto, using(crate::proofs::Texts::array_printed))]
fn push_printed(
    draft: &mut Draft,
    env: &Env<'_>,
    kind: Kind,
    rank: u32,
    line: u32,
) -> Result<(), NoMemory>
    ensures { OnOk result (draft.new ≡ written line (meaning.printed (environment env.now) kind rank) draft.old) }
{
    match rank {
        0 => match kind {
            Kind::I4 => draft.push(Step::PrintNumber, line),
            Kind::I8 => draft.push(Step::PrintNumber, line),
            Kind::L4 => draft.push(Step::PrintTruth, line),
        },
        _ => draft.push(Step::PrintArray(kind), line),
    }
}

// A literal of the program goes into the text.
#[tactic(auto, using(crate::proofs::Texts::literal_written))]
fn push_literal(draft: &mut Draft, env: &Env<'_>, literal: u32, line: u32) -> Result<(), NoMemory>
    requires texts { HasTexts (environment env.now) draft.old }
    ensures { OnOk result (draft.new ≡ written line (doing (act.print (act.print_literal literal (literal_text (environment env.now) literal)) ∷ [])) draft.old) }
{
    draft.push(Step::PrintLiteral(literal), line)
}

// A text begins.
#[tactic(auto, using(crate::proofs::Texts::format_written))]
fn push_beginning(
    draft: &mut Draft,
    env: &Env<'_>,
    format: &Format,
    line: u32,
) -> Result<(), NoMemory>
    requires texts { HasTexts (environment env.now) draft.old }
    ensures { OnOk result (draft.new ≡ written line (meaning.beginning (environment env.now) (statements.format format.now)) draft.old) }
{
    match format {
        Format::Free => draft.push(Step::BeginFree, line),
        Format::Written { literal, .. } => draft.push(Step::BeginFormat(*literal), line),
    }
}

fn push_item(draft: &mut Draft, env: &Env<'_>, item: &Item, line: u32) -> Result<(), NoMemory>
    requires texts { HasTexts (environment env.now) draft.old }
    ensures { OnOk result (draft.new ≡ written line (meaning.item (environment env.now) (statements.item item.now)) draft.old) }
{
    match item {
        Item::Literal(literal) => push_literal(draft, env, *literal, line),
        Item::Value(value) => {
            push_expr(draft, env, value, line)?;
            push_printed(draft, env, kind_of(value.of_type), value.rank, line)
        }
    }
}

// The output items, from the first to the last.
#[tactic(auto, using(crate::proofs::Texts::texts_written))]
fn push_items(draft: &mut Draft, env: &Env<'_>, items: &[Item], line: u32) -> Result<(), NoMemory>
    requires texts { HasTexts (environment env.now) draft.old }
    ensures { OnOk result (draft.new ≡ written line (meaning.items (environment env.now) (map statements.item items.now)) draft.old) }
{
    for item in items {
        push_item(draft, env, item, line)?;
    }
    Ok(())
}

/// PRINT: the values go into the text one after another, and the text is said as a whole.
#[tactic(auto, using(crate::proofs::Texts::texts_written))]
pub fn push_output(
    draft: &mut Draft,
    env: &Env<'_>,
    format: &Format,
    items: &[Item],
    line: u32,
) -> Result<(), NoMemory>
    requires texts { HasTexts (environment env.now) draft.old }
    ensures { OnOk result (draft.new ≡ written line (meaning.output (environment env.now) (statements.format format.now) (map statements.item items.now)) draft.old) }
{
    push_beginning(draft, env, format, line)?;
    push_items(draft, env, items, line)?;
    draft.push(Step::Ask(AskStep::Say), line)
}
