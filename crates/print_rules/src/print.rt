//! PRINT, and WRITE to the asterisk unit (12.6): rules 57 and 58.

ghost use Rattle.std.specs.Prelude.{◌≡◌, ◌++◌, ◌+◌, ◌||◌, IfOk, OnOk, map, not};
ghost use Rattle.std.specs.Option.{option_map};
ghost use Rattle.checked_tree.specs.ExpressionViews.{expression};
ghost use Rattle.checked_tree.specs.Statements as ts;
ghost use Rattle.checked_tree.specs.StatementViews.{format as format_seen, item as item_seen, statement_form};
ghost use Rattle.fortran_tree.specs.ActionViews.{format as format_written, item as item_written};
ghost use Rattle.fortran_tree.specs.ExpressionViews.{expression as written};
ghost use Rattle.rule_definitions.specs.Actions as rules;
ghost use Rattle.rule_definitions.specs.Expressions.{placed};
ghost use Rattle.rule_definitions.specs.Judgements.{both, made};
ghost use Rattle.rule_definitions.specs.Names.{is_event, is_lock, is_team};
ghost use Rattle.part_rules.specs.Views.{list_of, one_more, placed as part_seen};
ghost use Rattle.format_rules.specs.Views.{list_of as descriptors_of};
ghost use Rattle.branch_rules.specs.Sites.{site as seen};
ghost use Rattle.print_rules.specs.Outputs.{number_behind, printed_item, printed_value, written_format};

use branch_rules::site::Site;
use caf_base::refusal::NoMemory;
use checked_tree::data::DataType;
use checked_tree::expr::TypedExpr;
use checked_tree::format::{Descriptor, Format as TypedFormat};
use checked_tree::statement::{Item as TypedItem, StatementForm};
use expr_rules::expr::judge_part;
use format_rules::judge::{JudgedFormat, judge_format};
use fortran_tree::action::{Format, Item};
use fortran_tree::expr::Expr;
use fortran_tree::name::Literal;
use part_rules::judged::{Judged, fine, joined, keep, ruled};
use part_rules::part::{Part, plain};
use rule_definitions::rule;
use scope_table::scope::Scope;
use std::alloc::Global;

// The number of the next literal.
fn next(number: u32) -> Result<u32, NoMemory>
    ensures { IfOk result (λ n. n ≡ number + 1) }
{
    match number.checked_add(1) {
        Some(next) => Ok(next),
        None => Err(NoMemory),
    }
}

// The number of the first literal behind a format, whose own number is this one where it is a literal.
fn behind_format(number: u32, format: &Format) -> Result<u32, NoMemory>
    ensures { IfOk result (λ n. n ≡ number + rules.literals_of_format (format_written format.now)) }
{
    match format {
        Format::Free => Ok(number),
        Format::Written(_) => next(number),
    }
}

fn format_of(literal: u32, items: Option<Vec<Descriptor>>) -> Option<TypedFormat>
    ensures { option_map format_seen result ≡ (rules.format_of literal (option_map descriptors_of items)).meaning }
{
    match items {
        Some(items) => Some(TypedFormat::Written { literal, items }),
        None => None,
    }
}

// A format that is the literal with this number (13.3, 13.4): rule 57.
#[tactic(auto, using(crate::proofs::Outputs::format_laws))]
fn judge_written(
    alloc: Global,
    number: u32,
    format: &Literal,
    has_values: bool,
) -> Result<Judged<TypedFormat>, NoMemory>
    ensures breaks { IfOk result (λ j. j.breaks.items ≡ (written_format number format.now has_values).breaks) }
    ensures meaning { IfOk result (λ j. option_map format_seen j.meaning ≡ (written_format number format.now has_values).meaning) }
{
    let JudgedFormat { breaks, meaning } = judge_format(
        alloc,
        format.text.as_slice(),
        has_values,
        format.at,
    )?;
    Ok(Judged {
        breaks,
        meaning: format_of(number, meaning),
    })
}

fn has_values(items: &[Item]) -> bool
    ensures { result ≡ rules.has_values (map item_written items.now) }
{
    match items {
        [_, ..] => true,
        [] => false,
    }
}

// The format of these items, which has this number where it is a literal.
fn judge_output_format(
    alloc: Global,
    number: u32,
    format: &Format,
    items: &[Item],
) -> Result<Judged<TypedFormat>, NoMemory>
    ensures breaks { IfOk result (λ j. j.breaks.items ≡ (rules.format_judged number (format_written format.now) (map item_written items.now)).breaks) }
    ensures meaning { IfOk result (λ j. option_map format_seen j.meaning ≡ (rules.format_judged number (format_written format.now) (map item_written items.now)).meaning) }
{
    match format {
        Format::Free => Ok(fine(alloc, TypedFormat::Free)),
        Format::Written(literal) => judge_written(alloc, number, literal, has_values(items)),
    }
}

// Whether values of a type are printed (12.6.3).
fn is_printed(of_type: DataType) -> bool
    ensures { result ≡ not (is_event of_type || (is_lock of_type || is_team of_type)) }
{
    match of_type {
        DataType::Intrinsic(_) => true,
        DataType::Team | DataType::Event | DataType::Lock => false,
    }
}

// The expression of an item: rule 58 for a type that isn't printed.
fn printed(part: Part) -> Result<Judged<TypedExpr>, NoMemory>
    ensures breaks { IfOk result (λ j. j.breaks.items ≡ (printed_value (part_seen part)).breaks) }
    ensures meaning { IfOk result (λ j. option_map expression j.meaning ≡ (printed_value (part_seen part)).meaning) }
{
    let at = part.at;
    let value = plain(part)?;
    let Some(found) = &value.meaning else {
        return Ok(value);
    };
    let holds = is_printed(found.of_type);
    ruled(value, holds, rule::PRINTED_TYPE, at)
}

fn value_of(value: Option<TypedExpr>) -> Option<TypedItem>
    ensures { option_map item_seen result ≡ made ts.value (option_map expression value) }
{
    match value {
        Some(value) => Some(TypedItem::Value(value)),
        None => None,
    }
}

fn judge_value(alloc: Global, scope: &Scope<'_>, expr: &Expr) -> Result<Judged<TypedItem>, NoMemory>
    ensures breaks { IfOk result (λ j. j.breaks.items ≡ (rules.printed (placed scope.now (written expr.now))).breaks) }
    ensures meaning { IfOk result (λ j. option_map item_seen j.meaning ≡ (rules.printed (placed scope.now (written expr.now))).meaning) }
{
    let part = judge_part(alloc, scope, expr)?;
    let Judged { breaks, meaning } = printed(part)?;
    Ok(Judged {
        breaks,
        meaning: value_of(meaning),
    })
}

// An item, where the next literal has this number.
fn judge_item(
    alloc: Global,
    scope: &Scope<'_>,
    number: u32,
    item: &Item,
) -> Result<Judged<TypedItem>, NoMemory>
    ensures breaks { IfOk result (λ j. j.breaks.items ≡ (printed_item scope.now number (item_written item.now)).breaks) }
    ensures meaning { IfOk result (λ j. option_map item_seen j.meaning ≡ (printed_item scope.now number (item_written item.now)).meaning) }
{
    match item {
        Item::Literal(_) => Ok(fine(alloc, TypedItem::Literal(number))),
        Item::Value(expr) => judge_value(alloc, scope, expr),
    }
}

// The number of the next literal behind an item.
fn behind_item(number: u32, item: &Item) -> Result<u32, NoMemory>
    ensures { IfOk result (λ n. n ≡ number_behind number (item_written item.now)) }
{
    match item {
        Item::Literal(_) => next(number),
        Item::Value(_) => Ok(number),
    }
}

// Puts an item behind the earlier ones, and gives the number of the next literal.
fn add_item(
    alloc: Global,
    scope: &Scope<'_>,
    list: &mut Judged<Vec<TypedItem>>,
    number: u32,
    item: &Item,
) -> Result<u32, NoMemory>
    ensures breaks { OnOk result (list.new.breaks.items ≡ list.old.breaks.items ++ (printed_item scope.now number (item_written item.now)).breaks) }
    ensures meaning { OnOk result (option_map (map item_seen) (option_map list_of list.new.meaning) ≡ both one_more (option_map (map item_seen) (option_map list_of list.old.meaning)) (printed_item scope.now number (item_written item.now)).meaning) }
    ensures number { IfOk result (λ n. n ≡ number_behind number (item_written item.now)) }
{
    let judged = judge_item(alloc, scope, number, item)?;
    keep(list, judged)?;
    behind_item(number, item)
}

// The items, of which the first literal has this number.
#[tactic(auto, using(shared_rules::proofs::Turns::turn_laws))]
fn judge_items(
    alloc: Global,
    scope: &Scope<'_>,
    first: u32,
    items: &[Item],
) -> Result<Judged<Vec<TypedItem>>, NoMemory>
    ensures breaks { IfOk result (λ j. j.breaks.items ≡ (rules.printed_all scope.now first (map item_written items.now)).breaks) }
    ensures meaning { IfOk result (λ j. option_map (map item_seen) (option_map list_of j.meaning) ≡ (rules.printed_all scope.now first (map item_written items.now)).meaning) }
{
    let mut list = fine(alloc, Vec::new(alloc));
    let mut number = first;
    for item in items {
        number = add_item(alloc, scope, &mut list, number, item)?;
    }
    Ok(list)
}

#[tactic(auto, using(checked_tree::specs::StatementViews::typed_statement_forms))]
fn print_form(format: Option<TypedFormat>, items: Option<Vec<TypedItem>>) -> Option<StatementForm>
    ensures { option_map statement_form result ≡ both ts.print (option_map format_seen format) (option_map (map item_seen) (option_map list_of items)) }
{
    let Some(format) = format else {
        drop(items);
        return None;
    };
    let Some(items) = items else {
        drop(format);
        return None;
    };
    Some(StatementForm::Print { format, items })
}

/// Output of these items by this format. More than 4,294,967,295 literals in a program are answered as want of memory.
pub fn judge_print(
    alloc: Global,
    site: Site<'_>,
    format: &Format,
    items: &[Item],
) -> Result<Judged<StatementForm>, NoMemory>
    ensures breaks { IfOk result (λ j. j.breaks.items ≡ (rules.print_judged (seen site.entry) (format_written format.now) (map item_written items.now)).breaks) }
    ensures meaning { IfOk result (λ j. option_map statement_form j.meaning ≡ (rules.print_judged (seen site.entry) (format_written format.now) (map item_written items.now)).meaning) }
{
    let first = behind_format(site.literals, format)?;
    let Judged {
        breaks,
        meaning: found,
    } = judge_output_format(alloc, site.literals, format, items)?;
    let Judged {
        breaks: further,
        meaning: list,
    } = judge_items(alloc, site.scope, first, items)?;
    joined(breaks, further, print_form(found, list))
}
