//! The rules of USE and of headings that need no expression.

ghost use Rattle.std.specs.Prelude.{◌≡◌, ◌∷◌, [], not, map, OnOk};
ghost use Rattle.fortran_tree.specs.UnitViews.{use_statement, procedure};
ghost use Rattle.rule_definitions.specs.Judgements.{first_of, is_there, unless};
ghost use Rattle.rule_definitions.specs.Names.{denoted_in, is_among, module_names};
ghost use Rattle.rule_definitions.specs.Units.{dummy_breaks, only_breaks, twice_breaks, use_breaks, uses_breaks};
ghost use Rattle.scope_table.specs.Outside.{headings};
ghost use Rattle.scope_table.specs.Pending.{Adds};

use caf_base::refusal::NoMemory;
use fortran_tree::name::Name;
use fortran_tree::unit::{Procedure, Use};
use rule_definitions::broken::Broken;
use rule_definitions::rule;
use scope_table::broken::note;
use scope_table::names::Names;
use scope_table::outside::{heading_name, is_known_module, module_named};

/// Rule 20 (ISO/IEC 1539-1:2018, 14.2.2): a name in ONLY that the module hasn't.
fn judge_only(first: &mut Option<Broken>, only: &[Name])
    ensures { first.new ≡ first_of first.old (only_breaks only.now) }
{
    for name in only {
        judge_only_name(first, name);
    }
}

fn judge_only_name(first: &mut Option<Broken>, name: &Name)
    ensures { first.new ≡ first_of first.old (unless (is_there (denoted_in module_names name.now.text)) 20 name.now.at) }
{
    if module_named(name.text.as_slice()).is_none() {
        note(first, rule::UNKNOWN_NAME, name.at);
    }
}

fn judge_use(first: &mut Option<Broken>, statement: &Use)
    ensures { first.new ≡ first_of first.old (use_breaks (use_statement statement.now)) }
{
    if !is_known_module(&statement.module) {
        note(first, rule::UNKNOWN_NAME, statement.module.at);
        return;
    }
    if let Some(only) = &statement.only {
        judge_only(first, only.as_slice());
    }
}

/// Rule 20: a module other than ISO_FORTRAN_ENV, or a name in ONLY that it hasn't.
pub fn judge_uses(first: &mut Option<Broken>, uses: &[Use])
    ensures { first.new ≡ first_of first.old (uses_breaks (map use_statement uses.now)) }
{
    for statement in uses {
        judge_use(first, statement);
    }
}

// A name that none of those before has, else rule 21 at it; it is one of them from here.
#[tactic(auto, using(scope_table::proofs::Sets::adds_one))]
fn judge_new_name(
    first: &mut Option<Broken>,
    before: &mut Names,
    name: &Name,
) -> Result<(), NoMemory>
    ensures first { OnOk result (first.new ≡ first_of first.old (unless (not (is_among before.old name.now.text)) 21 name.now.at)) }
    ensures names { OnOk result (Adds before.new before.old (name.now.text ∷ [])) }
{
    if !before.add(name.text.copy()?)? {
        note(first, rule::DECLARED_TWICE, name.at);
    }
    Ok(())
}

/// Rule 21 (19.3.1): a procedure with the name of an earlier one, or one of those before; these are all before from
/// here.
pub fn judge_procedure_names(
    first: &mut Option<Broken>,
    before: &mut Names,
    procedures: &[Procedure],
) -> Result<(), NoMemory>
    ensures { OnOk result (first.new ≡ first_of first.old (twice_breaks before.old (headings (map procedure procedures.now)))) }
{
    for next in procedures {
        judge_new_name(first, before, heading_name(&next.heading))?;
    }
    Ok(())
}

/// Rule 21 (19.3.1): a dummy argument that stands twice, or has one of the names before.
pub fn judge_dummy_names(
    first: &mut Option<Broken>,
    before: &mut Names,
    dummies: &[Name],
) -> Result<(), NoMemory>
    ensures { OnOk result (first.new ≡ first_of first.old (dummy_breaks before.old dummies.now)) }
{
    for next in dummies {
        judge_new_name(first, before, next)?;
    }
    Ok(())
}
