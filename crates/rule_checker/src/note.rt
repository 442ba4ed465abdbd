//! Rules that are noted for a whole program.

ghost use Rattle.std.specs.Prelude.{◌≡◌};
ghost use Rattle.rule_definitions.specs.Judgements.{first_of, is_nothing};
ghost use Rattle.rule_definitions.specs.Statements.{end_breaks, is_same_name};
ghost use Rattle.branch_rules.specs.Sites.{maybe_name};
ghost use Rattle.rule_checker.specs.Noted.{noted};

use fortran_tree::name::Name;
use rule_definitions::broken::Broken;
use rule_definitions::rule;
use scope_table::broken::note;

/// Notes the first of the rules that were noted apart.
pub fn note_apart(first: &mut Option<Broken>, apart: Option<Broken>)
    ensures { first.new ≡ first_of first.old (noted apart) }
{
    if let Some(broken) = apart {
        note(first, broken.rule, broken.at);
    }
}

/// Whether the name behind END, where one is written, is this one (ISO/IEC 1539-1:2018, 14.1, 15.6.2); else rule 41 is
/// noted at it.
pub fn judge_end(first: &mut Option<Broken>, name: Option<&Name>, end: &Option<Name>) -> bool
    ensures first { first.new ≡ first_of first.old (end_breaks (maybe_name name.entry) end.now) }
    ensures fine { result ≡ is_nothing (end_breaks (maybe_name name.entry) end.now) }
{
    let Some(end) = end else {
        return true;
    };
    if is_named(name, end) {
        return true;
    }
    note(first, rule::CONSTRUCT_NAME, end.at);
    false
}

fn is_named(name: Option<&Name>, end: &Name) -> bool
    ensures { result ≡ is_same_name (maybe_name name.entry) end.now }
{
    match name {
        Some(name) => name.text.as_slice() == end.text.as_slice(),
        None => false,
    }
}
