//! A whole program: all that it breaks, and the checked program that it stands for.

ghost use Rattle.std.specs.Prelude.{◌≡◌, ◌∷◌, ℕ, [], List, None, length, map, IfOk, OnOk};
ghost use Rattle.std.specs.Option.{option_map};
ghost use Rattle.checked_tree.specs.StatementViews as typed;
ghost use Rattle.fortran_tree.specs.UnitViews.{program as program_seen};
ghost use Rattle.part_rules.specs.Views.{list_of};
ghost use Rattle.rule_definitions.specs.Judgements.{both, first_of};
ghost use Rattle.rule_definitions.specs.Names.{is_among, variables_of};
ghost use Rattle.rule_definitions.specs.Statements.{end_breaks};
ghost use Rattle.rule_definitions.specs.Declarations.{limit_breaks};
ghost use Rattle.rule_definitions.specs.Units.{coarray_numbers, completed, headings_of, name_of as name_seen, procedures_of, program_judged, twice_breaks, uses_breaks};
ghost use Rattle.scope_table.specs.Pending.{Adds};
ghost use Rattle.scope_table.specs.Symbols.{entry as entry_seen, interface as interface_seen};
ghost use Rattle.unit_scopes.specs.Openings.{closing};
ghost use Rattle.unit_scopes.specs.Scopes.{main_scope, owning};
ghost use Rattle.rule_checker.specs.Units.{counted};
ghost use Rattle.rule_checker.specs.Noted.{noted};
ghost use Rattle.rule_checker.specs.Whole.{begun, formed, seen, whole, with_procedures};

use crate::note::{judge_end, note_apart};
use crate::procedure::{Common, Gone, judge_each};
use crate::unit::{Counts, count, judge_unit, position_in};
use crate::variable::number_coarrays;
use caf_base::refusal::NoMemory;
use checked_tree::data::{Coarrays, Constant};
use checked_tree::program::{Checked, Procedure, Unit};
use declaration_rules::heading::{judge_procedure_names, judge_uses};
use fortran_tree::unit::Program;
use rule_definitions::broken::Broken;
use scope_table::names::Names;
use scope_table::outside::Outside;
use scope_table::scope::Scope;
use scope_table::symbol::Entry;
use scope_table::table::{Table, name_of};
use std::alloc::Global;
use unit_scopes::grown::Grown;
use unit_scopes::limit::judge_limits;
use unit_scopes::program::{Procedures, procedures_in};
use unit_scopes::scopes::{Scopes, find_interfaces, read_scopes};

/// What the statements of a program give: the main program, none where it has no meaning, and what it and the
/// procedures give besides.
#[derive(Drop)]
pub struct Judged {
    pub main: Option<Unit>,
    pub units: Gone,
}

/// What is found of a program: the first of the rules that it breaks, and what it stands for.
#[derive(Drop)]
pub struct Found {
    pub first: Option<Broken>,
    pub checked: Option<Checked>,
}

// The scope of the main program's statements.
fn scope_of_main<'a>(common: Common<'a>, own: &'a Table) -> Scope<'a>
    ensures { result ≡ completed (map interface_seen common.entry.interfaces.now) common.entry.constants.now (record (main_scope common.entry.outside.now [] []) { own = own.now }) }
{
    Scope {
        own,
        pending: None,
        answer: None,
        host: None,
        outside: common.outside,
        interfaces: common.interfaces,
        constants: common.constants,
    }
}

// The main program's statements.
fn judge_main(
    alloc: Global,
    common: Common<'_>,
    own: &Table,
    program: &Program,
) -> Result<Judged, NoMemory>
    ensures { IfOk result (λ j. seen j ≡ begun (map interface_seen common.entry.interfaces.now) common.entry.constants.now (record (main_scope common.entry.outside.now [] []) { own = own.now }) (program_seen program.now)) }
{
    let mut units = Gone {
        first: None,
        counts: Counts {
            criticals: 0,
            literals: Vec::new(alloc),
        },
        procedures: Some(Vec::new(alloc)),
    };
    let scope = scope_of_main(common, own);
    let position = position_in(&scope, &units.counts)?;
    let statements = program.body.statements.as_slice();
    let main = judge_unit(alloc, &mut units.first, own, position, statements)?;
    count(&mut units.counts, statements)?;
    Ok(Judged { main, units })
}

// The statements of all units.
fn judge_all(
    alloc: Global,
    common: Common<'_>,
    own: &Table,
    tables: &[Table],
    program: &Program,
) -> Result<Judged, NoMemory>
    requires tables { length tables.now ≡ length (procedures_of (program_seen program.now)) }
    requires interfaces { length common.interfaces.now ≡ length (procedures_of (program_seen program.now)) }
    ensures { IfOk result (λ j. seen j ≡ with_procedures (map interface_seen common.entry.interfaces.now) common.entry.constants.now (procedures_of (program_seen program.now)) (map (owning (closing (main_scope common.entry.outside.now [] []) own.now)) tables.now) (begun (map interface_seen common.entry.interfaces.now) common.entry.constants.now (record (main_scope common.entry.outside.now [] []) { own = own.now }) (program_seen program.now))) }
{
    let mut judged = judge_main(alloc, common, own, program)?;
    judge_each(
        alloc,
        common,
        own,
        &mut judged.units,
        procedures_in(program),
        tables,
    )?;
    Ok(judged)
}

#[tactic(auto, using(scope_table::proofs::Sets::adds_one))]
fn add_name(names: &mut Names, entry: &Entry) -> Result<(), NoMemory>
    ensures { OnOk result (Adds names.new names.old (name_seen (entry_seen entry.now) ∷ [])) }
{
    names.add(name_of(entry).copy()?)?;
    Ok(())
}

fn names_in(alloc: Global, entries: &[Entry]) -> Result<Names, NoMemory>
    ensures { IfOk result (λ names. (n : List ℕ) → is_among names n ≡ is_among (map name_seen (map entry_seen entries.now)) n) }
{
    let mut names = Names::new(alloc);
    for next in entries {
        add_name(&mut names, next)?;
    }
    Ok(names)
}

// Rule 21: a procedure with the name of an earlier one, or of a name of the main program.
fn judge_names(
    alloc: Global,
    first: &mut Option<Broken>,
    own: &Table,
    program: &Program,
) -> Result<(), NoMemory>
    ensures { OnOk result (first.new ≡ first_of first.old (twice_breaks (map name_seen own.now) (headings_of (program_seen program.now)))) }
{
    let mut names = names_in(alloc, own.entries())?;
    judge_procedure_names(first, &mut names, procedures_in(program))?;
    Ok(())
}

// What a program breaks besides its statements; what its procedures and its declarations break was noted apart.
fn judge_rest(
    alloc: Global,
    first: &mut Option<Broken>,
    program: &Program,
    own: &Table,
    opened: Option<Broken>,
    declared: Option<Broken>,
) -> Result<(), NoMemory>
    ensures { OnOk result (first.new ≡ first_of (first_of (first_of (first_of (first_of (first_of first.old (uses_breaks (program_seen program.now).uses)) (twice_breaks (map name_seen own.now) (headings_of (program_seen program.now)))) (noted opened)) (limit_breaks (variables_of own.now))) (end_breaks (program_seen program.now).name (program_seen program.now).end.name)) (noted declared)) }
{
    judge_uses(first, program.uses.as_slice());
    judge_names(alloc, first, own, program)?;
    note_apart(first, opened);
    judge_limits(first, own);
    let name = program.name.as_ref();
    judge_end(first, name, &program.end.name);
    note_apart(first, declared);
    Ok(())
}

// The checked program of these units.
fn form(
    program: &Program,
    coarrays: Coarrays,
    constants: Vec<Constant>,
    counts: Counts,
    main: Unit,
    procedures: Vec<Procedure>,
) -> Checked
    ensures { typed.program result ≡ formed (program_seen program.now) coarrays constants.items (counted counts) (typed.unit main) (map typed.procedure procedures.items) }
{
    let Counts {
        criticals,
        literals,
    } = counts;
    Checked {
        main,
        end_line: program.end.at.line,
        procedures,
        coarrays,
        constants,
        literals,
        criticals,
    }
}

// What is found of a program with these scopes, whose statements gave this.
fn form_found(
    alloc: Global,
    program: &Program,
    scopes: Scopes,
    judged: Judged,
) -> Result<Found, NoMemory>
    ensures first { IfOk result (λ f. f.first ≡ (seen judged).units.first) }
    ensures checked { IfOk result (λ f. option_map typed.program f.checked ≡ both (formed (program_seen program.now) (coarray_numbers 0 (variables_of scopes.own)) scopes.procedures.grown.constants.items (seen judged).units.counted) (seen judged).main (seen judged).units.procedures) }
{
    let coarrays = number_coarrays(alloc, &scopes.own)?;
    let Scopes {
        own,
        procedures,
        ..
    } = scopes;
    drop(own);
    let Procedures {
        grown,
        tables,
        interfaces,
    } = procedures;
    drop(tables);
    drop(interfaces);
    let Grown { own, constants, .. } = grown;
    drop(own);
    let Judged { main, units } = judged;
    let Gone {
        first,
        counts,
        procedures,
    } = units;
    let checked = form_maybe(program, coarrays, constants, counts, main, procedures);
    Ok(Found { first, checked })
}

// The checked program of these units, where all have a meaning.
fn form_maybe(
    program: &Program,
    coarrays: Coarrays,
    constants: Vec<Constant>,
    counts: Counts,
    main: Option<Unit>,
    procedures: Option<Vec<Procedure>>,
) -> Option<Checked>
    ensures { option_map typed.program result ≡ both (formed (program_seen program.now) coarrays constants.items (counted counts)) (option_map typed.unit main) (option_map (map typed.procedure) (option_map list_of procedures)) }
{
    let Some(main) = main else {
        drop(procedures);
        return None;
    };
    let Some(procedures) = procedures else {
        drop(main);
        return None;
    };
    Some(form(program, coarrays, constants, counts, main, procedures))
}

// All that is judged of a program with these scopes; the rules that it breaks besides are noted behind those of its
// statements.
fn judge_scoped(
    alloc: Global,
    outside: &Outside<'_>,
    scopes: &Scopes,
    program: &Program,
) -> Result<Judged, NoMemory>
    requires tables { length scopes.now.procedures.tables.items ≡ length (procedures_of (program_seen program.now)) }
    requires interfaces { length scopes.now.procedures.interfaces.items ≡ length (procedures_of (program_seen program.now)) }
    ensures { IfOk result (λ j. seen j ≡ whole outside.now scopes.now (program_seen program.now)) }
{
    let procedures = &scopes.procedures;
    let common = Common {
        outside,
        interfaces: procedures.interfaces.as_slice(),
        constants: procedures.grown.constants.as_slice(),
    };
    let own = &scopes.own;
    let tables = procedures.tables.as_slice();
    let mut judged = judge_all(alloc, common, own, tables, program)?;
    judge_rest(
        alloc,
        &mut judged.units.first,
        program,
        own,
        procedures.grown.first,
        scopes.first,
    )?;
    Ok(judged)
}

/// What is found of a program: the first of the rules that it breaks, and where it breaks none, what it stands for.
pub fn judge_program(alloc: Global, program: &Program) -> Result<Found, NoMemory>
    ensures first { IfOk result (λ f. f.first ≡ first_of None (program_judged (program_seen program.now)).breaks) }
    ensures checked { IfOk result (λ f. f.first ≡ None → option_map typed.program f.checked ≡ (program_judged (program_seen program.now)).meaning) }
{
    let outside = Outside::of(alloc, program.uses.as_slice(), procedures_in(program))?;
    let interfaces = find_interfaces(alloc, &outside, program)?;
    let scopes = read_scopes(alloc, &outside, interfaces.as_slice(), program)?;
    let judged = judge_scoped(alloc, &outside, &scopes, program)?;
    let found = form_found(alloc, program, scopes, judged)?;
    Ok(found)
}
