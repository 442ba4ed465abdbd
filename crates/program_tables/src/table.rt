//! An empty draft of code with the tables of a program.

ghost use Rattle.std.specs.Prelude.{◌≡◌, ◌++◌, [], map, List, ℕ, IfOk, OnOk};
ghost use Rattle.checked_tree.specs.StatementViews as view;
ghost use Rattle.program_tables.specs.Tables as tables;

use crate::coarray::coarray_at;
use crate::frame::main_frame;
use caf_base::listing::Text;
use caf_base::refusal::NoMemory;
use checked_tree::data::Variable;
use checked_tree::program::Checked;
use image_code::code::CodeDraft;
use std::alloc::Global;

/// An empty draft with the literals, the coarrays and the main program's frame of a program.
pub fn begin_code(alloc: Global, checked: &Checked) -> Result<CodeDraft, NoMemory>
    ensures { IfOk result (λ d. d ≡ record { steps = []; lines = []; tables = tables.tables_of (view.program checked.now) }) }
{
    let main = main_frame(alloc, checked)?;
    let mut code = CodeDraft::new(alloc)?;
    code.set_main(main);
    add_texts(&mut code, checked.literals.as_slice())?;
    add_coarrays(
        alloc,
        &mut code,
        checked.main.variables.as_slice(),
        checked.coarrays.as_slice(),
    )?;
    Ok(code)
}

// Puts literals behind those that are there.
fn add_texts(code: &mut CodeDraft, literals: &[Text]) -> Result<(), NoMemory>
    ensures { OnOk result (code.new ≡ record code.old { tables = record code.old.tables { texts = code.old.tables.texts ++ literals.now } }) }
{
    for literal in literals {
        code.add_text(literal.copy()?)?;
    }
    Ok(())
}

// Puts the coarrays that are the variables with these numbers behind those that are there.
fn add_coarrays(
    alloc: Global,
    code: &mut CodeDraft,
    variables: &[Variable],
    numbers: &[u32],
) -> Result<(), NoMemory>
    ensures { OnOk result (code.new ≡ record code.old { tables = record code.old.tables { coarrays = code.old.tables.coarrays ++ map (tables.coarray_at variables.now) numbers.now } }) }
{
    for number in numbers {
        code.add_coarray(coarray_at(alloc, variables, *number)?)?;
    }
    Ok(())
}
