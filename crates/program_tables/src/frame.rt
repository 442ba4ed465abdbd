//! How the frame of the main program begins.

ghost use Rattle.std.specs.Prelude.{◌≡◌, map, IfOk};
ghost use Rattle.checked_tree.specs.StatementViews as view;
ghost use Rattle.tree_meaning.specs.Configured.{local_of};
ghost use Rattle.tree_meaning.specs.Start as start;
ghost use Rattle.program_tables.specs.Tables as tables;

use crate::coarray::narrow;
use caf_base::listing::Listing;
use caf_base::place::ImageNo;
use caf_base::refusal::NoMemory;
use checked_tree::program::Checked;
use image_code::tables::{FirstArray, MainFrame};
use std::alloc::Global;
use tree_meaning::start::{LocalArray, TreeConfig, first};

/// The frame as it is at the start of each image.
#[tactic(auto, using(crate::proofs::Kept::frame_started))]
pub fn main_frame(alloc: Global, checked: &Checked) -> Result<MainFrame, NoMemory>
    ensures { IfOk result (λ m. m ≡ tables.kept_frame (start.first_frame (view.program checked.now))) }
{
    let config = first(alloc, checked, ImageNo(1), 1)?;
    let frame = frame_of(alloc, &config);
    drop(config);
    frame
}

// The frame of such a start.
fn frame_of(alloc: Global, config: &TreeConfig) -> Result<MainFrame, NoMemory>
    ensures { IfOk result (λ m. m ≡ record { cells = config.now.cells; arrays = map tables.kept_array (map local_of config.now.arrays.items); need = config.now.local_cells }) }
{
    let need = narrow(config.local_cells)?;
    let arrays = first_arrays(alloc, config.arrays.as_slice())?;
    let cells = config.cells.copy()?;
    Ok(MainFrame {
        cells,
        arrays,
        need,
    })
}

fn first_arrays(
    alloc: Global,
    arrays: &[Option<LocalArray>],
) -> Result<Listing<Option<FirstArray>>, NoMemory>
    ensures { IfOk result (λ all. all ≡ map tables.kept_array (map local_of arrays.now)) }
{
    let mut all = Vec::new(alloc);
    for array in arrays {
        all.push(first_array(alloc, array)?)?;
    }
    Ok(Listing::from_vec(all))
}

fn first_array(alloc: Global, array: &Option<LocalArray>) -> Result<Option<FirstArray>, NoMemory>
    ensures { IfOk result (λ x. x ≡ tables.kept_array (local_of array.now)) }
{
    let Some(array) = array else {
        return Ok(None);
    };
    let elements = array.elements.copy()?;
    let bounds = Listing::from_slice(alloc, array.bounds.as_slice())?;
    Ok(Some(FirstArray { bounds, elements }))
}
