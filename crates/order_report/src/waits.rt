//! What an ordered run leaves: the images that haven't ended; and the choices of its SEED.

ghost use Rattle.std.specs.Prelude.{◌≡◌, IfOk, length, map};
ghost use Rattle.image_core.specs.Parts.{AreNumbered};
ghost use Rattle.order_report.specs.Reports.{choices_of, AreHeld};

use caf_base::listing::Listing;
use caf_base::refusal::NoMemory;
use caf_events::walker::Walker;
use caf_report::report::Waiting;
use image_core::choices::Choices;
use image_core::parts::PartsOf;
use std::alloc::Global;

/// The images that haven't ended, in rising order, each with the ask and the line at which it stands.
pub(crate) fn held<M: Walker, O, B>(
    alloc: Global,
    parts: &PartsOf<M, O, B>,
) -> Result<Listing<Waiting>, NoMemory>
    requires { AreNumbered parts.now.images.items }
    ensures { IfOk result (AreHeld M.step (map (λ r. M.config r.machine) parts.now.images.items) (length parts.now.images.items)) }
{
    let mut held = Listing::new(alloc);
    for run in &parts.images {
        if let Some((line, ask)) = run.waiting()? {
            held.push(Waiting {
                image: run.image(),
                line,
                ask,
            })?;
        }
    }
    Ok(held)
}

/// The choices of the order of a SEED: the rotation for 0, else those of the generator from this state on.
pub(crate) fn choices_of_seed(seed: u32) -> Choices
    ensures { result ≡ choices_of seed }
{
    if seed == 0 {
        Choices::Rotate { last: 0 }
    } else {
        Choices::Seed { state: seed }
    }
}
