//! What a call asks of a source.

ghost use Rattle.std.specs.Prelude.{◌≡◌, ◌≤◌};
ghost use Rattle.caf_run.specs.Tasks as spec;

use caf_base::limits::RECORDED_WORDS;
use caf_base::listing::Listing;
use caf_words::command as words;
use caf_words::command::{FailAt, Goal, Options};
use checked_run::running::Told;
use full_report::way::Way;

/// What is to be done with a source.
#[derive(Drop)]
pub enum Task {
    /// To check it.
    Check,
    /// To check it, and then to run it as the options say, with these failures.
    Run {
        options: Options,
        fails: Listing<FailAt>,
    },
    /// To check it, and then to judge or replay a trace as one of a run as the options say, with these failures.
    Traced {
        goal: Goal,
        options: Options,
        fails: Listing<FailAt>,
    },
}

/// What a run is told: the images, the limit and the way of the options, and an image's share of the words that a run
/// records.
pub fn told_of(options: Options) -> Told
    requires { 1 ≤ options.images }
    ensures { result ≡ spec.told_of options }
{
    Told {
        images: options.images,
        limit: options.steps,
        words: RECORDED_WORDS / options.images,
        way: way_of(options.way, options.images),
    }
}

// How so many images take turns: of the workers there are no more than images.
fn way_of(way: words::Way, images: u32) -> Way
    ensures { result ≡ spec.way_of way images }
{
    match way {
        words::Way::Order(seed) => Way::Order(seed),
        words::Way::Workers(workers) => Way::Workers(workers.min(images)),
    }
}
