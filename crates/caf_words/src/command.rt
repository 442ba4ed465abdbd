//! What the words of the command line may mean.

use caf_base::listing::Listing;

/// What the words ask for.
#[derive(Drop)]
pub enum Command {
    /// To run a source, in which these images fail.
    Run {
        input: Input,
        fails: Listing<FailAt>,
        options: Options,
    },
    /// To judge a run by its trace, or to replay it: the run of the file in which these images fail.
    Traced {
        goal: Goal,
        places: Places,
        fails: Listing<FailAt>,
        options: Options,
    },
    /// To check the file whose name is this word, from 1.
    Check {
        word: u32,
    },
    /// To write the source that a seed, from 0 to 2147483647, and a size, from 1 to 4096, make.
    Make {
        seed: u32,
        size: u32,
    },
}

/// What a trace and a file are for.
#[derive(Clone, Copy)]
pub enum Goal {
    /// To judge whether the trace is that of a run of the file.
    Judge,
    /// To run the file in the order of the trace.
    Replay,
}

/// What a command with options does.
#[derive(Clone, Copy)]
pub enum Verb {
    /// To run a source.
    Run,
    /// To reach this goal with a trace and a file.
    Traced(Goal),
}

/// The words, from 1, that name the files of a trace and of a source.
#[derive(Clone, Copy)]
pub struct Places {
    pub trace: u32,
    pub file: u32,
}

/// Where the source comes from.
#[derive(Clone, Copy)]
pub enum Input {
    /// From the file whose name is this word, from 1.
    File { word: u32 },
    /// From a seed, from 0 to 2147483647, and a size, from 1 to 4096, which make it.
    Made { seed: u32, size: u32 },
}

/// How the images run.
#[derive(Clone, Copy)]
pub enum Way {
    /// In the order of this seed, from 0 to 2147483647.
    Order(u32),
    /// On this many workers at most, from 1 to 64.
    Workers(u32),
}

/// A failure: an image fails at an event of its own.
#[derive(Clone, Copy)]
pub struct FailAt {
    /// The image, from 1 to 256. Where a run has fewer images, nothing fails.
    pub image: u32,
    /// The number of the event, from 1 to 1,000,000. Of several failures of one image the earliest counts.
    pub step: u32,
}

/// What a command is told by its options. A judgement or a replay is told neither an order nor workers, so that its way
/// is the 4 workers that stand where the words don't say it, and has no summary.
#[derive(Clone, Copy)]
pub struct Options {
    /// How many images there are, from 1 to 256.
    pub images: u32,
    pub way: Way,
    /// How many statements an image executes at most, from 1 to 100,000,000.
    pub steps: u64,
    /// Whether the trace is shown.
    pub trace: bool,
    /// Whether the final values of variables are shown.
    pub vars: bool,
    /// Whether a run that is stuck is told why.
    pub why: bool,
    /// Whether it is told if the run speaks for every order of the images.
    pub every: bool,
    /// Whether the line that sums the run up is shown, as of a made source.
    pub summary: bool,
}
