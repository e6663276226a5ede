//! What words ask.

use smk_base::{Amount, List, OutOfMemory, Pair, PathText, Text};
use smk_pick::Force;

/// The words of a run or of a listing.
#[derive(Drop)]
pub struct RunWords {
    /// What is to be made: names of rules and paths, in the order of the command line.
    pub targets: List<Text>,
    /// How many cores its jobs may use together, 1 to 4096.
    pub cores: u64,
    /// The file of the workflow, where one is named.
    pub file: Option<PathText>,
    /// What is set in the configuration, in the order of the command line.
    pub sets: List<Pair>,
    /// How much of each resource its jobs may use together.
    pub bounds: List<Amount>,
    /// Whether the lock is neither heeded nor taken.
    pub nolock: bool,
    /// Whether other jobs go on after one has failed.
    pub keep_going: bool,
    /// Whether jobs that were left unfinished run again.
    pub rerun_incomplete: bool,
    /// Which jobs run whatever their records say.
    pub force: Force,
}

/// What is asked of a call.
#[derive(Drop)]
pub enum Asked {
    /// A run.
    Run(RunWords),
    /// The listing of what a run would do.
    Preview(RunWords),
    /// That the lock goes.
    Unlock,
    /// That what is kept of these paths goes.
    Forget { paths: List<PathText>, nolock: bool },
    /// A workflow of so many samples that is made, run and edited in memory.
    Generate { seed: u64, size: u64 },
}

/// Why words ask nothing.
#[derive(Clone, Copy, PartialEq, Eq)]
pub enum WordsFault {
    /// The words have no form that is read.
    BadWords,
    /// The words ask for a run and don't say on how many cores.
    NoCores,
    /// A growth found no memory.
    OutOfMemory,
}

impl From<OutOfMemory> for WordsFault {
    ghost use Rattle.std.specs.Prelude.{◌≡◌};
    ghost use Rattle.smk_words_reading.specs.declared.asked.WordsFault.TheVariants.{OutOfMemory};

    ghost from_gives = { λ _ fault. fault ≡ OutOfMemory };

    fn from(_: OutOfMemory) -> WordsFault {
        WordsFault::OutOfMemory
    }
}
