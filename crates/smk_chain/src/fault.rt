use smk_base::{OutOfMemory, PathText, Text};
use std::alloc::{AllocError, AllocFailed};

/// Why the sources couldn't be looked at.
#[derive(Drop)]
pub enum SightFault {
    /// There would be so many paths, more than 100,000, to look at.
    TooManyPaths(u64),
    /// The device failed.
    Device,
    OutOfMemory,
}

/// Why targets call for no jobs.
#[derive(Drop)]
pub enum ChainFault {
    /// No rule has the path as an output.
    NoRule {
        path: PathText,
    },
    /// The first rule that has it wants this, which can't be made.
    NoInput {
        path: PathText,
        rule: Text,
        wanted: Text,
    },
    /// Neither of these rules is preferred.
    Ambiguous {
        path: PathText,
        a: Text,
        b: Text,
    },
    /// A chain of more than 200 jobs leads from this target.
    Deep {
        path: PathText,
    },
    /// The two overlap.
    Clash {
        path: PathText,
        other: PathText,
    },
    /// Its directory is known, and doesn't have it.
    MissingMember {
        path: PathText,
    },
    /// The rule has no command.
    NoCommand {
        rule: Text,
    },
    OutOfMemory,
}

impl From<OutOfMemory> for ChainFault {
    ghost use Rattle.std.specs.Prelude.{◌≡◌};
    ghost use Rattle.smk_chain.specs.declared.fault.ChainFault.TheVariants.{OutOfMemory};

    ghost from_gives = { λ _ fault. fault ≡ OutOfMemory };

    fn from(_: OutOfMemory) -> ChainFault {
        ChainFault::OutOfMemory
    }
}

impl From<AllocError> for ChainFault {
    ghost use Rattle.std.specs.Prelude.{◌≡◌};
    ghost use Rattle.smk_chain.specs.declared.fault.ChainFault.TheVariants.{OutOfMemory};

    ghost from_gives = { λ _ fault. fault ≡ OutOfMemory };

    fn from(_: AllocError) -> ChainFault {
        ChainFault::OutOfMemory
    }
}

impl<T: Drop> From<AllocFailed<T>> for ChainFault {
    ghost use Rattle.std.specs.Prelude.{◌≡◌};
    ghost use Rattle.smk_chain.specs.declared.fault.ChainFault.TheVariants.{OutOfMemory};

    ghost from_gives = { λ _ fault. fault ≡ OutOfMemory };

    fn from(_: AllocFailed<T>) -> ChainFault {
        ChainFault::OutOfMemory
    }
}
