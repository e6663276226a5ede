//! Faults, and the exit status of each.

ghost use Rattle.std.specs.Prelude.{◌≡◌};
ghost use Rattle.smk_report.specs.Faults.{fault_status};

use smk_base::{List, OutOfMemory, PathText, Text};
use smk_flaws::{Flaw, LoadFault};
use smk_store::StoreFault;

/// Why a call ended without being done.
#[derive(Drop)]
pub enum Fault {
    /// The workflow is wrong.
    Workflow(Flaw),
    /// No rule has the path as an output.
    NoRule {
        path: PathText,
    },
    /// The first rule that has the path wants something that can't be made.
    NoInput {
        path: PathText,
        rule: Text,
        wanted: Text,
    },
    /// Neither of these rules is preferred.
    Ambiguous {
        path: PathText,
        a: Text,
        b: Text,
    },
    /// A chain of more than 200 jobs leads from the target.
    Deep {
        path: PathText,
    },
    /// There would be more than 100,000 paths to look at.
    TooManyPaths {
        count: u64,
    },
    /// The two overlap.
    Clash {
        path: PathText,
        other: PathText,
    },
    /// Its directory is known, and doesn't have it.
    MissingMember {
        path: PathText,
    },
    /// The rule has no command.
    NoCommand {
        rule: Text,
    },
    /// The lock is there.
    Locked,
    /// A record holds the time that the file at this path has.
    StampSeen {
        path: PathText,
    },
    /// The greatest serial is the greatest u64.
    Serials,
    /// These outputs are marked: their jobs weren't finished.
    Incomplete {
        paths: List<PathText>,
    },
    /// A read-only file stands at or under this output of a job that is to run.
    Protected {
        path: PathText,
    },
    /// A job asks more of a resource than its bound.
    AboveLimit {
        rule: Text,
        path: PathText,
        name: Text,
        asked: u64,
        bound: u64,
    },
    /// A field of the rule's command has no value.
    UnknownField {
        rule: Text,
        word: Text,
    },
    /// A job's command has more than 120,000 bytes, or NUL and then none, or its record without members more than 1,048,576.
    TooLong {
        rule: Text,
        bytes: u64,
    },
    /// The job's command ended with this status.
    JobFailed {
        rule: Text,
        path: PathText,
        code: u32,
    },
    /// The job's command left no such output.
    NoOutput {
        rule: Text,
        path: PathText,
        missing: PathText,
    },
    /// The job's command left a file for a directory, or a directory for a file.
    WrongKind {
        rule: Text,
        path: PathText,
        wrong: PathText,
    },
    /// The command words aren't read.
    BadWords,
    /// A run has no `--cores`.
    NoCores,
    /// The word is no target.
    BadTarget {
        word: Text,
    },
    /// The job's command left a directory beyond the limits on its members.
    BadMember {
        rule: Text,
        path: PathText,
        bad: PathText,
    },
    /// A call of the device failed.
    Device,
    /// The report couldn't be put.
    Output,
    /// Want of memory.
    OutOfMemory,
}

impl From<OutOfMemory> for Fault {
    ghost use Rattle.std.specs.Prelude.{◌≡◌};
    ghost use Rattle.smk_report.specs.declared.fault.Fault.TheVariants.{OutOfMemory};

    ghost from_gives = { λ _ fault. fault ≡ OutOfMemory };

    fn from(_: OutOfMemory) -> Fault {
        Fault::OutOfMemory
    }
}

impl From<LoadFault> for Fault {
    ghost use Rattle.std.specs.Prelude.{◌≡◌};
    ghost use Rattle.smk_report.specs.Faults.{of_load};

    ghost from_gives = { λ load fault. fault ≡ of_load load };

    fn from(fault: LoadFault) -> Fault {
        match fault {
            LoadFault::Flawed(flaw) => Fault::Workflow(flaw),
            LoadFault::Device => Fault::Device,
            LoadFault::OutOfMemory => Fault::OutOfMemory,
        }
    }
}

impl From<StoreFault> for Fault {
    ghost use Rattle.std.specs.Prelude.{◌≡◌};
    ghost use Rattle.smk_report.specs.Faults.{of_store};

    ghost from_gives = { λ store fault. fault ≡ of_store store };

    fn from(fault: StoreFault) -> Fault {
        match fault {
            StoreFault::StampSeen(path) => Fault::StampSeen { path },
            StoreFault::Device => Fault::Device,
            StoreFault::OutOfMemory => Fault::OutOfMemory,
        }
    }
}

/// The exit status of a call that ends with the fault: 1 where a job failed, 2 for the words of the command line, 4 for the device, 5
/// for want of memory, 6 for the report, and 3 for every other refusal.
pub fn status_of(fault: &Fault) -> u8
    ensures { result ≡ fault_status fault.now }
{
    match fault {
        Fault::JobFailed { .. }
        | Fault::NoOutput { .. }
        | Fault::WrongKind { .. }
        | Fault::BadMember { .. } => 1,
        Fault::BadWords | Fault::NoCores => 2,
        Fault::Device => 4,
        Fault::OutOfMemory => 5,
        Fault::Output => 6,
        Fault::Workflow(_)
        | Fault::NoRule { .. }
        | Fault::NoInput { .. }
        | Fault::Ambiguous { .. }
        | Fault::Deep { .. }
        | Fault::TooManyPaths { .. }
        | Fault::Clash { .. }
        | Fault::MissingMember { .. }
        | Fault::NoCommand { .. }
        | Fault::Locked
        | Fault::StampSeen { .. }
        | Fault::Serials
        | Fault::Incomplete { .. }
        | Fault::Protected { .. }
        | Fault::AboveLimit { .. }
        | Fault::UnknownField { .. }
        | Fault::TooLong { .. }
        | Fault::BadTarget { .. } => 3,
    }
}
