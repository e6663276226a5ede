use smk_base::{OutOfMemory, PathText};
use smk_world::Failed;

/// Why a job doesn't begin.
#[derive(Clone, Copy, PartialEq, Eq)]
pub enum BeginFault {
    /// A record of the job would have so many bytes without its members, which is more than 1,048,576.
    TooLong(u64),
    /// The device failed.
    Device,
    OutOfMemory,
}

impl From<OutOfMemory> for BeginFault {
    ghost use Rattle.std.specs.Prelude.{◌≡◌};
    ghost use Rattle.smk_job.specs.declared.fault.BeginFault.TheVariants.{OutOfMemory};

    ghost from_gives = { λ _ fault. fault ≡ OutOfMemory };

    fn from(_: OutOfMemory) -> Self {
        BeginFault::OutOfMemory
    }
}

impl From<Failed> for BeginFault {
    ghost use Rattle.std.specs.Prelude.{◌≡◌};
    ghost use Rattle.smk_job.specs.declared.fault.BeginFault.TheVariants.{Device};

    ghost from_gives = { λ _ fault. fault ≡ Device };

    fn from(_: Failed) -> Self {
        BeginFault::Device
    }
}

/// Why a job isn't done, though its command ended with status 0.
#[derive(Drop)]
pub enum CloseFault {
    /// Nothing stands at this output.
    NoOutput(PathText),
    /// A folder stands at this output, which is to be a file; or a file, where it is to be a directory.
    WrongKind(PathText),
    /// In this directory stands what a record can't tell: a name that is no text or no path, or more than 20,000 names.
    BadMember(PathText),
    /// The device failed.
    Device,
    OutOfMemory,
}
