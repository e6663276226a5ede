use smk_base::{OutOfMemory, PathText};
use smk_world::Failed;

/// Why a job isn't begun, or isn't closed and reported.
#[derive(Drop)]
pub enum Stop {
    /// A record of the job would have so many bytes without its members, which is more than 1,048,576.
    TooLong(u64),
    /// No file stands at this input, which was a source.
    Gone(PathText),
    /// The device failed.
    Device,
    /// The sink failed.
    Output,
    OutOfMemory,
}

impl From<OutOfMemory> for Stop {
    ghost use Rattle.std.specs.Prelude.{◌≡◌};
    ghost use Rattle.smk_run.specs.declared.stop.Stop.TheVariants.{OutOfMemory};

    ghost from_gives = { λ _ stop. stop ≡ OutOfMemory };

    fn from(_: OutOfMemory) -> Self {
        Stop::OutOfMemory
    }
}

impl From<Failed> for Stop {
    ghost use Rattle.std.specs.Prelude.{◌≡◌};
    ghost use Rattle.smk_run.specs.declared.stop.Stop.TheVariants.{Device};

    ghost from_gives = { λ _ stop. stop ≡ Device };

    fn from(_: Failed) -> Self {
        Stop::Device
    }
}
