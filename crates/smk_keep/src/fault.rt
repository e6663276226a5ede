use smk_base::OutOfMemory;
use smk_world::Failed;
use thiserror::Error;

/// Why outputs weren't protected or removed.
#[derive(Clone, Copy, Debug, PartialEq, Eq, Error)]
pub enum KeepFault {
    /// A call of the device failed, and none came after it.
    #[error("the device failed")]
    Device,
    /// There was no memory for the places, and no call was made.
    #[error("out of memory")]
    OutOfMemory,
}

impl From<Failed> for KeepFault {
    ghost use Rattle.std.specs.Prelude.{◌≡◌};
    ghost use Rattle.smk_keep.specs.declared.fault.KeepFault.TheVariants.{Device};

    ghost from_gives = { λ _ fault. fault ≡ Device };

    fn from(_: Failed) -> Self {
        KeepFault::Device
    }
}

impl From<OutOfMemory> for KeepFault {
    ghost use Rattle.std.specs.Prelude.{◌≡◌};
    ghost use Rattle.smk_keep.specs.declared.fault.KeepFault.TheVariants.{OutOfMemory};

    ghost from_gives = { λ _ fault. fault ≡ OutOfMemory };

    fn from(_: OutOfMemory) -> Self {
        KeepFault::OutOfMemory
    }
}
