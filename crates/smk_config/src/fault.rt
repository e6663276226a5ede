//! Why a configuration can't be used.

use smk_base::OutOfMemory;
use std::alloc::{AllocError, AllocFailed};

/// Why a configuration wasn't read, or has no such value.
#[derive(Clone, Copy, PartialEq, Eq)]
pub enum ConfigFault {
    /// The file is no JSON object; or the value is neither a text, a whole number of 64 bits, a truth value, nor a list of these.
    BadConfig,
    /// A key is missing.
    NoKey,
    /// There is no memory for the value.
    OutOfMemory,
}

impl From<OutOfMemory> for ConfigFault {
    ghost use Rattle.std.specs.Prelude.{◌≡◌};
    ghost use Rattle.smk_config.specs.declared.fault.ConfigFault.{ConfigFault};

    ghost from_gives = { λ _ fault. fault ≡ ConfigFault.OutOfMemory };

    fn from(_: OutOfMemory) -> ConfigFault {
        ConfigFault::OutOfMemory
    }
}

impl From<AllocError> for ConfigFault {
    ghost use Rattle.std.specs.Prelude.{◌≡◌};
    ghost use Rattle.smk_config.specs.declared.fault.ConfigFault.{ConfigFault};

    ghost from_gives = { λ _ fault. fault ≡ ConfigFault.OutOfMemory };

    fn from(_: AllocError) -> ConfigFault {
        ConfigFault::OutOfMemory
    }
}

impl<T: Drop> From<AllocFailed<T>> for ConfigFault {
    ghost use Rattle.std.specs.Prelude.{◌≡◌};
    ghost use Rattle.smk_config.specs.declared.fault.ConfigFault.{ConfigFault};

    ghost from_gives = { λ _ fault. fault ≡ ConfigFault.OutOfMemory };

    fn from(_: AllocFailed<T>) -> ConfigFault {
        ConfigFault::OutOfMemory
    }
}
