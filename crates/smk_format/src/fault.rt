//! Faults.

use smk_base::{OutOfMemory, Text};
use std::alloc::AllocError;

/// Why a job has no command.
#[derive(Drop)]
pub enum FormatFault {
    /// The field, as it is written, has no value; or the brace belongs to none.
    UnknownField(Text),
    /// The text has so many bytes, which are more than 120,000; or it has NUL, and this is 0.
    TooLong(u64),
    /// There is no memory for the text.
    OutOfMemory,
}

impl From<OutOfMemory> for FormatFault {
    ghost use Rattle.std.specs.Prelude.{◌≡◌};
    ghost use Rattle.smk_format.specs.declared.fault.FormatFault.{FormatFault};

    ghost from_gives = { λ _ fault. fault ≡ FormatFault.OutOfMemory };

    fn from(_: OutOfMemory) -> FormatFault {
        FormatFault::OutOfMemory
    }
}

impl From<AllocError> for FormatFault {
    ghost use Rattle.std.specs.Prelude.{◌≡◌};
    ghost use Rattle.smk_format.specs.declared.fault.FormatFault.{FormatFault};

    ghost from_gives = { λ _ fault. fault ≡ FormatFault.OutOfMemory };

    fn from(_: AllocError) -> FormatFault {
        FormatFault::OutOfMemory
    }
}
