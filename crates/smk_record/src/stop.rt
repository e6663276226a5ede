use smk_base::OutOfMemory;

/// Why a value isn't read.
#[derive(Clone, Copy, PartialEq, Eq)]
pub(crate) enum Stop {
    /// The bytes spell none.
    Unread,
    OutOfMemory,
}

impl From<OutOfMemory> for Stop {
    ghost use Rattle.std.specs.Prelude.{◌≡◌};
    ghost use Rattle.smk_record.specs.declared.stop.Stop.TheVariants.{OutOfMemory};

    ghost from_gives = { λ _ e. e ≡ OutOfMemory };

    fn from(_: OutOfMemory) -> Self {
        Stop::OutOfMemory
    }
}
