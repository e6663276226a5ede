use smk_report::Fault;

/// Why the lock wasn't removed, or that wasn't told.
#[derive(Clone, Copy, PartialEq, Eq)]
pub enum UnlockFault {
    /// A call of the device failed, and none came after it.
    Device,
    /// The line couldn't be put.
    Output,
    OutOfMemory,
}

impl From<UnlockFault> for Fault {
    ghost use Rattle.std.specs.Prelude.{◌≡◌};
    ghost use Rattle.smk_keep_lock.specs.Unlocking.{of_unlock};

    ghost from_gives = { λ unlock fault. fault ≡ of_unlock unlock };

    fn from(fault: UnlockFault) -> Fault {
        match fault {
            UnlockFault::Device => Fault::Device,
            UnlockFault::Output => Fault::Output,
            UnlockFault::OutOfMemory => Fault::OutOfMemory,
        }
    }
}
