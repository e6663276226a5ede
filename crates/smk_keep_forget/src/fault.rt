use smk_base::PathText;
use smk_report::Fault;
use smk_store::StoreFault;

/// Why not all paths were forgotten, or that wasn't told.
#[derive(Drop)]
pub enum ForgetFault {
    /// The lock stands.
    Locked,
    /// A record holds the time that the file at this path has.
    StampSeen(PathText),
    /// A call of the device failed, and none came after it.
    Device,
    /// A line couldn't be put.
    Output,
    OutOfMemory,
}

impl From<StoreFault> for ForgetFault {
    ghost use Rattle.std.specs.Prelude.{◌≡◌};
    ghost use Rattle.smk_keep_forget.specs.Answers.{of_store};

    ghost from_gives = { λ store fault. fault ≡ of_store store };

    fn from(fault: StoreFault) -> ForgetFault {
        match fault {
            StoreFault::StampSeen(path) => ForgetFault::StampSeen(path),
            StoreFault::Device => ForgetFault::Device,
            StoreFault::OutOfMemory => ForgetFault::OutOfMemory,
        }
    }
}

impl From<ForgetFault> for Fault {
    ghost use Rattle.std.specs.Prelude.{◌≡◌};
    ghost use Rattle.smk_keep_forget.specs.Answers.{of_forget};

    ghost from_gives = { λ forget fault. fault ≡ of_forget forget };

    fn from(fault: ForgetFault) -> Fault {
        match fault {
            ForgetFault::Locked => Fault::Locked,
            ForgetFault::StampSeen(path) => Fault::StampSeen { path },
            ForgetFault::Device => Fault::Device,
            ForgetFault::Output => Fault::Output,
            ForgetFault::OutOfMemory => Fault::OutOfMemory,
        }
    }
}
