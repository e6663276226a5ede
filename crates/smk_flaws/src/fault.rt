//! Faults of reading, each made of those below.

use crate::flaw::{FileFlaw, Flaw, SaidFlaw};
use smk_base::OutOfMemory;
use smk_flow::FlowFault;
use std::alloc::{AllocError, AllocFailed};

/// Why files aren't read.
#[derive(Drop)]
pub enum FileFault {
    /// A file is wrong.
    Flawed(FileFlaw),
    /// A call of the device failed.
    Device,
    /// There is no memory for what was read.
    OutOfMemory,
}

/// Why files say no workflow.
#[derive(Drop)]
pub enum EvalFault {
    /// What they say is wrong.
    Flawed(SaidFlaw),
    /// There is no memory for the workflow.
    OutOfMemory,
}

/// Why a working folder has no workflow.
#[derive(Drop)]
pub enum LoadFault {
    /// Its workflow is wrong.
    Flawed(Flaw),
    /// A call of the device failed.
    Device,
    /// There is no memory for the workflow.
    OutOfMemory,
}

impl From<OutOfMemory> for FileFault {
    ghost use Rattle.std.specs.Prelude.{◌≡◌};
    ghost use Rattle.smk_flaws.specs.declared.fault.FileFault.TheVariants.{OutOfMemory};

    ghost from_gives = { λ _ fault. fault ≡ OutOfMemory };

    fn from(_: OutOfMemory) -> FileFault {
        FileFault::OutOfMemory
    }
}

impl From<AllocError> for FileFault {
    ghost use Rattle.std.specs.Prelude.{◌≡◌};
    ghost use Rattle.smk_flaws.specs.declared.fault.FileFault.TheVariants.{OutOfMemory};

    ghost from_gives = { λ _ fault. fault ≡ OutOfMemory };

    fn from(_: AllocError) -> FileFault {
        FileFault::OutOfMemory
    }
}

impl From<OutOfMemory> for EvalFault {
    ghost use Rattle.std.specs.Prelude.{◌≡◌};
    ghost use Rattle.smk_flaws.specs.declared.fault.EvalFault.TheVariants.{OutOfMemory};

    ghost from_gives = { λ _ fault. fault ≡ OutOfMemory };

    fn from(_: OutOfMemory) -> EvalFault {
        EvalFault::OutOfMemory
    }
}

impl From<AllocError> for EvalFault {
    ghost use Rattle.std.specs.Prelude.{◌≡◌};
    ghost use Rattle.smk_flaws.specs.declared.fault.EvalFault.TheVariants.{OutOfMemory};

    ghost from_gives = { λ _ fault. fault ≡ OutOfMemory };

    fn from(_: AllocError) -> EvalFault {
        EvalFault::OutOfMemory
    }
}

impl<T: Drop> From<AllocFailed<T>> for EvalFault {
    ghost use Rattle.std.specs.Prelude.{◌≡◌};
    ghost use Rattle.smk_flaws.specs.declared.fault.EvalFault.TheVariants.{OutOfMemory};

    ghost from_gives = { λ _ fault. fault ≡ OutOfMemory };

    fn from(_: AllocFailed<T>) -> EvalFault {
        EvalFault::OutOfMemory
    }
}

impl From<FlowFault> for EvalFault {
    ghost use Rattle.std.specs.Prelude.{◌≡◌};
    ghost use Rattle.smk_flaws.specs.Faults.{of_flow};

    ghost from_gives = { λ flow fault. fault ≡ of_flow flow };

    fn from(fault: FlowFault) -> EvalFault {
        match fault {
            FlowFault::OutOfMemory => EvalFault::OutOfMemory,
            flaw => EvalFault::Flawed(SaidFlaw::Rules(flaw)),
        }
    }
}

impl From<OutOfMemory> for LoadFault {
    ghost use Rattle.std.specs.Prelude.{◌≡◌};
    ghost use Rattle.smk_flaws.specs.declared.fault.LoadFault.TheVariants.{OutOfMemory};

    ghost from_gives = { λ _ fault. fault ≡ OutOfMemory };

    fn from(_: OutOfMemory) -> LoadFault {
        LoadFault::OutOfMemory
    }
}

impl From<AllocError> for LoadFault {
    ghost use Rattle.std.specs.Prelude.{◌≡◌};
    ghost use Rattle.smk_flaws.specs.declared.fault.LoadFault.TheVariants.{OutOfMemory};

    ghost from_gives = { λ _ fault. fault ≡ OutOfMemory };

    fn from(_: AllocError) -> LoadFault {
        LoadFault::OutOfMemory
    }
}

impl From<FileFault> for LoadFault {
    ghost use Rattle.std.specs.Prelude.{◌≡◌};
    ghost use Rattle.smk_flaws.specs.Faults.{of_file};

    ghost from_gives = { λ file fault. fault ≡ of_file file };

    fn from(fault: FileFault) -> LoadFault {
        match fault {
            FileFault::Flawed(flaw) => LoadFault::Flawed(Flaw::File(flaw)),
            FileFault::Device => LoadFault::Device,
            FileFault::OutOfMemory => LoadFault::OutOfMemory,
        }
    }
}

impl From<EvalFault> for LoadFault {
    ghost use Rattle.std.specs.Prelude.{◌≡◌};
    ghost use Rattle.smk_flaws.specs.Faults.{of_eval};

    ghost from_gives = { λ said fault. fault ≡ of_eval said };

    fn from(fault: EvalFault) -> LoadFault {
        match fault {
            EvalFault::Flawed(flaw) => LoadFault::Flawed(Flaw::Said(flaw)),
            EvalFault::OutOfMemory => LoadFault::OutOfMemory,
        }
    }
}
