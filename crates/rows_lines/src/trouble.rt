//! Why a case tells nothing.

use smk_base::{OutOfMemory, PathFault};
use smk_eval_values::ValueFault;
use smk_parse_expr::ParseFault;
use smk_store::StoreFault;
use smk_world::{Failed, WorkFault};
use std::alloc::{AllocError, AllocFailed};

/// Why a case tells nothing, which each is to do.
#[derive(Clone, Copy)]
pub enum Trouble {
    OutOfMemory,
    /// A call failed that was to go well.
    Device,
    /// A text is no path.
    BadPath,
    /// A source doesn't read.
    NoSyntax,
    /// An expression has no value.
    NoValue,
    /// The parts make no valid record.
    NoRecord,
    /// The job didn't begin.
    NotBegun,
    /// A child runs still.
    Running,
}

impl From<OutOfMemory> for Trouble {
    fn from(_: OutOfMemory) -> Self {
        Trouble::OutOfMemory
    }
}

impl From<AllocError> for Trouble {
    fn from(_: AllocError) -> Self {
        Trouble::OutOfMemory
    }
}

impl From<AllocFailed<String>> for Trouble {
    fn from(_: AllocFailed<String>) -> Self {
        Trouble::OutOfMemory
    }
}

impl From<Failed> for Trouble {
    fn from(_: Failed) -> Self {
        Trouble::Device
    }
}

impl From<WorkFault> for Trouble {
    fn from(fault: WorkFault) -> Self {
        match fault {
            WorkFault::Failed => Trouble::Device,
            WorkFault::OutOfMemory => Trouble::OutOfMemory,
        }
    }
}

impl From<PathFault> for Trouble {
    fn from(fault: PathFault) -> Self {
        match fault {
            PathFault::BadPath => Trouble::BadPath,
            PathFault::OutOfMemory => Trouble::OutOfMemory,
        }
    }
}

impl From<ParseFault> for Trouble {
    fn from(_: ParseFault) -> Self {
        Trouble::NoSyntax
    }
}

impl From<ValueFault> for Trouble {
    fn from(_: ValueFault) -> Self {
        Trouble::NoValue
    }
}

impl From<StoreFault> for Trouble {
    fn from(fault: StoreFault) -> Self {
        match fault {
            StoreFault::OutOfMemory => Trouble::OutOfMemory,
            StoreFault::StampSeen(_) | StoreFault::Device => Trouble::Device,
        }
    }
}

/// Its name.
pub(crate) fn word(trouble: Trouble) -> &'static str {
    match trouble {
        Trouble::OutOfMemory => "out of memory",
        Trouble::Device => "device",
        Trouble::BadPath => "no path",
        Trouble::NoSyntax => "no syntax",
        Trouble::NoValue => "no value",
        Trouble::NoRecord => "no record",
        Trouble::NotBegun => "not begun",
        Trouble::Running => "a child runs",
    }
}
