use smk_base::{List, PathText, Text};

/// Why the outputs couldn't be looked at.
#[derive(Drop)]
pub enum LookFault {
    /// The device failed.
    Device,
    OutOfMemory,
}

/// Why a plan is refused.
#[derive(Drop)]
pub enum PlanFault {
    /// These outputs are marked: their jobs weren't finished.
    Incomplete {
        paths: List<PathText>,
    },
    /// A read-only file stands at or under this output of a job that is to run.
    Protected {
        path: PathText,
    },
    /// A job of the rule with this number, which makes this path first, asks more of a resource than its bound.
    AboveLimit {
        rule: u32,
        path: PathText,
        name: Text,
        asked: u64,
        bound: u64,
    },
    OutOfMemory,
}
