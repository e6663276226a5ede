use smk_base::{OutOfMemory, Text};
use std::alloc::AllocFailed;

/// Why rules make no workflow. A rule's file and line are those of its statement.
#[derive(Drop)]
pub enum FlowFault {
    /// The name was used above.
    DoubledRule {
        file: Text,
        line: u64,
        name: Text,
    },
    /// A text isn't written as a pattern.
    BadPattern {
        file: Text,
        line: u64,
        text: Text,
    },
    /// The constraint of this name is none.
    BadConstraint {
        file: Text,
        line: u64,
        name: Text,
    },
    /// The outputs and logs don't all have the same wildcards.
    UnequalWildcards {
        file: Text,
        line: u64,
        rule: Text,
    },
    /// A wildcard stands in the rule that its outputs don't have.
    UnknownWildcard {
        file: Text,
        line: u64,
        rule: Text,
        name: Text,
    },
    /// A flag stands where it may not.
    BadFlag {
        file: Text,
        line: u64,
        rule: Text,
        word: Text,
    },
    /// A clause names a rule that there isn't.
    UnknownName {
        file: Text,
        line: u64,
        name: Text,
    },
    /// Two clauses have these two both ways round, or one clause has a name twice.
    ContradictoryOrder {
        a: Text,
        b: Text,
    },
    OutOfMemory,
}

/// Why a rule and a binding make no job.
#[derive(Drop)]
pub enum JobFault {
    /// An output, a log, an input or a gathered directory would be this text, which isn't a path.
    NotPath(Text),
    OutOfMemory,
}

/// Why words are no targets.
#[derive(Drop)]
pub enum TargetFault {
    /// This word is neither a rule nor a path, or names a rule that has wildcards, or one that has a command and no outputs.
    BadTarget(Text),
    OutOfMemory,
}

impl From<OutOfMemory> for FlowFault {
    ghost use Rattle.std.specs.Prelude.{◌≡◌};
    ghost use Rattle.smk_flow.specs.declared.fault.FlowFault.{FlowFault};

    ghost from_gives = { λ _ fault. fault ≡ FlowFault.OutOfMemory };

    fn from(_: OutOfMemory) -> FlowFault {
        FlowFault::OutOfMemory
    }
}

impl<T: Drop> From<AllocFailed<T>> for FlowFault {
    ghost use Rattle.std.specs.Prelude.{◌≡◌};
    ghost use Rattle.smk_flow.specs.declared.fault.FlowFault.{FlowFault};

    ghost from_gives = { λ _ fault. fault ≡ FlowFault.OutOfMemory };

    fn from(_: AllocFailed<T>) -> FlowFault {
        FlowFault::OutOfMemory
    }
}

impl From<OutOfMemory> for JobFault {
    ghost use Rattle.std.specs.Prelude.{◌≡◌};
    ghost use Rattle.smk_flow.specs.declared.fault.JobFault.{JobFault};

    ghost from_gives = { λ _ fault. fault ≡ JobFault.OutOfMemory };

    fn from(_: OutOfMemory) -> JobFault {
        JobFault::OutOfMemory
    }
}

impl<T: Drop> From<AllocFailed<T>> for JobFault {
    ghost use Rattle.std.specs.Prelude.{◌≡◌};
    ghost use Rattle.smk_flow.specs.declared.fault.JobFault.{JobFault};

    ghost from_gives = { λ _ fault. fault ≡ JobFault.OutOfMemory };

    fn from(_: AllocFailed<T>) -> JobFault {
        JobFault::OutOfMemory
    }
}

impl From<OutOfMemory> for TargetFault {
    ghost use Rattle.std.specs.Prelude.{◌≡◌};
    ghost use Rattle.smk_flow.specs.declared.fault.TargetFault.{TargetFault};

    ghost from_gives = { λ _ fault. fault ≡ TargetFault.OutOfMemory };

    fn from(_: OutOfMemory) -> TargetFault {
        TargetFault::OutOfMemory
    }
}

impl<T: Drop> From<AllocFailed<T>> for TargetFault {
    ghost use Rattle.std.specs.Prelude.{◌≡◌};
    ghost use Rattle.smk_flow.specs.declared.fault.TargetFault.{TargetFault};

    ghost from_gives = { λ _ fault. fault ≡ TargetFault.OutOfMemory };

    fn from(_: AllocFailed<T>) -> TargetFault {
        TargetFault::OutOfMemory
    }
}
