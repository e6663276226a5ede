//! What is told of jobs at a moment.

use smk_base::List;
use smk_trigger::State;

/// Whether a job has reasons of its own: besides the inputs whose job is Dirty, so far as that is known.
#[derive(Clone, Copy)]
pub enum Own {
    Unknown,
    No,
    Yes,
}

/// What is told of the jobs of a plan at a moment, lent by who keeps it: what of theirs is whole, and whether they have reasons of their own.
#[derive(Clone, Copy)]
pub struct Rows<'r> {
    /// For each job, for each of its outputs in order: whether it is whole.
    pub outputs: &'r [List<bool>],
    /// For each maker: whether its path is whole, as an output of the job that makes it or as a file of its directory. False for a source.
    pub makers: &'r [bool],
    /// For each job whether it has reasons of its own, Forced among them.
    pub own: &'r [Own],
    /// For each job the state that it had when it began, if its child runs.
    pub running: &'r [Option<State>],
}
