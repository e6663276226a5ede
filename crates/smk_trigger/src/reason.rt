use crate::shared::Reasons;
use smk_base::PathText;

/// Why a job has to run.
#[derive(Drop)]
pub enum Reason {
    /// An output has no record.
    New,
    /// An output has a mark.
    Marked,
    /// A record doesn't read, or the records of the outputs differ.
    BadRecord,
    /// The command or the outputs differ from the recorded ones.
    Code,
    /// The wildcards or params differ.
    Params,
    /// The inputs differ, or their order or names.
    Inputs,
    /// This input has a stamp with which the recorded one doesn't agree.
    Updated(PathText),
    /// The job of this input has to run.
    Upstream(PathText),
    Forced,
}

/// What a job of a plan is.
#[derive(Drop)]
pub enum State {
    /// Its inputs aren't known yet.
    Open,
    /// It has to run.
    Dirty(Reasons),
    /// Something that it made is gone and wanted back.
    Restore,
    Clean,
}
