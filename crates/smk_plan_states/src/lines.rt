//! What is told of each job by numbers.

use smk_base::{List, PathText};

/// A path that a job reads.
#[derive(Drop)]
pub struct Input {
    pub path: PathText,
    /// The number of the first maker that tells of the path. None where none does.
    pub link: Option<usize>,
    /// An earlier input of the job has the same path.
    pub again: bool,
    /// Another job than the reader, one with an output to be named by, is told to make it.
    pub other: bool,
}

/// A directory that a job gathers from.
#[derive(Clone, Copy)]
pub struct Gathered {
    /// The number of the first maker that tells of it. None where none does.
    pub link: Option<usize>,
    /// Its files are known.
    pub listed: bool,
}

/// An output of a job.
#[derive(Clone, Copy)]
pub struct Output {
    /// The number of the first maker that tells of the path. None where none does.
    pub link: Option<usize>,
    /// Where it isn't whole it is wanted back, whatever jobs are to run.
    pub wanted: bool,
}

/// An output that is flagged `temp`.
#[derive(Clone, Copy)]
pub struct Temp {
    /// The number of the first maker that tells of the path. None where none does.
    pub link: Option<usize>,
    /// It is a target.
    pub target: bool,
}

/// A job: its inputs, the directories that it gathers from, its outputs and those of them that are flagged `temp`, each in the order in which the job has them.
#[derive(Drop)]
pub struct Line {
    pub inputs: List<Input>,
    pub gathers: List<Gathered>,
    pub outputs: List<Output>,
    pub temps: List<Temp>,
    /// One of its outputs is an awaited directory.
    pub feeds: bool,
}

/// What makes the path of a maker.
#[derive(Clone, Copy)]
pub struct Origin {
    /// The number of the job. None for a source.
    pub job: Option<u32>,
    /// The place, among the outputs of the job, of the directory that has the path under it. None where it is no member of one.
    pub over: Option<usize>,
}

/// A target.
#[derive(Clone, Copy)]
pub struct Target {
    /// The number of the first maker that tells of the path. None where none does.
    pub link: Option<usize>,
    /// Some maker tells of the path as a source.
    pub source: bool,
}

/// A directory that jobs await, or of which a target is a member.
#[derive(Drop)]
pub struct Awaited {
    pub path: PathText,
    /// The number of a maker: that of the directory itself, or of a member of it. None where nothing tells of the directory.
    pub link: Option<usize>,
    /// The maker tells of a member.
    pub over: bool,
    /// Its files are known.
    pub listed: bool,
}
