//! Paths by numbers, and the jobs that may make them.

use crate::Making;
use smk_base::{List, Text};

/// What a job wants: a path by its number, or a text that is no path.
#[derive(Drop)]
pub(crate) enum Want {
    Path(usize),
    NoPath(Text),
}

/// A job that may make a path, and what it wants.
#[derive(Drop)]
pub(crate) struct Way {
    pub(crate) making: Making,
    pub(crate) wants: List<Want>,
}

/// A path that is a source, or the jobs that may make it, in the order of preference that the file gives.
#[derive(Drop)]
pub(crate) struct Node {
    pub(crate) source: bool,
    pub(crate) ways: List<Way>,
}
