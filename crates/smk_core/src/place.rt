//! Where a job stands in line.

/// Stands where there is no number of a job.
pub(crate) const NONE: u32 = u32::MAX;

/// Which line, and at which place of it.
#[derive(Clone, Copy)]
pub(crate) struct Place {
    pub(crate) line: usize,
    pub(crate) at: usize,
}

/// The jobs that ask for the same: the first of them, and how many they are.
#[derive(Clone, Copy)]
pub(crate) struct Kind {
    pub(crate) first: usize,
    pub(crate) size: usize,
}
