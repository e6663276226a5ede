//! How a job stands.

/// How a job stands.
#[derive(Clone, Copy, PartialEq, Eq)]
pub enum Phase {
    /// It hasn't begun.
    Waiting,
    Running,
    /// Its command has ended well.
    Done,
    Failed,
}
