/// How far a job has come in this run.
#[derive(Clone, Copy, PartialEq, Eq)]
pub enum Phase {
    /// It hasn't begun.
    Waiting,
    /// Its child runs.
    Running,
    /// It was finished or abandoned.
    Closed,
}
