/// What a run does with a job.
#[derive(Clone, Copy, PartialEq, Eq)]
pub enum Duty {
    /// Nothing: its records stand, with this serial.
    Rest(u64),
    /// It is run again, and keeps this serial.
    Restore(u64),
    /// It is run, and draws the next serial.
    Run,
}
