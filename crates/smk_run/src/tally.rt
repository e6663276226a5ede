use smk_report::Fault;

/// How a run of jobs ended that came to its end, be it by a job that failed.
#[derive(Drop)]
pub struct Tally {
    /// How many jobs were started.
    pub started: u64,
    /// How many of them were closed with all their outputs good.
    pub done: u64,
    /// How many of them failed.
    pub failed: u64,
    /// The fault of the first job that failed.
    pub first: Option<Fault>,
}
