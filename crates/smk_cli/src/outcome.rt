//! How a call ends.

ghost use Rattle.std.specs.Prelude.{◌≡◌};
ghost use Rattle.smk_report.specs.Faults as report;

use smk_report::{Fault, status_of};

/// The end of a call: its exit status and its fault, if any.
#[derive(Drop)]
pub struct Outcome {
    pub status: u8,
    pub fault: Option<Fault>,
}

impl Outcome {
    /// The outcome of this fault, with its status.
    pub(crate) fn of(fault: Option<Fault>) -> Outcome
        ensures fault { result.fault ≡ fault }
        ensures status { result.status ≡ report.status_of fault }
    {
        let status = match &fault {
            None => 0,
            Some(fault) => status_of(fault),
        };
        Outcome { status, fault }
    }
}
