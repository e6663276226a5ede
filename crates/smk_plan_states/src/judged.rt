//! What is judged of jobs before their states are.

use smk_base::List;
use smk_trigger::{Reason, State};

/// What is judged of jobs before their states are.
#[derive(Drop)]
pub struct Judged {
    /// For each job its reasons but for the inputs whose job is Dirty, with Forced at the end where it is forced.
    pub reasons: List<List<Reason>>,
    /// For each job whether it is forced.
    pub forced: List<bool>,
    /// For each job the state that it had when it began, if its child runs.
    pub running: List<Option<State>>,
}
