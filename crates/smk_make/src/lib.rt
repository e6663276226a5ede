//! What was planned is made: the jobs that must be run are run, and the run is reported with its targets.
#![tactic(auto)]

mod after;
mod closing;
mod making;
mod planned;

pub use making::make;
pub use planned::Planned;
