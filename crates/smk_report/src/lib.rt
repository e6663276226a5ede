//! The lines of reports, and the faults of a call with their texts and statuses.
#![tactic(auto)]

mod closing;
mod fault;
mod lines;
mod listing;
mod telling;

pub use closing::{forgotten_line, summary_line, target_line, unlocked_line};
pub use fault::{Fault, status_of};
pub use lines::{job_line, reason_text};
pub use listing::{plan_line, state_line};
pub use telling::fault_line;
