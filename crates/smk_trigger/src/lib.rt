//! Why a job has to run.
#![tactic(auto)]

mod facts;
mod judge;
mod judged;
mod judging;
mod kept;
mod reason;
mod same;
mod shared;
mod updates;

pub use facts::JobFacts;
pub use judge::{Judge, Plain};
pub use judged::all_reasons;
pub use judging::reasons;
pub use reason::{Reason, State};
pub use shared::Reasons;
