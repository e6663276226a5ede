//! The jobs that targets call for, each of which can be run, or the first thing that is refused of them.
#![tactic(auto)]

mod clash;
mod derivation;
mod known;
mod lookup;
mod readying;
mod spot;

pub use clash::first_clash;
pub use derivation::derive;
pub use readying::ready_jobs;
