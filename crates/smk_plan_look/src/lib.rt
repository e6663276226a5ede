//! What stands at the outputs and the sources of jobs.
#![tactic(auto)]

mod guards;
mod looking;
mod needs;
mod paths;
mod sights;
mod summing;

pub use looking::look;
pub use sights::sight_at;
