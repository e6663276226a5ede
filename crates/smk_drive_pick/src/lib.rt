//! Which job of a kept plan begins next, and which of its outputs are spent.
#![tactic(auto)]

mod asking;
mod hands;
mod next;
mod numbers;
mod spending;
mod standing;

pub use next::next_job;
pub use spending::spent_paths;
