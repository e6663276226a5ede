//! The jobs that the rules of a workflow make, and the paths that words stand for as targets.
#![tactic(auto)]

mod fields;
mod filling;
mod gathers;
mod jobs;
mod recipe;
mod sorted;
mod targeting;

pub use jobs::job;
pub use targeting::targets;
