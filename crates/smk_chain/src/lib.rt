//! Derivation: the jobs that targets call for.
#![tactic(auto)]

mod fault;
mod jobs;
mod naming;
pub mod sets;

pub use fault::{ChainFault, SightFault};
pub use jobs::{Jobs, Known, Listings, Maker};
pub use naming::first_output;
