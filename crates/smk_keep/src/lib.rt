//! Outputs that are made read-only, and temporary ones that are removed.
#![tactic(auto)]

mod fault;
mod keeping;

pub use fault::KeepFault;
pub use keeping::{protect_outputs, remove_temps};
