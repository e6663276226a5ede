//! The configuration of a workflow: JSON objects, one over another.
#![tactic(auto)]

mod config;
mod fault;
mod merging;
mod value;

pub use config::Config;
pub use fault::ConfigFault;
pub use value::Value;
