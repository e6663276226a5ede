//! The turns of a run in which a job begins and in which outputs are removed that are spent.
#![tactic(auto)]

mod finding;
mod kit;
mod noting;
mod packing;
mod rounds;
mod starting;
mod sweeping;
mod taking;

pub use starting::start;
pub use sweeping::sweep;
