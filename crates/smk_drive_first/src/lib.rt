//! How a run opens: what was found of earlier runs is made firm, and the plan that the run begins with is made of the folder.
#![tactic(auto)]

mod chaining;
mod opening;
mod rounds;

pub use opening::{Opened, open};
