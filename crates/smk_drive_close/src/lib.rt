//! The turn of a run that waits for a child and closes its job, and the growth of its plan.
#![tactic(auto)]

mod closing;
mod counts;
mod ends;
mod growing_on;
mod knowing;
mod numbering;
mod rounds;
mod taking;
mod tending;

pub use closing::wait;
