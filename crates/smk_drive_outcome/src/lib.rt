//! What is known of the outputs of a job that was closed, and what stands there.
#![tactic(auto)]

mod keeping;
mod outcome;

pub use outcome::{Outcome, outcome_of};
