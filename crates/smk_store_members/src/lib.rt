//! All that is under a directory output.
#![tactic(auto)]

mod found;
mod listed;
mod members;

pub use listed::Listed;
pub use members::members_of;
