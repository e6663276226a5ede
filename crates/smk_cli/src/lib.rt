//! The program's one call: it reads words, does what they ask by the workflow of the working folder, and reports.
#![tactic(auto)]

mod growing;
mod keys;
mod listing;
mod marks;
mod outcome;
mod running;
mod serving;
mod top;

pub use outcome::Outcome;
pub use smk_report::Fault;
pub use top::smk;
