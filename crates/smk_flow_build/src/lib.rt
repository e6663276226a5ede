//! The checks of rules and clauses, and the workflow that those that pass them make.
#![tactic(auto)]

mod building;
mod checks;
mod faults;
mod flags;
mod named;
mod names;
mod orders;
mod reading;
mod unknown;
mod words;

pub use building::build;
