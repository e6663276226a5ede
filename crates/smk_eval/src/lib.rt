//! The workflow of a working folder: its files and configurations read, their statements evaluated in order, and the rules and clauses
//! that they make checked.
#![tactic(auto)]

mod above;
mod commands;
mod config;
mod configs;
mod evaluating;
mod faults;
mod loading;
mod scope;
mod state;
mod values;

pub use evaluating::evaluate;
pub use loading::load;
pub use smk_eval_files::ReadFile;
pub use smk_flaws::{EvalFault, LoadFault};
