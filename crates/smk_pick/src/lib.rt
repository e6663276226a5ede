//! The room for running jobs, and what a run is to do.
#![tactic(auto)]

mod choice;
mod room;
mod settings;

pub use choice::pick;
pub use room::{Ask, Room, amount_of};
pub use settings::{Force, Settings};
