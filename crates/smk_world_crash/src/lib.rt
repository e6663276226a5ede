//! What a crash leaves of a workspace in memory: the states of its places, step by step, and the nodes that a choice makes of them.
#![tactic(auto)]

mod children;
mod choice;
mod crash;
mod moves;
mod reaches;
mod states;

pub use children::{find, others, outputs};
pub use choice::Choice;
pub use crash::{Remains, left};
pub use states::copy_node;
