//! The commands of jobs: the text of each, and the first job of a plan whose command is refused.
#![tactic(auto)]

mod checking;
mod fault;
mod faults;
mod fields;
mod filling;
mod items;
mod making;
mod names;
mod picks;

pub use checking::check_commands;
pub use fault::FormatFault;
pub use faults::too_long;
pub use filling::command;
pub use making::command_of;
pub use names::rule_name;
