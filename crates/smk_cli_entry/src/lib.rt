//! What the words of a command line ask of the workflow of a folder, or why it is refused before anything else is looked at.
#![tactic(auto)]

mod asking;
mod naming;
mod reading;

pub use asking::{Asked, ask};
pub use naming::{file_of, workflow_file};
pub use reading::{Reading, read_workflow};
