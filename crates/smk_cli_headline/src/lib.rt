//! The program's one call, with what it gives in each folder that can have come.
#![tactic(auto)]

mod top;

pub use smk_cli::{Fault, Outcome};
pub use top::smk;
