//! A trial of the program: it makes a large workflow in memory, by three runs, the last of them after an edit, and tells how many jobs each started.
#![tactic(auto)]

mod editing;
mod latest;
mod lines;
mod running;
mod serving;
mod telling;
mod tried;
mod trying;

pub use lines::trial_lines;
pub use serving::{Generating, asked_generating, serve_generating, tell_fault};
pub use smk_base::OutOfMemory;
pub use smk_report::Fault;
pub use telling::tell_trial;
pub use tried::Trial;
pub use trying::trial;
