//! Parts of a run's steps: the children that run, the stamps that a job begins with, the lines that are put, and the faults by which no job begins any more.
#![tactic(auto)]

mod beginning;
mod children;
mod faults;
mod guarding;
mod halt;
mod lines;
mod stamps;
mod summing;

pub use beginning::begin_job;
pub use children::{Child, Children};
pub use faults::{begin_fault, keep_fault, work_fault};
pub use guarding::guard_outputs;
pub use halt::Halt;
pub use lines::Lines;
pub use stamps::stamps_of;
pub use summing::digested;
