//! What a run is to do with each job, and which jobs need a job, be it through others.
#![tactic(auto)]

mod before;
mod choosing;
mod numbers;
mod serials;

pub use before::needing;
pub use choosing::duties_of;
pub use numbers::{number_of, numbers_of};
