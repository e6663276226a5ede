//! The states of jobs, what is refused of a plan, and who tells what is known and seen of paths.
#![tactic(auto)]

mod duty;
mod fault;
mod naming;
mod plan;
mod seen;
mod told;
mod wholes;

pub use duty::Duty;
pub use fault::{LookFault, PlanFault};
pub use naming::name_of;
pub use plan::Plan;
pub use seen::{Seen, Sight};
pub use told::{Loaded, Told};
pub use wholes::Wholes;
