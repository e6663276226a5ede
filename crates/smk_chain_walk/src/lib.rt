//! The jobs that targets call for, in plan order, with what makes each path and which jobs come before each job; and the first target
//! from which too long a chain of jobs leads.
#![tactic(auto)]

mod climbing;
mod deep;
mod faults;
mod folders;
mod kept;
mod keys;
mod parts;
mod query;
mod reached;
mod stepping;
mod walking;

pub use deep::first_deep;
pub use walking::walk;
