//! What the plan of a run grows by once directories have become known, as the folder stands beside the children that run.
#![tactic(auto)]

mod deriving_jobs;
mod holding;
mod listings;
mod looking;
mod parts;
mod sources;

pub use deriving_jobs::find_more;
pub use looking::More;
