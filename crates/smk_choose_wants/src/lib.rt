//! What the chosen job of a path wants, and the job itself, once it is known which files are gathered.
#![tactic(auto)]

mod gathering;
mod guide;
mod items;
mod job;
mod parts;
mod places;
mod texts;
mod wanted;
mod wants;

pub use guide::Guide;
pub use job::{declared_of, job_of};
pub use places::Places;
pub use wanted::Want;
pub use wants::{first_wants_of, gathered_files_of, wants_of};
