//! The states of the jobs of a plan.
#![tactic(auto)]

mod after;
mod awaits;
mod downward;
mod folders;
mod holding;
mod in_use;
mod judged;
mod lack;
mod laws;
mod lines;
mod making;
mod opening;
mod own;
mod plain;
mod ranks;
mod ready;
mod reasons;
mod rows;
mod spots;
mod standing;
mod table;
mod upward;
mod watching;
mod ways;

pub use judged::Judged;
pub use lack::Lack;
pub use laws::linked_jobs_serve;
pub use lines::{Awaited, Gathered, Input, Line, Origin, Output, Target, Temp};
pub use own::{own_flags, own_of};
pub use ranks::{Rank, is_to_run};
pub use reasons::state_again;
pub use rows::{Own, Rows};
pub use standing::{Last, Ranking};
pub use table::Table;
