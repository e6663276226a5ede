//! What a run of jobs side by side does next.
#![tactic(auto)]

mod alike;
mod carry;
mod jobs;
mod kinds;
mod laws;
mod machine;
mod phase;
mod place;
mod ready;
mod starter;
mod tournament;

pub use laws::{jobs_start_in_order, room_is_kept, runs_end, stops_stop};
pub use machine::Core;
pub use phase::Phase;
pub use starter::{Starter, Step};
