//! Jobs run one after another, and what is reported of them.
#![tactic(auto)]

mod agenda;
mod closing;
mod ending;
mod faults;
mod laws;
mod lines;
mod one;
mod serials;
mod stamps;
mod stop;
mod summing;
mod tally;
mod turns;
mod whole;
mod wording;

pub use agenda::Agenda;
pub use closing::close_job;
pub use ending::Ending;
pub use faults::failure;
pub use laws::{closed_turns_tell_status, due_commands_are_good};
pub use lines::{end_line, write_out};
pub use stamps::input_paths;
pub use stop::Stop;
pub use summing::{see_digest, see_sums, with_sum};
pub use tally::Tally;
pub use whole::run_jobs;
pub use wording::see_recipe;
