//! The choice of a job for a path.
#![tactic(auto)]

mod binding;
mod candidates;
mod choice;
mod decide;
mod finder;
mod heights;
mod index;
mod nodes;
mod precedence;
mod reach;
mod readings;
mod sources;
mod table;

pub use binding::by_name;
pub use candidates::folders_above;
pub use choice::{Chosen, Lack, Making};
pub use finder::{apart, places};
pub use index::Readings;
pub use readings::gathered_from;
pub use sources::{Sources, Standing};
pub use table::Choices;
