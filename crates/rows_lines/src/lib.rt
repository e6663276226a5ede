//! The lines of rows: what a case tells, or why it tells nothing.
#![tactic(auto)]

mod line;
mod parts;
mod trouble;

pub use line::{push_case, push_line, push_row, push_title};
pub use parts::{FILE, ROW, SECTION, line_and_rest};
pub use trouble::Trouble;
