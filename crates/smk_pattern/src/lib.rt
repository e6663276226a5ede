//! Patterns of paths with wildcards.
#![tactic(auto)]

mod bare;
mod by_name;
mod filling;
mod fitting;
mod laws;
mod limit;
mod limits;
mod naming;
mod pattern;
mod reading;
mod search;
mod splitting;
mod table;
mod tester;

pub use bare::without_limits;
pub use filling::fill;
pub use fitting::fits;
pub use laws::{bound_is_binding, fill_is_filled, reading_is_grammar};
pub use limits::Limits;
pub use naming::{has_no_constraint, wildcard_names};
pub use pattern::{Binding, FillFault, Pattern, PatternFault};
