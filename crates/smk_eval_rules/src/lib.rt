//! What the forms of rules make: their directives, evaluated in a scope.
#![tactic(auto)]

mod commands;
mod directive;
mod items;
mod limits;
mod logs;
mod one;
mod outputs;
mod resources;
mod rules;
mod values;

pub use limits::{global_limits, with_globals};
pub use logs::{LogItem, NamedRule};
pub use outputs::outputs_of;
pub use rules::rule_part;
