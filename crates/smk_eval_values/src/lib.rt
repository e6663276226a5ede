//! `expand`, the values of expressions, and what the signs of the language make of them.
#![tactic(auto)]

mod choices;
mod combining;
mod evaluating;
mod expanding;
mod fault;
mod filling;
mod names;
mod operators;
mod pairing;
mod reading;
mod sums;
mod value;

pub use choices::Choices;
pub use evaluating::{Scope, value_of};
pub use expanding::{ExpandFault, expand};
pub use fault::ValueFault;
pub use operators::{
    bad_flag, choice_values, expansion, flag, list_items, patterns, spelled, truth,
};
pub use value::{Flagged, Gathered, Value};
