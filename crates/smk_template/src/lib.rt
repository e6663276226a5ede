//! Templates: texts with fields between braces, read symbol by symbol.
#![tactic(auto)]

mod reading;

pub use reading::{Symbol, first_brace, symbol_in};
