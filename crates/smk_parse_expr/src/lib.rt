//! Reads the expressions of a workflow file.
#![tactic(auto)]

mod cursor;
mod exprs;
mod item_lists;
mod laws;
mod so_far;
mod symbol;
mod tokens;

pub use cursor::Cursor;
pub use exprs::{expr, name, number, text};
pub use item_lists::items;
pub use laws::{expression_laws, item_laws};
pub use symbol::{Keyword, ParseFault, Sign, Symbol, place_of, word_of};
pub use tokens::symbols;
