//! Writes a workflow file from its syntax, so that it reads back.
#![tactic(auto)]

mod exprs;
mod laws;
mod spell;
mod statements;

pub use laws::{files_read_back, lines_read_back, rows_read_back, texts_read_back};
pub use spell::spell_text;
pub use statements::print;
