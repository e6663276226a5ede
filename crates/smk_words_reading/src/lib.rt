//! What the words of the command line ask: the whole reader.
#![tactic(auto)]

mod asked;
mod asking;
mod letters;
mod numbers;
mod parts;
mod spelling;
mod top;
mod values;

pub use asked::{Asked, RunWords, WordsFault};
pub use parts::{Flag, Part, Setting};
pub use smk_pick::Force;
pub use top::{read_words, words_ask_one_thing};
