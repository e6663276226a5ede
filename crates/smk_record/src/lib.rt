//! Records: how an output was made.
#![tactic(auto)]

mod bytes;
mod file;
mod inputs;
mod record;
mod spelled;
mod stop;
mod valid;

ghost use Rattle.smk_record.specs.Apart.{BeginWithOne, NoneIsPrefix};

pub use file::{read, write};
pub use record::{Member, Record, Stamp, agrees, same_stamp};

/// Laws of spellings: bytes begin with the spelling of at most one record, so a spelling has one record and is no proper prefix
/// of another.
pub fn spellings_are_apart()
    ensures one { BeginWithOne }
    ensures prefix { NoneIsPrefix }
{}
