//! A workspace in memory: the devices of the engine, told in full, for tests and trials.
#![tactic(auto)]

mod answers;
mod calls;
mod command;
mod crew;
mod lines;
mod sink;
mod work;

pub use sink::MemSink;
pub use work::{MemWork, Setup};
