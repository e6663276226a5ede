//! What is wrong with a workflow, layer over layer: with its files, with what they say, and with the whole; and the faults of reading, which
//! carry it.
#![tactic(auto)]

mod fault;
mod flaw;

pub use fault::{EvalFault, FileFault, LoadFault};
pub use flaw::{FileFlaw, Flaw, SaidFlaw};
