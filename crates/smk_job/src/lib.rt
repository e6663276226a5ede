//! One job: begun, finished, or abandoned.
#![tactic(auto)]

mod closing;
mod fault;
mod folders;
mod going;
mod opening;
mod reserve;
mod sight;
mod steps;

pub use closing::{abandon, finish};
pub use fault::{BeginFault, CloseFault};
pub use going::Going;
pub use opening::begin;
