//! SHA-256 of contents, and of files in the working folder.
#![tactic(auto)]

mod digesting;
mod fault;
mod reading;
mod summing;

pub use digesting::digest_all;
pub use fault::SumFault;
pub use summing::sums;
