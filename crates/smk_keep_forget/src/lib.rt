//! Forgetting what is known of paths, for `--cleanup-metadata`.
#![tactic(auto)]

mod cleaning;
mod fault;
mod turning;

pub use cleaning::forget_paths;
pub use fault::ForgetFault;
