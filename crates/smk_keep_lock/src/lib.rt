//! The lock of the working folder: taken, released, and removed for `--unlock`.
#![tactic(auto)]

mod fault;
mod locking;
mod putting;
mod unlocking;

pub use fault::UnlockFault;
pub use locking::Lock;
pub use putting::write_out;
pub use unlocking::unlock_folder;
