//! The working folder, its children and the standard streams, as devices of the engine.
#![tactic(auto)]

mod children;
mod failure;
mod fault;
mod files;
mod outlived;
mod progress;
mod settle;
mod sink;
mod work;

pub use failure::{CallKind, Failure};
pub use progress::Progress;
pub use sink::RealSink;
pub use work::RealWork;
