//! Sources: which paths of the working folder are sources, for some targets and all that could be wanted for them.
#![tactic(auto)]

mod looking;
mod reaching;
mod seeing;
mod telling;

pub use looking::sight;
