//! All that a run with jobs side by side keeps, and where it stands.
#![tactic(auto)]

mod hub;
mod learning;

pub use hub::{Ground, Hub};
pub use learning::{answer_of, check_plan, check_texts, reply_of};
