//! A whole run: jobs side by side, by a plan that is kept.
#![tactic(auto)]

mod driving;
mod ending;
mod entering;
mod looping;
mod sources;
mod spending;

pub use driving::drive;
pub use smk_drive_course::End;
