//! Workflows: their rules, jobs and faults, and the small readers of a rule's texts and names.
#![tactic(auto)]

mod fault;
pub mod flags;
mod job;
mod laws;
pub mod names;
mod rule;
pub mod texts;
mod workflow;

pub use fault::{FlowFault, JobFault, TargetFault};
pub use job::{Gather, Job};
pub use laws::fault_means_none;
pub use rule::{Clause, Flag, FlaggedText, GatherPart, InPart, OutPart, RulePart};
pub use workflow::{Patterns, Rule, Workflow};
