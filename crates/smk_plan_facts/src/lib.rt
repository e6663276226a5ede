//! What the reasons of jobs are judged by, and what of their outputs is whole.
#![tactic(auto)]

ghost use Rattle.smk_plan_facts.specs.Laws.{FactsAreSo, FactsGiveReasons, WholesAreSo};

mod copies;
mod directories;
mod flags;
mod forced;
mod judged;
mod known;
mod rising;
mod stamps;
mod whole;

pub use copies::{kept_again, members_again};
pub use flags::{all_outputs_told, makers_again, makers_told, outputs_told};
pub use judged::{facts, facts_told, forced_of, own_facts};
pub use stamps::{sources_of, stamp_now};
pub use whole::{wholes, wholes_told};

/// The law of facts: they give the reasons by which the states of jobs are told, where nothing runs.
pub fn facts_are_reasons()
    ensures { FactsGiveReasons }
{}

/// The laws of what is told: where what is known and seen is so in an image of the folder, the facts and what is whole by it are those of the image.
pub fn told_is_so()
    ensures facts { FactsAreSo }
    ensures wholes { WholesAreSo }
{}
