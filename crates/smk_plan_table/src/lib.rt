//! Plans: the states of jobs, which targets are current, which listings have become known, and what is refused.
#![tactic(auto)]

ghost use Rattle.smk_plan_table.specs.Laws.{LinkedTellTargets};

mod begun;
mod current;
mod doubting;
mod guarding;
mod judging;
mod listings;
mod marking;
mod outputs;
mod planning;
mod refusing;
mod room;
mod suspects;

pub use planning::{Ranked, plan, plan_now};
pub use suspects::{Suspect, suspect_of, suspects_of};

/// The law that derived jobs tell of each target that is a source.
pub fn targets_are_told()
    ensures { LinkedTellTargets }
{}
