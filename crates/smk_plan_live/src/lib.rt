//! A plan that is kept and changed in place while jobs begin and are closed and new ones come.
#![tactic(auto)]

ghost use Rattle.smk_plan_live.specs.Agreeing.{AgreeAtRest};
ghost use Rattle.smk_plan_live.specs.Effects.{BegunTells, ClosedTells, RestoredTells, SpentTells};

mod advancing;
mod base;
mod beginning;
mod carried;
mod children;
mod closing;
mod commands;
mod copies;
mod flags;
mod growing;
mod later;
mod learning;
mod limits;
mod live;
mod making;
mod new;
mod next;
mod now;
mod outs;
mod phase;
mod readers;
mod rows;
mod sites;
mod slots;
mod spending;
mod telling;

pub use base::Base;
pub use limits::Limits;
pub use live::LivePlan;
pub use phase::Phase;

/// The law that where no child runs what agrees with an image, as a plan asks it, agrees with it at this moment.
pub fn rest_agrees()
    ensures { AgreeAtRest }
{}

/// The laws of what is known and seen of paths once a job has begun or is closed, and once an output was removed; and of whose marks aren't known.
pub fn changes_are_told()
    ensures begun { BegunTells }
    ensures closed { ClosedTells }
    ensures spent { SpentTells }
    ensures restored { RestoredTells }
{}
