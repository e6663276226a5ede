//! The course of a run with jobs side by side: where it stands, by which steps it goes on, and what it has done when it ends; and the whole run as the call is
//! to make it, from the plan to the report.
#![tactic(auto)]

ghost use Rattle.smk_drive_course.specs.Moments.{HasMoment, LooksKeepMoments, OneMoment};
ghost use Rattle.smk_drive_course.specs.Refusals.{OneChainRefusal, OneRefusal};

/// After any events of a run there is just one moment: at each rest one plan is in force, or none. So what is said of some moment is
/// said of each. A look leaves what has begun and the plan in force.
pub fn moments_are_one()
    ensures one { OneMoment }
    ensures has { HasMoment }
    ensures looks { LooksKeepMoments }
{}

/// A chain of plans is refused in one way, and a run meets one first refusal; only the count of too many paths may be any.
pub fn refusals_are_one()
    ensures chain { OneChainRefusal }
    ensures run { OneRefusal }
{}

mod ending;

pub use ending::End;
