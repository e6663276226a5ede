//! Laws over the definitions of a plan: what its jobs are, what a clean run gives, and that there is one. They need nothing of a run.
#![tactic(auto)]

ghost use Rattle.smk_laws_plan.specs.Plans.{HasPlan, OneLastPlan, OnePlan};

/// In a complete image there is exactly one plan for listings with which jobs are derived: its table of states has one solution,
/// since each job comes after the jobs of its inputs. So a chain of plans has at most one last plan.
pub fn plan_is_one()
    ensures one { OnePlan }
    ensures has { HasPlan }
    ensures last { OneLastPlan }
{}
