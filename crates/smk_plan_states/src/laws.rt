//! Laws of the states of jobs.

ghost use Rattle.smk_plan_states.specs.Laws.{LinkedAreServed};

/// The law that jobs which are derived and linked serve their targets, as the states are asked for.
pub fn linked_jobs_serve()
    ensures { LinkedAreServed }
{}
