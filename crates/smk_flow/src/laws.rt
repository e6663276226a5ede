//! Laws of the definitions.

ghost use Rattle.smk_flow.specs.Apart.{FaultMeansNone};

/// Rules and clauses that make a workflow have no fault: so a check that tells one tells it only where they make none.
pub fn fault_means_none()
    ensures { FaultMeansNone }
{}
