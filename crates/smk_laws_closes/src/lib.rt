//! Laws of the turn of a run that waits for a child and closes its job.
#![tactic(auto)]

ghost use Rattle.smk_laws_closes.specs.Closes.{ClosedLeads, GrownLeads, OfWaits, WaitedLeads};
ghost use Rattle.smk_laws_closes.specs.Endings.{EndsAsClosed};

/// A job that was closed so ended so, by the status of its child and by what stood as it had ended.
pub fn jobs_end_as_closed()
    ensures { EndsAsClosed }
{}

/// A child was waited for and its job closed, its outputs were made read-only, and the plan was told, and has grown: these are steps on, from wherever the run
/// stood. So is a wait after a call of the device has failed.
pub fn waits_lead_on()
    ensures closed { OfWaits ClosedLeads }
    ensures grown { OfWaits GrownLeads }
    ensures waited { OfWaits WaitedLeads }
{}
