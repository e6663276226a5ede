//! The headline of the program: what a run gives, whatever has come before, and that it is complete; and laws of thrift: what is left to do for the next call.
#![tactic(auto)]

ghost use Rattle.smk_laws_call.specs.Thrift.{EditedCallPlansDownstream, EditedCallTurnsDownstream, SameBytesTouch, TouchedCallStartsNothing, TouchedLeavesNone};
ghost use Rattle.smk_laws_call.specs.Asking.{AskedBySources, NextRunStartsNothing, RunKeepsAsked};
ghost use Rattle.smk_laws_call.specs.Plain.{PlainFlowsGatherAlone, PlainFlowsPlanPlainly};
ghost use Rattle.smk_laws_call.specs.Calls.{CallIsComplete, ListingIsComplete};
ghost use Rattle.smk_laws_call.specs.Complete.{DroveIsComplete, RefusedPlansMayStop, ServedListingsAreComplete, ServedRunsAreComplete, WorkIsComplete};
ghost use Rattle.smk_laws_call.specs.Temps.{OneByOneHasNoTemps, PlansHaveNoTemps};
ghost use Rattle.smk_laws_call.specs.Headline.{CameIsHistory, CameIsSound, Headline};
ghost use Rattle.smk_laws_call.specs.Started.{RunsStartOnFinished};

/// Where each target has a clean value in a sound folder, and no count of faults rises: what is asked for is refused by its plan only for how the folder
/// stands or for what clashes; the run of a plan of plain jobs ends well, or for want of memory, of a serial, or with a record that is too long; and so does a
/// run that is driven, of any workflow, be outputs temporary or not, or for one of those refusals, or since its plan grew to a clash.
pub fn served_is_complete()
    ensures refused { RefusedPlansMayStop }
    ensures worked { WorkIsComplete }
    ensures drove { DroveIsComplete }
    ensures run { ServedRunsAreComplete }
    ensures listing { ServedListingsAreComplete }
{}

/// The jobs of a workflow by which no plan may grow gather nothing and make plain files.
pub fn plain_flows_plan_plainly()
    ensures plans { PlainFlowsPlanPlainly }
    ensures flows { PlainFlowsGatherAlone }
{}

/// No job of a workflow without temporary outputs makes something temporary; and a workflow whose jobs are made one after another has no such output.
pub fn no_temps_are_planned()
    ensures plans { PlansHaveNoTemps }
    ensures one_by_one { OneByOneHasNoTemps }
{}

/// The law of completeness: from a sound folder, for words that ask for something of files that read, that is listed or made, with checkpoints and directories too, and
/// where each target has a clean value, and no count of faults rises, a call tells that all is well, or one of few faults: want of memory, no serial, a record that
/// is too long, or a refusal of the plan for how the folder stands or for what clashes, at its entry or as the plan of a run grows.
pub fn calls_are_complete()
    ensures call { CallIsComplete }
    ensures listing { ListingIsComplete }
{}

/// Along a run of the protocol from a sound folder each child is started on inputs at which nothing is unfinished: sources, and whole
/// outputs whose records read and have no marks.
pub fn starts_are_safe()
    ensures { RunsStartOnFinished }
{}

/// After any list of calls of the program, edits of sources and of the workflow, failed jobs, removals and crashes, the folder is one of a
/// history, and so it is sound. No job of a run in it was started on an output of an unfinished job. What the run calls current is what a
/// clean run from the sources makes of it, however it ended, and with status 0 so is each target. A run that ends with status 0 leaves nothing to
/// do, unless it forced jobs, and then a run with the same words starts nothing, where they ask for the same. And where the words aren't refused and
/// a clean run gives every target, a run ends well or for a named reason, be outputs temporary or not, and with checkpoints and directories too.
pub fn headline()
    ensures history { CameIsHistory }
    ensures sound { CameIsSound }
    ensures run { Headline }
{}

/// Words ask for the same in a folder with the same sources, where each file that is read for the workflow is a source and the same file counts: so after a run that
/// ended with status 0. And so the next run with the same words starts nothing, whatever has come before, if that run forced no job.
pub fn words_that_read_sources_ask_the_same()
    ensures sources { AskedBySources }
    ensures run { RunKeepsAsked }
    ensures next { NextRunStartsNothing }
{}

/// A touched source starts nothing. After a run that forced no job and ended without a fault, sources of at most 1,048,576 bytes may get other times with the
/// bytes that they have: still nothing is left to do, and a run with the same words starts nothing, however it ends, where they ask for the same and no record
/// of an output tells such a source by its time alone. For the plan is the same, and by it every job is Clean. An edit that puts the same bytes is such a touch.
pub fn touched_calls_start_nothing()
    ensures clean { TouchedLeavesNone }
    ensures again { TouchedCallStartsNothing }
    ensures touch { SameBytesTouch }
{}

/// After such a run and an edit of one source by which the words ask for the same, the last plan has no new job, and each job that it is to run is so for the
/// edited source: it is Dirty, and a chain of wants leads from it there; or it is to be restored for a job that is to run and reads what it makes. So in a run
/// with the same words that makes its jobs one after another, each job that has its turn is such a one, however the run ends.
pub fn edited_calls_go_downstream()
    ensures plan { EditedCallPlansDownstream }
    ensures turns { EditedCallTurnsDownstream }
{}
