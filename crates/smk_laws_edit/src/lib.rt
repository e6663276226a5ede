//! Laws of the next call: what is to be done after an edit, after sources were touched, and once all jobs of a plan are Clean.
#![tactic(auto)]

ghost use Rattle.smk_laws_edit.specs.Leaving.{DoneStaysDone};
ghost use Rattle.smk_cli_target.specs.Thrift.{TouchedStartsNone};
ghost use Rattle.smk_laws_edit.specs.Edited.{AfterEditOnlyDownstream, FirstStartIsDownstream};
ghost use Rattle.smk_laws_edit.specs.Unbegun.{UnbegunStay};

/// Once all jobs of a plan are Clean nothing is left to do, however its listings became known. The chain of plans of the next call, which begins from no
/// listing, derives its jobs step by step again: each directory that becomes known was known, so that nothing is refused, and its last plan has each job
/// Clean too. A target that was current is so by that plan.
pub fn done_stays_done()
    ensures { DoneStaysDone }
{}

/// After a run that meets the contract and ended with status 0, and an edit of one source that isn't read for the workflow, the plan of the
/// next run or listing has nothing new. Each job that it calls Dirty leads by a chain of wants to the edited source, and each that it is to
/// restore is read by a job that is to run: so nothing is to be done but what lies downstream of the edit, and what that reads.
pub fn after_edit_only_downstream()
    ensures { AfterEditOnlyDownstream }
{}

/// Until a child is started that plan stays in force, since the run changes nothing but its lock, folders above places of the plan, and the
/// places of the job that begins. So the first child that a run starts after the edit is of a job that the plan has to run so.
pub fn first_start_is_downstream()
    ensures { FirstStartIsDownstream }
{}

/// At each moment of a run's log, and however much has been done by then, the record and the mark of a path are as they were at the entry, as
/// long as no job that makes it has begun: so nothing makes a job Dirty by what concerns it alone but other stamps of its inputs.
pub fn unbegun_stay()
    ensures { UnbegunStay }
{}

/// A touched source starts nothing. After a run that meets the contract and ended with status 0, sources of at most 1,048,576 bytes may get other
/// times with the bytes that they have: a call with the same words that meets the contract starts no child, however it ends, where each record of
/// an output tells such a source by its SHA-256, as runs write them. For the plan is the same, and by it every job is Clean.
pub fn touched_starts_none()
    ensures { TouchedStartsNone }
{}
