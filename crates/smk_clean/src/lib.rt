//! Laws of a whole call, and of one that has nothing to do.
#![tactic(auto)]

ghost use Rattle.smk_clean.specs.NothingStarts.{DrivenStartsNone, SpentKeepsPlan};
ghost use Rattle.smk_clean.specs.Again.{CallLeavesNone, NextCallStartsNothing};
ghost use Rattle.smk_clean.specs.Clean.{CallIsClean};
ghost use Rattle.smk_clean.specs.Locking.{LockIsLeft};
ghost use Rattle.smk_clean.specs.Safe.{CallIsSafe};
ghost use Rattle.smk_clean.specs.Standing.{PlanRefusalStands, RefusalStands};

/// A run by whose first plan each job is Clean starts nothing, however it ends: no child, and it tells of no job where its folder is told at the end. For
/// where each job is Clean and none has begun, a plan stays as it is when an output is removed that is spent by it.
pub fn clean_runs_start_none()
    ensures starts { DrivenStartsNone }
    ensures stays { SpentKeepsPlan }
{}

/// The law of a whole call in a sound folder, whatever is asked, be its jobs made one after another or driven, and however it ends: after every prefix of its
/// events whatever a crash leaves is sound and has the sources of the entry; and where it ends without a fault, or no child is left, the folder is sound.
pub fn calls_are_safe()
    ensures { CallIsSafe }
{}

/// Laws of refusals, of a run that makes its jobs one after another, and of one that is driven where its folder is told still at the end, as it is unless a
/// call of the device failed. Where something is refused of what is asked to be run, nothing is done but looks; or no child is started, and nothing is changed
/// but the lock, where it is heeded, though the marks and notes that stood may have been made firm. Nothing is put; and the call ends with a refusal, for the
/// lock, or with a fault of the device or of memory; and where the plan is refused, with that refusal.
pub fn refusals_stand()
    ensures stands { RefusalStands }
    ensures plan { PlanRefusalStands }
{}

/// The law of a run that ends without a fault, in a sound folder, whatever its workflow has, be its jobs made one after another or driven: each target is at
/// the end what a clean run from the sources of the entry makes of it, and the sources are as they were.
pub fn calls_are_clean()
    ensures { CallIsClean }
{}

/// Laws of what is left to do after a run that forced no job and ends without a fault, in a sound folder, whatever its workflow has, be its jobs made one after
/// another or driven. The last plan for the same words has each job Clean and each target current, whichever jobs have begun. And a run with the same words,
/// in the folder that was left, starts nothing, where the words ask for the same of the workflow in it: no child, no turn, and it tells of no job.
pub fn calls_leave_none()
    ensures clean { CallLeavesNone }
    ensures again { NextCallStartsNothing }
{}

/// The law that a run which heeds the lock leaves it as it was, however it ends, unless the count of the device's faults rose.
pub fn lock_is_left()
    ensures { LockIsLeft }
{}
