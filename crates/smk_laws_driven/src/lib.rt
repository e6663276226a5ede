//! Laws: what a run with jobs side by side means for a sound folder, that the turns of good jobs succeed, and how a run ends where each target has a clean value.
#![tactic(auto)]

ghost use Rattle.smk_laws_driven.specs.Completing.{RunsAreComplete};
ghost use Rattle.smk_laws_driven.specs.Feeding.{FedTurnsSucceed, InputsAreFound, NextTurnIsFed};
ghost use Rattle.smk_laws_driven.specs.Planning.{PlannedTurnsAreArranged, PlannedTurnsAreFed};
ghost use Rattle.smk_laws_driven.specs.TurnsSucceeding.{GoodJobsCanSucceed, TurnsSucceed};
ghost use Rattle.smk_laws_driven.specs.Grown.{GrowingFaultsAreNamed, GrowingIsComplete};
ghost use Rattle.smk_laws_driven.specs.Named.{DrivenFaultsAreNamed, DrivenIsComplete};
ghost use Rattle.smk_laws_driven.specs.Driven.{DrivenIsSafe};
ghost use Rattle.smk_laws_driven.specs.Ended.{DrivenIsClean, DrivenLeavesNone, DrivenTells, DrivenTellsAll};
ghost use Rattle.smk_laws_driven.specs.Succeeding.{DrivenSucceeds};

/// A run from a sound folder, however it ends: its events are a run of the protocol, so after every prefix of them whatever a crash leaves is
/// sound and has the sources of the entry; and where no child is left, or it came to its end, the folder is sound.
pub fn driven_is_safe()
    ensures { DrivenIsSafe }
{}

/// A run from a sound folder that came to its end, of any workflow, with checkpoints and directories too: each target of which it told that it is
/// current is what a clean run from the sources makes of it, also where the sink fails as that is told; so are all targets where no job failed.
/// Where also none is forced, the last plan of the folder has each job Clean and each target current, so that a next run has nothing to do.
pub fn driven_ends_well()
    ensures tells { DrivenTells }
    ensures tells_all { DrivenTellsAll }
    ensures clean { DrivenIsClean }
    ensures leaves { DrivenLeavesNone }
{}

/// A run from a sound folder that came to its end, of any workflow, with checkpoints and directories too: where each target has a clean value, and no
/// count of faults rose, no job failed, also where spent outputs were removed.
pub fn driven_succeeds()
    ensures { DrivenSucceeds }
{}

/// A turn whose job's command makes good plain files of what stands at its inputs, with status 0, and whose wait tells that status, ends well if the job
/// is closed. So it is with a good job, where its inputs hold their clean values; and so with all turns of a run, one after another, of good jobs whose inputs
/// hold their clean values before or are made by earlier turns. What a turn reads holds its clean value as it comes, so none of it is found gone.
pub fn good_turns_succeed()
    ensures turns { TurnsSucceed }
    ensures good { GoodJobsCanSucceed }
    ensures fed { FedTurnsSucceed }
    ensures next { NextTurnIsFed }
    ensures found { InputsAreFound }
{}

/// The turns of the jobs that a plan of a sound folder has to run are fed so, where each target has a clean value, and the jobs make plain files and
/// gather nothing: by sources and by what rests, and by each other. And they are arranged so that none changes what it or an earlier one reads.
pub fn planned_turns_are_fed()
    ensures fed { PlannedTurnsAreFed }
    ensures arranged { PlannedTurnsAreArranged }
{}

/// So a run by such a plan, however it is answered, has no job that fails, and stops only for want of memory, of a serial, of the device or the sink, or
/// with a record that is too long.
pub fn runs_are_complete()
    ensures { RunsAreComplete }
{}

/// A run from a sound folder, of jobs that make plain files and gather nothing, where each target has a clean value: it ends with no fault but want of
/// memory, one of the device or of the sink, a serial that is missing, a record that is too long, or a refusal for too many paths, for what clashes at
/// its entry, for how the folder stands, or for what the call allows; also where spent outputs were removed.
pub fn driven_faults_are_named()
    ensures { DrivenFaultsAreNamed }
{}

/// So where no count of faults rose it has no failed job when it comes to its end, or ends with such a fault.
pub fn driven_is_complete()
    ensures { DrivenIsComplete }
{}

/// A run from a sound folder of any workflow, with checkpoints and directories too, where each target has a clean value: it ends with no other fault, unless
/// directories have become known with the files of clean values, and what is derived with these clashes.
pub fn growing_faults_are_named()
    ensures { GrowingFaultsAreNamed }
{}

/// So where no count of faults rose it has no failed job when it comes to its end, or ends with such a fault.
pub fn growing_is_complete()
    ensures { GrowingIsComplete }
{}
