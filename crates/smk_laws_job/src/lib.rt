//! What a job's calls are in the protocol of a run.
#![tactic(auto)]

ghost use Rattle.smk_laws_job.specs.Laws.{CarriedIsPart, BeginningRuns, BeginningPartsRun, BeginningFails, FinishingRuns, FinishingPartsRun, LookingRuns, LosingRuns, AbandoningRuns, AbandoningPartsRun, AbandoningFails, ForgettingRuns, ForgettingIsSafe};

/// Laws of the calls: those of `begin` are a run of the protocol after which the child runs; those of `finish` and of `abandon` are runs
/// that close the job. What was carried out of `begin` and `abandon`, also up to a call that failed, is a run too; and so is all that
/// `finish` does. After a call that failed the run is faulted, and only children run on. What `forget` of smk_store does is a run of the
/// protocol of forgetting, and so keeps the folder sound.
pub fn calls_are_runs()
    ensures carried { CarriedIsPart }
    ensures beginning { BeginningRuns }
    ensures beginning_parts { BeginningPartsRun }
    ensures beginning_fails { BeginningFails }
    ensures finishing { FinishingRuns }
    ensures finishing_parts { FinishingPartsRun }
    ensures looking { LookingRuns }
    ensures losing { LosingRuns }
    ensures abandoning { AbandoningRuns }
    ensures abandoning_parts { AbandoningPartsRun }
    ensures abandoning_fails { AbandoningFails }
    ensures forgetting { ForgettingRuns }
    ensures forgetting_safe { ForgettingIsSafe }
{}
