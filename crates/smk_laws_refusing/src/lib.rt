//! Laws of the lock around a run, and of what is refused in its course, and how it ends then.
#![tactic(auto)]

ghost use Rattle.smk_laws_refusing.specs.Heeding.{LockChangesItselfAlone, RefusalsHeedNoLock, LastPlansHeedNoLock, PreviewsHeedNoLock};
ghost use Rattle.smk_laws_refusing.specs.Parts.{LockCallsAreRuns, PartsAreSafe, PartsAreCall};
ghost use Rattle.smk_laws_refusing.specs.Leaving.{RefusedAtEntryFails, RefusedAtEntryLeavesAll};
ghost use Rattle.smk_laws_refusing.specs.Refusing.{AnewRefusesAsMoment, BeginsOnceLooked, BeginsWhereNoneRefuses, ClearRefusesAsMoment, FirstFaultEnds};
ghost use Rattle.smk_laws_refusing.specs.Refusing.{LooksKeepRefusals, NoneLeftNoneRefuses, RefusalIsMet, RefusedAtEntryEnds, UnhaltedWasClear};

/// Where nothing has changed but the lock and the folders above it, the folder reads as before but for the lock; and plans and their refusals hang on
/// no lock.
pub fn plans_heed_no_lock()
    ensures alone { LockChangesItselfAlone }
    ensures refused { RefusalsHeedNoLock }
    ensures last { LastPlansHeedNoLock }
    ensures previewed { PreviewsHeedNoLock }
{}

/// Calls on the lock follow the protocol of runs. Runs of the protocol one after another, each begun when no child is left, keep the folder safe as one
/// run does, and stand in a history as one call.
pub fn locked_runs_are_safe()
    ensures calls { LockCallsAreRuns }
    ensures safe { PartsAreSafe }
    ensures call { PartsAreCall }
{}

/// What is refused at a clear stand is refused at the moment of the log that it is, and the other way round; so is what is refused at a stand as it comes
/// about. Nothing is refused where a job is to begin, nor
/// where nothing is left that may start; and looks leave what is refused.
pub fn stands_refuse_as_moments()
    ensures same { ClearRefusesAsMoment }
    ensures anew { AnewRefusesAsMoment }
    ensures begins { BeginsWhereNoneRefuses }
    ensures looks { LooksKeepRefusals }
    ensures looked { BeginsOnceLooked }
    ensures none_left { NoneLeftNoneRefuses }
{}

/// Where no fault has come, no plan was refused as the stand came about. A run that ends with a refusal has met it, at its entry or in a step; one in which a
/// fault has come ends with the first one; and where the plans of the entry are refused, it ends with the refusal of its log, or with a fault of the device,
/// the sink or memory.
pub fn refusals_end_runs()
    ensures clear { UnhaltedWasClear }
    ensures met { RefusalIsMet }
    ensures first { FirstFaultEnds }
    ensures entry { RefusedAtEntryEnds }
{}

/// Where the plans of its entry are refused a run ends with such a refusal, or with a fault of the device or of memory. It leaves all as it stands: no child is
/// started, the same reads at each place, and nothing is put.
pub fn refused_runs_leave_all()
    ensures fails { RefusedAtEntryFails }
    ensures leaves { RefusedAtEntryLeavesAll }
{}
