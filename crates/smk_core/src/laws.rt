//! What holds of each course of a run: of whatever is answered, ends, is stopped or is given anew, in any order.

ghost use Rattle.smk_core.specs.Laws.{BeginsWithin, DoneHasEnded, EachStepLessens, FailureStops, FinishedMeansDone, StartsAfter, StartsOnce, StaysStopped, StaysWithin, StopStops, WaitsForSome};

/// The room is never overfull: the jobs of a run that begins keep within the cores and bounds, and so do those that run, all along.
pub fn room_is_kept()
    ensures begins { BeginsWithin }
    ensures stays { StaysWithin }
{}

/// Jobs are started in order: each at most once, also where it gets another number; only after all that come before it are done; and
/// where none was done as the run began, what is done was started and has ended well.
pub fn jobs_start_in_order()
    ensures once { StartsOnce }
    ensures after { StartsAfter }
    ensures ended { DoneHasEnded }
{}

/// What stops a run stops it for good: a stop, and a job that failed where the others don't go on. From then on nothing is started.
pub fn stops_stop()
    ensures stop { StopStops }
    ensures failure { FailureStops }
    ensures stays { StaysStopped }
{}

/// A run ends: while its jobs stay the same, each start and each ending lessens what may still come; nothing is waited for where no job
/// runs; and where none failed and it wasn't stopped, it is over only once all jobs are done.
pub fn runs_end()
    ensures lessens { EachStepLessens }
    ensures waits { WaitsForSome }
    ensures done { FinishedMeansDone }
{}
