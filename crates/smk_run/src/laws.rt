//! Laws of runs.

ghost use Rattle.smk_run.specs.Laws.{DueCommandsAreGood, ClosedTurnsTellStatus};

/// Where no command of a plan's jobs is refused, and the jobs that rest are those that are neither Dirty nor a Restore, the command of each job that
/// is due is good.
pub fn due_commands_are_good()
    ensures { DueCommandsAreGood }
{}

/// The ending of a turn tells a status: that of the command in a failure, and else 0. It is the status that the command gives on what stands at its
/// inputs as it runs, unless the count of faults rose; where each status that a wait told is given so, as a run says it of its own.
pub fn closed_turns_tell_status()
    ensures { ClosedTurnsTellStatus }
{}
