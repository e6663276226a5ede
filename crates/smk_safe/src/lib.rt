//! Laws: a run is safe, since its events follow the protocol; what it leaves; and what the plan of the exit says after it.
#![tactic(auto)]

ghost use Rattle.smk_safe.specs.Exit.{DoneJobsAreKept, KeptJobsStayClean, RunLeavesAllClean, SameDerivation};
ghost use Rattle.smk_safe.specs.Dues.{DueTurnsAreReady, DueRunIsSafe};
ghost use Rattle.smk_safe.specs.Clean.{DoneRunIsClean};
ghost use Rattle.smk_safe.specs.Leaving.{DoneTurnLeaves, TurnKeepsElse, TurnsKeepElse};
ghost use Rattle.smk_safe.specs.Running.{DoneTurnsLeave};
ghost use Rattle.smk_safe.specs.Lost.{FailedTurnLeaves};
ghost use Rattle.smk_safe.specs.Planned.{PlannedTurnsAreReady};
ghost use Rattle.smk_safe.specs.Safe.{ReadyTurnsAreRun, RunIsSafe};
ghost use Rattle.smk_safe.specs.Stored.{NextSerialIsAbove, SignsAreAll};
ghost use Rattle.smk_safe.specs.Turning.{TurnIsRun, TurnsAreRun};

/// Laws of the exit of a run of plain jobs from a sound folder. Where all turns were closed, good or not, the same jobs are derived at the exit as at the
/// entry, and nothing is refused. Where each job that is due is done, all of them are Clean at the exit, whichever have begun, and each target is current. Where one
/// failed, and no output is temporary, each job is Clean that rests or is done, where so is all that it needs; and
/// all that a job needs that is done rests or is done.
pub fn runs_leave_all_clean()
    ensures derived { SameDerivation }
    ensures clean { RunLeavesAllClean }
    ensures kept { KeptJobsStayClean }
    ensures done { DoneJobsAreKept }
{}

/// By a plan of the folder as it stands, of jobs that gather nothing and make plain files, with the duties that its states mean, the turns of the jobs that
/// are due are ready, with the serials that the duties tell of products. So a run of them from a sound folder is safe.
pub fn due_turns_are_ready()
    ensures ready { DueTurnsAreReady }
    ensures safe { DueRunIsSafe }
{}

/// Laws of the turn of one job. However far it came, outside of the engine's folder it changed nothing but what is at and under
/// the outputs and logs of its job, and folders above these; and so it is with turns one after another. Where it is done, the
/// outputs are what the command makes of its inputs' contents as they were before the turn, their records stand, no mark of
/// them does, and all that is firm.
pub fn turns_leave()
    ensures keeps { TurnKeepsElse }
    ensures keep { TurnsKeepElse }
    ensures leaves { DoneTurnLeaves }
{}

/// The law of turns that are all done, of jobs of which none makes or logs what overlaps what an earlier one reads, makes or logs:
/// at the end the outputs of each job are what its command makes of its inputs' contents, both as they are then, their records
/// stand, no mark of them does, and all that is firm. So each path to which a chain of these jobs leads from the sources is a file that is its
/// clean value, where the jobs of the chain are those that are chosen, make plain files and gather nothing.
pub fn runs_make()
    ensures make { DoneTurnsLeave }
    ensures clean { DoneRunIsClean }
{}

/// Laws of turns. The turn of a job that may begin is a run of the protocol, however far it came: to rest, where the job was closed, and to
/// a state in which no call but waits comes, where one failed. So are turns one after another, each of which may come as it does.
/// Where a job was closed that isn't done, nothing is left of its outputs, of their records and of their marks, after a crash either.
pub fn turns_are_runs()
    ensures turn { TurnIsRun }
    ensures turns { TurnsAreRun }
    ensures failed { FailedTurnLeaves }
{}

/// The law of a whole run from a sound folder. Where the folder at the entry has all that the jobs read but what they make themselves, where
/// nothing is in the way of what they make, and each has its serial, the events of the run follow the protocol. So after every
/// prefix of them whatever a crash leaves is sound and has the sources of the entry; and where all jobs were closed, the folder
/// is sound at the end. The same after any run of the protocol that came to rest.
pub fn runs_are_safe()
    ensures go_on { ReadyTurnsAreRun }
    ensures safe { RunIsSafe }
{}

/// By a plan of the folder as it stands, of jobs that gather nothing and make plain files, the turns of the jobs that are to run are ready: what rests is
/// whole, with an unmarked record; a Restore's records have the stamps that its inputs have; and nothing is in the way of what is made.
pub fn planned_turns_are_ready()
    ensures ready { PlannedTurnsAreReady }
{}

/// What a store that was loaded tells a run: its next serial is one above all that unmarked records name, and its signs are all marks and notes of
/// the folder.
pub fn stores_tell_runs()
    ensures serial { NextSerialIsAbove }
    ensures signs { SignsAreAll }
{}
