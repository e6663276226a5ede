//! Laws over the definitions of a run and of its histories.
#![tactic(auto)]

ghost use Rattle.smk_pattern.specs.Bound.{BoundFills};
ghost use Rattle.smk_laws_history.specs.AtExit.{CurrentAtExitIsClean};
ghost use Rattle.smk_laws_history.specs.Choices.{OneChoice, SameChoice, StaysAvailable};
ghost use Rattle.smk_laws_plan.specs.Current.{CurrentMeansClean, CurrentMeansCleanInWorlds, ListingsAreMeant, ReadsAreClean, SameValues, SeenIsComplete};
ghost use Rattle.smk_laws_history.specs.Histories.{ForgettingIsCall, HistoryIsListed, HistoryIsTree, HistoryLaw, RunIsCall, VersionsDiffer};
ghost use Rattle.smk_laws_plan.specs.Plans.{InputsComeFirst, KeepsJobs, KeepsUnopened};
ghost use Rattle.smk_laws_history.specs.Stamps.{AgreeingTells, StampTells};
ghost use Rattle.smk_laws_history.specs.Trusted.{CurrentIsSafe, CurrentIsTrusted, NoneRuns, TrustedHolds};
ghost use Rattle.smk_laws_protocol.specs.Forgetting.{ForgettingKeepsSound, SettlingIsEnough};
ghost use Rattle.smk_laws_protocol.specs.Midway.{HoldsMidway, ProtocolKeepsSound, ProtocolLaw};

/// The law that what a plan calls current is clean, if no two different contents of sources have the same SHA-256: in a sound
/// folder a target that is current by the last plan holds what a clean run from the sources gives, and so does all that a job of
/// the plan reads. A sound world gives what is asked of the folder, and at a run's exit the plan in force the rest, where it
/// isn't refused. What a clean run gives is a matter of the sources alone. And a binding fills its pattern to its path.
pub fn current_is_clean()
    ensures clean { CurrentMeansClean }
    ensures reads { ReadsAreClean }
    ensures listings { ListingsAreMeant }
    ensures in_worlds { CurrentMeansCleanInWorlds }
    ensures at_exit { CurrentAtExitIsClean }
    ensures by_sources { SameValues }
    ensures complete { SeenIsComplete }
    ensures fills { BoundFills }
{}

/// Laws of choice: what is available stays so at a greater depth, choice looks at no content, and a path has one choice.
pub fn choice_is_settled()
    ensures deeper { StaysAvailable }
    ensures same { SameChoice }
    ensures one { OneChoice }
{}

/// In a sound folder the versions of sources have each of them at its time, and a source with which a recorded stamp agrees has
/// the bytes that it had then, if no two different contents have the same SHA-256.
pub fn stamps_tell()
    ensures now { StampTells }
    ensures recorded { AgreeingTells }
{}

/// The law of the protocol, for versions of which no two different contents have the same SHA-256: from a sound folder, however
/// far a run of the protocol has come, whatever a crash leaves is sound and has the sources of the entry, also while jobs are
/// unfinished and after a call that failed; and where no child is left the folder is sound. What holds between two events holds
/// all along. So the log of such a run is one that keeps soundness, as a history asks of each call. So is the log of a call that
/// forgets paths: along it files at and under forgotten paths may be sources besides; a settling of the path and of the engine's
/// own folder makes firm what has to be before a path's turn comes.
pub fn protocol_law()
    ensures safe { ProtocolLaw }
    ensures midway { HoldsMidway }
    ensures kept { ProtocolKeepsSound }
    ensures forgetting { ForgettingKeepsSound }
    ensures settling { SettlingIsEnough }
{}

/// The history law: after any list of calls, edits of sources, removals and crashes the folder is sound, if no two different
/// contents that sources had in it have the same SHA-256; its versions differ so then. And a directory output with a record and
/// no mark has no more in it than the record lists, so that no removal makes it whole. The log of a run of the protocol is a call
/// that may stand in a history, and so is that of a call that forgets paths.
pub fn history_law()
    ensures differ { VersionsDiffer }
    ensures sound { HistoryLaw }
    ensures tree { HistoryIsTree }
    ensures listed { HistoryIsListed }
    ensures run { RunIsCall }
    ensures forgetting { ForgettingIsCall }
{}

/// In a plan each job comes after the jobs of its inputs. With more listings its jobs go on, and those that aren't Open stay as
/// they are.
pub fn jobs_stay()
    ensures order { InputsComeFirst }
    ensures go_on { KeepsJobs }
    ensures stay { KeepsUnopened }
{}

/// Laws of trust: what is trusted holds what its record vouches for, the marks of jobs that run as a Restore left out. All that a
/// job of a plan reads is trusted so where it is current; and at a rest of a run, where what runs is of the plan in force, it is
/// safe to start on.
pub fn trusted_is_safe()
    ensures holds { TrustedHolds }
    ensures trusted { CurrentIsTrusted }
    ensures safe { CurrentIsSafe }
    ensures idle { NoneRuns }
{}
