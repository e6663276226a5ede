//! Laws: what is picked of a plan that is kept is what a run may begin, or spend, by its plan in force; and turns of a run with jobs side by side make a whole
//! run, from its opening to its end.
#![tactic(auto)]

ghost use Rattle.smk_laws_begins.specs.Picked.{JudgedAsKept, MayStartAsKept, SpentAsKept};
ghost use Rattle.smk_laws_turns.specs.Turning.{OfParts};
ghost use Rattle.smk_laws_begins.specs.Sweeping.{BrokenSweepLeads, LackingSweepLeads, ShortSweepLeads, SweepBegins, SweepBreaks, SweepGoesOn, SweepLacks};
ghost use Rattle.smk_laws_begins.specs.Sweeping.{SweepLeads, SweepMayGoOn, UnsettledLeads};
ghost use Rattle.smk_laws_begins.specs.Ended.{EndsWell};
ghost use Rattle.smk_laws_begins.specs.Opened.{OpenedIsAt};
ghost use Rattle.smk_laws_begins.specs.Gone.{GoesFurther, GoesHeld, GoesNowhere, GoesOnce};
ghost use Rattle.smk_laws_begins.specs.Sources.{SeenAreSources};
ghost use Rattle.smk_laws_begins.specs.Standing.{OneLessTaken, OneMoreTaken, OverHasNoneLeft, OverMaySpend, ReadyAtStart, ReadyOn, SomeTaken, StartedMaySpend};
ghost use Rattle.smk_laws_begins.specs.Whole.{UnopenedRun, WholeRun};
ghost use Rattle.std.specs.Prelude.{ℕ, Bool, List};
ghost use Rattle.smk_world.specs.Devices.{Device};
ghost use Rattle.smk_world.specs.Trees.{Act};
ghost use Rattle.smk_record.specs.declared.record.Stamp.{Stamp};
ghost use Rattle.smk_flow.specs.declared.job.Job.{Job};
ghost use Rattle.smk_flow.specs.Flows.{Flow};
ghost use Rattle.smk_pick.specs.declared.room.Ask.{Ask};
ghost use Rattle.smk_pick.specs.declared.settings.Settings.{Settings};
ghost use Rattle.smk_report.specs.Lines.{Text};
ghost use Rattle.smk_laws_turns.specs.Hubs.{Parts};
ghost use Rattle.smk_laws_begins.specs.Begins.{PickedIsNext, RoomIsLeft};
ghost use Rattle.smk_laws_begins.specs.Turns.{BegunTurns, UnbegunTurns, UnfitTurns};

/// Where the plan that is kept is the one in force at a moment of a run, its jobs that may begin beside the asks of the running ones
/// are those that may start at the moment; and what is picked as spent is spent then, and nothing stands under it but what its record
/// lists. A kept plan that agrees with the folder is judged by what is so there.
pub fn kept_jobs_may_start()
    ensures judged { JudgedAsKept }
    ensures starts { MayStartAsKept }
    ensures spent { SpentAsKept }
{}

/// From where a run stands outputs that are spent are removed, one after another: the first one that is spent may be removed, and the plan is told of it; or
/// memory is wanting, or the call fails.
pub fn sweeps_go_on()
    ensures begins { OfParts SweepBegins }
    ensures may { OfParts SweepMayGoOn }
    ensures goes { OfParts SweepGoesOn }
    ensures lacks { OfParts SweepLacks }
    ensures breaks { OfParts SweepBreaks }
{}

/// A sweep is one step of the run, once what was removed is gone for good; or it broke off.
pub fn sweeps_lead_on()
    ensures all { OfParts SweepLeads }
    ensures short { OfParts ShortSweepLeads }
    ensures unsettled { OfParts UnsettledLeads }
    ensures broken { OfParts BrokenSweepLeads }
    ensures lacking { OfParts LackingSweepLeads }
{}

/// A run that has opened, from a folder in which no child runs, stands where its course begins: with its first plan, which agrees with the folder, all the room,
/// and the serial after the greatest of the folder.
pub fn opened_runs_begin()
    ensures { OpenedIsAt }
{}

/// Where no fault has come, no child runs and none may start, a run has ended well, with the counts that it keeps and with the targets that are current by the
/// plan in force.
pub fn idle_runs_end_well()
    ensures { EndsWell }
{}

/// Turns that follow on one another lead on as one does: none, one, and some after others; and so does want of memory, by which no job begins any more.
pub fn turns_follow()
    ensures nothing { GoesNowhere }
    ensures once { GoesOnce }
    ensures further { GoesFurther }
    ensures held { GoesHeld }
{}

/// A turn may come as a run begins, and after any turns; where no job begins nothing that may start is left; and once one was started outputs may be spent, as they
/// may where none is left. Places are taken one by one.
pub fn turns_may_come()
    ensures start { ReadyAtStart }
    ensures on { ReadyOn }
    ensures left { OverHasNoneLeft }
    ensures spend { OverMaySpend }
    ensures started { StartedMaySpend }
    ensures more { OneMoreTaken }
    ensures less { OneLessTaken }
    ensures some { SomeTaken }
{}

/// Paths that no job makes and that were seen as sources are sources in each folder that is so.
pub fn sources_are_seen()
    ensures { SeenAreSources }
{}

/// What a run does that doesn't open, and one that opens, goes on by turns and tells how it ended, is what a run is to do.
pub fn runs_are_whole()
    ensures unopened { UnopenedRun }
    ensures whole { WholeRun }
{}

/// The job of the kept plan that is picked is the one that is next in the run.
pub fn picked_is_next()
    ensures { PickedIsNext }
{}

/// Wherever the run stands, running children leave room for that job.
pub fn room_is_left()
    ensures { RoomIsLeft }
{}

/// What a turn did in which that job doesn't begin, before anything is done or once sources were read, or in which it begins and that is noted.
pub fn beginnings_are_turns()
    ensures unfit { (act : Act) (flow : Flow) (settings : Settings) (h : Parts) (number : ℕ) → UnfitTurns act flow settings h number }
    ensures unbegun { (act : Act) (flow : Flow) (settings : Settings) (h : Parts) (number : ℕ) (j : Job) (known : List Stamp) (made : ℕ) (draws : Bool)
        (command : Text) (ask : Ask) (old new : Device) → UnbegunTurns act flow settings h number j known made draws command ask old new }
    ensures begun { (act : Act) (flow : Flow) (settings : Settings) (h : Parts) (number : ℕ) (j : Job) (known : List Stamp) (made : ℕ) (draws : Bool)
        (command : Text) (ask : Ask) (old new : Device) → BegunTurns act flow settings h number j known made draws command ask old new }
{}
