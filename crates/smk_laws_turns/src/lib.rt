//! Laws of a run's course and of what it keeps: each stand to which its steps lead is the moment of its log, and its events are a run of the protocol; what each step
//! makes of what is kept and of the folder, what the calls of a run ask for, and how its plan grows by new jobs while children run.
#![tactic(auto)]

ghost use Rattle.smk_laws_turns.specs.Standing.{BeginningIsMoment, ClosingIsMoment, GoesOn, LeavingIsMoment, StepIsMoment};
ghost use Rattle.smk_laws_turns.specs.Standing.{MidwayKeepsMarks, ProtocolKeeps, StandsAreMoments};
ghost use Rattle.smk_laws_turns.specs.Following.{RunFollows, RunIsSafe, RunKeepsSound, StepsFollow};
ghost use Rattle.smk_laws_turns.specs.Reporting.{NoneBegunNoneTold, OneText, OpeningTellsNothing, RefusalHasStarts, ReportIsFront, ToldOfMoment};
ghost use Rattle.smk_laws_turns.specs.Reporting.{DoneIsRunText, EachBegunIsStarted, FaultHasLines, FrontHasStarts, LinesGoOn, LooksTellNothing};
ghost use Rattle.smk_laws_turns.specs.Reporting.{FailedWaitIsTold, HaltingIsTold, KeptMarksTellNothing, LeavingIsTold, ReadingIsTold, WaitingIsTold};
ghost use Rattle.smk_laws_turns.specs.Resting.{AnyIsReplanned, RestGoesBy};
ghost use Rattle.smk_laws_turns.specs.Agreeing.{BeginAgrees, CloseAgrees, SpendAgrees};
ghost use Rattle.smk_laws_turns.specs.Progressing.{BeginsAlike, ClosesAlike, PlansAlike};
ghost use Rattle.smk_laws_turns.specs.InForce.{KeptIsLast, KeptIsUnrefused};
ghost use Rattle.smk_laws_turns.specs.Places.{DiffersByPlaces, LooksAgree, SameIsSeen};
ghost use Rattle.smk_laws_turns.specs.Deriving.{DerivationGoesOn};
ghost use Rattle.smk_laws_turns.specs.Leaving.{OwnCallsLeave};
ghost use Rattle.smk_laws_turns.specs.Off.{PathsAreOff, SignsAreOff};
ghost use Rattle.smk_laws_turns.specs.Turning.{BeginningBreaks, BeginningLeads, ClosingBreaks, ClosingLeads, CrewGrows, CrewIsBusy, CrewIsIdle, CrewShrinks, GrowingLeads};
ghost use Rattle.smk_laws_turns.specs.Turning.{FailedWaitLeads, HaltLeads, LeavingLeads, OfParts, ReadingBreaks, SpendingBreaks, SpendingLeads, WaitLeads};
ghost use Rattle.smk_laws_turns.specs.Going.{GoesOnFrom, RestsThere};
ghost use Rattle.smk_laws_turns.specs.Room.{RoomBegun, RoomToBegin, RoomToClose, RoomToSpend, RoomToSpendOn, UnownedToLook, UnownedToRead};
ghost use Rattle.smk_laws_turns.specs.Homes.{HomeStays, LooksLeaveAll, LooksLeaveOurs};
ghost use Rattle.smk_laws_turns.specs.Differing.{DiffersOf, OursGoOn};
ghost use Rattle.smk_laws_turns.specs.Begun.{BeginDiffers, JobsAreOfEntry, SettlingLeaves, SpendDiffers};
ghost use Rattle.smk_laws_turns.specs.Writable.{BegunIsRecordable};
ghost use Rattle.smk_laws_turns.specs.Closed.{CloseDiffers, GuardsAreOutputs, LeftOurs, TendDiffers};
ghost use Rattle.smk_laws_turns.specs.Guarded.{PlanBeforeGuarding};
ghost use Rattle.smk_laws_turns.specs.Grown.{GrowthAgrees, GrowthIsAlike};
ghost use Rattle.smk_laws_turns.specs.Onward.{GrowthGoesOn, RoundGoesOn};

/// Where a job begins, is closed, or is left for want of memory, the stand to which that leads is the moment of the log; so it is with each step in which no
/// call fails.
pub fn steps_are_moments()
    ensures begin { BeginningIsMoment }
    ensures close { ClosingIsMoment }
    ensures leave { LeavingIsMoment }
    ensures step { StepIsMoment }
{}

/// What this asks of a stand holds at the next one; so each stand to which the steps of a run lead is the moment of its log, as long as no call has failed,
/// and the folder keeps the sources and the marks of jobs whose children run. In a run of the protocol it keeps them.
pub fn stands_stay_moments()
    ensures on { GoesOn }
    ensures all { StandsAreMoments }
    ensures marks { MidwayKeepsMarks }
    ensures protocol { ProtocolKeeps }
{}

/// The steps of a run, and a whole run, follow the protocol that keeps every crash image sound. Each step leads from a state of the protocol
/// at one stand to a state of it at the next: a job that begins opens there, a child that ends and the closing of its job close it, what is
/// made read-only or removed is free, and after a failed call only children are waited for.
pub fn runs_follow()
    ensures steps { StepsFollow }
    ensures whole { RunFollows }
{}

/// So a run from a sound folder is safe: after every prefix of its events whatever a crash leaves is sound and has the sources of the entry.
/// At its end the folder is sound, unless a wait failed. And its log keeps what a call has to keep, to its end.
pub fn runs_are_safe()
    ensures safe { RunIsSafe }
    ensures keeps { RunKeepsSound }
{}

/// The events of a log make one text, to which further events add; there is none as long as no job has begun, so none while a run opens; and looks add nothing.
pub fn logs_have_lines()
    ensures one { OneText }
    ensures more { LinesGoOn }
    ensures none { NoneBegunNoneTold }
    ensures opening { OpeningTellsNothing }
    ensures looks { LooksTellNothing }
{}

/// An event makes no line that starts no child and with which no mark goes. So the log makes just the lines that are told of a step where no job begins any
/// more, where reading sources fails, where a job is left for want of memory, and where children are only waited for.
pub fn steps_are_told()
    ensures kept { KeptMarksTellNothing }
    ensures halt { HaltingIsTold }
    ensures reading { ReadingIsTold }
    ensures leave { LeavingIsTold }
    ensures waiting { WaitingIsTold }
    ensures failing { FailedWaitIsTold }
{}

/// Where the lines of what a run has done are those of its log, and its counts those of the last moment, its report is the text of the run, or a front of it
/// with each start after a refusal, and with all lines after a fault of the device.
pub fn reports_tell_logs()
    ensures done { DoneIsRunText }
    ensures front { ReportIsFront }
    ensures starts { FrontHasStarts }
    ensures refusal { RefusalHasStarts }
    ensures lines { FaultHasLines }
{}

/// What is told of a stand is so at the moment that it is; and of each job that has begun one start is told.
pub fn ends_are_told()
    ensures told { ToldOfMoment }
    ensures started { EachBegunIsStarted }
{}

/// Where a job has begun or was closed, or an output was removed, and all is at rest, the run goes by what the kept plan answers: the plan is the one in
/// force and nothing is refused; or this is refused; or memory is wanting. Where the plan isn't told, some plan is in force, or none.
pub fn answers_are_gone_by()
    ensures rests { RestGoesBy }
    ensures any { AnyIsReplanned }
{}

/// Where a plan that is kept agrees with the folder, and the folder then changes at the outputs of one job and else by notes alone, the
/// plan agrees with it again: once the job has begun, once it was closed, and once an output of it was removed.
pub fn folder_agrees()
    ensures begins { BeginAgrees }
    ensures closes { CloseAgrees }
    ensures spends { SpendAgrees }
{}

/// What has begun and runs by a plan that is kept follows a run, as jobs begin and are closed; and the last plan of a chain is the same
/// in whatever order those jobs are named.
pub fn progress_follows()
    ensures plans { PlansAlike }
    ensures begins { BeginsAlike }
    ensures closes { ClosesAlike }
{}

/// Where a plan that is kept agrees with the folder, has come as far as the run, its listings derive its jobs, and none has become known
/// since, it is the last plan of the chain from those listings; and no plan of that chain is refused, where its commands aren't.
pub fn kept_is_in_force()
    ensures last { KeptIsLast }
    ensures unrefused { KeptIsUnrefused }
{}

/// How images differ is told by what stands in places of two worlds: where the same stands at a path and under it, the same is seen there; and looks leave all.
pub fn places_tell()
    ensures seen { SameIsSeen }
    ensures differs { DiffersByPlaces }
    ensures looks { LooksAgree }
{}

/// Where a folder has the same sources as before, and only records and marks of the outputs and notes of the logs of the jobs that are
/// derived have come, the same jobs are derived.
pub fn derivations_go_on()
    ensures { DerivationGoesOn }
{}

/// The calls with which one job begins, ends or is closed leave all else as it stands.
pub fn own_calls_leave()
    ensures { OwnCallsLeave }
{}

/// A user's path that is apart from a job's outputs and logs is off all its places, and so are the mark and the record of each path that
/// is none of its outputs.
pub fn others_are_off()
    ensures paths { PathsAreOff }
    ensures signs { SignsAreOff }
{}

/// The children in their places are those that run: as one is put, as one is taken away, and where none is there.
pub fn crews_are_kept()
    ensures grows { CrewGrows }
    ensures shrinks { CrewShrinks }
    ensures idle { CrewIsIdle }
    ensures busy { CrewIsBusy }
{}

/// Where a fault comes, no job begins any more, and children are waited for: memory is wanting, or the sink failed, or the job that is next is refused; a call
/// failed as sources were read for that job or as it was to begin; a child was waited for after such a call; or a wait failed.
pub fn faults_lead_on()
    ensures halts { OfParts HaltLeads }
    ensures unwaited { OfParts FailedWaitLeads }
    ensures waits { OfParts WaitLeads }
    ensures unread { OfParts ReadingBreaks }
    ensures unbegun { OfParts BeginningBreaks }
    ensures unspent { OfParts SpendingBreaks }
    ensures left { OfParts LeavingLeads }
    ensures unclosed { OfParts ClosingBreaks }
{}

/// A job begins, a child is waited for and its job closed, by which the plan may grow, outputs that are spent are removed: then what the run keeps stands so, too, to the stand to which
/// that step leads, as far as the plan that is kept tells of the folder.
pub fn steps_lead_on()
    ensures begins { OfParts BeginningLeads }
    ensures closes { OfParts ClosingLeads }
    ensures grows { OfParts GrowingLeads }
    ensures spends { OfParts SpendingLeads }
{}

/// Steps that follow on one another lead on as one does.
pub fn runs_go_on()
    ensures rests { RestsThere }
    ensures more { GoesOnFrom }
{}

/// Running children leave room for the job that is next, and are apart from it once its child runs; what it reads is no child's.
pub fn room_is_left_to_begin()
    ensures begins { OfParts RoomToBegin }
    ensures begun { OfParts RoomBegun }
    ensures reads { OfParts UnownedToRead }
{}

/// Once a child was waited for, the others leave room to close its job, and own nothing of what is then looked at.
pub fn room_is_left_to_close()
    ensures closes { OfParts RoomToClose }
    ensures looks { OfParts UnownedToLook }
{}

/// No running child owns or reads an output that is spent, nor anything under it.
pub fn spent_outputs_are_unused()
    ensures spends { OfParts RoomToSpend }
    ensures more { OfParts RoomToSpendOn }
{}

/// Whatever happens in a folder, it is one that can be; and looks leave it as it is, with what a run has made of it.
pub fn folders_stay()
    ensures homes { HomeStays }
    ensures looks { LooksLeaveAll }
    ensures ours { LooksLeaveOurs }
{}

/// Where something else stands at the places of one job alone, the folder differs at its outputs, and has the sources that the run found and its own signs.
pub fn jobs_change_their_own()
    ensures ours { OursGoOn }
    ensures differs { DiffersOf }
{}

/// Once the job that is next has begun its outputs are marked, with nothing to see; and where a spent output was removed nothing stands any more. What makes
/// removals firm leaves what is seen.
pub fn beginnings_differ()
    ensures begins { BeginDiffers }
    ensures spends { SpendDiffers }
    ensures settles { SettlingLeaves }
    ensures kept { JobsAreOfEntry }
{}

/// A job that is to begin has records that can be written, and their stamps have the times of the sources that the run found.
pub fn begun_are_recordable()
    ensures { BegunIsRecordable }
{}

/// Once a child was waited for and its job closed, the folder differs at its outputs alone, at which no mark stands; so it is still once they were made
/// read-only and looked at. Where the job is left, its marks stay. And what a job guards are its outputs.
pub fn closings_differ()
    ensures closed { OfParts CloseDiffers }
    ensures tended { OfParts TendDiffers }
    ensures left { OfParts LeftOurs }
    ensures guards { OfParts GuardsAreOutputs }
{}

/// The plan that is made anew once the outputs of a closed job were made read-only is the one that was made anew before, and what a run makes of its stand is
/// the same.
pub fn guarding_leaves_plans()
    ensures { PlanBeforeGuarding }
{}

/// The plan agrees with the folder once new jobs have come, and has come as far as it had.
pub fn grown_plans_agree()
    ensures agrees { GrowthAgrees }
    ensures alike { GrowthIsAlike }
{}

/// Round by round the plan that is kept is the next one of the chain, until it is the one in force, or something is refused: and the run goes by that.
pub fn runs_grow()
    ensures round { RoundGoesOn }
    ensures all { GrowthGoesOn }
{}
