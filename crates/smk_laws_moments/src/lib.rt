//! Laws of the stands of a run: what holds at each of them; jobs whose children run stay jobs of the plan in force; and a job that is next may begin in the
//! protocol that keeps every crash image sound.
#![tactic(auto)]

ghost use Rattle.smk_laws_moments.specs.Staying.{DerivationStays, DerivedArePlanned, FirstIsDerived, ListedJobsStay, MidwayKeepsSources};
ghost use Rattle.smk_laws_moments.specs.Staying.{ReplanningStaysDerived, StartIsDerived, StaysDerived, StepStaysDerived};
ghost use Rattle.smk_laws_moments.specs.Starting.{OpeningStays, StartableMayBegin};
ghost use Rattle.smk_laws_moments.specs.Between.{BetweenRestsIsMoment};
ghost use Rattle.smk_laws_moments.specs.Chains.{ChainGoesOn, ClearGoesOn, ClearStays, NextIsUnrefused};
ghost use Rattle.smk_laws_moments.specs.Courses.{AllAreWaited, BrokenIsHalted, ChildrenAreOfStand, FirstFaultStays, StartsAreTold, WaitsForChildren};
ghost use Rattle.smk_laws_moments.specs.Owning.{OwnCallsBeginNone, OwnCallsKeepBegun};
ghost use Rattle.smk_laws_moments.specs.Standing.{FirstIsMoment, LooksKeepStands, RefusedAtEntry, ReplanningIsMoment, SpendingIsMoment};

/// Folders with the same sources derive the same jobs with the same listings; and a job whose gathered directories all have a listing stays as it is when
/// further directories become known.
pub fn derivations_stay()
    ensures same { DerivationStays }
    ensures listed { ListedJobsStay }
{}

/// Each job whose child runs is a job of the plan in force, with the inputs with which it began, at each stand of a run, as long as the sources stay; and they
/// do in a run of the protocol.
pub fn running_jobs_stay()
    ensures first { FirstIsDerived }
    ensures start { StartIsDerived }
    ensures step { StepStaysDerived }
    ensures anew { ReplanningStaysDerived }
    ensures steps { StaysDerived }
    ensures planned { DerivedArePlanned }
    ensures sources { MidwayKeepsSources }
{}

/// A job that is next at a stand of a run may begin in the protocol, with its serial: what it makes and logs is apart from what other open
/// jobs own or read, from its inputs, from sources and from what is known of other paths; its inputs are at hand with their stamps of now;
/// and where it is restored, a record that it may write again stands at each of its outputs. It may still once the folder was looked at.
pub fn startable_jobs_may_begin()
    ensures begins { StartableMayBegin }
    ensures stays { OpeningStays }
{}

/// A stand at which no plan is refused stays one while the folder is only looked at, and once its chain of plans begins with the listings of them all: a
/// plan that is refused from there on is refused from the start of the chain on.
pub fn chains_go_on()
    ensures chain { ChainGoesOn }
    ensures clear { ClearGoesOn }
    ensures looks { ClearStays }
{}

/// Where a job is to begin, nothing is refused at that moment of the run.
pub fn next_is_unrefused()
    ensures { NextIsUnrefused }
{}

/// A fault that has come stays the first one, and no job begins after it; a call of the device that failed is such a fault; and the report tells the starts of
/// just the jobs that have begun, in order.
pub fn steps_go_on()
    ensures first { FirstFaultStays }
    ensures broken { BrokenIsHalted }
    ensures told { StartsAreTold }
{}

/// The children that run are those of the stand; at each wait of a run there is one, and at its end none is left, unless a wait failed.
pub fn children_are_waited()
    ensures children { ChildrenAreOfStand }
    ensures waits { WaitsForChildren }
    ensures waited { AllAreWaited }
{}

/// The first stand is the moment at the entry, and while the folder is opened; a look leaves what stands are moments; where spent outputs are removed the stand
/// after it is the moment; and what is refused at the entry is what the run refuses.
pub fn stands_are_moments()
    ensures first { FirstIsMoment }
    ensures looks { LooksKeepStands }
    ensures spending { SpendingIsMoment }
    ensures refused { RefusedAtEntry }
{}

/// With a call of one job of a plan no other job of it begins; so, once that one has begun, the same have begun after the call.
pub fn calls_are_own()
    ensures none { OwnCallsBeginNone }
    ensures keep { OwnCallsKeepBegun }
{}

/// Where the plan of a stand is made anew after one event, as when a job has begun or is closed, what comes of it is the stand of the moment after that
/// event. Calls of one job that has begun, between two rests, leave what stands are moments.
pub fn replanning_is_moment()
    ensures anew { ReplanningIsMoment }
    ensures between { BetweenRestsIsMoment }
{}
