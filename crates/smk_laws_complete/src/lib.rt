//! Laws of completeness: what is refused, what fails, and what plans and their listings are, where each target has a clean value; and what each workflow of files has, as
//! the laws of plans ask it.
#![tactic(auto)]

ghost use Rattle.smk_laws_complete.specs.Loaded.{LoadedByFiles};
ghost use Rattle.smk_laws_complete.specs.NamedLogs.{PlacesAreKnown, PlacesFillByName};
ghost use Rattle.smk_laws_complete.specs.Reading.{ReadFlowsGatherAlone};
ghost use Rattle.smk_laws_complete.specs.Valued.{MeantAreRight, MeantJobsAreGood, MoreAreRight, NewAreMeant};
ghost use Rattle.smk_laws_complete.specs.Listed.{AwaitedAreRecorded, GatheredAreRecorded, ListingsStayMeant};
ghost use Rattle.smk_laws_complete.specs.Derived.{CleanTargetsAreDerived, DerivedJobsAreGood, GoodJobsEndWell, NoListingIsRight};
ghost use Rattle.smk_laws_complete.specs.Planned.{ChainsEnd, CleanPlanIsCurrent, CleanTargetsArePlanned};

/// With listings that tell the files of clean values, or of what the job of an output makes of such, a plan's jobs read what a clean run has them
/// read. So where each target has a clean value each of them whose directories are listed succeeds on clean inputs. What becomes known by such a plan
/// in a sound folder are such listings again; and with them the next jobs are right too, unless their outputs and logs clash.
pub fn meant_plans_are_good()
    ensures right { MeantAreRight }
    ensures good { MeantJobsAreGood }
    ensures new { NewAreMeant }
    ensures more { MoreAreRight }
{}

/// Along a chain of plans of a sound folder listings tell the files of clean values, or of what the job of an output makes of such, if those do with
/// which it began. So by the last plan a directory that is awaited and at hand, or that a job gathers from which isn't Open, is listed as its record
/// has it.
pub fn listings_stay_meant()
    ensures meant { ListingsStayMeant }
    ensures awaited { AwaitedAreRecorded }
    ensures gathered { GatheredAreRecorded }
{}

/// Where each target has a clean value and the listings are right, derivation refuses nothing but too many paths and outputs or logs
/// that clash. That there are no listings is right.
pub fn clean_targets_are_derived()
    ensures derived { CleanTargetsAreDerived }
    ensures none_listed { NoListingIsRight }
{}

/// Of the jobs that are derived then, each whose listings are known is good: a run of it on clean inputs can't fail.
pub fn derived_jobs_are_good()
    ensures good { DerivedJobsAreGood }
    ensures ends { GoodJobsEndWell }
{}

/// Where all jobs of a last plan are Clean, the targets that have clean values are current.
pub fn clean_plan_is_current()
    ensures { CleanPlanIsCurrent }
{}

/// In a sound folder in which no job runs the chain of plans refuses nothing else than what depends on how the folder stands and what the call
/// allows: marks, read-only files, bounds, lengths of commands, too many paths, and clashes. And each chain is refused or has a last plan.
pub fn clean_targets_are_planned()
    ensures planned { CleanTargetsArePlanned }
    ensures end { ChainsEnd }
{}

/// In a workflow that was read of files an item of inputs that gathers has no texts written out besides.
pub fn read_workflows_gather_alone()
    ensures { ReadFlowsGatherAlone }
{}

/// In a command the places of logs fill with the texts of the items that stood there by their names.
pub fn places_fill_by_name()
    ensures { PlacesFillByName }
{}

/// And none of these places is missing: only a field that names no item, and has no value without names.
pub fn places_are_known()
    ensures { PlacesAreKnown }
{}

/// What is loaded of a folder is told by the files that are read: the workflow's file and its includes, and the configurations that they name.
pub fn workflows_are_told_by_their_files()
    ensures { LoadedByFiles }
{}
