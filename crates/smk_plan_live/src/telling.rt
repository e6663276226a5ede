//! What a base tells: the plan of its jobs, and whether a job is held back.

ghost use Rattle.std.specs.Prelude.{◌≡◌, ◌≢◌, ◌++◌, ◌∷◌, [], length, map, IfOk, IfErr, OnOk, if◌then◌else◌};
ghost use Rattle.smk_plan.specs.States.{job_path};
ghost use Rattle.smk_plan_states.specs.Served.{AreServed};
ghost use Rattle.smk_plan_states.specs.Tables.{IsTableOf};
ghost use Rattle.smk_plan_live.specs.Phases.{has_begun, begun_in};
ghost use Rattle.smk_plan_states.specs.Standing.{StandsBy};
ghost use Rattle.smk_plan_table.specs.Plans.{plan_by};
ghost use Rattle.smk_plan_states.specs.Rows.{FitOwn};
ghost use Rattle.smk_plan_live.specs.Kept.{forced_now, own_now, told_by_flags};
ghost use Rattle.smk_plan_live.specs.Learning.{FitStill};
ghost use Rattle.smk_plan_live.specs.Lives.{AreLentNow, AreRanked, FollowsLent, IsNow, IsRefusedNow, IsSound};

use crate::Phase;
use crate::base::Base;
use crate::learning::learn_with;
use smk_base::{List, OutOfMemory, PathText};
use smk_chain::first_output;
use smk_flow::Job;
use smk_pick::Settings;
use smk_plan::PlanFault;
use smk_plan_facts::told_is_so;
use smk_plan_states::{Lack, Last, Own, Rows, Table};
use smk_plan_table::{Ranked, Suspect, plan_now};
use smk_trigger::Judge;
use std::alloc::Global;

/// A plan by ranks, and whether some job is to be restored but counts as Clean.
#[derive(Drop)]
pub(crate) struct Made {
    pub(crate) ranked: Ranked,
    pub(crate) held: bool,
}

// Whether it has begun.
fn has_begun(phase: Phase) -> bool
    ensures { result ≡ has_begun phase }
{
    match phase {
        Phase::Waiting => false,
        Phase::Running => true,
        Phase::Closed => true,
    }
}

// Adds the first output of the job.
fn push_name(alloc: Global, found: &mut List<PathText>, job: &Job) -> Result<(), OutOfMemory>
    ensures { OnOk result (found.new ≡ found.old ++ job_path job.now ∷ []) }
{
    let Some(path) = first_output(job) else {
        return Err(OutOfMemory);
    };
    found.push(path.copy(alloc)?)
}

// The same where the job has begun.
fn push_begun(
    alloc: Global,
    found: &mut List<PathText>,
    job: &Job,
    phase: Phase,
) -> Result<(), OutOfMemory>
    ensures { OnOk result (found.new ≡ found.old ++ (if has_begun phase then job_path job.now ∷ [] else [])) }
{
    if !has_begun(phase) {
        return Ok(());
    }
    push_name(alloc, found, job)
}

/// The first outputs of the jobs that have begun. `OutOfMemory` also where one of them has no output.
pub(crate) fn begun_of(
    alloc: Global,
    jobs: &[Job],
    phases: &[Phase],
) -> Result<List<PathText>, OutOfMemory>
    ensures { IfOk result (λ names. names ≡ begun_in jobs.now phases.now) }
{
    let mut found = List::new(alloc);
    let mut rest = phases;
    for job in jobs {
        let Some((phase, more)) = rest.split_first() else {
            return Ok(found);
        };
        push_begun(alloc, &mut found, job, *phase)?;
        rest = more;
    }
    Ok(found)
}

// For each job whether it has begun.
fn begun_flags(alloc: Global, phases: &[Phase]) -> Result<Vec<bool>, OutOfMemory>
    ensures { IfOk result (λ found. found.items ≡ map has_begun phases.now) }
{
    let mut found = Vec::with_capacity(alloc, phases.len())?;
    for phase in phases {
        found.push(has_begun(*phase))?;
    }
    Ok(found)
}

/// Why nothing is told: a fault of the plan; or it isn't known whether the job of the number has reasons of its own, on which it hangs.
#[derive(Drop)]
enum Untold {
    Fault(PlanFault),
    Lacks(usize),
}

// The plan, and whether a job is held back, where these have begun.
fn tell_by(
    alloc: Global,
    base: &Base,
    settings: &Settings,
    table: &Table,
    outputs: &[List<bool>],
    makers: &[bool],
    forced: &[bool],
    own: &[Own],
    begun: &[bool],
    suspects: &[Suspect],
    last: Option<Last<'_>>,
) -> Result<Made, Untold>
    requires table { IsTableOf base.now.jobs settings.now.targets table.now }
    requires begun { begun.now ≡ map has_begun base.now.phases }
    requires sound { IsSound base.now }
    requires forced { AreServed base.now.jobs settings.now.targets → forced.now ≡ forced_now settings.now base.now }
    ensures targets { IfOk result (λ made. length made.ranked.current ≡ length settings.now.targets) }
    ensures standing { IfOk result (λ made. AreServed base.now.jobs settings.now.targets → FitOwn own.now (own_now settings.now base.now)
        → FollowsLent settings.now base.now table.now outputs.now makers.now forced.now last.entry
        → StandsBy table.now (told_by_flags base.now outputs.now makers.now forced.now) made.ranked.ranking) }
    ensures ranked { IfOk result (λ made. FollowsLent settings.now base.now table.now outputs.now makers.now forced.now last.entry
        → (AreServed base.now.jobs settings.now.targets → AreLentNow settings.now base.now outputs.now makers.now own.now suspects.now)
        → AreRanked settings.now base.now made.ranked.ranking (plan_by table.now (told_by_flags base.now outputs.now makers.now forced.now) made.ranked)) }
    ensures now { IfOk result (λ made. FollowsLent settings.now base.now table.now outputs.now makers.now forced.now last.entry
        → (AreServed base.now.jobs settings.now.targets → AreLentNow settings.now base.now outputs.now makers.now own.now suspects.now)
        → IsNow settings.now base.now (plan_by table.now (told_by_flags base.now outputs.now makers.now forced.now) made.ranked) made.held) }
    ensures refused { IfErr result (λ untold. (fault : PlanFault) → untold ≡ Untold.Fault fault → fault ≢ PlanFault.OutOfMemory → FollowsLent settings.now base.now table.now outputs.now makers.now forced.now last.entry
        → (AreServed base.now.jobs settings.now.targets → AreLentNow settings.now base.now outputs.now makers.now own.now suspects.now)
        → IsRefusedNow settings.now base.now fault) }
{
    told_is_so();
    let rows = Rows {
        outputs,
        makers,
        own,
        running: base.began.as_slice(),
    };
    match table.rank(alloc, &rows, last) {
        Err(Lack::Memory) => Err(Untold::Fault(PlanFault::OutOfMemory)),
        Err(Lack::Own(number)) => Err(Untold::Lacks(number)),
        Ok(ranking) => match plan_now(
            alloc, &base.jobs, table, base, settings, &rows, begun, suspects, ranking,
        ) {
            Err(fault) => Err(Untold::Fault(fault)),
            Ok(ranked) => match table.holds_back(alloc, &rows, &ranked.ranking) {
                Err(_) => Err(Untold::Fault(PlanFault::OutOfMemory)),
                Ok(held) => Ok(Made { ranked, held }),
            },
        },
    }
}

// Of how many more jobs the turn after this one learns.
fn next_more(turn: usize, more: usize) -> usize {
    if turn < 4 {
        return 0;
    }
    more.saturating_mul(2).saturating_add(1)
}

/// The plan of the jobs by what is lent: the rows of this moment, which of the makers' paths are whole, which jobs have reasons of their own, so far as that is known, and what
/// may be refused of each job; and whether a job is held back. The judge is asked once about each job on whose reasons it hangs and of which nothing is known, and what it says
/// is noted; with them it may be asked about some of the readers of which nothing is known. `last` is what was kept before a step of one job, or nothing: then ranks are told
/// anew only where the step changes them, if no other job's rank does.
///
/// The faults are those of a plan.
pub(crate) fn tell<J: Judge>(
    alloc: Global,
    base: &Base,
    settings: &Settings,
    table: &Table,
    outputs: &[List<bool>],
    makers: &[bool],
    forced: &[bool],
    own: &mut Vec<Own>,
    suspects: &[Suspect],
    last: Option<Last<'_>>,
    readers: &[usize],
    judge: &J,
) -> Result<Made, PlanFault>
    requires table { IsTableOf base.now.jobs settings.now.targets table.now }
    requires sound { IsSound base.now }
    requires forced { AreServed base.now.jobs settings.now.targets → forced.now ≡ forced_now settings.now base.now }
    ensures fits { FitStill base.now forced.now own.old.items own.new.items }
    ensures targets { IfOk result (λ made. length made.ranked.current ≡ length settings.now.targets) }
    ensures standing { IfOk result (λ made. AreServed base.now.jobs settings.now.targets → FitOwn own.new.items (own_now settings.now base.now)
        → FollowsLent settings.now base.now table.now outputs.now makers.now forced.now last.entry
        → StandsBy table.now (told_by_flags base.now outputs.now makers.now forced.now) made.ranked.ranking) }
    ensures ranked { IfOk result (λ made. FollowsLent settings.now base.now table.now outputs.now makers.now forced.now last.entry
        → (AreServed base.now.jobs settings.now.targets → AreLentNow settings.now base.now outputs.now makers.now own.new.items suspects.now)
        → AreRanked settings.now base.now made.ranked.ranking (plan_by table.now (told_by_flags base.now outputs.now makers.now forced.now) made.ranked)) }
    ensures now { IfOk result (λ made. FollowsLent settings.now base.now table.now outputs.now makers.now forced.now last.entry
        → (AreServed base.now.jobs settings.now.targets → AreLentNow settings.now base.now outputs.now makers.now own.new.items suspects.now)
        → IsNow settings.now base.now (plan_by table.now (told_by_flags base.now outputs.now makers.now forced.now) made.ranked) made.held) }
    ensures refused { IfErr result (λ fault. fault ≢ PlanFault.OutOfMemory → FollowsLent settings.now base.now table.now outputs.now makers.now forced.now last.entry
        → (AreServed base.now.jobs settings.now.targets → AreLentNow settings.now base.now outputs.now makers.now own.new.items suspects.now)
        → IsRefusedNow settings.now base.now fault) }
{
    let begun = match begun_flags(alloc, base.phases.as_slice()) {
        Err(_) => return Err(PlanFault::OutOfMemory),
        Ok(begun) => begun,
    };
    let mut more = 0usize;
    // Each turn but the last learns of one job, and after a few of twice as many more as the turn before, so that a job with many readers costs few turns.
    for turn in 0..own.len().saturating_add(1) {
        match tell_by(
            alloc,
            base,
            settings,
            table,
            outputs,
            makers,
            forced,
            own.as_slice(),
            begun.as_slice(),
            suspects,
            last,
        ) {
            Ok(made) => return Ok(made),
            Err(Untold::Fault(fault)) => return Err(fault),
            Err(Untold::Lacks(number)) => {
                if learn_with(alloc, base, forced, judge, own, number, readers, more).is_err() {
                    return Err(PlanFault::OutOfMemory);
                }
                more = next_more(turn, more);
            }
        }
    }
    Err(PlanFault::OutOfMemory)
}

/// The same where it is known of each job whether it has reasons of its own, and nothing was kept before. The faults are those of a plan; `OutOfMemory` too where it isn't known.
pub(crate) fn tell_known(
    alloc: Global,
    base: &Base,
    settings: &Settings,
    table: &Table,
    outputs: &[List<bool>],
    makers: &[bool],
    forced: &[bool],
    own: &[Own],
    suspects: &[Suspect],
) -> Result<Made, PlanFault>
    requires table { IsTableOf base.now.jobs settings.now.targets table.now }
    requires sound { IsSound base.now }
    requires forced { AreServed base.now.jobs settings.now.targets → forced.now ≡ forced_now settings.now base.now }
    ensures targets { IfOk result (λ made. length made.ranked.current ≡ length settings.now.targets) }
    ensures standing { IfOk result (λ made. AreServed base.now.jobs settings.now.targets → FitOwn own.now (own_now settings.now base.now)
        → StandsBy table.now (told_by_flags base.now outputs.now makers.now forced.now) made.ranked.ranking) }
    ensures ranked { IfOk result (λ made. (AreServed base.now.jobs settings.now.targets → AreLentNow settings.now base.now outputs.now makers.now own.now suspects.now)
        → AreRanked settings.now base.now made.ranked.ranking (plan_by table.now (told_by_flags base.now outputs.now makers.now forced.now) made.ranked)) }
    ensures now { IfOk result (λ made. (AreServed base.now.jobs settings.now.targets → AreLentNow settings.now base.now outputs.now makers.now own.now suspects.now)
        → IsNow settings.now base.now (plan_by table.now (told_by_flags base.now outputs.now makers.now forced.now) made.ranked) made.held) }
    ensures refused { IfErr result (λ fault. fault ≢ PlanFault.OutOfMemory → (AreServed base.now.jobs settings.now.targets → AreLentNow settings.now base.now outputs.now makers.now own.now suspects.now)
        → IsRefusedNow settings.now base.now fault) }
{
    match begun_flags(alloc, base.phases.as_slice()) {
        Err(_) => Err(PlanFault::OutOfMemory),
        Ok(begun) => match tell_by(
            alloc,
            base,
            settings,
            table,
            outputs,
            makers,
            forced,
            own,
            begun.as_slice(),
            suspects,
            None,
        ) {
            Ok(made) => Ok(made),
            Err(Untold::Fault(fault)) => Err(fault),
            Err(Untold::Lacks(_)) => Err(PlanFault::OutOfMemory),
        },
    }
}
