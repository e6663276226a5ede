//! What is refused of a plan first.

ghost use Rattle.std.specs.Prelude.{◌≡◌, ◌++◌, ◌∷◌, [], IfOk, OnOk, if◌then◌else◌};
ghost use Rattle.std.specs.List.{AllZip};
ghost use Rattle.smk_world.specs.Trees.{first};
ghost use Rattle.smk_plan_table.specs.Parts.{shown, before_in, idle_in, marked_in, guarded_in, all_above, refusals_in, IsSuspectOf};

use crate::doubting::may_be_refused;
use crate::guarding::first_guarded;
use crate::marking::marked_among;
use crate::outputs::outputs_of;
use crate::room::first_above;
use crate::suspects::Suspect;
use smk_base::OutOfMemory;
use smk_flow::Job;
use smk_pick::Settings;
use smk_plan::{PlanFault, Told};
use smk_plan_states::{Rank, is_to_run};
use smk_trigger::State;
use std::alloc::Global;

// Adds the job where this holds.
fn push_if<'j>(found: &mut Vec<&'j Job>, holds: bool, job: &'j Job) -> Result<(), OutOfMemory>
    ensures { OnOk result (shown found.new.items ≡ shown found.old.items ++ (if holds then job.now ∷ [] else [])) }
{
    if !holds {
        return Ok(());
    }
    found.push(job)?;
    Ok(())
}

// Those of the jobs that have to run and haven't begun, in order.
fn ahead<'j>(
    alloc: Global,
    jobs: &'j [Job],
    ranks: &[Rank],
    begun: &[bool],
) -> Result<Vec<&'j Job>, OutOfMemory>
    ensures { IfOk result (λ found. shown found.items ≡ before_in jobs.now ranks.now begun.now) }
{
    let mut found = Vec::new(alloc);
    let mut rest = ranks;
    let mut flags = begun;
    for job in jobs {
        let Some((rank, more)) = rest.split_first() else {
            return Ok(found);
        };
        let Some((has_begun, others)) = flags.split_first() else {
            return Ok(found);
        };
        push_if(&mut found, is_to_run(*rank) && !*has_begun, job)?;
        rest = more;
        flags = others;
    }
    Ok(found)
}

// Those of the jobs whose child doesn't run, in order. `running` has for each job the state that it had when it began, if its child runs.
fn idle_among<'j>(
    alloc: Global,
    jobs: &'j [Job],
    running: &[Option<State>],
) -> Result<Vec<&'j Job>, OutOfMemory>
    ensures { IfOk result (λ found. shown found.items ≡ idle_in jobs.now running.now) }
{
    let mut found = Vec::new(alloc);
    let mut rest = running;
    for job in jobs {
        let Some((kept, more)) = rest.split_first() else {
            return Ok(found);
        };
        push_if(&mut found, kept.is_none(), job)?;
        rest = more;
    }
    Ok(found)
}

// All marked outputs of these jobs, unless incomplete jobs are to be run again.
fn incomplete<T: Told>(
    alloc: Global,
    jobs: &[&Job],
    told: &T,
    rerun: bool,
) -> Result<Option<PlanFault>, OutOfMemory>
    ensures { IfOk result (λ found. found ≡ first (marked_in (T.known told.now) rerun (shown jobs.now))) }
{
    if rerun {
        return Ok(None);
    }
    let outputs = outputs_of(alloc, jobs)?;
    let paths = marked_among(alloc, told, outputs.as_slice())?;
    if paths.is_empty() {
        return Ok(None);
    }
    Ok(Some(PlanFault::Incomplete { paths }))
}

// The first read-only file in the way of one of these jobs.
fn protected<T: Told>(
    alloc: Global,
    jobs: &[&Job],
    told: &T,
) -> Result<Option<PlanFault>, OutOfMemory>
    ensures { IfOk result (λ found. found ≡ first (guarded_in (T.seen told.now) (shown jobs.now))) }
{
    let outputs = outputs_of(alloc, jobs)?;
    match first_guarded(told, outputs.as_slice()) {
        None => Ok(None),
        Some(path) => Ok(Some(PlanFault::Protected {
            path: path.copy(alloc)?,
        })),
    }
}

// The first thing that is refused of jobs that have to run.
fn refused_ahead<T: Told>(
    alloc: Global,
    jobs: &[&Job],
    told: &T,
    settings: &Settings,
) -> Result<Option<PlanFault>, OutOfMemory>
    ensures { IfOk result (λ found. found ≡ first (guarded_in (T.seen told.now) (shown jobs.now) ++ all_above settings.now.bounds (shown jobs.now))) }
{
    match protected(alloc, jobs, told)? {
        Some(fault) => Ok(Some(fault)),
        None => first_above(alloc, jobs, &settings.bounds),
    }
}

// The first thing that is refused, where the children of `idle` don't run, and those in `front` have to run and haven't begun.
fn refused_of<T: Told>(
    alloc: Global,
    idle: &[&Job],
    front: &[&Job],
    told: &T,
    settings: &Settings,
) -> Result<Option<PlanFault>, OutOfMemory>
    ensures { IfOk result (λ found. found ≡ first (refusals_in (T.known told.now) (T.seen told.now) settings.now (shown idle.now) (shown front.now))) }
{
    match incomplete(alloc, idle, told, settings.rerun_incomplete)? {
        Some(fault) => Ok(Some(fault)),
        None => refused_ahead(alloc, front, told, settings),
    }
}

/// The first thing that is refused of jobs of these ranks. `running` has for each the state that it had when it began, if its child runs, `begun` tells for each
/// whether it has begun, and `suspects` what may be refused of it: what isn't suspected of any isn't looked for.
pub(crate) fn first_refusal<T: Told>(
    alloc: Global,
    jobs: &[Job],
    running: &[Option<State>],
    ranks: &[Rank],
    told: &T,
    settings: &Settings,
    begun: &[bool],
    suspects: &[Suspect],
) -> Result<Option<PlanFault>, OutOfMemory>
    ensures { IfOk result (λ found. AllZip (IsSuspectOf (T.known told.now) (T.seen told.now) settings.now.bounds) jobs.now suspects.now
        → found ≡ first (refusals_in (T.known told.now) (T.seen told.now) settings.now (idle_in jobs.now running.now) (before_in jobs.now ranks.now begun.now))) }
{
    let is_doubted = may_be_refused(settings.rerun_incomplete, running, ranks, suspects);
    if !is_doubted {
        return Ok(None);
    }
    let idle = idle_among(alloc, jobs, running)?;
    let front = ahead(alloc, jobs, ranks, begun)?;
    let found = refused_of(alloc, idle.as_slice(), front.as_slice(), told, settings)?;
    Ok(found)
}
