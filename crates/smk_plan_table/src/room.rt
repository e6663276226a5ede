//! Jobs that ask more of a resource than its bound.

ghost use Rattle.std.specs.Prelude.{◌≡◌, IfOk};
ghost use Rattle.smk_world.specs.Trees.{first};
ghost use Rattle.smk_plan_table.specs.Parts.{shown, above_by, above_of, above_in, all_above};

use smk_base::{Amount, List, OutOfMemory};
use smk_chain::first_output;
use smk_flow::Job;
use smk_pick::amount_of;
use smk_plan::PlanFault;
use std::alloc::Global;

// The refusal of a job that asks so much of a resource. Where the job has no output to be named by it can't be told.
fn above(alloc: Global, job: &Job, bound: &Amount, asked: u64) -> Result<PlanFault, OutOfMemory>
    ensures { IfOk result (λ fault. fault ≡ above_by job.now asked bound.now) }
{
    let Some(path) = first_output(job) else {
        return Err(OutOfMemory);
    };
    Ok(PlanFault::AboveLimit {
        rule: job.rule,
        path: path.copy(alloc)?,
        name: bound.name.copy(alloc)?,
        asked,
        bound: bound.count,
    })
}

// That the job asks more of the resource than its bound, where it does.
fn above_bound(alloc: Global, job: &Job, bound: &Amount) -> Result<Option<PlanFault>, OutOfMemory>
    ensures { IfOk result (λ found. found ≡ first (above_of job.now bound.now)) }
{
    let Some(asked) = amount_of(job.amounts.as_slice(), &bound.name) else {
        return Err(OutOfMemory);
    };
    if asked <= bound.count {
        return Ok(None);
    }
    Ok(Some(above(alloc, job, bound, asked)?))
}

// The first bound that the job asks more than.
fn first_of_job(
    alloc: Global,
    job: &Job,
    bounds: &[Amount],
) -> Result<Option<PlanFault>, OutOfMemory>
    ensures { IfOk result (λ found. found ≡ first (above_in bounds.now job.now)) }
{
    for bound in bounds {
        match above_bound(alloc, job, bound)? {
            Some(fault) => return Ok(Some(fault)),
            None => continue,
        }
    }
    Ok(None)
}

/// The first of these jobs that asks more of a resource than its bound, with the first such bound. `OutOfMemory` also where no number of 64 bits tells how much a
/// job asks.
pub(crate) fn first_above(
    alloc: Global,
    jobs: &[&Job],
    bounds: &List<Amount>,
) -> Result<Option<PlanFault>, OutOfMemory>
    ensures { IfOk result (λ found. found ≡ first (all_above bounds.now (shown jobs.now))) }
{
    for job in jobs {
        match first_of_job(alloc, job, bounds.as_slice())? {
            Some(fault) => return Ok(Some(fault)),
            None => continue,
        }
    }
    Ok(None)
}
