//! Which jobs have begun.

ghost use Rattle.std.specs.Prelude.{◌≡◌, map, IfOk};
ghost use Rattle.std.specs.BTreeSet.{contains_text};
ghost use Rattle.smk_world.specs.Trees.{among};
ghost use Rattle.smk_plan.specs.States.{job_path};

use smk_base::{OutOfMemory, PathText};
use smk_chain::sets::set_of;
use smk_flow::Job;
use smk_plan::name_of;
use std::alloc::Global;
use std::collections::BTreeSet;

// Whether the job is named by one of these paths.
fn is_named(job: &Job, paths: &BTreeSet<String>) -> bool
    ensures { result ≡ contains_text paths.now (job_path job.now) }
{
    paths.contains(name_of(job))
}

// For each job whether it is named by one of these paths.
fn named_by(alloc: Global, jobs: &[Job], paths: &BTreeSet<String>) -> Result<Vec<bool>, OutOfMemory>
    ensures { IfOk result (λ found. found.items ≡ map (λ j. contains_text paths.now (job_path j)) jobs.now) }
{
    let mut found = Vec::new(alloc);
    for job in jobs {
        found.push(is_named(job, paths))?;
    }
    Ok(found)
}

/// For each job whether it has begun, where those with the first outputs `ran` have.
pub(crate) fn begun_of(
    alloc: Global,
    jobs: &[Job],
    ran: &[PathText],
) -> Result<Vec<bool>, OutOfMemory>
    ensures { IfOk result (λ found. found.items ≡ map (λ j. among ran.now (job_path j)) jobs.now) }
{
    let paths = set_of(alloc, ran)?;
    let found = named_by(alloc, jobs, &paths)?;
    Ok(found)
}
