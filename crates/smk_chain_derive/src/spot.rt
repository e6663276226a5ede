//! The outputs and logs of jobs.

ghost use Rattle.std.specs.Prelude.{◌≡◌, ◌++◌, map, IfOk, OnOk};
ghost use Rattle.std.specs.List.{flat_map};
ghost use Rattle.smk_chain.specs.Derive.{spots};
ghost use Rattle.smk_chain_derive.specs.Clashes.{output_of, log_of};

use smk_base::{List, OutOfMemory, PathText};
use smk_flow::Job;
use smk_world::{Out, OutItem};
use std::alloc::Global;

/// The path of an output where the second is true, else that of a log.
pub(crate) type Spot = (PathText, bool);

fn push_outs(alloc: Global, found: &mut List<Spot>, outs: &[Out]) -> Result<(), OutOfMemory>
    ensures { OnOk result (found.new ≡ found.old ++ map output_of outs.now) }
{
    for out in outs {
        found.push((out.path.copy(alloc)?, true))?;
    }
    Ok(())
}

fn push_items(alloc: Global, found: &mut List<Spot>, items: &[OutItem]) -> Result<(), OutOfMemory>
    ensures { OnOk result (found.new ≡ found.old ++ flat_map (λ item. map output_of item.outs) items.now) }
{
    for item in items {
        push_outs(alloc, found, item.outs.as_slice())?;
    }
    Ok(())
}

fn push_logs(alloc: Global, found: &mut List<Spot>, logs: &[PathText]) -> Result<(), OutOfMemory>
    ensures { OnOk result (found.new ≡ found.old ++ map log_of logs.now) }
{
    for path in logs {
        found.push((path.copy(alloc)?, false))?;
    }
    Ok(())
}

fn push_job(alloc: Global, found: &mut List<Spot>, job: &Job) -> Result<(), OutOfMemory>
    ensures { OnOk result (found.new ≡ found.old ++ spots job.now) }
{
    push_items(alloc, found, job.recipe.outputs.as_slice())?;
    push_logs(alloc, found, job.logs.as_slice())?;
    Ok(())
}

/// The outputs and then the logs of each job, in order.
pub(crate) fn spots_of(alloc: Global, jobs: &[Job]) -> Result<List<Spot>, OutOfMemory>
    ensures { IfOk result (λ found. found ≡ flat_map spots jobs.now) }
{
    let mut found = List::new(alloc);
    for job in jobs {
        push_job(alloc, &mut found, job)?;
    }
    Ok(found)
}
