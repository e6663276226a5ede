//! The outputs and the sources of jobs, each once.

ghost use Rattle.std.specs.Prelude.{◌∷◌, [], IfOk, OnOk, Some, map};
ghost use Rattle.std.specs.List.{flat_map};
ghost use Rattle.smk_world.specs.Trees.{Each};
ghost use Rattle.smk_plan_look.specs.Gathering.{HasAdded, IsHeld, paths_of, item_paths, job_paths, source_path, wanted};

use smk_base::{OutOfMemory, PathText};
use smk_chain::{Jobs, Maker};
use smk_flow::Job;
use smk_world::{Out, OutItem};
use std::alloc::Global;
use std::collections::BTreeSet;

// Adds the path.
fn add(alloc: Global, paths: &mut BTreeSet<String>, path: &PathText) -> Result<(), OutOfMemory>
    ensures { OnOk result (HasAdded paths.old paths.new (path.now ∷ [])) }
{
    let key = String::from_str(alloc, path.as_str())?;
    paths.insert(key)?;
    Ok(())
}

// Adds the paths of these outputs.
fn add_outs(alloc: Global, paths: &mut BTreeSet<String>, outs: &[Out]) -> Result<(), OutOfMemory>
    ensures { OnOk result (HasAdded paths.old paths.new (paths_of outs.now)) }
{
    for out in outs {
        add(alloc, paths, &out.path)?;
    }
    Ok(())
}

// Adds the paths of the outputs of these items.
fn add_items(
    alloc: Global,
    paths: &mut BTreeSet<String>,
    items: &[OutItem],
) -> Result<(), OutOfMemory>
    ensures { OnOk result (HasAdded paths.old paths.new (flat_map item_paths items.now)) }
{
    for item in items {
        add_outs(alloc, paths, item.outs.as_slice())?;
    }
    Ok(())
}

// Adds the outputs of these jobs.
fn add_jobs(alloc: Global, paths: &mut BTreeSet<String>, jobs: &[Job]) -> Result<(), OutOfMemory>
    ensures { OnOk result (HasAdded paths.old paths.new (flat_map job_paths jobs.now)) }
{
    for job in jobs {
        add_items(alloc, paths, job.recipe.outputs.as_slice())?;
    }
    Ok(())
}

// Adds the path, where it is a source.
fn add_source(alloc: Global, paths: &mut BTreeSet<String>, maker: &Maker) -> Result<(), OutOfMemory>
    ensures { OnOk result (HasAdded paths.old paths.new (source_path maker.now)) }
{
    match maker.job {
        Some(_) => Ok(()),
        None => add(alloc, paths, &maker.path),
    }
}

// Adds the sources among these.
fn add_sources(
    alloc: Global,
    paths: &mut BTreeSet<String>,
    makers: &[Maker],
) -> Result<(), OutOfMemory>
    ensures { OnOk result (HasAdded paths.old paths.new (flat_map source_path makers.now)) }
{
    for maker in makers {
        add_source(alloc, paths, maker)?;
    }
    Ok(())
}

/// The outputs of the jobs, and the sources among the makers.
pub(crate) fn paths_in(alloc: Global, jobs: &Jobs) -> Result<BTreeSet<String>, OutOfMemory>
    ensures { IfOk result (λ paths. Each (IsHeld paths) (wanted jobs.now)) }
{
    let mut paths = BTreeSet::new(alloc);
    add_jobs(alloc, &mut paths, jobs.jobs.as_slice())?;
    add_sources(alloc, &mut paths, jobs.makers.as_slice())?;
    Ok(paths)
}
