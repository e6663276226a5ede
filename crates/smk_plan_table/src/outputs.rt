//! The outputs of jobs.

ghost use Rattle.std.specs.Prelude.{◌≡◌, ◌++◌, map, IfOk, OnOk};
ghost use Rattle.smk_plan_table.specs.Parts.{shown, paths_in, outputs_of};

use smk_base::{OutOfMemory, PathText};
use smk_flow::Job;
use smk_world::{Out, OutItem};
use std::alloc::Global;

// Adds the paths of the outputs.
fn push_outs<'j>(found: &mut Vec<&'j PathText>, outs: &'j [Out]) -> Result<(), OutOfMemory>
    ensures { OnOk result (shown found.new.items ≡ shown found.old.items ++ map (λ o. o.path) outs.now) }
{
    for out in outs {
        found.push(&out.path)?;
    }
    Ok(())
}

// Adds the paths of the outputs of each item.
fn push_items<'j>(found: &mut Vec<&'j PathText>, items: &'j [OutItem]) -> Result<(), OutOfMemory>
    ensures { OnOk result (shown found.new.items ≡ shown found.old.items ++ paths_in items.now) }
{
    for item in items {
        push_outs(found, item.outs.as_slice())?;
    }
    Ok(())
}

/// The outputs of these jobs, in order.
pub(crate) fn outputs_of<'j>(
    alloc: Global,
    jobs: &[&'j Job],
) -> Result<Vec<&'j PathText>, OutOfMemory>
    ensures { IfOk result (λ found. shown found.items ≡ outputs_of (shown jobs.now)) }
{
    let mut found = Vec::new(alloc);
    for job in jobs {
        push_items(&mut found, job.recipe.outputs.as_slice())?;
    }
    Ok(found)
}
