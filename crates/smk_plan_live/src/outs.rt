//! The outputs of a recipe as flat lists.

ghost use Rattle.std.specs.Prelude.{◌≡◌, ◌++◌, map, IfOk, OnOk};
ghost use Rattle.std.specs.List.{flat_map};
ghost use Rattle.smk_plan_live.specs.Sites.{out_path};

use smk_base::{Copied, List, OutOfMemory, PathText};
use smk_world::{Out, OutItem};
use std::alloc::Global;

// Adds the outputs.
fn push_outs(alloc: Global, found: &mut List<Out>, outs: &[Out]) -> Result<(), OutOfMemory>
    ensures { OnOk result (found.new ≡ found.old ++ outs.now) }
{
    for out in outs {
        found.push(out.copied(alloc)?)?;
    }
    Ok(())
}

/// The outputs of the items, in order.
pub(crate) fn outs_in(alloc: Global, items: &[OutItem]) -> Result<List<Out>, OutOfMemory>
    ensures { IfOk result (λ outs. outs ≡ flat_map (λ item. item.outs) items.now) }
{
    let mut outs = List::new(alloc);
    for item in items {
        push_outs(alloc, &mut outs, item.outs.as_slice())?;
    }
    Ok(outs)
}

// Adds the paths of the outputs.
fn push_out_paths(
    alloc: Global,
    found: &mut List<PathText>,
    outs: &[Out],
) -> Result<(), OutOfMemory>
    ensures { OnOk result (found.new ≡ found.old ++ map out_path outs.now) }
{
    for out in outs {
        found.push(out.path.copy(alloc)?)?;
    }
    Ok(())
}

/// The paths of the outputs of the items, in order.
pub(crate) fn out_paths_in(alloc: Global, items: &[OutItem]) -> Result<List<PathText>, OutOfMemory>
    ensures { IfOk result (λ paths. paths ≡ flat_map (λ item. map out_path item.outs) items.now) }
{
    let mut paths = List::new(alloc);
    for item in items {
        push_out_paths(alloc, &mut paths, item.outs.as_slice())?;
    }
    Ok(paths)
}
