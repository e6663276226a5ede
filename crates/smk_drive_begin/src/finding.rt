//! The output that is removed next.

ghost use Rattle.std.specs.Prelude.{◌≡◌, IfOk};
ghost use Rattle.smk_world.specs.Trees.{first};
ghost use Rattle.smk_plan_live.specs.Lives.{IsLive};
ghost use Rattle.smk_laws_begins.specs.Sweeping.{IsFirstSpent};

use smk_base::{Copied, OutOfMemory, PathText};
use smk_drive_pick::spent_paths;
use smk_plan_live::LivePlan;
use std::alloc::Global;

// A copy of the first of the paths, if any.
fn copied_first(alloc: Global, paths: &[PathText]) -> Result<Option<PathText>, OutOfMemory>
    ensures { IfOk result (λ found. found ≡ first paths.now) }
{
    match paths.first() {
        Some(path) => Ok(Some(path.copied(alloc)?)),
        None => Ok(None),
    }
}

/// The first output that is spent by the kept plan and may go, if any.
pub(crate) fn first_spent(alloc: Global, live: &LivePlan) -> Result<Option<PathText>, OutOfMemory>
    requires { IsLive live.now }
    ensures { IfOk result (IsFirstSpent live.now) }
{
    let paths = spent_paths(alloc, live)?;
    let found = copied_first(alloc, paths.as_slice())?;
    Ok(found)
}
