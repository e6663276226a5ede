//! Outputs that are spent are removed between jobs.

ghost use Rattle.smk_world.specs.Devices.{WhereTold};
ghost use Rattle.smk_drive_course.specs.Steps.{MaySpend};
ghost use Rattle.smk_drive_hub.specs.Keeping.{parts_of};
ghost use Rattle.smk_drive_hub.specs.Turned.{WhereUnhalted};
ghost use Rattle.smk_laws_begins.specs.Standing.{IsOver, IsReady};
ghost use Rattle.smk_drive_run.specs.LoopKeeping.{HasStayed};

use smk_drive_begin::sweep;
use smk_drive_hub::{Ground, Hub};
use smk_world::Files;
use std::alloc::Global;

// Removes the outputs that are spent. If no job has a temporary output nothing can be spent, and the plan needn't be gone through for it.
fn spend<W: Files>(alloc: Global, ground: Ground<'_>, hub: &mut Hub, work: &mut W)
    requires ready { IsReady ground.flow.now ground.settings.now (parts_of hub.old) (W.device work.old) }
    requires late { WhereTold (W.device work.old) (λ w. WhereUnhalted MaySpend ground.flow.now ground.settings.now (parts_of hub.old) w) }
    ensures { HasStayed W.act ground.entry.flow.now ground.entry.settings.now (parts_of hub.old) (parts_of hub.new) (W.device work.old) (W.device work.new) }
{
    let limits = hub.live.limits();
    if !limits.temporary {
        return;
    }
    sweep(alloc, ground, hub, work);
}

/// Removes the outputs that are spent, once a job was started.
pub(crate) fn spend_once_started<W: Files>(
    alloc: Global,
    ground: Ground<'_>,
    hub: &mut Hub,
    work: &mut W,
)
    requires ready { IsReady ground.flow.now ground.settings.now (parts_of hub.old) (W.device work.old) }
    ensures { HasStayed W.act ground.entry.flow.now ground.entry.settings.now (parts_of hub.old) (parts_of hub.new) (W.device work.old) (W.device work.new) }
{
    if hub.tally.started == 0 {
        return;
    }
    spend(alloc, ground, hub, work);
}

/// Removes them where no job begins: also where none was started, unless one failed and the run isn't to go on.
pub(crate) fn spend_at_rest<W: Files>(
    alloc: Global,
    ground: Ground<'_>,
    hub: &mut Hub,
    work: &mut W,
)
    requires ready { IsReady ground.flow.now ground.settings.now (parts_of hub.old) (W.device work.old) }
    requires over { IsOver ground.settings.now (parts_of hub.old) }
    ensures { HasStayed W.act ground.entry.flow.now ground.entry.settings.now (parts_of hub.old) (parts_of hub.new) (W.device work.old) (W.device work.new) }
{
    if !hub.goes_on(ground.settings) {
        return spend_once_started(alloc, ground, hub, work);
    }
    spend(alloc, ground, hub, work);
}
