//! One round in which the plan grows.

ghost use Rattle.std.specs.Prelude.{◌≡◌, ◌≢◌, [], None, IfErr, OnOk};
ghost use Rattle.smk_world.specs.Devices.{HasActed};
ghost use Rattle.smk_plan_live.specs.Lives.{IsLive};
ghost use Rattle.smk_report.specs.declared.fault.Fault.TheVariants as fault;
ghost use Rattle.smk_plan_preview.specs.Faults.{device_failed};
ghost use Rattle.smk_laws_turns.specs.Resting.{refused_command};
ghost use Rattle.smk_drive_hub.specs.Keeping.{parts_of};
ghost use Rattle.smk_drive_close.specs.Rounds.{HasMoved, IsRound, IsRoundOn};

use crate::taking::take_in;
use smk_drive_hub::{Ground, Hub, check_texts};
use smk_drive_more::find_more;
use smk_report::Fault;
use smk_world::Files;
use std::alloc::Global;
use std::thread::Threads;

// Lets the plan grow by what the directories that have become known make of it, but for the commands of its jobs.
fn round<W: Files, Rt: Threads + Sync>(
    rt: &Rt,
    alloc: Global,
    ground: Ground<'_>,
    hub: &mut Hub,
    work: &mut W,
) -> Result<(), Fault>
    requires live { IsLive hub.old.live }
    ensures acted { HasActed W.act (λ w es. IsRound ground.entry.flow.now ground.entry.settings.now w (parts_of hub.old) (parts_of hub.new) result es)
        (W.device work.old) (W.device work.new) (device_failed result) }
    ensures live { IsLive hub.new.live }
    ensures moved { HasMoved ground.entry.flow.now (parts_of hub.old) (parts_of hub.new) }
    ensures other { IfErr result (λ f. f ≢ fault.Output) }
{
    match find_more(rt, alloc, ground.flow, ground.settings, &hub.live, work) {
        Ok(found) => take_in(rt, alloc, ground.flow, hub, found),
        Err(fault) => Err(fault),
    }
}

/// The same, and then looks at the commands of the plan that has come.
pub(crate) fn round_on<W: Files, Rt: Threads + Sync>(
    rt: &Rt,
    alloc: Global,
    ground: Ground<'_>,
    hub: &mut Hub,
    work: &mut W,
) -> Result<(), Fault>
    requires live { IsLive hub.old.live }
    requires commands { refused_command ground.flow.now ground.settings.now hub.old.live ≡ None }
    requires known { hub.old.live.plan.known ≢ [] }
    ensures acted { HasActed W.act (λ w es. IsRoundOn ground.entry.flow.now ground.entry.settings.now w (parts_of hub.old) (parts_of hub.new) result es)
        (W.device work.old) (W.device work.new) (device_failed result) }
    ensures live { IsLive hub.new.live }
    ensures moved { HasMoved ground.entry.flow.now (parts_of hub.old) (parts_of hub.new) }
    ensures commands { OnOk result (refused_command ground.entry.flow.now ground.entry.settings.now hub.new.live ≡ None) }
    ensures other { IfErr result (λ f. f ≢ fault.Output) }
{
    match round(rt, alloc, ground, hub, work) {
        Ok(()) => check_texts(alloc, ground.flow, ground.settings, &hub.live),
        Err(fault) => Err(fault),
    }
}
