//! A job is taken up by the device.

ghost use Rattle.std.specs.Prelude.{◌≡◌, Some, false, IfOk, IfErr};
ghost use Rattle.std.specs.List.{slice_get};
ghost use Rattle.smk_world.specs.Devices.{Sunk, WhereTold};
ghost use Rattle.smk_laws_turns.specs.Turning.{faulted};
ghost use Rattle.smk_laws_begins.specs.Begins.{MayTake};
ghost use Rattle.smk_laws_begins.specs.Noting.{IsBeginFault};
ghost use Rattle.smk_drive_hub.specs.Keeping.{parts_of};
ghost use Rattle.smk_drive_hub.specs.Turned.{HasTurned, Somewhere};
ghost use Rattle.smk_plan_live.specs.Lives.{IsLive};
ghost use Rattle.smk_drive_begin.specs.Kits.{IsBegunWith, IsKitOf};

use crate::kit::Kit;
use smk_drive_hub::{Ground, Hub};
use smk_drive_step::begin_job;
use smk_flow::Job;
use smk_format::{rule_name, too_long};
use smk_job::{BeginFault, Going};
use smk_report::Fault;
use smk_world::Crew;
use std::alloc::Global;
use std::thread::Threads;

// Why a job of this rule doesn't begin. `OutOfMemory` also where there is no memory for the rule's name.
fn fault_of(alloc: Global, rule: &str, why: BeginFault) -> Fault
    ensures { IsBeginFault rule.now why result }
{
    match why {
        BeginFault::TooLong(bytes) => too_long(alloc, rule, bytes),
        BeginFault::Device => Fault::Device,
        BeginFault::OutOfMemory => Fault::OutOfMemory,
    }
}

/// Begins the job of the number, which is next, with what was put together for it: its child runs then. Where it doesn't begin no further job does.
pub(crate) fn take_up<W: Crew, Rt: Threads + Sync>(
    rt: &Rt,
    alloc: Global,
    ground: Ground<'_>,
    hub: &Hub,
    number: u32,
    job: &Job,
    kit: &Kit,
    work: &mut W,
) -> Result<Going, Fault>
    requires job { slice_get hub.now.live.base.jobs.jobs number ≡ Some job.now }
    requires kit { IsKitOf ground.flow.now ground.settings.now (parts_of hub.now) number job.now kit.now }
    requires may { MayTake ground.settings.now (parts_of hub.now) number }
    requires live { IsLive hub.now.live }
    requires somewhere { WhereTold (W.device work.old) (λ w. Somewhere ground.flow.now ground.settings.now (parts_of hub.now) w) }
    ensures ok { IfOk result (λ going. IsBegunWith W.act ground.entry.settings.now (parts_of hub.now) number job.now kit.now going (W.device work.old) (W.device work.new)) }
    ensures err { IfErr result (λ f. (o : Sunk) → HasTurned W.act ground.entry.flow.now ground.entry.settings.now (parts_of hub.now) (faulted f (parts_of hub.now)) false
        (W.device work.old) (W.device work.new) o o) }
{
    match begin_job(
        rt,
        alloc,
        job,
        kit.known.as_slice(),
        kit.made,
        kit.command.as_str(),
        work,
    ) {
        Ok(going) => Ok(going),
        Err(why) => Err(fault_of(alloc, rule_name(ground.flow, job.rule), why)),
    }
}
